//! How much room a request leaves: a client's change leaves a reserve to administrators.
ghost use Rattle.std.specs.Prelude.{◌≡◌, ◌/◌};
ghost use Rattle.drive.specs.Fields.{state_in};
ghost use Rattle.server.specs.Reserve.{least_of, least_of_change};

use crate::accounts::Running;
use drive::Drive;
use s4_types::{ObjectRequest, Request, Role};
use std::marker::PhantomData;

/// How many blocks of room the clients of a run leave.
pub(crate) struct Reserve<J: Running> {
    blocks: usize,
    of: PhantomData<J>,
    ghost kept: { blocks ≡ J.reserve },
}

// Written by hand, so that an owner lets it go by one call.
impl<J: Running> Drop for Reserve<J> {
    fn drop(self) {
        let Reserve { blocks: _, of: _ } = self;
    }
}

impl<J: Running> Reserve<J> {
    /// The reserve of a run.
    pub(crate) fn new(blocks: usize) -> Self
        requires { blocks ≡ J.reserve }
    {
        Reserve {
            blocks,
            of: PhantomData,
        }
    }

    /// How many blocks it is.
    pub(crate) fn blocks(&self) -> usize
        ensures { result ≡ J.reserve }
    {
        self.blocks
    }
}

/// What a client's change of an object leaves: half of the reserve where it only takes away.
fn least_of_change<J: Running>(drive: &Drive<J>, reserve: usize, update: &ObjectRequest) -> usize
    ensures { result ≡ least_of_change reserve (state_in drive.now) update.now }
{
    match update {
        ObjectRequest::Delete { .. } => reserve / 2,
        ObjectRequest::Truncate { object, size } => {
            if drive.is_longer(*object, *size) {
                reserve / 2
            } else {
                reserve
            }
        }
        ObjectRequest::Create { .. }
        | ObjectRequest::Write { .. }
        | ObjectRequest::Append { .. }
        | ObjectRequest::SetAttr { .. } => reserve,
    }
}

/// How many blocks of room a request of a role leaves, where clients leave a reserve.
pub(crate) fn least_of<J: Running>(
    drive: &Drive<J>,
    reserve: usize,
    role: Role,
    request: &Request,
) -> usize
    ensures { result ≡ least_of reserve (state_in drive.now) role request.now }
{
    match role {
        Role::Admin => 0,
        Role::Client => match request {
            Request::Update(update) => least_of_change(drive, reserve, update),
            Request::Query(_) => 0,
            Request::Control(_) => 0,
        },
    }
}
