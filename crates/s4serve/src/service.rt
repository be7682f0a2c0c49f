//! What all threads of a service share.
ghost use Rattle.std.specs.Prelude.{◌≡◌, Contains, string_bytes};

use crate::heard::StopLine;
use crate::waiting::Lines;
use group_commit::Monitor;
use image_keeping::Keeper;
use kept_drive::{KeptImage, KeptReceipt};
use s4_types::Role;
use server::{Pace, Running, SharedDrive};
use serving::Clock;
use std::marker::{Brand, Model, PhantomData};
use std::sync::Mutex;

/// Which service it is: its run, the doors that it was asked to have, and where it begins. Each call
/// that begins a service picks it, with `Brand`.
pub trait Serving: Running {
    ghost use Rattle.std.specs.Prelude.{ℕ, List};
    ghost use Rattle.s4serve.specs.Doors.{DoorFields};

    /// The doors that it was asked to have.
    ghost doors: { List DoorFields };

    /// The moment at which it begins.
    ghost start: { ℕ };
}

impl Serving for Brand {
    ghost use Rattle.std.specs.Prelude.{[]};

    ghost doors = { [] };

    ghost start = { 0 };
}

/// A door of the service that `J` names. None can be made but one that it was asked to have.
#[derive(Drop)]
pub struct Door<J: Serving> {
    role: Role,
    folder: String,
    of: PhantomData<J>,
}

impl<J: Serving> Model for Door<J> {
    ghost use Rattle.std.specs.Prelude.{Contains, string_bytes};
    ghost use Rattle.s4serve.specs.Doors.{DoorFields};

    ghost Value = { DoorFields };

    ghost view = { λ d. record { role = d.role; folder = string_bytes d.folder } };

    ghost invariant = { λ d. Contains J.doors
        (record { role = d.role; folder = string_bytes d.folder }) };
}

impl<J: Serving> Door<J> {
    /// The door of this role with this folder, which the service was asked to have.
    pub(crate) fn new(role: Role, folder: String) -> Self
        requires { Contains J.doors (record { role = role; folder = string_bytes folder }) }
        ensures { result ≡ record { role = role; folder = string_bytes folder } }
    {
        Door {
            role,
            folder,
            of: PhantomData,
        }
    }

    /// What whoever comes by it may do.
    pub(crate) fn role(&self) -> Role
        ensures { result ≡ self.now.role }
    {
        self.role
    }

    pub(crate) fn folder(&self) -> &str
        ensures { result.now ≡ self.now.folder }
    {
        self.folder.as_str()
    }
}

/// What all threads of a service share.
///
/// No thread takes one of these locks while it holds another one, but for two: whoever flushes has
/// the kept image's, and takes the drive's under it; and that of the pace may be taken under the
/// drive's.
pub struct Service<J: Serving, C: Clock, K: Keeper> {
    pub drive: Mutex<SharedDrive<J, C>>,
    /// How the cleaner and the copier get on.
    pub pace: Pace,
    /// What sessions wait for that want their changes kept.
    pub monitor: Monitor<KeptReceipt<J, K>, StopLine<J>>,
    pub kept: Mutex<KeptImage<J, K>>,
    /// The lines that no worker has taken, and the parts of the books that no session has had.
    pub lines: Lines<J>,
    pub doors: Vec<Door<J>>,
    /// The image's path.
    pub image: String,
    // They are all those that it was asked to have.
    ghost asked: { doors.items ≡ J.doors },
}

// Written by hand, so that an owner lets it go by one call.
impl<J: Serving, C: Clock + Drop, K: Keeper + Drop> Drop for Service<J, C, K> {
    fn drop(self) {
        let Service {
            drive: _,
            pace: _,
            monitor: _,
            kept: _,
            lines: _,
            doors: _,
            image: _,
        } = self;
    }
}
