//! What sessions were told and asked, beside the drive that all of them leave.
ghost use Rattle.std.specs.Prelude.{◌≡◌, ℕ, ◌+◌, ◌<◌, length, slice_index_or, sum_by};
ghost use Rattle.server.specs.Accounts.{parts_in, requests_in, changes_in};
ghost use Rattle.server.specs.Attending.{HasSettled, without_part};
ghost use Rattle.server.specs.Sequence.{HasCome};

use crate::accounts::{Part, Running};
use crate::running::Client;
use crate::shared::SharedDrive;
use drive::Drive;
use serving::{Clock, Sink, Source};

/// One session that has ended, where there is one, meets the drive.
fn settle_one<J: Running, S: Source, W: Sink>(drive: &mut Drive<J>, client: &mut Client<J, S, W>)
    ensures settled { HasSettled drive.old.ledger client.old client.new }
    ensures same { drive.new ≡ drive.old }
{
    if let Some(session) = &mut client.session {
        drive.meet(session);
    }
}

/// Each session meets the drive.
fn settle_all<J: Running, S: Source, W: Sink>(drive: &mut Drive<J>, clients: &mut [Client<J, S, W>])
    ensures settled { (i : ℕ) (d : _) → i < length clients.old
        → HasSettled drive.old.ledger (slice_index_or clients.old i d)
        (slice_index_or clients.new i d) }
    ensures same { drive.new ≡ drive.old }
{
    for client in clients.iter_mut() {
        settle_one(drive, client);
    }
}

/// A client's part of the books comes back.
fn take_part<J: Running, S: Source, W: Sink>(all: &mut Part<J>, client: &mut Client<J, S, W>)
    ensures all { all.new ≡ record { parts = all.old.parts + parts_in client.old.part; requests = all.old.requests + requests_in client.old.part; changes = all.old.changes + changes_in client.old.part } }
    ensures client { client.new ≡ without_part client.old }
{
    if let Some(part) = client.part.take() {
        all.merge(part);
    }
}

/// The clients' parts of the books come back.
fn take_parts<J: Running, S: Source, W: Sink>(all: &mut Part<J>, clients: &mut [Client<J, S, W>])
    ensures all { all.new ≡ record {
      parts = all.old.parts + sum_by (λ c. parts_in c.part) clients.old;
      requests = all.old.requests + sum_by (λ c. requests_in c.part) clients.old;
      changes = all.old.changes + sum_by (λ c. changes_in c.part) clients.old;
    } }
    ensures clients { (i : ℕ) (d : _) → i < length clients.old
        → slice_index_or clients.new i d ≡ without_part (slice_index_or clients.old i d) }
{
    for client in clients.iter_mut() {
        take_part(all, client);
    }
}

/// Once all sessions have ended, their parts of the books come back, which shows that the drive is
/// what their requests have made of it, and nobody else's. Then each meets the drive that they
/// leave: its history begins with all that the session had seen, and has the session's own changes
/// at their numbers.
pub fn settle<J: Running, C: Clock + Drop, S: Source, W: Sink>(
    shared: SharedDrive<J, C>,
    rest: Part<J>,
    clients: &mut [Client<J, S, W>],
) -> Drive<J>
    requires parts { rest.parts + sum_by (λ c. parts_in c.part) clients.old ≡ J.parts }
    ensures drive { result ≡ shared }
    ensures come { HasCome J.begins J.moments J.has_upkeep
        (rest.requests + sum_by (λ c. requests_in c.part) clients.old)
        (rest.changes + sum_by (λ c. changes_in c.part) clients.old) result }
    ensures settled { (i : ℕ) (d : _) → i < length clients.old
        → HasSettled result.ledger (without_part (slice_index_or clients.old i d))
        (slice_index_or clients.new i d) }
{
    let mut all = rest;
    take_parts(&mut all, clients);
    let mut drive = shared.close(all);
    settle_all(&mut drive, clients);
    drive
}
