//! What replies reach outside of the program by.
ghost use Rattle.std.specs.Prelude.{◌≡◌, ℕ, ◌+◌, ◌^◌, ◌<◌, List, Option, OnErr, OnOk};
ghost use Rattle.std.specs.Io.KnownBytes.{append_known};
ghost use Rattle.serving.specs.Streams.{AppendsPart, failures_after};
ghost use Rattle.s4_types.specs.declared.requests.Role.{Role as RoleValue};
ghost use Rattle.s4serve.specs.Owing.{AreOwed};

use image_keeping::Keeper;
use kept_drive::KeptReceipt;
use server::Running;
use serving::StreamFailed;

/// What the replies of a session go out to that was asked for at a door.
///
/// What it requires holds on every thread that sends: a client is answered by steps of a session of
/// its door's role alone, and by none that a receipt doesn't cover.
pub trait SessionOutput<K: Keeper> {
    // The role of its door.
    ghost role: { Self → RoleValue };

    // The bytes that were sent, where they are known: from its opening on, or never.
    ghost sent: { Self → Option (List ℕ) };

    // How often it has failed.
    ghost failures: { Self → ℕ };

    /// Sends all the bytes, or fails and has sent a beginning of them.
    fn send<J: Running>(
        &mut self,
        bytes: &[u8],
        receipt: &KeptReceipt<J, K>,
    ) -> Result<(), StreamFailed>
        requires failures { failures self.old + 1 < 2 ^ 64 }
        // With what was sent they are the replies of a session of that role, and the receipt covers
        // each of its steps.
        requires owed { AreOwed J.base J.reserve J.moments (role self.old) (sent self.old) bytes.now
            receipt.now }
        ensures role { role self.new ≡ role self.old }
        ensures ok { OnOk result (sent self.new ≡ append_known (sent self.old) bytes.now) }
        ensures err { OnErr result (AppendsPart (sent self.old) (sent self.new) bytes.now) }
        ensures failures { failures self.new ≡ failures_after (failures self.old) result };
}
