//! Whether any object of a drive is there.
ghost use Rattle.std.specs.Prelude.{◌≡◌, MatchBool};
ghost use Rattle.drive.specs.Fields.{state_in, store_of};
ghost use Rattle.history_restore.specs.Presence.{HasNone, HasObject};

use drive::Drive;
use history_view::next_listed;
use s4_types::ObjectId;
use segment_word::Naming;

/// Whether any object is there now. Nothing is changed.
pub fn has_object<J: Naming>(drive: &mut Drive<J>) -> bool
    ensures there { MatchBool result (HasObject (state_in drive.old)) (HasNone (state_in drive.old)) }
    ensures state { state_in drive.new ≡ state_in drive.old }
    ensures store { store_of drive.new ≡ store_of drive.old }
{
    drive.rules();
    let clock = drive.clock();
    let Some(_listed) = next_listed(drive, ObjectId::new(0), clock, false) else {
        return false;
    };
    true
}
