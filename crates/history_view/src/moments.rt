//! Which moments can be read.
ghost use Rattle.std.specs.Prelude.{◌≡◌, ℕ, ◌<◌, ◌≤◌};
ghost use Rattle.s4_model.specs.Visible.{IsVisible};
ghost use Rattle.drive.specs.Fields.{state_in};
ghost use Rattle.history_view.specs.Listing.{is_visible, seen_from};

use drive::Drive;
use s4_types::{Moment, ObjectId};
use segment_word::Naming;

/// Whether a moment of an object can be read: it isn't below the floor, past the clock or hidden.
/// Object 0 is hidden where all are.
pub fn is_visible<J: Naming>(drive: &Drive<J>, object: ObjectId, at: Moment) -> bool
    ensures { result ≡ is_visible (state_in drive.now) object at }
{
    drive.sees(object, at, at)
}

/// The first moment of an object that can be read. The clock's can, so there is one.
pub fn earliest<J: Naming>(drive: &Drive<J>, object: ObjectId) -> Moment
    ensures visible { IsVisible (state_in drive.now) object result }
    ensures first { (t : ℕ) → t < result → IsVisible (state_in drive.now) object t → ⊥ }
{
    drive.rules();
    first_seen(drive, object, drive.floor())
}

/// The first moment of an object, from one on, that can be read. The clock's can, so there is one.
pub fn first_seen<J: Naming>(drive: &Drive<J>, object: ObjectId, from: Moment) -> Moment
    requires reached { from ≤ (state_in drive.now).clock }
    ensures visible { IsVisible (state_in drive.now) object result }
    ensures first { result ≡ seen_from (state_in drive.now) object from }
{
    drive.rules();
    let mut low = from.number();
    let mut high = drive.clock().number();
    while low < high {
        let middle = low + (high - low) / 2;
        if drive.sees(object, Moment::new(low), Moment::new(middle)) {
            high = middle;
        } else {
            low = middle + 1;
        }
    }
    Moment::new(low)
}
