//! That each version is printed once, for the layers above: the function changes nothing, and its
//! contract is the laws.
ghost use Rattle.std.specs.Prelude.{ℕ, All};
ghost use Rattle.drive.specs.Fields.{state_in, store_of};
ghost use Rattle.history_export.specs.Versions.{beginnings_of};
ghost use Rattle.history_versions.specs.Printed.{AscendStrictly, EachIsPrinted, IsBegun};

use drive::Drive;
use history_export::laws::each_version_is_read;
use segment_word::Naming;

/// What an object is at a moment that can be read is printed, at that moment or at an earlier one.
/// The moments for which something is printed ascend, no two are equal, and each can be read: it is
/// the first that can from one of the object's changes on, or the first of all.
pub fn each_version_is_printed_once<J: Naming>(drive: &Drive<J>)
    ensures each { EachIsPrinted (state_in drive.now) (store_of drive.now) }
    ensures once { (o : ℕ)
        → AscendStrictly (beginnings_of (state_in drive.now) (store_of drive.now) o) }
    ensures alone { (o : ℕ)
        → All (IsBegun (state_in drive.now) (store_of drive.now) o)
        (beginnings_of (state_in drive.now) (store_of drive.now) o) }
{
    drive.rules();
    each_version_is_read(drive);
}
