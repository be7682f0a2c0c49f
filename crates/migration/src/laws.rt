//! A law of what is copied, for the layers above: its function does nothing, and the contract is
//! the law.
ghost use Rattle.std.specs.Prelude.{◌≡◌, true, List, Option, Some};
ghost use Rattle.std.specs.List.{Contains};
ghost use Rattle.s4_types.specs.Pointer.{Place};
ghost use Rattle.codec.specs.declared.inodes.Inode.{Inode};
ghost use Rattle.codec.specs.Entry.{EntryFields};
ghost use Rattle.checkpoint.specs.Held.{is_one_of};
ghost use Rattle.migration.specs.Places.{Ascend, data_places, data_pointers};

use block_log::laws::one_place_has_one_name;

/// The places of an object's data are listed by ascending frames and blocks, each once; and they
/// are those to which its pointers refer.
pub fn places_of_data_ascend()
    ensures ascend { (kept : Option Inode) (entries : List EntryFields)
        → Ascend (data_places kept entries) }
    ensures each { (kept : Option Inode) (entries : List EntryFields) (p : Place)
        → Contains (data_pointers kept entries) (Some p)
        → is_one_of (data_places kept entries) p ≡ true }
    ensures only { (kept : Option Inode) (entries : List EntryFields) (p : Place)
        → is_one_of (data_places kept entries) p ≡ true
        → Contains (data_pointers kept entries) (Some p) }
{
    one_place_has_one_name();
}
