//! Laws of objects of images that a drive writes anew: each function does nothing, and its contract
//! is the law.
ghost use Rattle.image_objects.specs.Writing.{AnObjectOfAVersionCanBeWritten};

use chain_rewriting::renaming_laws::what_a_chain_tells;
use codec::laws::entries_grow_little;
use undo_redo::laws::a_blank_inode_has_holes_alone;

/// An object that is in an image, of whichever version, can be written as its row's: its entries
/// with the inode of its checkpoint, if it has one. Each pointer that these have is a hole, or
/// refers to a used data block of the object.
pub fn an_object_of_a_version_can_be_written()
    ensures { AnObjectOfAVersionCanBeWritten }
{
    a_blank_inode_has_holes_alone();
    what_a_chain_tells();
    entries_grow_little();
}
