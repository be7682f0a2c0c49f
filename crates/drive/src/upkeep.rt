//! Upkeep: what leaves the history and each version as they are, whatever it answers.
ghost use Rattle.std.specs.Prelude.{◌≡◌};
ghost use Rattle.s4_model.specs.Audit.{audit_of};
ghost use Rattle.drive.specs.Fields.{state_in};
ghost use Rattle.drive.specs.Upkeep.{Seals, WritesCheckpoint, Marks, Releases};

use crate::drive::Drive;
use s4_model::laws::the_audit_goes_on_row_by_row;
use s4_types::{ObjectId, Refusal};
use segment_word::Naming;

impl<J: Naming> Drive<J> {
    /// Seals the open frame, after which none is open; without effect where none was. What is held
    /// stays; the frame's unused blocks are ahead no longer, so that there may be less room.
    pub fn seal(&mut self)
        ensures { Seals self.old self.new }
    {
        self.store.seal();
    }

    /// Sees to it that an object's checkpoint isn't older than its last journal entry: where it is,
    /// the object's present inode is written as its checkpoint, which takes room; else nothing is
    /// written. An object that is deleted and has a row still is like any other.
    ///
    /// NoObject exactly where the object has no row; else NoSpace exactly where the checkpoint has
    /// to be written and takes more than the room beside the reserve. Then nothing has changed.
    pub fn checkpoint(&mut self, object: ObjectId) -> Result<(), Refusal>
        ensures { WritesCheckpoint object self.old result self.new }
    {
        self.store.checkpoint(object)
    }

    /// A sealed frame of which no block is held is being emptied from now on. Its readers and its
    /// pins stay, and so do all rows, and all that is held.
    ///
    /// InUse exactly where the frame isn't sealed or isn't there, or where one of its blocks is
    /// held. Nothing has changed then.
    pub fn mark(&mut self, frame: u16) -> Result<(), Refusal>
        ensures { Marks frame self.old result self.new }
    {
        self.store.mark(frame)
    }

    /// A frame that is being emptied and has no reader is free at its next generation: its 15
    /// payload blocks are ahead again, in their order. One that reaches the last generation, 2^32 -
    /// 1, is retired instead. What is held stays; no fewer places than before were ever taken.
    ///
    /// InUse where the frame isn't being emptied or isn't there, and nothing has changed then; or
    /// where its word counted a reader at the one exchange that was tried, which is noted, and no
    /// frame or block has changed.
    pub fn release(&mut self, frame: u16) -> Result<(), Refusal>
        ensures { Releases frame self.old result self.new }
    {
        self.store.release(frame)
    }

    /// Drops the rows of the audit that are below the floor. It takes no memory, and no answer
    /// depends on it.
    pub fn cut_audit(&mut self)
        ensures { self.new ≡ record self.old { audit = audit_of (state_in self.old) } }
    {
        the_audit_goes_on_row_by_row();
        self.audit.cut(self.window.floor());
    }
}
