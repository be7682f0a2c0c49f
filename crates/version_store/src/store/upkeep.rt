//! The upkeep of the frames below a store: the open one is sealed; one that holds nothing more is
//! marked, and released once no reader counts on it.
ghost use Rattle.std.specs.Prelude.{◌≡◌, OnErr};
ghost use Rattle.segment_table.specs.Changes.{SealsFrame, MarksFrame, ReleasesFrame};
ghost use Rattle.segment_table.specs.Room.{log_of};
ghost use Rattle.version_store.specs.Store.{fields_of, IsStore};
ghost use Rattle.version_store.specs.Upkeep.{KeepsObjects};

use crate::named_table::NamedTable;
use crate::store::Store;
use s4_types::Refusal;
use segment_table::OverFrames;
use segment_word::Naming;

impl<J: Naming> Store<NamedTable<J>> {
    /// Seals the open frame of the table, after which none is open; without effect where none was.
    /// What is held, and with it each inode and each version, is as it was; the frame's unused
    /// blocks are ahead no longer.
    pub fn seal(&mut self)
        requires { IsStore (fields_of log_of self.old) }
        ensures store { IsStore (fields_of log_of self.new) }
        ensures frame { SealsFrame self.old.table self.new.table }
        ensures objects { KeepsObjects (fields_of log_of self.old) (fields_of log_of self.new) }
    {
        self.table.table.frame_rules();
        self.table.table.seal_open();
    }

    /// A sealed frame of which no block is held is being emptied from now on. Its readers and its
    /// pins stay, and so does all that the store holds.
    ///
    /// InUse exactly where the frame isn't sealed or isn't there, or where one of its blocks is
    /// held. Nothing has changed then.
    pub fn mark(&mut self, frame: u16) -> Result<(), Refusal>
        ensures frame { MarksFrame frame self.old.table result self.new.table }
        ensures refused { OnErr result (self.new ≡ self.old) }
        ensures same { fields_of log_of self.new ≡ fields_of log_of self.old }
    {
        self.table.table.mark(frame)
    }

    /// A frame that is being emptied and has no reader is free at its next generation: its 15
    /// payload blocks are ahead again, in their order. One that reaches the last generation, 2^32 -
    /// 1, is retired instead. What is held, and with it each inode and each version, is as it was;
    /// no fewer places than before were ever taken.
    ///
    /// InUse where the frame isn't being emptied or isn't there, and nothing has changed then; or
    /// where its word counted a reader at the one exchange that was tried, which is noted, and no
    /// frame or block has changed.
    pub fn release(&mut self, frame: u16) -> Result<(), Refusal>
        requires { IsStore (fields_of log_of self.old) }
        ensures store { IsStore (fields_of log_of self.new) }
        ensures frame { ReleasesFrame frame self.old.table result self.new.table }
        ensures objects { KeepsObjects (fields_of log_of self.old) (fields_of log_of self.new) }
    {
        let answer = self.table.table.release(frame);
        self.table.table.frame_rules();
        answer
    }
}
