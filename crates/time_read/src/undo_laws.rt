//! A law of undoings: the function does nothing, and its contract is the law.

ghost use Rattle.std.specs.Prelude.{◌≡◌};
ghost use Rattle.codec.specs.declared.inodes.Inode.{Inode};
ghost use Rattle.codec.specs.Entry.{EntryFields};
ghost use Rattle.undo_redo.specs.Redone.{undone};
ghost use Rattle.time_read.specs.Undoings.{undoing_of, undone_by};

/// What is kept of an entry undoes what the entry undoes.
pub fn an_undoing_undoes_its_entry()
    ensures { (e : EntryFields) (j : Inode) → undone_by (undoing_of e) j ≡ undone e j }
{}
