/// What a payload block is for.
#[derive(Clone, Copy, Debug, PartialEq, Eq)]
pub enum BlockKind {
    /// Entries of an object's journal.
    Journal,
    /// An inode of an object at a moment: the first block of a checkpoint.
    Checkpoint,
    /// 512 bytes of an object.
    Data,
    /// Pointers of a checkpoint's inode that its first block has no room for.
    Pointers,
}
