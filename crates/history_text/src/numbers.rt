//! The numbers of a drive.

/// The numbers of a drive.
#[derive(Clone, Copy)]
pub struct DriveNumbers {
    /// How many frames it has.
    pub frames: u64,
    /// How many of them are free, the retired ones not among them.
    pub free: u64,
    /// How many are retired: free for the last time, so that nothing is written there again.
    pub retired: u64,
    /// How many objects are live.
    pub live: u64,
    /// How many were deleted, of those that something is kept of.
    pub deleted: u64,
    /// The number that the next object gets.
    pub next: u64,
    /// The last moment given or seen.
    pub clock: u64,
    /// How many moments history reaches back from the clock.
    pub window: u64,
    /// Moments below it are lost.
    pub floor: u64,
    /// How many blocks of 512 bytes changes may still append.
    pub room: u64,
    /// How many runs of moments are hidden of all objects.
    pub hidden: u64,
    /// Of how many objects alone some moments are hidden.
    pub hidden_objects: u64,
}
