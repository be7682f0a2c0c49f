//! What a service says while it runs.
use std::io::Write;
use thiserror::Error;

/// What a service says. Each prints its line.
#[derive(Clone, Copy, Debug, Error)]
pub enum News<'a> {
    /// Sessions can be asked for.
    #[error("serves {0}")]
    Serves(&'a str),
    /// The image's last moment is later than the machine's time, which is waited for: so many
    /// seconds.
    #[error("{0}'s last moment is ahead of the machine's time, as after a kill; that is waited for, {1} s")]
    Waits(&'a str, u64),
    /// It is so many seconds later still.
    #[error("{0}'s last moment is still {1} s ahead of the machine's time; moments go on from there")]
    Ahead(&'a str, u64),
    /// Memory or the disk's room is short. Replies wait, and so does who asked.
    #[error("{0} can't be kept: memory or room on its disk is short; it is tried again each second")]
    Short(&'a str),
    /// The same, once the service is to stop: it is tried so many seconds more.
    #[error("{0} can't be kept: memory or room on its disk is short; it is tried for {1} s more, and then the service ends without")]
    ShortAtEnd(&'a str, u64),
    /// No more lines can be read at a door.
    #[error("{0}/door can't be read any more; its clients can't come")]
    DoorFailed(&'a str),
}

/// Whom a service says it to.
pub trait Telling {
    /// Says it. There is nobody to tell where that fails.
    fn tell(&self, news: News<'_>);
}

impl Telling for HostRuntime {
    fn tell(&self, news: News<'_>) {
        let _ = writeln!(self.stderr(), "s4serve: {news}");
    }
}
