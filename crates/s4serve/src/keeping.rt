//! How an image is kept in files.
ghost use Rattle.std.specs.Prelude.{◌≡◌, ◌&&◌, IsTrue, false, not};
ghost use Rattle.host_calls.specs.Replay.{replay};

use host_calls::HostCalls;
use image_commands::{Files, Obstacle};
use image_keeping::{Keeper, WholeImage};
use kept_files::{FileFolder, KeepCause, KeepObstacle};
use std::alloc::Global;
use std::marker::Send;

/// What keeps an image, and says why it couldn't.
pub trait Explaining {
    // That somebody has removed or replaced the last image that it kept. Nothing but `is_in_place`
    // shows that.
    ghost was_moved: { Self → Type 0 };

    /// What was in the way of the last image that it couldn't keep.
    fn obstacle(&self) -> KeepObstacle;

    /// Whether the last image that it kept is still where it was put.
    fn is_in_place(&self) -> bool
        ensures { result ≡ false → was_moved self.now };
}

impl Explaining for WholeImage<FileFolder<HostCalls>> {
    ghost use Rattle.std.specs.Prelude.{⊤};

    // No clause of the standard library says which file a path leads to, so of this system's files
    // nothing is shown. It is trusted that `is_in_place` looks; `served gone` of the tests sees it.
    ghost was_moved = { λ _. ⊤ };

    fn obstacle(&self) -> KeepObstacle {
        match self.folder().obstacle() {
            Some(obstacle) => obstacle,
            // It wasn't asked: the image was never made.
            None => KeepObstacle {
                cause: KeepCause::Refused(Obstacle::NoMemory),
                whole: None,
            },
        }
    }

    fn is_in_place(&self) -> bool {
        self.folder().is_in_place()
    }
}

/// Files in which images are kept, one after another in the same place.
pub trait KeptFiles: Files {
    /// What keeps one. Any thread may.
    type Kept: Keeper + Explaining + Send + Drop + 'static;

    /// What keeps the image that is claimed. Once one was kept, what was left beside it is removed.
    fn keeper(self, alloc: Global, claim: Self::Claim, left: Vec<Self::Leftover>) -> Self::Kept
        ensures usable { IsTrue (Self.Kept.is_usable result) }
        // What a crash leaves of what it keeps is known.
        ensures known { IsTrue Self.Kept.is_known };
}

impl KeptFiles for HostRuntime {
    type Kept = WholeImage<FileFolder<HostCalls>>;

    fn keeper(
        self,
        alloc: Global,
        claim: Self::Claim,
        left: Vec<Self::Leftover>,
    ) -> WholeImage<FileFolder<HostCalls>>
        ensures usable { IsTrue ((result.folder.is_usable
            && not (replay result.folder.calls.log.events).failed) && not result.has_failed) }
    {
        WholeImage::new(FileFolder::of_host(alloc, self, claim).removing(left))
    }
}
