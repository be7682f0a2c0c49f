//! What each step on the accept word tells its seat, and how what a session was told goes from one
//! seat to another.
ghost use Rattle.segment_word.specs.AcceptViews.{Spent};
ghost use Rattle.segment_word.specs.AcceptSteps.{TakesChange, Learns, Notes, CountsChanges, Begins};
ghost use Rattle.segment_word.specs.AcceptSteps.{Comes, Sheds, unlent, copied, joined_accepts};
ghost use Rattle.segment_word.specs.AcceptSteps.{absorbed};

use crate::accepts::naming::{Naming, Passing, Taking};
use crate::accepts::rule::Known;
use atomic_table::{Join, Play, Split};
use std::marker::PhantomData;

/// Accept.
pub struct Take<C: Taking> {
    of: PhantomData<C>,
}

impl<C: Taking> Play<(), Known> for Take<C> {
    ghost then = { TakesChange C.moment C.change };
}

/// Learn, for the session that is lent.
pub struct Learn;

impl Play<(), Known> for Learn {
    ghost then = { Learns };
}

/// Learn, for the drive: a moment was seen.
pub struct Note<T: Passing> {
    of: PhantomData<T>,
}

impl<T: Passing> Play<(), Known> for Note<T> {
    ghost then = { Notes T.now };
}

/// Load by the drive's seat.
pub struct Count;

impl Play<(), Known> for Count {
    ghost then = { CountsChanges };
}

/// The history begins with its base.
pub struct Begin<J: Naming> {
    of: PhantomData<J>,
}

impl<J: Naming> Play<(), Known> for Begin<J> {
    ghost then = { Begins J.base };
}

/// A new session comes.
pub struct Come;

impl Play<(), Known> for Come {
    ghost then = { Comes };
}

/// A session's seat lets go of what it took in.
pub struct Shed;

impl Play<(), Known> for Shed {
    ghost then = { Sheds };
}

/// A session's seat takes in another session's.
pub struct Absorb;

impl Join<Known> for Absorb {
    ghost both = { absorbed };

    ghost spent = { Spent };
}

/// What a session was told goes to a seat of its own: a copy off the session's seat, the lent one
/// off the drive's.
pub struct Hand;

impl Split<Known> for Hand {
    ghost left = { unlent };

    ghost right = { copied };
}

/// What a session was told comes to a seat.
pub struct Receive;

impl Join<Known> for Receive {
    ghost both = { joined_accepts };

    ghost spent = { Spent };
}
