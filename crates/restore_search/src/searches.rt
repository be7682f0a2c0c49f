//! What is known of what has to be hidden and left out.
ghost use Rattle.std.specs.Prelude.{◌≡◌, ◌≤◌, ℕ, map, IfOk, [], Some, IsPermutation};
ghost use Rattle.std.specs.List.Sorted.{IsNonDecreasingBy};
ghost use Rattle.restore_search.specs.Searching.{numbers_of, object_of, room_found, room_tried};

use crate::rooms::Room;
use crate::surveys::Lacking;
use s4_types::ObjectId;
use std::alloc::{AllocError, Global};

/// How many versions of an object have to be hidden, as far as that is known.
#[derive(Clone, Copy)]
pub struct Hiding {
    pub object: ObjectId,
    /// No fewer serve.
    pub least: usize,
    /// This many serve, or there are fewer after the moment. None where nothing is known of it.
    pub most: Option<usize>,
    /// How many are hidden in the next trial.
    pub count: usize,
}

impl Hiding {
    /// Between these numbers the one in the middle is tried next; where the greater one isn't known
    /// a greater one, by doubling.
    pub(crate) fn between(object: ObjectId, least: usize, most: Option<usize>) -> Self
        ensures object { result.object ≡ object }
        ensures least { result.least ≡ least }
        ensures enough { least ≤ result.count }
        ensures settled { (m : ℕ) → most ≡ Some m → result.count ≡ m → least ≡ m }
    {
        let count = match most {
            Some(most) => least.saturating_add(most.saturating_sub(least) / 2),
            None => least.max(least.saturating_sub(1).saturating_mul(2)),
        };
        Hiding {
            object,
            least,
            most,
            count,
        }
    }
}

/// What is known of what is needed.
#[derive(Drop)]
pub struct Search {
    /// The objects whose journals are full, in the order in which they were found so.
    pub hidings: Vec<Hiding>,
    /// What is left out, and why.
    pub lacking: Vec<Lacking>,
}

impl Search {
    /// A search that knows nothing.
    pub fn new(alloc: Global) -> Self
        ensures hidings { result.hidings.items ≡ [] }
        ensures lacking { result.lacking.items ≡ [] }
    {
        Search {
            hidings: Vec::new(alloc),
            lacking: Vec::new(alloc),
        }
    }
}

/// The room that is tried next for each of these.
pub fn rooms_tried(alloc: Global, hidings: &[Hiding]) -> Result<Vec<Room>, AllocError>
    ensures { IfOk result (λ rooms. rooms.items ≡ map room_tried hidings.now) }
{
    let mut rooms = Vec::new(alloc);
    for hiding in hidings {
        rooms.push(Room {
            object: hiding.object,
            count: hiding.count,
        })?;
    }
    Ok(rooms)
}

/// The room that is needed for each of these, as far as is known.
pub fn rooms_found(alloc: Global, hidings: &[Hiding]) -> Result<Vec<Room>, AllocError>
    ensures { IfOk result (λ rooms. rooms.items ≡ map room_found hidings.now) }
{
    let mut rooms = Vec::new(alloc);
    for hiding in hidings {
        rooms.push(Room {
            object: hiding.object,
            count: hiding.least,
        })?;
    }
    Ok(rooms)
}

/// The numbers of objects that can't be restored.
pub fn numbers_of(alloc: Global, lacking: &[Lacking]) -> Result<Vec<ObjectId>, AllocError>
    ensures { IfOk result (λ numbers. numbers.items ≡ numbers_of lacking.now) }
{
    let mut numbers = Vec::new(alloc);
    for one in lacking {
        numbers.push(one.object)?;
    }
    Ok(numbers)
}

/// These by ascending number.
pub fn ascending(lacking: Vec<Lacking>) -> Result<Vec<Lacking>, AllocError>
    ensures same { IfOk result (λ ordered. IsPermutation lacking.items ordered.items) }
    ensures ascending { IfOk result (λ ordered. IsNonDecreasingBy object_of ordered.items) }
{
    let mut ordered = lacking;
    ordered.sort_by_key(
        |one|
            ensures { result ≡ one.now.object }
        { one.object.number() },
    )?;
    Ok(ordered)
}
