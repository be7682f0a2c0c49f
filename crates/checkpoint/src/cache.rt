//! Inodes of checkpoints that were read, by object and stamp.
ghost use Rattle.std.specs.Prelude.{◌≡◌, ◌⊎◌, ◌<◌, ◌≤◌, [], length, IfSome, IfOk, IfErr, Contains};
ghost use Rattle.s4_types.specs.declared.refusals.Refusal.TheVariants.{NoMemory};
ghost use Rattle.checkpoint.specs.declared.cache.TheConstants.{CACHED_INODES};
ghost use Rattle.lru.specs.LruCache.{lru_cache, put_entries};
ghost use Rattle.checkpoint.specs.Cached.{same_key, inode_cached, cache_used, cache_with};

use codec::Inode;
use lru::LruCache;
use s4_types::{ObjectId, Refusal};
use std::alloc::Global;
use std::marker::Model;
use std::num::NonZeroUsize;

/// Inodes that a cache has at most. Chosen: some 160 KiB.
pub const CACHED_INODES: usize = 64;

/// What an inode is kept under: an object, and a stamp of its row, at which the row's checkpoint
/// has the inode.
#[derive(Clone, Copy, PartialEq, Eq, Hash)]
pub struct CacheKey {
    pub object: ObjectId,
    pub stamp: u64,
}

/// Some of the inodes that were read last, so that their blocks needn't be read once more.
/// Contracts see what is kept under which key, and how many inodes there may be.
#[derive(Drop)]
pub struct InodeCache {
    cache: LruCache<CacheKey, Inode>,
}

impl Model for InodeCache {
    ghost use Rattle.std.specs.Prelude.{◌≤◌};
    ghost use Rattle.checkpoint.specs.declared.cache.TheConstants.{CACHED_INODES as MOST_INODES};
    ghost use Rattle.checkpoint.specs.Cached.{CachedInodes};

    ghost Value = { CachedInodes };

    ghost view = { λ c. record { pairs = c.cache.entries; capacity = c.cache.cap } };

    ghost invariant = { λ c. c.cache.cap ≤ MOST_INODES };
}

/// Keeps a value under a key, where there is memory for it; else nothing changes.
// Of any type, since the prover can't follow how a refused inode is dropped.
fn keep<V: Copy + Drop>(cache: &mut LruCache<CacheKey, V>, key: CacheKey, value: V)
    ensures { (cache.new ≡ cache.old)
        ⊎ (cache.new ≡ lru_cache (put_entries same_key cache.old key value) cache.old.cap) }
{
    let _ = cache.put(key, value);
}

impl InodeCache {
    /// An empty cache, of at most this many inodes: 1 to `CACHED_INODES`.
    ///
    /// NoMemory alone, where the memory for it is refused.
    pub fn new(alloc: Global, capacity: usize) -> Result<Self, Refusal>
        requires some { 0 < capacity }
        requires few { capacity ≤ CACHED_INODES }
        ensures empty { IfOk result (λ cache. cache ≡ record { pairs = []; capacity = capacity }) }
        ensures refusal { IfErr result (λ e. e ≡ NoMemory) }
    {
        let capacity = NonZeroUsize::new(capacity).unwrap();
        let cache = LruCache::new(alloc, capacity)?;
        Ok(InodeCache { cache })
    }

    /// The inode that is kept under a key, if one is. It has then been used last.
    pub fn get(&mut self, key: CacheKey) -> Option<Inode>
        ensures exact { result ≡ inode_cached self.old.pairs key }
        ensures order { self.new ≡ cache_used key self.old }
        ensures found { IfSome result (λ inode. Contains self.old.pairs (key, inode)) }
        ensures only { (e : _) → Contains self.new.pairs e → Contains self.old.pairs e }
    {
        let found = self.cache.peek(&key).copied();
        self.cache.promote(&key);
        found
    }

    /// Keeps an inode under a key, where there is memory for it; else nothing changes. Of as many
    /// inodes as there may be the one that was used first goes for it.
    pub fn put(&mut self, key: CacheKey, inode: &Inode)
        ensures kept { (self.new ≡ self.old) ⊎ (self.new ≡ cache_with key inode.now self.old) }
        ensures only { (e : _) → Contains self.new.pairs e
            → Contains self.old.pairs e ⊎ (e ≡ (key, inode.now)) }
    {
        keep(&mut self.cache, key, *inode);
    }

    /// Forgets all inodes.
    pub fn clear(&mut self)
        ensures { self.new ≡ record self.old { pairs = [] } }
    {
        self.cache.clear();
    }

    /// How many inodes the cache has.
    pub fn len(&self) -> usize
        ensures count { result ≡ length self.now.pairs }
        ensures few { result ≤ self.now.capacity }
        ensures most { self.now.capacity ≤ CACHED_INODES }
    {
        self.cache.len()
    }
}
