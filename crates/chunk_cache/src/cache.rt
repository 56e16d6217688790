ghost use Rattle.std.specs.Prelude.{◌≡◌, [], IfOk, OnOk, OnErr, IsOk, option_copied};
ghost use Rattle.chunk_cache.specs.Held.{content_of, after_put, after_forget};

use cht_ids::Memory;
use lru::LruCache;
use std::alloc::Global;
use std::marker::Model;
use std::num::NonZeroUsize;
use task_types::Shared;

/// Contents by the numbers of their bodies, in the order of their last use.
#[derive(Drop)]
pub struct Cache<C> {
    // With capacity 0 it has room for one pair and holds none.
    entries: LruCache<u128, Shared<C>>,
    capacity: u32,
}

impl<C> Model for Cache<C> {
    ghost use Rattle.std.specs.Prelude.{◌≡◌, ◌≤◌, length, max};
    ghost use Rattle.chunk_cache.specs.Held.{Held};

    ghost Value = { Held C };

    ghost view = { λ cache. record { pairs = cache.entries.entries; capacity = cache.capacity } };

    ghost invariant = { λ cache. (cache.entries.cap ≡ max 1 cache.capacity) × (length cache.entries.entries ≤ cache.capacity) };
}

impl<C: Drop> Cache<C> {
    /// An empty cache of at most so many pairs. With capacity 0 it keeps nothing.
    pub fn new(alloc: Global, capacity: u32) -> Result<Cache<C>, Memory>
        ensures { IfOk result (λ cache. cache ≡ record { pairs = []; capacity = capacity }) }
    {
        let room = NonZeroUsize::new(capacity as usize).unwrap_or(NonZeroUsize::MIN);
        Ok(Cache {
            entries: LruCache::sparse(alloc, room)?,
            capacity,
        })
    }

    /// Puts a pair in front, in the place of an older pair of the body. Where there was none and the cache was full, the least
    /// recently used pair leaves. For want of memory the cache is as before.
    pub fn put(&mut self, body: u128, content: Shared<C>) -> Result<(), Memory>
        ensures ok { OnOk result (self.new ≡ after_put body content self.old) }
        ensures unchanged { OnErr result (self.new ≡ self.old) }

        // Keeping nothing takes no memory.
        ensures keeps_nothing { self.old.capacity ≡ 0 → IsOk result }
    {
        if self.capacity == 0 {
            return Ok(());
        }
        self.entries.put(body, content)?;
        Ok(())
    }

    /// Takes the pair of a body out. It takes no memory.
    pub fn forget(&mut self, body: u128)
        ensures { self.new ≡ after_forget body self.old }
    {
        let _ = self.entries.pop(&body);
    }
}

impl<C> Cache<C> {
    ghost use Rattle.std.specs.Borrow.{sem};
    ghost use Rattle.chunk_cache.specs.Held.{after_find};
    ghost use Rattle.chunk_cache.specs.Lending.{ends_as};

    /// The content of a body, whose pair then stands in front; `None` exactly where no pair has the body. It takes no memory.
    pub fn find(&mut self, body: u128) -> Option<&Shared<C>>
        ensures* brought { sem 𝓛 (ends_as C.row self.entry (after_find body self.old)) }
        ensures value { option_copied result ≡ content_of body self.old.pairs }
    {
        self.entries.get(&body)
    }
}
