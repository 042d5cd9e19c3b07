//! What one thread knows of the history, with a cache of what was shown of keys.

ghost use Rattle.std.specs.Prelude.{◌≡◌, ◌≢◌, ℕ, ◌+◌, ◌≤◌, Some, length, slice_get, option_map, IfSome, IfNone, IfOk, OnErr};
ghost use Rattle.std.specs.Map.{lookup};
ghost use mathlib.Core.List.{IsPrefix};
ghost use Rattle.lru.specs.LruCache.{lru_cache, promoted, put_entries};
ghost use Rattle.epoch_gate.specs.Books.{start_of};
ghost use Rattle.epoch_gate.specs.Passes.{same_key, IsFirst, Waited, Loaded};

use crate::book::{Book, Named};
use crate::fault_counts::FaultCounts;
use crate::hub::Hub;
use crate::kept::{Kept, find, store};
use crate::seat::Part;
use host_base::{Key, Memory};
use lru::LruCache;
use std::alloc::Global;
use std::marker::Model;
use std::sync::Wait;
use std::sync::ledger::{Ledger, Share};

/// What one thread knows of the history, with a cache of what was shown of keys.
#[derive(Drop)]
pub struct Pass<T: Book, N: Named<T::Start>, L: Ledger>
where
    T::View: Drop,
{
    pub(crate) part: Part<T::Entry, N>,
    pub(crate) cache: LruCache<Key, Kept<T::View>>,
    pub(crate) waits: u64,
    pub(crate) share: Share<L>,
    pub(crate) faults: FaultCounts,
}

impl<T: Book, N: Named<T::Start>, L: Ledger> Model for Pass<T, N, L>
where
    T::View: Drop,
{
    ghost use Rattle.std.specs.Prelude.{◌≡◌};
    ghost use Rattle.epoch_gate.specs.Books.{start_of};
    ghost use Rattle.epoch_gate.specs.Passes.{Passing, IsCached};

    ghost Value = { Passing T.Entry T.View };

    ghost view = { λ p. record { seen = p.part.seen; loads = p.part.loads; last = p.part.last; cache = p.cache; waits = p.waits; orders = p.share.amount; faults = p.faults } };

    ghost invariant = { λ p. IsCached (T.shows (start_of T.blank N.start)) p.part.seen p.cache.entries × (p.share.parts ≡ 1) };
}

impl<T: Book, N: Named<T::Start>, L: Ledger> Pass<T, N, L>
where
    T::View: Drop,
{
    /// How many entries of the history it has seen.
    pub fn seen(&self) -> u64
        ensures { result ≡ length self.now.seen }
    {
        self.part.len()
    }

    /// Says whether the cache has what the whole history shows of a key now, and how long the history is. It waits for nobody. `newest` has the view.
    pub fn check(&mut self, hub: &Hub<T, N, L>, key: &Key) -> Option<u64>
        ensures load { Loaded self.old self.new }
        ensures seen { self.new.seen ≡ self.old.seen }
        ensures cache { self.new.cache ≡ lru_cache (promoted (same_key key.now) self.old.cache.entries)
            self.old.cache.cap }
        ensures hit { IfSome result (λ n. (n ≡ self.new.last) × (n ≡ length self.new.seen)
            × IsFirst self.new.cache n (T.shows (start_of T.blank N.start) self.new.seen key.now)) }
        ensures miss { IfNone result ((kept : _)
            → lookup (same_key key.now) self.old.cache.entries ≡ Some kept
            → kept.number ≢ self.new.last) }
    {
        let found = hub.word.load(&mut self.part);
        let number = find(&mut self.cache, key)?;
        if number == found { Some(number) } else { None }
    }

    /// Puts what is shown of a key first in the cache, and answers how long the history is. It waits for nobody where the cache
    /// has what the history of now shows.
    pub fn find<R: Wait>(
        &mut self,
        rt: &R,
        alloc: Global,
        hub: &Hub<T, N, L>,
        key: &Key,
    ) -> Result<u64, Memory>
        ensures seen { IsPrefix self.old.seen self.new.seen }
        ensures orders { self.new.orders ≡ self.old.orders }
        ensures faults { self.new.faults ≡ self.old.faults }
        ensures load { self.new.loads ≡ self.old.loads + 1 }
        ensures low { IfOk result (λ n. self.new.last ≤ n) }
        ensures shown { IfOk result (λ n. (n ≡ length self.new.seen)
            × IsFirst self.new.cache n (T.shows (start_of T.blank N.start) self.new.seen key.now)) }
        ensures cached { (kept : _) → lookup (same_key key.now) self.old.cache.entries ≡ Some kept
            → kept.number ≡ self.new.last → self.new.waits ≡ self.old.waits }
    {
        match self.check(hub, key) {
            Some(place) => Ok(place),
            None => self.refresh(rt, alloc, hub, key),
        }
    }

    /// The view that was used last, and how long the history was then.
    pub fn newest(&self) -> Option<(u64, &T::View)>
        ensures { option_map {U = ℕ × T.View} (λ r. (r.0, r.1.now)) result
            ≡ option_map (λ e. (e.1.number, e.1.view)) (slice_get self.now.cache.entries 0) }
    {
        let (_, kept) = self.cache.peek_mru()?;
        Some((kept.number, &kept.view))
    }

    /// Sees what another pass had seen, by a note of it. It waits for nobody.
    pub fn meet(&mut self, hub: &Hub<T, N, L>, note: Note<T, N>)
        ensures load { Loaded self.old self.new }
        ensures theirs { IsPrefix note self.new.seen }
        ensures cache { self.new.cache ≡ self.old.cache }
    {
        let Note { part } = note;
        hub.word.meet(&mut self.part, part);
    }

    /// Looks at a key under the lock, and keeps the view.
    pub fn refresh<R: Wait>(
        &mut self,
        rt: &R,
        alloc: Global,
        hub: &Hub<T, N, L>,
        key: &Key,
    ) -> Result<u64, Memory>
        ensures waited { Waited self.old self.new }
        ensures low { self.old.last ≤ length self.new.seen }
        ensures shown { IfOk result (λ n. (n ≡ length self.new.seen)
            × IsFirst self.new.cache n (T.shows (start_of T.blank N.start) self.new.seen key.now)) }
        ensures cache { IfOk result (λ n. (view : T.View)
            × (self.new.cache ≡ lru_cache
            (put_entries same_key self.old.cache key.now (record { number = n; view = view }))
            self.old.cache.cap)) }
        ensures err { OnErr result (self.new.cache ≡ self.old.cache) }
        ensures orders { self.new.orders ≡ self.old.orders }
        ensures faults { self.new.faults ≡ self.old.faults }
    {
        self.waits = self.waits.saturating_add(1);
        let kept = hub
            .vault
            .lock(rt)
            .look(alloc, &hub.word, &mut self.part, key)?;
        let number = kept.number;
        store(&mut self.cache, key, kept)?;
        Ok(number)
    }
}

/// What a pass had seen, for another. Contracts see the entries.
#[derive(Drop)]
pub struct Note<T: Book, N: Named<T::Start>> {
    pub(crate) part: Part<T::Entry, N>,
}

impl<T: Book, N: Named<T::Start>> Model for Note<T, N> {
    ghost use Rattle.std.specs.Prelude.{List};

    ghost Value = { List T.Entry };

    ghost view = { λ n. n.part.seen };
}
