//! The book that many threads share.

ghost use Rattle.std.specs.Prelude.{◌≡◌, ◌+◌, ◌<◌, ◌≤◌, [], All, length, vec_len, IfOk, IfErr, OnOk, OnErr};
ghost use mathlib.Core.List.{IsPrefix};
ghost use Rattle.std.specs.NonZero.{non_zero_usize_get};
ghost use Rattle.lru.specs.LruCache.{lru_cache};
ghost use Rattle.epoch_gate.specs.Books.{start_of};
ghost use Rattle.epoch_gate.specs.Passes.{Waited, accepted, fresh};
ghost use Rattle.epoch_gate.specs.Counting.{AnsweredAt, counts_after};
ghost use Rattle.epoch_gate.specs.declared.book.Faults.{Faults as TheFaults};

use crate::accepted::Known;
use crate::book::{Book, Named};
use crate::fault_counts::FaultCounts;
use crate::pass::{Note, Pass};
use crate::seat::{Unnamed, Word};
use crate::vault::Vault;
use host_base::Memory;
use lru::LruCache;
use std::alloc::Global;
use std::marker::{Model, PhantomData};
use std::num::NonZeroUsize;
use std::sync::ledger::{Blank, Ledger, Share};
use std::sync::{Mutex, Wait};

/// The book that many threads share.
#[derive(Drop)]
pub struct Hub<T: Book, N: Named<T::Start>, L: Ledger> {
    pub(crate) word: Word<T::Entry, N>,
    pub(crate) vault: Mutex<Vault<T, N, L>>,
}

/// The right to make passes of a hub. Contracts see how many were made.
#[derive(Drop)]
pub struct Maker<T: Book, N: Named<T::Start>, L: Ledger> {
    made: u32,
    share: Share<L>,
    known: Known<L>,
    of: PhantomData<(T, N)>,
}

impl<T: Book, N: Named<T::Start>, L: Ledger> Model for Maker<T, N, L> {
    ghost use Rattle.std.specs.Prelude.{◌≡◌, ◌+◌, ◌≤◌, ℕ};

    ghost Value = { ℕ };

    ghost view = { λ m. m.made };

    ghost invariant = { λ m. (m.made ≤ 65536) × (m.share.parts + m.made ≡ 65537) × (m.share.amount ≡ 0) };
}

impl<T: Book, N: Named<T::Start>, L: Ledger> Maker<T, N, L> {
    /// How many passes were made.
    pub fn made(&self) -> u32
        ensures { result ≡ self.now }
    {
        self.made
    }
}

impl<T: Book, N: Named<T::Start>, L: Ledger> Hub<T, N, L>
where
    T::View: Drop,
{
    /// A hub of a book with an empty history, under the name that the program picked, and the right to make its passes.
    pub fn new(unnamed: Unnamed<T::Entry>, blank: Blank, book: T) -> (Hub<T, N, L>, Maker<T, N, L>)
        requires empty { T.history book ≡ [] }
        requires start { T.start book ≡ start_of T.blank N.start }
        requires table { unnamed ≡ N.table }
        requires ledger { (blank.name ≡ L.name) × (blank.parts ≡ 65537) × (L.parts ≡ 65537) }
        ensures { result.1 ≡ 0 }
    {
        let (word, whole) = unnamed.named::<N>();
        let (total, share) = blank.open::<L>();
        let vault = Mutex::new(Vault::new(whole, book, total));
        (
            Hub { word, vault },
            Maker {
                made: 0,
                share,
                known: Known::new(),
                of: PhantomData,
            },
        )
    }

    /// A new pass, which has seen the whole history of that moment.
    pub fn pass<R: Wait>(
        &self,
        rt: &R,
        alloc: Global,
        maker: &mut Maker<T, N, L>,
        room: NonZeroUsize,
    ) -> Result<Pass<T, N, L>, Memory>
        requires { maker.old < 65536 }
        ensures made { OnOk result (maker.new ≡ maker.old + 1) }
        ensures pass { IfOk result (λ pass. pass ≡ fresh pass.seen (non_zero_usize_get room)) }
        ensures err { OnErr result (maker.new ≡ maker.old) }
    {
        let cache = LruCache::new(alloc, room)?;
        maker.made += 1;
        Ok(Pass {
            part: self.vault.lock(rt).split(&self.word),
            cache,
            waits: 0,
            share: maker.share.split_off(1, 0),
            faults: FaultCounts::none(),
        })
    }

    /// Answers an order under the lock, and its place in the history.
    pub fn order<R: Wait>(
        &self,
        rt: &R,
        alloc: Global,
        pass: &mut Pass<T, N, L>,
        order: T::Order,
    ) -> (u64, T::Answer)
        ensures waited { Waited pass.old pass.new }
        ensures answered { (faults : TheFaults) × (pass.new.faults ≡ counts_after pass.old.faults faults)
            × AnsweredAt pass.old.seen pass.new.seen pass.old.orders pass.new.orders result.0 (λ before added.
            T.answers (start_of T.blank N.start) before order result.1 added faults) }
        ensures cache { pass.new.cache ≡ pass.old.cache }
    {
        pass.waits = pass.waits.saturating_add(1);
        let (place, faults, answer) = self
            .vault
            .lock(rt)
            .order(alloc, &self.word, &mut pass.part, &mut pass.share, order);
        pass.faults = pass.faults.after(&faults);
        (place, answer)
    }

    /// A note of the whole history of that moment, which the pass has then seen too.
    pub fn note<R: Wait>(&self, rt: &R, pass: &mut Pass<T, N, L>) -> Note<T, N>
        ensures waited { Waited pass.old pass.new }
        ensures note { result ≡ pass.new.seen }
        ensures cache { pass.new.cache ≡ pass.old.cache }
        ensures orders { pass.new.orders ≡ pass.old.orders }
        ensures faults { pass.new.faults ≡ pass.old.faults }
    {
        pass.waits = pass.waits.saturating_add(1);
        let part = self.vault.lock(rt).note(&self.word, &mut pass.part);
        Note { part }
    }

    /// Hands the book back, where all passes are given. What each has seen begins the history, and the orders that they count
    /// together are as many as it has entries. Where fewer are given than were made, all is handed back.
    pub fn close(
        self,
        maker: Maker<T, N, L>,
        passes: Vec<Pass<T, N, L>>,
    ) -> Result<T, (Hub<T, N, L>, Maker<T, N, L>, Vec<Pass<T, N, L>>)>
        ensures all { OnOk result (vec_len passes ≡ maker) }
        ensures few { OnErr result (vec_len passes < maker) }
        ensures start { IfOk result (λ book. T.start book ≡ start_of T.blank N.start) }
        ensures counted { IfOk result (λ book. accepted passes.items ≡ length (T.history book)) }
        ensures seen { IfOk result (λ book. All (λ pass. IsPrefix pass.seen (T.history book)) passes.items) }
        ensures back { IfErr result (λ back. (back.1 ≡ maker) × (back.2.items ≡ passes.items)) }
    {
        if passes.len() < maker.made() as usize {
            return Err((self, maker, passes));
        }
        let Hub { word, vault } = self;
        let mut vault = vault.into_inner();
        let (known, mut all) = gather(&word, &mut vault, maker, passes);
        Ok(vault.into_book(&known, &mut all))
    }
}

// All parts of the ledger together, of passes that have each seen a beginning of the history.
fn gather<T: Book, N: Named<T::Start>, L: Ledger>(
    word: &Word<T::Entry, N>,
    vault: &mut Vault<T, N, L>,
    maker: Maker<T, N, L>,
    passes: Vec<Pass<T, N, L>>,
) -> (Known<L>, Share<L>)
where
    T::View: Drop,
    requires { maker ≤ vec_len passes }
    ensures all { vec_len passes ≡ maker }
    ensures parts { result.1.parts ≡ 65537 }
    ensures counted { result.1.amount ≡ accepted passes.items }
    ensures same { vault.new ≡ vault.old }
    ensures seen { All (λ pass. IsPrefix pass.seen vault.old) passes.items }
{
    let Maker {
        made: _,
        share,
        known,
        of: _,
    } = maker;
    let mut all = share;
    for pass in passes {
        let Pass {
            mut part,
            cache: _,
            waits: _,
            share,
            faults: _,
        } = pass;
        vault.tell(word, &mut part);
        all.merge(share);
    }
    (known, all)
}
