//! The value under the lock: the book, and the seat that owns its history.

ghost use Rattle.std.specs.Prelude.{◌≡◌, ◌++◌, ◌<◌, ◌≤◌, List, [], length, true, IfOk};
ghost use mathlib.Core.List.{IsPrefix};
ghost use Rattle.epoch_gate.specs.History.{sight};
ghost use Rattle.epoch_gate.specs.Books.{Acts, start_of};
ghost use Rattle.epoch_gate.specs.Counting.{Adds, AnsweredAt};

use crate::accepted::Known;
use crate::book::{Book, Faults, Named};
use crate::kept::Kept;
use crate::seat::{Part, Whole, Word};
use crate::word::Entries;
use host_base::{Key, Memory};
use std::alloc::Global;
use std::marker::{Brand, Model};
use std::sync::ledger::{self, Ledger, Share};

/// The book, and the seat that owns its history. Contracts see the history.
#[derive(Drop)]
pub struct Vault<T: Book, N: Named<T::Start>, L: Ledger> {
    whole: Whole<T::Entry, N>,
    book: T,
    total: ledger::Book<L>,
}

impl<T: Book, N: Named<T::Start>, L: Ledger> Model for Vault<T, N, L> {
    ghost use Rattle.std.specs.Prelude.{◌≡◌, ◌≤◌, List, length};
    ghost use Rattle.epoch_gate.specs.Books.{start_of};

    ghost Value = { List T.Entry };

    ghost view = { λ v. T.history v.book };

    ghost invariant = { λ v. (v.whole ≡ T.history v.book) × (T.start v.book ≡ start_of T.blank N.start) × (length (T.history v.book) ≤ 1000000) × (v.total.total ≡ length (T.history v.book)) };
}

// The entry that the book added is added to the whole history.
fn keep<T: Book, N: Named<T::Start>>(
    word: &Word<T::Entry, N>,
    whole: &mut Whole<T::Entry, N>,
    book: &T,
)
    requires grown { Acts whole.old (T.history book.now) true (λ _. Unit {0}) }
    requires short { length (T.history book.now) ≤ 1000000 }
    ensures { whole.new ≡ T.history book.now }
{
    keep_as::<T, N, Brand>(word, whole, book);
}

fn keep_as<T: Book, N: Named<T::Start>, J: Entries<T::Entry>>(
    word: &Word<T::Entry, N>,
    whole: &mut Whole<T::Entry, N>,
    book: &T,
)
    requires one { length J.added ≡ 1 }
    requires grown { T.history book.now ≡ whole.old ++ J.added }
    requires short { length (T.history book.now) ≤ 1000000 }
    ensures { whole.new ≡ T.history book.now }
{
    word.add_as::<J>(whole);
}

impl<T: Book, N: Named<T::Start>, L: Ledger> Vault<T, N, L> {
    pub fn new(whole: Whole<T::Entry, N>, book: T, total: ledger::Book<L>) -> Self
        requires empty { (whole ≡ []) × (T.history book ≡ []) }
        requires start { T.start book ≡ start_of T.blank N.start }
        requires none { total.total ≡ 0 }
        ensures { result ≡ [] }
    {
        Vault { whole, book, total }
    }

    // The order, with its entry kept and counted.
    fn act(
        &mut self,
        alloc: Global,
        word: &Word<T::Entry, N>,
        share: &mut Share<L>,
        order: T::Order,
    ) -> (Faults, T::Answer)
        requires { 0 < share.old.parts }
        ensures parts { share.new.parts ≡ share.old.parts }
        ensures adds { Adds self.old self.new share.old.amount share.new.amount (λ added.
            T.answers (start_of T.blank N.start) self.old order result.1 added result.0) }
    {
        let (more, faults, answer) = self.book.act(alloc, order);
        if more {
            keep(word, &mut self.whole, &self.book);
        }
        self.total.add(share, u64::from(more));
        (faults, answer)
    }

    /// What a part knows begins the history.
    pub fn tell(&mut self, word: &Word<T::Entry, N>, part: &mut Part<T::Entry, N>)
        ensures same { self.new ≡ self.old }
        ensures begins { IsPrefix part.old.seen self.old }
    {
        word.tell(&mut self.whole, part);
    }

    /// A part learns the whole history, and how long it is.
    pub fn show(&mut self, word: &Word<T::Entry, N>, part: &mut Part<T::Entry, N>) -> u64
        ensures same { self.new ≡ self.old }
        ensures begins { IsPrefix part.old.seen self.old }
        ensures low { part.old.last ≤ length self.old }
        ensures part { part.new ≡ sight self.old part.old.loads part.old.last }
        ensures length { result ≡ length self.old }
    {
        word.tell(&mut self.whole, part);
        word.show(&mut self.whole, part);
        self.whole.len()
    }

    /// A new part, which knows the whole history.
    pub fn split(&mut self, word: &Word<T::Entry, N>) -> Part<T::Entry, N>
        ensures same { self.new ≡ self.old }
        ensures part { result ≡ sight self.old 0 0 }
    {
        word.split(&mut self.whole)
    }

    /// A new part, and one that is there, both of which then know the whole history.
    pub fn note(
        &mut self,
        word: &Word<T::Entry, N>,
        part: &mut Part<T::Entry, N>,
    ) -> Part<T::Entry, N>
        ensures begins { IsPrefix part.old.seen part.new.seen }
        ensures part { part.new ≡ sight self.new part.old.loads part.old.last }
        ensures note { result.seen ≡ part.new.seen }
    {
        self.show(word, part);
        self.split(word)
    }

    /// What is shown of a key, for a part that then knows the whole history.
    pub fn look(
        &mut self,
        alloc: Global,
        word: &Word<T::Entry, N>,
        part: &mut Part<T::Entry, N>,
        key: &Key,
    ) -> Result<Kept<T::View>, Memory>
        ensures begins { IsPrefix part.old.seen part.new.seen }
        ensures part { part.new ≡ sight self.new part.old.loads part.old.last }
        ensures low { part.old.last ≤ length part.new.seen }
        ensures shown { IfOk result (λ kept. (kept.number ≡ length part.new.seen)
            × T.shows (start_of T.blank N.start) part.new.seen key.now kept.view) }
    {
        let number = self.show(word, part);
        let view = self.book.look(alloc, key)?;
        Ok(Kept { number, view })
    }

    /// Answers an order, for a part that then knows the whole history, and counts it in the share where it was accepted. It
    /// answers the order's place, and what faults it met, too.
    pub fn order(
        &mut self,
        alloc: Global,
        word: &Word<T::Entry, N>,
        part: &mut Part<T::Entry, N>,
        share: &mut Share<L>,
        order: T::Order,
    ) -> (u64, Faults, T::Answer)
        requires { 0 < share.old.parts }
        ensures begins { IsPrefix part.old.seen part.new.seen }
        ensures part { part.new ≡ sight self.new part.old.loads part.old.last }
        ensures parts { share.new.parts ≡ share.old.parts }
        ensures answered { AnsweredAt part.old.seen part.new.seen share.old.amount share.new.amount result.0
            (λ before added. T.answers (start_of T.blank N.start) before order result.2 added result.1) }
    {
        let place = self.show(word, part);
        let (faults, answer) = self.act(alloc, word, share, order);
        self.show(word, part);
        (place, faults, answer)
    }

    /// The book, where all parts of the ledger have come together: they count what the book's history has.
    pub fn into_book(self, known: &Known<L>, all: &mut Share<L>) -> T
        requires { all.old.parts ≡ 65537 }
        ensures start { T.start result ≡ start_of T.blank N.start }
        ensures history { T.history result ≡ self }
        ensures counted { all.old.amount ≡ length self }
    {
        let Vault {
            whole: _,
            book,
            mut total,
        } = self;
        total.audit(all);
        book
    }
}
