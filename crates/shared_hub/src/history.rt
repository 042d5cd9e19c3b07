//! A history that many threads share, as the book of a hub.

ghost use Rattle.std.specs.Prelude.{◌≡◌, ◌≤◌, [], length};
ghost use Rattle.desk_base.specs.Terms.{replay};
ghost use Rattle.epoch_gate.specs.Books.{Acts};
ghost use Rattle.hub_core.specs.Ticking.{NeverBack};
ghost use Rattle.shared_hub.specs.Since.{Begun, HasKept, begun_of};
ghost use Rattle.shared_hub.specs.Wanting.{AnswersOrder, AnswersTick, faults_of, no_faults};

use desk_orders::{Order, OrderFault, Reply};
use epoch_gate::{Book, Faults};
use host_base::{Key, Memory, Verdict};
use hub_core::{Holding, Locked};
use share_graph::Event;
use site_caps::{SiteDriver, SiteFault, SiteText};
use std::alloc::Global;
use std::marker::Model;
use std::snapshot::Snapshot;

/// What is wanted of a history: that an order is answered, that the clock goes on to a moment in seconds, or what the
/// site of a tag gives for an item.
#[derive(Drop)]
pub enum Wanted {
    Order(Order),
    Tick(u64),
    Site { tag: u64, item: u32 },
}

/// What is told of it.
#[derive(Drop)]
pub enum Told {
    Reply(Result<Reply, OrderFault>),
    Ticked(Result<bool, Memory>),
    Site(Result<SiteText, SiteFault>),
}

// The faults that an order met, by its answer.
fn faults_in(answer: &Result<Reply, OrderFault>) -> Faults
    ensures { result ≡ faults_of answer.now }
{
    Faults {
        store: matches!(answer, Err(OrderFault::Store)),
        secrets: matches!(answer, Err(OrderFault::Secrets)),
        starts: matches!(answer, Err(OrderFault::Start)),
    }
}

// That no fault was met.
fn none_met() -> Faults
    ensures { result ≡ no_faults }
{
    Faults {
        store: false,
        secrets: false,
        starts: false,
    }
}

// Answers an order at the end of so many entries, and says whether it added one.
fn answer<H: Holding, C: SiteDriver + Drop>(
    locked: &mut Locked<H, C>,
    alloc: Global,
    before: u64,
    order: Order,
) -> (bool, Result<Reply, OrderFault>)
    requires { before ≡ length locked.old.history }
    ensures start { locked.new.start ≡ locked.old.start }
    ensures acts { Acts locked.old.history locked.new.history result.0 (λ added.
        AnswersOrder C.Law.law (replay locked.old.start locked.old.history) (length locked.old.history)
        order result.1 added (faults_of result.1)) }
    ensures short { length locked.new.history ≤ 1000000 }
    ensures onward { NeverBack locked.new.start locked.new.history }
    ensures kept { (began : Begun) → locked.old.start ≡ began.start
        → HasKept began.start began.holds locked.old.holds locked.old.history
        → HasKept began.start began.holds locked.new.holds locked.new.history }
{
    let answer = locked.order(alloc, order);
    (locked.entries() != before, answer)
}

// Lets the clock go on to a moment at the end of so many entries, and says whether that added one.
fn tick<H: Holding, C: SiteDriver + Drop>(
    locked: &mut Locked<H, C>,
    alloc: Global,
    before: u64,
    moment: u64,
) -> (bool, Result<bool, Memory>)
    requires { before ≡ length locked.old.history }
    ensures start { locked.new.start ≡ locked.old.start }
    ensures acts { Acts locked.old.history locked.new.history result.0 (λ added.
        AnswersTick (replay locked.old.start locked.old.history) moment result.1 added no_faults) }
    ensures short { length locked.new.history ≤ 1000000 }
    ensures onward { NeverBack locked.new.start locked.new.history }
    ensures kept { (began : Begun) → locked.old.start ≡ began.start
        → HasKept began.start began.holds locked.old.holds locked.old.history
        → HasKept began.start began.holds locked.new.holds locked.new.history }
{
    let answer = locked.tick(alloc, moment);
    (locked.entries() != before, answer)
}

/// What a history was when it began to be shared.
#[derive(Drop)]
pub struct Outset<H: Holding, C: SiteDriver> {
    locked: Snapshot<Locked<H, C>>,
}

impl<H: Holding, C: SiteDriver> Model for Outset<H, C> {
    ghost use Rattle.std.specs.Coded.{codes};
    ghost use Rattle.share_graph.specs.contracts.state.State as state_type;
    ghost use Rattle.shared_hub.specs.Since.{Begun, begun_of};

    ghost Value = { Begun };

    ghost coded = { Prim.hlevel (codes, state_type.the_row.coded) };

    ghost view = { λ outset. begun_of outset.locked.value };
}

/// A history that many threads share, with what it was when they began to: since then its objects were told what its
/// entries want, and nothing else, and the clock never went back.
pub struct SharedHistory<H: Holding, C: SiteDriver> {
    locked: Locked<H, C>,
    began: Outset<H, C>,
}

// Written by hand, as that of `State` is.
impl<H: Holding, C: SiteDriver + Drop> Drop for SharedHistory<H, C> {
    fn drop(self) {
        let SharedHistory {
            locked: _,
            began: _,
        } = self;
    }
}

impl<H: Holding, C: SiteDriver> Model for SharedHistory<H, C> {
    ghost use Rattle.std.specs.Prelude.{◌≡◌};
    ghost use Rattle.std.specs.Coded.{codes};
    ghost use Rattle.share_graph.specs.contracts.event.Event as event_type;
    ghost use Rattle.share_graph.specs.contracts.state.State as state_type;
    ghost use Rattle.hub_core.specs.Ticking.{NeverBack};
    ghost use Rattle.shared_hub.specs.Since.{Common, HasKept};

    ghost Value = { Common };

    ghost coded = { Prim.hlevel (codes, state_type.the_row.coded, event_type.the_row.coded) };

    ghost view = { λ shared. record { began = shared.began; history = shared.locked.history; holds = shared.locked.holds } };

    ghost invariant = { λ shared. (shared.locked.start ≡ shared.began.start)
        × HasKept shared.began.start shared.began.holds shared.locked.holds shared.locked.history
        × NeverBack shared.began.start shared.locked.history };
}

impl<H: Holding, C: SiteDriver + Drop> SharedHistory<H, C> {
    /// The history, to be shared from now on. It has no entry yet.
    pub fn new(locked: Locked<H, C>) -> Self
        requires { locked.history ≡ [] }
        ensures { result ≡ record { began = begun_of locked; history = []; holds = locked.holds } }
    {
        let outset = Outset {
            locked: Snapshot::of(&locked),
        };
        SharedHistory {
            locked,
            began: outset,
        }
    }

    /// The history, shared no more.
    pub fn into_locked(self) -> Locked<H, C>
        ensures start { result.start ≡ self.began.start }
        ensures history { result.history ≡ self.history }
        ensures holds { result.holds ≡ self.holds }
        ensures kept { HasKept self.began.start self.began.holds result.holds result.history }
    {
        let SharedHistory { locked, began: _ } = self;
        locked
    }
}

impl<H: Holding, C: SiteDriver + Drop> Book for SharedHistory<H, C> {
    type Start = Outset<H, C>;

    type Entry = Event;

    type Order = Wanted;

    type Answer = Told;

    type View = Verdict;

    ghost use Rattle.shared_hub.specs.Wanting as wanting;

    ghost start = { λ shared. shared.began };

    ghost history = { λ shared. shared.history };

    ghost shows = { λ began history key verdict. wanting.ShowsVerdict began.start history key verdict };

    ghost answers = { λ began before wanted told added faults. wanting.AnswersWanted C.Law.law began.start before wanted told added faults };

    ghost blank = { wanting.blank };

    fn act(&mut self, alloc: Global, wanted: Wanted) -> (bool, Faults, Told) {
        let before = self.locked.entries();
        match wanted {
            Wanted::Order(order) => {
                let (more, answer) = answer(&mut self.locked, alloc, before, order);
                (more, faults_in(&answer), Told::Reply(answer))
            }
            Wanted::Tick(moment) => {
                let (more, answer) = tick(&mut self.locked, alloc, before, moment);
                (more, none_met(), Told::Ticked(answer))
            }
            Wanted::Site { tag, item } => {
                let answer = self.locked.site(alloc, tag, item);
                (false, none_met(), Told::Site(answer))
            }
        }
    }

    fn look(&self, alloc: Global, key: &Key) -> Result<Verdict, Memory> {
        self.locked.verdict(alloc, key)
    }
}
