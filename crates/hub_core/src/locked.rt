//! One value that holds a history, the objects beside it, and the sites.

ghost use Rattle.std.specs.Prelude.{◌≡◌, ◌<◌, ◌≤◌, [], length, IfOk, IfErr};
ghost use Rattle.desk_base.specs.Terms.{IsSolutionOf, IsWellFormed, replay};
ghost use Rattle.live_access.specs.Kept.{IsSolvedFor};
ghost use Rattle.session_table.specs.Verdict.{IsVerdict};
ghost use Rattle.hub_core.specs.Book.{Ordered, Ticked};
ghost use Rattle.site_caps.specs.Answering.{GivesText};
ghost use Rattle.hub_core.specs.Revoking.{TakesAway, Spares};
ghost use Rattle.hub_core.specs.Sharing.{book_of};
ghost use Rattle.hub_core.specs.Stopping.{LeavesBehind, OutliveStops};
ghost use Rattle.hub_core.specs.Ticking.{NeverBack};
ghost use Rattle.row_tables.specs.Kept.{IsStored};

use crate::answering::answer;
use crate::held::{Held, Holding};
use crate::history::History;
use desk_orders::{Order, OrderFault, Reply};
use host_base::{Key, Memory, Verdict};
use least_access::Solved;
use live_access::Solution;
use session_table::verdict;
use share_graph::{State, Tables};
use site_caps::{Registry, SiteDriver, SiteFault, SiteText};
use std::alloc::Global;
use std::marker::Model;

/// A history with what stands at its end, the objects that a desk works with, and the drivers of its sites. It is what one
/// holds who has the lock.
pub struct Locked<H: Holding, C: SiteDriver> {
    history: History,
    held: Held<H>,
    sites: Registry<C>,
}

// Written by hand, as that of `State` is.
impl<H: Holding, C: SiteDriver + Drop> Drop for Locked<H, C> {
    fn drop(self) {
        let Locked {
            history: _,
            held: _,
            sites: _,
        } = self;
    }
}

impl<H: Holding, C: SiteDriver> Model for Locked<H, C> {
    ghost use Rattle.std.specs.Coded.{codes};
    ghost use Rattle.share_graph.specs.contracts.event.Event as event_type;
    ghost use Rattle.share_graph.specs.contracts.state.State as state_type;
    ghost use Rattle.hub_core.specs.Sharing.{Sharing, state_of};
    ghost use Rattle.hub_core.specs.Stopping.{OutliveStops};
    ghost use Rattle.row_tables.specs.Kept.{IsStored};

    ghost Value = { Sharing H.Keeper };

    ghost coded = { Prim.hlevel (codes, state_type.the_row.coded, event_type.the_row.coded) };

    ghost view = { λ locked. record { start = locked.history.start; history = locked.history.entries; holds = locked.held.tell; keeper = locked.held.keeper } };

    ghost invariant = { λ locked. IsStored locked.held.tell.keeping (state_of locked.history).tables × OutliveStops locked.held.tell.keeping (H.Keeper.may_leave locked.held.keeper) };
}

impl<H: Holding, C: SiteDriver + Drop> Locked<H, C> {
    /// Opens a history that begins with a well-formed state of fewer than 2^31 sessions, whose tables the keeper has, in rows
    /// that outlive a stop. Where memory runs out the objects are handed back.
    pub fn from_state(
        alloc: Global,
        state: State,
        held: Held<H>,
        sites: Registry<C>,
    ) -> Result<Self, Held<H>>
        requires formed { IsWellFormed state }
        requires few { length state.sessions < 2147483648 }
        requires stored { IsStored held.tell.keeping state.tables }
        requires outlive { OutliveStops held.tell.keeping (H.Keeper.may_leave held.keeper) }
        ensures ok { IfOk result (λ locked. locked
            ≡ record { start = state; history = []; holds = held.tell; keeper = held.keeper }) }
        ensures err { IfErr result (λ back. back ≡ held) }
    {
        match History::new(alloc, state) {
            Ok(history) => Ok(Locked {
                history,
                held,
                sites,
            }),
            Err(Memory) => Err(held),
        }
    }

    /// The objects that were handed in. The keeper has the tables, in rows that outlive a stop. It takes no memory.
    pub fn into_held(self) -> Held<H>
        ensures held { result ≡ record { keeper = self.keeper; tell = self.holds } }
        ensures stored { IsStored result.tell.keeping (replay self.start self.history).tables }
        ensures outlive { OutliveStops result.tell.keeping (H.Keeper.may_leave result.keeper) }
    {
        let Locked {
            history: _,
            held,
            sites: _,
        } = self;
        held
    }

    /// How many entries the history has, 1,000,000 at the most. Along them the clock never went back. It takes no memory.
    pub fn entries(&self) -> u64
        ensures value { result ≡ length self.now.history }
        ensures few { length self.now.history ≤ 1000000 }
        ensures onward { NeverBack self.now.start self.now.history }
    {
        self.history.count()
    }

    /// The tables at the end of the history. It takes no memory.
    pub fn tables(&self) -> &Tables
        ensures { result.now ≡ (replay self.now.start self.now.history).tables }
    {
        &self.history.state().tables
    }

    /// What each node holds at the end of the history. It takes no memory.
    pub fn solved(&self) -> &Solved
        ensures { IsSolutionOf (replay self.now.start self.now.history).tables result.now }
    {
        self.history.solved()
    }

    /// The same with the indexes by which questions are answered. It takes no memory.
    pub fn solution(&self) -> &Solution
        ensures { IsSolvedFor (replay self.now.start self.now.history).tables result.now }
    {
        self.history.solution()
    }

    /// The verdict on a key at the end of the history. Where its last entry revoked a grant, a key that held entry only by
    /// derivations through that grant is denied, and one with another derivation goes on with exactly what the others give.
    pub fn verdict(&self, alloc: Global, key: &Key) -> Result<Verdict, Memory>
        ensures formed { IsWellFormed (replay self.now.start self.now.history) }
        ensures verdict { IfOk result (IsVerdict (replay self.now.start self.now.history) key.now) }
        ensures spared { IfOk result (Spares self.now.start self.now.history key.now) }
    {
        verdict(alloc, self.history.state(), self.history.solved(), key)
    }

    /// What the site of a tag gives for an item.
    ///
    /// # Errors
    /// `NoDriver` where there is no such site, and `NotOffered` where it gives nothing for the item.
    pub fn site(&self, alloc: Global, tag: u64, item: u32) -> Result<SiteText, SiteFault>
        ensures { GivesText C.Law.law tag item result }
    {
        match self.sites.restore(alloc, tag, item) {
            Ok(text) => Ok(text),
            Err(fault) => Err(fault),
        }
    }

    /// Lets the clock go on to a moment at the end of the history: where some grant ends by it, the tick is the next entry. It is
    /// never refused; neither the keeper nor the spawner is called, and no secret is drawn.
    pub fn tick(&mut self, alloc: Global, moment: u64) -> Result<bool, Memory>
        ensures ticked { Ticked (book_of C.Law.law self.old) (book_of C.Law.law self.new) moment
            (length self.old.history) result }
        ensures holds { self.new.holds ≡ self.old.holds }
        ensures keeper { self.new.keeper ≡ self.old.keeper }
    {
        self.history.tick(alloc, moment)
    }

    /// Answers an order at the end of the history. Where it changes something, its event is the next entry, and the keeper has
    /// the row that it adds or changes; a refusal, a fault and want of memory leave the history and the rows as they were. Where
    /// the entry revokes a grant, a fact is held from there on exactly where it had a derivation that doesn't use the grant.
    ///
    /// A stop leaves a list of rows that it could leave before, or the rows after the event in hand, and where an event with a
    /// row was added the rows alone.
    #[tactic(auto, using(crate::proofs::Revoking::takes_away))]
    pub fn order(&mut self, alloc: Global, order: Order) -> Result<Reply, OrderFault>
        ensures ordered { Ordered (book_of C.Law.law self.old) (book_of C.Law.law self.new) order
            (length self.old.history) result }
        ensures revoked { TakesAway self.old.start self.old.history self.new.history }
        ensures stored { IsStored self.new.holds.keeping (replay self.new.start self.new.history).tables }
        ensures stops { LeavesBehind C.Law.law H.Keeper.may_leave self.old self.new order }
    {
        answer(
            alloc,
            &mut self.history,
            &mut self.held,
            &self.sites,
            &order,
        )
    }
}
