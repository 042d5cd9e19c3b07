//! A desk that shares its history with others, and decides from its cache.

ghost use Rattle.std.specs.Prelude.{◌≡◌, ◌+◌, ◌≤◌, Some, length, IfOk};
ghost use Rattle.std.specs.Map.{lookup};
ghost use Rattle.hub_core.specs.Book.{GoesOn, TakesNone, Judged};
ghost use Rattle.shared_hub.specs.Wanting.{blank};
ghost use Rattle.epoch_gate.specs.Books.{start_of};
ghost use Rattle.epoch_gate.specs.Passes.{same_key};
ghost use Rattle.shared_hub.specs.Passing.{book_by};

use crate::history::{Outset, SharedHistory, Told, Wanted};
use desk_orders::{Order, OrderFault, Reply};
use epoch_gate::{Hub, Named, Pass};
use host_base::{Key, Memory, Verdict};
use hub_core::{Desk, Holding};
use site_caps::{SiteDriver, SiteFault, SiteText};
use std::alloc::Global;
use std::marker::Model;
use std::sync::Wait;
use std::sync::ledger::Ledger;

// A copy of a verdict.
fn verdict_copy(verdict: &Verdict) -> Result<Verdict, Memory>
    ensures { IfOk result (λ copy. copy ≡ verdict.now) }
{
    match verdict.clone() {
        Ok(copy) => Ok(copy),
        Err(_) => Err(Memory),
    }
}

/// A desk that shares its history with others, by a pass of their hub.
pub struct PassDesk<'a, H: Holding, C: SiteDriver + Drop, N: Named<Outset<H, C>>, L: Ledger, R> {
    rt: &'a R,
    hub: &'a Hub<SharedHistory<H, C>, N, L>,
    pass: Pass<SharedHistory<H, C>, N, L>,
}

// Written by hand, as that of `State` is.
impl<'a, H: Holding, C: SiteDriver + Drop, N: Named<Outset<H, C>>, L: Ledger, R> Drop
    for PassDesk<'a, H, C, N, L, R> {
    fn drop(self) {
        let PassDesk {
            rt: _,
            hub: _,
            pass: _,
        } = self;
    }
}

impl<'a, H: Holding, C: SiteDriver + Drop, N: Named<Outset<H, C>>, L: Ledger, R> Model
    for PassDesk<'a, H, C, N, L, R> {
    ghost use Rattle.std.specs.Coded.{codes};
    ghost use Rattle.share_graph.specs.contracts.event.Event as event_type;
    ghost use Rattle.share_graph.specs.declared.event.Event.{Event};
    ghost use Rattle.host_base.specs.declared.verdict.Verdict.{Verdict};
    ghost use Rattle.epoch_gate.specs.Passes.{Passing};

    ghost Value = { Passing Event Verdict };

    ghost coded = { Prim.hlevel (codes, event_type.the_row.coded) };

    ghost view = { λ desk. desk.pass };
}

impl<'a, H: Holding, C: SiteDriver + Drop, N: Named<Outset<H, C>>, L: Ledger, R> PassDesk<
    'a,
    H,
    C,
    N,
    L,
    R,
> {
    /// A desk of a pass. It waits by a handle for the hub's lock.
    pub fn new(
        rt: &'a R,
        hub: &'a Hub<SharedHistory<H, C>, N, L>,
        pass: Pass<SharedHistory<H, C>, N, L>,
    ) -> Self
        ensures { result ≡ pass }
    {
        PassDesk { rt, hub, pass }
    }

    /// The pass, handed back.
    pub fn into_pass(self) -> Pass<SharedHistory<H, C>, N, L>
        ensures { result ≡ self.entry }
    {
        let PassDesk {
            rt: _,
            hub: _,
            pass,
        } = self;
        pass
    }
}

impl<'a, H: Holding, C: SiteDriver + Drop, N: Named<Outset<H, C>>, L: Ledger, R: Wait> Desk
    for PassDesk<'a, H, C, N, L, R> {
    ghost book = { λ pass. book_by C.Law.law (start_of blank N.start).start pass };

    // each question makes a load of its own
    ghost gave = { λ before key answer after. after.loads ≡ before.loads + 1 };

    fn place(&self) -> u64 {
        self.pass.seen()
    }

    /// It makes one load, and waits for nobody where the cache has a verdict on the key with the loaded length as its number.
    fn verdict(&mut self, alloc: Global, key: &Key) -> Result<(u64, Verdict), Memory>
        ensures none { TakesNone (book_by C.Law.law (start_of blank N.start).start self.old)
            (book_by C.Law.law (start_of blank N.start).start self.new) }
        ensures judged { IfOk result (λ r. Judged (length self.old.seen)
            (book_by C.Law.law (start_of blank N.start).start self.new) key.now r.0 r.1) }
        ensures onward { IfOk result (λ r.
            GoesOn (book_by C.Law.law (start_of blank N.start).start self.new) r.0) }
        ensures load { self.new.loads ≡ self.old.loads + 1 }
        ensures low { IfOk result (λ r. self.new.last ≤ r.0) }
        ensures cached { (kept : _) → lookup (same_key key.now) self.old.cache.entries ≡ Some kept
            → kept.number ≡ self.new.last → self.new.waits ≡ self.old.waits }
    {
        let place = self.pass.find(self.rt, alloc, self.hub, key)?;
        let Some((_, verdict)) = self.pass.newest() else {
            unreachable!();
        };
        Ok((place, verdict_copy(verdict)?))
    }

    fn order(&mut self, alloc: Global, order: Order) -> (u64, Result<Reply, OrderFault>) {
        let (place, told) = self
            .hub
            .order(self.rt, alloc, &mut self.pass, Wanted::Order(order));
        let Told::Reply(answer) = told else {
            unreachable!();
        };
        (place, answer)
    }

    fn tick(&mut self, alloc: Global, moment: u64) -> (u64, Result<bool, Memory>) {
        let (place, told) = self
            .hub
            .order(self.rt, alloc, &mut self.pass, Wanted::Tick(moment));
        let Told::Ticked(answer) = told else {
            unreachable!();
        };
        (place, answer)
    }

    fn site(&mut self, alloc: Global, tag: u64, item: u32) -> Result<SiteText, SiteFault> {
        let (_, told) = self
            .hub
            .order(self.rt, alloc, &mut self.pass, Wanted::Site { tag, item });
        let Told::Site(answer) = told else {
            unreachable!();
        };
        answer
    }
}
