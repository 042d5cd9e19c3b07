//! A desk that owns its history.

ghost use Rattle.std.specs.Prelude.{◌≡◌};
ghost use Rattle.hub_core.specs.Sharing.{book_of};

use crate::desk::Desk;
use crate::held::Holding;
use crate::locked::Locked;
use desk_orders::{Order, OrderFault, Reply};
use host_base::{Key, Memory, Verdict};
use site_caps::{SiteDriver, SiteFault, SiteText};
use std::alloc::Global;
use std::marker::Model;

/// A desk that owns its history: nobody else adds to it, so its places are all of it.
pub struct SoloDesk<H: Holding, C: SiteDriver> {
    locked: Locked<H, C>,
}

// Written by hand, as that of `State` is.
impl<H: Holding, C: SiteDriver + Drop> Drop for SoloDesk<H, C> {
    fn drop(self) {
        let SoloDesk { locked: _ } = self;
    }
}

impl<H: Holding, C: SiteDriver> Model for SoloDesk<H, C> {
    ghost use Rattle.std.specs.Coded.{codes};
    ghost use Rattle.share_graph.specs.contracts.event.Event as event_type;
    ghost use Rattle.share_graph.specs.contracts.state.State as state_type;
    ghost use Rattle.hub_core.specs.Sharing.{Sharing};

    ghost Value = { Sharing H.Keeper };

    ghost coded = { Prim.hlevel (codes, state_type.the_row.coded, event_type.the_row.coded) };

    ghost view = { λ desk. desk.locked };
}

impl<H: Holding, C: SiteDriver + Drop> SoloDesk<H, C> {
    /// A desk that owns a history.
    pub fn new(locked: Locked<H, C>) -> Self
        ensures { result ≡ locked }
    {
        SoloDesk { locked }
    }

    /// The history, handed back.
    pub fn into_locked(self) -> Locked<H, C>
        ensures { result ≡ self }
    {
        let SoloDesk { locked } = self;
        locked
    }
}

impl<H: Holding, C: SiteDriver + Drop> Desk for SoloDesk<H, C> {
    ghost book = { λ sharing. book_of C.Law.law sharing };

    ghost gave = { λ before key answer after. Unit {0} };

    fn place(&self) -> u64 {
        self.locked.entries()
    }

    fn verdict(&mut self, alloc: Global, key: &Key) -> Result<(u64, Verdict), Memory> {
        let verdict = self.locked.verdict(alloc, key)?;
        Ok((self.locked.entries(), verdict))
    }

    fn order(&mut self, alloc: Global, order: Order) -> (u64, Result<Reply, OrderFault>) {
        let place = self.locked.entries();
        (place, self.locked.order(alloc, order))
    }

    fn tick(&mut self, alloc: Global, moment: u64) -> (u64, Result<bool, Memory>) {
        let place = self.locked.entries();
        (place, self.locked.tick(alloc, moment))
    }

    fn site(&mut self, alloc: Global, tag: u64, item: u32) -> Result<SiteText, SiteFault> {
        self.locked.site(alloc, tag, item)
    }
}
