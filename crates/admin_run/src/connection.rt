//! One connection, served from the small book.
ghost use Rattle.std.specs.Prelude.{◌≡◌, [], map, IfOk, IfErr};
ghost use Rattle.site_caps.specs.Registered.{IsRegistered};
ghost use Rattle.small_book.specs.SmallBook.{small_book};
ghost use Rattle.hub_core.specs.Stopping.{OutliveStops};
ghost use Rattle.admin_run.specs.Connection.{HasBook};

use host_base::Memory;
use hub_core::{Held, Holding, Locked, SoloDesk};
use site_caps::{Registry, SiteDriver};
use small_book::small_book;
use std::alloc::Global;

/// The desk that `play` begins with: over the small book, which the keeper has to have so that it outlives a stop, with a
/// driver for each site. Where memory runs out the objects are handed back.
#[tactic(auto, unfolding(crate::specs::Connection::HasBook), using(crate::proofs::Registered::never_two))]
pub fn small_desk<H: Holding, C: SiteDriver + Drop>(
    alloc: Global,
    held: Held<H>,
    sites: Vec<C>,
) -> Result<SoloDesk<H, C>, Held<H>>
    requires book { HasBook held.tell.keeping }
    requires outlive { OutliveStops held.tell.keeping (H.Keeper.may_leave held.keeper) }
    requires registered { IsRegistered C.Law.law.tags (map C.tag_of sites.items) }
    ensures ok { IfOk result (λ desk. desk
        ≡ record { start = small_book; history = []; holds = held.tell; keeper = held.keeper }) }
    ensures err { IfErr result (λ back. back ≡ held) }
{
    let registry = match Registry::new(sites) {
        Ok(registry) => registry,
        Err(_) => unreachable!(),
    };
    match small_book(alloc) {
        Ok(book) => match Locked::from_state(alloc, book, held, registry) {
            Ok(locked) => Ok(SoloDesk::new(locked)),
            Err(held) => Err(held),
        },
        Err(Memory) => Err(held),
    }
}
