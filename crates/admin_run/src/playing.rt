//! `play`: one connection over the program's input and output.
ghost use Rattle.std.specs.Prelude.{◌⊎◌, map};
ghost use Rattle.site_caps.specs.Registered.{IsRegistered};
ghost use Rattle.hub_core.specs.Stopping.{OutliveStops};
ghost use Rattle.admin_run.specs.Connection.{HasBook};
ghost use Rattle.admin_run.specs.Outside.{DoesNothing, HasStatusCause};
ghost use Rattle.admin_run.specs.Playing.{Plays};

use crate::connection::small_desk;
use crate::statuses::status_of;
use crate::world::{Ran, Setting, World, joined};
use cloud_serve::{Wire, serve_conn};
use front_http::Routes;
use site_caps::SiteDriver;
use std::alloc::Global;

/// Serves one connection from the small book.
pub(crate) fn play<W: Setting, C: SiteDriver + Drop>(
    alloc: Global,
    world: World<W>,
    sites: Vec<C>,
) -> Ran<W>
    requires book { HasBook world.tells.holds.keeping }
    requires outlive { OutliveStops world.tells.holds.keeping (W.Keeper.may_leave world.keeper) }
    requires registered { IsRegistered C.Law.law.tags (map C.tag_of sites.items) }
    ensures plays { Plays C.Law.law world.tells result.world.tells result.status
        ⊎ DoesNothing world.tells result.world.tells result.status }
    ensures cause { HasStatusCause world.tells result.world.tells result.status }
{
    let Ok(routes) = Routes::new(alloc) else {
        return Ran { status: 7, world };
    };
    let World {
        input,
        out,
        link,
        held,
        clock,
        door,
        halls,
    } = world;
    let mut wire = Wire { input, out, link };
    let mut desk = match small_desk(alloc, held, sites) {
        Ok(desk) => desk,
        Err(held) => {
            let world = joined(wire, held, clock, door, halls);
            return Ran { status: 7, world };
        }
    };
    let end = serve_conn(alloc, &routes, &mut wire, &mut desk);
    let status = status_of(end.end);
    let held = desk.into_locked().into_held();
    let world = joined(wire, held, clock, door, halls);
    Ran { status, world }
}
