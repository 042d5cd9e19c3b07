//! `gen`: requests that are made from a seed, and served over memory.
ghost use Rattle.std.specs.Prelude.{◌≡◌, ◌≢◌, ◌⊎◌, map};
ghost use Rattle.host_base.specs.Outside.{Rose};
ghost use Rattle.site_caps.specs.Registered.{IsRegistered};
ghost use Rattle.hub_core.specs.Stopping.{OutliveStops};
ghost use Rattle.admin_run.specs.Connection.{HasBook};
ghost use Rattle.admin_run.specs.Making.{Makes, TellsMade};
ghost use Rattle.admin_run.specs.Outside.{DoesNothing, HasStatusCause};

use crate::connection::small_desk;
use crate::lines::summary_lines;
use crate::statuses::status_of_memory;
use crate::telling::tell_line;
use crate::world::{Ran, Setting, World, joined};
use cloud_serve::{ConnEnd, End, Wire, serve_conn};
use front_http::Routes;
use host_base::{Fails, MemSink, MemSource, Sink};
use request_maker::generate;
use site_caps::SiteDriver;
use std::alloc::Global;

// Prints the summary of a connection that ended so, or nothing where its end isn't that of all requests.
fn summarize<O: Sink>(alloc: Global, out: &mut O, end: &ConnEnd, entries: u64, output: &[u8]) -> u8
    ensures tells { TellsMade end.now.end end.now.served end.now.forwarded entries output.now
        (O.outlet out.old) (O.outlet out.new) result }
    ensures cause { result ≡ 5 → Rose (O.outlet out.old).faults (O.outlet out.new).faults }
    ensures unread { result ≢ 4 }
    ensures kept { result ≢ 9 }
{
    let End::Done = end.end else {
        return status_of_memory(end.end);
    };
    match summary_lines(alloc, end.served, end.forwarded, entries, output) {
        Ok(lines) => tell_line(out, lines, 0),
        Err(_) => 7,
    }
}

/// Serves so many requests of a seed from the small book, over memory, and prints the summary.
pub(crate) fn make<W: Setting, C: SiteDriver + Drop>(
    alloc: Global,
    world: World<W>,
    count: u32,
    seed: u64,
    sites: Vec<C>,
) -> Ran<W>
    requires book { HasBook world.tells.holds.keeping }
    requires outlive { OutliveStops world.tells.holds.keeping (W.Keeper.may_leave world.keeper) }
    requires registered { IsRegistered C.Law.law.tags (map C.tag_of sites.items) }
    ensures makes { Makes C.Law.law count seed world.tells result.world.tells result.status
        ⊎ DoesNothing world.tells result.world.tells result.status }
    ensures cause { HasStatusCause world.tells result.world.tells result.status }
{
    let Ok(requests) = generate(alloc, count, seed) else {
        return Ran { status: 7, world };
    };
    let Ok(routes) = Routes::new(alloc) else {
        return Ran { status: 7, world };
    };
    let World {
        input,
        mut out,
        link,
        held,
        clock,
        door,
        halls,
    } = world;
    let mut desk = match small_desk(alloc, held, sites) {
        Ok(desk) => desk,
        Err(held) => {
            let world = joined(Wire { input, out, link }, held, clock, door, halls);
            return Ran { status: 7, world };
        }
    };
    let mut made = Wire {
        input: MemSource::new(requests, Fails::empty(alloc)),
        out: MemSink::new(alloc, Fails::empty(alloc)),
        link,
    };
    let end = serve_conn(alloc, &routes, &mut made, &mut desk);
    let locked = desk.into_locked();
    let entries = locked.entries();
    let status = summarize(alloc, &mut out, &end, entries, made.out.written());
    let held = locked.into_held();
    let Wire { link, .. } = made;
    let world = joined(Wire { input, out, link }, held, clock, door, halls);
    Ran { status, world }
}
