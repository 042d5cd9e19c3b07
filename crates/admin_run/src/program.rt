//! What the program does.
ghost use Rattle.std.specs.Prelude.{◌≡◌, ◌⊎◌, map};
ghost use Rattle.command_line.specs.Words.{IsLine, tunnels_in};
ghost use Rattle.command_line.specs.declared.line.Line.{Line as TheLine};
ghost use Rattle.site_caps.specs.Registered.{IsRegistered};
ghost use Rattle.hub_core.specs.Stopping.{OutliveStops};
ghost use Rattle.admin_run.specs.Connection.{HasBook};
ghost use Rattle.admin_run.specs.Outside.{AreInOrder, DoesNothing, HasStatusCause, TellsUsage};
ghost use Rattle.admin_run.specs.Judging.{ChecksRows};
ghost use Rattle.admin_run.specs.Playing.{ServesGrain};
ghost use Rattle.admin_run.specs.Reporting.{ReportsOn};
ghost use Rattle.admin_run.specs.Program.{AtDoor, BeginWithBook, Does, FromBook, NeedSites, ServeAtDoor, UsesSites};

use crate::collecting::collect;
use crate::judging::judge;
use crate::making::make;
use crate::playing::play;
use crate::reporting::{Subject, report};
use crate::serving::{Counts, serve};
use crate::statuses::status_of_end;
use crate::telling::{USAGE, tell};
use crate::world::{LinkOf, Ran, Setting, World};
use command_line::{Line, Tunnels, line_of};
use grain_program::run_grain;
use host_base::{GrainId, GrantId, Memory};
use host_clock::Clock;
use serve_door::{Door, HallDoor};
use site_caps::SiteDriver;
use std::alloc::Global;
use std::sync::Wait;
use std::thread::Threads;

// Judges the rows of the keeper.
fn check<W: Setting>(alloc: Global, world: World<W>) -> Ran<W>
    ensures checks { ChecksRows world.tells result.world.tells result.status }
    ensures cause { HasStatusCause world.tells result.world.tells result.status }
{
    let mut world = world;
    let status = judge(alloc, &mut world.out, &mut world.held.keeper);
    Ran { status, world }
}

// Reports on the rows of the keeper, at the clock's moment.
fn reports<W: Setting>(alloc: Global, world: World<W>, asked: Subject) -> Ran<W>
    ensures reports { ReportsOn asked world.tells result.world.tells result.status }
    ensures cause { HasStatusCause world.tells result.world.tells result.status }
{
    let mut world = world;
    let moment = world.clock.now();
    let status = report(alloc, &mut world.out, &mut world.held.keeper, moment, asked);
    Ran { status, world }
}

// Is a grain: answers connections at the door.
fn grain<W: Setting>(alloc: Global, world: World<W>, count: u32) -> Ran<W>
    ensures serves { ServesGrain count world.tells result.world.tells result.status }
    ensures cause { HasStatusCause world.tells result.world.tells result.status }
{
    let mut world = world;
    let end = run_grain(alloc, &mut world.door, &mut world.out, count);
    Ran {
        status: status_of_end(end),
        world,
    }
}

// Prints the usage line.
fn usage<W: Setting>(world: World<W>) -> Ran<W>
    ensures tells { TellsUsage world.tells result.world.tells result.status }
    ensures cause { HasStatusCause world.tells result.world.tells result.status }
{
    let mut world = world;
    let status = tell(&mut world.out, USAGE, 2);
    Ran { status, world }
}

// How many tunnels a line has served.
fn tunnels_in(tunnels: Option<Tunnels>) -> u32
    ensures { result ≡ tunnels_in tunnels }
{
    match tunnels {
        Some(tunnels) => tunnels.count,
        None => 0,
    }
}

// Does what a line says.
fn perform<R: Threads + Wait + Sync, W: Setting + Send, C: SiteDriver + Drop + Send>(
    rt: &R,
    alloc: Global,
    line: Line,
    world: World<W>,
    sites: Vec<C>,
) -> Ran<W>
where
    W::Keeper: Send,
    W::Secrets: Send,
    W::Spawner: Send,
    W::Clock: Send,
    W::Door: Send,
    W::Halls: Send,
    <W::Door as Door>::Input: Send,
    <W::Door as Door>::Output: Send,
    <W::Halls as HallDoor>::Hall: Send,
    LinkOf<W>: Send,
    C::Law: Send,
    requires book { FromBook line → HasBook world.tells.holds.keeping }
    requires outlive { FromBook line
        → OutliveStops world.tells.holds.keeping (W.Keeper.may_leave world.keeper) }
    requires registered { UsesSites line → IsRegistered C.Law.law.tags (map C.tag_of sites.items) }
    requires order { AtDoor line → AreInOrder world.tells }
    ensures does { Does C.Law.law line (W.Keeper.may_leave result.world.keeper) world.tells result.world.tells
        result.status }
    ensures cause { HasStatusCause world.tells result.world.tells result.status }
{
    match line {
        Line::Play => play(alloc, world, sites),
        Line::Gen { count, seed } => make(alloc, world, count, seed, sites),
        Line::Check => check(alloc, world),
        Line::Grain { count } => grain(alloc, world, count),
        Line::Serve { count, tunnels, .. } => {
            let counts = Counts {
                connections: count,
                tunnels: tunnels_in(tunnels),
            };
            serve(rt, alloc, world, counts, sites)
        }
        Line::Access { grain } => reports(alloc, world, Subject::Access(GrainId(grain))),
        Line::Preview { grant } => reports(alloc, world, Subject::Preview(GrantId(grant))),
        Line::Collect { grain, grant } => {
            collect(alloc, world, GrainId(grain), GrantId(grant), sites)
        }
        Line::Unknown => usage(world),
    }
}

/// All that the program does. `play` serves one connection from the small book, whose rows the keeper has to have so that they
/// outlive a stop, with a driver for each site; `gen COUNT SEED` serves so many requests of a seed in the same way, over memory, and prints their
/// summary; `serve FILE PORT COUNT` serves so many connections at its door from the rows of the keeper, with a driver for each
/// site, and with `WSPORT WSCOUNT` so many tunnels at its halls beside them; `check FILE` says what the rows of the keeper state; `grain SOCKET COUNT` prints `ready` and answers so many
/// connections at its door with what they were asked; `access FILE GRAIN` prints who has access to a grain by the keeper's rows, and
/// `preview FILE GRANT` what revoking a grant would take, at the clock's moment; `collect FILE GRAIN GRANT` gives the members of a
/// collection the shares that they are owed, for the account whose login the input begins with; any other words get the usage line.
pub fn run<R: Threads + Wait + Sync, W: Setting + Send, C: SiteDriver + Drop + Send>(
    rt: &R,
    alloc: Global,
    words: &[String],
    world: World<W>,
    sites: Vec<C>,
) -> Ran<W>
where
    W::Keeper: Send,
    W::Secrets: Send,
    W::Spawner: Send,
    W::Clock: Send,
    W::Door: Send,
    W::Halls: Send,
    <W::Door as Door>::Input: Send,
    <W::Door as Door>::Output: Send,
    <W::Halls as HallDoor>::Hall: Send,
    LinkOf<W>: Send,
    C::Law: Send,
    requires book { BeginWithBook words.now → HasBook world.tells.holds.keeping }
    requires outlive { BeginWithBook words.now
        → OutliveStops world.tells.holds.keeping (W.Keeper.may_leave world.keeper) }
    requires registered { NeedSites words.now → IsRegistered C.Law.law.tags (map C.tag_of sites.items) }
    requires order { ServeAtDoor words.now → AreInOrder world.tells }

    // What its words' line does, or nothing for want of memory.
    ensures does { (line : TheLine) → IsLine words.now line →
        Does C.Law.law line (W.Keeper.may_leave result.world.keeper) world.tells result.world.tells result.status
        ⊎ DoesNothing world.tells result.world.tells result.status }
    ensures cause { HasStatusCause world.tells result.world.tells result.status }
{
    match line_of(alloc, words) {
        Ok(line) => perform(rt, alloc, line, world, sites),
        Err(Memory) => Ran { status: 7, world },
    }
}
