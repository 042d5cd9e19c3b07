//! Jobs are done at once on one history.

ghost use Rattle.std.specs.Prelude.{◌≡◌, ◌+◌, ◌≤◌, [], All, vec_capacity, vec_len, IfOk, OnErr};
ghost use Rattle.epoch_gate.specs.Books.{start_of};
ghost use Rattle.hub_jobs.specs.Inner.{DoneBy};
ghost use Rattle.hub_jobs.specs.Jobs.{DoneAtOnce};
ghost use Rattle.shared_hub.specs.Since.{HasKept, begun_of};
ghost use Rattle.shared_hub.specs.Wanting.{blank};

use crate::at_once::run_all;
use crate::staff::{dismiss, hire, make_clocks, make_passes};
use crate::worker::{Job, Worker};
use epoch_gate::{Hub, Maker, Named, PARTS, Pass, Unnamed};
use host_base::Memory;
use host_clock::Clock;
use hub_core::{Holding, Locked};
use share_graph::Event;
use shared_hub::{Outset, SharedHistory};
use site_caps::SiteDriver;
use std::alloc::Global;
use std::marker::Brand;
use std::num::NonZeroUsize;
use std::sync::Wait;
use std::sync::ledger::{Blank, Ledger};
use std::thread::Threads;

/// How many jobs are done at once at the most: as many as a hub has passes.
pub const MOST_JOBS: usize = 65536;

// A clock for each of so many workers, and room for the workers and for what they leave.
#[derive(Drop)]
struct Rooms<
    'a,
    H: Holding,
    C: SiteDriver + Drop,
    N: Named<Outset<H, C>>,
    L: Ledger,
    R: Wait,
    T: Clock + Drop,
    J: Drop,
> {
    clocks: Vec<T>,
    workers: Vec<Worker<'a, H, C, N, L, R, T, J>>,
    passes: Vec<Pass<SharedHistory<H, C>, N, L>>,
    jobs: Vec<J>,
}

fn make_rooms<
    'a,
    H: Holding,
    C: SiteDriver + Drop,
    N: Named<Outset<H, C>>,
    L: Ledger,
    R: Wait,
    T: Clock + Drop,
    J: Drop,
>(alloc: Global, clock: &T, count: usize) -> Result<Rooms<'a, H, C, N, L, R, T, J>, Memory>
    ensures clocks { IfOk result (λ rooms. vec_len rooms.clocks ≡ count) }
    ensures none { IfOk result (λ rooms. (vec_len rooms.workers ≡ 0) × (vec_len rooms.passes ≡ 0)
        × (vec_len rooms.jobs ≡ 0)) }
    ensures room { IfOk result (λ rooms. (count ≤ vec_capacity rooms.workers) × (count ≤ vec_capacity rooms.passes)
        × (count ≤ vec_capacity rooms.jobs)) }
{
    let clocks = make_clocks(alloc, clock, count)?;
    Ok(Rooms {
        clocks,
        workers: Vec::with_capacity(alloc, count)?,
        passes: Vec::with_capacity(alloc, count)?,
        jobs: Vec::with_capacity(alloc, count)?,
    })
}

// What workers leave: their passes and their jobs, or that memory ran out before one worked.
#[derive(Drop)]
struct Left<H: Holding, C: SiteDriver + Drop, N: Named<Outset<H, C>>, L: Ledger, J: Drop> {
    passes: Vec<Pass<SharedHistory<H, C>, N, L>>,
    jobs: Vec<J>,
    outcome: Result<(), Memory>,
}

// Does the jobs at once, by passes of the hub.
fn do_by<
    H: Holding + Send,
    C: SiteDriver + Drop + Send,
    N: Named<Outset<H, C>> + Send + Sync,
    L: Ledger + Send + Sync,
    R: Threads + Wait + Sync,
    T: Clock + Drop + Send,
    J: Job + Drop + Send,
>(
    rt: &R,
    alloc: Global,
    hub: &Hub<SharedHistory<H, C>, N, L>,
    maker: &mut Maker<SharedHistory<H, C>, N, L>,
    room: NonZeroUsize,
    clock: &T,
    jobs: Vec<J>,
) -> Left<H, C, N, L, J>
where
    H::Keeper: Send,
    H::Secrets: Send,
    H::Spawner: Send,
    C::Law: Send,
    requires few { maker.old + vec_len jobs ≤ 65536 }
    requires ready { All J.ready jobs.items }
    ensures made { maker.new ≡ maker.old + vec_len result.passes }
    ensures done { IfOk result.outcome (λ _. DoneBy J.does C.Law.law (start_of blank N.start).start
        result.passes.items jobs.items result.jobs.items) }
    ensures none { OnErr result.outcome ((result.jobs ≡ jobs) × All (λ pass. pass.orders ≡ 0) result.passes.items) }
{
    let count = jobs.len();
    let Ok(rooms) = make_rooms(alloc, clock, count) else {
        return Left {
            passes: Vec::new(alloc),
            jobs,
            outcome: Err(Memory),
        };
    };
    let Rooms {
        mut clocks,
        mut workers,
        mut passes,
        jobs: mut back,
    } = rooms;
    if make_passes(rt, alloc, hub, maker, count, room, &mut passes).is_err() {
        return Left {
            passes,
            jobs,
            outcome: Err(Memory),
        };
    }
    hire(rt, alloc, hub, jobs, &mut passes, &mut clocks, &mut workers);
    run_all(rt, workers.as_mut_slice());
    dismiss(workers, &mut passes, &mut back);
    Left {
        passes,
        jobs: back,
        outcome: Ok(()),
    }
}

/// A history on which jobs were done, and the jobs; or that memory ran out before one was begun.
#[derive(Drop)]
pub struct Done<H: Holding, C: SiteDriver + Drop, J: Drop> {
    pub locked: Locked<H, C>,
    pub jobs: Vec<J>,
    pub outcome: Result<(), Memory>,
}

// Makes a hub of the history, does the jobs, and closes the hub.
fn do_under<
    H: Holding + Send,
    C: SiteDriver + Drop + Send,
    N: Named<Outset<H, C>> + Send + Sync,
    L: Ledger + Send + Sync,
    R: Threads + Wait + Sync,
    T: Clock + Drop + Send,
    J: Job + Drop + Send,
>(
    rt: &R,
    alloc: Global,
    unnamed: Unnamed<Event>,
    unopened: Blank,
    locked: Locked<H, C>,
    room: NonZeroUsize,
    clock: &T,
    jobs: Vec<J>,
) -> Done<H, C, J>
where
    H::Keeper: Send,
    H::Secrets: Send,
    H::Spawner: Send,
    C::Law: Send,
    requires empty { locked.history ≡ [] }
    requires start { begun_of locked ≡ start_of blank N.start }
    requires table { unnamed ≡ N.table }
    requires ledger { (unopened.name ≡ L.name) × (unopened.parts ≡ 65537) × (L.parts ≡ 65537) }
    requires few { vec_len jobs ≤ 65536 }
    requires ready { All J.ready jobs.items }
    ensures start { result.locked.start ≡ locked.start }
    ensures kept { HasKept locked.start locked.holds result.locked.holds result.locked.history }
    ensures done { IfOk result.outcome (λ _. DoneAtOnce J.does C.Law.law locked.start result.locked.history
        jobs.items result.jobs.items) }
    ensures none { OnErr result.outcome ((result.jobs ≡ jobs) × (result.locked.history ≡ [])) }
{
    let history = SharedHistory::new(locked);
    let (hub, mut maker) = Hub::<SharedHistory<H, C>, N, L>::new(unnamed, unopened, history);
    let Left {
        passes,
        jobs,
        outcome,
    } = do_by(rt, alloc, &hub, &mut maker, room, clock, jobs);
    match hub.close(maker, passes) {
        Ok(history) => Done {
            locked: history.into_locked(),
            jobs,
            outcome,
        },
        Err(_) => unreachable!(),
    }
}

/// Does jobs, `MOST_JOBS` at the most, at once on one history, which has no entry yet: each on a thread of its own, by a
/// desk of its own, whose cache has so much room, and which lets a clock of its own go on: another of this one. Where
/// memory runs out first, none is begun.
pub fn do_at_once<
    H: Holding + Send,
    C: SiteDriver + Drop + Send,
    R: Threads + Wait + Sync,
    T: Clock + Drop + Send,
    J: Job + Drop + Send,
>(
    rt: &R,
    alloc: Global,
    locked: Locked<H, C>,
    room: NonZeroUsize,
    clock: &T,
    jobs: Vec<J>,
) -> Done<H, C, J>
where
    H::Keeper: Send,
    H::Secrets: Send,
    H::Spawner: Send,
    C::Law: Send,
    requires empty { locked.history ≡ [] }
    requires few { vec_len jobs ≤ 65536 }
    requires ready { All J.ready jobs.items }
    ensures start { result.locked.start ≡ locked.start }
    ensures kept { HasKept locked.start locked.holds result.locked.holds result.locked.history }
    ensures done { IfOk result.outcome (λ _. DoneAtOnce J.does C.Law.law locked.start result.locked.history
        jobs.items result.jobs.items) }
    ensures none { OnErr result.outcome ((result.jobs ≡ jobs) × (result.locked.history ≡ [])) }
{
    let Ok(unnamed) = Unnamed::new(alloc) else {
        return Done {
            locked,
            jobs,
            outcome: Err(Memory),
        };
    };
    do_under::<H, C, Brand, Brand, R, T, J>(
        rt,
        alloc,
        unnamed,
        Blank::new(PARTS),
        locked,
        room,
        clock,
        jobs,
    )
}
