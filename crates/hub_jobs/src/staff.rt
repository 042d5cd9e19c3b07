//! Workers are hired, and dismissed.

ghost use Rattle.std.specs.Prelude.{◌≡◌, ◌+◌, ◌≤◌, All, map, vec_capacity, vec_len, IfOk};

use crate::worker::Worker;
use epoch_gate::{Hub, Maker, Named, Pass};
use host_base::Memory;
use host_clock::Clock;
use hub_core::Holding;
use shared_hub::{Outset, PassDesk, SharedHistory};
use site_caps::SiteDriver;
use std::alloc::Global;
use std::num::NonZeroUsize;
use std::sync::Wait;
use std::sync::ledger::Ledger;
use tick_desk::TickDesk;

/// Makes so many passes, whose caches have so much room.
pub fn make_passes<H: Holding, C: SiteDriver + Drop, N: Named<Outset<H, C>>, L: Ledger, R: Wait>(
    rt: &R,
    alloc: Global,
    hub: &Hub<SharedHistory<H, C>, N, L>,
    maker: &mut Maker<SharedHistory<H, C>, N, L>,
    count: usize,
    room: NonZeroUsize,
    passes: &mut Vec<Pass<SharedHistory<H, C>, N, L>>,
) -> Result<(), Memory>
    requires few { maker.old + count ≤ 65536 }
    requires none { vec_len passes.old ≡ 0 }
    requires room { count ≤ vec_capacity passes.old }
    ensures made { maker.new ≡ maker.old + vec_len passes.new }
    ensures all { IfOk result (λ _. vec_len passes.new ≡ count) }
    ensures unused { All (λ pass. pass.orders ≡ 0) passes.new.items }
    ensures capacity { vec_capacity passes.new ≡ vec_capacity passes.old }
{
    'passes: for _made in 0..count {
        let pass = hub.pass(rt, alloc, maker, room)?;
        passes.push_reserved(pass);
    }
    Ok(())
}

/// Makes so many clocks, which go on from where this one stands.
pub fn make_clocks<T: Clock + Drop>(
    alloc: Global,
    clock: &T,
    count: usize,
) -> Result<Vec<T>, Memory>
    ensures all { IfOk result (λ clocks. vec_len clocks ≡ count) }
{
    let mut clocks = Vec::with_capacity(alloc, count)?;
    'clocks: for _made in 0..count {
        let another = clock.another(alloc)?;
        clocks.push_reserved(another);
    }
    Ok(clocks)
}

/// A worker for each job, with a desk of one of the passes and one of the clocks.
pub fn hire<
    'a,
    H: Holding,
    C: SiteDriver + Drop,
    N: Named<Outset<H, C>>,
    L: Ledger,
    R: Wait,
    T: Clock + Drop,
    J: Drop,
>(
    rt: &'a R,
    alloc: Global,
    hub: &'a Hub<SharedHistory<H, C>, N, L>,
    jobs: Vec<J>,
    passes: &mut Vec<Pass<SharedHistory<H, C>, N, L>>,
    clocks: &mut Vec<T>,
    workers: &mut Vec<Worker<'a, H, C, N, L, R, T, J>>,
)
    requires none { vec_len workers.old ≡ 0 }
    requires room { vec_len jobs ≤ vec_capacity workers.old }
    requires passes { vec_len passes.old ≡ vec_len jobs }
    requires clocks { vec_len clocks.old ≡ vec_len jobs }
    requires unused { All (λ pass. pass.orders ≡ 0) passes.old.items }
    ensures jobs { map (λ worker. worker.job) workers.new.items ≡ jobs.items }
    ensures unused { All (λ worker. worker.desk.desk.orders ≡ 0) workers.new.items }
    ensures unticked { All (λ worker. worker.desk.ticks ≡ 0) workers.new.items }
    ensures none { vec_len passes.new ≡ 0 }
    ensures capacity { vec_capacity passes.new ≡ vec_capacity passes.old }
{
    'jobs: for job in jobs {
        let Some(pass) = passes.pop() else {
            unreachable!();
        };
        let Some(clock) = clocks.pop() else {
            unreachable!();
        };
        let beneath = PassDesk::new(rt, hub, pass);
        let desk = TickDesk::new(beneath, clock);
        workers.push_reserved(Worker { alloc, desk, job });
    }
}

/// Takes workers apart: their passes, and their jobs. Their clocks are let go.
pub fn dismiss<
    'a,
    H: Holding,
    C: SiteDriver + Drop,
    N: Named<Outset<H, C>>,
    L: Ledger,
    R: Wait,
    T: Clock + Drop,
    J: Drop,
>(
    workers: Vec<Worker<'a, H, C, N, L, R, T, J>>,
    passes: &mut Vec<Pass<SharedHistory<H, C>, N, L>>,
    jobs: &mut Vec<J>,
)
    requires none { (vec_len passes.old ≡ 0) × (vec_len jobs.old ≡ 0) }
    requires room { (vec_len workers ≤ vec_capacity passes.old) × (vec_len workers ≤ vec_capacity jobs.old) }
    ensures passes { passes.new.items ≡ map (λ worker. worker.desk.desk) workers.entry.items }
    ensures jobs { jobs.new.items ≡ map (λ worker. worker.job) workers.entry.items }
{
    'workers: for worker in workers {
        let Worker {
            alloc: _,
            desk,
            job,
        } = worker;
        let (beneath, _clock) = desk.into_parts();
        passes.push_reserved(beneath.into_pass());
        jobs.push_reserved(job);
    }
}
