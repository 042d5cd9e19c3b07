//! Jobs that are done on threads, each by a desk of its own pass.

ghost use Rattle.std.specs.Prelude.{◌≡◌, [], All};

use host_clock::StillClock;
use hub_core::{Holding, Locked};
use hub_jobs::{Done, Job, MOST_JOBS, do_at_once};
use site_caps::SiteDriver;
use std::alloc::Global;
use std::num::NonZeroUsize;
use std::sync::Wait;
use std::thread::Threads;
use test_words::Fault;

/// Does each job on a thread of its own, by a pass of its own of a hub of the history, and hands the history and the jobs
/// back. The cache of each pass has so much room.
pub fn on_passes<
    H: Holding + Send,
    C: SiteDriver + Drop + Send,
    R: Threads + Wait + Sync,
    J: Job + Drop + Send,
>(
    rt: &R,
    alloc: Global,
    locked: Locked<H, C>,
    room: NonZeroUsize,
    jobs: Vec<J>,
) -> Result<(Locked<H, C>, Vec<J>), Fault>
where
    H::Keeper: Send,
    H::Secrets: Send,
    H::Spawner: Send,
    C::Law: Send,
    requires empty { locked.history ≡ [] }
    requires ready { All J.ready jobs.items }
{
    if jobs.len() > MOST_JOBS {
        return Err(Fault::Unreadable);
    }
    let Done {
        locked,
        jobs,
        outcome,
    } = do_at_once(rt, alloc, locked, room, &StillClock::new(0), jobs);
    outcome?;
    Ok((locked, jobs))
}
