ghost use Rattle.std.specs.Prelude.{◌≡◌, ◌↔◌, ℕ, IsTrue, All, Some, slice_get, take};
ghost use Rattle.share_graph.specs.declared.sessions.Run.{Run};
ghost use Rattle.share_graph.specs.Keys.{IsLiveRun};
ghost use Rattle.share_graph.specs.WellFormed.{HaveOneLiveRun};
ghost use Rattle.table_check.specs.Live.{IsFirstLive};

use crate::places::rows_before;
use host_base::GrainId;
use share_graph::Run;

fn is_live_run(run: &Run, num: GrainId) -> bool
    ensures { IsTrue result ↔ IsLiveRun num run.now }
{
    run.grain == num && !run.stopped
}

fn is_no_live_run(run: &Run, num: GrainId) -> bool
    ensures { IsTrue result ↔ (IsLiveRun num run.now → ⊥) }
{
    !is_live_run(run, num)
}

fn has_no_live_run(runs: &[Run], num: GrainId) -> bool
    ensures { IsTrue result ↔ All (λ run. IsLiveRun num run → ⊥) runs.now }
{
    runs.iter().all(|run| is_no_live_run(run, num))
}

// Whether the run at a place is stopped, or the first live one of its grain.
fn is_first_live(runs: &[Run], place: usize, run: &Run) -> bool
    ensures { IsTrue result ↔ IsFirstLive (take place runs.now) run.now.grain run.now.stopped }
{
    run.stopped || has_no_live_run(rows_before(runs, place), run.grain)
}

// Whether each run is stopped, or the first live one of its grain.
fn are_first_live(runs: &[Run]) -> bool
    ensures { IsTrue result ↔ ((k : ℕ) (run : Run) → slice_get runs.now k ≡ Some run
        → IsFirstLive (take k runs.now) run.grain run.stopped) }
{
    for (place, run) in runs.iter().enumerate() {
        if !is_first_live(runs, place, run) {
            return false;
        }
    }
    true
}

/// Whether a grain has one live run at the most.
pub(crate) fn have_one_live_run(runs: &[Run]) -> bool
    ensures { IsTrue result ↔ HaveOneLiveRun runs.now }
{
    are_first_live(runs)
}
