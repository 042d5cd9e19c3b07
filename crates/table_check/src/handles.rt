ghost use Rattle.std.specs.Prelude.{◌≡◌, ◌+◌, ◌==◌, ◌↔◌, IsTrue, count_by, take};
ghost use Rattle.share_graph.specs.WellFormed.{AreNumberedByRun};

use crate::places::rows_before;
use host_base::RunId;
use share_graph::Handle;

// How many handles are of a run.
fn count_of(handles: &[Handle], run: RunId) -> usize
    ensures { result ≡ count_by (λ other. other.run.0 == run.0) handles.now }
{
    handles.iter().filter(|other| other.run.0 == run.0).count()
}

// Whether the handle at a place carries the number of that place among those of its run.
fn is_numbered_at(handles: &[Handle], place: usize, handle: &Handle) -> bool
    ensures { IsTrue result ↔ (handle.now.num
        ≡ count_by (λ other. other.run.0 == handle.now.run.0) (take place handles.now) + 1) }
{
    handle.num != 0 && handle.num as usize - 1 == count_of(rows_before(handles, place), handle.run)
}

/// Whether each handle carries the number of its place among those of its run.
pub(crate) fn are_numbered_by_run(handles: &[Handle]) -> bool
    ensures { IsTrue result ↔ AreNumberedByRun handles.now }
{
    for (place, handle) in handles.iter().enumerate() {
        if !is_numbered_at(handles, place, handle) {
            return false;
        }
    }
    true
}
