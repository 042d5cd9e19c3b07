ghost use Rattle.std.specs.Prelude.{◌↔◌, IsTrue};
ghost use Rattle.share_graph.specs.Checked.{IsChecked};
ghost use Rattle.share_graph.specs.WellFormed.{IsWellFormed};

use crate::apart::has_digests_apart;
use crate::checking::check_tables;
use crate::limits::is_within_limits;
use crate::live::have_one_live_run;
use crate::numbering::is_numbered;
use crate::rooting::is_rooted;
use share_graph::{State, Tables};

fn has_no_fault(tables: &Tables) -> bool
    ensures { IsTrue result ↔ IsChecked tables.now }
{
    match check_tables(tables) {
        Ok(()) => true,
        Err(_) => false,
    }
}

/// Whether a state is well-formed: its tables without a fault and within their limits, its rows numbered, each digest one row's, one
/// live run of a grain at the most, and sessions, runs and handles of what is there.
pub fn is_well_formed(state: &State) -> bool
    ensures { IsTrue result ↔ IsWellFormed state.now }
{
    if !is_within_limits(&state.tables) {
        return false;
    }
    if !is_numbered(state) {
        return false;
    }
    if !has_no_fault(&state.tables) {
        return false;
    }
    if !has_digests_apart(state) {
        return false;
    }
    if !have_one_live_run(state.runs.as_slice()) {
        return false;
    }
    is_rooted(state)
}
