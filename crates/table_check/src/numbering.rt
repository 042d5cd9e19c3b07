ghost use Rattle.std.specs.Prelude.{◌≡◌, ◌↔◌, IsTrue};
ghost use Rattle.share_graph.specs.WellFormed.{AreNumbered, IsNumbered};

use crate::handles::are_numbered_by_run;
use share_graph::{Account, App, Grain, Grant, Run, Saved, Session, State};

/// A row that carries a number.
pub(crate) trait Numbered {
    ghost use Rattle.std.specs.Prelude.{ℕ};

    ghost num_of: { Self → ℕ };

    /// The row's number.
    fn num(&self) -> u64
        ensures { result ≡ num_of self.now };
}

impl Numbered for Account {
    ghost num_of = { λ row. row.num.0 };

    fn num(&self) -> u64 {
        u64::from(self.num.0)
    }
}

impl Numbered for App {
    ghost num_of = { λ row. row.num.0 };

    fn num(&self) -> u64 {
        u64::from(self.num.0)
    }
}

impl Numbered for Grain {
    ghost num_of = { λ row. row.num.0 };

    fn num(&self) -> u64 {
        u64::from(self.num.0)
    }
}

impl Numbered for Grant {
    ghost num_of = { λ row. row.num.0 };

    fn num(&self) -> u64 {
        u64::from(self.num.0)
    }
}

impl Numbered for Saved {
    ghost num_of = { λ row. row.num.0 };

    fn num(&self) -> u64 {
        u64::from(self.num.0)
    }
}

impl Numbered for Session {
    ghost num_of = { λ row. row.num.0 };

    fn num(&self) -> u64 {
        u64::from(self.num.0)
    }
}

impl Numbered for Run {
    ghost num_of = { λ row. row.num.0 };

    fn num(&self) -> u64 {
        self.num.0
    }
}

// Whether each row carries the number of its place, from 1.
fn are_numbered<R: Numbered>(rows: &[R]) -> bool
    ensures { IsTrue result ↔ AreNumbered R.num_of rows.now }
{
    for (place, row) in rows.iter().enumerate() {
        if row.num() != place as u64 + 1 {
            return false;
        }
    }
    true
}

/// Whether each row of a state carries its number.
pub(crate) fn is_numbered(state: &State) -> bool
    ensures { IsTrue result ↔ IsNumbered state.now }
{
    if !are_numbered(state.tables.accounts.as_slice()) {
        return false;
    }
    if !are_numbered(state.tables.apps.as_slice()) {
        return false;
    }
    if !are_numbered(state.tables.grains.as_slice()) {
        return false;
    }
    if !are_numbered(state.tables.grants.as_slice()) {
        return false;
    }
    if !are_numbered(state.tables.saved.as_slice()) {
        return false;
    }
    if !are_numbered(state.sessions.as_slice()) {
        return false;
    }
    if !are_numbered(state.runs.as_slice()) {
        return false;
    }
    are_numbered_by_run(state.handles.as_slice())
}
