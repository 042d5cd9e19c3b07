//! The desk of runs and sessions: what becomes of a command on them.
#![tactic(auto)]

mod callers;
mod runs;
mod sessions;

pub use callers::Actor;
pub use runs::{start_run, stop_run};
pub use sessions::{close_session, open_session};
