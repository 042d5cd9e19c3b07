//! Jobs that threads do at once on one history, each by a desk of its own.
#![tactic(auto)]

mod at_once;
mod doing;
mod staff;
mod worker;

pub use doing::{Done, MOST_JOBS, do_at_once};
pub use worker::Job;
