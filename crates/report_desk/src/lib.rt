//! The desk of the report: who may ask who has access, why, and what a revocation would take, and the answers in the
//! words that people know.
#![tactic(auto)]

mod asking;
mod holder;
mod lines;
mod naming;
mod passing;
mod reasons;
mod step;

pub use asking::{access, preview, why};
pub use holder::{Holder, ReportLine, ReportLines};
pub use lines::{access_lines, loss_lines};
pub use passing::{GivenAs, GivenBy, Passing, passing_of};
pub use step::{Reason, ReasonStep, Reasons};
