//! The program's lines over the system: its input and output, files, ports and processes.
#![tactic(auto)]

mod lines;
mod plan;
mod running;
mod serving;

pub use lines::status_of;
pub use plan::{Aside, Plan, Tie, plan_of, status_at_end};
pub use serving::Post;

/// The status where memory runs out.
pub const NO_MEMORY: u8 = 7;
