//! What a solution of the rules of sharing answers: who holds what, and the first step that is missing.
#![tactic(auto)]

mod entering;
mod held;
mod missing;
pub mod needs;
pub mod passing;
mod solving;
pub mod table;

pub use held::Held;
pub use solving::{Solved, owned};
