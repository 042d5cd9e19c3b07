//! Reads the program's words.
#![tactic(auto)]

mod command;
mod line;
mod number;

pub use line::{Line, Tunnels, line_of};
