//! A desk that lets its clock go on before it answers.
#![tactic(auto)]

mod tick_desk;

pub use tick_desk::{LastTick, TickDesk};
