//! What the program does with its words, its input and its output.
#![tactic(auto)]

mod beginning;
mod collecting;
mod connection;
mod judging;
mod keeping;
mod lines;
mod making;
mod playing;
mod program;
mod reporting;
mod serving;
mod statuses;
mod telling;
mod world;

pub use connection::small_desk;
pub use keeping::book_keeper;
pub use program::run;
pub use reporting::Subject;
pub use telling::USAGE;
pub use world::{LinkOf, Of, Ran, Setting, World, world_of};
