//! What the crates of tests share: how bytes and numbers are written in a text, rows with what they must give, and how
//! what goes otherwise is told. The notation is described beside the texts, in `test_player/data/NOTATION.md`.
#![tactic(auto)]

mod fault;
mod notation;
mod rows;
mod tally;

pub use fault::Fault;
pub use notation::{
    byte, bytes_of, digits_of, number, numbers, put_line, put_text, size, small, words,
};
pub use rows::{Answers, after, play_rows, says_nothing};
pub use tally::{Tally, tell};
