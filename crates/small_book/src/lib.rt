//! The small book: the state that a server without a keeper begins with, to be tried and tested.
#![tactic(auto)]

mod accounts;
mod apps;
mod book;
mod grains;
mod live;

pub use book::small_book;
