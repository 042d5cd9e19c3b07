//! The account that a keeper without rows begins with.
#![tactic(auto)]

mod admin;
mod beginning;
mod fault;
mod token;

pub use beginning::first_account;
pub use fault::FirstFault;
