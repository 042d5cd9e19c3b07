//! The texts of the report: the lines that the program prints, and the answers as JSON.
#![tactic(auto)]

mod data;
mod lines;
mod pages;
mod reply;
mod words;

pub use lines::{access_text, preview_text, shared_text};
pub use reply::{access_reply, missing_reply, page_reply, preview_reply, shared_reply, why_reply};
