//! Secrets, and the texts by which they are handed out.
#![tactic(auto)]

mod secret;

pub use secret::{Secret, key_text, token_text};
