//! The desk's page: constant bytes, with the policy by which a browser lets it have its own script and style, and nothing else.
#![tactic(auto)]

mod markup;
mod reply;
mod script;

pub use reply::desk_page_reply;
