//! What tells the moment; the form that stands still, and the form that goes along a list.
#![tactic(auto)]

mod clock;
mod list_clock;
mod moments;
mod still_clock;

pub use clock::Clock;
pub use list_clock::ListClock;
pub use moments::Moments;
pub use still_clock::StillClock;
