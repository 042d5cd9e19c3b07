//! Exact tests of tables and of states: the first fault of tables, their limits, and whether a state is well-formed.
#![tactic(auto)]

mod apart;
mod checking;
mod faults;
mod fitting;
mod fresh;
mod handles;
mod knowing;
mod limits;
mod live;
mod numbering;
mod parents;
mod places;
mod rooting;
mod well_formed;

pub use checking::check_tables;
pub use fitting::manifest_fits;
pub use fresh::is_handle_name;
pub use limits::is_within_limits;
pub use well_formed::is_well_formed;
