//! The powerbox's vocabulary: tag values, descriptors and queries, and when a query matches offers.
#![tactic(auto)]

mod choices;
mod clone;
mod coded_value;
mod depth;
mod descriptor;
mod fault;
mod limits;
mod matching;
mod reading;
mod sameness;
mod shape;
mod sorted;
mod value;

pub use choices::{Choice, Choices};
pub use descriptor::{Descriptor, Query, Tag};
pub use fault::ShapeFault;
pub use limits::{DESCRIPTOR_TAG_LIMIT, ENTRY_LIMIT, VALUE_DEPTH_LIMIT};
pub use matching::{count_matches, matches};
pub use shape::{descriptor_from, query_from};
pub use value::{Quality, TagValue};
