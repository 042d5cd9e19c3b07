//! The values of tags, and qualities.

use plain_data::Name;

/// What a tag says beside its id.
#[derive(Drop)]
pub enum TagValue {
    /// Anything.
    Any,
    Number(i128),
    Text(Name),
    /// Fields by their names, which ascend by their bytes in a `Tag`.
    Fields(Vec<(Name, TagValue)>),
    Items(Vec<TagValue>),
}

/// How well a match suits.
#[derive(Clone, Copy, PartialEq, Eq, Debug)]
pub enum Quality {
    Acceptable,
    Preferred,
    Unacceptable,
}
