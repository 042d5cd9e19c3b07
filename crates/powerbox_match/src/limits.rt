//! The limits of tags and descriptors, and whether a value is within those of a tag.

ghost use Rattle.std.specs.Prelude.{◌≡◌, ◌&&◌, nat_le};
ghost use Rattle.powerbox_match.specs.Steps.{is_below_next};
ghost use Rattle.powerbox_match.specs.Value.{nesting, fields_nesting, items_nesting, field_count, item_count, is_ascending, is_tidy, are_fields_tidy, are_items_tidy, is_within_limits, tag_data, fields_data, items_data};

use crate::value::TagValue;
use plain_data::Name;

/// The most tags that a descriptor has.
pub const DESCRIPTOR_TAG_LIMIT: usize = 32;

/// How deep a tag's value nests at most.
pub const VALUE_DEPTH_LIMIT: usize = 16;

/// The most entries of a list in a tag's value.
pub const ENTRY_LIMIT: usize = 1000;

impl TagValue {
    /// Whether the value is within the limits of a tag: it nests at most 16 deep, each list in it
    /// has at most 1,000 entries, and the names of fields ascend by their bytes.
    pub fn is_within_limits(&self) -> bool
        ensures { result ≡ is_within_limits (tag_data self.now) }
    {
        is_within(self, VALUE_DEPTH_LIMIT)
    }
}

#[cycle(limits)]
fn is_within(value: &TagValue, most: usize) -> bool
    ensures { result ≡ (nat_le (nesting (tag_data value.now)) most && is_tidy (tag_data value.now)) }
{
    if most == 0 {
        return false;
    }
    match value {
        TagValue::Any => true,
        TagValue::Number(_) => true,
        TagValue::Text(_) => true,
        TagValue::Fields(fields) => {
            are_few_and_ascend(fields) && are_fields_within(fields, most - 1)
        }
        TagValue::Items(items) => are_few(items) && are_items_within(items, most - 1),
    }
}

#[cycle(limits)]
fn are_items_within(items: &[TagValue], most: usize) -> bool
    ensures { result
        ≡ (nat_le (items_nesting (items_data items.now)) most && are_items_tidy (items_data items.now)) }
{
    for item in items {
        if !is_within(item, most) {
            return false;
        }
    }
    true
}

#[cycle(limits)]
fn are_fields_within(fields: &[(Name, TagValue)], most: usize) -> bool
    ensures { result
        ≡ (nat_le (fields_nesting (fields_data fields.now)) most && are_fields_tidy (fields_data fields.now)) }
{
    for field in fields {
        if !is_within(&field.1, most) {
            return false;
        }
    }
    true
}

fn are_few(items: &[TagValue]) -> bool
    ensures { result ≡ nat_le (item_count (items_data items.now)) 1000 }
{
    items.len() <= ENTRY_LIMIT
}

fn are_few_and_ascend(fields: &[(Name, TagValue)]) -> bool
    ensures { result
        ≡ (nat_le (field_count (fields_data fields.now)) 1000 && is_ascending (fields_data fields.now)) }
{
    fields.len() <= ENTRY_LIMIT && ascend(fields)
}

// Whether the names ascend: each is below the next one.
fn ascend(fields: &[(Name, TagValue)]) -> bool
    ensures { result ≡ is_ascending (fields_data fields.now) }
{
    for (place, field) in fields.iter().enumerate() {
        if !is_below_next(&field.0, &fields[place + 1..]) {
            return false;
        }
    }
    true
}

fn is_below_next(name: &Name, fields: &[(Name, TagValue)]) -> bool
    ensures { result ≡ is_below_next name.now fields.now }
{
    match fields.first() {
        Some(next) => name.as_str() < next.0.as_str(),
        None => true,
    }
}
