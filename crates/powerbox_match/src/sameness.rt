//! Whether two values stand for the same.

ghost use Rattle.std.specs.Prelude.{◌≡◌, ◌↔◌, IsTrue};
ghost use Rattle.powerbox_match.specs.Value.{tag_data, fields_data, items_data};

use crate::value::TagValue;
use plain_data::Name;

#[cycle(same)]
pub(crate) fn is_same_value(value: &TagValue, other: &TagValue) -> bool
    ensures { IsTrue result ↔ (tag_data value.now ≡ tag_data other.now) }
{
    match (value, other) {
        (TagValue::Any, TagValue::Any) => true,
        (TagValue::Number(number), TagValue::Number(next)) => number == next,
        (TagValue::Text(text), TagValue::Text(next)) => text == next,
        (TagValue::Fields(fields), TagValue::Fields(others)) => are_same_fields(fields, others),
        (TagValue::Items(items), TagValue::Items(others)) => are_same_items(items, others),
        _ => false,
    }
}

#[cycle(same)]
fn are_same_items(values: &[TagValue], others: &[TagValue]) -> bool
    ensures { IsTrue result ↔ (items_data values.now ≡ items_data others.now) }
{
    if values.len() != others.len() {
        return false;
    }
    for (place, value) in values.iter().enumerate() {
        if !is_same_value(value, &others[place]) {
            return false;
        }
    }
    true
}

#[cycle(same)]
fn are_same_fields(values: &[(Name, TagValue)], others: &[(Name, TagValue)]) -> bool
    ensures { IsTrue result ↔ (fields_data values.now ≡ fields_data others.now) }
{
    if values.len() != others.len() {
        return false;
    }
    for (place, field) in values.iter().enumerate() {
        let other = &others[place];
        if field.0 != other.0 || !is_same_value(&field.1, &other.1) {
            return false;
        }
    }
    true
}
