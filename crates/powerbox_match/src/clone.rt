//! Copies of values, which stand for the same as what they are copies of.

ghost use Rattle.std.specs.Prelude.{◌≡◌, IfOk};
ghost use Rattle.powerbox_match.specs.Value.{tag_data, fields_data, items_data};

use crate::value::TagValue;
use plain_data::Name;
use std::alloc::AllocError;

impl Clone for TagValue {
    ghost is_clone = { λ value copy. tag_data copy ≡ tag_data value };

    fn clone(&self) -> Result<TagValue, AllocError> {
        copy(self)
    }
}

#[cycle(copy)]
fn copy(value: &TagValue) -> Result<TagValue, AllocError>
    ensures { IfOk result (λ copied. tag_data copied ≡ tag_data value.now) }
{
    match value {
        TagValue::Any => Ok(TagValue::Any),
        TagValue::Number(number) => Ok(TagValue::Number(*number)),
        TagValue::Text(text) => Ok(TagValue::Text(text.clone()?)),
        TagValue::Fields(fields) => Ok(TagValue::Fields(copy_fields(fields)?)),
        TagValue::Items(items) => Ok(TagValue::Items(copy_items(items)?)),
    }
}

#[cycle(copy)]
fn copy_items(items: &Vec<TagValue>) -> Result<Vec<TagValue>, AllocError>
    ensures { IfOk result (λ copies. items_data copies.items ≡ items_data items.now.items) }
{
    let mut copies = Vec::with_capacity(*items.allocator(), items.len())?;
    for item in items {
        copies.push(copy(item)?)?;
    }
    Ok(copies)
}

#[cycle(copy)]
fn copy_fields(fields: &Vec<(Name, TagValue)>) -> Result<Vec<(Name, TagValue)>, AllocError>
    ensures { IfOk result (λ copies. fields_data copies.items ≡ fields_data fields.now.items) }
{
    let mut copies = Vec::with_capacity(*fields.allocator(), fields.len())?;
    for field in fields {
        let name = field.0.clone()?;
        copies.push((name, copy(&field.1)?))?;
    }
    Ok(copies)
}
