//! The value of a tag that a JSON value states.

ghost use Rattle.std.specs.Prelude.{◌≡◌, ◌≢◌, ◌≤◌, Some, None, IsTrue, IfOk, IfErr};
ghost use Rattle.serde_json.specs.Data.{Data};
ghost use Rattle.serde_json.specs.View.{view, items_view, members_view};
ghost use Rattle.powerbox_match.specs.Value.{TagData, is_tidy, tag_data, fields_data, items_data};
ghost use Rattle.powerbox_match.specs.Shape.{json_nesting, json_items_nesting, json_members_nesting, text_of, value_of};

use crate::fault::ShapeFault;
use crate::limits::ENTRY_LIMIT;
use crate::value::TagValue;
use plain_data::Name;
use serde_json::{Map, Value};
use std::alloc::{AllocError, Global};

// A value that states none is a fault of `tags`.
const BAD_TAG: ShapeFault = ShapeFault::BadShape(1);

#[cycle(reading)]
pub(crate) fn value_from(alloc: Global, value: &Value) -> Result<TagValue, ShapeFault>
    requires { json_nesting (view value.now) ≤ 16 }
    ensures ok { IfOk result (λ t. value_of (view value.now) ≡ Some (tag_data t)) }
    ensures tidy { IfOk result (λ t. IsTrue (is_tidy (tag_data t))) }
    ensures fault { IfErr result (λ e. e ≢ ShapeFault.Memory
        → (e ≡ ShapeFault.BadShape 1) × (value_of (view value.now) ≡ None)) }
{
    match value {
        Value::Null => Ok(TagValue::Any),
        Value::Bool(_) => Err(BAD_TAG),
        Value::Number(number) => match number.as_i128() {
            Some(whole) => Ok(TagValue::Number(whole)),
            None => Err(BAD_TAG),
        },
        Value::String(text) => match text_from(alloc, text.as_str())? {
            Some(text) => Ok(TagValue::Text(text)),
            None => Err(BAD_TAG),
        },
        Value::Array(items) => Ok(TagValue::Items(items_from(alloc, items)?)),
        Value::Object(members) => Ok(TagValue::Fields(fields_from(alloc, members)?)),
    }
}

#[cycle(reading)]
fn items_from(alloc: Global, items: &[Value]) -> Result<Vec<TagValue>, ShapeFault>
    requires { json_items_nesting (items_view items.now) ≤ 16 }
    ensures ok { IfOk result (λ v. value_of (Data.array (items_view items.now))
        ≡ Some (TagData.items (items_data v.items))) }
    ensures tidy { IfOk result (λ v. IsTrue (is_tidy (TagData.items (items_data v.items)))) }
    ensures fault { IfErr result (λ e. e ≢ ShapeFault.Memory
        → (e ≡ ShapeFault.BadShape 1) × (value_of (Data.array (items_view items.now)) ≡ None)) }
{
    if items.len() > ENTRY_LIMIT {
        return Err(BAD_TAG);
    }
    let mut values = Vec::new(alloc);
    for item in items {
        values.push(value_from(alloc, item)?)?;
    }
    Ok(values)
}

#[cycle(reading)]
fn fields_from(
    alloc: Global,
    members: &Map<String, Value>,
) -> Result<Vec<(Name, TagValue)>, ShapeFault>
    requires { json_members_nesting (members_view members.now.entries) ≤ 16 }
    ensures ok { IfOk result (λ v. value_of (Data.object (members_view members.now.entries))
        ≡ Some (TagData.fields (fields_data v.items))) }
    ensures tidy { IfOk result (λ v. IsTrue (is_tidy (TagData.fields (fields_data v.items)))) }
    ensures fault { IfErr result (λ e. e ≢ ShapeFault.Memory
        → (e ≡ ShapeFault.BadShape 1)
        × (value_of (Data.object (members_view members.now.entries)) ≡ None)) }
{
    if members.len() > ENTRY_LIMIT {
        return Err(BAD_TAG);
    }
    let mut fields = Vec::new(alloc);
    for (name, member) in members.iter() {
        let Some(name) = text_from(alloc, name.as_str())? else {
            return Err(BAD_TAG);
        };
        fields.push((name, value_from(alloc, member)?))?;
    }
    Ok(fields)
}

fn text_from(alloc: Global, text: &str) -> Result<Option<Name>, AllocError>
    ensures { IfOk result (λ found. found ≡ text_of text.now) }
{
    match Name::from_str(alloc, text)? {
        Some(name) => {
            let _form = name.as_str();
            Ok(Some(name))
        }
        None => Ok(None),
    }
}
