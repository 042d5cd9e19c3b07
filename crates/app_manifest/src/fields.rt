//! What the fields of a JSON object state: texts, flags and numbers.

ghost use Rattle.std.specs.Prelude.{◌≡◌, [], IfOk, option_map, option_and_then};
ghost use Rattle.serde_json.specs.View.{view, items_view};
ghost use Rattle.serde_json.specs.Find.{as_array, as_str};
ghost use Rattle.app_manifest.specs.Text.{text_with, is_permission_name};
ghost use Rattle.app_manifest.specs.Fields.{title_of, stated_or_empty, text_or_empty, flag_or_false, flags_of};
ghost use Rattle.app_manifest.specs.Draft.{version_of};

use crate::forms::{is_permission_name, is_title};
use plain_data::{Name, is_plain};
use serde_json::Value;
use std::alloc::{AllocError, Global};

/// The title that a field states, or none where it is missing, no text or not of the form.
pub fn title_from(alloc: Global, value: Option<&Value>) -> Result<Option<Name>, AllocError>
    ensures { IfOk result (λ found. found ≡ title_of (option_map (λ v. view v.now) value.entry)) }
{
    match value.and_then(Value::as_str) {
        Some(text) if is_title(text) => Ok(Some(Name::from_plain(alloc, text)?)),
        _ => Ok(None),
    }
}

/// The text that a field states, which is empty where the field is missing, or none where it is no
/// text or hasn't the form of a name.
pub fn text_from(alloc: Global, value: Option<&Value>) -> Result<Option<Name>, AllocError>
    ensures { IfOk result (λ found. found ≡ text_or_empty (option_map (λ v. view v.now) value.entry)) }
{
    match stated_or_empty(value) {
        Some(text) if is_plain(text) => Ok(Some(Name::from_plain(alloc, text)?)),
        _ => Ok(None),
    }
}

fn stated_or_empty(value: Option<&Value>) -> Option<&str>
    ensures { option_map (λ s. s.now) result
        ≡ stated_or_empty (option_map (λ v. view v.now) value.entry) }
{
    match value {
        Some(value) => value.as_str(),
        None => Some(""),
    }
}

pub(crate) fn permission_name_from(
    alloc: Global,
    value: Option<&Value>,
) -> Result<Option<Name>, AllocError>
    ensures { IfOk result (λ found. found
        ≡ text_with is_permission_name (option_and_then as_str (option_map (λ v. view v.now) value.entry))) }
{
    match value.and_then(Value::as_str) {
        Some(text) if is_permission_name(text) => Ok(Some(Name::from_plain(alloc, text)?)),
        _ => Ok(None),
    }
}

/// The boolean that a field states, which is false where the field is missing, or none where it is
/// no boolean.
pub fn flag_from(value: Option<&Value>) -> Option<bool>
    ensures { result ≡ flag_or_false (option_map (λ v. view v.now) value.entry) }
{
    match value {
        Some(value) => value.as_bool(),
        None => Some(false),
    }
}

/// The list of booleans that a field states, or none where it is missing or no list of booleans.
pub fn flags_from(alloc: Global, value: Option<&Value>) -> Result<Option<Vec<bool>>, AllocError>
    ensures { IfOk result (λ found. option_map (λ list. list.items) found
        ≡ flags_of (option_map (λ v. view v.now) value.entry)) }
{
    let Some(items) = items_of(value) else {
        return Ok(None);
    };
    let mut flags = Vec::new(alloc);
    for item in items {
        let Some(flag) = item.as_bool() else {
            return Ok(None);
        };
        flags.push(flag)?;
    }
    Ok(Some(flags))
}

// The values of a list, if there is one.
pub(crate) fn items_of(value: Option<&Value>) -> Option<&Vec<Value>>
    ensures { option_map (λ v. items_view v.now.items) result
        ≡ option_and_then as_array (option_map (λ v. view v.now) value.entry) }
{
    value?.as_array()
}

pub(crate) fn version_from(value: Option<&Value>) -> Option<u32>
    ensures { result ≡ version_of (option_map (λ v. view v.now) value.entry) }
{
    let number = value.and_then(Value::as_u64)?;
    u32::try_from(number).ok()
}
