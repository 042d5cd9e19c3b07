//! The descriptor and the query that a JSON value states.

ghost use Rattle.std.specs.Prelude.{◌≡◌, ◌≢◌, ◌≤◌, codes, length, Some, None, Ok, Err, IsTrue, IfOk, IfErr, option_map};
ghost use Rattle.std.specs.Option.{option_map_or, ok_or};
ghost use Rattle.serde_json.specs.Find.{get, as_array};
ghost use Rattle.serde_json.specs.View.{view, items_view};
ghost use Rattle.powerbox_match.specs.Value.{tag_data, is_tidy};
ghost use Rattle.powerbox_match.specs.Shape.{json_nesting, tag_nesting, value_or_any, tag_of, tag_list, tags_or_fault, quality_named, quality_or_fault, descriptor_of, query_of};

use crate::depth::values_nest_within;
use crate::descriptor::{Descriptor, Query, Tag};
use crate::fault::ShapeFault;
use crate::limits::{DESCRIPTOR_TAG_LIMIT, VALUE_DEPTH_LIMIT};
use crate::reading::value_from;
use crate::value::{Quality, TagValue};
use plain_data::List;
use serde_json::Value;
use std::alloc::Global;

// The numbers of the fields, as faults name them.
const BAD_QUERY: ShapeFault = ShapeFault::BadShape(0);

const BAD_TAGS: ShapeFault = ShapeFault::BadShape(1);

const BAD_QUALITY: ShapeFault = ShapeFault::BadShape(2);

/// The query that a JSON value states.
///
/// A fault is that of the first descriptor that has one, or `BadShape(0)` for a value that is no
/// list. Want of memory may come in place of any answer.
pub fn query_from(alloc: Global, value: &Value) -> Result<Query, ShapeFault>
    ensures ok { IfOk result (λ query. query_of (view value.now) ≡ Ok query) }
    ensures fault { IfErr result (λ fault. fault ≢ ShapeFault.Memory
        → query_of (view value.now) ≡ Err fault) }
{
    let Some(items) = value.as_array() else {
        return Err(BAD_QUERY);
    };
    let mut descriptors = Vec::new(alloc);
    for item in items {
        descriptors.push(descriptor_from(alloc, item)?)?;
    }
    Ok(List::new(descriptors))
}

/// The descriptor that a JSON value states.
///
/// Its fault is `TooDeep` where a tag's value nests deeper than 16, else `TooManyTags` where there
/// are more than 32 tags, else `BadShape` of the first field that isn't as it should be. Want of
/// memory may come in place of any answer.
pub fn descriptor_from(alloc: Global, value: &Value) -> Result<Descriptor, ShapeFault>
    ensures ok { IfOk result
        (λ descriptor. descriptor_of (view value.now) ≡ Ok descriptor) }
    ensures fault { IfErr result (λ fault. fault ≢ ShapeFault.Memory
        → descriptor_of (view value.now) ≡ Err fault) }
{
    let tags = tags_from(alloc, value)?;
    let quality = quality_from(value)?;
    Ok(Descriptor::new(tags, quality))
}

fn tags_from(alloc: Global, value: &Value) -> Result<Vec<Tag>, ShapeFault>
    ensures ok { IfOk result
        (λ tags. tags_or_fault (tag_list (view value.now)) ≡ Ok tags.items) }
    ensures few { IfOk result (λ tags. length tags.items ≤ 32) }
    ensures fault { IfErr result (λ fault. fault ≢ ShapeFault.Memory
        → tags_or_fault (tag_list (view value.now)) ≡ Err fault) }
{
    let Some(items) = tag_list(value) else {
        return Err(BAD_TAGS);
    };
    if !values_nest_within(items, VALUE_DEPTH_LIMIT) {
        return Err(ShapeFault::TooDeep);
    }
    if items.len() > DESCRIPTOR_TAG_LIMIT {
        return Err(ShapeFault::TooManyTags);
    }
    let mut tags = Vec::new(alloc);
    for item in items {
        tags.push(tag_from(alloc, item)?)?;
    }
    Ok(tags)
}

fn tag_list(value: &Value) -> Option<&Vec<Value>>
    ensures { option_map (λ v. items_view v.now.items) result ≡ tag_list (view value.now) }
{
    value.get("tags")?.as_array()
}

fn tag_from(alloc: Global, item: &Value) -> Result<Tag, ShapeFault>
    requires { tag_nesting (view item.now) ≤ 16 }
    ensures ok { IfOk result (λ tag. tag_of (view item.now) ≡ Some tag) }
    ensures fault { IfErr result (λ fault. fault ≢ ShapeFault.Memory
        → (fault ≡ ShapeFault.BadShape 1) × (tag_of (view item.now) ≡ None)) }
{
    let Some(id) = item.get("id").and_then(Value::as_u64) else {
        return Err(BAD_TAGS);
    };
    let value = stated_or_any(alloc, item.get("value"))?;
    Ok(Tag::new(id, value)?)
}

fn stated_or_any(alloc: Global, value: Option<&Value>) -> Result<TagValue, ShapeFault>
    requires { option_map_or json_nesting (option_map (λ d. view d.now) value) 0 ≤ 16 }
    ensures ok { IfOk result
        (λ v. value_or_any (option_map (λ d. view d.now) value.entry) ≡ Some (tag_data v)) }
    ensures tidy { IfOk result (λ v. IsTrue (is_tidy (tag_data v))) }
    ensures fault { IfErr result (λ fault. fault ≢ ShapeFault.Memory
        → (fault ≡ ShapeFault.BadShape 1)
        × (value_or_any (option_map (λ d. view d.now) value.entry) ≡ None)) }
{
    match value {
        Some(value) => value_from(alloc, value),
        None => Ok(TagValue::Any),
    }
}

fn quality_from(value: &Value) -> Result<Quality, ShapeFault>
    ensures { result ≡ quality_or_fault (get (codes "quality") (view value.now)) }
{
    match value.get("quality") {
        Some(quality) => quality.as_str().and_then(quality_named).ok_or(BAD_QUALITY),
        None => Ok(Quality::Acceptable),
    }
}

fn quality_named(name: &str) -> Option<Quality>
    ensures { result ≡ quality_named name.now }
{
    match name {
        "acceptable" => Some(Quality::Acceptable),
        "preferred" => Some(Quality::Preferred),
        "unacceptable" => Some(Quality::Unacceptable),
        _ => None,
    }
}
