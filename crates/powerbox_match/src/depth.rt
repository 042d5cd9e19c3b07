//! How deep a JSON value nests.

ghost use Rattle.std.specs.Prelude.{◌≡◌, nat_le};
ghost use Rattle.serde_json.specs.View.{view, items_view, members_view};
ghost use Rattle.powerbox_match.specs.Shape.{json_nesting, json_items_nesting, json_members_nesting, tag_nesting, deepest_value};

use serde_json::{Map, Value};

// Goes no deeper than `most`.
#[cycle(depth)]
fn nests_within(value: &Value, most: usize) -> bool
    ensures { result ≡ nat_le (json_nesting (view value.now)) most }
{
    if most == 0 {
        return false;
    }
    match value {
        Value::Null => true,
        Value::Bool(_) => true,
        Value::Number(_) => true,
        Value::String(_) => true,
        Value::Array(items) => items_nest_within(items, most - 1),
        Value::Object(members) => members_nest_within(members, most - 1),
    }
}

#[cycle(depth)]
fn items_nest_within(items: &[Value], most: usize) -> bool
    ensures { result ≡ nat_le (json_items_nesting (items_view items.now)) most }
{
    for item in items {
        if !nests_within(item, most) {
            return false;
        }
    }
    true
}

#[cycle(depth)]
fn members_nest_within(members: &Map<String, Value>, most: usize) -> bool
    ensures { result ≡ nat_le (json_members_nesting (members_view members.now.entries)) most }
{
    for (_, member) in members.iter() {
        if !nests_within(member, most) {
            return false;
        }
    }
    true
}

fn value_nests_within(tag: &Value, most: usize) -> bool
    ensures { result ≡ nat_le (tag_nesting (view tag.now)) most }
{
    match tag.get("value") {
        Some(value) => nests_within(value, most),
        None => true,
    }
}

// Whether no tag's value nests deeper than `most`.
pub(crate) fn values_nest_within(tags: &[Value], most: usize) -> bool
    ensures { result ≡ nat_le (deepest_value (items_view tags.now)) most }
{
    for tag in tags {
        if !value_nests_within(tag, most) {
            return false;
        }
    }
    true
}
