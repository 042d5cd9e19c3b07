//! The form in which a value is compared, in which each list of items stands in order.

ghost use Rattle.std.specs.Prelude.{◌≡◌, IfOk, IsTrue};
ghost use Rattle.std.specs.List.Sorted.{IsPermutation};
ghost use Rattle.powerbox_match.specs.Value.{is_tidy, are_fields_tidy, are_items_tidy, tag_data, fields_data, items_data};
ghost use Rattle.powerbox_match.specs.Sorted.{item_rank, atom_cmp, item_cmp, is_in_order, IsSortedForm};
ghost use Rattle.powerbox_match.specs.Steps.{AreForms, AreFieldForms};

use crate::value::TagValue;
use plain_data::Name;
use std::alloc::AllocError;
use std::cmp::Ordering;

#[cycle(sorting)]
pub(crate) fn sorted_form(value: &TagValue) -> Result<TagValue, AllocError>
    requires { IsTrue (is_tidy (tag_data value.now)) }
    ensures { IfOk result (λ form. IsSortedForm (tag_data form) (tag_data value.now)) }
{
    match value {
        TagValue::Any => Ok(TagValue::Any),
        TagValue::Number(number) => Ok(TagValue::Number(*number)),
        TagValue::Text(text) => Ok(TagValue::Text(text.clone()?)),
        TagValue::Fields(fields) => Ok(TagValue::Fields(forms_of_fields(fields)?)),
        TagValue::Items(items) => Ok(TagValue::Items(in_order(forms_of_items(items)?)?)),
    }
}

#[cycle(sorting)]
fn forms_of_items(items: &Vec<TagValue>) -> Result<Vec<TagValue>, AllocError>
    requires { IsTrue (are_items_tidy (items_data items.now.items)) }
    ensures { IfOk result (λ forms. AreForms forms.items items.now.items) }
{
    let mut forms = Vec::with_capacity(*items.allocator(), items.len())?;
    for item in items {
        forms.push(sorted_form(item)?)?;
    }
    Ok(forms)
}

#[cycle(sorting)]
fn forms_of_fields(fields: &Vec<(Name, TagValue)>) -> Result<Vec<(Name, TagValue)>, AllocError>
    requires { IsTrue (are_fields_tidy (fields_data fields.now.items)) }
    ensures { IfOk result (λ forms. AreFieldForms forms.items fields.now.items) }
{
    let mut forms = Vec::with_capacity(*fields.allocator(), fields.len())?;
    for field in fields {
        let name = field.0.clone()?;
        forms.push((name, sorted_form(&field.1)?))?;
    }
    Ok(forms)
}

// The items in order.
fn in_order(mut items: Vec<TagValue>) -> Result<Vec<TagValue>, AllocError>
    ensures same { IfOk result (λ sorted. IsPermutation items.items sorted.items) }
    ensures order { IfOk result (λ sorted. IsTrue (is_in_order (items_data sorted.items))) }
{
    items.sort_by(item_order)?;
    Ok(items)
}

// How two items stand in a list that is in order.
pub(crate) fn item_order(one: &TagValue, other: &TagValue) -> Ordering
    ensures { result ≡ item_cmp (tag_data one.now) (tag_data other.now) }
{
    match item_rank(one).cmp(&item_rank(other)) {
        Ordering::Equal => atom_order(one, other),
        order => order,
    }
}

fn item_rank(item: &TagValue) -> u8
    ensures { result ≡ item_rank (tag_data item.now) }
{
    match item {
        TagValue::Any => 0,
        TagValue::Number(_) => 1,
        TagValue::Text(_) => 2,
        TagValue::Fields(_) => 3,
        TagValue::Items(_) => 3,
    }
}

fn atom_order(one: &TagValue, other: &TagValue) -> Ordering
    ensures { result ≡ atom_cmp (tag_data one.now) (tag_data other.now) }
{
    match (one, other) {
        (TagValue::Number(number), TagValue::Number(next)) => number.cmp(next),
        (TagValue::Text(text), TagValue::Text(next)) => text.as_str().cmp(next.as_str()),
        _ => Ordering::Equal,
    }
}
