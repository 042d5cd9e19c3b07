//! When a query matches offers, and with which quality.

ghost use Rattle.std.specs.Prelude.{◌≡◌, ◌+◌, ◌*◌, ◌<◌, ◌≤◌, suc, IsTrue, length, option_map};
ghost use Rattle.std.specs.Ordering.{is_lt};
ghost use Rattle.powerbox_match.specs.Value.{TagData, is_ascending, tag_data, fields_data, items_data};
ghost use Rattle.powerbox_match.specs.Matching.{value_matches, fields_match, get_field, items_match, any_item, tag_matches, descriptor_matches, pair_quality, matches_with, some_match, match_of};
ghost use Rattle.powerbox_match.specs.Comparisons.{weight, lists, tags_weight, tags_lists, weight_of, lists_of, most_comparisons};
ghost use Rattle.powerbox_match.specs.Sorted.{item_cmp, is_in_order, is_sorted, are_fields_sorted, are_items_sorted};
ghost use Rattle.powerbox_match.specs.Steps.{fields_not_below, items_not_before, begins_with_any, begins_with_number, is_unacceptable, strongest, stronger, most_by, most_for_values, most_for_fields, most_for_items, most_among_items};

use crate::descriptor::{Descriptor, Query, Tag};
use crate::sorted::item_order;
use crate::value::{Quality, TagValue};
use plain_data::{Name, Steps};
use std::marker::Brand;
use std::sync::ledger::{Blank, Ledger};

#[cycle(matching)]
#[tactic(auto, using(crate::proofs::Counted::one_within))]
fn value_matches<L: Ledger>(wanted: &TagValue, given: &TagValue, steps: &mut Steps<L>) -> bool
    requires wanted_sorted { IsTrue (is_sorted (tag_data wanted.now)) }
    requires given_sorted { IsTrue (is_sorted (tag_data given.now)) }
    ensures answer { result ≡ value_matches (tag_data wanted.now) (tag_data given.now) }
    ensures counted { steps.new ≤ steps.old + most_for_values (tag_data wanted.now) (tag_data given.now) }
{
    steps.tick();
    match (wanted, given) {
        (TagValue::Any, _) => true,
        (_, TagValue::Any) => true,
        (TagValue::Number(number), TagValue::Number(other)) => number == other,
        (TagValue::Text(text), TagValue::Text(other)) => text.as_str() == other.as_str(),
        (TagValue::Fields(fields), TagValue::Fields(others)) => fields_match(fields, others, steps),
        (TagValue::Items(items), TagValue::Items(others)) => items_match(items, others, steps),
        _ => false,
    }
}

// Both lists ascend, so one walk over the two is enough.
#[cycle(matching)]
fn fields_match<L: Ledger>(
    wanted: &[(Name, TagValue)],
    given: &[(Name, TagValue)],
    steps: &mut Steps<L>,
) -> bool
    requires wanted_ascending { IsTrue (is_ascending (fields_data wanted.now)) }
    requires wanted_sorted { IsTrue (are_fields_sorted (fields_data wanted.now)) }
    requires given_ascending { IsTrue (is_ascending (fields_data given.now)) }
    requires given_sorted { IsTrue (are_fields_sorted (fields_data given.now)) }
    ensures answer { result ≡ fields_match (fields_data wanted.now) (fields_data given.now) }
    ensures counted { steps.new ≤ steps.old + 2 * length wanted.now + length given.now
        + most_for_fields (fields_data wanted.now) (fields_data given.now) }
{
    let mut rest = given;
    for field in wanted {
        rest = fields_not_below(&field.0, rest, steps);
        if let Some(other) = first_named(&field.0, rest)
            && !value_matches(&field.1, other, steps)
        {
            return false;
        }
    }
    true
}

// The fields without those in front whose names are below a name.
fn fields_not_below<'a, L: Ledger>(
    name: &Name,
    fields: &'a [(Name, TagValue)],
    steps: &mut Steps<L>,
) -> &'a [(Name, TagValue)]
    ensures rest { result.now ≡ fields_not_below name.now fields.now }
    ensures counted { steps.new + length result.now ≤ steps.old + length fields.now + 1 }
{
    for (place, (other, _)) in fields.iter().enumerate() {
        steps.tick();
        if other.as_str() >= name.as_str() {
            return &fields[place..];
        }
    }
    &[]
}

// The value of the field with a name, among fields that begin there.
fn first_named<'a>(name: &Name, fields: &'a [(Name, TagValue)]) -> Option<&'a TagValue>
    requires ascending { IsTrue (is_ascending (fields_data fields.now)) }
    requires from_there { fields_not_below name.now fields.now ≡ fields.now }
    ensures { option_map (λ v. tag_data v.now) result
        ≡ get_field name.now (fields_data fields.now) }
{
    let first = fields.first()?;
    if first.0.as_str() == name.as_str() {
        Some(&first.1)
    } else {
        None
    }
}

// Both lists stand in order, so one walk over the two is enough for numbers and texts.
#[cycle(matching)]
fn items_match<L: Ledger>(wanted: &[TagValue], given: &[TagValue], steps: &mut Steps<L>) -> bool
    requires wanted_in_order { IsTrue (is_in_order (items_data wanted.now)) }
    requires wanted_sorted { IsTrue (are_items_sorted (items_data wanted.now)) }
    requires given_in_order { IsTrue (is_in_order (items_data given.now)) }
    requires given_sorted { IsTrue (are_items_sorted (items_data given.now)) }
    ensures answer { result ≡ items_match (items_data wanted.now) (items_data given.now) }
    ensures counted { steps.new ≤ steps.old + 2 * length wanted.now + length given.now
        + most_for_items (items_data wanted.now) (items_data given.now) }
{
    if begins_with_any(given) {
        return true;
    }
    let mut rest = given;
    for item in wanted {
        rest = items_not_before(item, rest, steps);
        if !some_item_matches(item, rest, steps) {
            return false;
        }
    }
    true
}

// Anything stands before all else.
fn begins_with_any(items: &[TagValue]) -> bool
    ensures { result ≡ begins_with_any (items_data items.now) }
{
    match items.first() {
        Some(TagValue::Any) => true,
        _ => false,
    }
}

// The items without those in front that stand before a value.
fn items_not_before<'a, L: Ledger>(
    value: &TagValue,
    items: &'a [TagValue],
    steps: &mut Steps<L>,
) -> &'a [TagValue]
    ensures rest { result.now ≡ items_not_before (tag_data value.now) items.now }
    ensures counted { steps.new + length result.now ≤ steps.old + length items.now + 1 }
{
    match value {
        TagValue::Number(number) => items_from_number(number, items, steps),
        _ => items_from(value, items, steps),
    }
}

fn items_from<'a, L: Ledger>(
    value: &TagValue,
    items: &'a [TagValue],
    steps: &mut Steps<L>,
) -> &'a [TagValue]
    ensures rest { result.now ≡ items_not_before (tag_data value.now) items.now }
    ensures counted { steps.new + length result.now ≤ steps.old + length items.now + 1 }
{
    for (place, item) in items.iter().enumerate() {
        steps.tick();
        if !item_order(item, value).is_lt() {
            return &items[place..];
        }
    }
    &[]
}

fn items_from_number<'a, L: Ledger>(
    number: &i128,
    items: &'a [TagValue],
    steps: &mut Steps<L>,
) -> &'a [TagValue]
    ensures rest { result.now ≡ items_not_before (TagData.number number.now) items.now }
    ensures counted { steps.new + length result.now ≤ steps.old + length items.now + 1 }
{
    for (place, item) in items.iter().enumerate() {
        steps.tick();
        if !is_before_number(item, number) {
            return &items[place..];
        }
    }
    &[]
}

fn is_before_number(item: &TagValue, number: &i128) -> bool
    ensures { result ≡ is_lt (item_cmp (tag_data item.now) (TagData.number number.now)) }
{
    match item {
        TagValue::Any => true,
        TagValue::Number(other) => other < number,
        TagValue::Text(_) => false,
        TagValue::Fields(_) => false,
        TagValue::Items(_) => false,
    }
}

#[cycle(matching)]
fn some_item_matches<L: Ledger>(wanted: &TagValue, given: &[TagValue], steps: &mut Steps<L>) -> bool
    requires wanted_sorted { IsTrue (is_sorted (tag_data wanted.now)) }
    requires given_in_order { IsTrue (is_in_order (items_data given.now)) }
    requires given_sorted { IsTrue (are_items_sorted (items_data given.now)) }
    requires from_there { items_not_before (tag_data wanted.now) given.now ≡ given.now }
    ensures answer { result
        ≡ any_item (λ v. value_matches (tag_data wanted.now) v) (items_data given.now) }
    ensures counted { steps.new ≤ steps.old
        + most_among_items (tag_data wanted.now) (items_data given.now) }
{
    match wanted {
        TagValue::Number(number) => begins_with_number(number, given, steps),
        _ => matches_one_of(wanted, given, steps),
    }
}

// A number that is among items from it on is the first of them.
fn begins_with_number<L: Ledger>(number: &i128, items: &[TagValue], steps: &mut Steps<L>) -> bool
    ensures answer { result ≡ begins_with_number number.now (items_data items.now) }
    ensures counted { steps.new ≡ steps.old + 1 }
{
    steps.tick();
    match items.first() {
        Some(TagValue::Number(other)) => number == other,
        _ => false,
    }
}

// Goes no further than the first item that a value stands before.
#[cycle(matching)]
fn matches_one_of<L: Ledger>(wanted: &TagValue, given: &[TagValue], steps: &mut Steps<L>) -> bool
    requires wanted_sorted { IsTrue (is_sorted (tag_data wanted.now)) }
    requires given_in_order { IsTrue (is_in_order (items_data given.now)) }
    requires given_sorted { IsTrue (are_items_sorted (items_data given.now)) }
    requires from_there { items_not_before (tag_data wanted.now) given.now ≡ given.now }
    ensures answer { result
        ≡ any_item (λ v. value_matches (tag_data wanted.now) v) (items_data given.now) }
    ensures counted { steps.new ≤ steps.old
        + most_among_items (tag_data wanted.now) (items_data given.now) }
{
    for item in given {
        if value_matches(wanted, item, steps) {
            return true;
        }
        if item_order(wanted, item).is_lt() {
            return false;
        }
    }
    false
}

fn tag_matches<L: Ledger>(wanted: &Tag, given: &[Tag], steps: &mut Steps<L>) -> bool
    ensures answer { result ≡ tag_matches wanted.now given.now }
    ensures counted { steps.new ≤ steps.old + most_by (suc (weight wanted.now.1)) (suc (lists wanted.now.1))
        (tags_weight given.now) (tags_lists given.now) }
{
    for tag in given {
        steps.tick();
        if tag.id() == wanted.id() && value_matches(wanted.sorted(), tag.sorted(), steps) {
            return true;
        }
    }
    false
}

fn descriptor_matches<L: Ledger>(
    wanted: &Descriptor,
    given: &Descriptor,
    steps: &mut Steps<L>,
) -> bool
    ensures answer { result ≡ descriptor_matches wanted.now given.now }
    ensures counted { steps.new ≤ steps.old + most_by (tags_weight wanted.now.tags) (tags_lists wanted.now.tags)
        (tags_weight given.now.tags) (tags_lists given.now.tags) }
{
    for tag in wanted.tags() {
        if !tag_matches(tag, given.tags(), steps) {
            return false;
        }
    }
    true
}

// The strongest quality with which a descriptor matches some offer. It looks no further once that
// is unacceptable.
fn strongest_match<L: Ledger>(
    wanted: &Descriptor,
    offers: &[Descriptor],
    steps: &mut Steps<L>,
) -> Option<Quality>
    ensures answer { result ≡ strongest
        (λ quality. matches_with quality wanted.now offers.now) }
    ensures counted { steps.new ≤ steps.old
        + most_by (suc (tags_weight wanted.now.tags)) (suc (tags_lists wanted.now.tags))
        (weight_of offers.now) (lists_of offers.now) }
{
    let mut found = None;
    for offer in offers {
        if is_unacceptable(found) {
            return found;
        }
        steps.tick();
        if descriptor_matches(wanted, offer, steps) {
            found = stronger(found, Some(pair_quality(wanted.quality(), offer.quality())));
        }
    }
    found
}

// The strongest quality with which some descriptor matches some offer. It looks no further once
// that is unacceptable.
fn strongest_of<L: Ledger>(
    query: &[Descriptor],
    offers: &[Descriptor],
    steps: &mut Steps<L>,
) -> Option<Quality>
    ensures answer { result ≡ strongest (λ quality. some_match quality query.now offers.now) }
    ensures counted { steps.new ≤ steps.old + most_comparisons query.now offers.now }
{
    let mut found = None;
    for wanted in query {
        if is_unacceptable(found) {
            return found;
        }
        found = stronger(found, strongest_match(wanted, offers, steps));
    }
    found
}

/// The quality with which a query matches offers, its comparisons counted.
///
/// It is none where no pair of a query's descriptor and an offer matches, or where a pair that
/// matches is unacceptable, else preferred where a pair that matches is, else acceptable. Each
/// value, and each tag and descriptor, that is looked at beside another is a comparison.
pub fn count_matches<L: Ledger>(
    query: &Query,
    offers: &[Descriptor],
    steps: &mut Steps<L>,
) -> Option<Quality>
    ensures answer { result ≡ match_of query.now offers.now }
    ensures counted { steps.new ≤ steps.old + most_comparisons query.now offers.now }
{
    match strongest_of(query.as_slice(), offers, steps) {
        Some(Quality::Unacceptable) => None,
        Some(Quality::Preferred) => Some(Quality::Preferred),
        Some(Quality::Acceptable) => Some(Quality::Acceptable),
        None => None,
    }
}

/// The quality with which a query matches offers, as `count_matches` finds it.
///
/// How many comparisons that takes is bounded by `count_matches`.
pub fn matches(query: &Query, offers: &[Descriptor]) -> Option<Quality>
    ensures { result ≡ match_of query.now offers.now }
{
    matches_from::<Brand>(query, offers, Blank::new(1))
}

fn matches_from<L: Ledger>(query: &Query, offers: &[Descriptor], blank: Blank) -> Option<Quality>
    requires name { blank.name ≡ L.name }
    requires parts { blank.parts ≡ L.parts }
    requires some { 0 < blank.parts }
    ensures { result ≡ match_of query.now offers.now }
{
    let mut steps = Steps::<L>::new(blank);
    count_matches(query, offers, &mut steps)
}

fn pair_quality(wanted: Quality, given: Quality) -> Quality
    ensures { result ≡ pair_quality wanted given }
{
    match (wanted, given) {
        (Quality::Unacceptable, _) | (_, Quality::Unacceptable) => Quality::Unacceptable,
        (Quality::Preferred, _) | (_, Quality::Preferred) => Quality::Preferred,
        (Quality::Acceptable, Quality::Acceptable) => Quality::Acceptable,
    }
}

// Whether nothing is stronger.
fn is_unacceptable(quality: Option<Quality>) -> bool
    ensures { result ≡ is_unacceptable quality }
{
    match quality {
        Some(Quality::Unacceptable) => true,
        Some(_) => false,
        None => false,
    }
}

fn stronger(one: Option<Quality>, other: Option<Quality>) -> Option<Quality>
    ensures { result ≡ stronger one other }
{
    match (one, other) {
        (Some(one), Some(other)) => Some(pair_quality(one, other)),
        (Some(one), None) => Some(one),
        (None, other) => other,
    }
}
