//! The grains that match a query, and their order.

ghost use Rattle.std.specs.Prelude.{◌≡◌, ◌++◌, IfOk, OnOk};
ghost use Rattle.std.specs.List.{filter_map};
ghost use Rattle.saved_refs.specs.Scan as the;

use host_base::{AppId, GrainId, Memory};
use powerbox_match::{Choice, Quality, Query, matches};
use share_graph::{Tables, app as find_app, grain as find_grain};
use std::alloc::Global;
use std::collections::BTreeMap;

// How well the offers of applications match a query, by the numbers of those that were asked about.
type Matches = BTreeMap<AppId, Option<Quality>>;

// How well the offers of the application of a number match.
fn matched(tables: &Tables, query: &Query, num: AppId) -> Option<Quality>
    ensures { result ≡ the.match_at tables.now query.now num }
{
    match find_app(tables, num) {
        Some(app) => matches(query, app.manifest.match_requests.as_slice()),
        None => None,
    }
}

// The same, of offers that are matched where it isn't known yet how well they do.
fn match_at(
    found: &mut Matches,
    tables: &Tables,
    query: &Query,
    num: AppId,
) -> Result<Option<Quality>, Memory>
    requires { the.AreMatches tables.now query.now found.old }
    ensures known { OnOk result (the.AreMatches tables.now query.now found.new) }
    ensures how { IfOk result (λ how. how ≡ the.match_at tables.now query.now num) }
{
    if let Some(how) = found.get(&num) {
        return Ok(*how);
    }
    let how = matched(tables, query, num);
    match found.insert(num, how) {
        Ok(_) => Ok(how),
        Err(_) => Err(Memory),
    }
}

// The choice that a grain is for the grain of a number, if it is another one and its application's offers match.
fn choice_of(
    found: &mut Matches,
    tables: &Tables,
    query: &Query,
    num: GrainId,
    other: GrainId,
) -> Result<Option<Choice>, Memory>
    requires { the.AreMatches tables.now query.now found.old }
    ensures known { OnOk result (the.AreMatches tables.now query.now found.new) }
    ensures choice { IfOk result (λ choice. choice ≡ the.choice_of tables.now query.now num other) }
{
    if other == num {
        return Ok(None);
    }
    let Some(grain) = find_grain(tables, other) else {
        return Ok(None);
    };
    match match_at(found, tables, query, grain.app)? {
        Some(quality) => Ok(Some(Choice {
            num: other.0,
            quality,
        })),
        None => Ok(None),
    }
}

// The choices that grains are for the grain of a number, in their order. The offers of each application are matched once, at the
// first grain of it.
pub(crate) fn choices_of(
    alloc: Global,
    tables: &Tables,
    query: &Query,
    num: GrainId,
    grains: &[GrainId],
) -> Result<Vec<Choice>, Memory>
    ensures { IfOk result (λ choices. choices.items
        ≡ filter_map (the.choice_of tables.now query.now num) grains.now) }
{
    let mut found = BTreeMap::new(alloc);
    let mut choices = Vec::new(alloc);
    for grain in grains {
        if let Some(choice) = choice_of(&mut found, tables, query, num, *grain)? {
            choices.push(choice)?;
        }
    }
    Ok(choices)
}

// Appends the choices of a quality, in their order.
pub(crate) fn append_those(
    list: &mut Vec<Choice>,
    quality: Quality,
    choices: &[Choice],
) -> Result<(), Memory>
    ensures { OnOk result (list.new.items ≡ list.old.items ++ filter_map (the.with_quality quality) choices.now) }
{
    for choice in choices {
        if choice.quality == quality {
            list.push(*choice)?;
        }
    }
    Ok(())
}
