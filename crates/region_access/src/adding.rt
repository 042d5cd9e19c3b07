//! Adding edges, one by one.

ghost use Rattle.std.specs.Prelude.{◌≡◌, ◌≢◌, ◌↔◌, [], Some, IsTrue, OnOk, OnErr};
ghost use Rattle.region_access.specs.Adding.{IsPushed, IsPopped, AddsEdge};
ghost use Rattle.region_access.specs.Indexed.{listed_in};

use crate::index::{Index, Key};
use host_base::{GrantId, Memory};
use std::alloc::Global;

// Whether it is a grant.
fn is_grant(last: Option<GrantId>, num: GrantId) -> bool
    ensures { IsTrue result ↔ (last ≡ Some num) }
{
    match last {
        Some(other) => other == num,
        None => false,
    }
}

// Adds a number at the end of a list, where it isn't there.
fn push_last(fed: &mut Vec<GrantId>, num: GrantId) -> Result<(), Memory>
    ensures ok { OnOk result (IsPushed fed.old.items num fed.new.items) }
    ensures err { OnErr result (fed.new.items ≡ fed.old.items) }
{
    if is_grant(fed.as_slice().last().copied(), num) {
        return Ok(());
    }
    match fed.push(num) {
        Ok(_) => Ok(()),
        Err(_) => Err(Memory),
    }
}

// Makes a list of one number for a key that has none.
fn start_edge<K: Key>(
    alloc: Global,
    edges: &mut Index<K>,
    from: K,
    num: GrantId,
) -> Result<(), Memory>
    requires { listed_in K.cmp edges.old.entries from ≡ [] }
    ensures ok { OnOk result (AddsEdge from num (listed_in K.cmp edges.old.entries)
        (listed_in K.cmp edges.new.entries)) }
    ensures err { OnErr result (edges.new.entries ≡ edges.old.entries) }
{
    let mut fed = Vec::new(alloc);
    push_last(&mut fed, num)?;
    match edges.insert(from, fed) {
        Ok(_) => Ok(()),
        Err(_) => Err(Memory),
    }
}

/// Adds a grant to those of a key.
pub fn add_edge<K: Key>(
    alloc: Global,
    edges: &mut Index<K>,
    from: K,
    num: GrantId,
) -> Result<(), Memory>
    ensures ok { OnOk result (AddsEdge from num (listed_in K.cmp edges.old.entries)
        (listed_in K.cmp edges.new.entries)) }
    ensures err { OnErr result (listed_in K.cmp edges.new.entries from
        ≡ listed_in K.cmp edges.old.entries from) }
    ensures others { (at : K) → at ≢ from → listed_in K.cmp edges.new.entries at
        ≡ listed_in K.cmp edges.old.entries at }
{
    match edges.get_mut(&from) {
        Some(fed) => push_last(fed, num),
        None => start_edge(alloc, edges, from, num),
    }
}

// Takes a number from the end of a list, where it is there.
fn pop_last(fed: &mut Vec<GrantId>, num: GrantId)
    ensures { IsPopped fed.old.items num fed.new.items }
{
    if is_grant(fed.as_slice().last().copied(), num) {
        fed.pop();
    }
}

/// Takes a grant out of those of a key, where it is the last of them.
pub fn remove_edge<K: Key>(edges: &mut Index<K>, from: K, num: GrantId)
    ensures here { IsPopped (listed_in K.cmp edges.old.entries from) num
        (listed_in K.cmp edges.new.entries from) }
    ensures others { (at : K) → at ≢ from → listed_in K.cmp edges.new.entries at
        ≡ listed_in K.cmp edges.old.entries at }
{
    if let Some(fed) = edges.get_mut(&from) {
        pop_last(fed, num);
    }
}
