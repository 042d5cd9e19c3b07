//! Adding a grant under several keys, and taking it out again.

ghost use Rattle.std.specs.Prelude.{List, Contains, OnOk, OnErr};
ghost use Rattle.host_base.specs.declared.ids.GrantId.{GrantId};
ghost use Rattle.region_access.specs.Adding.{IsNewIn, HasSameEdges, MayAdd, AddsEdges};
ghost use Rattle.region_access.specs.Indexed.{listed_in};

use crate::adding::{add_edge, remove_edge};
use crate::index::{Index, Key};
use host_base::{GrantId, Memory};
use std::alloc::Global;

/// Adds a grant to those of keys.
pub fn add_edges<K: Key>(
    alloc: Global,
    edges: &mut Index<K>,
    from: &[K],
    num: GrantId,
) -> Result<(), Memory>
    requires { IsNewIn num (listed_in K.cmp edges.old.entries) }
    ensures may { MayAdd (Contains from.now) num (listed_in K.cmp edges.old.entries)
        (listed_in K.cmp edges.new.entries) }
    ensures all { OnOk result ((at : K) → Contains from.now at
        → Contains (listed_in K.cmp edges.new.entries at) num) }
{
    for key in from {
        add_edge(alloc, edges, *key, num)?;
    }
    Ok(())
}

/// Takes a grant out of those of keys, where it is the last of them.
pub fn remove_edges<K: Key>(edges: &mut Index<K>, from: &[K], num: GrantId)
    ensures { (base : K → List GrantId) → IsNewIn num base
        → MayAdd (Contains from.now) num base (listed_in K.cmp edges.old.entries)
        → HasSameEdges base (listed_in K.cmp edges.new.entries) }
{
    for key in from {
        remove_edge(edges, *key, num);
    }
}

/// Adds a grant to those of keys. Where memory runs out, each key has what it had.
pub fn add_to_all<K: Key>(
    alloc: Global,
    edges: &mut Index<K>,
    from: &[K],
    num: GrantId,
) -> Result<(), Memory>
    requires { IsNewIn num (listed_in K.cmp edges.old.entries) }
    ensures ok { OnOk result (AddsEdges (Contains from.now) num (listed_in K.cmp edges.old.entries)
        (listed_in K.cmp edges.new.entries)) }
    ensures err { OnErr result (HasSameEdges (listed_in K.cmp edges.old.entries)
        (listed_in K.cmp edges.new.entries)) }
{
    match add_edges(alloc, edges, from, num) {
        Ok(()) => Ok(()),
        Err(fault) => {
            remove_edges(edges, from, num);
            Err(fault)
        }
    }
}
