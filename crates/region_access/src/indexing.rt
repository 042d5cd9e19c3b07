//! The edges of tables.

ghost use Rattle.std.specs.Prelude.{◌≡◌, Some, OnOk, IfOk};
ghost use Rattle.share_graph.specs.Coherent.{HasNumbers};
ghost use Rattle.share_graph.specs.Region.{Feeds};
ghost use Rattle.region_access.specs.Adding.{Adds, IsNamed};
ghost use Rattle.region_work.specs.Fed.{fed_in};
ghost use Rattle.region_work.specs.Working.{IsIndexOf};

use crate::adding::add_edge;
use host_base::{GrantId, Memory};
use region_work::edges::Edges;
use region_work::meeting::holder_of;
use share_graph::{Grant, Need, Node, Tables, source_of};
use std::alloc::Global;
use std::collections::BTreeMap;

// Adds an edge, where there is a node that it comes from.
fn add_from(
    alloc: Global,
    edges: &mut Edges,
    from: Option<Node>,
    num: GrantId,
) -> Result<(), Memory>
    ensures { OnOk result (Adds (λ at. from
        ≡ Some at) num (fed_in edges.old.entries) (fed_in edges.new.entries)) }
{
    match from {
        Some(node) => add_edge(alloc, edges, node, num),
        None => Ok(()),
    }
}

// Adds an edge from the node of each need.
fn add_needs(alloc: Global, edges: &mut Edges, needs: &[Need], num: GrantId) -> Result<(), Memory>
    ensures { OnOk result (Adds (IsNamed needs.now) num (fed_in edges.old.entries)
        (fed_in edges.new.entries)) }
{
    for need in needs {
        add_from(alloc, edges, holder_of(need), num)?;
    }
    Ok(())
}

/// Adds the edges to a grant.
pub fn add_grant(
    alloc: Global,
    edges: &mut Edges,
    num: GrantId,
    grant: &Grant,
) -> Result<(), Memory>
    ensures { OnOk result (Adds (λ at.
        Feeds at grant.now) num (fed_in edges.old.entries) (fed_in edges.new.entries)) }
{
    add_from(alloc, edges, source_of(grant), num)?;
    add_needs(alloc, edges, grant.needs.as_slice(), num)
}

/// The edges of tables.
pub fn edges_of(alloc: Global, tables: &Tables) -> Result<Edges, Memory>
    requires { HasNumbers tables.now }
    ensures { IfOk result (λ edges. IsIndexOf tables.now (fed_in edges.entries)) }
{
    let mut edges = BTreeMap::new(alloc);
    for (place, grant) in tables.grants.as_slice().iter().enumerate() {
        add_grant(alloc, &mut edges, GrantId(place as u32 + 1), grant)?;
    }
    Ok(edges)
}
