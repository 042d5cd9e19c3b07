//! The grants that go to nodes.

ghost use Rattle.std.specs.Prelude.{◌≢◌, ◌≡◌, IfOk, AllPairs};
ghost use Rattle.share_graph.specs.declared.facts.Node.{Node};
ghost use Rattle.share_graph.specs.declared.state.Tables.{Tables};
ghost use Rattle.share_graph.specs.Coherent.{HasNumbers};
ghost use Rattle.region_access.specs.Arriving.{IsArrivalsOf, IsArrivalsAt};
ghost use Rattle.region_work.specs.Fed.{fed_in};

use crate::adding_all::add_edges;
use host_base::{GrantId, Memory};
use region_work::edges::{Edges, fed_by};
use share_graph::{Node, Tables, node_of};
use std::alloc::Global;
use std::collections::BTreeMap;

/// For each node the grants that go to it.
pub fn arrivals_of(alloc: Global, tables: &Tables) -> Result<Edges, Memory>
    requires { HasNumbers tables.now }
    ensures { IfOk result (λ into. IsArrivalsOf tables.now (fed_in into.entries)) }
{
    let mut into = BTreeMap::new(alloc);
    for (place, grant) in tables.grants.as_slice().iter().enumerate() {
        let num = GrantId(place as u32 + 1);
        add_edges(alloc, &mut into, &[node_of(num, grant)], num)?;
    }
    Ok(into)
}

/// The grants that go to some nodes, each once.
pub fn collect(alloc: Global, into: &Edges, nodes: &[Node]) -> Result<Vec<GrantId>, Memory>
    requires once { AllPairs (λ (a : Node) (b : Node). a ≢ b) nodes.now }
    requires arrivals { (t : Tables) × IsArrivalsOf t (fed_in into.now.entries) }
    ensures { IfOk result (λ grants. IsArrivalsAt nodes.now (fed_in into.now.entries) grants.items) }
{
    let mut grants = Vec::new(alloc);
    for node in nodes {
        let Ok(_) = grants.extend_from_slice(fed_by(into, *node)) else {
            return Err(Memory);
        };
    }
    Ok(grants)
}
