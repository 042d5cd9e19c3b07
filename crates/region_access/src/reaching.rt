//! Finding the region of a change.

ghost use Rattle.std.specs.Prelude.{◌≡◌, ◌≢◌, ◌⊎◌, ◌↔◌, AllPairs, IfOk, OnOk, Contains};
ghost use Rattle.host_base.specs.declared.ids.GrantId.{GrantId};
ghost use Rattle.share_graph.specs.declared.facts.Node.{Node};
ghost use Rattle.share_graph.specs.declared.grants.Grant.{Grant};
ghost use Rattle.share_graph.specs.Coherent.{IsCoherent};
ghost use Rattle.share_graph.specs.Rows.{IsGrant};
ghost use Rattle.region_work.specs.Fed.{fed_in};
ghost use Rattle.region_access.specs.Reaching.{IsVisited, Extends, ReachesFrom, IsRegionOf};
ghost use Rattle.region_work.specs.Working.{IsIndexOf};

use host_base::{GrantId, Memory};
use least_access::table::Table;
use region_work::Probe;
use region_work::edges::{Edges, fed_by};
use region_work::emptying::add_place;
use share_graph::Node;
use std::alloc::Global;
use std::collections::BTreeMap;

// Adds a node, where it isn't there.
fn reach(places: &mut Table, nodes: &mut Vec<Node>, node: Node) -> Result<(), Memory>
    requires { IsVisited nodes.old.items places.old.entries }
    ensures visited { OnOk result (IsVisited nodes.new.items places.new.entries) }
    ensures extends { OnOk result (Extends nodes.old.items nodes.new.items) }
    ensures there { OnOk result (Contains nodes.new.items node) }
    ensures only { OnOk result ((at : Node) → Contains nodes.new.items at
        → Contains nodes.old.items at ⊎ (at ≡ node)) }
{
    if places.contains_key(&node) {
        return Ok(());
    }
    add_place(places, node)?;
    match nodes.push(node) {
        Ok(_) => Ok(()),
        Err(_) => Err(Memory),
    }
}

// Adds the nodes of grants.
fn reach_from<V: Probe>(
    probe: &V,
    places: &mut Table,
    nodes: &mut Vec<Node>,
    grants: &[GrantId],
) -> Result<(), Memory>
    requires visited { IsVisited nodes.old.items places.old.entries }
    requires rows { (num : GrantId) → Contains grants.now num
        → (grant : Grant) × IsGrant (V.tables probe.now) num grant }
    ensures visited { OnOk result (IsVisited nodes.new.items places.new.entries) }
    ensures reaches { OnOk result (ReachesFrom (V.tables probe.now) grants.now nodes.old.items
        nodes.new.items) }
{
    for num in grants {
        reach(places, nodes, probe.node(*num))?;
    }
    Ok(())
}

// Adds the seeds.
fn add_seeds(places: &mut Table, nodes: &mut Vec<Node>, seeds: &[Node]) -> Result<(), Memory>
    requires { IsVisited nodes.old.items places.old.entries }
    ensures visited { OnOk result (IsVisited nodes.new.items places.new.entries) }
    ensures all { OnOk result ((at : Node) → Contains seeds.now at → Contains nodes.new.items at) }
    ensures only { OnOk result ((at : Node) → Contains nodes.new.items at
        → Contains nodes.old.items at ⊎ Contains seeds.now at) }
{
    for seed in seeds {
        reach(places, nodes, *seed)?;
    }
    Ok(())
}

/// The same nodes, each once.
pub fn distinct(alloc: Global, nodes: &[Node]) -> Result<Vec<Node>, Memory>
    ensures same { IfOk result (λ found. (at : Node) → Contains found.items at ↔ Contains nodes.now at) }
    ensures once { IfOk result (λ found. AllPairs (λ (a : Node) (b : Node). a ≢ b) found.items) }
{
    let mut places = BTreeMap::new(alloc);
    let mut found = Vec::new(alloc);
    add_seeds(&mut places, &mut found, nodes)?;
    Ok(found)
}

/// The nodes that the seeds reach along shares and needs, each once.
pub fn find_region<V: Probe>(
    alloc: Global,
    probe: &V,
    edges: &Edges,
    seeds: &[Node],
) -> Result<Vec<Node>, Memory>
    requires coherent { IsCoherent (V.tables probe.now) }
    requires index { IsIndexOf (V.tables probe.now) (fed_in edges.now.entries) }
    ensures { IfOk result (λ nodes. IsRegionOf (V.tables probe.now) seeds.now nodes.items) }
{
    let mut places = BTreeMap::new(alloc);
    let mut nodes = Vec::new(alloc);
    add_seeds(&mut places, &mut nodes, seeds)?;
    let mut next = 0;
    while next < nodes.len() {
        let node = nodes[next];
        reach_from(probe, &mut places, &mut nodes, fed_by(edges, node))?;
        next += 1;
    }
    Ok(nodes)
}
