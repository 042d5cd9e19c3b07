//! The nodes and grants on which what a node holds can rest.

ghost use Rattle.std.specs.Prelude.{◌≡◌, ◌∷◌, ◌++◌, [], List, Contains, IfOk, OnOk};
ghost use Rattle.std.specs.List.{cons_option, filter_map};
ghost use Rattle.host_base.specs.declared.ids.GrantId as the_id;
ghost use Rattle.share_graph.specs.declared.facts.Node as the_node;
ghost use Rattle.share_graph.specs.declared.grants.Grant as the_grant;
ghost use Rattle.share_graph.specs.Rows.{IsGrant};
ghost use Rattle.region_access.specs.Arriving.{IsArrivalsOf};
ghost use Rattle.region_access.specs.Reaching.{IsVisited};
ghost use Rattle.region_work.specs.Fed.{fed_in};
ghost use Rattle.region_work.specs.Owed.{holder_of as the_holder_of};
ghost use Rattle.access_report.specs.Resting.{AreFedBy, AreVisited, IsRestOf, feeders};

use host_base::{GrantId, Memory};
use least_access::table::Table;
use region_access::distinct;
use region_work::edges::{Edges, fed_by};
use region_work::emptying::add_place;
use region_work::meeting::holder_of;
use share_graph::{Need, Node, Tables, grant as find_grant, source_of};
use std::alloc::Global;
use std::collections::BTreeMap;

/// The nodes on which what a node holds can rest, and the grants that go to them.
#[derive(Drop)]
pub struct Rest {
    pub nodes: Vec<Node>,
    pub grants: Vec<GrantId>,
}

// Adds a node, if there is one.
fn push_some(nodes: &mut Vec<Node>, node: Option<Node>) -> Result<(), Memory>
    ensures { OnOk result (nodes.new.items ≡ nodes.old.items ++ cons_option node []) }
{
    let Some(node) = node else {
        return Ok(());
    };
    nodes.push(node)?;
    Ok(())
}

// Adds the nodes that needs name.
fn push_holders(nodes: &mut Vec<Node>, needs: &[Need]) -> Result<(), Memory>
    ensures { OnOk result (nodes.new.items ≡ nodes.old.items ++ filter_map the_holder_of needs.now) }
{
    for need in needs {
        push_some(nodes, holder_of(need))?;
    }
    Ok(())
}

/// Adds the nodes on which the grant of a number rests: its source, and those that its needs name.
pub fn push_feeders_of(tables: &Tables, nodes: &mut Vec<Node>, num: GrantId) -> Result<(), Memory>
    requires { (grant : the_grant.Grant) × IsGrant tables.now num grant }
    ensures { OnOk result ((grant : the_grant.Grant) → IsGrant tables.now num grant
        → nodes.new.items ≡ nodes.old.items ++ feeders grant) }
{
    let Some(grant) = find_grant(tables, num) else {
        unreachable!()
    };
    push_some(nodes, source_of(grant))?;
    push_holders(nodes, grant.needs.as_slice())?;
    Ok(())
}

// Adds the nodes on which grants rest.
fn push_all_feeders(
    tables: &Tables,
    nodes: &mut Vec<Node>,
    grants: &[GrantId],
) -> Result<(), Memory>
    requires { (num : the_id.GrantId) → Contains grants.now num → (grant : the_grant.Grant)
        × IsGrant tables.now num grant }
    ensures { OnOk result (AreFedBy tables.now nodes.old.items grants.now nodes.new.items) }
{
    for num in grants {
        push_feeders_of(tables, nodes, *num)?;
    }
    Ok(())
}

/// The nodes, and those on which the grants rest, each once.
pub fn widened(
    alloc: Global,
    tables: &Tables,
    nodes: &[Node],
    grants: &[GrantId],
) -> Result<Vec<Node>, Memory>
    requires { (num : the_id.GrantId) → Contains grants.now num → (grant : the_grant.Grant)
        × IsGrant tables.now num grant }
    ensures { IfOk result (λ wider. AreFedBy tables.now nodes.now grants.now wider.items) }
{
    let mut all = Vec::from_slice(alloc, nodes)?;
    push_all_feeders(tables, &mut all, grants)?;
    distinct(alloc, all.as_slice())
}

// Adds a node to those that were visited, if it isn't one of them.
fn visit(places: &mut Table, nodes: &mut Vec<Node>, node: Node) -> Result<(), Memory>
    requires { IsVisited nodes.old.items places.old.entries }
    ensures { OnOk result (AreVisited (node ∷ []) nodes.old.items nodes.new.items places.new.entries) }
{
    if places.contains_key(&node) {
        return Ok(());
    }
    add_place(places, node)?;
    nodes.push(node)?;
    Ok(())
}

// Adds the nodes on which grants rest to those that were visited.
fn visit_feeders(
    alloc: Global,
    tables: &Tables,
    places: &mut Table,
    nodes: &mut Vec<Node>,
    grants: &[GrantId],
) -> Result<(), Memory>
    requires visited { IsVisited nodes.old.items places.old.entries }
    requires rows { (num : the_id.GrantId) → Contains grants.now num → (grant : the_grant.Grant)
        × IsGrant tables.now num grant }
    ensures { OnOk result ((feeding : List the_node.Node) × AreFedBy tables.now [] grants.now feeding
        × AreVisited feeding nodes.old.items nodes.new.items places.new.entries) }
{
    let mut feeding = Vec::new(alloc);
    push_all_feeders(tables, &mut feeding, grants)?;
    for node in feeding.as_slice() {
        visit(places, nodes, *node)?;
    }
    Ok(())
}

/// The nodes on which what a node holds can rest, found from it backwards along shares and needs, and the grants that go to them.
pub fn rest_of(alloc: Global, tables: &Tables, arrivals: &Edges, node: Node) -> Result<Rest, Memory>
    requires { IsArrivalsOf tables.now (fed_in arrivals.now.entries) }
    ensures { IfOk result (λ rest. IsRestOf tables.now node rest.nodes.items rest.grants.items) }
{
    let mut places = BTreeMap::new(alloc);
    let mut nodes = Vec::new(alloc);
    let mut grants = Vec::new(alloc);
    visit(&mut places, &mut nodes, node)?;
    let mut next = 0;
    while next < nodes.len() {
        let arriving = fed_by(arrivals, nodes[next]);
        visit_feeders(alloc, tables, &mut places, &mut nodes, arriving)?;
        grants.extend_from_slice(arriving)?;
        next += 1;
    }
    Ok(Rest { nodes, grants })
}
