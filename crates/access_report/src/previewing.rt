//! What a revocation would take.

ghost use Rattle.std.specs.Prelude.{◌≡◌, ◌≢◌, ◌<◌, ◌↔◌, ◌⊎◌, ◌∷◌, [], Contains, IfOk, IsTrue, OnOk};
ghost use Rattle.std.specs.List.{filter_map};
ghost use Rattle.host_base.specs.declared.ids.GrantId as the_id;
ghost use Rattle.share_graph.specs.declared.facts.Fact as the_facts;
ghost use Rattle.share_graph.specs.declared.facts.Node as the_node;
ghost use Rattle.share_graph.specs.declared.grants.Grant as the_grant;
ghost use Rattle.share_graph.specs.Coherent.{IsCoherent};
ghost use Rattle.share_graph.specs.Nodes.{node_of as the_node_of};
ghost use Rattle.share_graph.specs.Rows.{IsGrant};
ghost use Rattle.least_access.specs.Held.{IsIn};
ghost use Rattle.least_access.specs.Solved.{HeldAt, IsSolutionOf};
ghost use Rattle.region_access.specs.Arriving.{IsArrivalsOf};
ghost use Rattle.region_access.specs.Reaching.{IsRegionOf};
ghost use Rattle.region_work.specs.Fed.{fed_in};
ghost use Rattle.region_work.specs.Working.{IsIndexOf};
ghost use Rattle.access_report.specs.Losing.{AddsLost, AreLost, IsGone, IsSettled, loss_of as the_loss_of, made_of, turned as the_turned};
ghost use Rattle.access_report.specs.Losses.{AreLosses};

use crate::finding::{held_by, node_by};
use crate::lifting::{fill, settle};
use crate::loss::Loss;
use crate::resting::widened;
use host_base::{AccountId, GrainId, GrantId, Memory};
use least_access::table::{Table, holding, set};
use least_access::{Held, Solved};
use plain_data::Steps;
use region_access::{collect, find_region};
use region_work::Counted;
use region_work::edges::Edges;
use region_work::emptying::empty_at;
use share_graph::{Node, Tables};
use std::alloc::Global;
use std::collections::BTreeMap;
use std::collections::btree_map::Iter;
use std::marker::Brand;
use std::sync::ledger::{Blank, Ledger};

// The nodes that a node reaches along shares and needs, itself among them.
fn reached<L: Ledger>(
    alloc: Global,
    tables: &Tables,
    edges: &Edges,
    node: Node,
    blank: Blank,
) -> Result<Vec<Node>, Memory>
    requires name { blank.name ≡ L.name }
    requires parts { blank.parts ≡ L.parts }
    requires some { 0 < blank.parts }
    requires coherent { IsCoherent tables.now }
    requires index { IsIndexOf tables.now (fed_in edges.now.entries) }
    ensures { IfOk result (λ nodes. IsRegionOf tables.now (node ∷ []) nodes.items) }
{
    let probe = Counted {
        tables,
        steps: Steps::<L>::new(blank),
    };
    find_region(alloc, &probe, edges, &[node])
}

// Whether two numbers are of other grants.
fn is_other(num: GrantId, other: GrantId) -> bool
    ensures { IsTrue result ↔ (num ≢ other) }
{
    num != other
}

// Adds a grant, if it isn't another one.
fn push_other(others: &mut Vec<GrantId>, other: GrantId, num: GrantId) -> Result<(), Memory>
    ensures { OnOk result ((g : the_id.GrantId) → Contains others.new.items g ↔ (Contains others.old.items g
        ⊎ ((other ≡ g) × (g ≢ num)))) }
{
    if !is_other(other, num) {
        return Ok(());
    }
    others.push(other)?;
    Ok(())
}

// The grants but one.
fn others_of(alloc: Global, grants: &[GrantId], num: GrantId) -> Result<Vec<GrantId>, Memory>
    ensures { IfOk result (λ others. (g : the_id.GrantId) → Contains others.items g ↔ (Contains grants.now g
        × (g ≢ num))) }
{
    let mut others = Vec::new(alloc);
    for other in grants {
        push_other(&mut others, *other, num)?;
    }
    Ok(others)
}

// What the nodes of a region hold without a grant, in a small table of these nodes and those on which they rest.
fn held_without(
    alloc: Global,
    tables: &Tables,
    solved: &Solved,
    region: &[Node],
    grants: &[GrantId],
) -> Result<Table, Memory>
    requires coherent { IsCoherent tables.now }
    requires rows { (num : the_id.GrantId) → Contains grants.now num → (grant : the_grant.Grant)
        × IsGrant tables.now num grant × Contains region.now (the_node_of num grant) }
    ensures { IfOk result (λ table. IsSettled tables.now solved.now region.now grants.now table.entries) }
{
    let known = widened(alloc, tables, region, grants)?;
    let inside = empty_at(alloc, region)?;
    let mut table = empty_at(alloc, known.as_slice())?;
    fill(tables, solved, &inside, &mut table, known.as_slice());
    settle(alloc, tables, &mut table, grants)?;
    Ok(table)
}

// What a node holds by a solution and not by another table.
fn gone(solved: &Solved, table: &Table, node: Node) -> Held
    ensures { (fact : the_facts.Fact) → IsIn result fact ↔ IsGone solved.now table.now.entries node fact }
{
    let before = held_by(solved, node);
    let after = holding(table, node);
    Held {
        entry: before.entry && !after.entry,
        perms: before.perms.minus(&after.perms),
    }
}

// Whether anything is held.
fn is_something(held: &Held) -> bool
    ensures { IsTrue result ↔ ((fact : the_facts.Fact) × IsIn held.now fact) }
{
    held.entry || held.perms.len() > 0
}

// The node by whose place in the order of nodes another one stands in the report.
fn turned(node: Node) -> Node
    ensures { result ≡ the_turned node }
{
    match node {
        Node::User(grain, account) => Node::User(GrainId(account.0), AccountId(grain.0)),
        Node::Grant(num) => Node::Grant(num),
    }
}

// Adds what is gone at a node, if anything is.
fn add_lost(lost: &mut Table, solved: &Solved, table: &Table, node: Node) -> Result<(), Memory>
    ensures { OnOk result (AddsLost solved.now table.now.entries node lost.old.entries lost.new.entries) }
{
    let held = gone(solved, table, node);
    if !is_something(&held) {
        return Ok(());
    }
    set(lost, turned(node), held)?;
    Ok(())
}

// Adds what is gone at nodes.
fn add_all_lost(
    lost: &mut Table,
    solved: &Solved,
    table: &Table,
    nodes: &[Node],
) -> Result<(), Memory>
    requires { lost.old.entries ≡ [] }
    ensures { OnOk result (AreLost solved.now table.now.entries nodes.now lost.new.entries) }
{
    for node in nodes {
        add_lost(lost, solved, table, *node)?;
    }
    Ok(())
}

// What is made of a node under which another one stands.
fn loss_of(node: &Node, held: &Held) -> Loss
    ensures { result ≡ the_loss_of (node.now, held.now) }
{
    Loss {
        node: turned(*node),
        entry: held.entry,
        perms: held.perms,
    }
}

// What is made of such nodes, in their order.
fn losses_of(alloc: Global, lost: Iter<'_, Node, Held>) -> Result<Vec<Loss>, Memory>
    ensures { IfOk result (λ losses. losses.items ≡ filter_map made_of lost.entry) }
{
    let mut losses = Vec::new(alloc);
    for (node, held) in lost {
        losses.push(loss_of(node, held))?;
    }
    Ok(losses)
}

/// What a revocation would take: for each node exactly the facts that it holds and wouldn't after it, users by their grains and then by
/// their accounts, and then grants. Nothing is changed by it: the nodes that the grant reaches are solved without it in a table of their
/// own.
pub fn preview(
    alloc: Global,
    tables: &Tables,
    solved: &Solved,
    edges: &Edges,
    arrivals: &Edges,
    num: GrantId,
) -> Result<Vec<Loss>, Memory>
    requires coherent { IsCoherent tables.now }
    requires row { (grant : the_grant.Grant) × IsGrant tables.now num grant }
    requires solution { IsSolutionOf tables.now solved.now }
    requires edges { IsIndexOf tables.now (fed_in edges.now.entries) }
    requires arrivals { IsArrivalsOf tables.now (fed_in arrivals.now.entries) }
    ensures { IfOk result (λ losses. AreLosses tables.now num losses.items) }
{
    let region = reached::<Brand>(alloc, tables, edges, node_by(tables, num), Blank::new(1))?;
    let grants = collect(alloc, arrivals, region.as_slice())?;
    let others = others_of(alloc, grants.as_slice(), num)?;
    let table = held_without(alloc, tables, solved, region.as_slice(), others.as_slice())?;
    let mut lost = BTreeMap::new(alloc);
    add_all_lost(&mut lost, solved, &table, region.as_slice())?;
    losses_of(alloc, lost.iter())
}
