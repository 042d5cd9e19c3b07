//! What nodes hold by some grants alone.

ghost use Rattle.std.specs.Prelude.{◌≢◌, ◌↔◌, List, Contains, IsSome, OnOk};
ghost use Rattle.host_base.specs.declared.ids.GrantId as the_id;
ghost use Rattle.share_graph.specs.declared.facts.Fact as the_facts;
ghost use Rattle.share_graph.specs.declared.facts.Node as the_node;
ghost use Rattle.share_graph.specs.declared.grants.Grant as the_grant;
ghost use Rattle.share_graph.specs.Coherent.{IsCoherent};
ghost use Rattle.share_graph.specs.Nodes.{node_of as the_node_of};
ghost use Rattle.share_graph.specs.Rows.{IsGrant};
ghost use Rattle.least_access.specs.Held.{IsIn};
ghost use Rattle.least_access.specs.Solved.{HeldAt, held_at};
ghost use Rattle.region_work.specs.Emptying.{IsEmptyAt};
ghost use Rattle.access_report.specs.Lifting.{AreFilled, HoldAll, IsFilled, IsKnown};
ghost use Rattle.access_report.specs.Turns.{HasMore, IsClosedBy, IsSpread, IsTurn};

use crate::feeding::{feeds_of, wake};
use crate::finding::held_by;
use crate::joining::join;
use crate::lawful::own_of;
use crate::queue::Queue;
use host_base::{GrantId, Memory};
use least_access::passing::passed;
use least_access::table::Table;
use least_access::{Held, Solved};
use region_work::edges::Edges;
use share_graph::{Node, Tables, grant as find_grant, node_of};
use std::alloc::Global;

// What is known of a node before the others are asked: at a node of a region what it holds as an owner, and else what it holds.
fn known_at(tables: &Tables, solved: &Solved, region: &Table, node: Node) -> Held
    requires { IsCoherent tables.now }
    ensures { (nodes : List the_node.Node) (fact : the_facts.Fact) → IsEmptyAt nodes region.now.entries
        → IsIn result fact ↔ IsKnown tables.now solved.now nodes node fact }
{
    if region.contains_key(&node) {
        own_of(tables, node)
    } else {
        held_by(solved, node)
    }
}

// Adds what is known of a node.
fn fill_at(tables: &Tables, solved: &Solved, region: &Table, table: &mut Table, node: Node)
    requires coherent { IsCoherent tables.now }
    requires place { IsSome (held_at table.old.entries node) }
    ensures more { HasMore table.old.entries table.new.entries }
    ensures filled { (nodes : List the_node.Node) → IsEmptyAt nodes region.now.entries
        → IsFilled tables.now solved.now nodes node table.old.entries table.new.entries }
{
    let known = known_at(tables, solved, region, node);
    join(table, node, &known);
}

/// Adds what is known of nodes.
pub fn fill(tables: &Tables, solved: &Solved, region: &Table, table: &mut Table, known: &[Node])
    requires coherent { IsCoherent tables.now }
    requires places { (at : the_node.Node) → Contains known.now at → IsSome (held_at table.old.entries at) }
    ensures more { HasMore table.old.entries table.new.entries }
    ensures filled { (nodes : List the_node.Node) → IsEmptyAt nodes region.now.entries
        → AreFilled tables.now solved.now nodes known.now table.old.entries table.new.entries }
{
    for node in known {
        fill_at(tables, solved, region, table, *node);
    }
}

// Adds what a grant of that number passes on, and gives its node, if that gained something.
fn lift(tables: &Tables, table: &mut Table, num: GrantId) -> Option<Node>
    requires coherent { IsCoherent tables.now }
    requires row { (grant : the_grant.Grant) × IsGrant tables.now num grant
        × IsSome (held_at table.old.entries (the_node_of num grant)) }
    ensures turn { IsTurn tables.now num table.old.entries table.new.entries result }
    ensures without { (g : the_id.GrantId) → num ≢ g → HoldAll tables.now g table.old.entries
        → HoldAll tables.now g table.new.entries }
{
    let Some(grant) = find_grant(tables, num) else {
        unreachable!()
    };
    let node = node_of(num, grant);
    let gained = passed(tables, table, num, grant);
    join(table, node, &gained)
}

// Adds what a grant of that number passes on, and has those wait that may pass on more by it.
fn lift_next(
    tables: &Tables,
    fed: &Edges,
    table: &mut Table,
    queue: &mut Queue,
    num: GrantId,
) -> Result<(), Memory>
    requires coherent { IsCoherent tables.now }
    requires row { (grant : the_grant.Grant) × IsGrant tables.now num grant
        × IsSome (held_at table.old.entries (the_node_of num grant)) }
    ensures spread { OnOk result
        (IsSpread tables.now fed.now.entries num table.old.entries queue.old table.new.entries queue.new) }
    ensures without { OnOk result ((g : the_id.GrantId) → num ≢ g → HoldAll tables.now g table.old.entries
        → HoldAll tables.now g table.new.entries) }
{
    let gained = lift(tables, table, num);
    wake(fed, queue, gained)?;
    Ok(())
}

/// Adds what follows by grants, until nothing more does. A grant has a turn at first, and one whenever a node gained something by which
/// it may pass on more.
pub fn settle(
    alloc: Global,
    tables: &Tables,
    table: &mut Table,
    grants: &[GrantId],
) -> Result<(), Memory>
    requires coherent { IsCoherent tables.now }
    requires rows { (num : the_id.GrantId) → Contains grants.now num
        → (grant : the_grant.Grant) × IsGrant tables.now num grant
        × IsSome (held_at table.old.entries (the_node_of num grant)) }
    ensures more { OnOk result (HasMore table.old.entries table.new.entries) }
    ensures closed { OnOk result (IsClosedBy tables.now grants.now table.new.entries table.new.entries) }
    ensures without { OnOk result ((g : the_id.GrantId) → (Contains grants.now g → ⊥)
        → HoldAll tables.now g table.old.entries → HoldAll tables.now g table.new.entries) }
{
    let fed = feeds_of(alloc, tables, grants)?;
    let mut queue = Queue::new(alloc);
    queue.add_all(grants)?;
    'turns: while let Some(num) = queue.take() {
        lift_next(tables, &fed, table, &mut queue, num)?;
    }
    Ok(())
}
