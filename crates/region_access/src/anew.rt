//! Solving tables from scratch: a region that is everything.

ghost use Rattle.std.specs.Prelude.{◌≡◌, ◌<◌, ◌↔◌, IfOk, OnOk, Contains};
ghost use Rattle.host_base.specs.declared.ids.GrainId.{GrainId};
ghost use Rattle.host_base.specs.declared.ids.GrantId.{GrantId};
ghost use Rattle.share_graph.specs.declared.facts.Node.{Node};
ghost use Rattle.share_graph.specs.declared.facts.Node.TheVariants as node;
ghost use Rattle.share_graph.specs.declared.grants.Grant.{Grant};
ghost use Rattle.share_graph.specs.declared.rows.Grain.{Grain};
ghost use Rattle.share_graph.specs.Coherent.{IsCoherent, HasNumbers};
ghost use Rattle.share_graph.specs.Nodes.{node_of as the_node_of};
ghost use Rattle.share_graph.specs.Rows.{IsGrain, IsGrant};
ghost use Rattle.least_access.specs.Solved.{IsSolutionOf};
ghost use Rattle.region_work.specs.Fed.{fed_in};
ghost use Rattle.region_work.specs.Working.{IsIndexOf};

use host_base::{GrainId, GrantId, Memory};
use least_access::table::Table;
use plain_data::Steps;
use region_work::edges::Edges;
use region_work::emptying::empty_at;
use region_work::{Counted, Waiting, solve_region};
use share_graph::{Node, Tables, node_of};
use std::alloc::Global;
use std::sync::ledger::{Blank, Ledger};

// The nodes of owners.
fn owners_of(alloc: Global, tables: &Tables) -> Result<Vec<Node>, Memory>
    requires { HasNumbers tables.now }
    ensures { IfOk result (λ nodes. (num : GrainId) (grain : Grain) → IsGrain tables.now num grain
        → Contains nodes.items (node.User num grain.owner)) }
{
    let mut nodes = Vec::new(alloc);
    for (place, grain) in tables.grains.as_slice().iter().enumerate() {
        let Ok(_) = nodes.push(Node::User(GrainId(place as u32 + 1), grain.owner)) else {
            return Err(Memory);
        };
    }
    Ok(nodes)
}

// Adds the nodes of grants.
fn add_grant_nodes(tables: &Tables, nodes: &mut Vec<Node>) -> Result<(), Memory>
    requires { HasNumbers tables.now }
    ensures kept { OnOk result ((at : Node) → Contains nodes.old.items at → Contains nodes.new.items at) }
    ensures all { OnOk result ((num : GrantId) (grant : Grant) → IsGrant tables.now num grant
        → Contains nodes.new.items (the_node_of num grant)) }
{
    for (place, grant) in tables.grants.as_slice().iter().enumerate() {
        let Ok(_) = nodes.push(node_of(GrantId(place as u32 + 1), grant)) else {
            return Err(Memory);
        };
    }
    Ok(())
}

// The numbers of grants.
fn numbers_of(alloc: Global, tables: &Tables) -> Result<Vec<GrantId>, Memory>
    requires { HasNumbers tables.now }
    ensures { IfOk result (λ nums. (num : GrantId)
        → Contains nums.items num ↔ ((grant : Grant) × IsGrant tables.now num grant)) }
{
    let mut nums = Vec::new(alloc);
    for (place, _grant) in tables.grants.as_slice().iter().enumerate() {
        let Ok(_) = nums.push(GrantId(place as u32 + 1)) else {
            return Err(Memory);
        };
    }
    Ok(nums)
}

/// The solution of tables by their edges, in time that is near linear in what is held, needed and shared.
pub fn solve_anew<L: Ledger>(
    alloc: Global,
    tables: &Tables,
    edges: &Edges,
    blank: Blank,
) -> Result<Table, Memory>
    requires name { blank.name ≡ L.name }
    requires parts { blank.parts ≡ L.parts }
    requires some { 0 < blank.parts }
    requires coherent { IsCoherent tables.now }
    requires numbers { HasNumbers tables.now }
    requires index { IsIndexOf tables.now (fed_in edges.now.entries) }
    ensures { IfOk result (λ table. IsSolutionOf tables.now table.entries) }
{
    let mut nodes = owners_of(alloc, tables)?;
    add_grant_nodes(tables, &mut nodes)?;
    let nums = numbers_of(alloc, tables)?;
    let mut table = empty_at(alloc, nodes.as_slice())?;
    let mut waiting = Waiting::new(alloc, nodes.as_slice())?;
    let mut probe = Counted {
        tables,
        steps: Steps::<L>::new(blank),
    };
    solve_region(
        &mut probe,
        &mut table,
        &mut waiting,
        edges,
        nodes.as_slice(),
        nums.as_slice(),
    );
    Ok(table)
}
