//! Which grants of a list the nodes feed.

ghost use Rattle.std.specs.Prelude.{Contains, IfOk, OnOk};
ghost use Rattle.host_base.specs.declared.ids.GrantId as the_id;
ghost use Rattle.share_graph.specs.declared.grants.Grant as the_grant;
ghost use Rattle.share_graph.specs.Rows.{IsGrant};
ghost use Rattle.region_work.specs.Fed.{fed_in};
ghost use Rattle.access_report.specs.Waiting.{AddsFed, AddsToAll, AreWoken, IsFeedOf};

use crate::queue::Queue;
use crate::resting::push_feeders_of;
use host_base::{GrantId, Memory};
use region_work::edges::{Edges, fed_by};
use share_graph::{Node, Tables};
use std::alloc::Global;
use std::collections::BTreeMap;

// Adds a grant to those that a node feeds.
fn add_fed(alloc: Global, fed: &mut Edges, node: Node, num: GrantId) -> Result<(), Memory>
    ensures { OnOk result (AddsFed node num (fed_in fed.old.entries) (fed_in fed.new.entries)) }
{
    if let Some(nums) = fed.get_mut(&node) {
        nums.push(num)?;
        return Ok(());
    }
    let mut nums = Vec::new(alloc);
    nums.push(num)?;
    fed.insert(node, nums)?;
    Ok(())
}

// Adds a grant to those that nodes feed.
fn add_to_all(alloc: Global, fed: &mut Edges, nodes: &[Node], num: GrantId) -> Result<(), Memory>
    ensures { OnOk result (AddsToAll nodes.now num (fed_in fed.old.entries) (fed_in fed.new.entries)) }
{
    for node in nodes {
        add_fed(alloc, fed, *node, num)?;
    }
    Ok(())
}

/// For each node those grants of a list that it feeds.
pub fn feeds_of(alloc: Global, tables: &Tables, grants: &[GrantId]) -> Result<Edges, Memory>
    requires { (num : the_id.GrantId) → Contains grants.now num → (grant : the_grant.Grant)
        × IsGrant tables.now num grant }
    ensures { IfOk result (λ fed. IsFeedOf tables.now grants.now (fed_in fed.entries)) }
{
    let mut fed = BTreeMap::new(alloc);
    for num in grants {
        let mut nodes = Vec::new(alloc);
        push_feeders_of(tables, &mut nodes, *num)?;
        add_to_all(alloc, &mut fed, nodes.as_slice(), *num)?;
    }
    Ok(fed)
}

/// Has the grants wait that a node feeds, if there is one that gained facts.
pub fn wake(fed: &Edges, queue: &mut Queue, gained: Option<Node>) -> Result<(), Memory>
    ensures { OnOk result (AreWoken fed.now.entries gained queue.old queue.new) }
{
    let Some(node) = gained else {
        return Ok(());
    };
    queue.add_all(fed_by(fed, node))?;
    Ok(())
}
