//! The edges of a grant that is to be added.

ghost use Rattle.std.specs.Prelude.{◌≡◌, ◌⊎◌, ◌↔◌, Some, Contains, OnOk, OnErr, IfOk};
ghost use Rattle.share_graph.specs.declared.facts.Node.{Node};
ghost use Rattle.share_graph.specs.declared.state.Tables.{Tables};
ghost use Rattle.region_access.specs.Adding.{IsNewIn, HasSameEdges, IsNamed};
ghost use Rattle.region_access.specs.declared.fed_grant.NewGrant.{NewGrant};
ghost use Rattle.region_access.specs.Indexes.{Entries, entries_of, AreIndexesOf, HaveSame, HaveNew};
ghost use Rattle.region_access.specs.NewEdges.{HasNoRow, HasFeeding, HasArrival, HasTies, IsRowOf};
ghost use Rattle.region_access.specs.Ties.{tied_in};
ghost use Rattle.region_work.specs.Fed.{fed_in};

use crate::adding_all::{add_to_all, remove_edges};
use crate::index::Ties;
use crate::indexes::Indexes;
use crate::pushing::push_some;
use crate::tie::Tie;
use crate::tying::ties_of_grant;
use host_base::{GrantId, Memory};
use region_work::edges::Edges;
use region_work::meeting::holder_of;
use share_graph::{Grant, Need, Node, node_of, source_of};
use std::alloc::Global;

/// A grant that is to be added: its number, its node, the nodes that feed it, and what it hangs on.
#[derive(Drop)]
pub struct NewGrant {
    pub num: GrantId,
    pub node: Node,
    pub feeding: Vec<Node>,
    pub ties: Vec<Tie>,
}

// Adds where a new grant goes, and what it hangs on. Where memory runs out, neither is added.
fn add_arrival(
    alloc: Global,
    into: &mut Edges,
    ties: &mut Ties,
    grant: &NewGrant,
) -> Result<(), Memory>
    requires new { IsNewIn grant.now.num (fed_in into.old.entries) }
    requires new_there { IsNewIn grant.now.num (tied_in ties.old.entries) }
    ensures arrival { OnOk result (HasArrival (Some grant.now) (fed_in into.old.entries)
        (fed_in into.new.entries)) }
    ensures ties { OnOk result (HasTies (Some grant.now) (tied_in ties.old.entries)
        (tied_in ties.new.entries)) }
    ensures err { OnErr result (HasSameEdges (fed_in into.old.entries) (fed_in into.new.entries)) }
    ensures err_there { OnErr result (HasSameEdges (tied_in ties.old.entries) (tied_in ties.new.entries)) }
{
    let node = [grant.node];
    add_to_all(alloc, into, &node, grant.num)?;
    match add_to_all(alloc, ties, grant.ties.as_slice(), grant.num) {
        Ok(()) => Ok(()),
        Err(fault) => {
            remove_edges(into, &node, grant.num);
            Err(fault)
        }
    }
}

// Adds the edges of a new grant. Where memory runs out, none is added.
fn add_grant_edges(
    alloc: Global,
    edges: &mut Edges,
    into: &mut Edges,
    ties: &mut Ties,
    grant: &NewGrant,
) -> Result<(), Memory>
    requires new { IsNewIn grant.now.num (fed_in edges.old.entries) }
    requires new_into { IsNewIn grant.now.num (fed_in into.old.entries) }
    requires new_ties { IsNewIn grant.now.num (tied_in ties.old.entries) }
    ensures feeding { OnOk result (HasFeeding (Some grant.now) (fed_in edges.old.entries)
        (fed_in edges.new.entries)) }
    ensures arrival { OnOk result (HasArrival (Some grant.now) (fed_in into.old.entries)
        (fed_in into.new.entries)) }
    ensures ties { OnOk result (HasTies (Some grant.now) (tied_in ties.old.entries)
        (tied_in ties.new.entries)) }
    ensures err { OnErr result (HasSameEdges (fed_in edges.old.entries) (fed_in edges.new.entries)) }
    ensures err_into { OnErr result (HasSameEdges (fed_in into.old.entries) (fed_in into.new.entries)) }
    ensures err_ties { OnErr result (HasSameEdges (tied_in ties.old.entries) (tied_in ties.new.entries)) }
{
    add_to_all(alloc, edges, grant.feeding.as_slice(), grant.num)?;
    match add_arrival(alloc, into, ties, grant) {
        Ok(()) => Ok(()),
        Err(fault) => {
            remove_edges(edges, grant.feeding.as_slice(), grant.num);
            Err(fault)
        }
    }
}

/// Adds a new grant, if there is one, to the indexes. Where memory runs out, each has what it had.
pub fn add_new(alloc: Global, indexes: &mut Indexes, added: &Option<NewGrant>) -> Result<(), Memory>
    requires { (t : Tables) × AreIndexesOf t (entries_of indexes.old) × HasNoRow t added.now }
    ensures ok { OnOk result (HaveNew added.now (entries_of indexes.old) (entries_of indexes.new)) }
    ensures err { OnErr result (HaveSame (entries_of indexes.old) (entries_of indexes.new)) }
{
    match added {
        Some(grant) => add_grant_edges(
            alloc,
            &mut indexes.edges,
            &mut indexes.arrivals,
            &mut indexes.ties,
            grant,
        ),
        None => Ok(()),
    }
}

/// Takes a new grant, if there is one, out of the indexes.
pub fn remove_new(indexes: &mut Indexes, added: &Option<NewGrant>)
    ensures { (base : Entries) → HaveNew added.now base (entries_of indexes.old)
        → HaveSame base (entries_of indexes.new) }
{
    if let Some(grant) = added {
        remove_edges(&mut indexes.edges, grant.feeding.as_slice(), grant.num);
        remove_edges(&mut indexes.arrivals, &[grant.node], grant.num);
        remove_edges(&mut indexes.ties, grant.ties.as_slice(), grant.num);
    }
}

// Adds the nodes that needs name.
fn add_holders(nodes: &mut Vec<Node>, needs: &[Need]) -> Result<(), Memory>
    ensures { OnOk result ((at : Node)
        → Contains nodes.new.items at ↔ (Contains nodes.old.items at ⊎ IsNamed needs.now at)) }
{
    for need in needs {
        push_some(nodes, holder_of(need))?;
    }
    Ok(())
}

/// A grant that is to be added, with the nodes that feed it and what it hangs on.
pub fn new_grant(alloc: Global, grant: &Grant) -> Result<NewGrant, Memory>
    ensures { IfOk result (λ added. (added.num ≡ grant.now.num) × IsRowOf added grant.now) }
{
    let mut feeding = Vec::new(alloc);
    push_some(&mut feeding, source_of(grant))?;
    add_holders(&mut feeding, grant.needs.as_slice())?;
    Ok(NewGrant {
        num: grant.num,
        node: node_of(grant.num, grant),
        feeding,
        ties: ties_of_grant(alloc, grant)?,
    })
}
