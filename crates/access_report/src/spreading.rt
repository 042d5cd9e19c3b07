//! Telling what nodes hold, from what owners hold on.

ghost use Rattle.std.specs.Prelude.{◌≡◌, ◌∷◌, [], true, false, List, Contains, IfOk, IsSome, OnOk};
ghost use Rattle.host_base.specs.declared.ids.GrantId as the_id;
ghost use Rattle.share_graph.specs.declared.facts.Node as the_node;
ghost use Rattle.share_graph.specs.declared.grants.Grant as the_grant;
ghost use Rattle.share_graph.specs.Coherent.{IsCoherent};
ghost use Rattle.share_graph.specs.Rows.{IsGrant};
ghost use Rattle.least_access.specs.Solved.{HeldAt, held_at};
ghost use Rattle.region_work.specs.Emptying.{IsEmptyAt};
ghost use Rattle.region_work.specs.Fed.{fed_in};
ghost use Rattle.access_report.specs.Telling.{IsTold};
ghost use Rattle.access_report.specs.Turns.{AreBegun, HasMore, HasPlace, IsClosedBut, IsClosedBy, IsSpread, IsTurn};
ghost use Rattle.access_report.specs.Waiting.{AddsSite, AddsSites, IsFeedOf};

use crate::feeding::wake;
use crate::joining::join;
use crate::lawful::{is_in, own_of};
use crate::queue::Queue;
use crate::resting::Rest;
use crate::telling::{tell_owned, tell_passed};
use crate::trace::Trace;
use host_base::{GrantId, Memory};
use least_access::passing::passed;
use least_access::table::{Table, holding};
use region_work::edges::Edges;
use region_work::emptying::empty_at;
use share_graph::{Fact, Node, Tables, grant as find_grant, node_of, source_of};
use std::alloc::Global;

/// What was told so far, what nodes hold by that, and the grants that wait for their turn.
#[derive(Drop)]
pub struct Work {
    pub trace: Trace,
    pub table: Table,
    pub queue: Queue,
}

// Has a grant of that number wait, if it has no source.
fn add_site(tables: &Tables, queue: &mut Queue, num: GrantId) -> Result<(), Memory>
    requires { (grant : the_grant.Grant) × IsGrant tables.now num grant }
    ensures { OnOk result (AddsSite tables.now num queue.old queue.new) }
{
    let Some(grant) = find_grant(tables, num) else {
        unreachable!()
    };
    match source_of(grant) {
        Some(_) => Ok(()),
        None => {
            queue.add(num)?;
            Ok(())
        }
    }
}

// Has those of the grants wait that have no source.
fn add_sites(tables: &Tables, queue: &mut Queue, grants: &[GrantId]) -> Result<(), Memory>
    requires { (num : the_id.GrantId) → Contains grants.now num → (grant : the_grant.Grant)
        × IsGrant tables.now num grant }
    ensures { OnOk result (AddsSites tables.now grants.now queue.old queue.new) }
{
    for num in grants {
        add_site(tables, queue, *num)?;
    }
    Ok(())
}

/// Nothing is told, and the grants wait that have no source.
pub fn start(alloc: Global, tables: &Tables, rest: &Rest) -> Result<Work, Memory>
    requires { (num : the_id.GrantId) → Contains rest.now.grants.items num → (grant : the_grant.Grant)
        × IsGrant tables.now num grant }
    ensures empty { IfOk result (λ work. IsEmptyAt rest.now.nodes.items work.table.entries) }
    ensures told { IfOk result (λ work. IsTold tables.now work.trace work.table.entries) }
    ensures listed { IfOk result (λ work. (num : the_id.GrantId) → Contains work.queue num
        → Contains rest.now.grants.items num) }
    ensures closed { IfOk result (λ work.
        IsClosedBut tables.now rest.now.grants.items work.queue work.table.entries) }
{
    let mut queue = Queue::new(alloc);
    add_sites(tables, &mut queue, rest.grants.as_slice())?;
    let table = empty_at(alloc, rest.nodes.as_slice())?;
    Ok(Work {
        trace: Trace::new(alloc),
        table,
        queue,
    })
}

// Tells what a node holds as the owner of a grain.
fn begin_at(
    alloc: Global,
    tables: &Tables,
    fed: &Edges,
    work: &mut Work,
    node: Node,
) -> Result<(), Memory>
    requires coherent { IsCoherent tables.now }
    requires place { IsSome (held_at work.old.table.entries node) }
    requires told { IsTold tables.now work.old.trace work.old.table.entries }
    ensures told { OnOk result (IsTold tables.now work.new.trace work.new.table.entries) }
    ensures begun { OnOk result (AreBegun tables.now fed.now.entries (node ∷ []) work.old.table.entries
        work.old.queue work.new.table.entries work.new.queue) }
{
    let own = own_of(tables, node);
    tell_owned(alloc, &mut work.trace, node, &own)?;
    let gained = join(&mut work.table, node, &own);
    wake(fed, &mut work.queue, gained)?;
    Ok(())
}

/// Tells what nodes hold as the owners of grains.
pub fn begin(
    alloc: Global,
    tables: &Tables,
    fed: &Edges,
    work: &mut Work,
    nodes: &[Node],
) -> Result<(), Memory>
    requires coherent { IsCoherent tables.now }
    requires places { (at : the_node.Node) → Contains nodes.now at
        → IsSome (held_at work.old.table.entries at) }
    requires told { IsTold tables.now work.old.trace work.old.table.entries }
    ensures told { OnOk result (IsTold tables.now work.new.trace work.new.table.entries) }
    ensures begun { OnOk result (AreBegun tables.now fed.now.entries nodes.now work.old.table.entries
        work.old.queue work.new.table.entries work.new.queue) }
{
    for node in nodes {
        begin_at(alloc, tables, fed, work, *node)?;
    }
    Ok(())
}

// Tells what a grant of that number passes on, and gives its node, if that gained something.
fn raise(
    alloc: Global,
    tables: &Tables,
    trace: &mut Trace,
    table: &mut Table,
    num: GrantId,
) -> Result<Option<Node>, Memory>
    requires coherent { IsCoherent tables.now }
    requires row { HasPlace tables.now table.old.entries num }
    requires told { IsTold tables.now trace.old table.old.entries }
    ensures told { OnOk result (IsTold tables.now trace.new table.new.entries) }
    ensures turn { IfOk result (λ gained.
        IsTurn tables.now num table.old.entries table.new.entries gained) }
{
    let Some(grant) = find_grant(tables, num) else {
        unreachable!()
    };
    let node = node_of(num, grant);
    let gained = passed(tables, table, num, grant);
    let before = holding(table, node);
    let Some(raised) = join(table, node, &gained) else {
        return Ok(None);
    };
    tell_passed(alloc, trace, num, grant, &gained, &before)?;
    Ok(Some(raised))
}

// Tells what a grant of that number passes on, and has those wait that may pass on more by it.
fn tell_next(
    alloc: Global,
    tables: &Tables,
    fed: &Edges,
    work: &mut Work,
    num: GrantId,
) -> Result<(), Memory>
    requires coherent { IsCoherent tables.now }
    requires row { HasPlace tables.now work.old.table.entries num }
    requires told { IsTold tables.now work.old.trace work.old.table.entries }
    ensures told { OnOk result (IsTold tables.now work.new.trace work.new.table.entries) }
    ensures spread { OnOk result (IsSpread tables.now fed.now.entries num work.old.table.entries work.old.queue
        work.new.table.entries work.new.queue) }
{
    let gained = raise(alloc, tables, &mut work.trace, &mut work.table, num)?;
    wake(fed, &mut work.queue, gained)?;
    Ok(())
}

/// Tells what the grants pass on that wait, and then those that wait since, until it is told that a node holds a fact, or none waits.
pub fn tell_until(
    alloc: Global,
    tables: &Tables,
    fed: &Edges,
    work: &mut Work,
    node: Node,
    fact: Fact,
) -> Result<bool, Memory>
    requires coherent { IsCoherent tables.now }
    requires fed { (at : the_node.Node) (num : the_id.GrantId) → Contains (fed_in fed.now.entries at) num
        → HasPlace tables.now work.old.table.entries num }
    requires waits { (num : the_id.GrantId) → Contains work.old.queue num
        → HasPlace tables.now work.old.table.entries num }
    requires told { IsTold tables.now work.old.trace work.old.table.entries }
    ensures told { OnOk result (IsTold tables.now work.new.trace work.new.table.entries) }
    ensures more { OnOk result (HasMore work.old.table.entries work.new.table.entries) }
    ensures found { IfOk result (λ found. found ≡ true → HeldAt work.new.table.entries node fact) }
    ensures unfound { IfOk result (λ found. found ≡ false → HeldAt work.new.table.entries node fact → ⊥) }
    ensures closed { IfOk result (λ found. found ≡ false → (grants : List the_id.GrantId)
        → IsFeedOf tables.now grants (fed_in fed.now.entries)
        → IsClosedBut tables.now grants work.old.queue work.old.table.entries
        → IsClosedBy tables.now grants work.new.table.entries work.new.table.entries) }
{
    'turns: while !is_in(&holding(&work.table, node), fact) {
        let Some(num) = work.queue.take() else {
            return Ok(false);
        };
        tell_next(alloc, tables, fed, work, num)?;
    }
    Ok(true)
}
