//! Steps that say what owners hold, and what grants pass on.

ghost use Rattle.std.specs.Prelude.{◌⊎◌, OnOk};
ghost use Rattle.share_graph.specs.declared.facts.Fact as the_facts;
ghost use Rattle.share_graph.specs.Nodes.{node_of as the_node_of};
ghost use Rattle.least_access.specs.Held.{IsIn};
ghost use Rattle.access_report.specs.Telling.{IsSaid, IsToldBy, OwnsMore, TellsMore};

use crate::lawful::is_in;
use crate::placing::places_for;
use crate::step::Step;
use crate::trace::Trace;
use host_base::{GrantId, Memory};
use least_access::Held;
use plain_data::List;
use share_graph::{Fact, Grant, Node, node_of};
use std::alloc::Global;

// Adds a step by which a grant passes a fact on.
fn tell(
    alloc: Global,
    trace: &mut Trace,
    num: GrantId,
    grant: &Grant,
    fact: Fact,
) -> Result<(), Memory>
    ensures { OnOk result (IsToldBy num grant.now fact trace.old trace.new) }
{
    let from = places_for(alloc, trace, grant, fact)?;
    let step = Step {
        node: node_of(num, grant),
        fact,
        grant: Some(num),
        from: List::new(from),
    };
    trace.add(step)?;
    Ok(())
}

// Adds that step where the grant passes the fact on, and it wasn't held before.
fn tell_if(
    alloc: Global,
    trace: &mut Trace,
    num: GrantId,
    grant: &Grant,
    passed: &Held,
    before: &Held,
    fact: Fact,
) -> Result<(), Memory>
    ensures adds { OnOk result (TellsMore num grant.now passed.now trace.old trace.new) }
    ensures told { OnOk result (IsIn passed.now fact → IsIn before.now fact
        ⊎ IsSaid trace.new (the_node_of num grant.now) fact) }
{
    if !is_in(passed, fact) || is_in(before, fact) {
        return Ok(());
    }
    tell(alloc, trace, num, grant, fact)?;
    Ok(())
}

/// Adds a step for each fact that a grant passes on and that wasn't held before.
pub fn tell_passed(
    alloc: Global,
    trace: &mut Trace,
    num: GrantId,
    grant: &Grant,
    passed: &Held,
    before: &Held,
) -> Result<(), Memory>
    ensures adds { OnOk result (TellsMore num grant.now passed.now trace.old trace.new) }
    ensures told { OnOk result ((fact : the_facts.Fact) → IsIn passed.now fact → IsIn before.now fact
        ⊎ IsSaid trace.new (the_node_of num grant.now) fact) }
{
    tell_if(alloc, trace, num, grant, passed, before, Fact::Open)?;
    for pos in 0..64u8 {
        tell_if(alloc, trace, num, grant, passed, before, Fact::Perm(pos))?;
    }
    Ok(())
}

// Adds a step that an owner holds a fact, where it does.
fn tell_own(
    alloc: Global,
    trace: &mut Trace,
    node: Node,
    held: &Held,
    fact: Fact,
) -> Result<(), Memory>
    ensures adds { OnOk result (OwnsMore node held.now trace.old trace.new) }
    ensures told { OnOk result (IsIn held.now fact → IsSaid trace.new node fact) }
{
    if !is_in(held, fact) {
        return Ok(());
    }
    let step = Step {
        node,
        fact,
        grant: None,
        from: List::empty(alloc),
    };
    trace.add(step)?;
    Ok(())
}

/// Adds a step for each fact that a node holds as the owner of a grain.
pub fn tell_owned(alloc: Global, trace: &mut Trace, node: Node, held: &Held) -> Result<(), Memory>
    ensures adds { OnOk result (OwnsMore node held.now trace.old trace.new) }
    ensures told { OnOk result ((fact : the_facts.Fact) → IsIn held.now fact
        → IsSaid trace.new node fact) }
{
    tell_own(alloc, trace, node, held, Fact::Open)?;
    for pos in 0..64u8 {
        tell_own(alloc, trace, node, held, Fact::Perm(pos))?;
    }
    Ok(())
}
