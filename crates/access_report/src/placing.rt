//! The places at which steps say what a grant asks.

ghost use Rattle.std.specs.Prelude.{◌≡◌, ◌<◌, ℕ, Some, Contains, IfOk, OnOk};
ghost use Rattle.perm_roles.specs.PermSet.{Has};
ghost use Rattle.share_graph.specs.declared.facts.Fact as the_facts;
ghost use Rattle.share_graph.specs.declared.facts.Fact.TheVariants as the_fact;
ghost use Rattle.share_graph.specs.declared.facts.Node as the_node;
ghost use Rattle.share_graph.specs.Derivation.{Asks};
ghost use Rattle.access_report.specs.Telling.{CitesAll, CitesNeeds, IsCited};

use crate::trace::Trace;
use host_base::Memory;
use perm_roles::PermSet;
use share_graph::{Fact, Grant, Need, Node, source_of};
use std::alloc::Global;

// Adds the place at which it is said that a node holds a fact, if it is.
fn add_said(trace: &Trace, node: Node, fact: Fact, from: &mut Vec<u32>) -> Result<(), Memory>
    ensures keeps { OnOk result ((p : ℕ) → Contains from.old.items p → Contains from.new.items p) }
    ensures there { OnOk result (IsCited trace.now from.new.items node fact) }
{
    let Some(place) = trace.place_of(node, fact) else {
        return Ok(());
    };
    from.push(place)?;
    Ok(())
}

// Adds the place for the permission at a position, if a set has it.
fn add_pos(
    trace: &Trace,
    node: Node,
    set: &PermSet,
    pos: u8,
    from: &mut Vec<u32>,
) -> Result<(), Memory>
    requires { pos < 64 }
    ensures keeps { OnOk result ((p : ℕ) → Contains from.old.items p → Contains from.new.items p) }
    ensures there { OnOk result (Has set.now pos
        → IsCited trace.now from.new.items node (the_fact.Perm pos)) }
{
    if !set.has(pos) {
        return Ok(());
    }
    add_said(trace, node, Fact::Perm(pos), from)?;
    Ok(())
}

// Adds the places for each permission of a set.
fn add_set(trace: &Trace, node: Node, set: &PermSet, from: &mut Vec<u32>) -> Result<(), Memory>
    ensures keeps { OnOk result ((p : ℕ) → Contains from.old.items p → Contains from.new.items p) }
    ensures there { OnOk result ((p : ℕ) → Has set.now p
        → IsCited trace.now from.new.items node (the_fact.Perm p)) }
{
    for pos in 0..64u8 {
        add_pos(trace, node, set, pos, from)?;
    }
    Ok(())
}

// Adds the places of what a need asks.
fn add_need(trace: &Trace, need: &Need, from: &mut Vec<u32>) -> Result<(), Memory>
    ensures keeps { OnOk result ((p : ℕ) → Contains from.old.items p → Contains from.new.items p) }
    ensures there { OnOk result ((at : the_node.Node) (asked : the_facts.Fact) → Asks need.now at asked
        → IsCited trace.now from.new.items at asked) }
{
    match *need {
        Need::TokenValid(num) => {
            add_said(trace, Node::Grant(num), Fact::Open, from)?;
            Ok(())
        }
        Need::PermissionsHeld { holder, set } => {
            add_said(trace, holder, Fact::Open, from)?;
            add_set(trace, holder, &set, from)?;
            Ok(())
        }
        Need::UserIsAdmin(_) => Ok(()),
    }
}

// Adds the places of what needs ask.
fn add_needs(trace: &Trace, needs: &[Need], from: &mut Vec<u32>) -> Result<(), Memory>
    ensures keeps { OnOk result ((p : ℕ) → Contains from.old.items p → Contains from.new.items p) }
    ensures there { OnOk result (CitesNeeds trace.now needs.now from.new.items) }
{
    for need in needs {
        add_need(trace, need, from)?;
    }
    Ok(())
}

// Adds the place of what a grant's source holds.
fn add_source(
    trace: &Trace,
    source: Option<Node>,
    fact: Fact,
    from: &mut Vec<u32>,
) -> Result<(), Memory>
    ensures { OnOk result ((at : the_node.Node) → source ≡ Some at
        → IsCited trace.now from.new.items at fact) }
{
    let Some(node) = source else {
        return Ok(());
    };
    add_said(trace, node, fact, from)?;
    Ok(())
}

/// The places of what a grant asks, to pass a fact on: of its source, and then of its needs, in their order.
pub fn places_for(
    alloc: Global,
    trace: &Trace,
    grant: &Grant,
    fact: Fact,
) -> Result<Vec<u32>, Memory>
    ensures { IfOk result (λ from. CitesAll trace.now grant.now fact from.items) }
{
    let mut from = Vec::new(alloc);
    add_source(trace, source_of(grant), fact, &mut from)?;
    add_needs(trace, grant.needs.as_slice(), &mut from)?;
    Ok(from)
}
