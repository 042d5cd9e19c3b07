//! What earlier steps say.

ghost use Rattle.std.specs.Prelude.{◌≡◌, ◌↔◌, ℕ, IsTrue, slice_get};
ghost use Rattle.std.specs.Option.{option_copied};
ghost use Rattle.perm_roles.specs.PermSet.{Has};
ghost use Rattle.share_graph.specs.declared.facts.Fact.TheVariants as the_fact;
ghost use Rattle.access_report.specs.Steps.{Cites, SaysBefore};

use crate::step::Step;
use perm_roles::PermSet;
use share_graph::{Fact, Node};

// The step at a place.
fn step_at(steps: &[Step], place: usize) -> Option<&Step>
    ensures { option_copied result ≡ slice_get steps.now place }
{
    steps.get(place)
}

/// Whether a step says that a node holds a fact.
pub fn says(step: &Step, node: Node, fact: Fact) -> bool
    ensures { IsTrue result ↔ ((step.now.node ≡ node) × (step.now.fact ≡ fact)) }
{
    step.node == node && step.fact == fact
}

// Whether the step at a place, which stands before another place, says that a node holds a fact.
fn says_before(steps: &[Step], before: usize, place: u32, node: Node, fact: Fact) -> bool
    ensures { IsTrue result ↔ SaysBefore steps.now before place node fact }
{
    if place as usize >= before {
        return false;
    }
    match step_at(steps, place as usize) {
        Some(step) => says(step, node, fact),
        None => false,
    }
}

/// Whether a step before a place, at one of the places of a list, says that a node holds a fact.
pub fn cites(steps: &[Step], before: usize, from: &[u32], node: Node, fact: Fact) -> bool
    ensures { IsTrue result ↔ Cites steps.now before from.now node fact }
{
    from.iter()
        .any(|place| says_before(steps, before, *place, node, fact))
}

/// Whether such steps say that a node holds each permission of a set.
pub fn cites_each(steps: &[Step], before: usize, from: &[u32], node: Node, set: &PermSet) -> bool
    ensures { IsTrue result ↔ ((p : ℕ) → Has set.now p
        → Cites steps.now before from.now node (the_fact.Perm p)) }
{
    for pos in 0..64u8 {
        if set.has(pos) && !cites(steps, before, from, node, Fact::Perm(pos)) {
            return false;
        }
    }
    true
}
