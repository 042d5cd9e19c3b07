//! Needs that are met by what a node gained.

ghost use Rattle.std.specs.Prelude.{◌≡◌, ◌↔◌, Some, Contains, IsTrue};
ghost use Rattle.share_graph.specs.declared.grants.Need.{Need};
ghost use Rattle.region_work.specs.Moves.{Becomes};
ghost use Rattle.region_work.specs.Owed.{meets as the_meets, holder_of as the_holder_of};

use crate::gain::Gain;
use least_access::Held;
use share_graph::{Need, Node};

/// The node that a need names.
pub fn holder_of(need: &Need) -> Option<Node>
    ensures { result ≡ the_holder_of need.now }
{
    match *need {
        Need::TokenValid(num) => Some(Node::Grant(num)),
        Need::PermissionsHeld { holder, .. } => Some(holder),
        Need::UserIsAdmin(_) => None,
    }
}

/// Whether what a node holds is all that a need asks of it.
fn meets(held: &Held, need: &Need) -> bool
    ensures { result ≡ the_meets held.now need.now }
{
    match *need {
        Need::TokenValid(_) => held.entry,
        Need::PermissionsHeld { set, .. } => held.entry && held.perms.contains(&set),
        Need::UserIsAdmin(_) => true,
    }
}

/// Whether it is a node.
pub fn is_node(place: Option<Node>, node: Node) -> bool
    ensures { IsTrue result ↔ (place ≡ Some node) }
{
    match place {
        Some(other) => other == node,
        None => false,
    }
}

/// Whether a need is met since a node gained a fact.
fn becomes_met(need: &Need, gain: &Gain) -> bool
    ensures { IsTrue result ↔ Becomes gain.now need.now }
{
    is_node(holder_of(need), gain.node) && !meets(&gain.before, need) && meets(&gain.after, need)
}

/// Whether any of the needs is met since a node gained a fact.
pub fn any_becomes_met(needs: &[Need], gain: &Gain) -> bool
    ensures { IsTrue result ↔ ((need : Need) × Contains needs.now need × Becomes gain.now need) }
{
    needs.iter().any(|need| becomes_met(need, gain))
}
