//! Whether needs are met by what earlier steps say.

ghost use Rattle.std.specs.Prelude.{◌≡◌, ◌↔◌, IsTrue, All};
ghost use Rattle.share_graph.specs.Derivation.{IsMetBy};
ghost use Rattle.access_report.specs.Steps.{Cites};

use crate::citing::{cites, cites_each};
use crate::step::Step;
use share_graph::{Fact, Need, Node, Tables, is_admin};

// Whether a need is met by what steps before a place say, at the places of a list.
fn is_met(tables: &Tables, steps: &[Step], before: usize, from: &[u32], need: Need) -> bool
    ensures { IsTrue result ↔ IsMetBy tables.now (Cites steps.now before from.now) need }
{
    match need {
        Need::TokenValid(num) => cites(steps, before, from, Node::Grant(num), Fact::Open),
        Need::PermissionsHeld { holder, set } => {
            cites(steps, before, from, holder, Fact::Open)
                && cites_each(steps, before, from, holder, &set)
        }
        Need::UserIsAdmin(num) => is_admin(tables, num),
    }
}

/// Whether each need is met by what steps before a place say, at the places of a list.
pub fn are_met(tables: &Tables, steps: &[Step], before: usize, from: &[u32], needs: &[Need]) -> bool
    ensures { IsTrue result ↔ All (IsMetBy tables.now (Cites steps.now before from.now)) needs.now }
{
    for need in needs {
        if !is_met(tables, steps, before, from, *need) {
            return false;
        }
    }
    true
}
