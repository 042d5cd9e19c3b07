//! Whether needs are met by what a table has.

ghost use Rattle.std.specs.Prelude.{◌≡◌, ◌↔◌, IsTrue, All};
ghost use Rattle.share_graph.specs.Derivation.{IsMetBy};
ghost use Rattle.least_access.specs.Solved.{HeldAt};

use crate::table::{Table, holding};
use share_graph::{Need, Node, Tables, is_admin};

/// Whether a need is met by what a table has.
pub fn is_met(tables: &Tables, table: &Table, need: Need) -> bool
    ensures { IsTrue result ↔ IsMetBy tables.now (HeldAt table.now.entries) need }
{
    match need {
        Need::TokenValid(num) => holding(table, Node::Grant(num)).entry,
        Need::PermissionsHeld { holder, set } => {
            let held = holding(table, holder);
            held.entry && held.perms.contains(&set)
        }
        Need::UserIsAdmin(num) => is_admin(tables, num),
    }
}

/// Whether each need is met by what a table has.
pub fn are_met(tables: &Tables, table: &Table, needs: &[Need]) -> bool
    ensures { IsTrue result ↔ All (IsMetBy tables.now (HeldAt table.now.entries)) needs.now }
{
    needs.iter().all(|need| is_met(tables, table, *need))
}
