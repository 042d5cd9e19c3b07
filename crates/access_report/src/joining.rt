//! Adding facts at a node of a table.

ghost use Rattle.std.specs.Prelude.{IsSome};
ghost use Rattle.least_access.specs.Solved.{held_at};
ghost use Rattle.access_report.specs.Turns.{IsJoined};

use least_access::Held;
use least_access::table::{Table, holding, put};
use share_graph::Node;

/// Adds facts at a node, and gives the node, if it didn't hold them all.
pub fn join(table: &mut Table, node: Node, held: &Held) -> Option<Node>
    requires { IsSome (held_at table.old.entries node) }
    ensures { IsJoined node held.now table.old.entries table.new.entries result }
{
    let before = holding(table, node);
    let after = before.union(held);
    if after == before {
        return None;
    }
    put(table, node, after);
    Some(node)
}
