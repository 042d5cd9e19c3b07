//! Dropping the places of nodes that hold nothing.

ghost use Rattle.std.specs.Prelude.{◌≡◌, ◌≢◌, Contains};
ghost use Rattle.share_graph.specs.declared.facts.Node.{Node};
ghost use Rattle.least_access.specs.Solved.{held_at};
ghost use Rattle.region_access.specs.Room.{HasEmptyPlace, HasSameFacts};

use least_access::Held;
use least_access::table::{Table, holding};
use share_graph::Node;

// Drops the place of a node, where nothing is held.
fn drop_place(table: &mut Table, node: Node)
    ensures own { HasEmptyPlace table.new.entries node → ⊥ }
    ensures facts { HasSameFacts table.old.entries table.new.entries }
    ensures others { (at : Node) → at ≢ node → held_at table.new.entries at ≡ held_at table.old.entries at }
{
    if holding(table, node) == Held::none() {
        table.remove(&node);
    }
}

/// Drops the places of those nodes that hold nothing. No fact comes or goes by it.
pub fn drop_empty(table: &mut Table, nodes: &[Node])
    ensures facts { HasSameFacts table.old.entries table.new.entries }
    ensures dropped { (at : Node) → Contains nodes.now at → HasEmptyPlace table.new.entries at → ⊥ }
{
    for node in nodes {
        drop_place(table, *node);
    }
}
