//! Clearing nodes, and putting back what they held.

ghost use Rattle.std.specs.Prelude.{◌≡◌, ◌≢◌, ◌≤◌, ◌+◌, [], AllPairs, Contains, IsSome, length, vec_len, vec_capacity};
ghost use Rattle.share_graph.specs.declared.facts.Node.{Node};
ghost use Rattle.least_access.specs.Solved.{Table, held_at};
ghost use Rattle.region_access.specs.Clearing.{IsWhatWas};
ghost use Rattle.region_work.specs.Prepared.{Clears};

use least_access::Held;
use least_access::table::{Table, holding, put};
use share_graph::Node;

/// Clears nodes that have places. What they held goes into a list that has the room.
pub fn clear(table: &mut Table, nodes: &[Node], before: &mut Vec<Held>)
    requires once { AllPairs (λ (a : Node) (b : Node). a ≢ b) nodes.now }
    requires places { (at : Node) → Contains nodes.now at → IsSome (held_at table.old.entries at) }
    requires empty { before.old.items ≡ [] }
    requires room { length nodes.now ≤ vec_capacity before.old }
    ensures clears { Clears nodes.now table.old.entries table.new.entries }
    ensures before { IsWhatWas table.old.entries nodes.now before.new.items }
{
    for node in nodes {
        before.push_reserved(holding(table, *node));
        put(table, *node, Held::none());
    }
}

/// Puts back what cleared nodes held: the table then is what it was.
pub fn undo(table: &mut Table, nodes: &[Node], before: &[Held])
    requires long { length before.now ≡ length nodes.now }
    requires places { (at : Node) → Contains nodes.now at → IsSome (held_at table.old.entries at) }
    ensures { (start : Table) → Clears nodes.now start table.old.entries
        → IsWhatWas start nodes.now before.now → (at : Node)
        → held_at table.new.entries at ≡ held_at start at }
{
    for (place, node) in nodes.iter().enumerate() {
        put(table, *node, before[place]);
    }
}
