//! A table of nodes, each with what it holds.

ghost use Rattle.std.specs.Prelude.{◌≡◌, ◌≢◌, ◌↔◌, ◌+◌, Some, IsSome, OnOk, OnErr};
ghost use Rattle.share_graph.specs.declared.facts.Fact.{Fact};
ghost use Rattle.share_graph.specs.declared.facts.Node.{Node};
ghost use Rattle.least_access.specs.declared.held.Held.{Held};
ghost use Rattle.least_access.specs.Held.{IsIn, room};
ghost use Rattle.least_access.specs.Solved.{held_at, HeldAt};
ghost use Rattle.least_access.specs.Rounds.{total_room};

use crate::held::Held;
use host_base::Memory;
use share_graph::Node;
use std::collections::BTreeMap;

/// What each node holds.
pub type Table = BTreeMap<Node, Held>;

/// What a table has at a node.
pub fn holding(table: &Table, node: Node) -> Held
    ensures facts { (fact : Fact) → IsIn result fact ↔ HeldAt table.now.entries node fact }
    ensures there { (held : Held) → held_at table.now.entries node ≡ Some held → result ≡ held }
{
    match table.get(&node) {
        Some(held) => *held,
        None => Held::none(),
    }
}

/// Sets what a node holds that the table has.
pub fn put(table: &mut Table, node: Node, held: Held)
    requires { IsSome (held_at table.old.entries node) }
    ensures same { held_at table.new.entries node ≡ Some held }
    ensures others { (other : Node) → other ≢ node
        → held_at table.new.entries other ≡ held_at table.old.entries other }
    ensures room { (before : Held) → held_at table.old.entries node ≡ Some before
        → total_room table.new.entries + room before ≡ total_room table.old.entries + room held }
{
    if let Some(place) = table.get_mut(&node) {
        *place = held;
    }
}

/// Sets what a node holds, whether the table has it or not.
pub fn set(table: &mut Table, node: Node, held: Held) -> Result<(), Memory>
    ensures err { OnErr result (table.new.entries ≡ table.old.entries) }
    ensures same { OnOk result (held_at table.new.entries node ≡ Some held) }
    ensures others { OnOk result ((other : Node) → other ≢ node
        → held_at table.new.entries other ≡ held_at table.old.entries other) }
{
    match table.insert(node, held) {
        Ok(_) => Ok(()),
        Err(_) => Err(Memory),
    }
}
