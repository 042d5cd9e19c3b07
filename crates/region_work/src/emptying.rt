//! Tables that have places for nodes, and nothing there.

ghost use Rattle.std.specs.Prelude.{◌≡◌, IfOk, OnOk, OnErr};
ghost use Rattle.region_work.specs.Emptying.{AddsPlace, IsEmptyAt};

use host_base::Memory;
use least_access::Held;
use least_access::table::{Table, set};
use share_graph::Node;
use std::alloc::Global;
use std::collections::BTreeMap;

/// Makes a place for a node, where it has none.
pub fn add_place(table: &mut Table, node: Node) -> Result<(), Memory>
    ensures ok { OnOk result (AddsPlace node table.old.entries table.new.entries) }
    ensures err { OnErr result (table.new.entries ≡ table.old.entries) }
{
    if table.contains_key(&node) {
        return Ok(());
    }
    set(table, node, Held::none())
}

/// A table that has places for the nodes, and nothing there.
pub fn empty_at(alloc: Global, nodes: &[Node]) -> Result<Table, Memory>
    ensures { IfOk result (λ table. IsEmptyAt nodes.now table.entries) }
{
    let mut table = BTreeMap::new(alloc);
    for node in nodes {
        add_place(&mut table, *node)?;
    }
    Ok(table)
}
