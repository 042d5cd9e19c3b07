//! The grains that an account enters.

ghost use Rattle.std.specs.Prelude.{◌≡◌, IfOk};
ghost use Rattle.std.specs.List.{filter_map};
ghost use Rattle.least_access.specs.Entered.{AreEntered, entered_by as the_entered_by};

use crate::held::Held;
use crate::solving::Solved;
use host_base::{AccountId, GrainId, Memory};
use share_graph::Node;
use std::alloc::Global;
use std::collections::btree_map::Range;

// The grain that is entered at a node, if what is held there has entry.
fn entered_by(node: &Node, held: &Held) -> Option<GrainId>
    ensures { result ≡ the_entered_by (node.now, held.now) }
{
    match *node {
        Node::User(grain, _) if held.entry => Some(grain),
        _ => None,
    }
}

// The grains that are entered by entries of a table, in their order.
fn grains_of(alloc: Global, entries: Range<'_, Node, Held>) -> Result<Vec<GrainId>, Memory>
    ensures { IfOk result (λ grains. grains.items ≡ filter_map the_entered_by entries.entry) }
{
    let mut grains = Vec::new(alloc);
    for (node, held) in entries {
        if let Some(grain) = entered_by(node, held) {
            grains.push(grain)?;
        }
    }
    Ok(grains)
}

impl Solved {
    /// The grains that an account enters, by ascending numbers. Only the account's own nodes are looked at.
    pub fn entered(&self, alloc: Global, account: AccountId) -> Result<Vec<GrainId>, Memory>
        ensures { IfOk result (λ grains. AreEntered self.now account grains.items) }
    {
        let first = Node::User(GrainId(0), account);
        let last = Node::User(GrainId(u32::MAX), account);
        grains_of(alloc, self.table.range(first..=last))
    }
}
