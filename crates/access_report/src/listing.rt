//! Who has access to a grain.

ghost use Rattle.std.specs.Prelude.{◌≡◌, IfOk};
ghost use Rattle.std.specs.List.{filter_map};
ghost use Rattle.region_access.specs.Ties.{IsTiesOf, tied_in};
ghost use Rattle.share_graph.specs.Coherent.{IsCoherent};
ghost use Rattle.least_access.specs.Solved.{IsSolutionOf};
ghost use Rattle.access_report.specs.Entries.{HaveAccess};
ghost use Rattle.access_report.specs.Found.{entry_of as the_entry_of};

use crate::entry::Entry;
use crate::finding::{add_grants, add_owner};
use host_base::{GrainId, Memory};
use least_access::{Held, Solved};
use region_access::{Tie, Ties, tied_by};
use share_graph::{Node, Tables};
use std::alloc::Global;
use std::collections::BTreeMap;
use std::collections::btree_map::Iter;

// The entry of a node, if what is held there has entry.
fn entry_of(node: &Node, held: &Held) -> Option<Entry>
    ensures { result ≡ the_entry_of (node.now, held.now) }
{
    if !held.entry {
        return None;
    }
    Some(Entry {
        node: *node,
        perms: held.perms,
    })
}

// The entries of nodes, in their order.
fn entries_of(alloc: Global, found: Iter<'_, Node, Held>) -> Result<Vec<Entry>, Memory>
    ensures { IfOk result (λ entries. entries.items ≡ filter_map the_entry_of found.entry) }
{
    let mut entries = Vec::new(alloc);
    for (node, held) in found {
        if let Some(entry) = entry_of(node, held) {
            entries.push(entry)?;
        }
    }
    Ok(entries)
}

/// Who has access to a grain: each node on it that holds entry, with exactly the permissions that it holds, in the order of nodes. Only
/// the grain's own grants are looked at.
pub fn who(
    alloc: Global,
    tables: &Tables,
    solved: &Solved,
    ties: &Ties,
    grain: GrainId,
) -> Result<Vec<Entry>, Memory>
    requires coherent { IsCoherent tables.now }
    requires solution { IsSolutionOf tables.now solved.now }
    requires ties { IsTiesOf tables.now (tied_in ties.now.entries) }
    ensures { IfOk result (λ entries. HaveAccess tables.now grain entries.items) }
{
    let mut found = BTreeMap::new(alloc);
    add_owner(&mut found, solved, tables, grain)?;
    let grants = tied_by(ties, Tie::Grain(grain));
    add_grants(&mut found, solved, tables, grain, grants)?;
    entries_of(alloc, found.iter())
}
