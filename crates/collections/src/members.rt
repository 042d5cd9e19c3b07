//! The members of a collection.

ghost use Rattle.std.specs.Prelude.{◌≡◌, IfOk};
ghost use Rattle.std.specs.List.{filter_map};
ghost use Rattle.least_access.specs.Solved.{IsSolutionOf};
ghost use Rattle.region_access.specs.Ties.{IsTiesOf, tied_in};
ghost use Rattle.share_graph.specs.Coherent.{IsCoherent};
ghost use Rattle.collections.specs.Scan.{AreMembers, member_of as the_member_of};

use access_report::{Entry, who};
use host_base::{AccountId, GrainId, Memory};
use least_access::Solved;
use region_access::Ties;
use share_graph::{Node, Tables};
use std::alloc::Global;

// The account that holds an entry, if one does.
fn member_of(entry: &Entry) -> Option<AccountId>
    ensures { result ≡ the_member_of entry.now }
{
    match entry.node {
        Node::User(_, account) => Some(account),
        Node::Grant(_) => None,
    }
}

// The accounts that hold entries, in their order.
fn members_in(alloc: Global, entries: &[Entry]) -> Result<Vec<AccountId>, Memory>
    ensures { IfOk result (λ members. members.items ≡ filter_map the_member_of entries.now) }
{
    let mut members = Vec::new(alloc);
    for entry in entries {
        if let Some(account) = member_of(entry) {
            members.push(account)?;
        }
    }
    Ok(members)
}

// The accounts that hold entry on a grain, by number. Only the grain's own grants are looked at.
pub(crate) fn members_of(
    alloc: Global,
    tables: &Tables,
    solved: &Solved,
    ties: &Ties,
    grain: GrainId,
) -> Result<Vec<AccountId>, Memory>
    requires coherent { IsCoherent tables.now }
    requires solution { IsSolutionOf tables.now solved.now }
    requires ties { IsTiesOf tables.now (tied_in ties.now.entries) }
    ensures { IfOk result (λ members. AreMembers tables.now grain members.items) }
{
    let entries = who(alloc, tables, solved, ties, grain)?;
    members_in(alloc, entries.as_slice())
}
