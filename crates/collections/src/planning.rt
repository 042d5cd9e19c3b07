//! Which members of a collection have no share yet.

ghost use Rattle.std.specs.Prelude.{◌≡◌, ◌↔◌, IfOk, IsTrue};
ghost use Rattle.desk_base.specs.Outcomes.{IsAnswered};
ghost use Rattle.desk_base.specs.Terms.{IsOne, IsWellFormed};
ghost use Rattle.live_access.specs.Kept.{IsSolvedFor};
ghost use Rattle.region_access.specs.Arriving.{IsArrivalsOf};
ghost use Rattle.region_work.specs.Fed.{fed_in};
ghost use Rattle.collections.specs.Commands.{Missing};
ghost use Rattle.collections.specs.Members.{HasShare, IsPlan, IsPlanFor, PassesAsMember};
ghost use Rattle.collections.specs.Scan.{AreMembers};

use crate::linking::link_of;
use crate::members::members_of;
use crate::sharing::has_share;
use desk_base::caller_on;
use host_base::{AccountId, GrainId, GrantId, Memory};
use live_access::Solution;
use plain_data::List;
use region_work::edges::Edges;
use share_graph::{Caller, DeskFault, Grant, State, Tables};
use std::alloc::Global;

/// Whether a member isn't the curator, and has no share.
pub(crate) fn is_left(
    tables: &Tables,
    arrivals: &Edges,
    collection: GrainId,
    link: &Grant,
    curator: AccountId,
    member: AccountId,
) -> bool
    requires { IsArrivalsOf tables.now (fed_in arrivals.now.entries) }
    ensures { IsTrue result ↔ ((member ≡ curator → ⊥)
        × (HasShare tables.now collection link.now.num link.now member → ⊥)) }
{
    member != curator && !has_share(tables, arrivals, collection, link, member)
}

// The members but the curator that have no share, in their order.
fn plan_of(
    alloc: Global,
    tables: &Tables,
    arrivals: &Edges,
    collection: GrainId,
    link: &Grant,
    curator: AccountId,
    members: &[AccountId],
) -> Result<List<AccountId>, Memory>
    requires arrivals { IsArrivalsOf tables.now (fed_in arrivals.now.entries) }
    requires members { AreMembers tables.now collection members.now }
    ensures { IfOk result (λ plan. IsPlan tables.now collection link.now.num link.now curator plan) }
{
    let mut plan = Vec::new(alloc);
    for member in members {
        if is_left(tables, arrivals, collection, link, curator, *member) {
            plan.push(*member)?;
        }
    }
    Ok(List::new(plan))
}

/// The members of a collection to whom its curator, the caller, has not given the share that a link of its own asks for: the accounts but
/// the curator's that hold entry on the collection, by number. Only the grants on the collection are looked at, and for each member
/// those that go to it on the listed grain. Refused where the caller is no enabled account or has no access to the collection, and where
/// the link isn't there, goes to no bearer or was given by another.
pub fn missing(
    alloc: Global,
    state: &State,
    solution: &Solution,
    caller: &Caller,
    collection: GrainId,
    link: GrantId,
) -> Result<List<AccountId>, DeskFault>
    requires formed { IsWellFormed state.now }
    requires solved { IsSolvedFor state.now.tables solution.now }
    ensures row { IsAnswered (Missing state.now caller.now collection link)
        (λ plan. IsPlanFor state.now caller.now collection link plan) result }
    ensures one { IsOne (Missing state.now caller.now collection link) }

    // What a member's share passes on.
    ensures law { PassesAsMember state.now.tables }
{
    let (tables, solved) = (&state.tables, solution.solved());
    let curator = match caller_on(state, solved, caller, collection) {
        Ok(account) => account.num,
        Err(refusal) => return Err(DeskFault::Refused(refusal)),
    };
    let link = match link_of(tables, curator, link) {
        Ok(link) => link,
        Err(refusal) => return Err(DeskFault::Refused(refusal)),
    };
    let members = members_of(alloc, tables, solved, solution.ties(), collection)?;
    let (arrivals, members) = (solution.arrivals(), members.as_slice());
    let plan = plan_of(alloc, tables, arrivals, collection, link, curator, members)?;
    Ok(plan)
}
