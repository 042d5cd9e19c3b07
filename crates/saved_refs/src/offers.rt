//! Choosing of what is offered.

ghost use Rattle.std.specs.Prelude.{◌≡◌, ◌↔◌, IfOk, IsTrue, true};
ghost use Rattle.desk_base.specs.Terms.{HasAccount, IsOne, IsSolutionOf, IsWellFormed};
ghost use Rattle.desk_base.specs.Fitting.{RowFits};
ghost use Rattle.desk_base.specs.Outcomes.{IsCarriedExactly, IsCarried};
ghost use Rattle.saved_refs.specs.Commands.{Choose, ChooseGrain, ChooseSite};
ghost use Rattle.saved_refs.specs.Rows.{IsMatching, admin_needs, no_role as the_no_role};

use desk_base::{Answer, Stop, caller_on, draft_grant, given_role, has_entry, has_grant_room};
use host_base::{AccountId, GrainId};
use least_access::Solved;
use perm_roles::{Assignment, Base, PermSet};
use powerbox_match::{Query, matches};
use share_graph::{
    Caller, Giver, Need, Needs, Node, Offer, Refusal, State, Tables, Target, app_of, has_grain,
};
use std::alloc::{AllocError, Global};

// Whether what a grain's application offers matches.
fn has_match(tables: &Tables, num: GrainId, query: &Query) -> bool
    ensures { IsTrue result ↔ IsMatching tables.now num query.now }
{
    match app_of(tables, num) {
        None => false,
        Some(app) => matches(query, app.manifest.match_requests.as_slice()).is_some(),
    }
}

fn no_role() -> Assignment
    ensures { result ≡ the_no_role }
{
    Assignment {
        base: Base::NoRole,
        add: PermSet::empty(),
        remove: PermSet::empty(),
    }
}

// That an account is an admin, where that is needed.
fn admin_needs(alloc: Global, admin_only: bool, account: AccountId) -> Result<Needs, AllocError>
    ensures { IfOk result (λ needs. needs ≡ admin_needs admin_only account) }
{
    let mut needs = Needs::empty(alloc);
    if admin_only {
        needs.push(Need::UserIsAdmin(account))?;
        return Ok(needs);
    }
    Ok(needs)
}

// Chooses another grain, of which an account gives what the assignment says.
fn choose_grain(
    alloc: Global,
    state: &State,
    solved: &Solved,
    num: GrainId,
    other: GrainId,
    query: &Query,
    assignment: &Assignment,
    by: AccountId,
) -> Answer
    requires formed { IsWellFormed state.now }
    requires solution { IsSolutionOf state.now.tables solved.now }
    requires there { HasAccount state.now.tables by }
    ensures { IsCarriedExactly (ChooseGrain state.now num other query.now assignment.now by) result }
{
    if other == num {
        return Err(Stop::Refused(Refusal::NoSuchOffer));
    }
    if !has_grain(&state.tables, other) {
        return Err(Stop::Refused(Refusal::NoSuchOffer));
    }
    has_entry(&state.tables, solved, Node::User(other, by))?;
    if !has_match(&state.tables, other, query) {
        return Err(Stop::Refused(Refusal::NoMatch));
    }
    given_role(&state.tables, other, assignment)?;
    has_grant_room(&state.tables)?;
    let (giver, target) = (Giver::Account(by), Target::Claim(num));
    let needs = Needs::empty(alloc);
    Ok(draft_grant(state, other, giver, target, *assignment, needs, None))
}

// Chooses an item of a site, where the sites have it; they may offer it to admins alone.
fn choose_site(
    alloc: Global,
    state: &State,
    num: GrainId,
    tag: u64,
    item: u32,
    found: Option<bool>,
    by: AccountId,
) -> Answer
    requires { IsWellFormed state.now }
    ensures { IsCarried (ChooseSite state.now num tag item found by) result }
{
    let Some(admin_only) = found else {
        return Err(Stop::Refused(Refusal::NoSuchOffer));
    };
    has_grant_room(&state.tables)?;
    let (giver, target) = (Giver::Site { by, tag, item }, Target::Claim(num));
    let needs = admin_needs(alloc, admin_only, by)?;
    Ok(draft_grant(state, num, giver, target, no_role(), needs, None))
}

/// Chooses what a grain, to which the caller has access, may claim by a token, which is drawn: another grain of which the caller
/// gives what the assignment says, where its application's offers match the query, or an item of a site, where the sites
/// have it. The reply shows the number of the grant.
#[tactic(auto, using(crate::proofs::OneRows::choose_one, crate::proofs::FitRows::choose_fits))]
pub fn choose(
    alloc: Global,
    state: &State,
    solved: &Solved,
    caller: &Caller,
    num: GrainId,
    offer: &Offer,
    query: &Query,
    assignment: &Assignment,
    found: Option<bool>,
) -> Answer
    requires formed { IsWellFormed state.now }
    requires solution { IsSolutionOf state.now.tables solved.now }
    ensures row { IsCarried
        (Choose state.now caller.now num offer.now query.now assignment.now found) result }
    ensures one { IsOne (Choose state.now caller.now num offer.now query.now assignment.now found) }
    ensures fits { RowFits state.now true
        (Choose state.now caller.now num offer.now query.now assignment.now found) }
{
    let account = caller_on(state, solved, caller, num)?;
    let by = account.num;
    match *offer {
        Offer::Grain(other) => {
            choose_grain(alloc, state, solved, num, other, query, assignment, by)
        }
        Offer::Site { tag, item } => choose_site(alloc, state, num, tag, item, found, by),
    }
}
