//! Claiming of what was chosen.

ghost use Rattle.std.specs.Prelude.{◌↔◌, IsTrue, MatchResult, false};
ghost use Rattle.desk_base.specs.Terms.{IsOne, IsSolutionOf, IsWellFormed};
ghost use Rattle.desk_base.specs.Fitting.{RowFits};
ghost use Rattle.desk_base.specs.Outcomes.{IsCarried};
ghost use Rattle.saved_refs.specs.Calling.{IsNoClaimBy};
ghost use Rattle.saved_refs.specs.Commands.{Claim};
ghost use Rattle.saved_refs.specs.Rows.{IsClaim, IsClaimed};

use crate::runs::{caller_run, next_handle};
use desk_base::{
    Answer, NOTHING, Outcome, Stop, all_access, has_entry, has_grant_room, new_grant, set_fits,
};
use host_base::{Denial, Digest, GrainId, GrantId};
use least_access::Solved;
use perm_roles::PermSet;
use share_graph::{
    Caller, Event, Giver, Grant, Made, Need, Needs, Node, Refusal, State, Tables, Target,
    by_grant_token, given_from, root_maker,
};
use std::alloc::Global;

// The grant of a token, which is for the grain to claim.
fn own_claim<'a>(state: &'a State, token: &Digest, holder: GrainId) -> Result<&'a Grant, Refusal>
    requires { IsWellFormed state.now }
    ensures { MatchResult result (λ grant. IsClaim state.now.tables token.now (grant.now, holder))
        (IsNoClaimBy state.now.tables token.now holder) }
{
    let Some(grant) = by_grant_token(&state.tables, token) else {
        return Err(Refusal::Denied(Denial::UnknownKey));
    };
    let Target::Claim(named) = grant.target else {
        return Err(Refusal::Denied(Denial::UnknownKey));
    };
    if named != holder {
        return Err(Refusal::Denied(Denial::NotHolder(named)));
    }
    Ok(grant)
}

// Whether some grant was given from a grant.
fn is_claimed(tables: &Tables, num: GrantId) -> bool
    ensures { IsTrue result ↔ IsClaimed tables.now num }
{
    match given_from(&tables.grants, num) {
        None => false,
        Some(_) => true,
    }
}

/// Claims, by its token, what was chosen for the grain of the run that calls: the grain has it from then on, and the run a handle
/// to it, as long as whoever gave it first holds the set on the grain. The reply shows the numbers of the grant and of the handle.
#[tactic(auto, using(crate::proofs::OneRows::claim_one, crate::proofs::FitRows::claim_fits))]
pub fn claim(
    alloc: Global,
    state: &State,
    solved: &Solved,
    caller: &Caller,
    token: &Digest,
    set: &PermSet,
) -> Answer
    requires formed { IsWellFormed state.now }
    requires solution { IsSolutionOf state.now.tables solved.now }
    ensures row { IsCarried (Claim state.now caller.now token.now set.now) result }
    ensures one { IsOne (Claim state.now caller.now token.now set.now) }
    ensures fits { RowFits state.now false (Claim state.now caller.now token.now set.now) }
{
    let run = caller_run(state, caller)?;
    let chosen = own_claim(state, token, run.grain)?;
    if is_claimed(&state.tables, chosen.num) {
        return Err(Stop::Refused(Refusal::AlreadyClaimed(chosen.num)));
    }
    has_entry(&state.tables, solved, Node::Grant(chosen.num))?;
    if !set_fits(&state.tables, run.grain, set) {
        return Err(Stop::Refused(Refusal::LongSet));
    }
    let maker = root_maker(&state.tables, chosen.num);
    has_grant_room(&state.tables)?;
    let place = state.tables.grants.as_slice().len() as u32 + 1;
    let handle = next_handle(state, run.num, GrantId(place))?;
    let need = Need::PermissionsHeld {
        holder: Node::User(run.grain, maker),
        set: *set,
    };
    let mut needs = Needs::empty(alloc);
    needs.push(need)?;
    let (giver, target) = (Giver::Grant(chosen.num), Target::Grain(run.grain));
    let grant = new_grant(
        state,
        chosen.grain,
        giver,
        target,
        all_access(),
        needs,
        None,
        None,
    );
    let made = Made {
        grant: Some(place),
        handle: Some(handle.num),
        ..NOTHING
    };
    Ok(Outcome::Change(Event::Claimed(grant, handle), made))
}
