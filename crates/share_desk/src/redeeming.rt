//! Redemption of links.

ghost use Rattle.std.specs.Prelude.{false};
ghost use Rattle.desk_base.specs.Terms.{IsOne, IsSolutionOf, IsWellFormed};
ghost use Rattle.desk_base.specs.Fitting.{RowFits};
ghost use Rattle.desk_base.specs.Outcomes.{IsCarriedExactly};
ghost use Rattle.share_desk.specs.Commands.{Redeem};

use desk_base::{
    Answer, Stop, add_grant, all_access, caller_account, has_entry, has_grant_room, shown_grant,
};
use host_base::{Denial, Digest};
use least_access::Solved;
use share_graph::{
    Caller, Giver, Needs, Node, Refusal, State, Target, by_bearer_token, share_from,
};
use std::alloc::Global;

/// Redeems the token of a link for the caller, who has a share of its grain from then on. Where the caller has one from that
/// link already nothing is to be done. The reply shows the number of the share's grant.
#[tactic(auto, using(crate::proofs::OneRows::redeem_one, crate::proofs::FitRows::redeem_fits))]
pub fn redeem(
    alloc: Global,
    state: &State,
    solved: &Solved,
    caller: &Caller,
    token: &Digest,
) -> Answer
    requires formed { IsWellFormed state.now }
    requires solution { IsSolutionOf state.now.tables solved.now }
    ensures row { IsCarriedExactly (Redeem state.now caller.now token.now) result }
    ensures one { IsOne (Redeem state.now caller.now token.now) }
    ensures fits { RowFits state.now false (Redeem state.now caller.now token.now) }
{
    let account = caller_account(state, caller)?;
    let Some(link) = by_bearer_token(&state.tables, token) else {
        return Err(Stop::Refused(Refusal::Denied(Denial::UnknownKey)));
    };
    if link.target != (Target::Bearer { for_sharing: true }) {
        return Err(Stop::Refused(Refusal::BadParent(link.num)));
    }
    has_entry(&state.tables, solved, Node::Grant(link.num))?;
    if let Some(share) = share_from(&state.tables.grants, link.num, account.num) {
        return Err(Stop::Same(shown_grant(share.num.0)));
    }
    has_grant_room(&state.tables)?;
    let (giver, target) = (Giver::Grant(link.num), Target::User(account.num));
    let needs = Needs::empty(alloc);
    Ok(add_grant(state, link.grain, giver, target, all_access(), needs, None))
}
