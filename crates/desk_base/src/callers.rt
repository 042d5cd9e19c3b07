//! Who calls, and whether it may enter.

ghost use Rattle.std.specs.Prelude.{◌≡◌, MatchResult};
ghost use Rattle.share_graph.specs.declared.facts.Fact.TheVariants.{Open};
ghost use Rattle.share_graph.specs.declared.refusal.Refusal.TheVariants.{Denied};
ghost use Rattle.desk_base.specs.Terms.{Holds, IsChecked, IsNode, IsSolutionOf, IsWellFormed, LacksEntry};
ghost use Rattle.desk_base.specs.Calling.{IsCaller, IsNoCaller, IsAdminCaller, IsNoAdminCaller, IsCallerOn, IsNoCallerOn};
ghost use Rattle.desk_base.specs.Passing.{Passes, Fails};
ghost use Rattle.desk_base.specs.Wording as wording;

use crate::known::known_grain;
use host_base::{Denial, Digest, GrainId};
use least_access::Solved;
use share_graph::{
    Account, Caller, Grant, Node, Refusal, State, Tables, by_bearer_token, by_login,
};

/// The digest of the secret by which a caller is known.
pub fn secret_of(caller: &Caller) -> Digest
    ensures { result ≡ wording.secret_of caller.now }
{
    match *caller {
        Caller::Login(digest)
        | Caller::Bearer(digest)
        | Caller::Run(digest)
        | Caller::Either(digest) => digest,
    }
}

/// The account of a caller, which is enabled.
pub fn caller_account<'a>(state: &'a State, caller: &Caller) -> Result<&'a Account, Refusal>
    ensures { let secret = wording.secret_of caller.now in
        MatchResult result (λ account. IsCaller state.now secret account.now) (IsNoCaller state.now secret) }
{
    let Some(account) = by_login(&state.tables, &secret_of(caller)) else {
        return Err(Refusal::Denied(Denial::UnknownKey));
    };
    if !account.enabled {
        return Err(Refusal::Denied(Denial::AccountDisabled(account.num)));
    }
    Ok(account)
}

/// The account of a caller who is an admin.
pub fn caller_admin<'a>(state: &'a State, caller: &Caller) -> Result<&'a Account, Refusal>
    ensures { let secret = wording.secret_of caller.now in
        MatchResult result (λ account. IsAdminCaller state.now secret account.now) (IsNoAdminCaller state.now secret) }
{
    let account = caller_account(state, caller)?;
    if !account.admin {
        return Err(Refusal::NotAdmin);
    }
    Ok(account)
}

/// Whether a node holds entry; else the first step that is missing for it.
pub fn has_entry(tables: &Tables, solved: &Solved, node: Node) -> Result<(), Refusal>
    requires solution { IsSolutionOf tables.now solved.now }
    requires checked { IsChecked tables.now }
    requires there { IsNode tables.now node }
    ensures { MatchResult result (λ _. Holds tables.now node Open) (LacksEntry Denied tables.now node) }
{
    match solved.why_not(tables, node) {
        None => Ok(()),
        Some(reason) => Err(Refusal::Denied(reason)),
    }
}

/// The account of a caller, which has access to the grain of a number.
pub fn caller_on<'a>(
    state: &'a State,
    solved: &Solved,
    caller: &Caller,
    num: GrainId,
) -> Result<&'a Account, Refusal>
    requires formed { IsWellFormed state.now }
    requires solution { IsSolutionOf state.now.tables solved.now }
    ensures { let secret = wording.secret_of caller.now in
        MatchResult result (λ account. IsCallerOn state.now secret num account.now)
        (IsNoCallerOn state.now secret num) }
{
    let account = caller_account(state, caller)?;
    known_grain(&state.tables, num)?;
    has_entry(&state.tables, solved, Node::User(num, account.num))?;
    Ok(account)
}

/// The grant whose token the caller bears, which holds entry.
pub fn caller_grant<'a>(
    state: &'a State,
    solved: &Solved,
    caller: &Caller,
) -> Result<&'a Grant, Refusal>
    requires formed { IsWellFormed state.now }
    requires solution { IsSolutionOf state.now.tables solved.now }
    ensures { let Word = wording.by_bearer state.now caller.now in
        MatchResult result (λ grant. Passes Word grant.now) (Fails Word) }
{
    let Some(grant) = by_bearer_token(&state.tables, &secret_of(caller)) else {
        return Err(Refusal::Denied(Denial::UnknownKey));
    };
    has_entry(&state.tables, solved, Node::Grant(grant.num))?;
    Ok(grant)
}
