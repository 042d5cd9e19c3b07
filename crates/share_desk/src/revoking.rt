//! Revocation of grants.

ghost use Rattle.std.specs.Prelude.{◌↔◌, IsTrue, false};
ghost use Rattle.desk_base.specs.Terms.{IsChecked, IsGrant, IsOne, IsRootMaker, IsWellFormed};
ghost use Rattle.share_graph.specs.Known.{HasGrant};
ghost use Rattle.desk_base.specs.Fitting.{RowFits};
ghost use Rattle.desk_base.specs.Outcomes.{IsCarriedExactly};
ghost use Rattle.share_desk.specs.Commands.{Revoke};
ghost use Rattle.share_desk.specs.Rows.{IsOwnerOf, MayRevoke};

use desk_base::{Answer, NOTHING, Outcome, Stop, caller_account, known_grant};
use host_base::{AccountId, GrainId, GrantId};
use share_graph::{
    Caller, Event, Grant, Refusal, State, Tables, Target, grain as find_grain, root_maker,
};

// Whether an account owns a grain.
fn is_owner_of(tables: &Tables, num: GrainId, account: AccountId) -> bool
    ensures { IsTrue result ↔ IsOwnerOf tables.now num account }
{
    match find_grain(tables, num) {
        Some(grain) => grain.owner == account,
        None => false,
    }
}

// Whether an account gave first on the way of a grant.
fn is_root_maker(tables: &Tables, num: GrantId, account: AccountId) -> bool
    requires checked { IsChecked tables.now }
    requires there { HasGrant tables.now num }
    ensures { IsTrue result ↔ IsRootMaker tables.now num account }
{
    root_maker(tables, num) == account
}

/// Whether an account may take a grant back: it owns the grain, gave first on the way of the grant, or is whom it goes to.
pub fn may_revoke(tables: &Tables, account: AccountId, num: GrantId, grant: &Grant) -> bool
    requires checked { IsChecked tables.now }
    requires there { IsGrant tables.now num grant.now }
    ensures { IsTrue result ↔ MayRevoke tables.now account num grant.now }
{
    is_owner_of(tables, grant.grain, account)
        || is_root_maker(tables, num, account)
        || grant.target == Target::User(account)
}

/// Revokes a grant, which the owner of its grain, its root maker and its recipient may. Where it is revoked nothing is to be
/// done.
#[tactic(auto, using(crate::proofs::OneRows::revoke_one, crate::proofs::FitRows::revoke_fits))]
pub fn revoke(state: &State, caller: &Caller, num: GrantId) -> Answer
    requires { IsWellFormed state.now }
    ensures row { IsCarriedExactly (Revoke state.now caller.now num) result }
    ensures one { IsOne (Revoke state.now caller.now num) }
    ensures fits { RowFits state.now false (Revoke state.now caller.now num) }
{
    let account = caller_account(state, caller)?;
    let grant = known_grant(&state.tables, num)?;
    if !may_revoke(&state.tables, account.num, num, grant) {
        return Err(Stop::Refused(Refusal::NotGiver(num)));
    }
    if grant.revoked {
        return Err(Stop::Same(NOTHING));
    }
    Ok(Outcome::Change(Event::GrantRevoked(num), NOTHING))
}
