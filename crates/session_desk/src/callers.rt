//! Who calls: an account or a bearer, and whoever acts on a grain.

ghost use Rattle.std.specs.Prelude.{◌↔◌, IsTrue, MatchResult};
ghost use Rattle.share_graph.specs.Callers.{IsSomeLogin};
ghost use Rattle.desk_base.specs.Terms.{IsSolutionOf, IsWellFormed};
ghost use Rattle.desk_base.specs.Wording as wording;
ghost use Rattle.session_desk.specs.Calling.{IsActor, IsNoActor, IsRootOf, HasNoRoot};

use desk_base::{caller_account, caller_grant, caller_on, secret_of};
use host_base::GrainId;
use least_access::Solved;
use share_graph::{Caller, Refusal, Root, State, by_login};

/// Who acts, and on which grain: an account, or the bearer of a grant.
#[derive(Clone, Copy, PartialEq, Eq)]
pub struct Actor {
    pub grain: GrainId,
    pub root: Root,
}

// Whether the caller shows the login of an account.
fn is_login(state: &State, caller: &Caller) -> bool
    ensures { IsTrue result ↔ IsSomeLogin state.now (wording.secret_of caller.now) }
{
    match by_login(&state.tables, &secret_of(caller)) {
        Some(_) => true,
        None => false,
    }
}

/// The root that sessions of the caller have: an account where it shows the login of one, else the grant whose token it bears.
pub fn caller_root(state: &State, solved: &Solved, caller: &Caller) -> Result<Root, Refusal>
    requires formed { IsWellFormed state.now }
    requires solution { IsSolutionOf state.now.tables solved.now }
    ensures { MatchResult result (IsRootOf state.now caller.now) (HasNoRoot state.now caller.now) }
{
    if is_login(state, caller) {
        let account = caller_account(state, caller)?;
        return Ok(Root::Account(account.num));
    }
    let grant = caller_grant(state, solved, caller)?;
    Ok(Root::Grant(grant.num))
}

/// Who acts: a login on the grain that it names, or a bearer on its grant's grain.
pub fn actor_of(
    state: &State,
    solved: &Solved,
    caller: &Caller,
    num: Option<GrainId>,
) -> Result<Actor, Refusal>
    requires formed { IsWellFormed state.now }
    requires solution { IsSolutionOf state.now.tables solved.now }
    ensures { MatchResult result (IsActor state.now caller.now num) (IsNoActor state.now caller.now num) }
{
    match num {
        Some(grain) => {
            let account = caller_on(state, solved, caller, grain)?;
            let root = Root::Account(account.num);
            Ok(Actor { grain, root })
        }
        None => {
            let grant = caller_grant(state, solved, caller)?;
            let (grain, root) = (grant.grain, Root::Grant(grant.num));
            Ok(Actor { grain, root })
        }
    }
}
