ghost use Rattle.std.specs.Prelude.{◌≡◌, ◌↔◌, IsTrue, All};
ghost use Rattle.share_graph.specs.declared.sessions.Run.{Run};
ghost use Rattle.share_graph.specs.Keys.{IsBearer, IsOneOf};
ghost use Rattle.share_graph.specs.WellFormed.{IsRooted, MayRoot};

use host_base::{GrainId, RunId};
use share_graph::{
    Grant, Handle, Root, Run, Session, State, Tables, Target, grant as find_grant, has_account,
    has_grain, is_bearer,
};

/// A row that names others.
trait Rooted {
    ghost use Rattle.share_graph.specs.declared.state.State.{State};

    // what the row names is there
    ghost is_rooted_in: { State → Self → Type 0 };

    /// Whether what the row names is there.
    fn is_rooted_in(&self, state: &State) -> bool
        ensures { IsTrue result ↔ is_rooted_in state.now self.now };
}

fn is_borne_on(grant: &Grant, num: GrainId) -> bool
    ensures { IsTrue result ↔ ((grant.now.grain ≡ num) × IsBearer grant.now.target) }
{
    grant.grain == num && is_bearer(grant.target)
}

// Whether a session on a grain may act as a root.
fn may_root(tables: &Tables, num: GrainId, root: Root) -> bool
    ensures { IsTrue result ↔ MayRoot tables.now num root }
{
    match root {
        Root::Account(account) => has_account(tables, account),
        Root::Grant(id) => match find_grant(tables, id) {
            None => false,
            Some(row) => is_borne_on(row, num),
        },
    }
}

impl Rooted for Session {
    ghost use Rattle.share_graph.specs.WellFormed.{IsRootedSession};

    ghost is_rooted_in = { λ s session. IsRootedSession s.tables session };

    fn is_rooted_in(&self, state: &State) -> bool {
        has_grain(&state.tables, self.grain) && may_root(&state.tables, self.grain, self.root)
    }
}

impl Rooted for Run {
    ghost use Rattle.share_graph.specs.Known.{HasGrain};

    ghost is_rooted_in = { λ s run. HasGrain s.tables run.grain };

    fn is_rooted_in(&self, state: &State) -> bool {
        has_grain(&state.tables, self.grain)
    }
}

fn is_claimed_by(run: &Run, num: RunId, target: Target) -> bool
    ensures { IsTrue result ↔ ((run.now.num ≡ num) × (target ≡ Target.Grain run.now.grain)) }
{
    run.num == num && target == Target::Grain(run.grain)
}

// Whether a run of the number is one of a grain that claimed.
fn has_claimed(runs: &[Run], num: RunId, target: Target) -> bool
    ensures { IsTrue result ↔ ((run : Run)
        × IsOneOf runs.now (λ run. (run.num ≡ num) × (target ≡ Target.Grain run.grain)) run) }
{
    runs.iter().any(|run| is_claimed_by(run, num, target))
}

impl Rooted for Handle {
    ghost use Rattle.share_graph.specs.WellFormed.{IsRootedHandle};

    ghost is_rooted_in = { λ s handle. IsRootedHandle s handle };

    fn is_rooted_in(&self, state: &State) -> bool {
        match find_grant(&state.tables, self.grant) {
            None => false,
            Some(row) => has_claimed(state.runs.as_slice(), self.run, row.target),
        }
    }
}

fn are_rooted_in<R: Rooted>(state: &State, rows: &[R]) -> bool
    ensures { IsTrue result ↔ All (R.is_rooted_in state.now) rows.now }
{
    rows.iter().all(|row| row.is_rooted_in(state))
}

/// Whether what sessions, runs and handles name is there.
pub(crate) fn is_rooted(state: &State) -> bool
    ensures { IsTrue result ↔ IsRooted state.now }
{
    if !are_rooted_in(state, state.sessions.as_slice()) {
        return false;
    }
    if !are_rooted_in(state, state.runs.as_slice()) {
        return false;
    }
    are_rooted_in(state, state.handles.as_slice())
}
