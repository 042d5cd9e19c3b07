//! The verdict on each form of key.

ghost use Rattle.std.specs.Prelude.{IfOk};
ghost use Rattle.host_base.specs.declared.key.Key.TheVariants as key;
ghost use Rattle.share_graph.specs.Forms.{IsOne};
ghost use Rattle.share_graph.specs.WellFormed.{IsWellFormed};
ghost use Rattle.least_access.specs.Solved.{IsSolutionOf};
ghost use Rattle.session_table.specs.Verdict.{IsVerdict};

use crate::permits::stands;
use crate::reaching::{grant_stands, reaches};
use host_base::{Denial, Digest, Key, Memory, TabMark, Verdict};
use least_access::Solved;
use share_graph::{
    State, by_bearer_token, by_run_token, by_session_key, handle as find_handle, is_kept,
};
use std::alloc::Global;

// The verdict on the key of a session.
fn session_verdict(
    alloc: Global,
    state: &State,
    solved: &Solved,
    digest: &Digest,
) -> Result<Verdict, Memory>
    requires formed { IsWellFormed state.now }
    requires solution { IsSolutionOf state.now.tables solved.now }
    ensures { IfOk result (IsVerdict state.now (key.Session digest.now)) }
{
    let Some(session) = by_session_key(state, digest) else {
        return Ok(Verdict::Deny(Denial::UnknownKey));
    };
    if session.closed {
        return Ok(Verdict::Deny(Denial::SessionClosed(session.num)));
    }
    let tab = Some(TabMark {
        tab: session.tab,
        session: session.num,
    });
    stands(alloc, state, solved, session.grain, session.root, tab)
}

// The verdict on a bearer's token.
fn bearer_verdict(
    alloc: Global,
    state: &State,
    solved: &Solved,
    digest: &Digest,
) -> Result<Verdict, Memory>
    requires formed { IsWellFormed state.now }
    requires solution { IsSolutionOf state.now.tables solved.now }
    ensures { IfOk result (IsVerdict state.now (key.Bearer digest.now)) }
{
    let Some(grant) = by_bearer_token(&state.tables, digest) else {
        return Ok(Verdict::Deny(Denial::UnknownKey));
    };
    grant_stands(alloc, state, solved, grant.num, grant)
}

// The verdict on a handle of a run.
fn handle_verdict(
    alloc: Global,
    state: &State,
    solved: &Solved,
    digest: &Digest,
    num: u32,
) -> Result<Verdict, Memory>
    requires formed { IsWellFormed state.now }
    requires solution { IsSolutionOf state.now.tables solved.now }
    ensures { IfOk result (IsVerdict state.now (key.Handle digest.now num)) }
{
    let Some(run) = by_run_token(state, digest) else {
        return Ok(Verdict::Deny(Denial::UnknownKey));
    };
    if !is_kept(&state.tables, run.grain) {
        return Ok(Verdict::Deny(Denial::GrainTrashed(run.grain)));
    }
    if run.stopped {
        return Ok(Verdict::Deny(Denial::GrainStopped(run.grain)));
    }
    let Some(handle) = find_handle(state, run.num, num) else {
        return Ok(Verdict::Deny(Denial::UnknownKey));
    };
    reaches(alloc, state, solved, handle.grant)
}

/// The verdict on a key.
pub fn verdict(alloc: Global, state: &State, solved: &Solved, key: &Key) -> Result<Verdict, Memory>
    requires formed { IsWellFormed state.now }
    requires solution { IsSolutionOf state.now.tables solved.now }
    ensures verdict { IfOk result (IsVerdict state.now key.now) }
    ensures one { IsOne (IsVerdict state.now key.now) }
{
    match key {
        Key::Session(digest) => session_verdict(alloc, state, solved, digest),
        Key::Bearer(digest) => bearer_verdict(alloc, state, solved, digest),
        Key::Handle(digest, num) => handle_verdict(alloc, state, solved, digest, *num),
    }
}
