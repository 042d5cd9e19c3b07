ghost use Rattle.std.specs.Prelude.{◌≡◌, ◌↔◌, IsTrue, MatchOption, take};
ghost use Rattle.share_graph.specs.Keys.{IsOneOf, IsFirstOf, IsNoneOf, HasLogin, HasHandle, HasToken, HasReference, HasKey, HasRunToken, IsLiveRun, IsHandleOf, IsHandleTo, IsBearerOf};

use crate::asking::is_bearer;
use crate::digests::{first_before, first_with, has_digest};
use crate::grants::Grant;
use crate::keyed::{digest_clue, handle_clue, held_clue, live_clue};
use crate::row_list::Rows;
use crate::rows::{Account, Saved};
use crate::sessions::{Handle, Run, Session};
use crate::state::{State, Tables};
use host_base::{Digest, GrainId, GrantId, RunId};
use plain_data::Name;
use row_index::text_clue;

/// The first account before a place, counted from 0, whose login has the digest.
pub fn login_before<'a>(
    accounts: &'a Rows<Account>,
    place: usize,
    digest: &Digest,
) -> Option<&'a Account>
    ensures { MatchOption result (IsNoneOf (take place accounts.now) (HasLogin digest.now))
        (λ row. IsFirstOf (take place accounts.now) (HasLogin digest.now) row.now) }
{
    first_before(accounts, place, digest)
}

/// The first grant before a place, counted from 0, whose token has the digest.
pub fn token_before<'a>(grants: &'a Rows<Grant>, place: usize, digest: &Digest) -> Option<&'a Grant>
    ensures { MatchOption result (IsNoneOf (take place grants.now) (HasToken digest.now))
        (λ row. IsFirstOf (take place grants.now) (HasToken digest.now) row.now) }
{
    first_before(grants, place, digest)
}

fn has_handle(account: &Account, handle: &Name) -> bool
    ensures { IsTrue result ↔ HasHandle handle.now account.now }
{
    account.handle.as_str() == handle.as_str()
}

/// The first account before a place, counted from 0, that has a handle.
pub fn handle_before<'a>(
    accounts: &'a Rows<Account>,
    place: usize,
    handle: &Name,
) -> Option<&'a Account>
    ensures { MatchOption result (IsNoneOf (take place accounts.now) (HasHandle handle.now))
        (λ row. IsFirstOf (take place accounts.now) (HasHandle handle.now) row.now) }
{
    accounts
        .candidates_before(place, text_clue(handle.as_str().as_bytes()))
        .find(|row| has_handle(row, handle))
}

/// The first saved reference before a place, counted from 0, whose token has the digest.
pub fn reference_before<'a>(
    references: &'a Rows<Saved>,
    place: usize,
    digest: &Digest,
) -> Option<&'a Saved>
    ensures { MatchOption result
        (IsNoneOf (take place references.now) (HasReference digest.now))
        (λ row. IsFirstOf (take place references.now) (HasReference digest.now) row.now) }
{
    first_before(references, place, digest)
}

/// The account whose login has the digest.
pub fn by_login<'a>(tables: &'a Tables, digest: &Digest) -> Option<&'a Account>
    ensures { MatchOption result (IsNoneOf tables.now.accounts (HasLogin digest.now))
        (λ account. IsOneOf tables.now.accounts (HasLogin digest.now) account.now) }
{
    first_with(&tables.accounts, digest)
}

/// The account that has a handle.
pub fn by_handle<'a>(tables: &'a Tables, handle: &Name) -> Option<&'a Account>
    ensures { MatchOption result (IsNoneOf tables.now.accounts (HasHandle handle.now))
        (λ account. IsOneOf tables.now.accounts (HasHandle handle.now) account.now) }
{
    let accounts = &tables.accounts;
    handle_before(accounts, accounts.as_slice().len(), handle)
}

/// The saved reference whose token has the digest.
pub fn by_saved_token<'a>(tables: &'a Tables, digest: &Digest) -> Option<&'a Saved>
    ensures { MatchOption result (IsNoneOf tables.now.saved (HasReference digest.now))
        (λ saved. IsOneOf tables.now.saved (HasReference digest.now) saved.now) }
{
    first_with(&tables.saved, digest)
}

fn is_bearer_of(grant: &Grant, digest: &Digest) -> bool
    ensures { IsTrue result ↔ IsBearerOf digest.now grant.now }
{
    has_digest(grant, digest) && is_bearer(grant.target)
}

/// The grant whose token has the digest.
pub fn by_grant_token<'a>(tables: &'a Tables, digest: &Digest) -> Option<&'a Grant>
    ensures { MatchOption result (IsNoneOf tables.now.grants (HasToken digest.now))
        (λ grant. IsOneOf tables.now.grants (HasToken digest.now) grant.now) }
{
    first_with(&tables.grants, digest)
}

/// The bearer's grant whose token has the digest.
pub fn by_bearer_token<'a>(tables: &'a Tables, digest: &Digest) -> Option<&'a Grant>
    ensures { MatchOption result (IsNoneOf tables.now.grants (IsBearerOf digest.now))
        (λ grant. IsOneOf tables.now.grants (IsBearerOf digest.now) grant.now) }
{
    tables
        .grants
        .candidates(digest_clue(digest))
        .find(|grant| is_bearer_of(grant, digest))
}

/// The session whose key has the digest.
pub fn by_session_key<'a>(state: &'a State, digest: &Digest) -> Option<&'a Session>
    ensures { MatchOption result (IsNoneOf state.now.sessions (HasKey digest.now))
        (λ session. IsOneOf state.now.sessions (HasKey digest.now) session.now) }
{
    first_with(&state.sessions, digest)
}

/// The run whose token has the digest, whether it is stopped or not.
pub fn by_run_token<'a>(state: &'a State, digest: &Digest) -> Option<&'a Run>
    ensures { MatchOption result (IsNoneOf state.now.runs (HasRunToken digest.now))
        (λ run. IsOneOf state.now.runs (HasRunToken digest.now) run.now) }
{
    first_with(&state.runs, digest)
}

fn is_live_run(run: &Run, num: GrainId) -> bool
    ensures { IsTrue result ↔ IsLiveRun num run.now }
{
    run.grain == num && !run.stopped
}

/// The live run of a grain.
pub fn live_run(state: &State, num: GrainId) -> Option<&Run>
    ensures { MatchOption result (IsNoneOf state.now.runs (IsLiveRun num))
        (λ run. IsOneOf state.now.runs (IsLiveRun num) run.now) }
{
    state
        .runs
        .candidates(live_clue(num))
        .find(|run| is_live_run(run, num))
}

fn is_handle_of(handle: &Handle, run: RunId, num: u32) -> bool
    ensures { IsTrue result ↔ IsHandleOf run num handle.now }
{
    handle.run == run && handle.num == num
}

/// The handle of a run, by its number there.
pub fn handle(state: &State, run: RunId, num: u32) -> Option<&Handle>
    ensures { MatchOption result (IsNoneOf state.now.handles (IsHandleOf run num))
        (λ handle. IsOneOf state.now.handles (IsHandleOf run num) handle.now) }
{
    state
        .handles
        .candidates(handle_clue(run, num))
        .find(|handle| is_handle_of(handle, run, num))
}

fn is_handle_to(handle: &Handle, run: RunId, grant: GrantId) -> bool
    ensures { IsTrue result ↔ IsHandleTo run grant handle.now }
{
    handle.run == run && handle.grant == grant
}

/// The first handle of a run to a grant.
pub fn handle_to(handles: &Rows<Handle>, run: RunId, grant: GrantId) -> Option<&Handle>
    ensures { MatchOption result (IsNoneOf handles.now (IsHandleTo run grant)) (λ handle.
        IsFirstOf handles.now (IsHandleTo run grant) handle.now) }
{
    handles
        .candidates(held_clue(run, grant))
        .find(|handle| is_handle_to(handle, run, grant))
}
