ghost use Rattle.std.specs.Prelude.{◌↔◌, IsTrue, All};
ghost use Rattle.share_graph.specs.Kinds.{AreApart};
ghost use Rattle.table_check.specs.Apart.{HasNoOther, IsApart, IsNoOther};

use crate::numbering::Numbered;
use host_base::Digest;
use share_graph::{Digested, Kind, State};

// Whether a row of a kind hasn't the digest, or is the one of that kind and number.
#[tactic(auto, unfolding(crate::specs::Apart::IsNoOther))]
fn is_no_other<R: Numbered + Digested>(
    of: Kind,
    row: &R,
    digest: &Digest,
    kind: Kind,
    num: u64,
) -> bool
    ensures { IsTrue result ↔ IsNoOther of (R.num_of row.now) (R.digest_of row.now) digest.now kind num }
{
    row.digest() != Some(*digest) || of == kind && row.num() == num
}

// Whether no row of a kind but the one of that kind and number has the digest.
fn have_no_other<R: Numbered + Digested>(
    of: Kind,
    rows: &[R],
    digest: &Digest,
    kind: Kind,
    num: u64,
) -> bool
    ensures { IsTrue result ↔ All (λ row.
        IsNoOther of (R.num_of row) (R.digest_of row) digest.now kind num) rows.now }
{
    rows.iter()
        .all(|row| is_no_other(of, row, digest, kind, num))
}

// Whether no row of a state but the one of that kind and number has the digest.
fn has_no_other(state: &State, digest: &Digest, kind: Kind, num: u64) -> bool
    ensures { IsTrue result ↔ HasNoOther state.now digest.now kind num }
{
    if !have_no_other(
        Kind::Account,
        state.tables.accounts.as_slice(),
        digest,
        kind,
        num,
    ) {
        return false;
    }
    if !have_no_other(
        Kind::Grant,
        state.tables.grants.as_slice(),
        digest,
        kind,
        num,
    ) {
        return false;
    }
    if !have_no_other(
        Kind::Saved,
        state.tables.saved.as_slice(),
        digest,
        kind,
        num,
    ) {
        return false;
    }
    if !have_no_other(Kind::Session, state.sessions.as_slice(), digest, kind, num) {
        return false;
    }
    have_no_other(Kind::Run, state.runs.as_slice(), digest, kind, num)
}

// Whether the digest of a row of a kind, if it has one, is its alone.
fn is_apart<R: Numbered + Digested>(of: Kind, state: &State, row: &R) -> bool
    ensures { IsTrue result ↔ IsApart state.now of (R.num_of row.now) (R.digest_of row.now) }
{
    match row.digest() {
        None => true,
        Some(digest) => has_no_other(state, &digest, of, row.num()),
    }
}

fn are_apart<R: Numbered + Digested>(of: Kind, state: &State, rows: &[R]) -> bool
    ensures { IsTrue result ↔ All (λ row.
        IsApart state.now of (R.num_of row) (R.digest_of row)) rows.now }
{
    rows.iter().all(|row| is_apart(of, state, row))
}

/// Whether each digest of a state is one row's.
pub(crate) fn has_digests_apart(state: &State) -> bool
    ensures { IsTrue result ↔ AreApart state.now }
{
    if !are_apart(Kind::Account, state, state.tables.accounts.as_slice()) {
        return false;
    }
    if !are_apart(Kind::Grant, state, state.tables.grants.as_slice()) {
        return false;
    }
    if !are_apart(Kind::Saved, state, state.tables.saved.as_slice()) {
        return false;
    }
    if !are_apart(Kind::Session, state, state.sessions.as_slice()) {
        return false;
    }
    are_apart(Kind::Run, state, state.runs.as_slice())
}
