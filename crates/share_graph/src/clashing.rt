ghost use Rattle.std.specs.Prelude.{IfSome, MatchOption};
ghost use Rattle.share_graph.specs.Kinds.{HasDigest, IsFirstWith, IsUnused};

use crate::digests::first_with;
use crate::fault::Kind;
use crate::state::State;
use host_base::Digest;

/// The first row that has a digest, in the order of kinds and then of the rows: its kind and its number. Closed sessions, stopped
/// runs, revoked grants and dropped references are among the rows. In a well-formed state one row at the most has it.
pub fn clash(state: &State, digest: &Digest) -> Option<(Kind, u64)>
    ensures found { MatchOption result (IsUnused state.now digest.now) (λ row.
        HasDigest state.now digest.now row.0 row.1) }
    ensures first { IfSome result (λ row. IsFirstWith state.now digest.now row.0 row.1) }
{
    if let Some(account) = first_with(&state.tables.accounts, digest) {
        return Some((Kind::Account, u64::from(account.num.0)));
    }
    if let Some(grant) = first_with(&state.tables.grants, digest) {
        return Some((Kind::Grant, u64::from(grant.num.0)));
    }
    if let Some(saved) = first_with(&state.tables.saved, digest) {
        return Some((Kind::Saved, u64::from(saved.num.0)));
    }
    if let Some(session) = first_with(&state.sessions, digest) {
        return Some((Kind::Session, u64::from(session.num.0)));
    }
    if let Some(run) = first_with(&state.runs, digest) {
        return Some((Kind::Run, run.num.0));
    }
    None
}
