//! Rows that have digests, and the first that has a digest.

ghost use Rattle.std.specs.Prelude.{◌≡◌, ◌↔◌, IsTrue, MatchOption, Some, take};
ghost use Rattle.share_graph.specs.Keys.{IsFirstOf, IsNoneOf};

use crate::grants::Grant;
use crate::keyed::digest_clue;
use crate::row_list::Rows;
use crate::rows::{Account, Saved};
use crate::sessions::{Run, Session};
use host_base::Digest;
use row_index::Keyed;

/// A row that may have a digest, by which it is then found.
pub trait Digested: Keyed {
    ghost use Rattle.std.specs.Prelude.{◌≡◌, Option, option_map};
    ghost use Rattle.host_base.specs.declared.digest.Digest.{Digest};
    ghost use Rattle.share_graph.specs.Clues.{digest_clue};

    // Its digest, if it has one.
    ghost digest_of: { Self → Option Digest };

    /// The digest of the row, if it has one.
    fn digest(&self) -> Option<Digest>
        ensures { result ≡ digest_of self.now };

    // Its first clue is that of its digest.
    ghost first_clue: { (row : Self) → (Self.clues_of row).first ≡ option_map digest_clue (digest_of row) };
}

impl Digested for Account {
    ghost use Rattle.std.specs.Prelude.{Some, refl};

    ghost digest_of = { λ row. Some row.login };

    ghost first_clue = { λ row. refl };

    fn digest(&self) -> Option<Digest> {
        Some(self.login)
    }
}

impl Digested for Grant {
    ghost use Rattle.std.specs.Prelude.{refl};

    ghost digest_of = { λ row. row.digest };

    ghost first_clue = { λ row. refl };

    fn digest(&self) -> Option<Digest> {
        self.digest
    }
}

impl Digested for Saved {
    ghost use Rattle.std.specs.Prelude.{Some, refl};

    ghost digest_of = { λ row. Some row.digest };

    ghost first_clue = { λ row. refl };

    fn digest(&self) -> Option<Digest> {
        Some(self.digest)
    }
}

impl Digested for Session {
    ghost use Rattle.std.specs.Prelude.{Some, refl};

    ghost digest_of = { λ row. Some row.digest };

    ghost first_clue = { λ row. refl };

    fn digest(&self) -> Option<Digest> {
        Some(self.digest)
    }
}

impl Digested for Run {
    ghost use Rattle.std.specs.Prelude.{Some, refl};

    ghost digest_of = { λ row. Some row.digest };

    ghost first_clue = { λ row. refl };

    fn digest(&self) -> Option<Digest> {
        Some(self.digest)
    }
}

/// Whether a row has the digest.
pub(crate) fn has_digest<R: Digested>(row: &R, digest: &Digest) -> bool
    ensures { IsTrue result ↔ (R.digest_of row.now ≡ Some digest.now) }
{
    row.digest() == Some(*digest)
}

/// The first row before a place, counted from 0, that has the digest.
pub(crate) fn first_before<'a, R: Digested>(
    rows: &'a Rows<R>,
    place: usize,
    digest: &Digest,
) -> Option<&'a R>
    ensures { MatchOption result (IsNoneOf (take place rows.now) (λ row. R.digest_of row ≡ Some digest.now))
        (λ row. IsFirstOf (take place rows.now) (λ row. R.digest_of row ≡ Some digest.now) row.now) }
{
    rows.candidates_before(place, digest_clue(digest))
        .find(|row| has_digest(*row, digest))
}

/// The first row that has the digest.
pub(crate) fn first_with<'a, R: Digested>(rows: &'a Rows<R>, digest: &Digest) -> Option<&'a R>
    ensures { MatchOption result (IsNoneOf rows.now (λ row. R.digest_of row ≡ Some digest.now))
        (λ row. IsFirstOf rows.now (λ row. R.digest_of row ≡ Some digest.now) row.now) }
{
    first_before(rows, rows.as_slice().len(), digest)
}
