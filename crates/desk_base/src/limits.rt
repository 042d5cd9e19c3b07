//! How many rows there may be.

ghost use Rattle.std.specs.Prelude.{◌≡◌, Some, None, MatchResult, length};
ghost use Rattle.share_graph.specs.declared.fault.Kind.TheVariants as kind;
ghost use Rattle.desk_base.specs.Limits.{most_of, too_many};

use share_graph::{Kind, Refusal, Tables};

/// The most rows of a kind that there may be; handles are those of one run, and open sessions are meant. Of runs there may be
/// any number. Entries are those of commands: the other 65,536 of a million are for ticks, which are never refused.
pub fn most_of(kind: Kind) -> Option<u32>
    ensures { result ≡ most_of kind }
{
    match kind {
        Kind::Account => Some(4_096),
        Kind::App => Some(256),
        Kind::Grain => Some(16_384),
        Kind::Grant => Some(65_536),
        Kind::Saved => Some(65_536),
        Kind::Session => Some(4_096),
        Kind::Handle => Some(4_096),
        Kind::Run => None,
        Kind::Entry => Some(934_464),
    }
}

/// Whether there is room for one more of a kind, where there are so many.
pub fn has_room(kind: Kind, count: u64) -> Result<(), Refusal>
    ensures { let over = too_many kind count in
        MatchResult result (λ _. over ≡ None) (λ refusal. over ≡ Some refusal) }
{
    let Some(limit) = most_of(kind) else {
        return Ok(());
    };
    if u64::from(limit) <= count {
        return Err(Refusal::TooMany(kind, limit));
    }
    Ok(())
}

/// Whether there is room for one more grant.
pub fn has_grant_room(tables: &Tables) -> Result<(), Refusal>
    ensures { let over = too_many kind.Grant (length tables.now.grants) in
        MatchResult result (λ _. over ≡ None) (λ refusal. over ≡ Some refusal) }
{
    has_room(Kind::Grant, tables.grants.as_slice().len() as u64)
}
