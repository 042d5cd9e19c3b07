//! The link by which a curator lists a grain.

ghost use Rattle.std.specs.Prelude.{MatchResult};
ghost use Rattle.collections.specs.Linking.{IsLinkOf, IsNoLinkOf};

use desk_base::known_grant;
use host_base::{AccountId, GrantId};
use share_graph::{Giver, Grant, Refusal, Tables, Target};

// The link of a number, which goes to whoever bears its token, and which the account gave.
pub(crate) fn link_of(tables: &Tables, giver: AccountId, num: GrantId) -> Result<&Grant, Refusal>
    ensures { MatchResult result (λ link. IsLinkOf tables.now giver num link.now)
        (IsNoLinkOf tables.now giver num) }
{
    let link = known_grant(tables, num)?;
    let Target::Bearer { .. } = link.target else {
        return Err(Refusal::BadParent(num));
    };
    if link.giver != Giver::Account(giver) {
        return Err(Refusal::NotGiver(num));
    }
    Ok(link)
}
