//! What was given from a grant.

ghost use Rattle.std.specs.Prelude.{◌≡◌, ◌↔◌, IsTrue, MatchOption};
ghost use Rattle.share_graph.specs.Keys.{IsFirstOf, IsNoneOf, IsGivenFrom, IsShareFrom};

use crate::grants::{Giver, Grant, Target};
use crate::keyed::{given_clue, share_clue};
use crate::row_list::Rows;
use host_base::{AccountId, GrantId};

fn is_given_from(grant: &Grant, from: GrantId) -> bool
    ensures { IsTrue result ↔ IsGivenFrom from grant.now }
{
    grant.giver == Giver::Grant(from)
}

/// The first grant that was given from a grant, revoked or not.
pub fn given_from(grants: &Rows<Grant>, from: GrantId) -> Option<&Grant>
    ensures { MatchOption result (IsNoneOf grants.now (IsGivenFrom from)) (λ grant.
        IsFirstOf grants.now (IsGivenFrom from) grant.now) }
{
    grants
        .candidates(given_clue(from))
        .find(|grant| is_given_from(grant, from))
}

fn is_share_from(grant: &Grant, from: GrantId, to: AccountId) -> bool
    ensures { IsTrue result ↔ IsShareFrom from to grant.now }
{
    grant.giver == Giver::Grant(from) && grant.target == Target::User(to) && !grant.revoked
}

/// The first unrevoked grant from a grant to an account.
pub fn share_from(grants: &Rows<Grant>, from: GrantId, to: AccountId) -> Option<&Grant>
    ensures { MatchOption result (IsNoneOf grants.now (IsShareFrom from to)) (λ share.
        IsFirstOf grants.now (IsShareFrom from to) share.now) }
{
    grants
        .candidates(share_clue(from, to))
        .find(|grant| is_share_from(grant, from, to))
}
