//! By which numbers rows are found, and as what they count.

ghost use Rattle.std.specs.Prelude.{◌≡◌, None};
ghost use Rattle.share_graph.specs.Clues as the;

use crate::grants::{Giver, Grant, Target};
use crate::rows::{Account, App, Grain, Saved};
use crate::sessions::{Handle, Root, Run, Session};
use host_base::{AccountId, Digest, GrainId, GrantId, RunId};
use row_index::{Clues, Keyed, Link, Standing, number_clue, text_clue};

// What two numbers of a key are.
const LIVE_RUN: u64 = 1;

const SHARE: u64 = 2;

const GIVEN: u64 = 3;

const NUMBER: u64 = 4;

const HELD: u64 = 5;

pub(crate) fn digest_clue(digest: &Digest) -> u64
    ensures { result ≡ the.digest_clue digest.now }
{
    text_clue(&digest.0)
}

pub(crate) fn live_clue(grain: GrainId) -> u64
    ensures { result ≡ the.live_clue grain }
{
    number_clue(LIVE_RUN, u64::from(grain.0), 0)
}

pub(crate) fn share_clue(from: GrantId, to: AccountId) -> u64
    ensures { result ≡ the.share_clue from to }
{
    number_clue(SHARE, u64::from(from.0), u64::from(to.0))
}

pub(crate) fn given_clue(from: GrantId) -> u64
    ensures { result ≡ the.given_clue from }
{
    number_clue(GIVEN, u64::from(from.0), 0)
}

pub(crate) fn handle_clue(run: RunId, num: u32) -> u64
    ensures { result ≡ the.handle_clue run num }
{
    number_clue(NUMBER, run.0, u64::from(num))
}

pub(crate) fn held_clue(run: RunId, grant: GrantId) -> u64
    ensures { result ≡ the.held_clue run grant }
{
    number_clue(HELD, run.0, u64::from(grant.0))
}

// The mark of open sessions of a root.
pub(crate) fn root_mark(root: Root) -> u64
    ensures { result ≡ the.root_mark root }
{
    match root {
        Root::Account(account) => 2 * u64::from(account.0),
        Root::Grant(grant) => 2 * u64::from(grant.0) + 1,
    }
}

// A row with no keys.
fn no_clues() -> Clues
    ensures { result ≡ the.no_clues }
{
    Clues {
        first: None,
        second: None,
        third: None,
    }
}

// A row that stands under none.
fn no_link() -> Link
    ensures { result ≡ the.no_link }
{
    Link {
        parent: None,
        flagged: false,
    }
}

// A row that has no mark, and stands under none.
fn found_by(clues: Clues) -> Standing
    ensures clues { result.clues ≡ clues }
    ensures mark { result.mark ≡ None }
    ensures link { result.link ≡ the.no_link }
{
    Standing {
        clues,
        mark: None,
        link: no_link(),
    }
}

impl Keyed for Account {
    ghost clues_of = { the.account_clues };

    fn standing(&self) -> Standing {
        found_by(Clues {
            first: Some(digest_clue(&self.login)),
            second: Some(text_clue(self.handle.as_str().as_bytes())),
            third: None,
        })
    }
}

impl Keyed for App {
    ghost clues_of = { λ app. the.no_clues };

    fn standing(&self) -> Standing {
        found_by(no_clues())
    }
}

impl Keyed for Grain {
    ghost clues_of = { λ grain. the.no_clues };

    fn standing(&self) -> Standing {
        found_by(no_clues())
    }
}

impl Keyed for Saved {
    ghost clues_of = { the.saved_clues };

    fn standing(&self) -> Standing {
        found_by(Clues {
            first: Some(digest_clue(&self.digest)),
            second: None,
            third: None,
        })
    }
}

impl Keyed for Grant {
    ghost clues_of = { the.grant_clues };

    ghost link_of = { the.grant_link };

    fn standing(&self) -> Standing {
        Standing {
            clues: Clues {
                first: self.digest.map(|digest| digest_clue(&digest)),
                second: share_of(self),
                third: given_of(self.giver),
            },
            mark: None,
            link: Link {
                parent: parent_of(self.giver),
                flagged: is_for_sharing(self.target),
            },
        }
    }
}

// The clue of a live share.
fn share_of(grant: &Grant) -> Option<u64>
    ensures { result ≡ the.share_of grant.now.giver grant.now.target grant.now.revoked }
{
    match (grant.giver, grant.target) {
        (Giver::Grant(from), Target::User(to)) if !grant.revoked => Some(share_clue(from, to)),
        _ => None,
    }
}

fn given_of(giver: Giver) -> Option<u64>
    ensures { result ≡ the.given_of giver }
{
    match giver {
        Giver::Grant(from) => Some(given_clue(from)),
        _ => None,
    }
}

// The number of the grant that gave.
fn parent_of(giver: Giver) -> Option<u64>
    ensures { result ≡ the.parent_of giver }
{
    match giver {
        Giver::Grant(from) => Some(u64::from(from.0)),
        _ => None,
    }
}

// Whether it is a bearer's, marked for sharing.
pub(crate) fn is_for_sharing(target: Target) -> bool
    ensures { result ≡ the.is_for_sharing target }
{
    match target {
        Target::Bearer { for_sharing } => for_sharing,
        _ => false,
    }
}

impl Keyed for Session {
    ghost clues_of = { the.session_clues };

    ghost mark_of = { the.session_mark };

    fn standing(&self) -> Standing {
        Standing {
            clues: Clues {
                first: Some(digest_clue(&self.digest)),
                second: None,
                third: None,
            },
            mark: if self.closed {
                None
            } else {
                Some(root_mark(self.root))
            },
            link: no_link(),
        }
    }
}

impl Keyed for Run {
    ghost clues_of = { the.run_clues };

    fn standing(&self) -> Standing {
        found_by(Clues {
            first: Some(digest_clue(&self.digest)),
            second: if self.stopped {
                None
            } else {
                Some(live_clue(self.grain))
            },
            third: None,
        })
    }
}

impl Keyed for Handle {
    ghost clues_of = { the.handle_clues };

    ghost mark_of = { the.handle_mark };

    fn standing(&self) -> Standing {
        Standing {
            clues: Clues {
                first: Some(handle_clue(self.run, self.num)),
                second: Some(held_clue(self.run, self.grant)),
                third: None,
            },
            mark: Some(self.run.0),
            link: no_link(),
        }
    }
}
