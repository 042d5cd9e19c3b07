//! The first step that is missing where a node holds no entry.

ghost use Rattle.std.specs.Prelude.{◌≡◌, ◌≤◌, MatchOption, Some, false};
ghost use Rattle.share_graph.specs.declared.facts.Fact.TheVariants.{Open};
ghost use Rattle.share_graph.specs.declared.facts.Node.TheVariants as node;
ghost use Rattle.share_graph.specs.Checked.{IsChecked};
ghost use Rattle.share_graph.specs.Derivation.{Holds};
ghost use Rattle.share_graph.specs.Expiry.{Lasts};
ghost use Rattle.share_graph.specs.Forms.{IsOne};
ghost use Rattle.share_graph.specs.Missing.{IsNode, AreMet, IsFirstUnmet, UserMissing, GrantMissing, IsMissing};
ghost use Rattle.share_graph.specs.Rows.{IsGrant};
ghost use Rattle.least_access.specs.Solved.{IsSolutionOf};

use crate::solving::Solved;
use host_base::{AccountId, Denial, GrainId, GrantId};
use share_graph::{Grant, Need, Node, Tables, grant as find_grant, is_enabled, is_kept};

// What an account without entry lacks on a grain.
fn user_lacks(tables: &Tables, num: GrainId, account: AccountId) -> Denial
    requires none { Holds tables.now (node.User num account) Open → ⊥ }
    ensures { UserMissing tables.now num account (Some result) }
{
    if !is_kept(tables, num) {
        return Denial::GrainTrashed(num);
    }
    if !is_enabled(tables, account) {
        return Denial::AccountDisabled(account);
    }
    Denial::NoShare(num, account)
}

// The index of the first need that isn't met.
fn first_unmet(solved: &Solved, tables: &Tables, needs: &[Need]) -> Option<usize>
    requires { IsSolutionOf tables.now solved.now }
    ensures { MatchOption result (AreMet tables.now needs.now) (IsFirstUnmet tables.now needs.now) }
{
    for (index, need) in needs.iter().enumerate() {
        if !solved.met(tables, need) {
            return Some(index);
        }
    }
    None
}

// The expiry of a grant, if it has come at a moment.
fn ended(moment: u64, expires: Option<u64>) -> Option<u64>
    ensures { MatchOption result (Lasts moment expires) (λ end. (expires ≡ Some end) × (end ≤ moment)) }
{
    match expires {
        Some(end) if end <= moment => Some(end),
        _ => None,
    }
}

// What a grant without entry lacks.
fn grant_lacks(solved: &Solved, tables: &Tables, num: GrantId, grant: &Grant) -> Denial
    requires solution { IsSolutionOf tables.now solved.now }
    requires checked { IsChecked tables.now }
    requires row { IsGrant tables.now num grant.now }
    requires none { Holds tables.now (node.Grant num) Open → ⊥ }
    ensures { GrantMissing tables.now num grant.now (Some result) }
{
    if !is_kept(tables, grant.grain) {
        return Denial::GrainTrashed(grant.grain);
    }
    if grant.revoked {
        return Denial::Revoked(num);
    }
    if let Some(end) = ended(tables.moment, grant.expires) {
        return Denial::Expired(num, end);
    }
    match first_unmet(solved, tables, grant.needs.as_slice()) {
        Some(index) => Denial::Unmet(num, index as u16),
        None => Denial::SourceLost(num),
    }
}

impl Solved {
    /// Why a node holds no entry: nothing where it does, else the first step that is missing.
    pub fn why_not(&self, tables: &Tables, node: Node) -> Option<Denial>
        requires solution { IsSolutionOf tables.now self.now }
        requires checked { IsChecked tables.now }
        requires there { IsNode tables.now node }
        ensures missing { IsMissing tables.now node result }
        ensures one { IsOne (IsMissing tables.now node) }
    {
        if self.access(node).is_some() {
            return None;
        }
        match node {
            Node::User(num, account) => Some(user_lacks(tables, num, account)),
            Node::Grant(num) => match find_grant(tables, num) {
                Some(grant) => Some(grant_lacks(self, tables, num, grant)),
                None => unreachable!(),
            },
        }
    }
}
