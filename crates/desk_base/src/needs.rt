//! Whether needs can be had.

ghost use Rattle.std.specs.Prelude.{◌↔◌, IsTrue, MatchOption, MatchResult};
ghost use Rattle.desk_base.specs.Terms.{SetFits};
ghost use Rattle.share_graph.specs.Fitting.{HolderSetFits};
ghost use Rattle.desk_base.specs.Needs.{CanBeHad, IsFirstBad, AreGood, HasBadNeed};

use host_base::GrainId;
use perm_roles::PermSet;
use share_graph::{Need, Node, Refusal, Tables, app_of, grant as find_grant, has_account, is_node};

/// The most needs that a grant has.
pub const NEEDS: usize = 8;

/// Whether a set fits the application of a grain.
pub fn set_fits(tables: &Tables, num: GrainId, set: &PermSet) -> bool
    ensures { IsTrue result ↔ SetFits tables.now num set.now }
{
    match app_of(tables, num) {
        None => false,
        Some(app) => set.fits(app.manifest.permissions.as_slice().len()),
    }
}

// Whether a set fits the application of the grain that a holder is on.
fn holder_set_fits(tables: &Tables, holder: Node, set: &PermSet) -> bool
    ensures { IsTrue result ↔ HolderSetFits tables.now holder set.now }
{
    match holder {
        Node::User(num, _) => set_fits(tables, num, set),
        Node::Grant(num) => match find_grant(tables, num) {
            None => false,
            Some(grant) => set_fits(tables, grant.grain, set),
        },
    }
}

// Whether a need can be had.
fn can_be_had(tables: &Tables, need: Need) -> bool
    ensures { IsTrue result ↔ CanBeHad tables.now need }
{
    match need {
        Need::TokenValid(num) => is_node(tables, Node::Grant(num)),
        Need::PermissionsHeld { holder, set } => {
            is_node(tables, holder) && holder_set_fits(tables, holder, &set)
        }
        Need::UserIsAdmin(num) => has_account(tables, num),
    }
}

// The index of the first need that isn't good.
fn first_bad(tables: &Tables, needs: &[Need]) -> Option<u16>
    ensures { MatchOption result (AreGood tables.now needs.now) (IsFirstBad tables.now needs.now) }
{
    for (index, need) in needs.iter().enumerate() {
        if index >= NEEDS {
            return Some(NEEDS as u16);
        }
        if !can_be_had(tables, *need) {
            return Some(index as u16);
        }
    }
    None
}

/// Whether needs are at most eight, each of which can be had.
pub fn good_needs(tables: &Tables, needs: &[Need]) -> Result<(), Refusal>
    ensures { MatchResult result (λ _. AreGood tables.now needs.now) (HasBadNeed tables.now needs.now) }
{
    match first_bad(tables, needs) {
        None => Ok(()),
        Some(index) => Err(Refusal::BadNeed(index)),
    }
}
