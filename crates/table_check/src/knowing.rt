ghost use Rattle.std.specs.Prelude.{◌≡◌, ◌↔◌, IsTrue, All};
ghost use Rattle.share_graph.specs.Known.{HasApp, KnowsNode, KnowsGiver, KnowsTarget, KnowsNeed, KnowsOfGrain, KnowsOfGrant, KnowsOfSaved};

use host_base::AppId;
use share_graph::{
    Giver, Grain, Grant, Need, Node, Saved, Tables, Target, app, has_account, has_grain, has_grant,
};

fn has_app(tables: &Tables, num: AppId) -> bool
    ensures { IsTrue result ↔ HasApp tables.now num }
{
    app(tables, num).is_some()
}

fn knows_node(tables: &Tables, node: Node) -> bool
    ensures { IsTrue result ↔ KnowsNode tables.now node }
{
    match node {
        Node::User(num, account) => has_grain(tables, num) && has_account(tables, account),
        Node::Grant(num) => has_grant(tables, num),
    }
}

fn knows_giver(tables: &Tables, giver: Giver) -> bool
    ensures { IsTrue result ↔ KnowsGiver tables.now giver }
{
    match giver {
        Giver::Account(num) => has_account(tables, num),
        Giver::Grant(num) => has_grant(tables, num),
        Giver::Site { by, .. } => has_account(tables, by),
    }
}

fn knows_target(tables: &Tables, target: Target) -> bool
    ensures { IsTrue result ↔ KnowsTarget tables.now target }
{
    match target {
        Target::Bearer { .. } => true,
        Target::User(num) => has_account(tables, num),
        Target::Claim(num) => has_grain(tables, num),
        Target::Grain(num) => has_grain(tables, num),
    }
}

fn knows_need(tables: &Tables, need: Need) -> bool
    ensures { IsTrue result ↔ KnowsNeed tables.now need }
{
    match need {
        Need::TokenValid(num) => has_grant(tables, num),
        Need::PermissionsHeld { holder, .. } => knows_node(tables, holder),
        Need::UserIsAdmin(num) => has_account(tables, num),
    }
}

fn knows_needs(tables: &Tables, needs: &[Need]) -> bool
    ensures { IsTrue result ↔ All (KnowsNeed tables.now) needs.now }
{
    needs.iter().all(|need| knows_need(tables, *need))
}

/// Whether every row that a grain names is there.
pub(crate) fn knows_of_grain(tables: &Tables, grain: &Grain) -> bool
    ensures { IsTrue result ↔ KnowsOfGrain tables.now grain.now }
{
    has_app(tables, grain.app) && has_account(tables, grain.owner)
}

/// Whether every row that a grant names is there.
pub(crate) fn knows_of_grant(tables: &Tables, grant: &Grant) -> bool
    ensures { IsTrue result ↔ KnowsOfGrant tables.now grant.now }
{
    has_grain(tables, grant.grain)
        && knows_giver(tables, grant.giver)
        && knows_target(tables, grant.target)
        && knows_needs(tables, grant.needs.as_slice())
}

/// Whether every row that a saved reference names is there.
pub(crate) fn knows_of_saved(tables: &Tables, saved: &Saved) -> bool
    ensures { IsTrue result ↔ KnowsOfSaved tables.now saved.now }
{
    has_grain(tables, saved.holder) && has_grant(tables, saved.grant)
}
