ghost use Rattle.std.specs.Prelude.{◌≡◌, ◌↔◌, IsTrue, MatchOption, true};
ghost use Rattle.share_graph.specs.declared.rows.App.{App};
ghost use Rattle.share_graph.specs.Expiry.{Lasts};
ghost use Rattle.share_graph.specs.Keys.{IsBearer};
ghost use Rattle.share_graph.specs.Missing.{IsNode};
ghost use Rattle.share_graph.specs.Nodes.{MayReceive};
ghost use Rattle.share_graph.specs.Rows.{IsAppOf, IsAdmin, IsEnabled, IsKept};

use crate::facts::Node;
use crate::finders::{account, app, grain};
use crate::grants::Target;
use crate::known::{has_account, has_grain, is_own_node};
use crate::rows::App;
use crate::state::Tables;
use host_base::{AccountId, GrainId};

/// Whether a grant of that target goes to whoever bears its token.
pub fn is_bearer(target: Target) -> bool
    ensures { IsTrue result ↔ IsBearer target }
{
    match target {
        Target::Bearer { .. } => true,
        Target::User(_) => false,
        Target::Claim(_) => false,
        Target::Grain(_) => false,
    }
}

/// Whether an account is there and enabled.
pub fn is_enabled(tables: &Tables, num: AccountId) -> bool
    ensures { IsTrue result ↔ IsEnabled tables.now num }
{
    match account(tables, num) {
        Some(row) => row.enabled,
        None => false,
    }
}

/// Whether an account is there, enabled and an admin.
pub fn is_admin(tables: &Tables, num: AccountId) -> bool
    ensures { IsTrue result ↔ IsAdmin tables.now num }
{
    match account(tables, num) {
        Some(row) => row.enabled && row.admin,
        None => false,
    }
}

/// Whether a grain is there and not in the trash.
pub fn is_kept(tables: &Tables, num: GrainId) -> bool
    ensures { IsTrue result ↔ IsKept tables.now num }
{
    match grain(tables, num) {
        Some(row) => !row.trashed,
        None => false,
    }
}

/// Whether an account that a grant goes to is enabled.
pub fn may_receive(tables: &Tables, target: Target) -> bool
    ensures { IsTrue result ↔ MayReceive tables.now target }
{
    match target {
        Target::User(num) => is_enabled(tables, num),
        Target::Bearer { .. } => true,
        Target::Claim(_) => true,
        Target::Grain(_) => true,
    }
}

/// Whether a grant with that expiry, if it has one, hasn't ended at a moment.
pub fn lasts(moment: u64, expires: Option<u64>) -> bool
    ensures { IsTrue result ↔ Lasts moment expires }
{
    match expires {
        Some(end) => moment < end,
        None => true,
    }
}

/// The application of a grain.
pub fn app_of(tables: &Tables, num: GrainId) -> Option<&App>
    ensures { MatchOption result ((app : App) → IsAppOf tables.now num app
        → ⊥) (λ app. IsAppOf tables.now num app.now) }
{
    app(tables, grain(tables, num)?.app)
}

/// Whether a node is one that can hold facts: its grain and its account are there, or its grant, which goes to no account.
pub fn is_node(tables: &Tables, node: Node) -> bool
    ensures { IsTrue result ↔ IsNode tables.now node }
{
    match node {
        Node::User(num, holder) => has_grain(tables, num) && has_account(tables, holder),
        Node::Grant(num) => is_own_node(tables, num),
    }
}
