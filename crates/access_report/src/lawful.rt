//! What owners hold, and what grants let through.

ghost use Rattle.std.specs.Prelude.{◌≡◌, ◌↔◌, ◌<◌, IsTrue};
ghost use Rattle.perm_roles.specs.PermSet.{Has};
ghost use Rattle.share_graph.specs.declared.facts.Fact as the_facts;
ghost use Rattle.share_graph.specs.declared.facts.Node.TheVariants as node;
ghost use Rattle.share_graph.specs.declared.rows.App as the_app;
ghost use Rattle.share_graph.specs.Coherent.{IsCoherent};
ghost use Rattle.share_graph.specs.Derivation.{IsFactOf, IsOpenSite, LetsThrough, Owns};
ghost use Rattle.share_graph.specs.Nodes.{Gives};
ghost use Rattle.share_graph.specs.Rows.{IsGrain, IsGrant};
ghost use Rattle.least_access.specs.Held.{IsIn};
ghost use Rattle.access_report.specs.Steps.{IsOwned};

use host_base::{AccountId, GrainId, GrantId};
use least_access::passing::{given, is_live};
use least_access::{Held, owned};
use perm_roles::PermSet;
use share_graph::{
    Fact, Grain, Grant, Node, Tables, app as find_app, grain as find_grain, is_kept, may_receive,
};

// Whether a set has a position.
fn has(set: &PermSet, pos: u8) -> bool
    ensures { IsTrue result ↔ Has set.now pos }
{
    pos < 64 && set.has(pos)
}

/// Whether a fact is among what is held.
pub fn is_in(held: &Held, fact: Fact) -> bool
    ensures { IsTrue result ↔ IsIn held.now fact }
{
    match fact {
        Fact::Open => held.entry,
        Fact::Perm(pos) => has(&held.perms, pos),
    }
}

// What the owner of a grain of that number holds there.
fn owned_on(tables: &Tables, num: GrainId, grain: &Grain) -> Held
    requires coherent { IsCoherent tables.now }
    requires row { IsGrain tables.now num grain.now }
    ensures { (fact : the_facts.Fact) → IsIn result fact ↔ ((app : the_app.App)
        × Owns tables.now num grain.now app × IsFactOf app fact) }
{
    match find_app(tables, grain.app) {
        Some(app) => owned(tables, num, grain, app),
        None => Held::none(),
    }
}

// What an account holds on a grain as its owner.
fn own_on(tables: &Tables, num: GrainId, account: AccountId) -> Held
    requires { IsCoherent tables.now }
    ensures { (fact : the_facts.Fact) → IsIn result fact ↔ IsOwned tables.now (node.User num account) fact }
{
    match find_grain(tables, num) {
        Some(grain) if grain.owner == account => owned_on(tables, num, grain),
        _ => Held::none(),
    }
}

/// What a node holds as the owner of a grain.
pub fn own_of(tables: &Tables, node: Node) -> Held
    requires { IsCoherent tables.now }
    ensures { (fact : the_facts.Fact) → IsIn result fact ↔ IsOwned tables.now node fact }
{
    match node {
        Node::User(num, account) => own_on(tables, num, account),
        Node::Grant(_) => Held::none(),
    }
}

// Whether a grant gives a fact.
fn gives(tables: &Tables, num: GrantId, grant: &Grant, fact: Fact) -> bool
    requires coherent { IsCoherent tables.now }
    requires row { IsGrant tables.now num grant.now }
    ensures { IsTrue result ↔ Gives tables.now grant.now fact }
{
    match fact {
        Fact::Open => true,
        Fact::Perm(pos) => has(&given(tables, num, grant), pos),
    }
}

/// Whether a grant passes a fact on where its source holds it.
pub fn lets_through(tables: &Tables, num: GrantId, grant: &Grant, fact: Fact) -> bool
    requires coherent { IsCoherent tables.now }
    requires row { IsGrant tables.now num grant.now }
    ensures { IsTrue result ↔ LetsThrough tables.now num grant.now fact }
{
    is_live(tables, grant) && may_receive(tables, grant.target) && gives(tables, num, grant, fact)
}

/// Whether a grant of the site, with its needs met, gives entry.
pub fn is_open_site(tables: &Tables, num: GrantId, grant: &Grant) -> bool
    requires { IsGrant tables.now num grant.now }
    ensures { IsTrue result ↔ IsOpenSite tables.now num grant.now }
{
    is_live(tables, grant) && is_kept(tables, grant.grain)
}
