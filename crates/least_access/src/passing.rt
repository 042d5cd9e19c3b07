//! What a grant passes on by what a table has.

ghost use Rattle.std.specs.Prelude.{◌≡◌, ◌↔◌, ◌≤◌, ℕ, IsTrue, length, false};
ghost use Rattle.perm_roles.specs.PermSet.{Has};
ghost use Rattle.perm_roles.specs.Roles.{GivesPermission as AssignmentGives};
ghost use Rattle.share_graph.specs.declared.facts.Fact.{Fact};
ghost use Rattle.share_graph.specs.Coherent.{IsCoherent};
ghost use Rattle.share_graph.specs.Derivation.{LetsThrough, IsOpenSite, Follows};
ghost use Rattle.share_graph.specs.Expiry.{Lasts};
ghost use Rattle.share_graph.specs.Fitting.{IsSoundManifest, IsAssignmentFor};
ghost use Rattle.share_graph.specs.Nodes.{node_of, Gives};
ghost use Rattle.share_graph.specs.Rows.{IsGrant};
ghost use Rattle.least_access.specs.Held.{IsIn};
ghost use Rattle.least_access.specs.Solved.{HeldAt};

use crate::held::Held;
use crate::needs::are_met;
use crate::table::{Table, holding};
use app_manifest::Manifest;
use host_base::GrantId;
use perm_roles::{Assignment, PermSet};
use share_graph::{Grant, Node, Tables, app_of, is_kept, lasts, may_receive, source_of};

// What an assignment gives by a manifest that it fits.
fn given_by(manifest: &Manifest, assignment: &Assignment) -> PermSet
    requires manifest { IsSoundManifest manifest.now }
    requires assignment { IsAssignmentFor manifest.now assignment.now }
    ensures { (p : ℕ) → Has result p ↔ AssignmentGives manifest.now.roles
        (length manifest.now.permissions) assignment.now p }
{
    let count = manifest.permissions.as_slice().len() as u8;
    perm_roles::granted(manifest.roles.as_slice(), count, assignment)
}

/// The permissions that a grant gives.
pub fn given(tables: &Tables, num: GrantId, grant: &Grant) -> PermSet
    requires coherent { IsCoherent tables.now }
    requires row { IsGrant tables.now num grant.now }
    ensures { (p : ℕ) → Has result p ↔ Gives tables.now grant.now (Fact.Perm p) }
{
    match app_of(tables, grant.grain) {
        Some(app) => given_by(&app.manifest, &grant.assignment),
        None => unreachable!(),
    }
}

/// Whether a grant isn't revoked and hasn't ended by itself.
pub fn is_live(tables: &Tables, grant: &Grant) -> bool
    ensures { IsTrue result ↔ ((grant.now.revoked ≡ false) × Lasts tables.now.moment grant.now.expires) }
{
    !grant.revoked && lasts(tables.moment, grant.expires)
}

// What a live grant passes on of what its source holds.
fn passed_on(tables: &Tables, table: &Table, num: GrantId, grant: &Grant, from: Node) -> Held
    requires coherent { IsCoherent tables.now }
    requires row { IsGrant tables.now num grant.now }
    requires live { grant.now.revoked ≡ false }
    requires lasts { Lasts tables.now.moment grant.now.expires }
    ensures { (fact : Fact) → IsIn result fact ↔ (LetsThrough tables.now num grant.now fact
        × HeldAt table.now.entries from fact) }
{
    if !may_receive(tables, grant.target) {
        return Held::none();
    }
    let held = holding(table, from);
    Held {
        entry: held.entry,
        perms: held.perms.meet(&given(tables, num, grant)),
    }
}

// What a live grant of the site gives.
fn given_by_site(tables: &Tables, num: GrantId, grant: &Grant) -> Held
    requires row { IsGrant tables.now num grant.now }
    requires live { grant.now.revoked ≡ false }
    requires lasts { Lasts tables.now.moment grant.now.expires }
    ensures { (fact : Fact) → IsIn result fact ↔ (IsOpenSite tables.now num grant.now × (fact ≡ Fact.Open)) }
{
    Held {
        entry: is_kept(tables, grant.grain),
        perms: PermSet::empty(),
    }
}

/// What a grant of that number adds at its node, by what a table has.
pub fn passed(tables: &Tables, table: &Table, num: GrantId, grant: &Grant) -> Held
    requires coherent { IsCoherent tables.now }
    requires row { IsGrant tables.now num grant.now }
    ensures { (fact : Fact) → IsIn result fact ↔ Follows tables.now (HeldAt table.now.entries) num
        grant.now (node_of num grant.now) fact }
{
    if !is_live(tables, grant) {
        return Held::none();
    }
    if !are_met(tables, table, grant.needs.as_slice()) {
        return Held::none();
    }
    match source_of(grant) {
        Some(from) => passed_on(tables, table, num, grant, from),
        None => given_by_site(tables, num, grant),
    }
}
