//! Events after which every node holds what it held, seen from a few rows.

ghost use Rattle.std.specs.Prelude.{◌≡◌, ◌≤◌, ◌+◌, [], ◌∷◌, List, IsSome, IsTrue, length};
ghost use Rattle.share_graph.specs.declared.facts.Fact.{Fact};
ghost use Rattle.share_graph.specs.declared.facts.Node.{Node};
ghost use Rattle.share_graph.specs.declared.grants.Grant as the_grant;
ghost use Rattle.share_graph.specs.declared.rows.App as the_app;
ghost use Rattle.share_graph.specs.Coherent.{IsCoherent};
ghost use Rattle.share_graph.specs.Derivation.{Asks, Follows};
ghost use Rattle.share_graph.specs.Fitting.{IsAssignmentFor};
ghost use Rattle.share_graph.specs.Nodes.{node_of as the_node_of};
ghost use Rattle.share_graph.specs.Rows.{IsAppOf, IsGrant};
ghost use Rattle.least_access.specs.Held.{IsIn};
ghost use Rattle.least_access.specs.Solved.{held_at, HeldAt};
ghost use Rattle.region_access.specs.Arriving.{IsArrivalsOf};
ghost use Rattle.region_work.specs.Fed.{fed_in};
ghost use Rattle.region_access.specs.Reaching.{IsRegionOf};
ghost use Rattle.region_work.specs.Emptying.{IsEmptyAt};
ghost use Rattle.live_access.specs.Staying.{AddsNothing, IsFedOutside, IsGivenOtherwise, TakesNothing};

use host_base::GrantId;
use least_access::Held;
use least_access::table::{Table, holding};
use region_work::Probe;
use region_work::edges::{Edges, fed_by};
use region_work::meeting::holder_of;
use share_graph::{Grant, Need, Node, node_of};

// Whether the first holds all that the second does.
fn covers(held: &Held, other: &Held) -> bool
    ensures { IsTrue result → (fact : Fact) → IsIn other.now fact → IsIn held.now fact }
{
    (held.entry || !other.entry) && held.perms.contains(&other.perms)
}

/// Whether a new grant adds nothing. It is evaluated once.
pub(crate) fn adds_nothing<V: Probe>(probe: &mut V, table: &Table, grant: &Grant) -> bool
    requires coherent { IsCoherent (V.tables probe.old) }
    requires fits { (app : the_app.App) → IsAppOf (V.tables probe.old) grant.now.grain app
        → IsAssignmentFor app.manifest grant.now.assignment }
    ensures nothing { IsTrue result → AddsNothing (V.tables probe.old) table.now.entries grant.now }
    ensures same { V.tables probe.new ≡ V.tables probe.old }
    ensures counted { V.count probe.new ≡ V.count probe.old + 1 }
{
    match probe.offer(grant, table) {
        Some(most) => covers(&holding(table, node_of(grant.num, grant)), &most),
        None => false,
    }
}

// Whether a need names no node of a region.
fn names_none(need: &Need, region: &Table) -> bool
    ensures { IsTrue result → (at : Node) (asked : Fact) → Asks need.now at asked
        → IsSome (held_at region.now.entries at) → ⊥ }
{
    match holder_of(need) {
        Some(node) => !region.contains_key(&node),
        None => true,
    }
}

// Whether a grant is fed from outside of a region alone.
fn is_fed_outside<V: Probe>(probe: &V, region: &Table, num: GrantId) -> bool
    requires { (grant : the_grant.Grant) × IsGrant (V.tables probe.now) num grant }
    ensures { IsTrue result → (nodes : List Node) (grant : the_grant.Grant) → IsEmptyAt nodes region.now.entries
        → IsGrant (V.tables probe.now) num grant → IsFedOutside nodes grant }
{
    match probe.source(num) {
        Some(from) => {
            !region.contains_key(&from)
                && probe.needs(num).iter().all(|need| names_none(need, region))
        }
        None => false,
    }
}

// What the grant of a number passes on, if it is fed from outside of a region alone.
fn gave_from_outside<V: Probe>(probe: &mut V, table: &Table, region: &Table, num: GrantId) -> Held
    requires coherent { IsCoherent (V.tables probe.old) }
    requires row { (grant : the_grant.Grant) × IsGrant (V.tables probe.old) num grant }
    ensures gave { (nodes : List Node) (fact : Fact) (grant : the_grant.Grant) → IsEmptyAt nodes region.now.entries
        → IsGrant (V.tables probe.old) num grant → IsIn result fact
        → Follows (V.tables probe.old) (HeldAt table.now.entries) num grant (the_node_of num grant) fact
        × IsFedOutside nodes grant }
    ensures same { V.tables probe.new ≡ V.tables probe.old }
    ensures counted { V.count probe.new ≤ V.count probe.old + 1 }
{
    if is_fed_outside(probe, region, num) {
        probe.pass(num, table)
    } else {
        Held::none()
    }
}

// Whether other grants give a node all of this, from outside of its region.
fn is_given_otherwise<V: Probe>(
    probe: &mut V,
    table: &Table,
    arrivals: &Edges,
    region: &Table,
    at: Node,
    num: GrantId,
    passed: &Held,
) -> bool
    requires coherent { IsCoherent (V.tables probe.old) }
    requires arrivals { IsArrivalsOf (V.tables probe.old) (fed_in arrivals.now.entries) }
    ensures given { IsTrue result → (nodes : List Node) (fact : Fact) → IsEmptyAt nodes region.now.entries
        → IsIn passed.now fact → IsGivenOtherwise (V.tables probe.old) table.now.entries nodes num at fact }
    ensures same { V.tables probe.new ≡ V.tables probe.old }
    ensures counted { V.count probe.new ≤ V.count probe.old + length (fed_in arrivals.now.entries at) }
{
    let mut given = Held::none();
    let fed = fed_by(arrivals, at);
    for k in (0..fed.len()).rev() {
        let other = fed[k];
        if covers(&given, passed) {
            return true;
        }
        if other != num {
            given = given.union(&gave_from_outside(probe, table, region, other));
        }
    }
    covers(&given, passed)
}

/// Whether revoking a grant takes nothing. The region has a place for each node that its node reaches. The grant is evaluated once,
/// and so is each other one that goes to its node, the newest first, until what is missed is found.
pub(crate) fn takes_nothing<V: Probe>(
    probe: &mut V,
    table: &Table,
    arrivals: &Edges,
    region: &Table,
    num: GrantId,
) -> bool
    requires coherent { IsCoherent (V.tables probe.old) }
    requires arrivals { IsArrivalsOf (V.tables probe.old) (fed_in arrivals.now.entries) }
    requires row { (grant : the_grant.Grant) × IsGrant (V.tables probe.old) num grant }
    requires region { (nodes : List Node) × IsEmptyAt nodes region.now.entries × ((grant : the_grant.Grant)
        → IsGrant (V.tables probe.old) num grant → IsRegionOf (V.tables probe.old) (the_node_of num grant ∷ []) nodes) }
    ensures nothing { IsTrue result → TakesNothing (V.tables probe.old) table.now.entries num }
    ensures same { V.tables probe.new ≡ V.tables probe.old }
    ensures counted { (grant : the_grant.Grant) → IsGrant (V.tables probe.old) num grant
        → V.count probe.new ≤ V.count probe.old + 1 + length (fed_in arrivals.now.entries (the_node_of num grant)) }
{
    if probe.source(num).is_none() {
        return false;
    }
    let passed = probe.pass(num, table);
    let node = probe.node(num);
    is_given_otherwise(probe, table, arrivals, region, node, num, &passed)
}
