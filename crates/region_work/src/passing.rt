//! Passing on what a node gained.

ghost use Rattle.std.specs.Prelude.{◌≡◌, ◌⊎◌, ◌↔◌, ◌≤◌, ◌+◌, ◌-◌, Contains, IsSome, IsTrue, Some, sum_by};
ghost use Rattle.host_base.specs.declared.ids.GrantId.{GrantId};
ghost use Rattle.share_graph.specs.declared.facts.Fact.{Fact};
ghost use Rattle.share_graph.specs.declared.grants.Grant.{Grant};
ghost use Rattle.share_graph.specs.declared.grants.Need.{Need};
ghost use Rattle.share_graph.specs.Coherent.{IsCoherent};
ghost use Rattle.share_graph.specs.Derivation.{Follows};
ghost use Rattle.share_graph.specs.Nodes.{node_of, source_of};
ghost use Rattle.share_graph.specs.Rows.{IsGrant};
ghost use Rattle.least_access.specs.Rounds.{IsSound};
ghost use Rattle.least_access.specs.Solved.{Table, held_at, HeldAt};
ghost use Rattle.region_work.specs.Moves.{Becomes, Moves};
ghost use Rattle.region_work.specs.Owed.{owed};
ghost use Rattle.region_work.specs.Work.{Finds};

use crate::gain::Gain;
use crate::meeting::{any_becomes_met, is_node};
use crate::probe::Probe;
use crate::trying::try_grant;
use crate::waiting::Waiting;
use host_base::GrantId;
use least_access::table::Table;

// Whether a need of a grant became met as a node gained facts, or the node is the grant's source.
fn is_reached<V: Probe>(probe: &V, num: GrantId, gain: &Gain) -> bool
    requires { (grant : Grant) × IsGrant (V.tables probe.now) num grant }
    ensures { (grant : Grant) → IsGrant (V.tables probe.now) num grant → IsTrue result ↔ (source_of grant ≡ Some gain.now.node
        ⊎ ((need : Need) × Contains grant.needs need × Becomes gain.now need)) }
{
    is_node(probe.source(num), gain.node) || any_becomes_met(probe.needs(num), gain)
}

// Asks what a grant passes on since a node gained facts, where a need became met by them or the node is the grant's source.
fn pass_by<V: Probe>(probe: &mut V, table: &Table, waiting: &mut Waiting, num: GrantId, gain: &Gain)
    requires coherent { IsCoherent (V.tables probe.old) }
    requires row { (grant : Grant) × IsGrant (V.tables probe.old) num grant
        × IsSome (held_at waiting.old.found (node_of num grant)) }
    ensures same { V.tables probe.new ≡ V.tables probe.old }
    ensures finds { Finds waiting.old waiting.new }
    ensures sound { IsSound (V.tables probe.old) table.now.entries
        → IsSound (V.tables probe.old) waiting.old.found
        → IsSound (V.tables probe.old) waiting.new.found }
    ensures counted { (start : Table) → Moves gain.now start table.now.entries
        → V.count probe.new ≤ V.count probe.old + (owed (V.tables probe.old) start num - owed (V.tables probe.old) table.now.entries num) }
    ensures closed { (start : Table) → Moves gain.now start table.now.entries → (grant : Grant) (fact : Fact)
        → IsGrant (V.tables probe.old) num grant
        → Follows (V.tables probe.old) (HeldAt table.now.entries) num grant (node_of num grant)
        fact → Follows (V.tables probe.old) (HeldAt start) num grant (node_of num grant) fact
        ⊎ HeldAt waiting.new.found (node_of num grant) fact }
{
    if is_reached(probe, num, gain) {
        try_grant(probe, table, waiting, num);
    }
}

/// Asks what the grants that a node feeds pass on since it gained facts.
pub fn pass_on<V: Probe>(
    probe: &mut V,
    table: &Table,
    waiting: &mut Waiting,
    fed: &[GrantId],
    gain: &Gain,
)
    requires coherent { IsCoherent (V.tables probe.old) }
    requires rows { (num : GrantId) → Contains fed.now num
        → (grant : Grant) × IsGrant (V.tables probe.old) num grant × IsSome (held_at waiting.old.found (node_of num grant)) }
    ensures same { V.tables probe.new ≡ V.tables probe.old }
    ensures finds { Finds waiting.old waiting.new }
    ensures sound { IsSound (V.tables probe.old) table.now.entries
        → IsSound (V.tables probe.old) waiting.old.found
        → IsSound (V.tables probe.old) waiting.new.found }
    ensures counted { (start : Table) → Moves gain.now start table.now.entries
        → V.count probe.new ≤ V.count probe.old + sum_by (λ num. owed (V.tables probe.old) start num - owed (V.tables probe.old) table.now.entries num) fed.now }
    ensures closed { (start : Table) → Moves gain.now start table.now.entries
        → (num : GrantId) (grant : Grant) (fact : Fact) → Contains fed.now num → IsGrant (V.tables probe.old) num grant
        → Follows (V.tables probe.old) (HeldAt table.now.entries) num grant (node_of num grant) fact
        → Follows (V.tables probe.old) (HeldAt start) num grant (node_of num grant) fact ⊎ HeldAt waiting.new.found (node_of num grant) fact }
{
    for num in fed {
        pass_by(probe, table, waiting, *num, gain);
    }
}
