//! Asking what grants pass on from the start.

ghost use Rattle.std.specs.Prelude.{◌≡◌, ◌≤◌, ◌+◌, length, Contains, IsSome};
ghost use Rattle.host_base.specs.declared.ids.GrantId.{GrantId};
ghost use Rattle.share_graph.specs.declared.facts.Fact.{Fact};
ghost use Rattle.share_graph.specs.declared.grants.Grant.{Grant};
ghost use Rattle.share_graph.specs.Coherent.{IsCoherent};
ghost use Rattle.share_graph.specs.Derivation.{Follows};
ghost use Rattle.share_graph.specs.Nodes.{node_of};
ghost use Rattle.share_graph.specs.Rows.{IsGrant};
ghost use Rattle.least_access.specs.Rounds.{IsSound};
ghost use Rattle.least_access.specs.Solved.{held_at, HeldAt};
ghost use Rattle.region_work.specs.Starting.{bound_by};
ghost use Rattle.region_work.specs.Work.{Finds};
ghost use Rattle.region_work.specs.Working.{owed_by};

use crate::probe::Probe;
use crate::trying::try_grant;
use crate::waiting::Waiting;
use host_base::GrantId;
use least_access::table::Table;

/// Asks what grants pass on by what the table has.
pub fn start_grants<V: Probe>(
    probe: &mut V,
    table: &Table,
    waiting: &mut Waiting,
    grants: &[GrantId],
)
    requires coherent { IsCoherent (V.tables probe.old) }
    requires rows { (num : GrantId) → Contains grants.now num
        → (grant : Grant) × IsGrant (V.tables probe.old) num grant × IsSome (held_at waiting.old.found (node_of num grant)) }
    ensures same { V.tables probe.new ≡ V.tables probe.old }
    ensures once { V.count probe.new ≡ V.count probe.old + length grants.now }
    ensures counted { V.count probe.new + owed_by (V.tables probe.old) table.now.entries grants.now
        ≤ V.count probe.old + bound_by (V.tables probe.old) grants.now }
    ensures finds { Finds waiting.old waiting.new }
    ensures sound { IsSound (V.tables probe.old) table.now.entries
        → IsSound (V.tables probe.old) waiting.old.found
        → IsSound (V.tables probe.old) waiting.new.found }
    ensures tried { (num : GrantId) (grant : Grant) (fact : Fact) → Contains grants.now num
        → IsGrant (V.tables probe.old) num grant
        → Follows (V.tables probe.old) (HeldAt table.now.entries) num grant (node_of num grant)
        fact → HeldAt waiting.new.found (node_of num grant) fact }
{
    for num in grants {
        try_grant(probe, table, waiting, *num);
    }
}
