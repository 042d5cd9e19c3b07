//! Asking what one grant passes on.

ghost use Rattle.std.specs.Prelude.{◌≡◌, ◌+◌, IsSome};
ghost use Rattle.share_graph.specs.declared.facts.Fact.{Fact};
ghost use Rattle.share_graph.specs.declared.grants.Grant.{Grant};
ghost use Rattle.share_graph.specs.Coherent.{IsCoherent};
ghost use Rattle.share_graph.specs.Derivation.{Follows};
ghost use Rattle.share_graph.specs.Nodes.{node_of};
ghost use Rattle.share_graph.specs.Rows.{IsGrant};
ghost use Rattle.least_access.specs.Rounds.{IsSound};
ghost use Rattle.least_access.specs.Solved.{held_at, HeldAt};
ghost use Rattle.region_work.specs.Work.{Finds};

use crate::probe::Probe;
use crate::waiting::Waiting;
use host_base::GrantId;
use least_access::table::Table;

/// Asks once what a grant passes on, and adds it to what was found.
pub fn try_grant<V: Probe>(probe: &mut V, table: &Table, waiting: &mut Waiting, num: GrantId)
    requires coherent { IsCoherent (V.tables probe.old) }
    requires row { (grant : Grant) × IsGrant (V.tables probe.old) num grant
        × IsSome (held_at waiting.old.found (node_of num grant)) }
    ensures same { V.tables probe.new ≡ V.tables probe.old }
    ensures counted { V.count probe.new ≡ V.count probe.old + 1 }
    ensures finds { Finds waiting.old waiting.new }
    ensures sound { IsSound (V.tables probe.old) table.now.entries
        → IsSound (V.tables probe.old) waiting.old.found
        → IsSound (V.tables probe.old) waiting.new.found }
    ensures tried { (grant : Grant) (fact : Fact) → IsGrant (V.tables probe.old) num grant
        → Follows (V.tables probe.old) (HeldAt table.now.entries) num grant (node_of num grant) fact → HeldAt waiting.new.found (node_of num grant) fact }
{
    let passed = probe.pass(num, table);
    waiting.find(probe.node(num), &passed);
}
