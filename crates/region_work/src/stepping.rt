//! Working off what was found.

ghost use Rattle.std.specs.Prelude.{◌≡◌, ◌≤◌, ◌+◌, ◌*◌, [], ◌∷◌, ◌++◌, List, length};
ghost use Rattle.host_base.specs.declared.ids.GrantId.{GrantId};
ghost use Rattle.share_graph.specs.Coherent.{IsCoherent};
ghost use Rattle.least_access.specs.Rounds.{total_room};
ghost use Rattle.least_access.specs.Solved.{IsSolutionOf};
ghost use Rattle.region_work.specs.Fed.{fed_in};
ghost use Rattle.region_work.specs.Working.{IsIndexOf, IsWorking, HasRegion, owed_by};

use crate::claim::Claim;
use crate::edges::{Edges, fed_by};
use crate::gain::Gain;
use crate::passing::pass_on;
use crate::probe::Probe;
use crate::waiting::Waiting;
use least_access::table::{Table, holding, put};

/// Puts what waited at a node into the table, and passes it on.
fn step<V: Probe>(
    probe: &mut V,
    table: &mut Table,
    waiting: &mut Waiting,
    edges: &Edges,
    claim: Claim,
)
    requires coherent { IsCoherent (V.tables probe.old) }
    requires index { IsIndexOf (V.tables probe.old) (fed_in edges.now.entries) }
    requires working { IsWorking (V.tables probe.old) table.old.entries
        (record { found = waiting.old.found; queue = waiting.old.queue ++ claim ∷ [] }) }
    ensures same { V.tables probe.new ≡ V.tables probe.old }
    ensures working { IsWorking (V.tables probe.old) table.new.entries waiting.new }
    ensures less { 2 * total_room waiting.new.found + length waiting.new.queue
        ≤ 2 * total_room waiting.old.found + length waiting.old.queue }
    ensures region { (gs : List GrantId) → HasRegion (V.tables probe.old) waiting.old.found gs
        → HasRegion (V.tables probe.old) waiting.new.found gs }
    ensures counted { (gs : List GrantId) → HasRegion (V.tables probe.old) waiting.old.found gs
        → V.count probe.new + owed_by (V.tables probe.old) table.new.entries gs ≤ V.count probe.old + owed_by (V.tables probe.old) table.old.entries gs }
{
    let before = holding(table, claim.node);
    let after = before.union(&claim.held);
    if after == before {
        return;
    }
    put(table, claim.node, after);
    let gain = Gain {
        node: claim.node,
        gained: claim.held,
        before,
        after,
    };
    pass_on(probe, table, waiting, fed_by(edges, claim.node), &gain);
}

/// Works off what waits, until nothing does.
pub fn work_off<V: Probe>(probe: &mut V, table: &mut Table, waiting: &mut Waiting, edges: &Edges)
    requires coherent { IsCoherent (V.tables probe.old) }
    requires index { IsIndexOf (V.tables probe.old) (fed_in edges.now.entries) }
    requires working { IsWorking (V.tables probe.old) table.old.entries waiting.old }
    ensures same { V.tables probe.new ≡ V.tables probe.old }
    ensures solution { IsSolutionOf (V.tables probe.old) table.new.entries }
    ensures counted { (gs : List GrantId) → HasRegion (V.tables probe.old) waiting.old.found gs
        → V.count probe.new + owed_by (V.tables probe.old) table.new.entries gs ≤ V.count probe.old + owed_by (V.tables probe.old) table.old.entries gs }
{
    'steps: while let Some(claim) = waiting.take() {
        step(probe, table, waiting, edges, claim);
    }
}
