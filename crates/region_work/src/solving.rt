//! Solving a region again.

ghost use Rattle.std.specs.Prelude.{◌≡◌, ◌≤◌, ◌+◌, List, length};
ghost use Rattle.share_graph.specs.Coherent.{IsCoherent};
ghost use Rattle.least_access.specs.Solved.{IsSolutionOf};
ghost use Rattle.region_work.specs.Fed.{fed_in};
ghost use Rattle.host_base.specs.declared.ids.GrantId.{GrantId};
ghost use Rattle.share_graph.specs.declared.facts.Node.{Node};
ghost use Rattle.region_work.specs.Prepared.{HasGrants, IsPrepared, IsToGrow, IsFresh};
ghost use Rattle.region_work.specs.Starting.{bound_by, needs_by, most_evaluations};
ghost use Rattle.region_work.specs.Working.{HasRegion, IsIndexOf, owed_by};

use crate::edges::Edges;
use crate::owning::find_owned;
use crate::probe::Probe;
use crate::starting::start_grants;
use crate::stepping::work_off;
use crate::waiting::Waiting;
use host_base::GrantId;
use least_access::table::Table;
use share_graph::Node;

/// Fills a cleared region again, in no memory: the table is then the solution, for `66 * G + R` evaluations at most, where G
/// grants with R needs go to it.
pub fn solve_region<V: Probe>(
    probe: &mut V,
    table: &mut Table,
    waiting: &mut Waiting,
    edges: &Edges,
    nodes: &[Node],
    grants: &[GrantId],
)
    requires coherent { IsCoherent (V.tables probe.old) }
    requires index { IsIndexOf (V.tables probe.old) (fed_in edges.now.entries) }
    requires grants { HasGrants (V.tables probe.old) nodes.now grants.now }
    requires prepared { IsPrepared (V.tables probe.old) nodes.now table.old.entries }
    requires fresh { IsFresh nodes.now waiting.old }
    ensures same { V.tables probe.new ≡ V.tables probe.old }
    ensures solution { IsSolutionOf (V.tables probe.old) table.new.entries }
    ensures bound { V.count probe.new ≤ V.count probe.old + most_evaluations (length grants.now)
        (needs_by (V.tables probe.old) grants.now) }

    // A grant costs one evaluation, one for each fact that its source holds at the end, and one for each need that is met then.
    ensures spent { V.count probe.new + owed_by (V.tables probe.old) table.new.entries grants.now
        ≤ V.count probe.old + bound_by (V.tables probe.old) grants.now }
{
    find_owned(probe, waiting, nodes);
    start_grants(probe, table, waiting, grants);
    work_off(probe, table, waiting, edges);
}

/// Lets a table grow by what a change adds, in no memory and with nothing taken back: the table is then the solution. Each grant
/// that goes to the starts costs one evaluation; beyond that there is one for each fact that the source of a grant gains, and for
/// each need that becomes met.
pub fn grow_region<V: Probe>(
    probe: &mut V,
    table: &mut Table,
    waiting: &mut Waiting,
    edges: &Edges,
    starts: &[Node],
    arrivals: &[GrantId],
)
    requires coherent { IsCoherent (V.tables probe.old) }
    requires index { IsIndexOf (V.tables probe.old) (fed_in edges.now.entries) }
    requires arrivals { HasGrants (V.tables probe.old) starts.now arrivals.now }
    requires grows { (nodes : List Node) × IsToGrow (V.tables probe.old) starts.now nodes table.old.entries
        × IsFresh nodes waiting.old }
    ensures same { V.tables probe.new ≡ V.tables probe.old }
    ensures solution { IsSolutionOf (V.tables probe.old) table.new.entries }
    ensures spent { (fed : List GrantId) → HasRegion (V.tables probe.old) waiting.old.found fed
        → V.count probe.new + owed_by (V.tables probe.old) table.new.entries fed
        ≤ V.count probe.old + length arrivals.now + owed_by (V.tables probe.old) table.old.entries fed }
{
    find_owned(probe, waiting, starts);
    start_grants(probe, table, waiting, arrivals);
    work_off(probe, table, waiting, edges);
}
