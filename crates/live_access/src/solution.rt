//! The solution of tables, kept along the history of events.

ghost use Rattle.std.specs.Prelude.{◌≡◌, ◌≢◌, ◌↔◌, ◌<◌, ◌≤◌, ◌+◌, true, false, AllPairs, Contains, IsTrue, IfOk, List, OnErr, length};
ghost use Rattle.host_base.specs.declared.ids.GrantId.{GrantId};
ghost use Rattle.share_graph.specs.declared.event.Event.{Event};
ghost use Rattle.share_graph.specs.declared.facts.Fact.{Fact};
ghost use Rattle.share_graph.specs.declared.facts.Node.{Node};
ghost use Rattle.share_graph.specs.declared.grants.Grant.{Grant};
ghost use Rattle.share_graph.specs.declared.state.State.{State};
ghost use Rattle.share_graph.specs.Checked.{IsChecked};
ghost use Rattle.share_graph.specs.Coherent.{IsCoherent};
ghost use Rattle.share_graph.specs.History.{after};
ghost use Rattle.share_graph.specs.Nodes.{node_of};
ghost use Rattle.share_graph.specs.Rows.{IsGrant};
ghost use Rattle.share_graph.specs.Trees.{HasTree};
ghost use Rattle.share_graph.specs.WellFormed.{IsWithinLimits};
ghost use Rattle.least_access.specs.Solved.{HeldAt, IsSolutionOf};
ghost use Rattle.region_access.specs.Arriving.{IsArrivalsOf};
ghost use Rattle.region_access.specs.Room.{HasEmptyPlace};
ghost use Rattle.region_access.specs.Seeds.{IsSeedOf};
ghost use Rattle.region_access.specs.Ties.{IsTiesOf, tied_in};
ghost use Rattle.region_work.specs.Fed.{fed_in};
ghost use Rattle.region_work.specs.Prepared.{HasGrants};
ghost use Rattle.region_work.specs.Starting.{bound_by, needs_by, most_evaluations};
ghost use Rattle.region_work.specs.Working.{IsIndexOf, owed_by};
ghost use Rattle.live_access.specs.Kept.{IsSolvedFor};
ghost use Rattle.live_access.specs.Ready.{AreSeedsFor, IsBefore, IsReadyFor, most_looks};
ghost use Rattle.live_access.specs.Staying.{TakesNothing};

use crate::adding::{added_by, only_adds};
use crate::region::{Region, starts_of};
use crate::staying::{adds_nothing, takes_nothing};
use host_base::{GrantId, Memory};
use least_access::Solved;
use region_access::{
    Indexes, Ties, arrivals_of, collect, distinct, drop_empty, edges_of, find_region, seeds_of,
    solve_anew, ties_of,
};
use region_work::edges::Edges;
use region_work::emptying::empty_at;
use region_work::{Probe, grow_region, solve_region};
use share_graph::{Event, Node, Tables};
use std::alloc::Global;
use std::marker::{Brand, Model};
use std::sync::ledger::Blank;

/// What each node holds, with the indexes by which the region of a change is found in its own size.
pub struct Solution {
    solved: Solved,
    indexes: Indexes,
}

impl Drop for Solution {
    fn drop(self) {
        let Solution {
            solved: _,
            indexes: _,
        } = self;
    }
}

impl Model for Solution {
    ghost use Rattle.region_access.specs.Indexes.{entries_of};
    ghost use Rattle.live_access.specs.Kept.{Kept};

    ghost Value = { Kept };

    ghost view = { λ solution. record { table = solution.solved; indexes = entries_of solution.indexes } };
}

/// Solves tables from scratch, in time that is near linear in what is held, needed and shared: each node holds exactly the facts of
/// which there is a derivation, which are those that a finite tree shows.
pub fn solve(alloc: Global, tables: &Tables) -> Result<Solution, Memory>
    requires checked { IsChecked tables.now }
    requires limits { IsWithinLimits tables.now }
    ensures solved { IfOk result (IsSolvedFor tables.now) }
    ensures trees { IfOk result (λ solution. (at : Node) (fact : Fact)
        → HeldAt solution.table at fact ↔ HasTree tables.now at fact) }
{
    let edges = edges_of(alloc, tables)?;
    let arrivals = arrivals_of(alloc, tables)?;
    let ties = ties_of(alloc, tables)?;
    let table = solve_anew::<Brand>(alloc, tables, &edges, Blank::new(1))?;
    Ok(Solution {
        solved: Solved { table },
        indexes: Indexes {
            edges,
            arrivals,
            ties,
        },
    })
}

impl Solution {
    /// What each node holds.
    pub fn solved(&self) -> &Solved
        ensures { result.now ≡ self.now.table }
    {
        &self.solved
    }

    /// What grants hang on beside nodes, by which the seeds of an event are found.
    pub fn ties(&self) -> &Ties
        ensures { (t : Tables) → IsSolvedFor t self.now → IsTiesOf t (tied_in result.now.entries) }
    {
        &self.indexes.ties
    }

    /// The grants that each node feeds, as their source or in a need.
    pub fn edges(&self) -> &Edges
        ensures { (t : Tables) → IsSolvedFor t self.now → IsIndexOf t (fed_in result.now.entries) }
    {
        &self.indexes.edges
    }

    /// The grants that go to each node.
    pub fn arrivals(&self) -> &Edges
        ensures { (t : Tables) → IsSolvedFor t self.now → IsArrivalsOf t (fed_in result.now.entries) }
    {
        &self.indexes.arrivals
    }

    // Whether revoking a grant takes nothing, as far as the other grants tell that go to its node.
    fn loses_nothing<V: Probe>(
        &self,
        alloc: Global,
        probe: &mut V,
        num: GrantId,
    ) -> Result<bool, Memory>
        requires coherent { IsCoherent (V.tables probe.old) }
        requires row { (grant : Grant) × IsGrant (V.tables probe.old) num grant }
        requires solved { IsSolvedFor (V.tables probe.old) self.now }
        ensures nothing { IfOk result (λ nothing. IsTrue nothing
            → TakesNothing (V.tables probe.old) self.now.table num) }
        ensures same { V.tables probe.new ≡ V.tables probe.old }
        ensures counted { (grant : Grant) → IsGrant (V.tables probe.old) num grant → V.count probe.new
            ≤ V.count probe.old + 1 + length (fed_in self.now.indexes.arrivals (node_of num grant)) }
    {
        let node = probe.node(num);
        let nodes = find_region(alloc, probe, &self.indexes.edges, &[node])?;
        let region = empty_at(alloc, nodes.as_slice())?;
        let (table, arrivals) = (&self.solved.table, &self.indexes.arrivals);
        Ok(takes_nothing(probe, table, arrivals, &region, num))
    }

    // Whether every node holds after an event what it held, as far as a few grants tell.
    fn stays<V: Probe>(&self, alloc: Global, probe: &mut V, event: &Event) -> Result<bool, Memory>
        requires before { (s : State) × IsBefore s event.now (V.tables probe.old) }
        requires solved { IsSolvedFor (V.tables probe.old) self.now }
        ensures stays { IfOk result (λ stays. IsTrue stays → (s : State) → IsBefore s event.now (V.tables probe.old)
            → IsSolutionOf (after s event.now).tables self.now.table) }
        ensures same { V.tables probe.new ≡ V.tables probe.old }
        ensures looks { V.count probe.new
            ≤ V.count probe.old + most_looks (V.tables probe.old) self.now.indexes event.now }
    {
        let table = &self.solved.table;
        match event {
            Event::GrantAdded(grant) => Ok(adds_nothing(probe, table, grant)),
            Event::Claimed(grant, _) => Ok(adds_nothing(probe, table, grant)),
            Event::GrantRevoked(num) => self.loses_nothing(alloc, probe, *num),
            _ => Ok(false),
        }
    }

    // The seeds, each once; none where every node holds after the event what it held.
    fn starts<V: Probe>(
        &self,
        alloc: Global,
        probe: &mut V,
        event: &Event,
        seeds: &[Node],
    ) -> Result<Vec<Node>, Memory>
        requires before { (s : State) × IsBefore s event.now (V.tables probe.old) }
        requires seeds { (at : Node) → Contains seeds.now at ↔ IsSeedOf (V.tables probe.old) event.now at }
        requires solved { IsSolvedFor (V.tables probe.old) self.now }
        ensures exact { IfOk result (λ starts. (s : State) → IsBefore s event.now (V.tables probe.old)
            → AreSeedsFor s event.now self.now.table starts.items) }
        ensures once { IfOk result (λ starts. AllPairs (λ (a : Node) (b : Node). a ≢ b) starts.items) }
        ensures same { V.tables probe.new ≡ V.tables probe.old }
        ensures looks { V.count probe.new
            ≤ V.count probe.old + most_looks (V.tables probe.old) self.now.indexes event.now }
    {
        if self.stays(alloc, probe, event)? {
            return Ok(Vec::new(alloc));
        }
        distinct(alloc, seeds)
    }

    /// Makes ready for an event with these seeds: finds its region and takes all room that solving it wants, clears it where the event
    /// may take something, and adds a new grant to the indexes. The region is empty where a few grants tell that every node will hold
    /// what it holds; these alone are evaluated. Want of memory leaves the solution what it was.
    pub fn prepare<V: Probe>(
        &mut self,
        alloc: Global,
        probe: &mut V,
        event: &Event,
        seeds: &[Node],
    ) -> Result<Region, Memory>
        requires before { (s : State) × IsBefore s event.now (V.tables probe.old) }
        requires seeds { (at : Node) → Contains seeds.now at ↔ IsSeedOf (V.tables probe.old) event.now at }
        requires solved { IsSolvedFor (V.tables probe.old) self.old }
        ensures ok { IfOk result (λ region. (s : State) → IsBefore s event.now (V.tables probe.old)
            → IsReadyFor s event.now self.new region) }
        ensures err { OnErr result (IsSolvedFor (V.tables probe.old) self.new) }
        ensures same { V.tables probe.new ≡ V.tables probe.old }
        ensures looks { V.count probe.new
            ≤ V.count probe.old + most_looks (V.tables probe.old) self.old.indexes event.now }
    {
        let seeds = self.starts(alloc, probe, event, seeds)?;
        let added = added_by(alloc, event)?;
        let grows = only_adds(probe, event);
        let room = region_access::prepare(
            alloc,
            probe,
            &mut self.solved.table,
            &mut self.indexes,
            seeds.as_slice(),
            &added,
            grows,
        )?;
        let starts = starts_of(&room, seeds.as_slice());
        match collect(alloc, &self.indexes.arrivals, starts) {
            Ok(grants) => Ok(Region {
                room,
                seeds,
                grants,
                added,
            }),
            Err(fault) => {
                region_access::take_back(&mut self.solved.table, &mut self.indexes, room, &added);
                Err(fault)
            }
        }
    }

    /// Solves the region again by the tables after the event, with bounds on the evaluations. Where the event only adds, there is one
    /// for each grant that goes to a seed, one for each fact that the source of a grant gains, and one for each need that becomes met.
    /// Else there are at most `66 * G + R`, where the region has G grants with R needs, and fewer where less is held. It takes no
    /// memory.
    pub fn settle<V: Probe>(&mut self, probe: &mut V, region: &mut Region)
        requires { (s : State) × (e : Event) × IsReadyFor s e self.old region.old
            × (V.tables probe.old ≡ (after s e).tables) }
        ensures nodes { region.new.room.nodes ≡ region.old.room.nodes }
        ensures same { V.tables probe.new ≡ V.tables probe.old }
        ensures solved { IsSolvedFor (V.tables probe.old) self.new }
        ensures grown { region.old.room.grows ≡ true → (fed : List GrantId)
            → HasGrants (V.tables probe.old) region.old.room.nodes.items fed
            → V.count probe.new + owed_by (V.tables probe.old) self.new.table fed
            ≤ V.count probe.old + length region.old.grants.items + owed_by (V.tables probe.old) self.old.table fed }
        ensures bound { region.old.room.grows ≡ false → V.count probe.new
            ≤ V.count probe.old + most_evaluations (length region.old.grants.items)
            (needs_by (V.tables probe.old) region.old.grants.items) }

        // A grant costs one evaluation, one for each fact that its source holds, and one for each need that is met.
        ensures spent { region.old.room.grows ≡ false
            → V.count probe.new + owed_by (V.tables probe.old) self.new.table region.old.grants.items
            ≤ V.count probe.old + bound_by (V.tables probe.old) region.old.grants.items }
    {
        let (table, edges) = (&mut self.solved.table, &self.indexes.edges);
        let (waiting, grants) = (&mut region.room.waiting, region.grants.as_slice());
        if region.room.grows {
            grow_region(
                probe,
                table,
                waiting,
                edges,
                region.seeds.as_slice(),
                grants,
            );
        } else {
            solve_region(
                probe,
                table,
                waiting,
                edges,
                region.room.nodes.as_slice(),
                grants,
            );
        }
    }

    /// Drops the places of the region's nodes that hold nothing. No fact comes or goes by it.
    pub fn drop_places(&mut self, region: Region)
        ensures solved { (t : Tables) → IsSolvedFor t self.old → IsSolvedFor t self.new }
        ensures dropped { (at : Node) → Contains region.room.nodes.items at
            → HasEmptyPlace self.new.table at → ⊥ }
    {
        drop_empty(&mut self.solved.table, region.room.nodes.as_slice());
    }

    /// Takes back what was made ready: the solution is what it was, and the nodes of the region that hold nothing have no places.
    pub fn take_back(&mut self, region: Region)
        requires { (s : State) × (e : Event) × IsReadyFor s e self.old region }
        ensures solved { (s : State) (e : Event) → IsReadyFor s e self.old region → IsSolvedFor s.tables self.new }
        ensures dropped { (at : Node) → Contains region.room.nodes.items at
            → HasEmptyPlace self.new.table at → ⊥ }
    {
        region_access::take_back(
            &mut self.solved.table,
            &mut self.indexes,
            region.room,
            &region.added,
        );
    }
}
