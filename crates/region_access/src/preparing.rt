//! Making ready for a change, and taking that back.

ghost use Rattle.std.specs.Prelude.{◌≡◌, false, IfOk, OnOk, OnErr, List, Contains, IsSome};
ghost use Rattle.share_graph.specs.declared.facts.Node.{Node};
ghost use Rattle.share_graph.specs.declared.state.Tables.{Tables};
ghost use Rattle.share_graph.specs.Coherent.{IsCoherent};
ghost use Rattle.least_access.specs.Solved.{Table, held_at, IsSolutionOf};
ghost use Rattle.region_access.specs.Indexes.{Entries, entries_of, AreIndexesOf, HaveSame, HaveNew};
ghost use Rattle.region_access.specs.NewEdges.{HasNoRow, AddsGrant};
ghost use Rattle.region_work.specs.Fed.{fed_in};
ghost use Rattle.region_work.specs.Prepared.{Touches, IsPrepared};
ghost use Rattle.region_access.specs.Room.{HasEmptyPlace, HasSameFacts, IsRoom, WasCleared};
ghost use Rattle.region_work.specs.Working.{IsIndexOf};

use crate::clearing::{clear, undo};
use crate::dropping::drop_empty;
use crate::fed_grant::{NewGrant, add_new, remove_new};
use crate::indexes::Indexes;
use crate::reaching::find_region;
use crate::room::Room;
use host_base::Memory;
use least_access::table::Table;
use region_work::edges::Edges;
use region_work::emptying::add_place;
use region_work::{Probe, Waiting};
use share_graph::Node;
use std::alloc::Global;

// Makes places for nodes. No fact comes or goes by it, nor where memory runs out.
fn add_places(table: &mut Table, nodes: &[Node]) -> Result<(), Memory>
    ensures facts { HasSameFacts table.old.entries table.new.entries }
    ensures places { OnOk result ((at : Node) → Contains nodes.now at
        → IsSome (held_at table.new.entries at)) }
{
    for node in nodes {
        add_place(table, *node)?;
    }
    Ok(())
}

// Finds the region of the seeds, takes all room that solving it again wants, and clears it, where it isn't to grow. Where memory runs
// out, no fact is lost.
fn make_room<V: Probe>(
    alloc: Global,
    probe: &V,
    table: &mut Table,
    edges: &Edges,
    seeds: &[Node],
    grows: bool,
) -> Result<Room, Memory>
    requires coherent { IsCoherent (V.tables probe.now) }
    requires index { IsIndexOf (V.tables probe.now) (fed_in edges.now.entries) }
    ensures err { OnErr result (HasSameFacts table.old.entries table.new.entries) }
    ensures ok { IfOk result (IsRoom (V.tables probe.now) seeds.now table.old.entries table.new.entries) }
    ensures mode { IfOk result (λ room. room.grows ≡ grows) }
{
    let nodes = find_region(alloc, probe, edges, seeds)?;
    let waiting = Waiting::new(alloc, nodes.as_slice())?;
    let Ok(mut before) = Vec::with_capacity(alloc, nodes.len()) else {
        return Err(Memory);
    };
    if let Err(fault) = add_places(table, nodes.as_slice()) {
        drop_empty(table, nodes.as_slice());
        return Err(fault);
    }
    if !grows {
        clear(table, nodes.as_slice(), &mut before);
    }
    Ok(Room {
        nodes,
        before,
        waiting,
        grows,
    })
}

// Puts back all that was cleared, and drops the places of nodes that hold nothing.
fn fill_back(table: &mut Table, room: Room)
    requires { WasCleared table.old.entries room }
    ensures facts { (t : Tables) (seeds : List Node) (start : Table)
        → IsRoom t seeds start table.old.entries room → HasSameFacts start table.new.entries }
    ensures dropped { (at : Node) → Contains room.nodes.items at → HasEmptyPlace table.new.entries at → ⊥ }
{
    if !room.grows {
        undo(table, room.nodes.as_slice(), room.before.as_slice());
    }
    drop_empty(table, room.nodes.as_slice());
}

/// Finds the region of the seeds, takes all room that solving it again wants, clears it where it isn't to grow, and adds a new
/// grant, if there is one, to the indexes. Where memory runs out, every fact and every index is as before.
pub fn prepare<V: Probe>(
    alloc: Global,
    probe: &V,
    table: &mut Table,
    indexes: &mut Indexes,
    seeds: &[Node],
    added: &Option<NewGrant>,
    grows: bool,
) -> Result<Room, Memory>
    requires coherent { IsCoherent (V.tables probe.now) }
    requires indexes { AreIndexesOf (V.tables probe.now) (entries_of indexes.old) }
    requires new { HasNoRow (V.tables probe.now) added.now }
    ensures err { OnErr result (HasSameFacts table.old.entries table.new.entries) }
    ensures err_indexes { OnErr result (HaveSame (entries_of indexes.old) (entries_of indexes.new)) }
    ensures ok { IfOk result (IsRoom (V.tables probe.now) seeds.now table.old.entries table.new.entries) }
    ensures mode { IfOk result (λ room. room.grows ≡ grows) }
    ensures prepared { IfOk result (λ room. (after : Tables) → room.grows ≡ false
        → IsSolutionOf (V.tables probe.now) table.old.entries
        → Touches room.nodes.items (V.tables probe.now) after
        → IsPrepared after room.nodes.items table.new.entries) }
    ensures added { OnOk result (HaveNew added.now (entries_of indexes.old) (entries_of indexes.new)) }
    ensures indexes_after { OnOk result ((after : Tables) → AddsGrant added.now (V.tables probe.now) after
        → AreIndexesOf after (entries_of indexes.new)) }
{
    let room = make_room(alloc, probe, table, &indexes.edges, seeds, grows)?;
    match add_new(alloc, indexes, added) {
        Ok(()) => Ok(room),
        Err(fault) => {
            fill_back(table, room);
            Err(fault)
        }
    }
}

/// Takes back what was made ready: each node holds what it held before, those of the room that hold nothing have no place, and each
/// index has what it had.
pub fn take_back(table: &mut Table, indexes: &mut Indexes, room: Room, added: &Option<NewGrant>)
    requires { WasCleared table.old.entries room }
    ensures facts { (t : Tables) (seeds : List Node) (start : Table)
        → IsRoom t seeds start table.old.entries room → HasSameFacts start table.new.entries }
    ensures dropped { (at : Node) → Contains room.nodes.items at → HasEmptyPlace table.new.entries at → ⊥ }
    ensures indexes { (base : Entries) → HaveNew added.now base (entries_of indexes.old)
        → HaveSame base (entries_of indexes.new) }
{
    fill_back(table, room);
    remove_new(indexes, added);
}
