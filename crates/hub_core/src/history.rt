//! A history, with what stands at its end, and how an entry is added to it.

ghost use Rattle.std.specs.Prelude.{◌≡◌, ◌↔◌, ◌+◌, ◌<◌, ◌≤◌, ◌++◌, ◌∷◌, [], IsTrue, length, vec_len, vec_capacity, IfOk, OnOk, OnErr};
ghost use Rattle.desk_base.specs.Limits.{most_entries};
ghost use Rattle.desk_base.specs.Terms.{after, EventFits, IsSolutionOf, IsWellFormed};
ghost use Rattle.live_access.specs.Kept.{IsSolvedFor};
ghost use Rattle.live_access.specs.Ready.{IsReadyFor};
ghost use Rattle.row_tables.specs.Kept.{AreRowsOf, IsStored};
ghost use Rattle.row_tables.specs.RowAfter as rows;
ghost use Rattle.share_graph.specs.History.{tables_after};
ghost use Rattle.state_step.specs.Staging.{event_of, HasRoomFor};
ghost use Rattle.hub_core.specs.Inner.{HasItsRow, KeepsRows, Outlasts, Told, entry_of};
ghost use Rattle.hub_core.specs.Sharing.{state_of};
ghost use Rattle.hub_core.specs.Ticking.{EndsSome, IsTick, NeverBack, added_by};

use crate::held::{Held, Holding};
use crate::telling::tell;
use cloud_keeper::Row;
use desk_orders::OrderFault;
use host_base::{AppId, Memory};
use least_access::Solved;
use live_access::{Region, Solution, solve};
use plain_data::Steps;
use region_access::seeds_of;
use region_work::Counted;
use row_tables::row_after;
use share_graph::{Event, State, copy_of};
use state_step::{Staged, apply, copy_of_event, prepare};
use std::alloc::Global;
use std::marker::{Brand, Model};
use std::sync::ledger::{Blank, Ledger};

/// A history, with the state that it leads to and what each node holds by that.
pub struct History {
    start: State,
    state: State,
    solution: Solution,
    entries: Vec<Event>,
}

// Written by hand, as that of `State` is.
impl Drop for History {
    fn drop(self) {
        let History {
            start: _,
            state: _,
            solution: _,
            entries: _,
        } = self;
    }
}

impl Model for History {
    ghost use Rattle.std.specs.Coded.{codes};
    ghost use Rattle.share_graph.specs.contracts.event.Event as event_type;
    ghost use Rattle.share_graph.specs.contracts.state.State as state_type;
    ghost use Rattle.hub_core.specs.Sharing.{Past, KeepsPast};

    ghost Value = { Past };

    ghost coded = { Prim.hlevel (codes, state_type.the_row.coded, event_type.the_row.coded) };

    ghost view = { λ history. record { start = history.start; entries = history.entries.items } };

    ghost invariant = { λ history. KeepsPast history.start history.state history.entries.items history.solution };
}

// A copy of a state to begin with, and what each node holds by it.
fn open(alloc: Global, state: &State) -> Result<(State, Solution), Memory>
    requires { IsWellFormed state.now }
    ensures { IfOk result (λ opened. (opened.0 ≡ state.now) × IsSolvedFor state.now.tables opened.1) }
{
    let start = copy_of(state)?;
    let solution = solve(alloc, &state.tables)?;
    Ok((start, solution))
}

// Takes room for one entry more.
fn make_room(entries: &mut Vec<Event>) -> Result<(), Memory>
    ensures same { entries.new.items ≡ entries.old.items }
    ensures room { OnOk result (vec_len entries.new < vec_capacity entries.new) }
{
    match entries.reserve(1) {
        Ok(()) => Ok(()),
        Err(_) => Err(Memory),
    }
}

// All that was made ready for an event: its room in the state, the row that it adds or changes, if there is one, and its region.
#[derive(Drop)]
struct Ready {
    staged: Staged,
    row: Option<Row>,
    region: Region,
}

// Makes all ready for an event but its room as an entry; what is solved is as before where memory runs out. How many grants are
// evaluated for it is bounded by `Solution::prepare`.
fn make_ready<L: Ledger>(
    alloc: Global,
    state: &State,
    solution: &mut Solution,
    event: &Event,
    blank: Blank,
) -> Result<Ready, Memory>
    requires name { blank.name ≡ L.name }
    requires parts { blank.parts ≡ L.parts }
    requires some { 0 < blank.parts }
    requires formed { IsWellFormed state.now }
    requires fits { EventFits state.now event.now }
    requires solved { IsSolvedFor state.now.tables solution.old }
    ensures staged { IfOk result (λ ready. event_of ready.staged ≡ event.now) }
    ensures staged_room { IfOk result (λ ready. HasRoomFor state.now ready.staged) }
    ensures row { IfOk result (λ ready. ready.row ≡ rows.row_after state.now.tables event.now) }
    ensures has { IfOk result (λ ready. HasItsRow event.now ready.row) }
    ensures kept { IfOk result (λ ready. KeepsRows state.now.tables event.now ready.row) }
    ensures region { IfOk result (λ ready. IsReadyFor state.now event.now solution.new ready.region) }
    ensures same_solved { OnErr result (IsSolvedFor state.now.tables solution.new) }
{
    let row = row_after(alloc, &state.tables, event)?;
    let staged = prepare(state, copy_of_event(event)?)?;
    let seeds = seeds_of(alloc, &state.tables, solution.ties(), event)?;
    let mut probe = Counted {
        tables: &state.tables,
        steps: Steps::<L>::new(blank),
    };
    let region = solution.prepare(alloc, &mut probe, event, seeds.as_slice())?;
    Ok(Ready {
        staged,
        row,
        region,
    })
}

// Takes back what was made ready for an event that doesn't happen, and lets go of what was staged. An event and what is staged for it
// are each let go in sixteen ways: a call of its own keeps a proof from going through both together.
fn take_back(solution: &mut Solution, _staged: Staged, region: Region)
    requires { (s : State) × (e : Event) × IsReadyFor s e solution.old region }
    ensures { (s : State) (e : Event) → IsReadyFor s e solution.old region
        → IsSolvedFor s.tables solution.new }
{
    solution.take_back(region);
}

// Lets an event happen for which all room was taken: in the state, in what is solved, and as the next entry. How many grants are
// evaluated for it is bounded by `Solution::settle`.
fn happen<L: Ledger>(
    state: &mut State,
    solution: &mut Solution,
    entries: &mut Vec<Event>,
    staged: Staged,
    mut region: Region,
    event: Event,
    blank: Blank,
)
    requires name { blank.name ≡ L.name }
    requires parts { blank.parts ≡ L.parts }
    requires some { 0 < blank.parts }
    requires staged { event_of staged ≡ event }
    requires staged_room { HasRoomFor state.old staged }
    requires ready { IsReadyFor state.old event solution.old region }
    requires room { vec_len entries.old < vec_capacity entries.old }
    ensures state { state.new ≡ after state.old event }
    ensures solved { IsSolvedFor state.new.tables solution.new }
    ensures entry { entries.new.items ≡ entries.old.items ++ event ∷ [] }
{
    apply(state, staged);
    let mut probe = Counted {
        tables: &state.tables,
        steps: Steps::<L>::new(blank),
    };
    solution.settle(&mut probe, &mut region);
    solution.drop_places(region);
    entries.push_reserved(event);
}

// Whether some grant ends as the clock goes on to a moment.
fn ends_some(alloc: Global, state: &State, solution: &Solution, moment: u64) -> Result<bool, Memory>
    requires formed { IsWellFormed state.now }
    requires solved { IsSolvedFor state.now.tables solution.now }
    ensures { IfOk result (λ ends. IsTrue ends ↔ EndsSome state.now.tables moment) }
{
    let seeds = seeds_of(
        alloc,
        &state.tables,
        solution.ties(),
        &Event::Ticked(moment),
    )?;
    Ok(!seeds.is_empty())
}

impl History {
    /// The history that begins with a well-formed state of fewer than 2^31 sessions, with no entry.
    pub fn new(alloc: Global, state: State) -> Result<Self, Memory>
        requires formed { IsWellFormed state }
        requires few { length state.sessions < 2147483648 }
        ensures { IfOk result (λ history. history ≡ record { start = state; entries = [] }) }
    {
        let (start, solution) = open(alloc, &state)?;
        Ok(History {
            start,
            state,
            solution,
            entries: Vec::new(alloc),
        })
    }

    /// The state at its end. It takes no memory.
    pub fn state(&self) -> &State
        ensures value { result.now ≡ state_of self.now }
        ensures formed { IsWellFormed result.now }
        ensures sessions { length result.now.sessions < 2147483648 + length self.now.entries }
    {
        &self.state
    }

    /// What each node holds at its end. It takes no memory.
    pub fn solved(&self) -> &Solved
        ensures { IsSolutionOf (state_of self.now).tables result.now }
    {
        self.solution.solved()
    }

    /// The same with the indexes by which questions are answered. It takes no memory.
    pub fn solution(&self) -> &Solution
        ensures { IsSolvedFor (state_of self.now).tables result.now }
    {
        &self.solution
    }

    /// How many entries it has, 1,000,000 at the most: fewer by commands, and one more for each grant that ended. It takes no memory.
    pub fn count(&self) -> u64
        ensures value { result ≡ length self.now.entries }
        ensures few { result ≤ 1000000 }
        ensures onward { NeverBack self.now.start self.now.entries }
    {
        self.entries.len() as u64
    }

    /// Adds an entry: first all room is taken, in the history, in the state and in what is solved; then the spawner or the keeper is
    /// told, of a run that starts with its grain's application; and then the event happens and its region is solved again. Where one
    /// of them fails or memory runs out, all is as before.
    pub fn add<H: Holding>(
        &mut self,
        alloc: Global,
        held: &mut Held<H>,
        event: Event,
        app: AppId,
        token: &[u8],
    ) -> Result<(), OrderFault>
        requires fits { EventFits (state_of self.old) event }
        requires room { length self.old.entries < most_entries }
        ensures start { self.new.start ≡ self.old.start }
        ensures entries { self.new.entries ≡ self.old.entries ++ entry_of event result }
        ensures told { Told held.old.tell held.new.tell event app token.now result }
        ensures stored { IsStored held.old.tell.keeping (state_of self.old).tables
            → IsStored held.new.tell.keeping (state_of self.new).tables }
        ensures leaves { Outlasts H.Keeper.may_leave self.old self.new held.old held.new
            (AreRowsOf (tables_after (state_of self.old).tables event)) }
    {
        make_room(&mut self.entries)?;
        let (state, solution) = (&self.state, &mut self.solution);
        let Ready {
            staged,
            row,
            region,
        } = make_ready::<Brand>(alloc, state, solution, &event, Blank::new(1))?;
        match tell(alloc, held, &event, row, app, token) {
            Ok(()) => {
                happen::<Brand>(
                    &mut self.state,
                    &mut self.solution,
                    &mut self.entries,
                    staged,
                    region,
                    event,
                    Blank::new(1),
                );
                Ok(())
            }
            Err(fault) => {
                take_back(&mut self.solution, staged, region);
                drop(event);
                Err(fault)
            }
        }
    }
    /// Lets the clock go on to a moment: where some grant ends by it, the tick is added as an entry, and what hung on those grants
    /// is solved again. It is never refused, and nobody is told. Where memory runs out, all is as before.
    pub fn tick(&mut self, alloc: Global, moment: u64) -> Result<bool, Memory>
        ensures start { self.new.start ≡ self.old.start }
        ensures entries { self.new.entries ≡ self.old.entries ++ added_by moment result }
        ensures ticks { IsTick (state_of self.old) moment result }
        ensures formed { IsWellFormed (state_of self.old) }
    {
        if !ends_some(alloc, &self.state, &self.solution, moment)? {
            return Ok(false);
        }
        make_room(&mut self.entries)?;
        let event = Event::Ticked(moment);
        let (state, solution) = (&self.state, &mut self.solution);
        let Ready {
            staged,
            row: _,
            region,
        } = make_ready::<Brand>(alloc, state, solution, &event, Blank::new(1))?;
        happen::<Brand>(
            &mut self.state,
            &mut self.solution,
            &mut self.entries,
            staged,
            region,
            event,
            Blank::new(1),
        );
        Ok(true)
    }
}
