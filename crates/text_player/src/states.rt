//! The state of the small book, and what events make of it.

ghost use Rattle.std.specs.Prelude.{◌≡◌, IsTrue, IfOk, OnOk};
ghost use Rattle.share_graph.specs.EventFits.{HasChanged, EventFits};
ghost use Rattle.share_graph.specs.History as history;

use host_base::{AccountId, GrainId, GrantId};
use live_access::solve;
use share_graph::{Event, Need, Node, State, copy_of, has_account, has_grain, has_grant};
use small_book::small_book;
use state_step::{apply, copy_of_event, prepare};
use std::alloc::Global;
use table_check::is_well_formed;
use test_words::{Fault, small};

/// A state that is changed by events.
#[derive(Drop)]
pub struct Book {
    state: State,
}

// The event of a word on the row of a number.
fn event_of(word: &str, num: u32) -> Result<Event, Fault> {
    match word {
        "revoke" => Ok(Event::GrantRevoked(GrantId(num))),
        "trash" => Ok(Event::TrashedSet(GrainId(num), true)),
        "disable" => Ok(Event::EnabledSet(AccountId(num), false)),
        _ => Err(Fault::Unreadable),
    }
}

// Whether the row that an event changes is there.
fn has_changed(state: &State, event: &Event) -> bool
    ensures { IsTrue result → HasChanged state.now event.now }
{
    match event {
        Event::EnabledSet(num, _) => has_account(&state.tables, *num),
        Event::TrashedSet(num, _) => has_grain(&state.tables, *num),
        Event::GrantRevoked(num) => has_grant(&state.tables, *num),
        _ => false,
    }
}

// Performs an event, as the server does.
fn perform(state: &mut State, event: &Event) -> Result<(), Fault>
    ensures { OnOk result (state.new ≡ history.after state.old event.now) }
{
    let staged = prepare(state, copy_of_event(event)?)?;
    apply(state, staged);
    Ok(())
}

// Whether an event fits a state.
fn fits(state: &State, event: &Event) -> Result<bool, Fault>
    ensures { IfOk result (λ fits. IsTrue fits → EventFits state.now event.now) }
{
    let mut later = copy_of(state)?;
    perform(&mut later, event)?;
    Ok(has_changed(state, event) && is_well_formed(&later))
}

impl Book {
    /// The state of the small book.
    pub fn new(alloc: Global) -> Result<Self, Fault> {
        let state = small_book(alloc)?;
        Ok(Book { state })
    }

    // Performs an event that fits: whether the state is well formed then. It is none where the event doesn't fit.
    fn perform(&mut self, event: &Event) -> Result<Option<bool>, Fault> {
        if !fits(&self.state, event)? {
            return Ok(None);
        }
        perform(&mut self.state, event)?;
        Ok(Some(is_well_formed(&self.state)))
    }

    // What an event comes to.
    fn happen(&mut self, alloc: Global, row: &str) -> Result<String, Fault> {
        let (word, num) = row.split_once(' ').ok_or(Fault::Unreadable)?;
        let formed = match event_of(word, small(num)?) {
            Ok(event) => self.perform(&event),
            Err(fault) => Err(fault),
        };
        match formed? {
            Some(formed) => Ok(format!(in alloc; "well formed {formed}")?),
            None => Ok(String::from_str(alloc, "it doesn't fit")?),
        }
    }

    // The positions of the permissions that an account holds on a grain, as the number that their bits are, or `none`
    // without entry.
    fn holds(&self, alloc: Global, row: &str) -> Result<String, Fault> {
        let (account, grain) = row.split_once(' ').ok_or(Fault::Unreadable)?;
        let node = Node::User(GrainId(small(grain)?), AccountId(small(account)?));
        if !is_well_formed(&self.state) {
            return Err(Fault::Unreadable);
        }
        let solution = solve(alloc, &self.state.tables)?;
        match solution.solved().access(node) {
            Some(set) => Ok(format!(in alloc; "{}", set.bits())?),
            None => Ok(String::from_str(alloc, "none")?),
        }
    }

    // Whether the need is met that an account is an enabled admin.
    fn is_met(&self, alloc: Global, row: &str) -> Result<String, Fault> {
        let need = Need::UserIsAdmin(AccountId(small(row)?));
        if !is_well_formed(&self.state) {
            return Err(Fault::Unreadable);
        }
        let solution = solve(alloc, &self.state.tables)?;
        Ok(format!(in alloc; "{}", solution.solved().met(&self.state.tables, &need))?)
    }

    /// What a row of a state gives.
    pub fn answer(&mut self, alloc: Global, word: &str, rest: &str) -> Result<String, Fault> {
        match word {
            "book" => {
                self.state = small_book(alloc)?;
                Ok(String::new(alloc))
            }
            "event" => self.happen(alloc, rest),
            "holds" => self.holds(alloc, rest),
            _ => self.is_met(alloc, rest),
        }
    }
}
