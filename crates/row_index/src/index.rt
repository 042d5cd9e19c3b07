ghost use Rattle.std.specs.Prelude.{◌≡◌, ◌<◌, ◌≤◌, ◌↔◌, Some, slice_get, take, length, IsTrue, OnOk, [], zero, count_by, is_some, MatchOption};
ghost use Rattle.row_index.specs.Index.{HasClue, IsIndexBut, IsIndexOf, IsNoted, IsSlotFor, StaysNoted};
ghost use Rattle.row_index.specs.Marks.{places_at, has_mark, NoneHasMark, IsFirstMarked, ForgetsPlace};
ghost use Rattle.row_index.specs.Narrow.{Narrows, seen};

use crate::candidates::Candidates;
use crate::clues::Keyed;
use crate::marks::Marks;
use std::alloc::{AllocError, Global};
use std::collections::HashMap;

/// Where the rows with a clue are: at one place, or at several from one on.
#[derive(Clone, Copy, Debug, PartialEq, Eq)]
pub enum Slot {
    Only(usize),
    From(usize),
}

/// For the first rows of a list, where the ones with a clue are. It takes memory where it can get some, and covers the fewer
/// rows the less it gets; what it doesn't cover is looked through.
pub struct Index {
    slots: HashMap<u64, Slot>,
    marks: Marks,
    covered: usize,
}

// Written by hand: a proof then has one call wherever one is let go.
impl Drop for Index {
    fn drop(self) {
        let Index {
            slots: _,
            marks: _,
            covered: _,
        } = self;
    }
}

// Whether a row has a clue.
fn has_clue<T: Keyed>(row: &T, clue: u64) -> bool
    ensures { IsTrue result ↔ HasClue (T.clues_of row.now) clue }
{
    let clues = row.clues();
    clues.first == Some(clue) || clues.second == Some(clue) || clues.third == Some(clue)
}

// Where the rows with a clue are, once the row of a place is noted to have it.
fn slot_for<T: Keyed>(slots: &HashMap<u64, Slot>, rows: &[T], clue: u64, place: usize) -> Slot
    ensures { IsSlotFor T.clues_of rows.now slots.now place clue result }
{
    match slots.get(&clue) {
        None => Slot::Only(place),
        Some(Slot::From(first)) => Slot::From(place.min(*first)),
        Some(Slot::Only(earlier)) => match rows.get(*earlier) {
            Some(row) if *earlier != place && has_clue(row, clue) => {
                Slot::From(place.min(*earlier))
            }
            _ => Slot::Only(place),
        },
    }
}

// Notes that the row of a place has a clue, if it has one.
fn note<T: Keyed>(
    slots: &mut HashMap<u64, Slot>,
    rows: &[T],
    clue: Option<u64>,
    place: usize,
) -> Result<(), AllocError>
    ensures stays { StaysNoted T.clues_of rows.now slots.old slots.new }
    ensures noted { OnOk result ((c : _) → clue ≡ Some c → IsNoted slots.new place c) }
{
    let Some(clue) = clue else {
        return Ok(());
    };
    let slot = slot_for(slots, rows, clue, place);
    match slots.insert(clue, slot) {
        Ok(_) => Ok(()),
        Err(_) => Err(AllocError),
    }
}

// Notes all clues of a row.
fn note_row<T: Keyed>(
    slots: &mut HashMap<u64, Slot>,
    rows: &[T],
    place: usize,
) -> Result<(), AllocError>
    requires { place < length rows.now }
    ensures stays { StaysNoted T.clues_of rows.now slots.old slots.new }
    ensures noted { OnOk result ((row : _) (c : _) → slice_get rows.now place ≡ Some row
        → HasClue (T.clues_of row) c → IsNoted slots.new place c) }
{
    let clues = rows[place].clues();
    note(slots, rows, clues.first, place)?;
    note(slots, rows, clues.second, place)?;
    note(slots, rows, clues.third, place)
}

// Whether a row has this mark.
fn is_of<T: Keyed>(row: &T, mark: u64) -> bool
    ensures { result ≡ has_mark mark (T.mark_of row.now) }
{
    row.mark() == Some(mark)
}

fn counted<T: Keyed>(rows: &[T]) -> usize
    ensures { result ≡ count_by (λ row. is_some (T.mark_of row)) rows.now }
{
    rows.iter().filter(|row| row.mark().is_some()).count()
}

fn counted_of<T: Keyed>(rows: &[T], mark: u64) -> usize
    ensures { result ≡ count_by (λ row. has_mark mark (T.mark_of row)) rows.now }
{
    rows.iter().filter(|row| is_of(*row, mark)).count()
}

impl Index {
    /// An index that covers nothing.
    pub fn empty(alloc: Global) -> Self
        ensures covered { result.covered ≡ 0 }
        ensures marks { (m : _) → places_at result.marks m ≡ [] }
        ensures count { result.marks.count ≡ 0 }
    {
        Index {
            slots: HashMap::new(alloc),
            marks: Marks::empty(alloc),
            covered: 0,
        }
    }

    /// Covers all rows, or as many of the first ones as there is memory for.
    pub fn cover<T: Keyed>(&mut self, rows: &[T]) -> Result<(), AllocError>
        requires { IsIndexOf T.clues_of rows.now T.mark_of self.old }
        ensures index { IsIndexOf T.clues_of rows.now T.mark_of self.new }
        ensures grows { self.old.covered ≤ self.new.covered }
        ensures all { OnOk result (self.new.covered ≡ length rows.now) }
    {
        while self.covered < rows.len() {
            note_row(&mut self.slots, rows, self.covered)?;
            self.marks.note(rows[self.covered].mark(), self.covered)?;
            self.covered += 1;
        }
        Ok(())
    }

    /// Takes in that the row of a place has other keys than it had.
    pub fn learn<T: Keyed>(&mut self, rows: &[T], place: usize) -> Result<(), AllocError>
        requires within { place < length rows.now }
        requires others { IsIndexBut T.clues_of rows.now T.mark_of place self.old }
        ensures index { OnOk result (IsIndexOf T.clues_of rows.now T.mark_of self.new) }
        ensures covered { self.new.covered ≡ self.old.covered }
    {
        note_row(&mut self.slots, rows, place)
    }

    /// The rows before a place that may have a clue.
    pub fn candidates<'a, T: Keyed>(
        &self,
        rows: &'a [T],
        place: usize,
        clue: u64,
    ) -> Candidates<'a, T>
        requires index { IsIndexOf T.clues_of rows.now T.mark_of self.now }
        requires within { place ≤ length rows.now }
        ensures { Narrows T.clues_of clue (take place rows.now) (seen result) }
    {
        let (before, _) = rows.split_at(place);
        let covered = self.covered.min(place);
        let (_, rest) = before.split_at(covered);
        match self.slots.get(&clue) {
            None => Candidates { near: None, rest },
            Some(Slot::From(first)) => {
                let (_, rest) = before.split_at(covered.min(*first));
                Candidates { near: None, rest }
            }
            Some(Slot::Only(at)) if *at < covered => Candidates {
                near: Some(&before[*at]),
                rest,
            },
            Some(Slot::Only(_)) => Candidates { near: None, rest },
        }
    }

    /// How many rows have a mark.
    pub fn count<T: Keyed>(&self, rows: &[T]) -> usize
        requires { IsIndexOf T.clues_of rows.now T.mark_of self.now }
        ensures { result ≡ count_by (λ row. is_some (T.mark_of row)) rows.now }
    {
        let (_, rest) = rows.split_at(self.covered);
        self.marks.count() + counted(rest)
    }

    /// How many rows have this mark.
    pub fn count_of<T: Keyed>(&self, rows: &[T], mark: u64) -> usize
        requires { IsIndexOf T.clues_of rows.now T.mark_of self.now }
        ensures { result ≡ count_by (λ row. has_mark mark (T.mark_of row)) rows.now }
    {
        let (_, rest) = rows.split_at(self.covered);
        self.marks.of(mark).len() + counted_of(rest, mark)
    }

    /// The place of the first row that has this mark.
    pub fn first_of<T: Keyed>(&self, rows: &[T], mark: u64) -> Option<usize>
        requires { IsIndexOf T.clues_of rows.now T.mark_of self.now }
        ensures { MatchOption result (NoneHasMark T.mark_of mark rows.now (length rows.now))
            (IsFirstMarked T.mark_of mark rows.now) }
    {
        if let Some(place) = self.marks.first(mark) {
            return Some(place);
        }
        let mut place = self.covered;
        while place < rows.len() {
            if is_of(&rows[place], mark) {
                return Some(place);
            }
            place += 1;
        }
        None
    }

    /// Takes in that the row of a place has lost its mark.
    pub fn lose(&mut self, mark: u64, place: usize)
        ensures slots { self.new.slots ≡ self.old.slots }
        ensures covered { self.new.covered ≡ self.old.covered }
        ensures marks { ForgetsPlace self.old.marks self.new.marks mark place }
    {
        self.marks.forget(mark, place);
    }
}
