ghost use Rattle.std.specs.Prelude.{◌≡◌, ◌∷◌, ◌++◌, [], ◌<◌, ◌≤◌, ◌+◌, false, length, map, take, count_by, is_some, IsTrue, MatchOption, IfSome, IfOk, OnOk, OnErr, vec_len, vec_capacity};
ghost use Rattle.row_index.specs.Marks.{has_mark, NoneHasMark, IsFirstMarked};
ghost use Rattle.row_index.specs.Narrow.{Narrows, seen};
ghost use Rattle.row_index.specs.Index.{IsIndexBut, IsIndexOf};
ghost use Rattle.row_index.specs.Ways.{AreWaysOf, Leads};
ghost use Rattle.row_index.specs.declared.index.Index.{Index};
ghost use Rattle.row_index.specs.declared.ways.Ways.{Ways};
ghost use Rattle.share_graph.specs.Rooms.{IsBetweenPowers, HasRoom, CoverAll};

use row_index::{Candidates, Index, Keyed, Way, Ways};
use std::alloc::{AllocError, Global};
use std::marker::Model;

/// The rows of one kind, in the order in which they were added, which contracts see as a list. Room for one more is taken
/// beforehand, by `room`, so that adding it needs no memory. They are found by their keys through an index.
pub struct Rows<T: Keyed> {
    // Its capacity is at least twice each power of two below its length.
    pub(crate) items: Vec<T>,
    pub(crate) index: Index,
    ways: Ways,
    // Memory ran out when rows were last covered.
    pub(crate) starved: bool,
}

// Written by hand, so that whoever lets rows go makes one call.
impl<T: Keyed + Drop> Drop for Rows<T> {
    fn drop(self) {
        let Rows {
            items: _,
            index: _,
            ways: _,
            starved: _,
        } = self;
    }
}

impl<T: Keyed> Model for Rows<T> {
    ghost use Rattle.std.specs.Prelude as prelude;
    ghost use Rattle.share_graph.specs.Rooms.{IsRowsOf};

    ghost Value = { prelude.List T };

    ghost view = { λ rows. rows.items.items };

    ghost invariant = { λ rows. IsRowsOf T.clues_of T.mark_of T.link_of rows.items rows.index rows.ways rows.starved };
}

/// Room for one row more beside so many rows, which is the number that contracts see.
#[derive(Drop)]
pub struct Room<T> {
    beside: usize,
    grown: Option<Vec<T>>,
}

impl<T> Model for Room<T> {
    ghost use Rattle.std.specs.Prelude.{ℕ};
    ghost use Rattle.share_graph.specs.Rooms.{IsRoomBeside};

    ghost Value = { ℕ };

    ghost view = { λ room. room.beside };

    ghost invariant = { λ room. IsRoomBeside room.beside room.grown };
}

// Whether a number lies between two neighbouring powers of two; there a list has room for one row more.
fn is_between_powers(number: usize) -> bool
    ensures { IsTrue result → IsBetweenPowers number }
{
    if number == 0 {
        return false;
    }
    let power = 1 << number.ilog2();
    power < number
}

// An empty `Vec` with room for the rows of a list and one more.
fn grown<T>(alloc: Global, length: usize) -> Result<Vec<T>, AllocError>
    ensures items { IfOk result (λ vec. vec.items ≡ []) }
    ensures room { IfOk result (λ vec. HasRoom (length + 1) (vec_capacity vec)) }
{
    if length == 0 {
        return Vec::with_capacity(alloc, 1);
    }
    let Some(room) = length.checked_mul(2) else {
        return Err(AllocError);
    };
    Vec::with_capacity(alloc, room)
}

// Covers all rows, or as many as there is memory for: what isn't covered is looked through. Says whether memory ran out.
fn cover<T: Keyed>(items: &Vec<T>, index: &mut Index, ways: &mut Ways) -> bool
    requires index { IsIndexOf T.clues_of items.now.items T.mark_of index.old }
    requires ways { AreWaysOf (map T.link_of items.now.items) ways.old }
    ensures index { IsIndexOf T.clues_of items.now.items T.mark_of index.new }
    ensures ways { AreWaysOf (map T.link_of items.now.items) ways.new }
    ensures grows { (index.old.covered ≤ index.new.covered) × (ways.old.covered ≤ ways.new.covered) }
    ensures all { CoverAll result (length items.now.items) index.new ways.new }
{
    let rows = items.as_slice();
    let of_index = index.cover(rows).is_err();
    let of_ways = ways.cover(rows).is_err();
    of_index || of_ways
}

// Takes in that the row of a place has other keys than an index knows. Where there is no memory for that, which it says, the
// index covers nothing from then on.
pub(crate) fn learn<T: Keyed>(items: &Vec<T>, index: &mut Index, place: usize) -> bool
    requires within { place < length items.now.items }
    requires others { IsIndexBut T.clues_of items.now.items T.mark_of place index.old }
    ensures index { IsIndexOf T.clues_of items.now.items T.mark_of index.new }
    ensures covered { result ≡ false → index.new.covered ≡ index.old.covered }
{
    if index.learn(items.as_slice(), place).is_ok() {
        return false;
    }
    *index = Index::empty(*items.allocator());
    true
}

impl<T: Keyed> Rows<T> {
    /// No rows.
    pub fn empty(alloc: Global) -> Self
        ensures { result ≡ [] }
    {
        Self::covered(Vec::new(alloc))
    }

    // The rows of a list, of which all are covered, or as many as there is memory for.
    fn covered(items: Vec<T>) -> Self
        requires { HasRoom (vec_len items) (vec_capacity items) }
        ensures { result ≡ items.items }
    {
        let alloc = *items.allocator();
        let mut index = Index::empty(alloc);
        let mut ways = Ways::empty(alloc);
        let starved = cover(&items, &mut index, &mut ways);
        Rows {
            items,
            index,
            ways,
            starved,
        }
    }

    /// The rows as a slice.
    pub fn as_slice(&self) -> &[T]
        ensures { result.now ≡ self.now }
    {
        self.items.as_slice()
    }

    /// The rows that may have a clue, in their order.
    pub fn candidates(&self, clue: u64) -> Candidates<'_, T>
        ensures { Narrows T.clues_of clue self.now (seen result) }
    {
        self.candidates_before(self.items.len(), clue)
    }

    /// The rows before a place that may have a clue, in their order.
    pub fn candidates_before(&self, place: usize, clue: u64) -> Candidates<'_, T>
        ensures { Narrows T.clues_of clue (take place self.now) (seen result) }
    {
        let place = place.min(self.items.len());
        self.index.candidates(self.items.as_slice(), place, clue)
    }

    // How many rows have a mark.
    pub(crate) fn marked(&self) -> usize
        ensures { result ≡ count_by (λ row. is_some (T.mark_of row)) self.now }
    {
        self.index.count(self.items.as_slice())
    }

    // How many rows have this mark.
    pub(crate) fn marked_as(&self, mark: u64) -> usize
        ensures { result ≡ count_by (λ row. has_mark mark (T.mark_of row)) self.now }
    {
        self.index.count_of(self.items.as_slice(), mark)
    }

    // The place of the first row that has this mark.
    pub(crate) fn first_marked(&self, mark: u64) -> Option<usize>
        ensures { MatchOption result (NoneHasMark T.mark_of mark self.now (length self.now))
            (IsFirstMarked T.mark_of mark self.now) }
    {
        self.index.first_of(self.items.as_slice(), mark)
    }

    /// Where the way of the row of a number leads, from 1, where that is known.
    pub fn way(&self, num: u64) -> Option<Way>
        ensures { IfSome result (λ way. Leads (map T.link_of self.now) num way.root way.flagged) }
    {
        self.ways.way(self.items.as_slice(), num)
    }

    /// Room for one row more.
    pub fn room(&self) -> Result<Room<T>, AllocError>
        ensures { IfOk result (λ room. room ≡ length self.now) }
    {
        let beside = self.items.len();
        if is_between_powers(beside) {
            return Ok(Room {
                beside,
                grown: None,
            });
        }
        let grown = grown(*self.items.allocator(), beside)?;
        Ok(Room {
            beside,
            grown: Some(grown),
        })
    }
}

// Moves all items into an empty `Vec` that has room for them, which takes the place of theirs.
fn grow<T: Drop>(items: &mut Vec<T>, mut grown: Vec<T>)
    requires empty { grown.items ≡ [] }
    requires room { vec_len items.old ≤ vec_capacity grown }
    ensures items { items.new.items ≡ items.old.items }
    ensures len { vec_len items.new ≡ vec_len items.old }
    ensures capacity { vec_capacity grown ≤ vec_capacity items.new }
{
    if grown.append(items).is_err() {
        unreachable!();
    }
    *items = grown;
}

// Adds an item to a list where there is room for it.
fn add<T: Drop>(items: &mut Vec<T>, item: T, room: Room<T>)
    requires room { room ≡ vec_len items.old }
    requires has_room { HasRoom (vec_len items.old) (vec_capacity items.old) }
    ensures items { items.new.items ≡ items.old.items ++ item ∷ [] }
    ensures has_room { HasRoom (vec_len items.new) (vec_capacity items.new) }
{
    if let Some(grown) = room.grown {
        grow(items, grown);
    }
    items.push_reserved(item);
}

// Adds a row to a list where there is room for it. What an index and ways say of its rows stays so.
fn add_row<T: Keyed + Drop>(items: &mut Vec<T>, row: T, room: Room<T>)
    requires room { room ≡ vec_len items.old }
    requires has_room { HasRoom (vec_len items.old) (vec_capacity items.old) }
    ensures items { items.new.items ≡ items.old.items ++ row ∷ [] }
    ensures has_room { HasRoom (vec_len items.new) (vec_capacity items.new) }
    ensures index { (index : Index) → IsIndexOf T.clues_of items.old.items T.mark_of index
        → IsIndexOf T.clues_of items.new.items T.mark_of index }
    ensures ways { (ways : Ways) → AreWaysOf (map T.link_of items.old.items) ways
        → AreWaysOf (map T.link_of items.new.items) ways }
{
    add(items, row, room);
}

impl<T: Keyed + Drop> Rows<T> {
    /// Adds a row at the end, where there is room for it.
    pub fn put(&mut self, row: T, room: Room<T>)
        requires { room ≡ length self.old }
        ensures { self.new ≡ self.old ++ row ∷ [] }
    {
        add_row(&mut self.items, row, room);
        self.starved = cover(&self.items, &mut self.index, &mut self.ways);
    }

    /// Adds a row at the end. Want of memory leaves the rows as they were.
    pub fn push(&mut self, row: T) -> Result<(), AllocError>
        ensures ok { OnOk result (self.new ≡ self.old ++ row ∷ []) }
        ensures err { OnErr result (self.new ≡ self.old) }
    {
        let room = self.room()?;
        self.put(row, room);
        Ok(())
    }
}

impl<T: Keyed + Clone + Drop> Clone for Rows<T> {
    ghost use Rattle.std.specs.List.{AllZip};

    ghost is_clone = { λ rows copy. AllZip T.is_clone rows copy };

    fn clone(&self) -> Result<Rows<T>, AllocError> {
        let mut copies = self.items.clone()?;
        let mut items = grown(*self.items.allocator(), copies.len())?;
        if items.append(&mut copies).is_err() {
            unreachable!();
        }
        Ok(Rows::covered(items))
    }
}
