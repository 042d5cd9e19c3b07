ghost use Rattle.std.specs.Prelude.{◌≡◌, ◌<◌, ◌^◌, ◌-◌, OnOk, OnErr, length, Some, [], not, nat_eq, slice_get};
ghost use Rattle.std.specs.List.{filter};
ghost use Rattle.row_index.specs.Marks.{places_at, KeepsPlaces, KeepsMarks, NotesPlace, NotesMark, ForgetsPlace};

use std::alloc::{AllocError, Global};
use std::collections::HashMap;

/// For each mark, the places of the rows that have it, in ascending order, and how many places there are.
pub struct Marks {
    alloc: Global,
    places: HashMap<u64, Vec<usize>>,
    count: usize,
}

// Written by hand: a proof then has one call wherever one is let go.
impl Drop for Marks {
    fn drop(self) {
        let Marks {
            alloc: _,
            places: _,
            count: _,
        } = self;
    }
}

// Removes a place from others, and tells how many fewer there are.
fn remove(places: &mut Vec<usize>, place: usize) -> usize
    ensures items { places.new.items ≡ filter (λ other. not (nat_eq other place)) places.old.items }
    ensures lost { result ≡ length places.old.items - length places.new.items }
{
    let before = places.len();
    places.retain(|other| *other != place);
    before - places.len()
}

impl Marks {
    /// No places.
    pub fn empty(alloc: Global) -> Self
        ensures places { (m : _) → places_at result m ≡ [] }
        ensures count { result.count ≡ 0 }
    {
        Marks {
            alloc,
            places: HashMap::new(alloc),
            count: 0,
        }
    }

    // Adds a place to those of a mark.
    fn add(&mut self, mark: u64, place: usize) -> Result<(), AllocError>
        ensures ok { OnOk result (NotesPlace self.old self.new mark place) }
        ensures err { OnErr result (KeepsPlaces self.old self.new) }
        ensures count { self.new.count ≡ self.old.count }
    {
        if let Some(places) = self.places.get_mut(&mark) {
            return match places.push(place) {
                Ok(()) => Ok(()),
                Err(_) => Err(AllocError),
            };
        }
        let mut places = Vec::new(self.alloc);
        if places.push(place).is_err() {
            return Err(AllocError);
        }
        match self.places.insert(mark, places) {
            Ok(_) => Ok(()),
            Err(_) => Err(AllocError),
        }
    }

    // Notes that the row of a place has a mark, if it has one.
    pub(crate) fn note(&mut self, mark: Option<u64>, place: usize) -> Result<(), AllocError>
        requires { self.old.count < 2 ^ 64 - 1 }
        ensures ok { OnOk result (NotesMark self.old self.new mark place) }
        ensures err { OnErr result (KeepsMarks self.old self.new) }
    {
        let Some(mark) = mark else {
            return Ok(());
        };
        self.add(mark, place)?;
        self.count += 1;
        Ok(())
    }

    // Forgets the place of a row that no longer has a mark.
    pub(crate) fn forget(&mut self, mark: u64, place: usize)
        ensures { ForgetsPlace self.old self.new mark place }
    {
        let Some(places) = self.places.get_mut(&mark) else {
            return;
        };
        let lost = remove(places, place);
        self.count = self.count.saturating_sub(lost);
    }

    // The places of a mark.
    pub(crate) fn of(&self, mark: u64) -> &[usize]
        ensures { result.now ≡ places_at self.now mark }
    {
        match self.places.get(&mark) {
            None => &[],
            Some(places) => places.as_slice(),
        }
    }

    // How many places there are.
    pub(crate) fn count(&self) -> usize
        ensures { result ≡ self.now.count }
    {
        self.count
    }

    // The first place of a mark.
    pub(crate) fn first(&self, mark: u64) -> Option<usize>
        ensures { result ≡ slice_get (places_at self.now mark) 0 }
    {
        self.of(mark).first().copied()
    }
}
