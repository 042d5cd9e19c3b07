ghost use Rattle.std.specs.Prelude.{◌≡◌, ◌<◌, ◌≤◌, ◌+◌, ℕ, Bool, true, None, nat_eq, length, map, is_some, IfSome, OnOk, OnErr};
ghost use Rattle.std.specs.HashMap.{get};
ghost use Rattle.row_index.specs.Ways.{AreWaysOf, IsNext, Leads};

use crate::clues::Keyed;
use std::alloc::{AllocError, Global};
use std::collections::HashMap;

/// How a row stands among the others: under which one, by its number from 1, if under any; and whether it is flagged.
#[derive(Clone, Copy, PartialEq, Eq)]
pub struct Link {
    pub parent: Option<u64>,
    pub flagged: bool,
}

/// Where the way of a row leads, which goes from a row to the one that it stands under: to which last row, by its number from
/// 1, and whether some row on it is flagged.
#[derive(Clone, Copy, Debug, PartialEq, Eq)]
pub struct Way {
    pub root: u64,
    pub flagged: bool,
}

/// Where the ways of the first rows of a list lead. It takes memory where it can get some, and knows the fewer ways the less
/// it gets.
pub struct Ways {
    // By its number, the way of each row that stands under another.
    ends: HashMap<u64, Way>,
    covered: usize,
}

// Written by hand: a proof then has one call wherever one is let go.
impl Drop for Ways {
    fn drop(self) {
        let Ways {
            ends: _,
            covered: _,
        } = self;
    }
}

impl Ways {
    /// No ways.
    pub fn empty(alloc: Global) -> Self
        ensures covered { result.covered ≡ 0 }
        ensures ends { (n : ℕ) → get nat_eq result.ends n ≡ None }
    {
        Ways {
            ends: HashMap::new(alloc),
            covered: 0,
        }
    }

    /// The way of the row of a number, where it is known: where the row is covered and its way goes by earlier rows.
    pub fn way<T: Keyed>(&self, rows: &[T], num: u64) -> Option<Way>
        requires { AreWaysOf (map T.link_of rows.now) self.now }
        ensures leads { IfSome result (λ way. Leads (map T.link_of rows.now) num way.root way.flagged) }
        ensures known { (root : ℕ) (flagged : Bool) → num ≤ self.now.covered
            → Leads (map T.link_of rows.now) num root flagged → is_some result ≡ true }
    {
        if num == 0 {
            return None;
        }
        let link = rows.get(num as usize - 1)?.link();
        match link.parent {
            None => Some(Way {
                root: num,
                flagged: link.flagged,
            }),
            Some(_) => self.ends.get(&num).copied(),
        }
    }

    // The way of the next row, where it stands under an earlier one whose way is known.
    fn next<T: Keyed>(&self, rows: &[T]) -> Option<Way>
        requires more { self.now.covered < length rows.now }
        requires ways { AreWaysOf (map T.link_of rows.now) self.now }
        ensures { IsNext (map T.link_of rows.now) self.now result }
    {
        let place = self.covered;
        let link = rows[place].link();
        let parent = link.parent?;
        if parent > place as u64 {
            return None;
        }
        let way = self.way(rows, parent)?;
        Some(Way {
            root: way.root,
            flagged: link.flagged || way.flagged,
        })
    }

    // Notes the way of the next row.
    fn note<T: Keyed>(&mut self, rows: &[T]) -> Result<(), AllocError>
        requires more { self.old.covered < length rows.now }
        requires ways { AreWaysOf (map T.link_of rows.now) self.old }
        ensures ways { AreWaysOf (map T.link_of rows.now) self.new }
        ensures ok { OnOk result (self.new.covered ≡ self.old.covered + 1) }
        ensures err { OnErr result (self.new.covered ≡ self.old.covered) }
    {
        if let Some(way) = self.next(rows)
            && self.ends.insert(self.covered as u64 + 1, way).is_err()
        {
            return Err(AllocError);
        }
        self.covered += 1;
        Ok(())
    }

    /// Covers all rows, or as many of the first ones as there is memory for.
    pub fn cover<T: Keyed>(&mut self, rows: &[T]) -> Result<(), AllocError>
        requires { AreWaysOf (map T.link_of rows.now) self.old }
        ensures ways { AreWaysOf (map T.link_of rows.now) self.new }
        ensures grows { self.old.covered ≤ self.new.covered }
        ensures all { OnOk result (self.new.covered ≡ length rows.now) }
    {
        while self.covered < rows.len() {
            self.note(rows)?;
        }
        Ok(())
    }
}
