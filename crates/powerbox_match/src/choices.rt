//! The choices that match a query, in the order in which they are offered.

ghost use Rattle.std.specs.Prelude.{◌≡◌, ◌≢◌, ◌≤◌, [], length, insert, All, IsTrue, OnOk, OnErr, IfErr};

use crate::descriptor::{Descriptor, Query};
use crate::fault::ShapeFault;
use crate::matching::matches;
use crate::value::Quality;
use std::alloc::Global;
use std::marker::Model;

/// Something that matches a query, by its number, and how well.
#[derive(Clone, Copy, PartialEq, Eq)]
pub struct Choice {
    pub num: u32,
    pub quality: Quality,
}

impl Choice {
    ghost use Rattle.powerbox_match.specs.Choices.{rank_of, stands_before, insertion};

    // Preferred choices come first.
    fn rank(&self) -> u8
        ensures { result ≡ rank_of self.now.quality }
    {
        match self.quality {
            Quality::Preferred => 0,
            Quality::Acceptable => 1,
            Quality::Unacceptable => 2,
        }
    }

    fn stands_before(&self, other: &Choice) -> bool
        ensures { result ≡ stands_before self.now other.now }
    {
        self.rank() < other.rank() || self.rank() == other.rank() && self.num < other.num
    }

    fn place_in(&self, in_order: &[Choice]) -> usize
        ensures within { result ≤ length in_order.now }
        ensures place { insert in_order.now result self.now ≡ insertion self.now in_order.now }
    {
        for (place, other) in in_order.iter().enumerate() {
            if self.stands_before(other) {
                return place;
            }
        }
        in_order.len()
    }
}

/// The choices that match a query: preferred ones first, then by number.
#[derive(Drop)]
pub struct Choices {
    in_order: Vec<Choice>,
}

impl Model for Choices {
    ghost use Rattle.std.specs.Prelude.{List, IsTrue};
    ghost use Rattle.powerbox_match.specs.declared.choices.Choice.{Choice};
    ghost use Rattle.powerbox_match.specs.Choices.{is_in_order};

    ghost Value = { List Choice };

    ghost view = { λ c. c.in_order.items };

    ghost invariant = { λ c. IsTrue (is_in_order c.in_order.items) };
}

impl Choices {
    ghost use Rattle.powerbox_match.specs.Matching.{match_of};
    ghost use Rattle.powerbox_match.specs.Choices.{is_in_order, choices_after};

    /// No choices.
    pub fn new(alloc: Global) -> Choices
        ensures { result ≡ [] }
    {
        Choices {
            in_order: Vec::new(alloc),
        }
    }

    /// Puts a number in its place, if what it offers matches the query.
    ///
    /// Its one error is want of memory.
    pub fn add(&mut self, query: &Query, num: u32, offers: &[Descriptor]) -> Result<(), ShapeFault>
        requires { All (λ choice. choice.num ≢ num) self.old }
        ensures ok { OnOk result
            (self.new ≡ choices_after (match_of query.now offers.now) num self.old) }
        ensures err { OnErr result (self.new ≡ self.old) }
        ensures memory { IfErr result (λ fault. fault ≡ ShapeFault.Memory) }
    {
        let Some(quality) = matches(query, offers) else {
            return Ok(());
        };
        let choice = Choice { num, quality };
        let place = choice.place_in(&self.in_order);
        self.in_order.insert(place, choice)?;
        Ok(())
    }

    /// The choices in order.
    pub fn list(&self) -> &[Choice]
        ensures all { result.now ≡ self.now }
        ensures in_order { IsTrue (is_in_order self.now) }
    {
        &self.in_order
    }
}
