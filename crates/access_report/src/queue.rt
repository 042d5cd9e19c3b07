//! Grants that wait for their turn.

ghost use Rattle.std.specs.Prelude.{◌≡◌, ◌∷◌, [], MatchOption, OnOk};
ghost use Rattle.access_report.specs.Waiting.{AreQueued, IsQueued};

use host_base::{GrantId, Memory};
use std::alloc::Global;
use std::collections::{BTreeSet, VecDeque};
use std::marker::Model;

/// Grants that wait, each once, in the order in which they came.
pub struct Queue {
    waiting: VecDeque<GrantId>,
    there: BTreeSet<GrantId>,
}

// Written by hand: a proof then has one call wherever one is let go.
impl Drop for Queue {
    fn drop(self) {
        let Queue {
            waiting: _,
            there: _,
        } = self;
    }
}

impl Model for Queue {
    ghost use Rattle.std.specs.Prelude.{List};
    ghost use Rattle.host_base.specs.declared.ids.GrantId.{GrantId};
    ghost use Rattle.access_report.specs.Waiting.{AreListed};

    ghost Value = { List GrantId };

    ghost view = { λ queue. queue.waiting.items };

    ghost invariant = { λ queue. AreListed queue.there queue.waiting.items };
}

impl Queue {
    /// None wait.
    pub fn new(alloc: Global) -> Queue
        ensures { result ≡ [] }
    {
        Queue {
            waiting: VecDeque::new(alloc),
            there: BTreeSet::new(alloc),
        }
    }

    /// Adds a grant, if it doesn't wait yet.
    pub fn add(&mut self, num: GrantId) -> Result<(), Memory>
        ensures { OnOk result (IsQueued num self.old self.new) }
    {
        if self.there.contains(&num) {
            return Ok(());
        }
        self.waiting.push_back(num)?;
        self.there.insert(num)?;
        Ok(())
    }

    /// Adds those of a list that don't wait yet.
    pub fn add_all(&mut self, nums: &[GrantId]) -> Result<(), Memory>
        ensures { OnOk result (AreQueued nums.now self.old self.new) }
    {
        for num in nums {
            self.add(*num)?;
        }
        Ok(())
    }

    /// Takes the one that came first.
    pub fn take(&mut self) -> Option<GrantId>
        ensures { MatchOption result (self.old ≡ []) (λ num. self.old ≡ num ∷ self.new) }
    {
        let num = self.waiting.pop_front()?;
        self.there.remove(&num);
        Some(num)
    }
}
