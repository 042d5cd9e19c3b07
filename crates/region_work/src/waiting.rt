ghost use Rattle.std.specs.Prelude.{◌≡◌, ◌⊎◌, ◌∷◌, ◌++◌, [], IfOk, IsSome, IfNone, MatchOption};
ghost use Rattle.share_graph.specs.declared.facts.Fact.{Fact};
ghost use Rattle.share_graph.specs.declared.facts.Node.{Node};
ghost use Rattle.least_access.specs.Held.{IsIn};
ghost use Rattle.least_access.specs.Solved.{held_at, HeldAt};
ghost use Rattle.region_work.specs.Prepared.{IsFresh};
ghost use Rattle.region_work.specs.Work.{Finds};

use crate::claim::Claim;
use crate::emptying::empty_at;
use host_base::Memory;
use least_access::Held;
use least_access::table::{Table, holding, put};
use share_graph::Node;
use std::alloc::Global;
use std::marker::Model;

/// More nodes than any tables have.
const MOST_NODES: usize = 1 << 40;

/// What was found, and what of it waits to be passed on. There is room for all that can still be found.
pub struct Waiting {
    found: Table,
    queue: Vec<Claim>,
}

// Written by hand: a proof then has one call wherever one is let go.
impl Drop for Waiting {
    fn drop(self) {
        let Waiting { found: _, queue: _ } = self;
    }
}

impl Model for Waiting {
    ghost use Rattle.std.specs.Prelude.{◌+◌, ◌≤◌, vec_len, vec_capacity};
    ghost use Rattle.least_access.specs.Rounds.{total_room};
    ghost use Rattle.region_work.specs.Work.{Work};

    ghost Value = { Work };

    ghost view = { λ waiting. record { found = waiting.found.entries; queue = waiting.queue.items } };

    ghost invariant = { λ waiting. vec_len waiting.queue + total_room waiting.found.entries ≤ vec_capacity waiting.queue };
}

impl Waiting {
    /// Nothing was found yet at the nodes, and there is room for all that can be.
    pub fn new(alloc: Global, nodes: &[Node]) -> Result<Waiting, Memory>
        ensures { IfOk result (λ waiting. IsFresh nodes.now waiting) }
    {
        let found = empty_at(alloc, nodes)?;
        if found.len() >= MOST_NODES {
            return Err(Memory);
        }
        let Ok(queue) = Vec::with_capacity(alloc, 65 * found.len()) else {
            return Err(Memory);
        };
        Ok(Waiting { found, queue })
    }

    /// Adds what is held to what was found at a node. What is new waits.
    pub fn find(&mut self, node: Node, held: &Held)
        requires { IsSome (held_at self.old.found node) }
        ensures finds { Finds self.old self.new }
        ensures there { (fact : Fact) → IsIn held.now fact → HeldAt self.new.found node fact }
        ensures only { (at : Node) (other : Fact) → HeldAt self.new.found at other
            → HeldAt self.old.found at other ⊎ ((at ≡ node) × IsIn held.now other) }
    {
        let before = holding(&self.found, node);
        let after = before.union(held);
        if after == before {
            return;
        }
        put(&mut self.found, node, after);
        self.queue.push_reserved(Claim { node, held: *held });
    }

    /// Takes what waits at a node.
    pub fn take(&mut self) -> Option<Claim>
        ensures found { self.new.found ≡ self.old.found }
        ensures queue { MatchOption result (self.old.queue ≡ []) (λ claim. self.old.queue
            ≡ self.new.queue ++ claim ∷ []) }
        ensures none { IfNone result (self.new ≡ self.old) }
    {
        self.queue.pop()
    }
}
