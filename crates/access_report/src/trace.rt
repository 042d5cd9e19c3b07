//! Steps that are told one after another, and are found by what they say.

ghost use Rattle.std.specs.Prelude.{◌≡◌, ◌++◌, ◌∷◌, [], MatchOption, OnOk, length};
ghost use Rattle.access_report.specs.Placing.{position as the_position};
ghost use Rattle.access_report.specs.Steps.{SaysBefore};
ghost use Rattle.access_report.specs.Telling.{IsSaid};

use crate::step::Step;
use host_base::Memory;
use share_graph::{Fact, Node};
use std::alloc::Global;
use std::collections::BTreeMap;
use std::marker::Model;

/// Steps, with the place of one that says so for each fact that is said of a node. A permission stands under its position there, and
/// entry under none.
pub struct Trace {
    steps: Vec<Step>,
    places: BTreeMap<(Node, Option<u8>), u32>,
}

// Written by hand: a proof then has one call wherever one is let go.
impl Drop for Trace {
    fn drop(self) {
        let Trace {
            steps: _,
            places: _,
        } = self;
    }
}

impl Model for Trace {
    ghost use Rattle.std.specs.Prelude.{List};
    ghost use Rattle.access_report.specs.declared.step.Step.{Step};
    ghost use Rattle.access_report.specs.Placing.{ArePlaced};

    ghost Value = { List Step };

    ghost view = { λ trace. trace.steps.items };

    ghost invariant = { λ trace. ArePlaced trace.steps.items trace.places.entries };
}

// The position of a permission, and none for entry.
fn position(fact: Fact) -> Option<u8>
    ensures { result ≡ the_position fact }
{
    match fact {
        Fact::Open => None,
        Fact::Perm(pos) => Some(pos),
    }
}

impl Trace {
    /// No steps.
    pub fn new(alloc: Global) -> Trace
        ensures { result ≡ [] }
    {
        Trace {
            steps: Vec::new(alloc),
            places: BTreeMap::new(alloc),
        }
    }

    /// The steps, in their order.
    pub fn steps(&self) -> &[Step]
        ensures { result.now ≡ self.now }
    {
        self.steps.as_slice()
    }

    /// The place of a step that says that a node holds a fact.
    pub fn place_of(&self, node: Node, fact: Fact) -> Option<u32>
        ensures { MatchOption result (IsSaid self.now node fact → ⊥)
            (λ place. SaysBefore self.now (length self.now) place node fact) }
    {
        self.places.get(&(node, position(fact))).copied()
    }

    /// Adds a step.
    pub fn add(&mut self, step: Step) -> Result<(), Memory>
        ensures { OnOk result (self.new ≡ self.old ++ step ∷ []) }
    {
        let Ok(place) = u32::try_from(self.steps.len()) else {
            return Err(Memory);
        };
        self.steps.reserve(1)?;
        self.places.insert((step.node, position(step.fact)), place)?;
        self.steps.push_reserved(step);
        Ok(())
    }
}
