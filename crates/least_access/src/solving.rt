//! The solution: what each node holds by the rules of sharing.

ghost use Rattle.std.specs.Prelude.{◌≡◌, ◌↔◌, ℕ, IsTrue, MatchOption};
ghost use Rattle.perm_roles.specs.PermSet.{Has};
ghost use Rattle.share_graph.specs.declared.facts.Fact.{Fact};
ghost use Rattle.share_graph.specs.Coherent.{IsCoherent};
ghost use Rattle.share_graph.specs.Derivation.{Owns, IsFactOf, IsMetBy};
ghost use Rattle.share_graph.specs.Rows.{IsGrain, IsApp};
ghost use Rattle.least_access.specs.Held.{IsIn};
ghost use Rattle.least_access.specs.Solved.{HeldAt};

use crate::held::Held;
use crate::needs::is_met;
use crate::table::{Table, holding};
use host_base::GrainId;
use perm_roles::PermSet;
use share_graph::{App, Grain, Need, Node, Tables, is_enabled};
use std::marker::Model;

/// What each node holds, by the tables that it was solved for.
#[derive(Drop)]
pub struct Solved {
    pub table: Table,
}

impl Model for Solved {
    ghost use Rattle.std.specs.Prelude.{List};
    ghost use Rattle.share_graph.specs.declared.facts.Node.{Node};
    ghost use Rattle.least_access.specs.declared.held.Held.{Held};

    ghost Value = { List (Node × Held) };

    ghost view = { λ solved. solved.table.entries };
}

/// What the owner of a grain holds there.
pub fn owned(tables: &Tables, num: GrainId, grain: &Grain, app: &App) -> Held
    requires coherent { IsCoherent tables.now }
    requires row { IsGrain tables.now num grain.now }
    requires of_app { IsApp tables.now grain.now.app app.now }
    ensures { (fact : Fact) → IsIn result fact ↔ (Owns tables.now num grain.now app.now
        × IsFactOf app.now fact) }
{
    if grain.trashed || !is_enabled(tables, grain.owner) {
        return Held::none();
    }
    Held {
        entry: true,
        perms: PermSet::all(app.manifest.permissions.as_slice().len() as u8),
    }
}

impl Solved {
    /// What a node holds: nothing without entry, else the positions of its permissions.
    pub fn access(&self, node: Node) -> Option<PermSet>
        ensures { MatchOption result (HeldAt self.now node Fact.Open → ⊥)
            (λ set. HeldAt self.now node Fact.Open × ((p : ℕ) → Has set p ↔ HeldAt self.now node (Fact.Perm p))) }
    {
        let held = holding(&self.table, node);
        if held.entry { Some(held.perms) } else { None }
    }

    /// Whether a need is met.
    pub fn met(&self, tables: &Tables, need: &Need) -> bool
        ensures { IsTrue result ↔ IsMetBy tables.now (HeldAt self.now) need.now }
    {
        is_met(tables, &self.table, *need)
    }
}
