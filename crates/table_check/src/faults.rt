ghost use Rattle.std.specs.Prelude.{◌≡◌, ◌↔◌, IsTrue};
ghost use Rattle.share_graph.specs.Checked.{HandleFits};

use crate::fitting::{is_reference, manifest_fits, sets_fit, shares_well};
use crate::fresh::{
    is_fresh_handle, is_fresh_login, is_fresh_reference, is_fresh_token, is_handle_name,
};
use crate::knowing::{knows_of_grain, knows_of_grant, knows_of_saved};
use crate::parents::{has_parent, names_earlier};
use share_graph::{Account, App, Grain, Grant, GraphFault, Kind, Saved, Tables};

/// A row that is checked at its place, from 0, among the rows of tables.
pub(crate) trait CheckedRow {
    ghost use Rattle.std.specs.Prelude.{ℕ, Option};
    ghost use Rattle.share_graph.specs.declared.fault.GraphFault.{GraphFault};
    ghost use Rattle.share_graph.specs.declared.state.Tables.{Tables};

    // the row's first fault, or none
    ghost has: { Tables → ℕ → Self → Option GraphFault → Type 0 };

    /// The row's first fault, if it has one.
    fn first_fault(&self, tables: &Tables, place: usize) -> Option<GraphFault>
        ensures { has tables.now place self.now result };
}

fn handle_fits(tables: &Tables, place: usize, account: &Account) -> bool
    ensures { IsTrue result ↔ HandleFits tables.now place account.now }
{
    is_handle_name(&account.handle) && is_fresh_handle(tables, place, account)
}

impl CheckedRow for Account {
    ghost use Rattle.share_graph.specs.Checked.{AccountFault};

    ghost has = { AccountFault };

    fn first_fault(&self, tables: &Tables, place: usize) -> Option<GraphFault> {
        if !is_fresh_login(tables, place, self) {
            return Some(GraphFault::DoubleDigest(Kind::Account, self.num.0));
        }
        if !handle_fits(tables, place, self) {
            return Some(GraphFault::BadShare(Kind::Account, self.num.0));
        }
        None
    }
}

impl CheckedRow for App {
    ghost use Rattle.share_graph.specs.Checked.{AppFault};

    ghost has = { AppFault };

    fn first_fault(&self, _tables: &Tables, _place: usize) -> Option<GraphFault> {
        if !manifest_fits(&self.manifest) {
            return Some(GraphFault::BadSet(Kind::App, self.num.0));
        }
        None
    }
}

impl CheckedRow for Grain {
    ghost use Rattle.share_graph.specs.Checked.{GrainFault};

    ghost has = { GrainFault };

    fn first_fault(&self, tables: &Tables, _place: usize) -> Option<GraphFault> {
        if !knows_of_grain(tables, self) {
            return Some(GraphFault::UnknownRow(Kind::Grain, self.num.0));
        }
        None
    }
}

impl CheckedRow for Grant {
    ghost use Rattle.share_graph.specs.Checked.{GrantFault};

    ghost has = { GrantFault };

    fn first_fault(&self, tables: &Tables, place: usize) -> Option<GraphFault> {
        if !knows_of_grant(tables, self) {
            return Some(GraphFault::UnknownRow(Kind::Grant, self.num.0));
        }
        if !is_fresh_token(tables, place, self) {
            return Some(GraphFault::DoubleDigest(Kind::Grant, self.num.0));
        }
        if !has_parent(tables, self) {
            return Some(GraphFault::BadParent(self.num));
        }
        if !names_earlier(place, self) {
            return Some(GraphFault::LateParent(self.num));
        }
        if !sets_fit(tables, self) {
            return Some(GraphFault::BadSet(Kind::Grant, self.num.0));
        }
        if !shares_well(self) {
            return Some(GraphFault::BadShare(Kind::Grant, self.num.0));
        }
        None
    }
}

impl CheckedRow for Saved {
    ghost use Rattle.share_graph.specs.Checked.{SavedFault};

    ghost has = { SavedFault };

    fn first_fault(&self, tables: &Tables, place: usize) -> Option<GraphFault> {
        if !knows_of_saved(tables, self) {
            return Some(GraphFault::UnknownRow(Kind::Saved, self.num.0));
        }
        if !is_fresh_reference(tables, place, self) {
            return Some(GraphFault::DoubleDigest(Kind::Saved, self.num.0));
        }
        if !is_reference(tables, self) {
            return Some(GraphFault::BadShare(Kind::Saved, self.num.0));
        }
        None
    }
}
