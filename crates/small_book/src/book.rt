ghost use Rattle.std.specs.Prelude.{◌≡◌, IfOk};
ghost use Rattle.share_graph.specs.WellFormed.{IsWellFormed};
ghost use Rattle.small_book.specs.SmallBook.{small_book as the_small_book};

use crate::accounts::accounts;
use crate::apps::apps;
use crate::grains::{grains, grants};
use crate::live::{runs, sessions};
use host_base::Memory;
use share_graph::{Rows, State, Tables};
use std::alloc::Global;

/// Four accounts, two applications, a grain of each, two shares of the first grain, four sessions and two runs.
#[tactic(auto, using(crate::proofs::WellFormed::well_formed))]
pub fn small_book(alloc: Global) -> Result<State, Memory>
    ensures book { IfOk result (λ s. s ≡ the_small_book) }
    ensures formed { IsWellFormed the_small_book }
{
    let tables = Tables {
        accounts: accounts(alloc)?,
        apps: apps(alloc)?,
        grains: grains(alloc)?,
        grants: grants(alloc)?,
        saved: Rows::empty(alloc),
        moment: 0,
    };
    Ok(State {
        tables,
        sessions: sessions(alloc)?,
        runs: runs(alloc)?,
        handles: Rows::empty(alloc),
    })
}
