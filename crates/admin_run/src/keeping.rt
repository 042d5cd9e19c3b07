//! The keeper that the program begins with where nothing outlives it.

ghost use Rattle.std.specs.Prelude.{IfOk};
ghost use Rattle.hub_core.specs.Stopping.{OutliveStops};
ghost use Rattle.admin_run.specs.Connection.{HasBook};

use cloud_keeper::{Keeper, MemKeeper};
use host_base::{Fails, Memory};
use row_tables::rows_of;
use small_book::small_book;
use std::alloc::Global;

/// A keeper in memory that has the rows of the small book, so that they outlive a stop, with the calls that are to fail.
#[tactic(auto, using(row_tables::proofs::InOrder::rows_in_order))]
pub fn book_keeper(alloc: Global, fails: Fails) -> Result<MemKeeper, Memory>
    ensures book { IfOk result (λ keeper. HasBook (⟦<MemKeeper as Keeper>⟧.keeping keeper)) }
    ensures outlive { IfOk result (λ keeper. OutliveStops (⟦<MemKeeper as Keeper>⟧.keeping keeper)
        (⟦<MemKeeper as Keeper>⟧.may_leave keeper)) }
{
    let book = small_book(alloc)?;
    let rows = rows_of(alloc, &book.tables)?;
    Ok(MemKeeper::new(rows, fails))
}
