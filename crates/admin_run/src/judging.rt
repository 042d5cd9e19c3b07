//! `check`: what is said of the rows of a keeper.
ghost use Rattle.std.specs.Prelude.{◌≡◌, ◌≢◌, ◌≤◌};
ghost use Rattle.host_base.specs.Outside.{Rose};
ghost use Rattle.cloud_keeper.specs.Keeping.{RowsFollow};
ghost use Rattle.admin_run.specs.Judging.{Judges, JudgesRows};

use crate::lines::{bad_row_line, counts_line};
use crate::telling::tell_line;
use cloud_keeper::{KeepFault, Keeper, Row};
use host_base::Sink;
use row_tables::{LoadFault, tables_of};
use std::alloc::Global;

// Says of rows what tables they state, or which one is bad.
fn judge_rows<O: Sink>(alloc: Global, out: &mut O, rows: &[Row]) -> u8
    ensures judged { JudgesRows (O.outlet out.old) (O.outlet out.new) rows.now result }
    ensures counts { (O.outlet out.old).faults ≤ (O.outlet out.new).faults }
    ensures cause { result ≡ 5 → Rose (O.outlet out.old).faults (O.outlet out.new).faults }
    ensures unread { result ≢ 4 }
    ensures kept { result ≢ 9 }
{
    match tables_of(alloc, rows) {
        Ok(tables) => match counts_line(alloc, rows.len(), &tables) {
            Ok(line) => tell_line(out, line, 0),
            Err(_) => 7,
        },
        Err(LoadFault::BadRow(bad)) => match bad_row_line(alloc, bad.index) {
            Ok(line) => tell_line(out, line, 10),
            Err(_) => 7,
        },
        Err(LoadFault::Memory) => 7,
    }
}

/// Loads the rows of a keeper and says what tables they state, or which one is bad. The status is 0 or 10, 9 where the keeper failed, 7 where memory ran
/// out, and 5 where the line couldn't be printed.
#[tactic(auto, using(crate::proofs::First::of_keeper))]
pub(crate) fn judge<O: Sink, K: Keeper>(alloc: Global, out: &mut O, keeper: &mut K) -> u8
    ensures judged { Judges (O.outlet out.old) (O.outlet out.new) (K.keeping keeper.old)
        (K.keeping keeper.new) result }
    ensures kept { RowsFollow (K.keeping keeper.old) (K.keeping keeper.new) (λ rows. rows) }
    ensures cause { result ≡ 5 → Rose (O.outlet out.old).faults (O.outlet out.new).faults }
    ensures store { result ≡ 9 → Rose (K.keeping keeper.old).faults (K.keeping keeper.new).faults }
    ensures unread { result ≢ 4 }
{
    match keeper.load(alloc) {
        Ok(rows) => judge_rows(alloc, out, rows.as_slice()),
        Err(KeepFault::StoreFailed) => 9,
        Err(KeepFault::Memory) => 7,
    }
}
