//! The row at which tables have their first fault.

ghost use Rattle.std.specs.Prelude.{◌≡◌, ◌≤◌};
ghost use Rattle.share_graph.specs.WellFormed.{IsWithinLimits};
ghost use Rattle.row_tables.specs.Checks.{start_of, bad_row, bad_ref};

use crate::stored::BadRow;
use row_formats::RowFault;
use share_graph::{GraphFault, Kind, Tables};

// How many rows stand before those of a kind.
fn start_of(tables: &Tables, kind: Kind) -> usize
    requires { IsWithinLimits tables.now }
    ensures start { result ≡ start_of tables.now kind }
    ensures small { result ≤ 100000 }
{
    let apps = tables.accounts.as_slice().len();
    let grains = apps + tables.apps.as_slice().len();
    let grants = grains + tables.grains.as_slice().len();
    let saved = grants + tables.grants.as_slice().len();
    match kind {
        Kind::App => apps,
        Kind::Grain => grains,
        Kind::Grant => grants,
        Kind::Saved => saved,
        _ => 0,
    }
}

// The bad row of a kind and a number, with the number of its fault.
fn bad_row(tables: &Tables, kind: Kind, num: u32, number: u8) -> BadRow
    requires { IsWithinLimits tables.now }
    ensures { result ≡ bad_row tables.now kind num number }
{
    let place = num.saturating_sub(1);
    BadRow {
        index: start_of(tables, kind) + place as usize,
        fault: RowFault::BadRef(number),
    }
}

/// The bad row that a fault of tables names.
pub(crate) fn bad_ref(tables: &Tables, fault: GraphFault) -> BadRow
    requires { IsWithinLimits tables.now }
    ensures { result ≡ bad_ref tables.now fault }
{
    match fault {
        GraphFault::UnknownRow(kind, num) => bad_row(tables, kind, num, 1),
        GraphFault::DoubleDigest(kind, num) => bad_row(tables, kind, num, 2),
        GraphFault::BadParent(grant) => bad_row(tables, Kind::Grant, grant.0, 3),
        GraphFault::LateParent(grant) => bad_row(tables, Kind::Grant, grant.0, 4),
        GraphFault::BadSet(kind, num) => bad_row(tables, kind, num, 5),
        GraphFault::BadShare(kind, num) => bad_row(tables, kind, num, 6),
    }
}
