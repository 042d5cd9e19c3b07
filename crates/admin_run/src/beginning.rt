//! What `serve` begins with.
ghost use Rattle.std.specs.Prelude.{◌≡◌, ◌≤◌, ◌⊎◌, [], IsTrue, Ok, IfOk, IfErr, OnOk};
ghost use Rattle.host_base.specs.Outside.{Rose};
ghost use Rattle.cloud_keeper.specs.Keeping.{Keeping, RowsFollow};
ghost use Rattle.first_account.specs.First.{HasNoRows};
ghost use Rattle.hub_core.specs.Opening.{opened};
ghost use Rattle.hub_core.specs.Stopping.{OutliveStops};
ghost use Rattle.row_tables.specs.declared.stored.BadRow.{BadRow};
ghost use Rattle.row_tables.specs.Checks.{GivesTables, IsBadRow};
ghost use Rattle.row_tables.specs.Kept.{AreRowsOf};
ghost use Rattle.share_graph.specs.WellFormed.{IsWellFormed};
ghost use Rattle.admin_run.specs.Beginning.{Begins, CannotBegin, HadRows};
ghost use Rattle.admin_run.specs.Outside.{Tells};
ghost use Rattle.admin_run.specs.Serving.{login_line};

use crate::telling::tell_value;
use cloud_keeper::{KeepFault, Keeper, Row};
use first_account::{FirstFault, first_account};
use host_base::{Bytes, Secrets, Sink};
use row_tables::{LoadFault, tables_of};
use share_graph::Tables;
use std::alloc::Global;

/// The tables that `serve` begins with, and the login of a first account.
#[derive(Drop)]
pub(crate) struct Beginning {
    pub(crate) tables: Tables,
    pub(crate) login: Option<Bytes>,
}

// Makes the first account with a keeper that has no rows. The error is the status.
fn begin_anew<K: Keeper, S: Secrets>(
    alloc: Global,
    keeper: &mut K,
    secrets: &mut S,
) -> Result<Beginning, u8>
    requires { HasNoRows (K.keeping keeper.old) }

    // Whatever the keeper was before it had no rows.
    ensures begins { (before : Keeping) → HadRows before (K.keeping keeper.old) (λ rows. rows ≡ [])
        → before.faults ≤ (K.keeping keeper.old).faults
        → (IsTrue (K.keeping keeper.old).clean → IsTrue before.clean)
        → IfOk result (λ begun. Begins before (K.keeping keeper.new) (S.drawer secrets.old)
        (S.drawer secrets.new) begun.tables begun.login) }
    ensures outlive { OnOk result (OutliveStops (K.keeping keeper.new) (K.may_leave keeper.new)) }
    ensures fails { (before : Keeping) → RowsFollow before (K.keeping keeper.old) (λ rows. rows)
        → before.faults ≤ (K.keeping keeper.old).faults → IfErr result (λ status. CannotBegin before
        (K.keeping keeper.new) (S.drawer secrets.old) (S.drawer secrets.new) status) }
{
    match first_account(alloc, keeper, secrets) {
        Ok((token, tables)) => Ok(Beginning {
            tables,
            login: Some(token),
        }),
        Err(FirstFault::Memory) => Err(7),
        Err(FirstFault::SecretsFailed) => Err(9),
        Err(FirstFault::StoreFailed) => Err(9),
    }
}

/// The tables that rows state. The error is the status.
pub(crate) fn tables_in(alloc: Global, rows: &[Row]) -> Result<Tables, u8>
    ensures tables { IfOk result (λ tables. GivesTables (Ok tables) rows.now × AreRowsOf tables rows.now
        × IsWellFormed (opened tables)) }
    ensures fails { IfErr result (λ status.
        ((status ≡ 10) × ((bad : BadRow) × IsBadRow rows.now bad)) ⊎ (status ≡ 7)) }
{
    match tables_of(alloc, rows) {
        Ok(tables) => Ok(tables),
        Err(LoadFault::BadRow(_)) => Err(10),
        Err(LoadFault::Memory) => Err(7),
    }
}

/// Loads the rows of a keeper: the tables that they state; or where there are none, those with the first account, which it
/// makes, and its login. The rows then outlive a stop. The error is the status: 9 where the keeper failed or the secrets, 10 where a row is bad, and 7
/// where memory ran out.
#[tactic(auto, using(crate::proofs::First::of_keeper))]
pub(crate) fn begin<K: Keeper, S: Secrets>(
    alloc: Global,
    keeper: &mut K,
    secrets: &mut S,
) -> Result<Beginning, u8>
    ensures begins { IfOk result (λ begun. Begins (K.keeping keeper.old) (K.keeping keeper.new)
        (S.drawer secrets.old) (S.drawer secrets.new) begun.tables begun.login) }
    ensures outlive { OnOk result (OutliveStops (K.keeping keeper.new) (K.may_leave keeper.new)) }
    ensures fails { IfErr result (λ status. CannotBegin (K.keeping keeper.old) (K.keeping keeper.new)
        (S.drawer secrets.old) (S.drawer secrets.new) status) }
{
    match keeper.load(alloc) {
        Ok(rows) => {
            if rows.is_empty() {
                begin_anew(alloc, keeper, secrets)
            } else {
                let tables = tables_in(alloc, rows.as_slice())?;
                Ok(Beginning {
                    tables,
                    login: None,
                })
            }
        }
        Err(KeepFault::StoreFailed) => Err(9),
        Err(KeepFault::Memory) => Err(7),
    }
}

/// Prints the login of a first account; the status is 0, or 5 where it couldn't be printed.
pub(crate) fn announce<O: Sink>(out: &mut O, login: &Option<Bytes>) -> u8
    ensures tells { Tells (O.outlet out.old) (O.outlet out.new) (login_line login.now) 0 result }
    ensures counts { (O.outlet out.old).faults ≤ (O.outlet out.new).faults }
    ensures cause { result ≡ 5 → Rose (O.outlet out.old).faults (O.outlet out.new).faults }
    ensures either { (result ≡ 0) ⊎ (result ≡ 5) }
{
    match login {
        Some(token) => tell_value(out, b"login ", token.as_slice(), 0),
        None => 0,
    }
}
