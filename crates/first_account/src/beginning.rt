ghost use Rattle.std.specs.Prelude.{◌≡◌, ◌≤◌, ◌∷◌, [], IsTrue, IfOk, OnOk, OnErr, IsErrOf};
ghost use Rattle.host_base.specs.Outside.{Rose};
ghost use Rattle.cloud_keeper.specs.Keeping.{LeavesItsRows, RowsFollow};
ghost use Rattle.cloud_keeper.specs.declared.row.Row.{Row};
ghost use Rattle.share_graph.specs.Checked.{IsChecked};
ghost use Rattle.row_tables.specs.Kept.{AreRowsOf};
ghost use Rattle.first_account.specs.Drawn.{IsTokenOfNext, DrewOneAtMost};
ghost use Rattle.first_account.specs.First.{first_tables, first_row, HasNoRows, HasJust};

use crate::admin::first_rows;
use crate::fault::FirstFault;
use crate::token::draw_token;
use cloud_keeper::{KeepFault, Keeper, Row};
use host_base::{Bytes, Secrets};
use share_graph::Tables;
use std::alloc::Global;

// Keeps the first row.
fn keep<K: Keeper>(alloc: Global, keeper: &mut K, row: &Row) -> Result<(), FirstFault>
    requires { HasNoRows (K.keeping keeper.old) }
    ensures counts { (K.keeping keeper.old).faults ≤ (K.keeping keeper.new).faults }
    ensures clean { IsTrue (K.keeping keeper.new).clean → IsTrue (K.keeping keeper.old).clean }
    ensures kept { OnOk result (HasJust row.now (K.keeping keeper.new)) }
    ensures settled { OnOk result (LeavesItsRows (K.keeping keeper.new) (K.may_leave keeper.new)) }
    ensures cause { IsErrOf result FirstFault.StoreFailed
        → Rose (K.keeping keeper.old).faults (K.keeping keeper.new).faults }
    ensures same { OnErr result (RowsFollow (K.keeping keeper.old) (K.keeping keeper.new) (λ rows. rows)) }
    ensures no_secrets { IsErrOf result FirstFault.SecretsFailed → ⊥ }
{
    match keeper.commit(alloc, row) {
        Ok(()) => Ok(()),
        Err(KeepFault::StoreFailed) => Err(FirstFault::StoreFailed),
        Err(KeepFault::Memory) => Err(FirstFault::Memory),
    }
}

/// Makes account 1 with a keeper that has no rows: an enabled admin with the handle `admin` and the name `Admin`, whose login is a secret
/// that is drawn. The answer is the secret's token, which is shown this once, and the tables with that account alone.
///
/// # Errors
/// Want of memory, and a failure of the secrets or of the store. After each the keeper's rows are as before.
pub fn first_account<K: Keeper, S: Secrets>(
    alloc: Global,
    keeper: &mut K,
    secrets: &mut S,
) -> Result<(Bytes, Tables), FirstFault>
    requires { HasNoRows (K.keeping keeper.old) }

    // The answer is the token of the next secret, and the tables.
    ensures token { IfOk result (λ first. IsTokenOfNext (S.drawer secrets.old).coming
        (S.drawer secrets.new).coming first.0) }
    ensures tables { IfOk result (λ first. first.1 ≡ first_tables first.0) }

    // The keeper has the row of that account and no other, and so the rows of tables that can be opened; a stop leaves them.
    ensures row { IfOk result (λ first. HasJust (first_row first.0) (K.keeping keeper.new)) }
    ensures settled { OnOk result (LeavesItsRows (K.keeping keeper.new) (K.may_leave keeper.new)) }
    ensures opens { IfOk result (λ first. AreRowsOf (first_tables first.0) (first_row first.0 ∷ [])) }
    ensures checked { IfOk result (λ first. IsChecked (first_tables first.0)) }

    // What fails was counted, no count falls, and a store that is clean was so before.
    ensures secrets_failed { IsErrOf result FirstFault.SecretsFailed
        → Rose (S.drawer secrets.old).faults (S.drawer secrets.new).faults }
    ensures store_failed { IsErrOf result FirstFault.StoreFailed
        → Rose (K.keeping keeper.old).faults (K.keeping keeper.new).faults }
    ensures secrets_count { (S.drawer secrets.old).faults ≤ (S.drawer secrets.new).faults }
    ensures store_count { (K.keeping keeper.old).faults ≤ (K.keeping keeper.new).faults }
    ensures clean { IsTrue (K.keeping keeper.new).clean → IsTrue (K.keeping keeper.old).clean }

    // What an error leaves.
    ensures same { OnErr result (RowsFollow (K.keeping keeper.old) (K.keeping keeper.new) (λ rows. rows)) }
    ensures drawn { OnErr result (DrewOneAtMost (S.drawer secrets.old).coming (S.drawer secrets.new).coming) }
    ensures undrawn { IsErrOf result FirstFault.SecretsFailed
        → (S.drawer secrets.new).coming ≡ (S.drawer secrets.old).coming }
{
    let token = draw_token(alloc, secrets)?;
    let (tables, row) = first_rows(alloc, token.as_slice())?;
    keep(alloc, keeper, &row)?;
    Ok((token, tables))
}
