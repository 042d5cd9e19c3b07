//! The row that an event adds or changes.

ghost use Rattle.std.specs.Prelude.{◌≡◌, List, Some, IfOk, OnOk, option_map};
ghost use Rattle.std.specs.Option.{option_copied};
ghost use Rattle.share_graph.specs.Setting.{with_admin, with_enabled, with_login, with_manifest, with_trashed, revoked, dropped};
ghost use Rattle.share_graph.specs.EventFits.{EventFits};
ghost use Rattle.share_graph.specs.History.{tables_after};
ghost use Rattle.share_graph.specs.WellFormed.{IsWellFormed};
ghost use Rattle.share_graph.specs.declared.rows.Account as the_account;
ghost use Rattle.share_graph.specs.declared.rows.App as the_app;
ghost use Rattle.share_graph.specs.declared.state.State.{State};
ghost use Rattle.cloud_keeper.specs.declared.row.Row.{Row};
ghost use Rattle.row_codec.specs.Rows.{account as an_account, grain as a_grain, saved as a_saved};
ghost use Rattle.row_codec.specs.AppRow.{app as an_app, IsCountableApp};
ghost use Rattle.row_codec.specs.GrantRow.{grant as a_grant};
ghost use Rattle.row_tables.specs.Sections.{stored};
ghost use Rattle.row_tables.specs.RowAfter.{AddsNext, AddedFits, row_after};
ghost use Rattle.row_tables.specs.Kept.{AreRowsOf, with_row};

use crate::writing::stored;
use app_manifest::Manifest;
use cloud_keeper::Row;
use host_base::{Digest, Memory};
use share_graph::{
    Account, App, Event, Grain, Grant, Saved, Tables, account, app, grain, grant, saved,
};
use std::alloc::Global;

// A copy of an account.
fn copy_of_account(account: &Account) -> Result<Account, Memory>
    ensures { IfOk result (λ copy. copy ≡ account.now) }
{
    Ok(account.clone()?)
}

// A copy of an application, with another manifest.
fn copy_with_manifest(app: &App, manifest: &Manifest) -> Result<App, Memory>
    ensures { IfOk result (λ copy. copy ≡ with_manifest manifest.now app.now) }
{
    Ok(App {
        num: app.num,
        manifest: manifest.clone()?,
    })
}

// A copy of a grain.
fn copy_of_grain(grain: &Grain) -> Result<Grain, Memory>
    ensures { IfOk result (λ copy. copy ≡ grain.now) }
{
    Ok(grain.clone()?)
}

// A copy of a grant.
fn copy_of_grant(grant: &Grant) -> Result<Grant, Memory>
    ensures { IfOk result (λ copy. copy ≡ grant.now) }
{
    Ok(grant.clone()?)
}

// A copy of a saved reference.
fn copy_of_saved(saved: &Saved) -> Result<Saved, Memory>
    ensures { IfOk result (λ copy. copy ≡ saved.now) }
{
    Ok(saved.clone()?)
}

// The row of an account after it was made an admin, or no longer is one.
fn admin_set(
    alloc: Global,
    row: Option<&Account>,
    num: u32,
    on: bool,
) -> Result<Option<Row>, Memory>
    ensures { IfOk result (λ r. r ≡ option_map (stored 1 an_account num)
        (option_map (with_admin on) (option_copied row.entry))) }
{
    match row {
        Some(row) => {
            let mut changed = copy_of_account(row)?;
            changed.admin = on;
            Ok(Some(stored(alloc, 1, num, &changed)?))
        }
        None => Ok(None),
    }
}

// The row of an account after it was enabled or disabled.
fn enabled_set(
    alloc: Global,
    row: Option<&Account>,
    num: u32,
    on: bool,
) -> Result<Option<Row>, Memory>
    ensures { IfOk result (λ r. r ≡ option_map (stored 1 an_account num)
        (option_map (with_enabled on) (option_copied row.entry))) }
{
    match row {
        Some(row) => {
            let mut changed = copy_of_account(row)?;
            changed.enabled = on;
            Ok(Some(stored(alloc, 1, num, &changed)?))
        }
        None => Ok(None),
    }
}

// The row of an account after it got another login.
fn login_set(
    alloc: Global,
    row: Option<&Account>,
    num: u32,
    login: Digest,
) -> Result<Option<Row>, Memory>
    ensures row { IfOk result (λ r. r ≡ option_map (stored 1 an_account num)
        (option_map (with_login login) (option_copied row.entry))) }
    ensures fits { OnOk result ((x : the_account.Account) → option_copied row.entry ≡ Some x
        → (an_account x.num.0).fits (with_login login x)) }
{
    match row {
        Some(row) => {
            let mut changed = copy_of_account(row)?;
            changed.login = login;
            Ok(Some(stored(alloc, 1, num, &changed)?))
        }
        None => Ok(None),
    }
}

// The row of an application after it got another manifest.
fn app_upgraded(
    alloc: Global,
    row: Option<&App>,
    num: u32,
    manifest: &Manifest,
) -> Result<Option<Row>, Memory>
    ensures row { IfOk result (λ r. r ≡ option_map (stored 2 an_app num)
        (option_map (with_manifest manifest.now) (option_copied row.entry))) }
    ensures fits { OnOk result ((x : the_app.App) → option_copied row.entry ≡ Some x
        → IsCountableApp (with_manifest manifest.now x) → (an_app x.num.0).fits (with_manifest manifest.now x)) }
{
    match row {
        Some(row) => {
            let changed = copy_with_manifest(row, manifest)?;
            Ok(Some(stored(alloc, 2, num, &changed)?))
        }
        None => Ok(None),
    }
}

// The row of a grain after it was put into the trash, or taken out of it.
fn trashed_set(
    alloc: Global,
    row: Option<&Grain>,
    num: u32,
    on: bool,
) -> Result<Option<Row>, Memory>
    ensures { IfOk result (λ r. r ≡ option_map (stored 3 a_grain num)
        (option_map (with_trashed on) (option_copied row.entry))) }
{
    match row {
        Some(row) => {
            let mut changed = copy_of_grain(row)?;
            changed.trashed = on;
            Ok(Some(stored(alloc, 3, num, &changed)?))
        }
        None => Ok(None),
    }
}

// The row of a grant after it was revoked.
fn grant_revoked(alloc: Global, row: Option<&Grant>, num: u32) -> Result<Option<Row>, Memory>
    ensures { IfOk result (λ r. r ≡ option_map (stored 4 a_grant num)
        (option_map revoked (option_copied row.entry))) }
{
    match row {
        Some(row) => {
            let mut changed = copy_of_grant(row)?;
            changed.revoked = true;
            Ok(Some(stored(alloc, 4, num, &changed)?))
        }
        None => Ok(None),
    }
}

// The row of a saved reference after it was dropped.
fn saved_dropped(alloc: Global, row: Option<&Saved>, num: u32) -> Result<Option<Row>, Memory>
    ensures { IfOk result (λ r. r ≡ option_map (stored 5 a_saved num)
        (option_map dropped (option_copied row.entry))) }
{
    match row {
        Some(row) => {
            let mut changed = copy_of_saved(row)?;
            changed.dropped = true;
            Ok(Some(stored(alloc, 5, num, &changed)?))
        }
        None => Ok(None),
    }
}

// The row that an event adds or changes, as it stands after the event, if there is one.
#[tactic(auto, using(crate::proofs::ListRows::row_added, crate::proofs::ListRows::row_changed))]
fn event_row(alloc: Global, tables: &Tables, event: &Event) -> Result<Option<Row>, Memory>
    requires { AddsNext tables.now event.now }
    ensures row { IfOk result (λ r. r ≡ row_after tables.now event.now) }
    ensures fits { OnOk result (AddedFits tables.now event.now) }
{
    match event {
        Event::AccountAdded(row) => Ok(Some(stored(alloc, 1, row.num.0, row)?)),
        Event::AppAdded(row) => Ok(Some(stored(alloc, 2, row.num.0, row)?)),
        Event::GrainAdded(row) => Ok(Some(stored(alloc, 3, row.num.0, row)?)),
        Event::GrantAdded(row) => Ok(Some(stored(alloc, 4, row.num.0, row)?)),
        Event::Claimed(row, _) => Ok(Some(stored(alloc, 4, row.num.0, row)?)),
        Event::SavedAdded(row) => Ok(Some(stored(alloc, 5, row.num.0, row)?)),
        Event::AdminSet(num, on) => admin_set(alloc, account(tables, *num), num.0, *on),
        Event::EnabledSet(num, on) => enabled_set(alloc, account(tables, *num), num.0, *on),
        Event::LoginSet(num, login) => login_set(alloc, account(tables, *num), num.0, *login),
        Event::AppUpgraded(num, manifest) => {
            app_upgraded(alloc, app(tables, *num), num.0, manifest)
        }
        Event::TrashedSet(num, on) => trashed_set(alloc, grain(tables, *num), num.0, *on),
        Event::GrantRevoked(num) => grant_revoked(alloc, grant(tables, *num), num.0),
        Event::SavedDropped(num) => saved_dropped(alloc, saved(tables, *num), num.0),
        Event::RunStarted(_)
        | Event::RunStopped(_)
        | Event::SessionOpened(_)
        | Event::SessionClosed(_)
        | Event::HandleMade(_)
        | Event::Ticked(_) => Ok(None),
    }
}

/// Writes the row that an event adds to the tables or changes in them, as it stands after the event. An event that changes sessions,
/// runs, handles or the moment alone has none.
pub fn row_after(alloc: Global, tables: &Tables, event: &Event) -> Result<Option<Row>, Memory>
    requires { AddsNext tables.now event.now }
    ensures row { IfOk result (λ r. r ≡ row_after tables.now event.now) }

    // Put among the rows of the tables, it makes them the rows of the tables after the event.
    ensures kept { IfOk result (λ r. (s : State) (rows : List Row) → IsWellFormed s → s.tables ≡ tables.now
        → EventFits s event.now → AreRowsOf tables.now rows
        → AreRowsOf (tables_after tables.now event.now) (with_row r rows)) }
{
    event_row(alloc, tables, event)
}
