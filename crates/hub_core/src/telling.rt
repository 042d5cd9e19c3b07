//! What is told outwards of an event.

ghost use Rattle.std.specs.Prelude.{◌≡◌, ℕ, List, Some, OnOk, option_map};
ghost use Rattle.cloud_keeper.specs.Keeping.{LeavesAsBefore, LeavesItsRows, RowsFollow, TheRowsAfter, put};
ghost use Rattle.desk_base.specs.Terms.{EventFits, HasGrain, row};
ghost use Rattle.hub_core.specs.Spawning.{IsOfApp};
ghost use Rattle.share_graph.specs.declared.event.Event.TheVariants as event;
ghost use Rattle.hub_core.specs.Inner.{HasItsRow, LeavesBy, Told, ToldKeeper, ToldSpawner, kept_by};

use crate::held::{Held, Holding};
use cloud_keeper::{KeepFault, Keeper, Row};
use desk_orders::OrderFault;
use grain_supervise::{Spawner, StartFault};
use host_base::{AppId, GrainId, RunId};
use share_graph::{Event, Run, State, grain};
use std::alloc::Global;

// The application of a grain that is there.
fn app_behind(state: &State, number: GrainId) -> AppId
    requires { HasGrain state.now.tables number }
    ensures { option_map (λ grain. grain.app) (row state.now.tables.grains number.0) ≡ Some result }
{
    match grain(&state.tables, number) {
        Some(grain) => grain.app,
        None => unreachable!(),
    }
}

/// The application of the grain whose run an event starts. Of an event that starts none nobody asks for it.
pub fn app_of(state: &State, event: &Event) -> AppId
    requires { EventFits state.now event.now }
    ensures { IsOfApp state.now result event.now }
{
    match event {
        Event::RunStarted(run) => app_behind(state, run.grain),
        Event::AccountAdded(_) | Event::AppAdded(_) | Event::GrainAdded(_) => AppId(0),
        Event::GrantAdded(_) | Event::Claimed(_, _) | Event::SavedAdded(_) => AppId(0),
        Event::AppUpgraded(_, _) | Event::LoginSet(_, _) => AppId(0),
        Event::AdminSet(_, _) | Event::EnabledSet(_, _) | Event::TrashedSet(_, _) => AppId(0),
        Event::GrantRevoked(_) | Event::SavedDropped(_) | Event::RunStopped(_) => AppId(0),
        Event::SessionOpened(_) | Event::SessionClosed(_) | Event::HandleMade(_) => AppId(0),
        Event::Ticked(_) => AppId(0),
    }
}

// Starts a run, by the program of an application, and hands it its token.
fn start<P: Spawner>(
    alloc: Global,
    spawner: &mut P,
    run: &Run,
    app: AppId,
    token: &[u8],
) -> Result<(), OrderFault>
    ensures { ToldSpawner (P.spawns spawner.old) (P.spawns spawner.new) (event.RunStarted run.now) app
        token.now result }
{
    match spawner.start(alloc, run.num, run.grain, app, token) {
        Ok(()) => Ok(()),
        Err(StartFault::StartFailed) => Err(OrderFault::Start),
        Err(StartFault::Memory) => Err(OrderFault::Memory),
    }
}

// Stops a run.
fn stop<P: Spawner>(alloc: Global, spawner: &mut P, run: RunId) -> Result<(), OrderFault>
    ensures { (app : AppId) (token : List ℕ) → ToldSpawner (P.spawns spawner.old) (P.spawns spawner.new)
        (event.RunStopped run) app token result }
{
    match spawner.stop(alloc, run) {
        Ok(()) => Ok(()),
        Err(StartFault::StartFailed) => Err(OrderFault::Start),
        Err(StartFault::Memory) => Err(OrderFault::Memory),
    }
}

// Tells the spawner what an event wants of it: to start the run that it starts, by its grain's application and with its token, or to
// stop the one that it stops. Where that fails nothing was started or stopped.
fn tell_spawner<P: Spawner>(
    alloc: Global,
    spawner: &mut P,
    event: &Event,
    app: AppId,
    token: &[u8],
) -> Result<(), OrderFault>
    ensures { ToldSpawner (P.spawns spawner.old) (P.spawns spawner.new) event.now app token.now result }
{
    match event {
        Event::RunStarted(run) => start(alloc, spawner, run, app, token),
        Event::RunStopped(num) => stop(alloc, spawner, *num),
        Event::AccountAdded(_) | Event::AppAdded(_) | Event::GrainAdded(_) => Ok(()),
        Event::GrantAdded(_) | Event::Claimed(_, _) | Event::SavedAdded(_) => Ok(()),
        Event::AppUpgraded(_, _) | Event::LoginSet(_, _) => Ok(()),
        Event::AdminSet(_, _) | Event::EnabledSet(_, _) | Event::TrashedSet(_, _) => Ok(()),
        Event::GrantRevoked(_) | Event::SavedDropped(_) => Ok(()),
        Event::SessionOpened(_) | Event::SessionClosed(_) | Event::HandleMade(_) => Ok(()),
        Event::Ticked(_) => Ok(()),
    }
}

// Has the keeper keep the row of an event. Where that fails its rows are as before.
fn keep<K: Keeper>(alloc: Global, keeper: &mut K, row: &Row) -> Result<(), OrderFault>
    ensures told { ToldKeeper (K.keeping keeper.old) (K.keeping keeper.new) result }
    ensures rows { RowsFollow (K.keeping keeper.old) (K.keeping keeper.new) (kept_by (Some row.now) result) }
    ensures stops { LeavesAsBefore (K.keeping keeper.new).clean (K.may_leave keeper.old) (K.may_leave keeper.new)
        (TheRowsAfter (K.keeping keeper.old) (put row.now)) }
    ensures settled { OnOk result (LeavesItsRows (K.keeping keeper.new) (K.may_leave keeper.new)) }
{
    match keeper.commit(alloc, row) {
        Ok(()) => Ok(()),
        Err(KeepFault::StoreFailed) => Err(OrderFault::Store),
        Err(KeepFault::Memory) => Err(OrderFault::Memory),
    }
}

/// Tells the outside of an event: the keeper its row, where it has one, and else the spawner what it wants of it. Where that fails
/// nothing was kept, started or stopped.
pub fn tell<H: Holding>(
    alloc: Global,
    held: &mut Held<H>,
    event: &Event,
    row: Option<Row>,
    app: AppId,
    token: &[u8],
) -> Result<(), OrderFault>
    requires { HasItsRow event.now row }
    ensures told { Told held.old.tell held.new.tell event.now app token.now result }
    ensures rows { RowsFollow held.old.tell.keeping held.new.tell.keeping (kept_by row result) }
    ensures leaves { LeavesBy H.Keeper.may_leave held.old held.new row result }
{
    match row {
        Some(row) => keep(alloc, &mut held.keeper, &row),
        None => tell_spawner(alloc, &mut held.spawner, event, app, token),
    }
}
