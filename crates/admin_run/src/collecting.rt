//! `collect`: the members of a collection get the shares that they are owed, by the rows of a keeper.
ghost use Rattle.std.specs.Prelude.{◌≡◌, ◌≢◌, ◌≤◌, ◌⊎◌, map, Err, IfOk, IfErr, OnOk, OnErr};
ghost use Rattle.host_base.specs.Outside.{Rose};
ghost use Rattle.cloud_keeper.specs.Keeping.{RowsFollow};
ghost use Rattle.desk_orders.specs.declared.reply.OrderFault.TheVariants as fault;
ghost use Rattle.hub_core.specs.Opening.{AreLoaded, opened};
ghost use Rattle.hub_core.specs.Stopping.{OutliveStops};
ghost use Rattle.row_tables.specs.Kept.{IsStored};
ghost use Rattle.share_graph.specs.WellFormed.{IsWellFormed};
ghost use Rattle.site_caps.specs.Registered.{IsRegistered};
ghost use Rattle.admin_run.specs.Collecting.{Collects, CollectsNone, CollectsOn, HasNoTables, ReadsLogin, TellsOutcome};
ghost use Rattle.admin_run.specs.Collecting as specs;
ghost use Rattle.admin_run.specs.Outside.{HasStatusCause, Tells};

use crate::beginning::tables_in;
use crate::serving::open_tables;
use crate::telling::tell_line;
use crate::world::{Ran, Setting, World, joined};
use cloud_keeper::{KeepFault, Keeper};
use cloud_serve::{Collecting, Stopped, Wire, collect_members};
use host_base::{Bytes, GrainId, GrantId, Memory, Sink, Source, digest_of};
use host_clock::Clock;
use hub_core::{OrderFault, Reply, SoloDesk};
use reply_texts::command_body;
use report_texts::shared_text;
use share_graph::{Refusal, Tables};
use site_caps::SiteDriver;
use std::alloc::Global;

// The most bytes that a login has.
const LOGIN_LIMIT: usize = 200;

// The login that the input begins with: its bytes before the first line feed among the first 200. The error is the status.
fn read_login<I: Source>(alloc: Global, input: &mut I) -> Result<Vec<u8>, u8>
    ensures login { IfOk result (λ login. ReadsLogin (I.inlet input.old) login.items) }
    ensures counts { (I.inlet input.old).faults ≤ (I.inlet input.new).faults }
    ensures fails { IfErr result (λ status. ((status ≡ 4) × Rose (I.inlet input.old).faults (I.inlet input.new).faults)
        ⊎ (status ≡ 7)) }
{
    let mut login = Vec::new(alloc);
    let mut next = [0];
    'bytes: while login.len() < LOGIN_LIMIT {
        match input.take(&mut next) {
            Ok(count) => {
                if count == 0 {
                    return Ok(login);
                }
                if next[0] == b'\n' {
                    return Ok(login);
                }
                match login.push(next[0]) {
                    Ok(()) => {}
                    Err(_) => return Err(7),
                }
            }
            Err(_) => return Err(4),
        }
    }
    Ok(login)
}

// Loads the tables that the rows of a keeper state. The rows then outlive a stop. The error is the status.
#[tactic(auto, using(crate::proofs::First::of_keeper))]
fn load<K: Keeper>(alloc: Global, keeper: &mut K) -> Result<Tables, u8>
    ensures loaded { IfOk result (λ tables. AreLoaded (K.keeping keeper.old) (K.keeping keeper.new) tables
        × IsStored (K.keeping keeper.new) tables × IsWellFormed (opened tables)) }
    ensures outlive { OnOk result (OutliveStops (K.keeping keeper.new) (K.may_leave keeper.new)) }
    ensures fails { IfErr result (HasNoTables (K.keeping keeper.old) (K.keeping keeper.new)) }
    ensures kept { RowsFollow (K.keeping keeper.old) (K.keeping keeper.new) (λ rows. rows) }
    ensures counts { (K.keeping keeper.old).faults ≤ (K.keeping keeper.new).faults }
    ensures store { IfErr result (λ status.
        status ≡ 9 → Rose (K.keeping keeper.old).faults (K.keeping keeper.new).faults) }
    ensures silent { IfErr result (λ status. (status ≢ 4) × (status ≢ 5)) }
{
    match keeper.load(alloc) {
        Ok(rows) => tables_in(alloc, rows.as_slice()),
        Err(KeepFault::StoreFailed) => Err(9),
        Err(KeepFault::Memory) => Err(7),
    }
}

// A refusal as a line.
fn refusal_line(alloc: Global, refusal: &Refusal) -> Result<Bytes, Memory>
    ensures { IfOk result (λ line. line ≡ specs.refusal_line refusal.now) }
{
    let mut line = command_body(alloc, refusal)?;
    line.put(b"\n")?;
    Ok(line)
}

// Prints a line, where there is memory for it.
fn tell_made<O: Sink>(out: &mut O, line: Result<Bytes, Memory>, done: u8) -> u8
    ensures told { IfOk line (λ text. Tells (O.outlet out.old) (O.outlet out.new) text done result) }
    ensures memory { OnErr line ((result ≡ 7) × (O.outlet out.new ≡ O.outlet out.old)) }
    ensures counts { (O.outlet out.old).faults ≤ (O.outlet out.new).faults }
    ensures cause { done ≢ 5 → result ≡ 5 → Rose (O.outlet out.old).faults (O.outlet out.new).faults }
    ensures either { (result ≡ done) ⊎ ((result ≡ 5) ⊎ (result ≡ 7)) }
{
    match line {
        Ok(line) => tell_line(out, line, done),
        Err(Memory) => 7,
    }
}

// Prints what collecting came to; the status.
fn tell_outcome<O: Sink>(alloc: Global, out: &mut O, outcome: &Result<u64, Stopped>) -> u8
    ensures told { TellsOutcome outcome.now (O.outlet out.old) (O.outlet out.new) result
        ⊎ ((result ≡ 7) × (O.outlet out.new ≡ O.outlet out.old)) }
    ensures counts { (O.outlet out.old).faults ≤ (O.outlet out.new).faults }
    ensures cause { result ≡ 5 → Rose (O.outlet out.old).faults (O.outlet out.new).faults }
    ensures kept { result ≡ 9 → outcome.now ≡ Err (Err fault.Store) }
    ensures unread { result ≢ 4 }
{
    match outcome {
        Ok(made) => tell_made(out, shared_text(alloc, *made), 0),
        Err(Ok(Reply::Refused(refusal))) => tell_made(out, refusal_line(alloc, refusal), 11),
        Err(Err(OrderFault::Store)) => 9,
        Err(_) => 7,
    }
}

// Collects on tables that the keeper has.
fn collect_on<W: Setting, C: SiteDriver + Drop>(
    alloc: Global,
    world: World<W>,
    tables: Tables,
    asks: &Collecting,
    sites: Vec<C>,
) -> Ran<W>
    requires registered { IsRegistered C.Law.law.tags (map C.tag_of sites.items) }
    requires formed { IsWellFormed (opened tables) }
    requires stored { IsStored world.tells.holds.keeping tables }
    requires outlive { OutliveStops world.tells.holds.keeping (W.Keeper.may_leave world.keeper) }
    ensures collected { CollectsOn C.Law.law asks.now tables world.tells.holds result.world.tells.holds
        world.tells.outlet result.world.tells.outlet result.status
        ⊎ ((result.status ≡ 7) × (result.world.tells ≡ world.tells)) }
    ensures outlive { OutliveStops result.world.tells.holds.keeping (W.Keeper.may_leave result.world.keeper) }
    ensures others { result.world.tells
        ≡ record world.tells { outlet = result.world.tells.outlet; holds = result.world.tells.holds } }
    ensures cause { HasStatusCause world.tells result.world.tells result.status }
{
    let World {
        input,
        mut out,
        link,
        held,
        clock,
        door,
        halls,
    } = world;
    let locked = match open_tables(alloc, held, tables, sites) {
        Ok(locked) => locked,
        Err(held) => {
            let world = joined(Wire { input, out, link }, held, clock, door, halls);
            return Ran { status: 7, world };
        }
    };
    let mut desk = SoloDesk::new(locked);
    let (_, outcome) = collect_members(alloc, asks, &mut desk);
    let status = tell_outcome(alloc, &mut out, &outcome);
    let held = desk.into_locked().into_held();
    let world = joined(Wire { input, out, link }, held, clock, door, halls);
    Ran { status, world }
}

/// Gives the members of a collection the shares that they are owed, for the curator whose login the input begins with, from the rows of the
/// keeper at the clock's moment. Prints how many shares were given, or why the next wasn't.
pub(crate) fn collect<W: Setting, C: SiteDriver + Drop>(
    alloc: Global,
    world: World<W>,
    collection: GrainId,
    link: GrantId,
    sites: Vec<C>,
) -> Ran<W>
    requires registered { IsRegistered C.Law.law.tags (map C.tag_of sites.items) }
    ensures collects { Collects C.Law.law collection.0 link.0 (W.Keeper.may_leave result.world.keeper)
        world.tells result.world.tells result.status
        ⊎ CollectsNone world.tells result.world.tells result.status }
    ensures cause { HasStatusCause world.tells result.world.tells result.status }
{
    let mut world = world;
    let login = match read_login(alloc, &mut world.input) {
        Ok(login) => login,
        Err(status) => return Ran { status, world },
    };
    let moment = world.clock.now();
    let mut tables = match load(alloc, &mut world.held.keeper) {
        Ok(tables) => tables,
        Err(status) => return Ran { status, world },
    };
    tables.moment = moment;
    let asks = Collecting {
        curator: digest_of(login.as_slice()),
        collection,
        link,
    };
    collect_on(alloc, world, tables, &asks, sites)
}
