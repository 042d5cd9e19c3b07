//! Serving from a file: its keeper, its ports, and the programs of its grains.

ghost use Rattle.std.specs.Prelude.{map};
ghost use Rattle.site_caps.specs.Registered.{IsRegistered};
ghost use Rattle.admin_run.specs.Program.{BeginWithBook};

use crate::running::serve_with;
use crossbeam_channel::{Receiver, Sender};
use grain_supervise::Link;
use host_base::Memory;
use rand::rngs::SysRng;
use site_caps::SiteDriver;
use sql_keeper::SqlKeeper;
use sqlite::{Alter, Connection, FileFrom, FileStore, Start};
use std::alloc::{AllocError, Global};
use std::sync::{Arc, Wait};
use std::thread::Threads;
use std::time::Clock;
use system_edges::{
    Output, Places, ProcSpawner, RngSecrets, SharedActivity, SharedClient, Starting, SystemClock,
    TcpDoor, UnixLink, WsDoor,
};

// The keeper over a file of rows, whatever the file holds at first. (What takes it is generic over its store: the check of a call that
// is generic over the keeper passes its limit of steps.)
pub(crate) fn keeper_of<F: Start>(
    rt: &HostRuntime,
    file: &str,
    first: F,
) -> SqlKeeper<FileStore<FileFrom<F>>> {
    match Connection::open_from(rt, file, false, first) {
        Ok(conn) => SqlKeeper::of(Ok(conn)),
        Err((error, _)) => SqlKeeper::of(Err(error)),
    }
}

/// Where a server's clients come in, those of connections and those of tunnels, and what its grains' programs print goes, its port, and
/// what its threads share.
#[derive(Drop)]
pub struct Post {
    pub clients: Option<Receiver<SharedClient>>,
    pub tunnels: Option<Receiver<SharedClient>>,
    pub outputs: Option<Sender<Output>>,
    pub port: u16,
    pub activity: SharedActivity,
}

// What the programs of grains are started with, the folder of their sockets for the link to them, and the activity for that.
#[derive(Drop)]
struct Programs {
    starting: Starting,
    sockets: String,
    asked: SharedActivity,
}

// The programs of grains beside a file of rows.
fn programs_of(
    rt: &HostRuntime,
    file: &str,
    port: u16,
    outputs: Option<Sender<Output>>,
    activity: &SharedActivity,
) -> Result<Programs, AllocError> {
    let alloc = rt.alloc();
    let places = Places::beside(rt, alloc, file)?;
    let sockets = String::from_str(alloc, places.runs())?;
    places.make(rt);
    let starting = Starting {
        places,
        port,
        outputs,
        activity: Arc::try_clone(activity)?,
    };
    Ok(Programs {
        starting,
        sockets,
        asked: Arc::try_clone(activity)?,
    })
}

// Serves the clients at a door and at halls from the rows of a keeper, with the programs of its grains.
fn serve_kept<
    'a,
    R: Threads + Wait + Clock + Sync,
    S: Alter + Drop + Send,
    C: SiteDriver + Drop + Send,
>(
    rt: &'a HostRuntime,
    wait: &'a R,
    words: &[String],
    keeper: SqlKeeper<S>,
    programs: Programs,
    door: TcpDoor<'a, R, UnixLink<'a, HostRuntime>>,
    halls: WsDoor<'a, R, UnixLink<'a, HostRuntime>>,
    sites: Vec<C>,
) -> u8
where
    C::Law: Send,
    requires registered { IsRegistered C.Law.law.tags (map C.tag_of sites.items) }
    requires elsewhere { BeginWithBook words.now → ⊥ }
{
    let Programs {
        starting,
        sockets,
        asked,
    } = programs;
    let secrets = RngSecrets::new(SysRng::new(rt));
    let spawner = ProcSpawner::new(rt.alloc(), rt, wait, starting);
    let (link, held) = (
        UnixLink::new(rt, sockets, asked),
        (keeper, secrets, spawner),
    );
    let clock = SystemClock::new(wait);
    serve_with(rt, wait, words, link, held, clock, door, halls, sites)
}

// The door of connections and the halls of tunnels, over any link. (Where the link is named, the check doesn't cover that the door is let
// go of, as it is here where memory runs out.)
fn doors_of<'a, R: Wait + Clock, L: Link + Drop>(
    wait: &'a R,
    alloc: Global,
    clients: Option<Receiver<SharedClient>>,
    tunnels: Option<Receiver<SharedClient>>,
    activity: SharedActivity,
) -> Result<(TcpDoor<'a, R, L>, WsDoor<'a, R, L>), Memory> {
    let door = TcpDoor::new(wait, alloc, clients, Arc::try_clone(&activity)?)?;
    let halls = WsDoor::new(wait, alloc, tunnels, activity)?;
    Ok((door, halls))
}

// Serves the clients of acceptors from a file of rows.
pub(crate) fn run_serve<
    'a,
    R: Threads + Wait + Clock + Sync,
    F: Start + Send,
    C: SiteDriver + Drop + Send,
>(
    rt: &'a HostRuntime,
    wait: &'a R,
    words: &[String],
    post: Post,
    first: F,
    sites: Vec<C>,
) -> Result<u8, Memory>
where
    C::Law: Send,
    requires registered { IsRegistered C.Law.law.tags (map C.tag_of sites.items) }
    requires elsewhere { BeginWithBook words.now → ⊥ }
{
    let Post {
        clients,
        tunnels,
        outputs,
        port,
        activity,
    } = post;
    let programs = programs_of(rt, path_of(words), port, outputs, &activity)?;
    let (door, halls) = doors_of(wait, rt.alloc(), clients, tunnels, activity)?;
    let keeper = keeper_of(rt, path_of(words), first);
    Ok(serve_kept(rt, wait, words, keeper, programs, door, halls, sites))
}

// The path of a line that has one: its second word.
pub(crate) fn path_of(words: &[String]) -> &str {
    match words.get(1) {
        Some(path) => path.as_str(),
        None => "",
    }
}
