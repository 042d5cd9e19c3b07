ghost use Rattle.std.specs.Prelude.{◌≡◌, ◌<◌, ◌≤◌, length, IfSome};
ghost use Rattle.host_base.specs.Outside.{Rose};
ghost use Rattle.grain_supervise.specs.Spawning.{Spawns};

use crate::activity::SharedActivity;
use crate::child::{end, greet};
use crate::logs::Output;
use crate::places::Places;
use crate::socket::{is_memory, remove_socket};
use crossbeam_channel::Sender;
use grain_supervise::{Spawner, StartFault};
use host_base::{AppId, GrainId, RunId};
use std::alloc::Global;
use std::env::Env;
use std::io::PipeReader;
use std::marker::Model;
use std::net::Net;
use std::process::{Child, Command, OpenProcess, Processes, Stdio};
use std::rt::Files;
use std::sync::Wait;
use std::time::Clock;
use std::{env, io};

/// How many connections a run's program takes.
const CONNECTIONS: &str = "1000000000";

/// Where programs are looked for, where this one isn't told.
const USUAL_PATH: &str = "/usr/local/bin:/usr/bin:/bin";

/// What programs are started with, beside what they are.
#[derive(Drop)]
pub struct Starting {
    /// The folders beside the server's file.
    pub places: Places,
    /// The server's port, for whoever acts for a grain.
    pub port: u16,
    /// Where what they print is given to.
    pub outputs: Option<Sender<Output>>,
    pub activity: SharedActivity,
}

/// Starts each run by the program of its grain's application, or by this program itself where there is none, with the words
/// `grain DIR/run-N.sock 1000000000`, N the run's number, in the grain's folder, and ends it. A run is started once that program has
/// said `ready` and its socket is there. What is started and stopped isn't told. When the spawner is dropped it ends all that still
/// run.
pub struct ProcSpawner<'a, R: Processes + Files + Alloc + Net + Clock + Env, W: Wait> {
    rt: &'a R,
    wait: &'a W,
    starting: Starting,
    running: Vec<(RunId, Child<R::Started>)>,
    faults: u64,
}

impl<'a, R: Processes + Files + Alloc + Net + Clock + Env, W: Wait> Model
    for ProcSpawner<'a, R, W> {
    ghost use Rattle.std.specs.Prelude.{None};
    ghost use Rattle.grain_supervise.specs.Spawning.{Spawns};

    ghost Value = { Spawns };

    ghost view = { λ s. record { faults = s.faults; starts = None; stops = None } };
}

// A run that is to be started.
#[derive(Clone, Copy)]
struct NewRun {
    run: RunId,
    grain: GrainId,
    app: AppId,
}

// The ends of the pipes by which this program hears what another one prints.
#[derive(Drop)]
struct Heard {
    said: PipeReader,
    complained: PipeReader,
}

// Gives a program its words and a small environment.
fn equip<R: Alloc + Env>(
    alloc: Global,
    rt: &R,
    port: u16,
    socket: &str,
    folder: &str,
    command: &mut Command,
) -> io::Result<()> {
    command.arg("grain")?;
    command.arg(socket)?;
    command.arg(CONNECTIONS)?;
    command.env_clear();
    match env::var(rt, "PATH") {
        Ok(path) => command.env("PATH", path)?,
        Err(_) => command.env("PATH", USUAL_PATH)?,
    };
    command.env("LANG", "C.UTF-8")?;
    command.env("HOME", folder)?;
    command.env("LUMBYTE_SERVER", format!(in alloc; "127.0.0.1:{port}")?)?;
    command.current_dir(folder)?;
    command.stdin(Stdio::piped());
    Ok(())
}

// The program of a run, in its folder, with pipes for what it prints.
fn command_of<R: Files + Alloc + Env>(
    alloc: Global,
    rt: &R,
    starting: &Starting,
    new: NewRun,
    socket: &str,
) -> io::Result<(Command, Heard)> {
    let folder = starting.places.folder(rt, alloc, new.grain)?;
    let program = starting.places.program(rt, alloc, new.app)?;
    let (said, saying) = io::pipe(rt)?;
    let (complained, complaining) = io::pipe(rt)?;
    let mut command = Command::new(alloc, program)?;
    equip(
        alloc,
        rt,
        starting.port,
        socket,
        folder.as_str(),
        &mut command,
    )?;
    command.stdout(Stdio::from(saying));
    command.stderr(Stdio::from(complaining));
    Ok((command, Heard { said, complained }))
}

// Has what a program prints from now on logged. Where that can't be done it is closed, and the program goes on.
fn log<W: Wait>(
    alloc: Global,
    wait: &W,
    starting: &Starting,
    grain: GrainId,
    heard: Heard,
) -> io::Result<()> {
    let Some(outputs) = &starting.outputs else {
        return Ok(());
    };
    let Heard { said, complained } = heard;
    for pipe in [said, complained] {
        let log = starting.places.log(alloc, grain)?;
        let _ = outputs.try_send(wait, Output { pipe, log });
    }
    Ok(())
}

// Starts the program of a run whose socket is at this path; one that doesn't come up is ended.
fn launch<R: Processes + Files + Alloc + Net + Clock + Env, W: Wait>(
    alloc: Global,
    rt: &R,
    wait: &W,
    starting: &Starting,
    new: NewRun,
    token: &[u8],
) -> io::Result<Child<R::Started>> {
    let socket = starting.places.socket(alloc, new.run)?;
    let (mut command, mut heard) = command_of(alloc, rt, starting, new, socket.as_str())?;
    let mut child = command.spawn(rt)?;
    drop(command);
    let greeted = greet(
        rt,
        alloc,
        socket.as_str(),
        &mut child,
        &mut heard.said,
        token,
    );
    let logged = log(alloc, wait, starting, new.grain, heard);
    match greeted.and(logged) {
        Ok(()) => Ok(child),
        Err(error) => {
            let _ = end(rt, &mut child);
            remove_socket(rt, socket.as_str());
            Err(error)
        }
    }
}

// Where a run is among those that run.
fn place_of<P: OpenProcess>(running: &[(RunId, Child<P>)], run: RunId) -> Option<usize>
    ensures { IfSome result (λ at. at < length running.now) }
{
    running.iter().position(|(number, _)| *number == run)
}

// A run that is there already isn't started again.
fn try_start<R: Processes + Files + Alloc + Net + Clock + Env, W: Wait>(
    alloc: Global,
    rt: &R,
    wait: &W,
    starting: &Starting,
    running: &mut Vec<(RunId, Child<R::Started>)>,
    new: NewRun,
    token: &[u8],
) -> io::Result<()> {
    if place_of(running, new.run).is_some() {
        return Err(io::Error::from(io::ErrorKind::AlreadyExists));
    }
    running.reserve(1)?;
    let child = launch(alloc, rt, wait, starting, new, token)?;
    match running.push((new.run, child)) {
        Ok(()) => Ok(()),
        Err(_) => unreachable!(),
    }
}

// A run that isn't there has ended already.
fn try_stop<R: Processes + Files + Alloc + Net + Clock>(
    alloc: Global,
    rt: &R,
    places: &Places,
    running: &mut Vec<(RunId, Child<R::Started>)>,
    run: RunId,
) -> io::Result<()> {
    let path = places.socket(alloc, run)?;
    if let Some(at) = place_of(running, run) {
        end(rt, &mut running[at].1)?;
        running.swap_remove(at);
    }
    remove_socket(rt, path.as_str());
    Ok(())
}

impl<'a, R: Processes + Files + Alloc + Net + Clock + Env, W: Wait> ProcSpawner<'a, R, W> {
    /// A spawner that started nothing yet.
    pub fn new(alloc: Global, rt: &'a R, wait: &'a W, starting: Starting) -> Self
        ensures { result ≡ record { faults = 0; starts = None; stops = None } }
    {
        ProcSpawner {
            rt,
            wait,
            starting,
            running: Vec::new(alloc),
            faults: 0,
        }
    }

    /// How many faults there were.
    pub fn faults(&self) -> u64
        ensures { result ≡ self.now.faults }
    {
        self.faults
    }
}

// What is answered for an error, which is counted but for want of memory.
fn fault_of(faults: &mut u64, activity: &SharedActivity, error: &io::Error) -> StartFault
    ensures counts { faults.old ≤ faults.new }
    ensures cause { result ≡ StartFault.StartFailed → Rose faults.old faults.new }
{
    if is_memory(error) {
        return StartFault::Memory;
    }
    *faults = faults.saturating_add(1);
    activity.spawn_faults.add_one();
    StartFault::StartFailed
}

impl<'a, R: Processes + Files + Alloc + Net + Clock + Env, W: Wait> Spawner
    for ProcSpawner<'a, R, W> {
    ghost spawns = { λ s. s };

    fn start(
        &mut self,
        alloc: Global,
        run: RunId,
        grain: GrainId,
        app: AppId,
        token: &[u8],
    ) -> Result<(), StartFault> {
        let new = NewRun { run, grain, app };
        let (starting, running) = (&self.starting, &mut self.running);
        match try_start(alloc, self.rt, self.wait, starting, running, new, token) {
            Ok(()) => Ok(()),
            Err(error) => Err(fault_of(&mut self.faults, &self.starting.activity, &error)),
        }
    }

    fn stop(&mut self, alloc: Global, run: RunId) -> Result<(), StartFault> {
        let places = &self.starting.places;
        match try_stop(alloc, self.rt, places, &mut self.running, run) {
            Ok(()) => Ok(()),
            Err(error) => Err(fault_of(&mut self.faults, &self.starting.activity, &error)),
        }
    }
}

impl<'a, R: Processes + Files + Alloc + Net + Clock + Env, W: Wait> Drop for ProcSpawner<'a, R, W> {
    fn drop(self) {
        let ProcSpawner {
            rt,
            wait: _,
            starting,
            running,
            faults: _,
        } = self;
        let alloc = *running.allocator();
        for (run, mut child) in running {
            let _ = end(rt, &mut child);
            if let Ok(path) = starting.places.socket(alloc, run) {
                remove_socket(rt, path.as_str());
            }
        }
    }
}
