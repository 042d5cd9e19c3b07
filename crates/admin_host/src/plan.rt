//! What the program is to do, by its words, and how it ends.

use crate::NO_MEMORY;
use crate::serving::Post;
use command_line::{Line, Tunnels, line_of};
use crossbeam_channel::{Receiver, Sender, bounded};
use host_base::Memory;
use std::alloc::AllocError;
use std::process::ExitCode;
use std::sync::{Arc, Wait};
use std::{env, io};
use system_edges::{Acceptor, Activity, Logs, SharedActivity, SharedClient, is_pipe};

// The words after the program's name. A word that isn't text stands in none of the program's lines, and neither does no word.
fn words_of(rt: &HostRuntime) -> Result<Vec<String>, Memory> {
    let mut words = Vec::new(rt.alloc());
    match env::args(rt) {
        Ok(all) => {
            for word in all.skip(1) {
                words.push(word)?;
            }
            Ok(words)
        }
        Err(error) if error.kind() == io::ErrorKind::OutOfMemory => Err(Memory),
        Err(_) => Ok(words),
    }
}

/// What a program that is tied to its input waits by: an end of its work, with its status, or of its input.
#[derive(Drop)]
pub struct Tie {
    pub is_grain: bool,
    pub activity: SharedActivity,
    pub done: Sender<Option<u8>>,
    pub input_ended: Sender<Option<u8>>,
    pub ends: Receiver<Option<u8>>,
}

/// What a server does on threads of their own: it accepts clients of connections, and of tunnels where it serves some, and logs what its
/// grains' programs print.
#[derive(Drop)]
pub struct Aside {
    pub acceptor: Acceptor,
    pub tunnels: Option<Acceptor>,
    pub logs: Logs,
}

/// The program's words, and what it needs beside the sites of a club. A line that serves is tied to its input where that is a pipe.
#[derive(Drop)]
pub struct Plan {
    pub words: Vec<String>,
    pub post: Post,
    pub aside: Option<Aside>,
    pub tie: Option<Tie>,
}

// What the program waits by where its line serves and its input is a pipe.
fn tie_of(
    rt: &HostRuntime,
    line: &Line,
    activity: &SharedActivity,
) -> Result<Option<Tie>, AllocError> {
    let is_grain = match line {
        Line::Serve { .. } => false,
        Line::Grain { .. } => true,
        _ => return Ok(None),
    };
    if !is_pipe(rt) {
        return Ok(None);
    }
    let (done, ends) = bounded(rt.alloc(), 2)?;
    Ok(Some(Tie {
        is_grain,
        activity: Arc::try_clone(activity)?,
        input_ended: done.clone()?,
        done,
        ends,
    }))
}

// The acceptor of the tunnels that a line has served, and where their clients come in.
fn tunnels_of(
    rt: &HostRuntime,
    tunnels: Option<Tunnels>,
    activity: &SharedActivity,
) -> io::Result<(Option<Acceptor>, Option<Receiver<SharedClient>>)> {
    let Some(Tunnels { port, count: _ }) = tunnels else {
        return Ok((None, None));
    };
    let activity = Arc::try_clone(activity)?;
    let (acceptor, clients) = Acceptor::bind(rt, rt.alloc(), port, activity, false)?;
    Ok((Some(acceptor), Some(clients)))
}

// What a server does aside, by its ports, and where its clients come in.
fn aside_of(
    rt: &HostRuntime,
    port: u16,
    tunnels: Option<Tunnels>,
    activity: &SharedActivity,
) -> io::Result<(Aside, Post)> {
    let alloc = rt.alloc();
    let (acceptor, clients) = Acceptor::bind(rt, alloc, port, Arc::try_clone(activity)?, true)?;
    let (beside, tunnels) = tunnels_of(rt, tunnels, activity)?;
    let (logs, outputs) = Logs::new(rt, alloc, Arc::try_clone(activity)?)?;
    let post = Post {
        clients: Some(clients),
        tunnels,
        outputs: Some(outputs),
        port: acceptor.port()?,
        activity: Arc::try_clone(activity)?,
    };
    let aside = Aside {
        acceptor,
        tunnels: beside,
        logs,
    };
    Ok((aside, post))
}

/// What the program is to do by its words. Where a port can't be bound no client comes in at any.
pub fn plan_of(rt: &HostRuntime) -> Result<Plan, Memory> {
    let alloc = rt.alloc();
    let words = words_of(rt)?;
    let line = line_of(alloc, words.as_slice())?;
    let activity = Activity::new(alloc)?;
    let tie = tie_of(rt, &line, &activity)?;
    let (mut aside, mut post) = (
        None,
        Post {
            clients: None,
            tunnels: None,
            outputs: None,
            port: 0,
            activity: Arc::try_clone(&activity)?,
        },
    );
    if let Line::Serve { port, tunnels, .. } = line
        && let Ok((beside, open)) = aside_of(rt, port, tunnels, &activity)
    {
        aside = Some(beside);
        post = open;
    }
    Ok(Plan {
        words,
        post,
        aside,
        tie,
    })
}

/// The status once the work has ended, or the input: then a server is told to end, and a grain's program just ends.
pub fn status_at_end<R: Wait>(
    wait: &R,
    ends: &Receiver<Option<u8>>,
    is_grain: bool,
    activity: &Activity,
) -> ExitCode {
    let mut ended = ends.recv(wait);
    if let Ok(None) = ended
        && !is_grain
    {
        activity.end();
        ended = ends.recv(wait);
    }
    match ended {
        Ok(Some(status)) => ExitCode::from(status),
        Ok(None) => ExitCode::SUCCESS,
        Err(_) => ExitCode::from(NO_MEMORY),
    }
}
