//! The lines of the program, each with what it needs.

ghost use Rattle.std.specs.Prelude.{map};
ghost use Rattle.site_caps.specs.Registered.{IsRegistered};
ghost use Rattle.admin_run.specs.Program.{BeginWithBook, ServeAtDoor};

use crate::NO_MEMORY;
use crate::running::{run_with, run_with_book};
use crate::serving::{Post, keeper_of, path_of, run_serve};
use club_site::{ClubDriver, club_offers, club_sites, club_text};
use command_line::{Line, line_of};
use host_base::Memory;
use powerbox_match::Query;
use serve_door::MemDoor;
use site_caps::SiteDriver;
use sql_keeper::SqlKeeper;
use sqlite::{Alter, Start, Unknown};
use std::alloc::Global;
use std::sync::Wait;
use std::thread::Threads;
use std::time::Clock;
use system_edges::{SystemClock, UnixDoor};

// Runs a line on the rows of a keeper alone, by the system's clock.
fn run_kept<R: Threads + Wait + Clock + Sync, S: Alter + Drop + Send, C: SiteDriver + Drop + Send>(
    rt: &HostRuntime,
    wait: &R,
    words: &[String],
    keeper: SqlKeeper<S>,
    sites: Vec<C>,
) -> Result<u8, Memory>
where
    C::Law: Send,
    requires registered { IsRegistered C.Law.law.tags (map C.tag_of sites.items) }
    requires otherwise { BeginWithBook words.now → ⊥ }
    requires elsewhere { ServeAtDoor words.now → ⊥ }
{
    let door = MemDoor::new(rt.alloc(), Vec::new(rt.alloc()))?;
    let clock = SystemClock::new(wait);
    Ok(run_with(rt, wait, words, keeper, clock, door, sites))
}

// Runs a line that needs neither a file nor a door.
fn run_alone<R: Threads + Wait + Sync, C: SiteDriver + Drop + Send>(
    rt: &HostRuntime,
    wait: &R,
    words: &[String],
    sites: Vec<C>,
) -> Result<u8, Memory>
where
    C::Law: Send,
    requires registered { IsRegistered C.Law.law.tags (map C.tag_of sites.items) }
    requires elsewhere { ServeAtDoor words.now → ⊥ }
{
    let door = MemDoor::new(rt.alloc(), Vec::new(rt.alloc()))?;
    Ok(run_with_book(rt, wait, words, door, sites))
}

// Runs the program's line with what it needs.
#[tactic(auto, using(admin_run::proofs::Begins::begins_otherwise, admin_run::proofs::Begins::serves_otherwise))]
fn run_line<R: Threads + Wait + Clock + Sync, F: Start + Send, C: SiteDriver + Drop + Send>(
    rt: &HostRuntime,
    wait: &R,
    words: &[String],
    post: Post,
    first: F,
    sites: Vec<C>,
) -> Result<u8, Memory>
where
    C::Law: Send,
    requires { IsRegistered C.Law.law.tags (map C.tag_of sites.items) }
{
    match line_of(rt.alloc(), words)? {
        Line::Serve { .. } => run_serve(rt, wait, words, post, first, sites),
        Line::Check | Line::Access { .. } | Line::Preview { .. } | Line::Collect { .. } => {
            let keeper = keeper_of(rt, path_of(words), first);
            run_kept(rt, wait, words, keeper, sites)
        }
        Line::Grain { .. } => {
            let door = UnixDoor::bind(rt, path_of(words));
            Ok(run_with_book(rt, wait, words, door, sites))
        }
        Line::Play => run_alone(rt, wait, words, sites),
        Line::Gen { .. } => run_alone(rt, wait, words, sites),
        Line::Unknown => run_alone(rt, wait, words, sites),
    }
}

// Runs the program's line over the sites of a club.
fn run_words<R: Threads + Wait + Clock + Sync>(
    rt: &HostRuntime,
    wait: &R,
    words: &[String],
    post: Post,
) -> Result<u8, Memory> {
    let alloc = rt.alloc();
    let answering = Box::new(
        alloc,
        |alloc: Global, query: &Query| club_offers(alloc, query),
    )?;
    let giving = Box::new(alloc, |alloc: Global, item: u32| club_text(alloc, item))?;
    let sites = club_sites(alloc, ClubDriver::new(answering, giving))?;
    run_line(rt, wait, words, post, Unknown, sites)
}

/// The status of the program's line, over the sites of a club.
pub fn status_of<R: Threads + Wait + Clock + Sync>(
    rt: &HostRuntime,
    wait: &R,
    words: &[String],
    post: Post,
) -> u8 {
    match run_words(rt, wait, words, post) {
        Ok(status) => status,
        Err(Memory) => NO_MEMORY,
    }
}
