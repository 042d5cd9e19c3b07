//! Threads that share a grain, and one that reads all the while.

use crate::book::{SmallBook, book_of, key_of_ben, share_with_ben};
use crate::passes::on_passes;
use desk_orders::Reply;
use hub_core::Desk;
use hub_jobs::Job;
use perm_roles::{Assignment, Base, PermSet};
use std::alloc::Global;
use std::num::NonZeroUsize;
use std::sync::atomic::{AtomicU64, Ordering};
use std::sync::{Arc, Wait};
use std::thread::Threads;
use test_words::Fault;

// How many grants the small book has.
const FIRST_GRANTS: usize = 2;

// How often the reader asks at the most.
const MOST_TURNS: u32 = 10_000_000;

// A verdict that was told, and its place.
#[derive(Drop)]
struct Heard {
    place: u64,
    verdict: String,
}

// What a thread does: it makes so many shares, and says that it is done, or it reads until so many others are.
#[derive(Drop)]
enum Part {
    Share { times: u32, role: bool },
    Read { others: u64 },
}

// A thread's part, how many of its orders were accepted, and what it heard: each verdict whose place or text is new.
#[derive(Drop)]
struct Task {
    part: Part,
    done: Arc<AtomicU64, Global>,
    accepted: u32,
    heard: Vec<Heard>,
}

// Ada gives ben what a voter may do, or that he may close the vote.
fn assignment(role: bool) -> Assignment {
    Assignment {
        base: if role { Base::Role(0) } else { Base::NoRole },
        add: if role {
            PermSet::empty()
        } else {
            PermSet::from_bits(2)
        },
        remove: PermSet::empty(),
    }
}

// The verdict on ben's key, as a text, and its place.
fn heard_by<D: Desk>(alloc: Global, desk: &mut D) -> Option<Heard> {
    let (place, verdict) = desk.verdict(alloc, &key_of_ben()).ok()?;
    let verdict = format!(in alloc; "{verdict:?}").ok()?;
    Some(Heard { place, verdict })
}

impl Task {
    // Makes shares.
    fn share<D: Desk>(&mut self, alloc: Global, desk: &mut D, times: u32, role: bool) {
        for _ in 0..times {
            let (_, answer) = desk.order(alloc, share_with_ben(alloc, assignment(role)));
            if matches!(answer, Ok(Reply::Made(..))) {
                self.accepted = self.accepted.saturating_add(1);
            }
        }
        self.done.fetch_add(1, Ordering::SeqCst);
    }

    // Keeps what was heard, where it is new.
    fn keep(&mut self, heard: Heard) {
        if let Some(last) = self.heard.last() {
            if last.place == heard.place && last.verdict == heard.verdict {
                return;
            }
        }
        let _ = self.heard.push(heard);
    }

    // Reads until so many others are done, and once more.
    fn read<D: Desk>(&mut self, alloc: Global, desk: &mut D, others: u64) {
        for _ in 0..MOST_TURNS {
            let ends = self.done.load(Ordering::SeqCst) >= others;
            if let Some(heard) = heard_by(alloc, desk) {
                self.keep(heard);
            }
            if ends {
                return;
            }
        }
    }
}

impl Job for Task {
    ghost ready = { λ _. Unit {0} };

    ghost does = { λ _ _ _ _. Unit {0} };

    fn work<D: Desk>(&mut self, alloc: Global, desk: &mut D) {
        match self.part {
            Part::Share { times, role } => self.share(alloc, desk, times, role),
            Part::Read { others } => self.read(alloc, desk, others),
        }
    }
}

// So many threads that share, in turn a role and a permission, and one that reads.
fn tasks_of(alloc: Global, threads: u32, times: u32) -> Result<Vec<Task>, Fault> {
    let done = Arc::new(alloc, AtomicU64::new(0))?;
    let mut tasks = Vec::new(alloc);
    for number in 0..threads {
        tasks.push(Task {
            part: Part::Share {
                times,
                role: number % 2 == 0,
            },
            done: Arc::try_clone(&done)?,
            accepted: 0,
            heard: Vec::new(alloc),
        })?;
    }
    tasks.push(Task {
        part: Part::Read {
            others: u64::from(threads),
        },
        done,
        accepted: 0,
        heard: Vec::new(alloc),
    })?;
    Ok(tasks)
}

// What the verdict on ben's key is at each place, by one thread that gives the same orders in their order.
fn verdicts_of(alloc: Global, book: &SmallBook) -> Result<Vec<String>, Fault> {
    let mut alone = book_of(alloc, None)?;
    let mut verdicts = Vec::new(alloc);
    verdicts.push(format!(in alloc; "{:?}", alone.verdict(alloc, &key_of_ben())?)?)?;
    for grant in book.tables().grants.as_slice().iter().skip(FIRST_GRANTS) {
        if alone
            .order(alloc, share_with_ben(alloc, grant.assignment))
            .is_err()
        {
            return Err(Fault::Memory);
        }
        verdicts.push(format!(in alloc; "{:?}", alone.verdict(alloc, &key_of_ben())?)?)?;
    }
    Ok(verdicts)
}

// How many of these are not the verdict of their place, or stand behind one of a later place.
fn wrong_in(heard: &[Heard], verdicts: &[String]) -> usize {
    let mut last = 0;
    let mut wrong: usize = 0;
    for one in heard {
        let place = usize::try_from(one.place).unwrap_or(usize::MAX);
        let right = verdicts
            .get(place)
            .is_some_and(|verdict| *verdict == one.verdict);
        if !right || one.place < last {
            wrong = wrong.saturating_add(1);
        }
        last = one.place;
    }
    wrong
}

/// Makes so many shares on each of so many threads, and reads on one more all the while: how many were accepted, how many
/// entries the history has, and how many of the reader's answers are not the history's at their place and in order.
pub fn share_by_threads<R: Threads + Wait + Sync>(
    rt: &R,
    alloc: Global,
    threads: u32,
    times: u32,
) -> Result<String, Fault> {
    let book = book_of(alloc, None)?;
    let tasks = tasks_of(alloc, threads, times)?;
    let (book, tasks) = on_passes(rt, alloc, book, NonZeroUsize::MIN, tasks)?;
    let verdicts = verdicts_of(alloc, &book)?;
    let mut accepted: u32 = 0;
    let mut wrong: usize = 0;
    let mut read = false;
    for task in &tasks {
        accepted = accepted.saturating_add(task.accepted);
        wrong = wrong.saturating_add(wrong_in(task.heard.as_slice(), verdicts.as_slice()));
        read = read || !task.heard.is_empty();
    }
    let read = if read { "read" } else { "nothing read" };
    Ok(format!(in alloc;
        "{accepted} accepted, {} entries, {read}, {wrong} wrong",
        book.entries()
    )?)
}
