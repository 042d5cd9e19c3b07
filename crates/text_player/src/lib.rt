//! Plays texts of rows of calls and of conversations, and tells what goes otherwise than they are written: the line, what was expected and
//! what came, and at the end how many of the rows and conversations of each text passed. A text whose name begins with `noticed` has
//! what must go otherwise, so that it can be seen that this is noticed.
#![tactic(auto)]

mod book;
mod calls;
mod gate;
mod gated;
mod gated_keeper;
mod given;
mod holding;
mod keeping;
mod making;
mod passes;
mod shares;
mod states;
mod streams;
mod values;

use crate::calls::Calls;
use crate::given::Given;
use conversations::play_conversations;
use std::alloc::{AllocError, Global};
use std::env::Env;
use std::fs::Files;
use std::io::Print;
use std::sync::Wait;
use std::thread::Threads;
use std::{env, fs, io};
use test_words::{Tally, play_rows};

// Plays a text, of rows of calls or of conversations, and tells what goes otherwise.
fn play_text<R: Print + Threads + Wait + Sync>(
    rt: &R,
    alloc: Global,
    name: &str,
    text: &str,
) -> io::Result<Tally> {
    if name.ends_with("threads.txt") {
        return match Given::by_threads(rt, alloc, text) {
            Ok(mut given) => play_rows(rt, alloc, name, text, &mut given),
            Err(_) => Err(io::Error::from(AllocError)),
        };
    }
    if !name.ends_with("calls.txt") {
        return play_conversations(rt, alloc, name, text);
    }
    match Calls::new(alloc) {
        Ok(mut calls) => play_rows(rt, alloc, name, text, &mut calls),
        Err(_) => Err(io::Error::from(AllocError)),
    }
}

// A text with its name and how much of it passed.
#[derive(Drop)]
struct Played {
    name: String,
    tally: Tally,
}

// Whether all that a text has must go otherwise.
fn is_noticed(name: &str) -> bool {
    name.contains("noticed")
}

// Prints a line for each text, and the sum of them, and says whether all passed.
fn print_sums(rt: &impl Print, played: &[Played]) -> io::Result<bool> {
    let mut all = Tally::default();
    for text in played {
        let (name, tally) = (text.name.as_str(), text.tally);
        let noticed = if is_noticed(name) {
            Tally {
                passed: tally.failed,
                failed: tally.passed,
            }
        } else {
            tally
        };
        println!(rt;
            "{name}: {} passed, {} failed",
            noticed.passed, noticed.failed
        )?;
        all.add(noticed);
    }
    println!(rt; "{} passed, {} failed", all.passed, all.failed)?;
    Ok(all.failed == 0)
}

/// What playing asks of the system.
pub trait Host: AllocGlobal + Env + Files + Print + Threads + Wait + Sync {}

impl<R: AllocGlobal + Env + Files + Print + Threads + Wait + Sync> Host for R {}

/// Plays the texts that the program's words name, and says whether all that they have passed.
pub fn play_all<R: Host>(rt: &R) -> io::Result<bool> {
    let alloc = rt.alloc();
    let mut played = Vec::new(alloc);
    for name in env::args(rt)?.skip(1) {
        let text = fs::read_to_string(rt, name.as_str())?;
        let tally = play_text(rt, alloc, name.as_str(), text.as_str())?;
        played.push(Played { name, tally })?;
    }
    print_sums(rt, played.as_slice())
}
