//! Rows of a hub that threads share: each thread has a desk of its own pass. What is told of it is the same whatever the
//! threads' schedule is. The notation is described beside the texts, in `test_player/data/NOTATION.md`.

use crate::gated::answer_beside_commit;
use crate::shares::share_by_threads;
use crate::streams::serve_two;
use std::alloc::Global;
use std::sync::Wait;
use std::thread::Threads;
use test_words::{Answers, Fault, after, says_nothing, small};

/// What the rows of a text gave, one after another.
#[derive(Drop)]
pub struct Given {
    // The last one first.
    answers: Vec<Result<String, Fault>>,
}

// Plays a row on threads, which it starts by a handle: what it gives.
fn answer_row<R: Threads + Wait + Sync>(rt: &R, alloc: Global, row: &str) -> Result<String, Fault> {
    let (word, rest) = row.split_once(' ').unwrap_or((row, ""));
    match word {
        "shares" => {
            let (threads, times) = rest.split_once(' ').ok_or(Fault::Unreadable)?;
            share_by_threads(rt, alloc, small(threads)?, small(times)?)
        }
        "gated" if rest.is_empty() => answer_beside_commit(rt, alloc),
        "streams" if rest.is_empty() => serve_two(rt, alloc),
        _ => Err(Fault::Unreadable),
    }
}

impl Given {
    /// Plays the rows of a text on threads, which it starts by a handle.
    pub fn by_threads<R: Threads + Wait + Sync>(
        rt: &R,
        alloc: Global,
        text: &str,
    ) -> Result<Self, Fault> {
        let mut answers = Vec::new(alloc);
        for row in text.lines() {
            if !says_nothing(row) && after(row, "=").is_none() {
                answers.push(answer_row(rt, alloc, row))?;
            }
        }
        answers.reverse();
        Ok(Given { answers })
    }
}

impl Answers for Given {
    fn answer(&mut self, _: Global, _: &str) -> Result<String, Fault> {
        self.answers.pop().unwrap_or(Err(Fault::Unreadable))
    }
}
