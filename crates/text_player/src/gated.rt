//! A verdict beside an order that stays in its keeper's `commit`.

use crate::book::{book_of, key_of_ben, share_with_ben};
use crate::gate::Gate;
use crate::passes::on_passes;
use hub_core::Desk;
use hub_jobs::Job;
use perm_roles::{Assignment, Base, PermSet};
use std::alloc::Global;
use std::num::NonZeroUsize;
use std::sync::{Arc, Wait};
use std::thread::Threads;
use test_words::Fault;

// What a thread does: it gives an order, or it reads once, and again while the order is in `commit`.
#[derive(Drop)]
enum Part {
    Order,
    Read,
}

// A thread's part, the gate, and whether the verdict came from the cache while the order was in `commit`.
#[derive(Drop)]
struct Task {
    part: Part,
    gate: Arc<Gate, Global>,
    came: bool,
}

impl Job for Task {
    ghost ready = { λ _. Unit {0} };

    ghost does = { λ _ _ _ _. Unit {0} };

    fn work<D: Desk>(&mut self, alloc: Global, desk: &mut D) {
        let all = Assignment {
            base: Base::AllAccess,
            add: PermSet::empty(),
            remove: PermSet::empty(),
        };
        match self.part {
            Part::Order => {
                if self.gate.is_ready() {
                    let _ = desk.order(alloc, share_with_ben(alloc, all));
                }
            }
            Part::Read => {
                let first = desk.verdict(alloc, &key_of_ben()).is_ok();
                self.gate.make_ready();
                if first && self.gate.is_holding() {
                    let second = desk.verdict(alloc, &key_of_ben()).is_ok();
                    self.came = self.gate.open() && second;
                }
            }
        }
    }
}

/// Gives an order on one thread, which stays in the keeper's `commit` until a second thread had the verdict on a key that it had asked for before. The verdict comes first exactly where
/// it takes no lock.
pub fn answer_beside_commit<R: Threads + Wait + Sync>(
    rt: &R,
    alloc: Global,
) -> Result<String, Fault> {
    let gate = Arc::new(alloc, Gate::new())?;
    let book = book_of(alloc, Some(Arc::try_clone(&gate)?))?;
    let mut tasks = Vec::new(alloc);
    tasks.push(Task {
        part: Part::Order,
        gate: Arc::try_clone(&gate)?,
        came: false,
    })?;
    tasks.push(Task {
        part: Part::Read,
        gate,
        came: false,
    })?;
    let (book, tasks) = on_passes(rt, alloc, book, NonZeroUsize::MIN, tasks)?;
    let came = tasks.iter().any(|task| task.came);
    let came = if came {
        "the verdict came first"
    } else {
        "no verdict came"
    };
    Ok(format!(in alloc; "{came}, {} entries", book.entries())?)
}
