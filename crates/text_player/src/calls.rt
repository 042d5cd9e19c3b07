//! Plays worked rows of calls that no conversation makes, or of which none shows the answer: what keepers of rows do,
//! the requests of a seed, what a reader of requests holds, manifests that take the place of others, and states after an
//! event.
//! The notation is described beside the texts, in `test_player/data/NOTATION.md`.

use crate::holding::held_by;
use crate::keeping::{empty_keeper, kept_by};
use crate::making::made_by;
use crate::states::Book;
use crate::values::given_by;
use cloud_keeper::MemKeeper;
use plain_data::List;
use std::alloc::Global;
use test_words::{Answers, Fault};

/// What the rows of calls are played with: a keeper, and a state.
#[derive(Drop)]
pub struct Calls {
    kept: MemKeeper,
    book: Book,
}

impl Calls {
    /// A keeper in memory without rows, and the state of the small book.
    pub fn new(alloc: Global) -> Result<Self, Fault> {
        Ok(Calls {
            book: Book::new(alloc)?,
            kept: empty_keeper(alloc, List::empty(alloc)),
        })
    }
}

impl Answers for Calls {
    fn answer(&mut self, alloc: Global, row: &str) -> Result<String, Fault> {
        let (word, rest) = row.split_once(' ').unwrap_or((row, ""));
        match word {
            "requests" | "digest" => made_by(alloc, word, rest),
            "upgrade" | "room" => given_by(alloc, word, rest),
            "held" => held_by(alloc, rest),
            "book" | "event" | "holds" | "admin" => self.book.answer(alloc, word, rest),
            _ => kept_by(alloc, &mut self.kept, word, rest),
        }
    }
}
