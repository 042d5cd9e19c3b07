//! Plays conversations that stand in texts: what clients send, and what the server must answer, to the byte, over
//! objects in memory that fail at the calls that are listed. The notation is described beside the texts, in
//! `test_player/data/NOTATION.md`.
#![tactic(auto)]

mod comparing;
mod conversation;
mod door;
mod keepers;
mod objects;
mod play;
mod reading;
mod rounds;
mod settings;
mod short;

use crate::conversation::Conversation;
use crate::play::differences;
use crate::reading::conversations;
use std::alloc::Global;
use std::io;
use std::io::Print;
use std::sync::Wait;
use std::thread::Threads;
use test_words::{Tally, tell};

// Plays a conversation, tells what goes otherwise, and says whether nothing does.
fn passes<R: Print + Threads + Wait + Sync>(
    rt: &R,
    alloc: Global,
    name: &str,
    conversation: &Conversation,
) -> io::Result<bool> {
    let title = conversation.title.as_str();
    let found = match differences(rt, alloc, conversation) {
        Ok(found) => found,
        Err(fault) => {
            let came = format!(in alloc; "{fault}")?;
            let place = (name, conversation.line);
            tell(
                rt,
                alloc,
                place,
                title,
                b"what can be played",
                came.as_bytes(),
            )?;
            return Ok(false);
        }
    };
    for difference in &found {
        let of = format!(in alloc; "{title}: {}", difference.of)?;
        let (wanted, came) = (difference.wanted.as_slice(), difference.came.as_slice());
        tell(
            rt,
            alloc,
            (name, difference.line),
            of.as_str(),
            wanted,
            came,
        )?;
    }
    Ok(found.is_empty())
}

/// Plays the conversations of a text with a name, and tells what goes otherwise than it is written.
pub fn play_conversations<R: Print + Threads + Wait + Sync>(
    rt: &R,
    alloc: Global,
    name: &str,
    text: &str,
) -> io::Result<Tally> {
    let mut tally = Tally::default();
    match conversations(alloc, text) {
        Ok(read) => {
            for conversation in &read {
                tally.count(passes(rt, alloc, name, conversation)?);
            }
        }
        Err(unread) => {
            let (place, fault) = ((name, unread.line), unread.fault);
            let came = format!(in alloc; "{fault}")?;
            tell(
                rt,
                alloc,
                place,
                "a line",
                b"what can be read",
                came.as_bytes(),
            )?;
            tally.count(false);
        }
    }
    Ok(tally)
}
