//! The bytes that were taken from a source and not yet handed out.
ghost use Rattle.std.specs.Prelude.{◌≡◌, ◌+◌, ◌≤◌, ◌++◌, [], length, drop, OnOk, OnErr};

use host_base::Memory;
use std::alloc::Global;
use std::marker::Model;

/// The most bytes that are held: a head, a body and a piece.
pub const HELD_LIMIT: usize = 1_069_056;

/// The bytes that are held. Those in front of `start` are done with, and go when room is made for more.
#[derive(Debug, Drop)]
pub struct Held {
    list: Vec<u8>,
    start: usize,
}

impl Model for Held {
    ghost use Rattle.std.specs.Prelude.{List, ℕ, ◌≤◌, length, drop};

    ghost Value = { List ℕ };

    ghost view = { λ held. drop held.start held.list.items };

    ghost invariant = { λ held. (held.start ≤ length held.list.items) × (length held.list.items ≤ 1069056) };
}

impl Held {
    /// No bytes.
    pub fn empty(alloc: Global) -> Self
        ensures { result ≡ [] }
    {
        Held {
            list: Vec::new(alloc),
            start: 0,
        }
    }

    /// The bytes.
    pub fn as_slice(&self) -> &[u8]
        ensures { result.now ≡ self.now }
    {
        &self.list[self.start..]
    }

    /// How many bytes there are.
    pub fn count(&self) -> usize
        ensures count { result ≡ length self.now }
        ensures few { result ≤ 1069056 }
    {
        self.list.len() - self.start
    }

    /// Lets go of the first bytes.
    pub fn skip(&mut self, count: usize)
        requires { count ≤ length self.old }
        ensures { self.new ≡ drop count self.old }
    {
        self.start += count;
    }

    /// Appends a piece. Want of memory leaves the bytes as they were.
    pub fn put(&mut self, piece: &[u8]) -> Result<(), Memory>
        requires { length self.old + length piece.now ≤ 1069056 }
        ensures ok { OnOk result (self.new ≡ self.old ++ piece.now) }
        ensures err { OnErr result (self.new ≡ self.old) }
    {
        settle(&mut self.list, &mut self.start);
        match self.list.extend_from_slice(piece) {
            Ok(()) => Ok(()),
            Err(_) => Err(Memory),
        }
    }
}

// Moves the bytes from a place on to the front.
fn settle(list: &mut Vec<u8>, start: &mut usize)
    requires { start.old ≤ length list.old.items }
    ensures moved { list.new.items ≡ drop start.old list.old.items }
    ensures settled { start.new ≡ 0 }
{
    let from = *start;
    if from > 0 {
        move_front(list, from);
    }
    *start = 0;
}

fn move_front(list: &mut Vec<u8>, from: usize)
    requires { from ≤ length list.old.items }
    ensures { list.new.items ≡ drop from list.old.items }
{
    let left = list.len() - from;
    list.copy_within(from.., 0);
    list.truncate(left);
}
