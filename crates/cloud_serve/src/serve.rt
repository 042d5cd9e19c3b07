//! One connection: its requests, one after another, and how it ends.
ghost use Rattle.std.specs.Prelude.{◌≡◌, ℕ, ◌⊎◌, ◌+◌, ◌<◌, ◌≤◌, true, List, None, Some, length, OnOk, vec_len, vec_capacity};
ghost use Rattle.host_base.specs.Outside.{Inlet, Outlet, CountStands};
ghost use Rattle.front_http.specs.Reading.{Gave, Reading};
ghost use Rattle.front_http.specs.Stream.{Requests, IsStream};
ghost use Rattle.grain_supervise.specs.Line.{Line};
ghost use Rattle.hub_core.specs.Book.{Book};
ghost use Rattle.cloud_serve.specs.Served.{Served, Complete, limit, with_book};
ghost use Rattle.cloud_serve.specs.Inner.{Steps};

use crate::ending::{close_with, halt};
use crate::turn::take_turn;
use crate::wire::Wire;
use front_http::{RequestReader, Routes, memory_reply};
use grain_supervise::Link;
use host_base::{Memory, Request, Sink, Source, WriteFailed};
use hub_core::Desk;
use plain_data::List as Row;
use reply_texts::wants_head;
use std::alloc::Global;

/// How a connection ended.
#[derive(Clone, Copy, PartialEq, Eq)]
pub enum End {
    /// Every request was answered, and the input ended or the last one was.
    Done,
    /// Every request was answered, and what is no request was refused: the status, and its place in the stream.
    Refused(u16, u64),
    /// The input failed.
    ReadFault,
    /// The output failed, with a prefix of the next answer written.
    WriteFault,
    /// Every request was answered, and the input ended within one: how many bytes it had.
    CutOff(u64),
    /// As many requests were answered as one connection may have.
    Spent,
    /// Memory ran out, and that was answered.
    Memory,
}

/// The place in the history of each answered request.
pub type Places = Row<u64>;

/// How a connection ended: how much of the history was seen at its start, the place of each answer, how many requests
/// were answered, and how many texts were asked of the link.
#[derive(Drop)]
pub struct ConnEnd {
    pub end: End,
    pub from: u64,
    pub places: Places,
    pub served: u64,
    pub forwarded: u64,
}

/// How many requests one connection may have.
pub const REQUEST_LIMIT: u64 = 1_000_000;

// Takes a turn on a request, however it was read, and writes its answer.
fn answer_one<O: Sink, D: Desk, L: Link>(
    alloc: Global,
    routes: &Routes,
    request: &Request,
    last: u64,
    out: &mut O,
    desk: &mut D,
    link: &mut L,
    forwarded: &mut u64,
) -> Result<u64, End>
    requires { forwarded.old < 18446744073709551615 }
    ensures few { forwarded.new ≤ forwarded.old + 1 }
    ensures writes { (O.outlet out.old).faults ≤ (O.outlet out.new).faults }
    ensures steps { (low : ℕ) (before after : Inlet) (reading next : Reading)
        → low ≤ length (D.book desk.old).seen
        → ((left : List ℕ) → before.left ≡ Some left → Gave reading left request.now next after.left)
        → (next.closed ≡ true → request.now.last ≡ true)
        → Steps low last forwarded.old forwarded.new reading next
        (record { inlet = before; outlet = O.outlet out.old; line = L.line link.old; book = D.book desk.old })
        (record { inlet = after; outlet = O.outlet out.new; line = L.line link.new; book = D.book desk.new })
        result }
{
    match take_turn(alloc, routes, request, last, desk, link, forwarded) {
        Ok(answered) => match out.put(answered.text.as_slice()) {
            Ok(()) => Ok(answered.place),
            Err(WriteFailed) => Err(End::WriteFault),
        },
        Err(Memory) => Err(close_with(out, memory_reply(wants_head(request)), End::Memory)),
    }
}

// Reads a request and answers it, or ends the connection.
fn serve_one<I: Source, O: Sink, D: Desk, L: Link>(
    alloc: Global,
    routes: &Routes,
    reader: &mut RequestReader,
    places: &mut Vec<u64>,
    last: u64,
    wire: &mut Wire<I, O, L>,
    desk: &mut D,
    forwarded: &mut u64,
) -> Result<u64, End>
    requires running { reader.old.stopped ≡ None }
    requires room { forwarded.old < 18446744073709551615 }
    ensures places { places.new.items ≡ places.old.items }
    ensures room { OnOk result (vec_len places.new < vec_capacity places.new) }
    ensures running { OnOk result (reader.new.stopped ≡ None) }
    ensures few { forwarded.new ≤ forwarded.old + 1 }
    ensures reads { wire.old.inlet.faults ≤ wire.new.inlet.faults }
    ensures whole { wire.new.inlet.whole ≡ wire.old.inlet.whole }
    ensures writes { wire.old.outlet.faults ≤ wire.new.outlet.faults }
    ensures steps { (low : ℕ) → low ≤ length (D.book desk.old).seen
        → Steps low last forwarded.old forwarded.new reader.old reader.new
        (with_book wire.old (D.book desk.old)) (with_book wire.new (D.book desk.new)) result }
{
    if places.reserve(1).is_err() {
        return Err(close_with(&mut wire.out, memory_reply(false), End::Memory));
    }
    match reader.next(alloc, &mut wire.input) {
        Ok(next) => match next {
            Some(request) => answer_one(
                alloc,
                routes,
                &request,
                last,
                &mut wire.out,
                desk,
                &mut wire.link,
                forwarded,
            ),
            None => Err(End::Done),
        },
        Err(fault) => Err(halt(alloc, fault, &mut wire.out)),
    }
}

// How a connection ended, with the list of its places.
fn ended(end: End, from: u64, places: Vec<u64>, served: u64, forwarded: u64) -> ConnEnd
    ensures { result ≡ record {
      end = end;
      from = from;
      places = places.items;
      served = served;
      forwarded = forwarded;
    } }
{
    ConnEnd {
        end,
        from,
        places: Places::new(places),
        served,
        forwarded,
    }
}

/// Serves one connection: reads a request, answers it, writes the answer whole, and goes on. Want of memory is answered too.
pub fn serve_conn<I: Source, O: Sink, L: Link, D: Desk>(
    alloc: Global,
    routes: &Routes,
    wire: &mut Wire<I, O, L>,
    desk: &mut D,
) -> ConnEnd
    ensures whole { wire.new.inlet.whole ≡ wire.old.inlet.whole }
    ensures reads { wire.old.inlet.faults ≤ wire.new.inlet.faults }
    ensures writes { wire.old.outlet.faults ≤ wire.new.outlet.faults }
    ensures served { Served (with_book wire.old (D.book desk.old)) (with_book wire.new (D.book desk.new))
        result.end result.from result.places result.served result.forwarded }

    // Where neither the source's count rises nor the sink's, every request of a stream below the limit is answered, and the
    // connection ends as the stream does, or for want of memory.
    ensures complete { (bytes : List ℕ) (requests : Requests) → wire.old.inlet.left ≡ Some bytes
        → IsStream 0 bytes requests → length requests.list < limit
        → CountStands wire.old.inlet.faults wire.new.inlet.faults
        → CountStands wire.old.outlet.faults wire.new.outlet.faults
        → (result.end ≡ End.Memory) ⊎ Complete requests result.end result.served }
{
    let from = desk.place();
    let mut reader = RequestReader::new(alloc);
    let mut places = Vec::new(alloc);
    let mut last = from;
    let mut forwarded = 0;
    'requests: for served in 0..REQUEST_LIMIT {
        match serve_one(
            alloc,
            routes,
            &mut reader,
            &mut places,
            last,
            wire,
            desk,
            &mut forwarded,
        ) {
            Ok(place) => {
                places.push(place).unwrap();
                last = place;
            }
            Err(end) => return ended(end, from, places, served, forwarded),
        }
    }
    ended(End::Spent, from, places, REQUEST_LIMIT, forwarded)
}
