//! The reader of requests.
ghost use Rattle.std.specs.Prelude.{◌≡◌, ℕ, List, None, Some, Ok, Err, true, false, ◌+◌, ◌<◌, ◌≤◌, length, drop, IfOk, IfErr, IfSome, OnOk, OnErr};
ghost use Rattle.host_base.specs.Outside.{Rose};
ghost use Rattle.front_http.specs.Stream.{HasOneMeaning, HasMeaning};
ghost use Rattle.front_http.specs.Reading.{unread, Next, EndsRead};
ghost use Rattle.front_http.specs.declared.fault.FrontFault.{FrontFault};
ghost use Rattle.front_http.specs.Pending.{SeesAt, GivesMore, IsOutside, StreamEndsAt};

use crate::fault::{FrontFault, fault_at};
use crate::held::Held;
use crate::look::{Looked, Pending, look};
use crate::refusal::Refusal;
use host_base::{Memory, Request, Source};
use std::alloc::Global;
use std::marker::Model;
use std::mem;

/// The most bytes that are taken at a time.
pub const PIECE: usize = 4096;

/// Reads the requests of a stream, one at a time, from pieces of any size.
pub struct RequestReader {
    held: Held,
    pending: Pending,
    at: u64,
    closed: bool,
    stopped: Option<FrontFault>,
}

// Written by hand: a proof then has one call wherever one is let go.
impl Drop for RequestReader {
    fn drop(self) {
        let RequestReader {
            held: _,
            pending: _,
            at: _,
            closed: _,
            stopped: _,
        } = self;
    }
}

impl Model for RequestReader {
    ghost use Rattle.front_http.specs.Reading.{Reading};

    ghost Value = { Reading };

    ghost use Rattle.front_http.specs.Pending.{IsPending};

    ghost view = { λ reader. record { held = reader.held; at = reader.at; closed = reader.closed; stopped = reader.stopped } };

    ghost invariant = { λ reader. IsPending reader.held reader.pending };
}

/// What the bytes begin with that are held.
#[derive(Drop)]
enum Seen {
    Part,
    Refused(Refusal),
    Whole(Request, usize),
}

impl RequestReader {
    /// A reader that has read nothing yet.
    pub fn new(alloc: Global) -> Self
        ensures unread { result ≡ unread }

        // A stream has exactly one meaning.
        ensures one_meaning { HasOneMeaning }
        ensures some_meaning { HasMeaning }
    {
        RequestReader {
            held: Held::empty(alloc),
            pending: Pending::Search(0),
            at: 0,
            closed: false,
            stopped: None,
        }
    }

    /// How many bytes were taken from the input and belong to no request that was handed out: a head, a body and a piece at the
    /// most, whatever came.
    pub fn held(&self) -> u64
        ensures held { result ≡ length self.now.held }
        ensures few { result ≤ 1069056 }
    {
        self.held.count() as u64
    }

    // Looks at the bytes that are held.
    fn see(&mut self, alloc: Global) -> Result<Seen, Memory>
        ensures same { self.new ≡ self.old }
        ensures sees { IfOk result (SeesAt self.old.held) }
    {
        let pending = mem::replace(&mut self.pending, Pending::Search(0));
        match look(alloc, self.held.as_slice(), pending)? {
            Looked::Part(pending) => {
                self.pending = pending;
                Ok(Seen::Part)
            }
            Looked::Refused(refusal) => Ok(Seen::Refused(refusal)),
            Looked::Whole(request, count) => Ok(Seen::Whole(request, count)),
        }
    }

    // Takes the next piece; whether one came.
    fn take_piece<I: Source>(&mut self, input: &mut I) -> Result<bool, FrontFault>
        requires { length self.old.held ≤ 1064960 }
        ensures counts { (I.inlet input.old).faults ≤ (I.inlet input.new).faults }
        ensures cause { result ≡ Err FrontFault.ReadFault
            → Rose (I.inlet input.old).faults (I.inlet input.new).faults }
        ensures whole { (I.inlet input.new).whole ≡ (I.inlet input.old).whole }
        ensures fault { IfErr result IsOutside }
        ensures rest { self.new ≡ record self.old { held = self.new.held } }
        ensures grows { IfOk result (λ came. came ≡ true → length self.old.held < length self.new.held) }
        ensures ends { IfOk result (λ came. came ≡ false → (I.inlet input.new).ended ≡ true) }
        ensures given { (left : List ℕ) → (I.inlet input.old).left ≡ Some left →
            IfOk result (λ came. GivesMore self.old.held left came self.new.held (I.inlet input.new).left) }
    {
        let mut piece = [0u8; PIECE];
        match input.take(&mut piece) {
            Err(_) => Err(FrontFault::ReadFault),
            Ok(count) => match self.held.put(&piece[..count]) {
                Ok(()) => Ok(count > 0),
                Err(Memory) => Err(FrontFault::Memory),
            },
        }
    }

    // Hands out a request that is the first bytes.
    fn hand_out(&mut self, request: Request, count: usize) -> Result<Request, Memory>
        requires { count ≤ length self.old.held }
        ensures request { IfOk result (λ given. given ≡ request) }
        ensures kept { OnErr result (self.new ≡ self.old) }
        ensures reader { OnOk result (self.new ≡ record self.old {
          held = drop count self.old.held;
          at = self.old.at + count;
          closed = request.last;
        }) }
    {
        let Some(at) = self.at.checked_add(count as u64) else {
            return Err(Memory);
        };
        self.at = at;
        self.closed = request.last;
        self.held.skip(count);
        self.pending = Pending::Search(0);
        Ok(request)
    }

    // The next request of a reader that hasn't stopped or handed out a last request.
    fn read<I: Source>(
        &mut self,
        alloc: Global,
        input: &mut I,
    ) -> Result<Option<Request>, FrontFault>
        requires { self.old.closed ≡ false }
        ensures counts { (I.inlet input.old).faults ≤ (I.inlet input.new).faults }
        ensures cause { result ≡ Err FrontFault.ReadFault
            → Rose (I.inlet input.old).faults (I.inlet input.new).faults }
        ensures whole { (I.inlet input.new).whole ≡ (I.inlet input.old).whole }
        ensures stopped { self.new.stopped ≡ self.old.stopped }
        ensures ends { EndsRead result (I.inlet input.new).ended }
        ensures closes { IfOk result (λ found. IfSome found (λ request. self.new.closed ≡ request.last)) }
        ensures given { (left : List ℕ) → (I.inlet input.old).left ≡ Some left →
            Next self.old left result self.new (I.inlet input.new).left }
    {
        'pieces: loop {
            match self.see(alloc) {
                Ok(Seen::Part) => {}
                Ok(Seen::Refused(refusal)) => return Err(fault_at(refusal, self.at)),
                Ok(Seen::Whole(request, count)) => {
                    return match self.hand_out(request, count) {
                        Ok(request) => Ok(Some(request)),
                        Err(Memory) => Err(FrontFault::Memory),
                    };
                }
                Err(Memory) => return Err(FrontFault::Memory),
            }
            match self.take_piece(input) {
                Ok(true) => {}
                Ok(false) => return self.end(),
                Err(fault) => return Err(fault),
            }
        }
    }

    // What there is where the input ended.
    fn end(&self) -> Result<Option<Request>, FrontFault>
        ensures { StreamEndsAt self.now result }
    {
        let held = self.held.as_slice();
        if held.is_empty() {
            return Ok(None);
        }
        match self.at.checked_add(held.len() as u64) {
            Some(count) => Err(FrontFault::CutOff(count)),
            None => Err(FrontFault::Memory),
        }
    }

    /// The next request of the input, however it is cut; none at its end, and after a request that is the last one. After a fault each
    /// further call answers it again.
    pub fn next<I: Source>(
        &mut self,
        alloc: Global,
        input: &mut I,
    ) -> Result<Option<Request>, FrontFault>
        ensures counts { (I.inlet input.old).faults ≤ (I.inlet input.new).faults }
        ensures cause { result ≡ Err FrontFault.ReadFault → self.old.stopped ≡ None
            → Rose (I.inlet input.old).faults (I.inlet input.new).faults }
        ensures whole { (I.inlet input.new).whole ≡ (I.inlet input.old).whole }

        // A request that is the last one closes the reader, and a fault stops it. It answers by itself from then on.
        ensures closes { IfOk result (λ found. IfSome found (λ request. self.new.closed ≡ request.last)) }
        ensures stops { IfErr result (λ fault. self.new.stopped ≡ Some fault) }
        ensures goes_on { IfOk result (λ _. self.new.stopped ≡ None) }
        ensures stopped { (fault : FrontFault) → self.old.stopped ≡ Some fault
            → (result ≡ Err fault) × (self.new ≡ self.old) × (input.new ≡ input.old) }
        ensures closed { self.old.stopped ≡ None → self.old.closed ≡ true
            → (result ≡ Ok None) × (self.new ≡ self.old) × (input.new ≡ input.old) }

        // None, and a request that is cut off, come only where the source told its end.
        ensures ends { self.old.stopped ≡ None → self.old.closed ≡ false
            → EndsRead result (I.inlet input.new).ended }

        // What remained is what is answered, and then what remains now.
        ensures given { (left : List ℕ) → (I.inlet input.old).left ≡ Some left → self.old.stopped ≡ None →
            Next self.old left result self.new (I.inlet input.new).left }
    {
        if let Some(fault) = self.stopped {
            return Err(fault);
        }
        if self.closed {
            return Ok(None);
        }
        match self.read(alloc, input) {
            Ok(found) => Ok(found),
            Err(fault) => {
                self.stopped = Some(fault);
                Err(fault)
            }
        }
    }
}
