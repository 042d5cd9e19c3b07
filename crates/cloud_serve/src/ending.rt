//! The end of a connection without a request: what is refused, a fault of the input, and want of memory.
ghost use Rattle.std.specs.Prelude.{◌≤◌};
ghost use Rattle.host_base.specs.Outside.{Outlet};
ghost use Rattle.cloud_serve.specs.Inner.{ClosesWith, RefusesBy, Halts};

use crate::serve::End;
use front_http::{FrontFault, Refusal, memory_reply};
use host_base::{Memory, Sink, WriteFailed};
use reply_texts::{refused_reply, status_of_refusal};
use std::alloc::Global;

/// Writes the last text of a connection.
pub fn close_with<O: Sink>(out: &mut O, text: &[u8], end: End) -> End
    ensures writes { (O.outlet out.old).faults ≤ (O.outlet out.new).faults }
    ensures closes { ClosesWith (O.outlet out.old) (O.outlet out.new) text.now end result }
{
    match out.put(text) {
        Ok(()) => end,
        Err(WriteFailed) => End::WriteFault,
    }
}

// Answers what is refused at a place.
fn refuse<O: Sink>(alloc: Global, refusal: Refusal, at: u64, out: &mut O) -> End
    ensures writes { (O.outlet out.old).faults ≤ (O.outlet out.new).faults }
    ensures refuses { RefusesBy (O.outlet out.old) (O.outlet out.new) refusal at result }
{
    match refused_reply(alloc, refusal, at) {
        Ok(text) => {
            let status = status_of_refusal(refusal);
            close_with(out, text.as_slice(), End::Refused(status, at))
        }
        Err(Memory) => close_with(out, memory_reply(false), End::Memory),
    }
}

/// Ends a connection with a fault of the reader.
pub fn halt<O: Sink>(alloc: Global, fault: FrontFault, out: &mut O) -> End
    ensures writes { (O.outlet out.old).faults ≤ (O.outlet out.new).faults }
    ensures halts { Halts (O.outlet out.old) (O.outlet out.new) fault result }
{
    match fault {
        FrontFault::BadHead(at) => refuse(alloc, Refusal::BadHead, at, out),
        FrontFault::LongHead(at) => refuse(alloc, Refusal::LongHead, at, out),
        FrontFault::NeedLength(at) => refuse(alloc, Refusal::NeedLength, at, out),
        FrontFault::LongBody(at) => refuse(alloc, Refusal::LongBody, at, out),
        FrontFault::CutOff(count) => End::CutOff(count),
        FrontFault::ReadFault => End::ReadFault,
        FrontFault::Memory => close_with(out, memory_reply(false), End::Memory),
    }
}
