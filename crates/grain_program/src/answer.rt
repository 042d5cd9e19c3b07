//! One connection.
ghost use Rattle.std.specs.Prelude.{◌≡◌, ℕ, ◌≤◌, List, Some, Ok, IfOk, OnErr};
ghost use Rattle.host_base.specs.Outside.{Rose};
ghost use Rattle.grain_program.specs.Answering.{GrainAnswers};

use crate::reading::{ReadFault, read_text};
use grain_supervise::echo_text;
use host_base::{Memory, Sink, Source};
use std::alloc::Global;

/// What came of a connection.
#[derive(Clone, Copy, PartialEq, Eq)]
pub enum Answered {
    /// The echo was written.
    Echoed,
    /// What came states no text, and nothing was written.
    NoText,
    /// The reading failed, which was counted, and nothing was written.
    ReadFailed,
    /// The writing failed, which was counted.
    WriteFailed,
}

/// Answers a connection: reads its text and writes the echo. A text is a head up to its first CR LF CR LF and as many bytes behind
/// it as its `Content-Length` line says, 2,097,152 bytes at the most. Where memory runs out nothing is written.
pub fn answer_one<I: Source, O: Sink>(
    alloc: Global,
    input: &mut I,
    output: &mut O,
) -> Result<Answered, Memory>
    ensures read_counts { (I.inlet input.old).faults ≤ (I.inlet input.new).faults }
    ensures write_counts { (O.outlet output.old).faults ≤ (O.outlet output.new).faults }
    ensures read_failed { result ≡ Ok Answered.ReadFailed
        → Rose (I.inlet input.old).faults (I.inlet input.new).faults }
    ensures write_failed { result ≡ Ok Answered.WriteFailed
        → Rose (O.outlet output.old).faults (O.outlet output.new).faults }
    ensures answers { (bytes old : List ℕ) → (I.inlet input.old).left ≡ Some bytes
        → (O.outlet output.old).written ≡ Some old
        → IfOk result (λ answered. GrainAnswers bytes old answered (O.outlet output.new).written) }
    ensures nothing { OnErr result (output.new ≡ output.old) }
{
    let text = match read_text(alloc, input) {
        Ok(Some(text)) => text,
        Ok(None) => return Ok(Answered::NoText),
        Err(ReadFault::ReadFailed) => return Ok(Answered::ReadFailed),
        Err(ReadFault::Memory) => return Err(Memory),
    };
    let Ok(echo) = echo_text(alloc, text.as_slice()) else {
        return Err(Memory);
    };
    match output.put(echo.as_slice()) {
        Ok(()) => Ok(Answered::Echoed),
        Err(_) => Ok(Answered::WriteFailed),
    }
}
