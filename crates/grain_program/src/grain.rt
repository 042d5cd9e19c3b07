//! All connections.
ghost use Rattle.std.specs.Prelude.{◌≡◌, ◌≢◌, ℕ, ◌≤◌, List, Some, IsErrOf, OnOk};
ghost use Rattle.host_base.specs.Outside.{Rose};
ghost use Rattle.grain_program.specs.Answering.{Prints};
ghost use Rattle.grain_program.specs.Taking.{Takes};
ghost use Rattle.serve_door.specs.Doors.{HasGivenAll, one_given};

use crate::answer::answer_one;
use host_base::{Memory, Sink};
use serve_door::{Door, NoneCame};
use std::alloc::Global;

/// How the program ended.
#[derive(Clone, Copy, PartialEq, Eq)]
pub enum GrainEnd {
    /// All connections were taken.
    Done,
    /// The door failed, which was counted.
    DoorFailed,
    /// The line `ready` couldn't be printed, which was counted.
    WriteFailed,
    /// Memory ran out.
    Memory,
}

// Takes the next connection, answers it and drops it; else how the program ends.
fn take_one<E: Door>(alloc: Global, door: &mut E) -> Result<(), GrainEnd>
    ensures counts { (E.doorway door.old).faults ≤ (E.doorway door.new).faults }
    ensures given { OnOk result (E.doorway door.new ≡ one_given (E.doorway door.old)) }
    ensures memory { IsErrOf result GrainEnd.Memory → E.doorway door.new ≡ one_given (E.doorway door.old) }
    ensures ended { IsErrOf result GrainEnd.Done → HasGivenAll (E.doorway door.old) }
    ensures ended_same { IsErrOf result GrainEnd.Done → E.doorway door.new ≡ E.doorway door.old }
    ensures failed { IsErrOf result GrainEnd.DoorFailed
        → Rose (E.doorway door.old).faults (E.doorway door.new).faults }
    ensures failed_same { IsErrOf result GrainEnd.DoorFailed
        → (E.doorway door.new).traffic ≡ (E.doorway door.old).traffic }
    ensures printed { IsErrOf result GrainEnd.WriteFailed → ⊥ }
{
    match door.accept() {
        Ok((mut input, mut output)) => match answer_one(alloc, &mut input, &mut output) {
            Ok(_) => Ok(()),
            Err(Memory) => Err(GrainEnd::Memory),
        },
        Err(NoneCame::Ended) => Err(GrainEnd::Done),
        Err(NoneCame::Failed) => Err(GrainEnd::DoorFailed),
    }
}

/// Prints `ready` and a line feed, and then takes so many connections, one after another, and answers each. What comes of a
/// connection changes nothing for the others.
pub fn run_grain<E: Door, O: Sink>(alloc: Global, door: &mut E, out: &mut O, count: u32) -> GrainEnd
    ensures door_counts { (E.doorway door.old).faults ≤ (E.doorway door.new).faults }
    ensures out_counts { (O.outlet out.old).faults ≤ (O.outlet out.new).faults }
    ensures prints { (old : List ℕ) → (O.outlet out.old).written ≡ Some old
        → Prints old result (O.outlet out.new).written }

    // All connections were taken, or fewer and the door failed, or none and the output failed, or some and memory ran out.
    ensures takes { result ≢ GrainEnd.WriteFailed
        → Takes count (E.doorway door.old) (E.doorway door.new) result }
    ensures door_failed { result ≡ GrainEnd.DoorFailed
        → Rose (E.doorway door.old).faults (E.doorway door.new).faults }
    ensures write_failed { result ≡ GrainEnd.WriteFailed
        → Rose (O.outlet out.old).faults (O.outlet out.new).faults }
    ensures untaken { result ≡ GrainEnd.WriteFailed → door.new ≡ door.old }
{
    match out.put(b"ready\n") {
        Ok(()) => {}
        Err(_) => return GrainEnd::WriteFailed,
    }
    door.expect(count);
    'connections: for _taken in 0..count {
        match take_one(alloc, door) {
            Ok(()) => {}
            Err(end) => return end,
        }
    }
    GrainEnd::Done
}
