//! Lines that the program prints.
ghost use Rattle.std.specs.Prelude.{◌≡◌, ◌≢◌, ◌≤◌, ◌++◌, codes};
ghost use Rattle.host_base.specs.Outside.{Rose};
ghost use Rattle.admin_run.specs.Outside.{Tells};

use host_base::{Bytes, Sink, WriteFailed};

/// The line that is written where the words are none of the program's lines.
pub const USAGE: &[u8] =
    b"usage: admin_cli play | serve FILE PORT COUNT [WSPORT WSCOUNT] | gen N SEED | check FILE | grain SOCKET COUNT | access FILE GRAIN | preview FILE GRANT | collect FILE GRAIN GRANT\n";

/// Prints a text; the status is the given one, or 5 where it couldn't be printed.
pub(crate) fn tell<O: Sink>(out: &mut O, text: &[u8], done: u8) -> u8
    ensures tells { Tells (O.outlet out.old) (O.outlet out.new) text.now done result }
    ensures counts { (O.outlet out.old).faults ≤ (O.outlet out.new).faults }
    ensures cause { done ≢ 5 → result ≡ 5 → Rose (O.outlet out.old).faults (O.outlet out.new).faults }
    ensures either { result ≢ 5 → result ≡ done }
{
    match out.put(text) {
        Ok(()) => done,
        Err(WriteFailed) => 5,
    }
}

/// The same of a line of its own.
pub(crate) fn tell_line<O: Sink>(out: &mut O, line: Bytes, done: u8) -> u8
    ensures tells { Tells (O.outlet out.old) (O.outlet out.new) line done result }
    ensures counts { (O.outlet out.old).faults ≤ (O.outlet out.new).faults }
    ensures cause { done ≢ 5 → result ≡ 5 → Rose (O.outlet out.old).faults (O.outlet out.new).faults }
    ensures either { result ≢ 5 → result ≡ done }
{
    tell(out, line.as_slice(), done)
}

// Prints one text and then another.
fn tell_two<O: Sink>(out: &mut O, first: &[u8], second: &[u8], done: u8) -> u8
    ensures tells { Tells (O.outlet out.old) (O.outlet out.new) (first.now ++ second.now) done result }
    ensures counts { (O.outlet out.old).faults ≤ (O.outlet out.new).faults }
    ensures cause { done ≢ 5 → result ≡ 5 → Rose (O.outlet out.old).faults (O.outlet out.new).faults }
    ensures either { result ≢ 5 → result ≡ done }
{
    if tell(out, first, 0) != 0 {
        return 5;
    }
    tell(out, second, done)
}

/// Prints words, a value and a line feed; the status is the given one, or 5 where they couldn't be printed. It takes no memory.
pub(crate) fn tell_value<O: Sink>(out: &mut O, words: &[u8], value: &[u8], done: u8) -> u8
    ensures tells { Tells (O.outlet out.old) (O.outlet out.new) ((words.now ++ value.now) ++ codes "\n") done
        result }
    ensures counts { (O.outlet out.old).faults ≤ (O.outlet out.new).faults }
    ensures cause { done ≢ 5 → result ≡ 5 → Rose (O.outlet out.old).faults (O.outlet out.new).faults }
    ensures either { result ≢ 5 → result ≡ done }
{
    if tell_two(out, words, value, 0) != 0 {
        return 5;
    }
    tell(out, b"\n", done)
}
