//! The lines that `check` and `gen` print.
ghost use Rattle.std.specs.Prelude.{◌≡◌, ◌++◌, codes, decimal, length, IfOk, OnOk};
ghost use Rattle.hex.specs.Hex.{encode_lower};
ghost use Rattle.sha2.specs.Sha256.{sha256};
ghost use Rattle.admin_run.specs.Lines.{bad_row_line, counts_line, summary_lines};

use host_base::{Bytes, Memory, digest_of};
use itoa::Buffer;
use share_graph::Tables;
use std::alloc::Global;

// Appends words and a number.
fn put_counted(line: &mut Bytes, words: &str, number: u64) -> Result<(), Memory>
    ensures { OnOk result (line.new ≡ line.old ++ (words.now ++ decimal number)) }
{
    let mut digits = Buffer::new();
    line.put(words.as_bytes())?;
    line.put(digits.format(number).as_bytes())
}

/// The line of rows that state tables: how many there are, and how many of each kind.
#[tactic(auto, unfolding(crate::specs::Lines::counts_line))]
pub(crate) fn counts_line(alloc: Global, rows: usize, tables: &Tables) -> Result<Bytes, Memory>
    ensures { IfOk result (λ line. line ≡ counts_line rows tables.now) }
{
    let mut line = Bytes::empty(alloc);
    put_counted(&mut line, "rows ", rows as u64)?;
    put_counted(
        &mut line,
        " accounts ",
        tables.accounts.as_slice().len() as u64,
    )?;
    put_counted(&mut line, " apps ", tables.apps.as_slice().len() as u64)?;
    put_counted(&mut line, " grains ", tables.grains.as_slice().len() as u64)?;
    put_counted(&mut line, " grants ", tables.grants.as_slice().len() as u64)?;
    put_counted(&mut line, " saved ", tables.saved.as_slice().len() as u64)?;
    line.put(b"\n")?;
    Ok(line)
}

/// The line of rows of which one is bad, by how many rows stand before it.
#[tactic(auto, unfolding(crate::specs::Lines::bad_row_line))]
pub(crate) fn bad_row_line(alloc: Global, index: usize) -> Result<Bytes, Memory>
    ensures { IfOk result (λ line. line ≡ bad_row_line index) }
{
    let mut line = Bytes::empty(alloc);
    put_counted(&mut line, "bad row ", index as u64)?;
    line.put(b"\n")?;
    Ok(line)
}

// Appends the length of a text, a blank and its SHA-256 in lower-case hexadecimal digits.
fn put_digest(alloc: Global, lines: &mut Bytes, text: &[u8]) -> Result<(), Memory>
    ensures { OnOk result (lines.new ≡ lines.old ++ (codes "\noutput " ++ decimal
        (length text.now) ++ codes " " ++ encode_lower (sha256 text.now))) }
{
    let digits = hex::encode(alloc, &digest_of(text).0)?;
    put_counted(lines, "\noutput ", text.len() as u64)?;
    lines.put(b" ")?;
    lines.put(digits.as_bytes())
}

/// The four lines of a summary: how many requests were answered, how many texts were asked of grains, how long the history is, and
/// how many bytes were written, with their SHA-256 in lower-case hexadecimal digits.
#[tactic(auto, unfolding(crate::specs::Lines::summary_lines))]
pub(crate) fn summary_lines(
    alloc: Global,
    requests: u64,
    forwarded: u64,
    entries: u64,
    output: &[u8],
) -> Result<Bytes, Memory>
    ensures { IfOk result (λ lines. lines ≡ summary_lines requests forwarded entries output.now) }
{
    let mut lines = Bytes::empty(alloc);
    put_counted(&mut lines, "requests ", requests)?;
    put_counted(&mut lines, "\nforwarded ", forwarded)?;
    put_counted(&mut lines, "\nentries ", entries)?;
    put_digest(alloc, &mut lines, output)?;
    lines.put(b"\n")?;
    Ok(lines)
}
