//! Rows of a text, each with what it must give on the lines below it.

use crate::fault::Fault;
use crate::tally::{Tally, tell};
use std::alloc::{AllocError, Global};
use std::io;

/// What gives the answers of rows, one after another.
pub trait Answers {
    /// What a row gives: no line, one or several.
    fn answer(&mut self, alloc: Global, row: &str) -> Result<String, Fault>;
}

/// What stands behind the mark that a line begins with, without a blank after it.
pub fn after<'a>(line: &'a str, mark: &str) -> Option<&'a str> {
    let rest = line.strip_prefix(mark)?;
    Some(rest.strip_prefix(' ').unwrap_or(rest))
}

/// Whether a line is empty or begins with `#`.
pub fn says_nothing(line: &str) -> bool {
    line.is_empty() || line.starts_with('#')
}

// A row, and what it must give.
#[derive(Drop)]
struct Row<'a> {
    line: usize,
    text: &'a str,
    wanted: String,
}

impl Row<'_> {
    // Appends a line that it must give.
    fn want(&mut self, line: &str) -> Result<(), AllocError> {
        if !self.wanted.is_empty() {
            self.wanted.push_str("\n")?;
        }
        self.wanted.push_str(line)
    }
}

// Plays a row, tells it where it gives something else, and says whether it gives what it must.
fn plays<P: Answers>(
    rt: &impl Print,
    alloc: Global,
    name: &str,
    player: &mut P,
    row: &Row<'_>,
) -> io::Result<bool> {
    let came = match player.answer(alloc, row.text) {
        Ok(text) => text,
        Err(fault) => format!(in alloc; "{fault}")?,
    };
    let (wanted, came) = (row.wanted.as_str(), came.as_str().trim_end());
    if wanted == came {
        return Ok(true);
    }
    let place = (name, row.line);
    tell(
        rt,
        alloc,
        place,
        row.text,
        wanted.as_bytes(),
        came.as_bytes(),
    )?;
    Ok(false)
}

// The rows of a text, or the number of a line that belongs to none, from 1.
fn rows_of<'a>(alloc: Global, text: &'a str) -> Result<Result<Vec<Row<'a>>, usize>, AllocError> {
    let mut rows: Vec<Row<'a>> = Vec::new(alloc);
    for (place, line) in text.lines().enumerate() {
        let number = place.saturating_add(1);
        if says_nothing(line) {
            continue;
        }
        match after(line, "=") {
            Some(wanted) => match rows.last_mut() {
                Some(row) => row.want(wanted)?,
                None => return Ok(Err(number)),
            },
            None => rows.push(Row {
                line: number,
                text: line,
                wanted: String::new(alloc),
            })?,
        }
    }
    Ok(Ok(rows))
}

/// Plays the rows of a text. A row is a line, and what it must give stands on the lines below it that begin with `=`.
/// Empty lines and those that begin with `#` say nothing. What goes otherwise is printed.
pub fn play_rows<P: Answers>(
    rt: &impl Print,
    alloc: Global,
    name: &str,
    text: &str,
    player: &mut P,
) -> io::Result<Tally> {
    let mut tally = Tally::default();
    match rows_of(alloc, text)? {
        Ok(rows) => {
            for row in &rows {
                tally.count(plays(rt, alloc, name, player, row)?);
            }
        }
        Err(line) => {
            tell(
                rt,
                alloc,
                (name, line),
                "what is expected stands below no row",
                b"",
                b"",
            )?;
            tally.count(false);
        }
    }
    Ok(tally)
}
