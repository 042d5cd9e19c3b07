//! The lines of a conversation that say what is around the server, and what must be there at the end.

use crate::conversation::{Conversation, Failing, Piece, Round, Stream};
use cloud_keeper::Row;
use host_base::Bytes;
use std::alloc::Global;
use test_words::{Fault, byte, bytes_of, digits_of, numbers, size, small, words};

// The numbers of the rows that a word states: one, or the first and the last of several with `-` between them.
fn range_of(text: &str) -> Result<(u32, u32), Fault> {
    let (first, last) = text.split_once('-').unwrap_or((text, text));
    Ok((small(first)?, small(last)?))
}

// Appends the rows that words state: their kind, their numbers and their body.
fn put_rows(alloc: Global, rows: &mut Vec<Row>, text: &str) -> Result<(), Fault> {
    let (kind, rest) = text.split_once(' ').ok_or(Fault::Unreadable)?;
    let (nums, digits) = rest.split_once(' ').unwrap_or((rest, ""));
    let kind = byte(kind)?;
    let (first, last) = range_of(nums)?;
    let body = digits_of(alloc, digits)?;
    for num in first..last.saturating_add(1) {
        let body = Bytes::new(body.clone()?);
        rows.push(Row { kind, num, body })?;
    }
    Ok(())
}

// Appends the row that must be there at the end.
fn put_last(
    alloc: Global,
    conversation: &mut Conversation,
    line: usize,
    text: &str,
) -> Result<(), Fault> {
    let mut rows = Vec::new(alloc);
    put_rows(alloc, &mut rows, text)?;
    for row in rows {
        conversation.kept.last.push((line, row))?;
    }
    Ok(())
}

// The secrets of equal bytes.
fn secrets(alloc: Global, text: &str) -> Result<Vec<u8>, Fault> {
    let mut secrets = Vec::new(alloc);
    for word in text.split_whitespace() {
        secrets.push(byte(word)?)?;
    }
    Ok(secrets)
}

// The run of the program that is open.
fn open(conversation: &mut Conversation) -> Result<&mut Round, Fault> {
    conversation.rounds.last_mut().ok_or(Fault::Unreadable)
}

// Another run over the same objects, with these words.
fn reopen(
    alloc: Global,
    conversation: &mut Conversation,
    line: usize,
    text: &str,
) -> Result<(), Fault> {
    let round = Round::new(alloc, line, words(alloc, text)?);
    Ok(conversation.rounds.push(round)?)
}

// Another connection at the door.
fn connect(alloc: Global, conversation: &mut Conversation, line: usize) -> Result<(), Fault> {
    let stream = Stream::new(alloc, line);
    Ok(open(conversation)?.streams.push(stream)?)
}

// The list of the calls of an object that fail.
fn calls_of<'a>(failing: &'a mut Failing, name: &str) -> Result<&'a mut Vec<u64>, Fault> {
    match name {
        "source" => Ok(&mut failing.source),
        "sink" => Ok(&mut failing.sink),
        "link" => Ok(&mut failing.link),
        "draw" => Ok(&mut failing.draw),
        "spawner" => Ok(&mut failing.spawner),
        "store" => Ok(&mut failing.store),
        _ => Err(Fault::Unreadable),
    }
}

// Reads a setting without a value.
fn read_mark(
    alloc: Global,
    conversation: &mut Conversation,
    line: usize,
    name: &str,
) -> Result<(), Fault> {
    match name {
        "cuts" => conversation.cuts = true,
        "empty" => conversation.kept.empty = true,
        "unasked" => conversation.asked = Some(Vec::<Piece>::new(alloc)),
        "untold" => conversation.told = Some(Vec::<Piece>::new(alloc)),
        "answer" => conversation.grains.push(Vec::new(alloc))?,
        "secrets" => conversation.secrets = Some(Vec::new(alloc)),
        "words" => open(conversation)?.words = Vec::new(alloc),
        "stream" => connect(alloc, conversation, line)?,
        _ => return Err(Fault::Unreadable),
    }
    Ok(())
}

/// Reads a setting: its name, and its value.
pub fn read_setting(
    alloc: Global,
    conversation: &mut Conversation,
    line: usize,
    name: &str,
    value: &str,
) -> Result<(), Fault> {
    if value.is_empty() {
        return read_mark(alloc, conversation, line, name);
    }
    match name {
        "words" => open(conversation)?.words = words(alloc, value)?,
        "reopen" => reopen(alloc, conversation, line, value)?,
        "clock" => open(conversation)?.clock = numbers(alloc, value)?,
        "status" => open(conversation)?.status = (line, byte(value)?),
        "rows" => conversation.kept.count = Some((line, size(value)?)),
        "row" => put_last(alloc, conversation, line, value)?,
        "keep" => put_rows(alloc, &mut conversation.kept.first, value)?,
        "repeat" => conversation.repeats = size(value)?,
        "gives" => conversation.gives = Some(size(value)?),
        "secrets" => conversation.secrets = Some(secrets(alloc, value)?),
        "answer" => conversation.grains.push(bytes_of(alloc, value)?)?,
        _ => *calls_of(&mut conversation.failing, name)? = numbers(alloc, value)?,
    }
    Ok(())
}
