//! How a text is read: line by line, each conversation from a line that begins with `==`.

use crate::conversation::{Conversation, Failing, Kept, Piece, Round, Stream};
use crate::settings::read_setting;
use crate::short::{is_status, read_answer, read_request};
use std::alloc::Global;
use test_words::{Fault, after, put_line, says_nothing};

// The words of a program that plays over its input and output.
fn play_words(alloc: Global) -> Result<Vec<String>, Fault> {
    let mut words = Vec::new(alloc);
    words.push(String::from_str(alloc, "play")?)?;
    Ok(words)
}

// A conversation in which nothing is sent and nothing comes back.
fn begin(alloc: Global, line: usize, title: &str) -> Result<Conversation, Fault> {
    let title = String::from_str(alloc, title)?;
    let first = Round::new(alloc, line, play_words(alloc)?);
    let mut rounds = Vec::new(alloc);
    rounds.push(first)?;
    Ok(Conversation {
        title,
        line,
        rounds,
        failing: Failing::none(alloc),
        kept: Kept {
            empty: false,
            first: Vec::new(alloc),
            count: None,
            last: Vec::new(alloc),
        },
        grains: Vec::new(alloc),
        asked: None,
        told: None,
        gives: None,
        secrets: None,
        repeats: 1,
        cuts: false,
        last: (String::new(alloc), String::new(alloc)),
    })
}

// The bytes of a line that must come.
fn piece(alloc: Global, line: usize, text: &str) -> Result<Piece, Fault> {
    let mut bytes = Vec::new(alloc);
    put_line(alloc, &mut bytes, text)?;
    Ok(Piece { line, bytes })
}

// Appends a line to those that must come of something, if any.
fn put_piece(
    alloc: Global,
    pieces: &mut Option<Vec<Piece>>,
    line: usize,
    text: &str,
) -> Result<(), Fault> {
    let mut all = pieces.take().unwrap_or(Vec::new(alloc));
    all.push(piece(alloc, line, text)?)?;
    *pieces = Some(all);
    Ok(())
}

// Appends a line to the last answer of a grain.
fn put_grain(alloc: Global, conversation: &mut Conversation, text: &str) -> Result<(), Fault> {
    match conversation.grains.last_mut() {
        Some(answer) => put_line(alloc, answer, text),
        None => Err(Fault::Unreadable),
    }
}

// The connection that is open.
fn open(conversation: &mut Conversation) -> Result<&mut Stream, Fault> {
    match conversation.rounds.last_mut() {
        Some(round) => Ok(round.open()),
        None => Err(Fault::Unreadable),
    }
}

// Reads a line that is a setting, or a request or an answer in the short form.
fn read_words(
    alloc: Global,
    conversation: &mut Conversation,
    line: usize,
    text: &str,
) -> Result<(), Fault> {
    let (word, rest) = text.split_once(' ').unwrap_or((text, ""));
    if is_status(word) {
        let bytes = read_answer(alloc, &conversation.last, word, rest)?;
        return Ok(open(conversation)?.answered.push(Piece { line, bytes })?);
    }
    if let Some(request) = read_request(alloc, word, rest)? {
        open(conversation)?
            .sent
            .extend_from_slice(request.bytes.as_slice())?;
        conversation.last = request.line;
        return Ok(());
    }
    read_setting(alloc, conversation, line, word, rest)
}

// Reads a line of a conversation. What is sent and answered behind a line `stream` is of that connection.
fn read_line(
    alloc: Global,
    conversation: &mut Conversation,
    line: usize,
    text: &str,
) -> Result<(), Fault> {
    if let Some(text) = after(text, ">") {
        return put_line(alloc, &mut open(conversation)?.sent, text);
    }
    if let Some(text) = after(text, "<") {
        let piece = piece(alloc, line, text)?;
        return Ok(open(conversation)?.answered.push(piece)?);
    }
    if let Some(text) = after(text, "?") {
        return put_piece(alloc, &mut conversation.asked, line, text);
    }
    if let Some(text) = after(text, "!") {
        return put_piece(alloc, &mut conversation.told, line, text);
    }
    if let Some(text) = after(text, "|") {
        return put_grain(alloc, conversation, text);
    }
    read_words(alloc, conversation, line, text)
}

/// Why a text can't be read: the number of its first line that can't, from 1, with the line, or want of memory.
#[derive(Drop)]
pub struct Unread {
    pub line: usize,
    pub fault: Fault,
}

// Reads a line of a text: one that begins a conversation, or one of the last conversation.
fn read_next(
    alloc: Global,
    read: &mut Vec<Conversation>,
    line: usize,
    text: &str,
) -> Result<(), Fault> {
    if let Some(title) = after(text, "==") {
        return Ok(read.push(begin(alloc, line, title)?)?);
    }
    match read.last_mut() {
        Some(conversation) => read_line(alloc, conversation, line, text),
        None => Err(Fault::Unreadable),
    }
}

/// The conversations of a text. Empty lines and those that begin with `#` say nothing.
pub fn conversations(alloc: Global, text: &str) -> Result<Vec<Conversation>, Unread> {
    let mut read = Vec::new(alloc);
    for (place, text) in text.lines().enumerate() {
        let line = place.saturating_add(1);
        if says_nothing(text) {
            continue;
        }
        match read_next(alloc, &mut read, line, text) {
            Ok(()) => (),
            Err(fault) => return Err(Unread { line, fault }),
        }
    }
    Ok(read)
}
