//! The length that a head announces.
ghost use Rattle.std.specs.Prelude.{◌≡◌, ◌==◌, ◌≤◌, ◌^◌, [], ◌∷◌, true, length, map, reverse, option_map, IfOk, IfSome, IfNone};
ghost use Rattle.std.specs.List.{slice_split, list_all, position_or_len};
ghost use Rattle.std.specs.Char.{is_ascii_digit};
ghost use Rattle.std.specs.Str.Lines.{strip_carriage_return};
ghost use Rattle.std.specs.Str.Parse.{digits_value};
ghost use Rattle.httparse.specs.Grammar.{skip_ows, trim_ows};
ghost use Rattle.front_http.specs.Heads.{are_lengths};
ghost use Rattle.grain_program.specs.Stated.{name_of, value_of, length_in as length_in_line, lengths_of, whole_length as whole_length_of, text_length as text_length_of};

use std::alloc::{AllocError, Global};

/// The longest text, in bytes.
pub const TEXT_LIMIT: usize = 2_097_152;

fn skip_blanks(mut text: &[u8]) -> &[u8]
    ensures { result.now ≡ skip_ows text.entry.now }
{
    while let [b' ' | b'\t', rest @ ..] = text {
        text = rest;
    }
    text
}

fn cut_blanks(mut text: &[u8]) -> &[u8]
    ensures { result.now ≡ reverse (skip_ows (reverse text.entry.now)) }
{
    while let [rest @ .., b' ' | b'\t'] = text {
        text = rest;
    }
    text
}

// A text without the spaces and tabs around it.
#[tactic(auto, unfolding(httparse::specs::Grammar::trim_ows))]
fn trim_blanks(text: &[u8]) -> &[u8]
    ensures { result.now ≡ trim_ows text.now }
{
    cut_blanks(skip_blanks(text))
}

// A line without the CR at its end.
fn strip_return(line: &[u8]) -> &[u8]
    ensures { result.now ≡ strip_carriage_return line.now }
{
    match line {
        [rest @ .., b'\r'] => rest,
        _ => line,
    }
}

// The place of the first colon, or the length.
fn colon_of(line: &[u8]) -> usize
    ensures within { result ≤ length line.now }
    ensures first { result ≡ position_or_len (λ byte. byte == 58) line.now }
{
    for (at, byte) in line.iter().enumerate() {
        if *byte == b':' {
            return at;
        }
    }
    line.len()
}

fn name(line: &[u8]) -> &[u8]
    ensures { result.now ≡ name_of line.now }
{
    &line[..colon_of(line)]
}

fn value(line: &[u8]) -> &[u8]
    ensures { result.now ≡ value_of line.now }
{
    trim_blanks(line.get(colon_of(line) + 1..).unwrap_or(&[]))
}

// The value of a `Content-Length` line.
#[tactic(auto, unfolding(crate::specs::Stated::length_in))]
fn length_in(line: &[u8]) -> Option<&[u8]>
    ensures { option_map (λ value. value.now) result ≡ length_in_line line.now }
{
    if name(line).eq_ignore_ascii_case(b"Content-Length") {
        Some(value(line))
    } else {
        None
    }
}

fn lines(alloc: Global, head: &[u8]) -> Result<Vec<&[u8]>, AllocError>
    ensures { IfOk result (λ lines. map (λ line. line.now) lines.items
        ≡ slice_split (λ byte. byte == 10) head.now) }
{
    head.split(|byte| *byte == b'\n').collect(alloc)
}

// The values of the `Content-Length` lines of a head.
fn lengths(alloc: Global, head: &[u8]) -> Result<Vec<&[u8]>, AllocError>
    ensures { IfOk result (λ values. map (λ value. value.now) values.items ≡ lengths_of head.now) }
{
    let lines = lines(alloc, head)?;
    let mut values = Vec::new(alloc);
    for line in &lines {
        if let Some(value) = length_in(strip_return(line)) {
            values.push(value)?;
        }
    }
    Ok(values)
}

fn is_digits(text: &[u8]) -> bool
    ensures { result ≡ list_all is_ascii_digit text.now }
{
    text.iter().all(|byte| byte.is_ascii_digit())
}

// The number of decimal digits; none where it is 2^64 or more, or where they are no digits.
fn number(digits: &[u8]) -> Option<u64>
    ensures some { IfSome result (λ n. (are_lengths (digits.now ∷ []) ≡ true)
        × (n ≡ digits_value 10 digits.now)) }
    ensures none { IfNone result (are_lengths (digits.now ∷ []) ≡ true
        → 2 ^ 64 ≤ digits_value 10 digits.now) }
{
    if !is_digits(digits) {
        return None;
    }
    match str::from_utf8(digits) {
        Ok(digits) => match digits.parse() {
            Ok(number) => Some(number),
            Err(_) => None,
        },
        Err(_) => None,
    }
}

// How many bytes a head of so many bytes and its body have, where its lengths are these.
fn whole_length(head: usize, lengths: &[&[u8]]) -> Option<usize>
    ensures { result ≡ whole_length_of head (map (λ value. value.now) lengths.now) }
{
    let body = match lengths {
        [] => 0,
        [value] => number(value)?,
        _ => return None,
    };
    if head <= TEXT_LIMIT && body <= (TEXT_LIMIT - head) as u64 {
        Some(head + body as usize)
    } else {
        None
    }
}

/// How many bytes the text of this head has, the head and its body; none where its `Content-Length` lines are not in order, or
/// where that is more than a text may have.
#[tactic(auto, unfolding(crate::specs::Stated::text_length))]
pub fn text_length(alloc: Global, head: &[u8]) -> Result<Option<usize>, AllocError>
    ensures { IfOk result (λ length. length ≡ text_length_of head.now) }
{
    let lengths = lengths(alloc, head)?;
    Ok(whole_length(head.len(), lengths.as_slice()))
}
