//! How bytes and numbers are written in a line.

use crate::fault::Fault;
use base64::engine::general_purpose::URL_SAFE_NO_PAD;
use std::alloc::Global;

/// The number that a text is: decimal digits alone.
pub fn number(text: &str) -> Result<u64, Fault> {
    if text.starts_with('+') {
        return Err(Fault::Unreadable);
    }
    text.parse::<u64>().map_err(|_| Fault::Unreadable)
}

/// The number of at most 32 bits that a text is.
pub fn small(text: &str) -> Result<u32, Fault> {
    u32::try_from(number(text)?).map_err(|_| Fault::Unreadable)
}

/// The number of at most 8 bits that a text is.
pub fn byte(text: &str) -> Result<u8, Fault> {
    u8::try_from(number(text)?).map_err(|_| Fault::Unreadable)
}

/// The length or count that a text is.
pub fn size(text: &str) -> Result<usize, Fault> {
    usize::try_from(number(text)?).map_err(|_| Fault::Unreadable)
}

/// The numbers that the words of a text are.
pub fn numbers(alloc: Global, text: &str) -> Result<Vec<u64>, Fault> {
    let mut numbers = Vec::new(alloc);
    for word in text.split_whitespace() {
        numbers.push(number(word)?)?;
    }
    Ok(numbers)
}

// Appends a text as it stands, some times over.
fn put_times(bytes: &mut Vec<u8>, times: usize, text: &str) -> Result<(), Fault> {
    for _ in 0..times {
        bytes.extend_from_slice(text.as_bytes())?;
    }
    Ok(())
}

// The secret of a number in the sequence of secrets: eight times its four bytes, big end first.
fn secret_in_sequence(alloc: Global, number: u32) -> Result<Vec<u8>, Fault> {
    let mut secret = Vec::new(alloc);
    for _ in 0..8 {
        secret.extend_from_slice(&number.to_be_bytes())?;
    }
    Ok(secret)
}

// Appends the text of a token.
fn put_token(alloc: Global, bytes: &mut Vec<u8>, secret: &[u8]) -> Result<(), Fault> {
    let token = URL_SAFE_NO_PAD.encode(alloc, secret)?;
    bytes.extend_from_slice(token.as_bytes())?;
    Ok(())
}

// Appends the text of the key of a number in the sequence of secrets: the first sixteen bytes of the secret in
// hexadecimal digits.
fn put_key(alloc: Global, bytes: &mut Vec<u8>, number: u32) -> Result<(), Fault> {
    let part = format!(in alloc; "{number:08x}")?;
    put_times(bytes, 4, part.as_str())
}

// Appends bytes that are written in hexadecimal digits.
fn put_digits(alloc: Global, bytes: &mut Vec<u8>, digits: &str) -> Result<(), Fault> {
    match hex::decode(alloc, digits) {
        Ok(decoded) => Ok(bytes.extend_from_slice(decoded.as_slice())?),
        Err(_) => Err(Fault::Unreadable),
    }
}

// Appends what a name stands for with a value.
fn put_named(alloc: Global, bytes: &mut Vec<u8>, name: &str, value: &str) -> Result<(), Fault> {
    match name {
        "key" => put_times(bytes, 32, value),
        "token" => put_token(alloc, bytes, &[byte(value)?; 32]),
        "seq" => {
            let secret = secret_in_sequence(alloc, small(value)?)?;
            put_token(alloc, bytes, secret.as_slice())
        }
        "seqkey" => put_key(alloc, bytes, small(value)?),
        "hex" => put_digits(alloc, bytes, value),
        "times" => {
            let (times, text) = value.split_once(',').ok_or(Fault::Unreadable)?;
            put_times(bytes, size(times)?, text)
        }
        _ => Err(Fault::Unreadable),
    }
}

// Appends what stands after a backslash: a name, its value in round brackets, and text as it stands.
fn put_escaped(alloc: Global, bytes: &mut Vec<u8>, part: &str) -> Result<(), Fault> {
    let (name, rest) = part.split_once('(').ok_or(Fault::Unreadable)?;
    let (value, rest) = rest.split_once(')').ok_or(Fault::Unreadable)?;
    put_named(alloc, bytes, name, value)?;
    bytes.extend_from_slice(rest.as_bytes())?;
    Ok(())
}

/// Appends the bytes that a text stands for. In it, `\key(1)` stands for 32 times `1`, `\token(17)` for the token of 32
/// bytes 17, `\seq(1)` and `\seqkey(1)` for the token and the key of the first secret in sequence, `\hex(00ff)` for
/// bytes, and `\times(3,ab)` for `ababab`; everything else stands for itself.
pub fn put_text(alloc: Global, bytes: &mut Vec<u8>, text: &str) -> Result<(), Fault> {
    for (place, part) in text.split('\\').enumerate() {
        if place == 0 {
            bytes.extend_from_slice(part.as_bytes())?;
        } else {
            put_escaped(alloc, bytes, part)?;
        }
    }
    Ok(())
}

/// The bytes that a text stands for.
pub fn bytes_of(alloc: Global, text: &str) -> Result<Vec<u8>, Fault> {
    let mut bytes = Vec::new(alloc);
    put_text(alloc, &mut bytes, text)?;
    Ok(bytes)
}

/// The bytes of a text whose words are pieces of hexadecimal digits, or `DIGITS*COUNT` for so many of a piece.
pub fn digits_of(alloc: Global, text: &str) -> Result<Vec<u8>, Fault> {
    let mut bytes = Vec::new(alloc);
    for word in text.split_whitespace() {
        let (digits, times) = word.split_once('*').unwrap_or((word, "1"));
        for _ in 0..number(times)? {
            put_digits(alloc, &mut bytes, digits)?;
        }
    }
    Ok(bytes)
}

/// The words of a text, each of which stands for bytes that are text; `\hex()` is an empty one.
pub fn words(alloc: Global, text: &str) -> Result<Vec<String>, Fault> {
    let mut words = Vec::new(alloc);
    for word in text.split_whitespace() {
        let bytes = bytes_of(alloc, word)?;
        match str::from_utf8(bytes.as_slice()) {
            Ok(word) => words.push(String::from_str(alloc, word)?)?,
            Err(_) => return Err(Fault::Unreadable),
        }
    }
    Ok(words)
}

/// Appends the bytes that a line stands for, which ends with CR LF, but where its last character is a backslash.
pub fn put_line(alloc: Global, bytes: &mut Vec<u8>, line: &str) -> Result<(), Fault> {
    match line.strip_suffix('\\') {
        Some(open) => put_text(alloc, bytes, open),
        None => {
            put_text(alloc, bytes, line)?;
            bytes.extend_from_slice(b"\r\n")?;
            Ok(())
        }
    }
}
