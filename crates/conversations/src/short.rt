//! The short form of requests and of answers, of which the heads and the lengths are made here.

use std::alloc::Global;
use test_words::{Fault, bytes_of, put_text, small};

/// The bytes of a request, and its method and target.
#[derive(Drop)]
pub struct Request {
    pub bytes: Vec<u8>,
    pub line: (String, String),
}

// The token of an account of the small book.
fn login_of(who: &str) -> Option<&str> {
    match who {
        "ada" => Some("\\token(1)"),
        "zoe" => Some("\\token(2)"),
        "ben" => Some("\\token(3)"),
        "dan" => Some("\\token(4)"),
        _ => None,
    }
}

// The host that a request is for, and the token that it shows, if any.
#[derive(Clone, Copy)]
struct Shows<'a> {
    host: &'a str,
    key: &'a str,
    token: Option<&'a str>,
}

// What a request on a host shows.
fn shown_at<'a>(host: &'a str, key: &'a str, token: Option<&'a str>) -> Shows<'a> {
    Shows { host, key, token }
}

// The token that a word is; `-` is none.
fn token_of(word: &str) -> Option<&str> {
    if word == "-" { None } else { Some(word) }
}

// Who asks, and what stands behind that: an account of the small book by its name; `nobody`; `bearer TOKEN` at the
// desk; `session KEY`; `api TOKEN`; `run TOKEN`, a running grain.
fn asking<'a>(word: &'a str, rest: &'a str) -> Option<(Shows<'a>, &'a str)> {
    if let Some(token) = login_of(word) {
        return Some((shown_at("", "", Some(token)), rest));
    }
    if word == "nobody" {
        return Some((shown_at("", "", None), rest));
    }
    let (shown, behind) = rest.split_once(' ')?;
    let shows = match word {
        "bearer" => shown_at("", "", Some(shown)),
        "session" => shown_at("ui-", shown, None),
        "api" => shown_at("api", "", token_of(shown)),
        "run" => shown_at("grain", "", token_of(shown)),
        _ => return None,
    };
    Some((shows, behind))
}

// Appends the head of a request but for the line of its length.
fn put_head(
    alloc: Global,
    bytes: &mut Vec<u8>,
    shows: Shows<'_>,
    method: &str,
    target: &str,
) -> Result<(), Fault> {
    put_text(alloc, bytes, method)?;
    bytes.extend_from_slice(b" ")?;
    put_text(alloc, bytes, target)?;
    bytes.extend_from_slice(b" HTTP/1.1\r\nHost: ")?;
    put_text(alloc, bytes, shows.host)?;
    put_text(alloc, bytes, shows.key)?;
    if !shows.host.is_empty() {
        bytes.extend_from_slice(b".")?;
    }
    bytes.extend_from_slice(b"example.org\r\n")?;
    if let Some(token) = shows.token {
        bytes.extend_from_slice(b"Authorization: Bearer ")?;
        put_text(alloc, bytes, token)?;
        bytes.extend_from_slice(b"\r\n")?;
    }
    Ok(())
}

// Appends the line of a length, the end of the head, and the body.
fn put_body(alloc: Global, bytes: &mut Vec<u8>, body: &[u8]) -> Result<(), Fault> {
    let line = format!(in alloc; "Content-Length: {}\r\n", body.len())?;
    bytes.extend_from_slice(line.as_bytes())?;
    bytes.extend_from_slice(b"\r\n")?;
    bytes.extend_from_slice(body)?;
    Ok(())
}

/// Reads a request: who asks, the method, the target, and the body, if any. It is none where the first word says no
/// one.
pub fn read_request(alloc: Global, word: &str, rest: &str) -> Result<Option<Request>, Fault> {
    let Some((shows, behind)) = asking(word, rest) else {
        return Ok(None);
    };
    let (method, behind) = behind.split_once(' ').ok_or(Fault::Unreadable)?;
    let (target, body) = behind.split_once(' ').unwrap_or((behind, ""));
    let mut bytes = Vec::new(alloc);
    put_head(alloc, &mut bytes, shows, method, target)?;
    if body.is_empty() {
        bytes.extend_from_slice(b"\r\n")?;
    } else {
        put_body(alloc, &mut bytes, bytes_of(alloc, body)?.as_slice())?;
    }
    let method = String::from_str(alloc, method)?;
    let target = String::from_str(alloc, target)?;
    Ok(Some(Request {
        bytes,
        line: (method, target),
    }))
}

/// Whether a word is a status, of three digits.
pub fn is_status(word: &str) -> bool {
    word.len() == 3 && word.bytes().all(|byte| byte.is_ascii_digit())
}

// The words behind a status.
fn reason_of(status: &str) -> Result<&str, Fault> {
    match status {
        "200" => Ok("OK"),
        "400" => Ok("Bad Request"),
        "401" => Ok("Unauthorized"),
        "403" => Ok("Forbidden"),
        "404" => Ok("Not Found"),
        "409" => Ok("Conflict"),
        "411" => Ok("Length Required"),
        "413" => Ok("Payload Too Large"),
        "422" => Ok("Unprocessable Entity"),
        "431" => Ok("Request Header Fields Too Large"),
        "500" => Ok("Internal Server Error"),
        "502" => Ok("Bad Gateway"),
        "503" => Ok("Service Unavailable"),
        _ => Err(Fault::Unreadable),
    }
}

// How a grain is told who an account of the small book is: its number, its name in percent escapes, and its id.
fn told_of(who: &str) -> Result<(&str, &str), Fault> {
    match who {
        "ada" => Ok(("Ada%20Holm", "53fb4b64058bcaa257364b2155c0196d")),
        "zoe" => Ok(("Zo%C3%AB%20K.", "1544d19931a7e2d202bc2fe39df382f1")),
        "ben" => Ok(("Ben%20Roy", "799b0dea34674c98be5726df7838f89d")),
        "dan" => Ok(("Dan%20Ito", "a79f4f499943df23f41bd5157165c241")),
        _ => Err(Fault::Unreadable),
    }
}

// The target that a grain is asked for: what stands behind `/use/N`, or else the whole.
fn passed_on(target: &str) -> &str {
    match target.strip_prefix("/use/") {
        Some(rest) => match rest.find('/') {
            Some(slash) => &rest[slash..],
            None => target,
        },
        None => target,
    }
}

// Appends the lines that tell who asks, and by which permissions.
fn put_user(alloc: Global, text: &mut String, who: &str, permissions: &str) -> Result<(), Fault> {
    if who == "nobody" {
        text.push_str("X-Sandstorm-Username: Anonymous%20User\r\n")?;
    } else {
        let (name, id) = told_of(who)?;
        let lines = format!(in alloc;
            "X-Sandstorm-Username: {name}\r\nX-Sandstorm-User-Id: {id}\r\nX-Sandstorm-Preferred-Handle: {who}\r\n"
        )?;
        text.push_str(lines.as_str())?;
    }
    let line = format!(in alloc; "X-Sandstorm-Permissions: {permissions}\r\n\r\n")?;
    Ok(text.push_str(line.as_str())?)
}

// The text that a grain is asked, which a grain that echoes answers: of the last request, and of words that tell who
// asks, in which session (none: `-`), and with which permissions.
fn asked_text(alloc: Global, last: &(String, String), words: &str) -> Result<String, Fault> {
    let (who, rest) = words.split_once(' ').ok_or(Fault::Unreadable)?;
    let (session, permissions) = rest.split_once(' ').unwrap_or((rest, ""));
    let method = if last.0.as_str() == "HEAD" {
        "GET"
    } else {
        last.0.as_str()
    };
    let target = passed_on(last.1.as_str());
    let mut text = format!(in alloc;
        "{method} {target} HTTP/1.1\r\nHost: sandbox\r\nConnection: close\r\n"
    )?;
    if session != "-" {
        let session = small(session)?;
        let lines = format!(in alloc;
            "X-Sandstorm-Tab-Id: {session:016x}\r\nX-Sandstorm-Session-Id: {session:016x}\r\n"
        )?;
        text.push_str(lines.as_str())?;
    }
    put_user(alloc, &mut text, who, permissions)?;
    Ok(text)
}

// The line of the kind of an answer, and its body.
fn kind_and_body(
    alloc: Global,
    last: &(String, String),
    rest: &str,
) -> Result<(&'static str, Vec<u8>), Fault> {
    if let Some(words) = rest.strip_prefix("echo ") {
        let text = asked_text(alloc, last, words)?;
        return Ok((
            "content-type: text/plain",
            Vec::from_slice(alloc, text.as_bytes())?,
        ));
    }
    match rest.strip_prefix("text ") {
        Some(text) => Ok(("Content-Type: text/plain", bytes_of(alloc, text)?)),
        None => Ok(("Content-Type: application/json", bytes_of(alloc, rest)?)),
    }
}

/// Reads an answer: a status with a body in JSON; `200 text` with a text of the server's own; or `200 echo` with who
/// asks, the session and the permissions, the answer of a grain that echoes what it was asked for the last request.
pub fn read_answer(
    alloc: Global,
    last: &(String, String),
    status: &str,
    rest: &str,
) -> Result<Vec<u8>, Fault> {
    let (kind, body) = kind_and_body(alloc, last, rest)?;
    let head = format!(in alloc;
        "HTTP/1.1 {status} {}\r\nContent-Length: {}\r\n{kind}\r\n\r\n",
        reason_of(status)?,
        body.len()
    )?;
    let mut bytes = Vec::from_slice(alloc, head.as_bytes())?;
    bytes.extend_from_slice(body.as_slice())?;
    Ok(bytes)
}
