//! The forms of a request: a GET of a session or by a token, and a POST to the desk.

ghost use Rattle.std.specs.Prelude.{◌≡◌, ◌++◌, OnOk};
ghost use Rattle.request_maker.specs.Requests.{api_get, post, session_get};

use host_base::{Bytes, Memory};
use itoa::Buffer;

/// Appends a GET of the session of a key.
pub(crate) fn put_session_get(text: &mut Bytes, key: &[u8]) -> Result<(), Memory>
    ensures { OnOk result (text.new ≡ text.old ++ session_get key.now) }
{
    text.put(b"GET /p HTTP/1.1\r\nHost: ui-")?;
    text.put(key)?;
    text.put(b".example.org\r\n\r\n")
}

/// Appends a GET by the token of a bearer.
pub(crate) fn put_api_get(text: &mut Bytes, token: &[u8]) -> Result<(), Memory>
    ensures { OnOk result (text.new ≡ text.old ++ api_get token.now) }
{
    text.put(b"GET /p HTTP/1.1\r\nHost: api.example.org\r\nAuthorization: Bearer ")?;
    text.put(token)?;
    text.put(b"\r\n\r\n")
}

/// Appends a POST to a path of the desk, by a token.
pub(crate) fn put_post(
    text: &mut Bytes,
    path: &str,
    token: &[u8],
    body: &[u8],
) -> Result<(), Memory>
    ensures { OnOk result (text.new ≡ text.old ++ post path.now token.now body.now) }
{
    let mut length = Buffer::new();
    text.put(b"POST ")?;
    text.put(path.as_bytes())?;
    text.put(b" HTTP/1.1\r\nHost: desk.example.org\r\nAuthorization: Bearer ")?;
    text.put(token)?;
    text.put(b"\r\nContent-Length: ")?;
    text.put(length.format(body.len()).as_bytes())?;
    text.put(b"\r\n\r\n")?;
    text.put(body)
}
