//! The request that a message is to its grain.

ghost use Rattle.std.specs.Prelude.{◌≡◌, ◌∷◌, [], IfOk, codes, decimal, length};
ghost use Rattle.tunnel_serve.specs.Exchanges.{media_type, request_of as request};
ghost use Rattle.ws_tunnel.specs.Hall.{bytes_of};

use host_base::{Bytes, Field, Fields, Memory, Request};
use http::Method;
use itoa::Buffer;
use plain_data::Text;
use std::alloc::Global;
use ws_tunnel::Message;

fn media_type(message: &Message) -> &'static str
    ensures { result.now ≡ media_type message.now }
{
    if message.is_text() {
        "text/plain"
    } else {
        "application/octet-stream"
    }
}

fn field(alloc: Global, name: &str, value: &[u8]) -> Result<Field, Memory>
    ensures { IfOk result (λ field. field ≡ record { name = name.now; value = value.now }) }
{
    Ok(Field {
        name: Bytes::copy_of(alloc, name.as_bytes())?,
        value: Bytes::copy_of(alloc, value)?,
    })
}

// What a grain is told of a message: what kind of text it is, and how many bytes.
fn fields_of(alloc: Global, message: &Message) -> Result<Fields, Memory>
    ensures { IfOk result (λ fields. fields ≡
        record { name = codes "content-type"; value = media_type message.now }
        ∷ record { name = codes "content-length"; value = decimal (length (bytes_of message.now)) } ∷ []) }
{
    let mut number = Buffer::new();
    let length = number.format(message.len());
    let mut fields = Fields::empty(alloc);
    fields.push(field(alloc, "content-type", media_type(message).as_bytes())?)?;
    fields.push(field(alloc, "content-length", length.as_bytes())?)?;
    Ok(fields)
}

fn post() -> Method
    ensures { result ≡ codes "POST" }
{
    Method::POST
}

/// The request that a message is to its grain.
pub fn request_of(alloc: Global, message: &Message) -> Result<Request, Memory>
    ensures { IfOk result (λ made. made ≡ request message.now) }
{
    let target = Text::from_str(alloc, "/")?;
    let fields = fields_of(alloc, message)?;
    let body = Bytes::copy_of(alloc, message.as_slice())?;
    Ok(Request {
        method: post(),
        target,
        host: Bytes::empty(alloc),
        fields,
        bearer: None,
        body,
        last: false,
    })
}
