//! The head of a request: its parts, and the request that it makes with an empty body.
ghost use Rattle.std.specs.Prelude.{◌≡◌, All, length, map, IfOk, IfErr, MatchOption, IsUtf8};
ghost use Rattle.httparse.specs.Spans.{IsWithin, IsHeaderWithin, span_bytes};
ghost use Rattle.front_http.specs.Spans.{field_at, request_at, HasNoHead, IsHeadAt, IsHeadOf, IsHeadFault};

use crate::fields::{bearer, body_length, closes, host};
use crate::refusal::Refusal;
use host_base::{Bytes, Field, Fields, Memory, Request};
use http::Method;
use httparse::Status;
use httparse::spans::{EMPTY_HEADER_SPAN, HeaderSpan, RequestSpans, Span, parse_request};
use plain_data::Text;
use std::alloc::Global;

/// A head that was read: the request that it makes with an empty body, how many bytes it has, and how many its body has.
#[derive(Drop)]
pub struct Head {
    pub request: Request,
    pub length: usize,
    pub body: usize,
}

/// Why no head was read.
#[derive(Clone, Copy, PartialEq, Eq)]
pub enum HeadFault {
    Refused(Refusal),
    Memory,
}

impl From<Memory> for HeadFault {
    ghost use Rattle.std.specs.Prelude.{◌≡◌};
    ghost use Rattle.front_http.specs.declared.head.HeadFault.{HeadFault};
    ghost use Rattle.front_http.specs.declared.head.HeadFault.TheVariants as variant;

    ghost from_gives = { λ memory fault. fault ≡ variant.Memory };

    fn from(_: Memory) -> HeadFault {
        HeadFault::Memory
    }
}

// Where the parts of a head stand that takes exactly these bytes, and its header lines; none where they are no head.
#[derive(Drop)]
struct HeadSpans {
    line: RequestSpans,
    fields: Vec<HeaderSpan>,
}

fn parse_head(alloc: Global, bytes: &[u8]) -> Result<Option<HeadSpans>, Memory>
    ensures { IfOk result (λ found. MatchOption found (HasNoHead bytes.now) (λ spans.
        IsHeadAt bytes.now spans.fields.items spans.line)) }
{
    let Ok(mut fields) = vec![in alloc; EMPTY_HEADER_SPAN; bytes.len() / 3] else {
        return Err(Memory);
    };
    match parse_request(bytes, &mut fields) {
        Ok(Status::Complete(line)) => {
            if line.len == bytes.len() {
                Ok(Some(HeadSpans { line, fields }))
            } else {
                Ok(None)
            }
        }
        Ok(Status::Partial) => Ok(None),
        Err(_) => Ok(None),
    }
}

fn copy_field(alloc: Global, bytes: &[u8], span: &HeaderSpan) -> Result<Field, Memory>
    requires { IsHeaderWithin (length bytes.now) span.now }
    ensures { IfOk result (λ field. field ≡ field_at bytes.now span.now) }
{
    Ok(Field {
        name: Bytes::copy_of(alloc, span.name.of(bytes))?,
        value: Bytes::copy_of(alloc, span.value.of(bytes))?,
    })
}

fn copy_fields(alloc: Global, bytes: &[u8], spans: &[HeaderSpan]) -> Result<Fields, Memory>
    requires { All (IsHeaderWithin (length bytes.now)) spans.now }
    ensures { IfOk result (λ fields. fields ≡ map (field_at bytes.now) spans.now) }
{
    let mut fields = Vec::new(alloc);
    for span in spans {
        fields.push(copy_field(alloc, bytes, span)?)?;
    }
    Ok(Fields::new(fields))
}

fn copy_method(alloc: Global, bytes: &[u8], span: Span) -> Result<Method, Memory>
    requires { IsWithin (length bytes.now) span }
    ensures { IfOk result (λ method. method ≡ span_bytes bytes.now span) }
{
    match Method::from_bytes(alloc, span.of(bytes)) {
        Ok(method) => Ok(method),
        Err(_) => Err(Memory),
    }
}

fn copy_target(alloc: Global, bytes: &[u8], span: Span) -> Result<Text, Memory>
    requires within { IsWithin (length bytes.now) span }
    requires utf8 { IsUtf8 (span_bytes bytes.now span) }
    ensures { IfOk result (λ target. target ≡ span_bytes bytes.now span) }
{
    match str::from_utf8(span.of(bytes)) {
        Ok(target) => Ok(Text::from_str(alloc, target)?),
        Err(_) => unreachable!(),
    }
}

fn make_request(
    alloc: Global,
    bytes: &[u8],
    line: &RequestSpans,
    fields: Fields,
) -> Result<Request, Memory>
    requires method { IsWithin (length bytes.now) line.now.method }
    requires target { IsWithin (length bytes.now) line.now.path }
    requires utf8 { IsUtf8 (span_bytes bytes.now line.now.path) }
    ensures { IfOk result (λ request. request ≡ request_at bytes.now line.now fields) }
{
    let method = copy_method(alloc, bytes, line.method)?;
    let target = copy_target(alloc, bytes, line.path)?;
    let host = host(alloc, fields.as_slice())?;
    let bearer = bearer(fields.as_slice());
    let last = closes(line.version, fields.as_slice());
    Ok(Request {
        method,
        target,
        host,
        fields,
        bearer,
        body: Bytes::empty(alloc),
        last,
    })
}

/// Reads the head that takes exactly these bytes.
pub fn read_head(alloc: Global, bytes: &[u8]) -> Result<Head, HeadFault>
    ensures head { IfOk result (IsHeadOf bytes.now) }
    ensures refused { IfErr result (IsHeadFault bytes.now) }
{
    let Some(spans) = parse_head(alloc, bytes)? else {
        return Err(HeadFault::Refused(Refusal::BadHead));
    };
    let fields = copy_fields(alloc, bytes, &spans.fields[..spans.line.headers])?;
    match body_length(fields.as_slice()) {
        Ok(body) => {
            let request = make_request(alloc, bytes, &spans.line, fields)?;
            Ok(Head {
                request,
                length: bytes.len(),
                body,
            })
        }
        Err(refusal) => Err(HeadFault::Refused(refusal)),
    }
}
