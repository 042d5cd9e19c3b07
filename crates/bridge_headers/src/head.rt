ghost use Rattle.std.specs.Prelude.{◌≡◌, ◌<◌, ◌≤◌, ◌*◌, [], All, IfOk, IfSome, MatchOption, length, map, take};
ghost use Rattle.httparse.specs.Grammar.{ResponseHead, ReadsResponse, status_code};
ghost use Rattle.httparse.specs.Spans.{header_bytes, name_and_value, IsHeaderWithin};
ghost use Rattle.bridge_headers.specs.Relay.{run_length};
ghost use Rattle.bridge_headers.specs.Spans.{AreSpansOf};

use host_base::Memory;
use httparse::Status;
use httparse::spans::{EMPTY_HEADER_SPAN, HeaderSpan, parse_response};
use std::alloc::Global;

/// Where the lines of a response head are, and its status.
#[derive(Drop)]
pub struct HeadSpans {
    pub status: u16,
    pub fields: Vec<HeaderSpan>,
}

/// How long the shortest run is that ends with CR LF CR LF, if there is one.
pub fn run_end(bytes: &[u8]) -> Option<usize>
    ensures run { result ≡ run_length bytes.now }
    ensures within { IfSome result (λ n. n ≤ length bytes.now) }
{
    for i in 0..bytes.len() {
        if bytes[i..].starts_with(b"\r\n\r\n") {
            return Some(i + 4);
        }
    }
    None
}

/// Reads bytes that are to be a response head and nothing else.
pub fn read_head(alloc: Global, head: &[u8]) -> Result<Option<HeadSpans>, Memory>
    ensures { IfOk result (λ found. MatchOption found ((response : ResponseHead)
        → ¬ (ReadsResponse head.now response [])) (λ spans. AreSpansOf head.now spans)) }
{
    let mut fields = vec![in alloc; EMPTY_HEADER_SPAN; head.len() / 3]?;
    match parse_response(head, &mut fields) {
        Ok(Status::Complete(line)) => {
            if line.len == head.len() {
                fields.truncate(line.headers);
                Ok(Some(HeadSpans {
                    status: line.code,
                    fields,
                }))
            } else {
                Ok(None)
            }
        }
        Ok(Status::Partial) => Ok(None),
        Err(_) => Ok(None),
    }
}
