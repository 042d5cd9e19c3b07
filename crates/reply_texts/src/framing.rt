//! The answers to what is refused in a stream.

ghost use Rattle.std.specs.Prelude.{◌≡◌, IfOk};
ghost use Rattle.http.specs.StatusCode.{IsStatusCode};
ghost use Rattle.reply_texts.specs.Texts.{refusal_name, refusal_status, refused_text};

use crate::own::own_reply;
use front_http::Refusal;
use host_base::{Bytes, Memory};
use std::alloc::Global;

fn name_of_refusal(refusal: Refusal) -> &'static str
    ensures { result.now ≡ refusal_name refusal }
{
    match refusal {
        Refusal::BadHead => "BadHead",
        Refusal::LongHead => "LongHead",
        Refusal::NeedLength => "NeedLength",
        Refusal::LongBody => "LongBody",
    }
}

/// The status that a framing refusal is answered with.
pub fn status_of_refusal(refusal: Refusal) -> u16
    ensures value { result ≡ refusal_status refusal }
    ensures valid { IsStatusCode result }
{
    match refusal {
        Refusal::BadHead => 400,
        Refusal::LongHead => 413,
        Refusal::NeedLength => 411,
        Refusal::LongBody => 413,
    }
}

/// The answer to what is refused at a place of the stream.
pub fn refused_reply(alloc: Global, refusal: Refusal, at: u64) -> Result<Bytes, Memory>
    ensures { IfOk result (λ reply. reply ≡ refused_text refusal at) }
{
    let status = status_of_refusal(refusal);
    own_reply(alloc, status, name_of_refusal(refusal), &[at], false)
}
