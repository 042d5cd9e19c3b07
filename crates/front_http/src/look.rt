//! What the bytes that are held begin with.
ghost use Rattle.std.specs.Prelude.{IfOk, ◌≡◌};
ghost use Rattle.front_http.specs.Pending.{IsPending, IsKnown, IsSearched, LooksAt};

use crate::find::{HEAD_LIMIT, behind, find_head, head_run};
use crate::head::{Head, HeadFault, read_head};
use crate::refusal::Refusal;
use host_base::{Bytes, Memory, Request};
use std::alloc::Global;

/// What is known of a request that isn't whole yet: that its head doesn't end at the first places, or its head.
#[derive(Drop)]
pub enum Pending {
    Search(usize),
    Known(Head),
}

/// What was seen: a part of a request, bytes that are refused, or a request and the number of its bytes.
#[derive(Drop)]
pub enum Looked {
    Part(Pending),
    Refused(Refusal),
    Whole(Request, usize),
}

// The request of a head that is known.
fn look_behind(alloc: Global, held: &[u8], head: Head) -> Result<Looked, Memory>
    requires { IsKnown held.now head }
    ensures { IfOk result (LooksAt held.now) }
{
    let rest = behind(held, head.length);
    if head.body > rest.len() {
        return Ok(Looked::Part(Pending::Known(head)));
    }
    let body = Bytes::copy_of(alloc, &rest[..head.body])?;
    let count = head.length + head.body;
    let mut request = head.request;
    request.body = body;
    Ok(Looked::Whole(request, count))
}

// Seeks the head, which doesn't end at the first places.
fn look_on(alloc: Global, held: &[u8], from: usize) -> Result<Looked, Memory>
    requires { IsSearched from held.now }
    ensures { IfOk result (LooksAt held.now) }
{
    match find_head(head_run(held), from) {
        Some(length) => match read_head(alloc, &held[..length]) {
            Ok(head) => look_behind(alloc, held, head),
            Err(HeadFault::Refused(refusal)) => Ok(Looked::Refused(refusal)),
            Err(HeadFault::Memory) => Err(Memory),
        },
        None => {
            if held.len() > HEAD_LIMIT {
                return Ok(Looked::Refused(Refusal::LongHead));
            }
            Ok(Looked::Part(Pending::Search(held.len().saturating_sub(3))))
        }
    }
}

/// Looks at the bytes that are held, without reading anew what is known of them.
pub fn look(alloc: Global, held: &[u8], pending: Pending) -> Result<Looked, Memory>
    requires { IsPending held.now pending }
    ensures { IfOk result (LooksAt held.now) }
{
    match pending {
        Pending::Search(from) => look_on(alloc, held, from),
        Pending::Known(head) => look_behind(alloc, held, head),
    }
}
