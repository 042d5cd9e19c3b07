//! A request as it is passed on.
ghost use Rattle.std.specs.Prelude.{◌≡◌, IfOk};
ghost use Rattle.cloud_serve.specs.Turns.{passed_to};

use host_base::{Bytes, Field, Fields, Memory, Request};
use http::Method;
use plain_data::Text;
use std::alloc::Global;

// A copy of header lines.
fn copy_of_fields(alloc: Global, fields: &Fields) -> Result<Fields, Memory>
    ensures { IfOk result (λ copy. copy ≡ fields.now) }
{
    let mut copy = Fields::empty(alloc);
    for field in fields.as_slice() {
        copy.push(Field {
            name: Bytes::copy_of(alloc, field.name.as_slice())?,
            value: Bytes::copy_of(alloc, field.value.as_slice())?,
        })?;
    }
    Ok(copy)
}

/// A copy of a request, with another target.
pub fn with_target(alloc: Global, request: &Request, target: Text) -> Result<Request, Memory>
    ensures { IfOk result (λ passed. passed ≡ passed_to target request.now) }
{
    Ok(Request {
        method: request.method.clone()?,
        target,
        host: Bytes::copy_of(alloc, request.host.as_slice())?,
        fields: copy_of_fields(alloc, &request.fields)?,
        bearer: request.bearer,
        body: Bytes::copy_of(alloc, request.body.as_slice())?,
        last: request.last,
    })
}
