//! The JSON object of a body, and its fields.

ghost use Rattle.std.specs.Prelude.{◌≡◌, IfOk, MatchResult, option_map};
ghost use Rattle.serde_json.specs.View.{view};
ghost use Rattle.app_manifest.specs.Stated.{object_of};
ghost use Rattle.desk_bodies.specs.Bodies as bodies;

use crate::fault::BodyFault;
use serde_json::Value;
use std::alloc::{AllocError, Global};

/// The text that a body is read as: an empty body counts as `{}`.
pub(crate) fn text_of(body: &[u8]) -> &[u8]
    ensures { result.now ≡ bodies.text_of body.now }
{
    match body {
        [] => "{}".as_bytes(),
        [_, ..] => body,
    }
}

/// The JSON object that bytes are, or none where they are none.
pub(crate) fn object_from(alloc: Global, bytes: &[u8]) -> Result<Option<Value>, AllocError>
    ensures { IfOk result (λ found. option_map view found ≡ object_of bytes.now) }
{
    match Value::from_slice(alloc, bytes) {
        Ok(value) if value.is_object() => Ok(Some(value)),
        Ok(_) => Ok(None),
        Err(error) if error.is_memory() => Err(AllocError),
        Err(_) => Ok(None),
    }
}

/// What the field of a number states. Where it states nothing, the body has the fault of that number.
pub(crate) fn field<T>(number: u8, stated: Option<T>) -> Result<T, BodyFault>
    ensures { MatchResult result (λ x. stated ≡ Some x) (λ fault.
        (stated ≡ None) × (fault ≡ BodyFault.BadBody number)) }
{
    stated.ok_or(BodyFault::BadBody(number))
}
