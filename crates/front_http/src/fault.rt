ghost use Rattle.std.specs.Prelude.{◌≡◌};
ghost use Rattle.front_http.specs.Reading.{fault_at as fault_of};

use crate::refusal::Refusal;
use thiserror::Error;

/// Why there is no next request. A place is that of the request's first byte in the stream.
#[derive(Clone, Copy, Debug, PartialEq, Eq, Error)]
pub enum FrontFault {
    #[error("no request head at byte {0}")]
    BadHead(u64),
    #[error("a head longer than 16,384 bytes at byte {0}")]
    LongHead(u64),
    #[error("a transfer encoding at byte {0}")]
    NeedLength(u64),
    #[error("a body longer than 1,048,576 bytes at byte {0}")]
    LongBody(u64),
    /// The input ended in the middle of a request; how many bytes it had.
    #[error("the input ended in the middle of a request, after {0} bytes")]
    CutOff(u64),
    /// The input failed. It was counted.
    #[error("the input failed")]
    ReadFault,
    #[error("out of memory")]
    Memory,
}

/// The fault of what is refused at a place.
pub fn fault_at(refusal: Refusal, at: u64) -> FrontFault
    ensures { result ≡ fault_of refusal at }
{
    match refusal {
        Refusal::BadHead => FrontFault::BadHead(at),
        Refusal::LongHead => FrontFault::LongHead(at),
        Refusal::NeedLength => FrontFault::NeedLength(at),
        Refusal::LongBody => FrontFault::LongBody(at),
    }
}
