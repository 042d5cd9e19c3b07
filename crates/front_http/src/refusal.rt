/// Why the bytes at some place of a stream are refused.
#[derive(Clone, Copy, Debug, PartialEq, Eq)]
pub enum Refusal {
    /// They are no request head, or one whose framing isn't allowed.
    BadHead,
    /// The first 16,384 bytes hold no head.
    LongHead,
    /// The head has a transfer encoding.
    NeedLength,
    /// The body is longer than 1,048,576 bytes.
    LongBody,
}
