use thiserror::Error;

/// Why an answer isn't relayed.
#[derive(Clone, Copy, Debug, PartialEq, Eq, Error)]
pub enum RelayFault {
    /// It isn't an answer, or not of the length that it states: the place where it goes wrong.
    #[error("the grain's answer goes wrong at byte {0}")]
    BadAnswer(u64),
    /// It states no length.
    #[error("the grain's answer states no length")]
    NoLength,
    /// Memory ran out.
    #[error("out of memory")]
    Memory,
}
