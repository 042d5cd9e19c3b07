//! The ledger of accepted orders: what all passes count together is how long the history is. It takes no bytes.

ghost use Rattle.std.specs.Prelude.{◌≡◌};

use std::marker::PhantomData;
use std::sync::ledger::Ledger;

/// How many passes of one hub may be made.
pub const PASS_LIMIT: u32 = 65_536;

/// Into how many parts the ledger is cut: one for each pass that may be made, and one for the maker.
pub const PARTS: u64 = 65_537;

/// That a ledger is cut into so many parts.
#[derive(Drop)]
pub struct Known<L: Ledger> {
    of: PhantomData<L>,
    ghost parts: { L.parts ≡ 65537 },
}

impl<L: Ledger> Known<L> {
    pub fn new() -> Self
        requires { L.parts ≡ 65537 }
    {
        Known { of: PhantomData }
    }
}
