use share_graph::{Made, Refusal};
use std::alloc::AllocError;

/// Where a command ends before a change: it is refused, or things are as it asks, or memory ran out.
#[derive(Clone, Copy, PartialEq, Eq)]
pub enum Stop {
    Refused(Refusal),
    Same(Made),
    Memory,
}

impl From<Refusal> for Stop {
    ghost use Rattle.std.specs.Prelude.{◌≡◌};
    ghost use Rattle.desk_base.specs.declared.stop.Stop.{Stop};

    ghost from_gives = { λ refusal stop. stop ≡ Stop.Refused refusal };

    fn from(refusal: Refusal) -> Stop {
        Stop::Refused(refusal)
    }
}

impl From<AllocError> for Stop {
    ghost use Rattle.std.specs.Prelude.{◌≡◌};
    ghost use Rattle.desk_base.specs.declared.stop.Stop.{Stop};

    ghost from_gives = { λ _ stop. stop ≡ Stop.Memory };

    fn from(_: AllocError) -> Stop {
        Stop::Memory
    }
}
