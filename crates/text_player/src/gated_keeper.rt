//! A keeper that stays in `commit` until a gate opens.

ghost use Rattle.std.specs.Prelude.{◌≡◌};
ghost use Rattle.hub_core.specs.Stopping.{OutliveStops};

use crate::gate::Gate;
use cloud_keeper::{KeepFault, Keeper, MemKeeper, Row};
use std::alloc::Global;
use std::sync::Arc;

/// A keeper in memory. Where it has a gate it stays in `commit` until that opens.
#[derive(Drop)]
pub struct GatedKeeper {
    keeper: MemKeeper,
    gate: Option<Arc<Gate, Global>>,
}

impl GatedKeeper {
    pub fn new(keeper: MemKeeper, gate: Option<Arc<Gate, Global>>) -> Self
        ensures keeping { ⟦<GatedKeeper as Keeper>⟧.keeping result ≡ ⟦<MemKeeper as Keeper>⟧.keeping keeper }
        ensures outlive { OutliveStops (⟦<MemKeeper as Keeper>⟧.keeping keeper) (⟦<MemKeeper as Keeper>⟧.may_leave keeper)
            → OutliveStops (⟦<GatedKeeper as Keeper>⟧.keeping result) (⟦<GatedKeeper as Keeper>⟧.may_leave result) }
    {
        GatedKeeper { keeper, gate }
    }
}

impl Keeper for GatedKeeper {
    ghost keeping = { λ k. ⟦<MemKeeper as Keeper>⟧.keeping k.keeper };

    ghost may_leave = { λ k. ⟦<MemKeeper as Keeper>⟧.may_leave k.keeper };

    fn load(&mut self, alloc: Global) -> Result<Vec<Row>, KeepFault> {
        self.keeper.load(alloc)
    }

    fn commit(&mut self, alloc: Global, row: &Row) -> Result<(), KeepFault> {
        if let Some(gate) = &self.gate {
            gate.hold();
        }
        self.keeper.commit(alloc, row)
    }
}
