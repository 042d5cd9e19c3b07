//! The objects that a desk works with.

use cloud_keeper::Keeper;
use grain_supervise::Spawner;
use host_base::Secrets;
use std::marker::Model;

/// Of which types the objects are that a desk works with.
pub trait Holding {
    /// What keeps its rows over a restart.
    type Keeper: Keeper + Drop;
    /// What its secrets are drawn from.
    type Secrets: Secrets + Drop;
    /// What starts and stops its runs.
    type Spawner: Spawner + Drop;
}

/// The objects that a desk works with. It is the keeper, and what they tell.
#[derive(Drop)]
pub struct Held<H: Holding> {
    pub keeper: H::Keeper,
    pub secrets: H::Secrets,
    pub spawner: H::Spawner,
}

impl<H: Holding> Model for Held<H> {
    ghost use Rattle.hub_core.specs.Sharing.{Objects};

    ghost Value = { Objects H.Keeper };

    ghost view = { λ held. record { keeper = held.keeper; tell = record { keeping = H.Keeper.keeping held.keeper; drawer = H.Secrets.drawer held.secrets; spawns = H.Spawner.spawns held.spawner } } };
}
