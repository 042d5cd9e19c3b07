//! What the program is run with, and what it hands back.

ghost use Rattle.std.specs.Prelude.{◌≡◌};

use cloud_keeper::Keeper;
use cloud_serve::Wire;
use grain_supervise::Spawner;
use host_base::{Secrets, Sink, Source};
use host_clock::Clock;
use hub_core::{Held, Holding};
use serve_door::{Door, Entrance, HallDoor};
use std::marker::{Model, PhantomData};

/// Of which types the objects are that the program is run with.
pub trait Setting: Holding {
    /// What `play` reads requests from.
    type Input: Source + Drop;
    /// What answers and lines are written to.
    type Output: Sink + Drop;
    /// What tells the moment, of which each desk of `serve` has one that goes on from it.
    type Clock: Clock + Drop;
    /// Where connections come in, and the link to the grains.
    type Door: Door + Drop;
    /// Where tunnels come in, over such a link.
    type Halls: HallDoor + Entrance<Link = <Self::Door as Entrance>::Link> + Drop;
}

/// The link to the grains.
pub type LinkOf<W> = <<W as Setting>::Door as Entrance>::Link;

/// What the program is run with beside its words and the drivers of its sites. It is the keeper, and what these objects tell.
#[derive(Drop)]
pub struct World<W: Setting> {
    pub input: W::Input,
    pub out: W::Output,
    pub link: LinkOf<W>,
    pub held: Held<W>,
    pub clock: W::Clock,
    pub door: W::Door,
    pub halls: W::Halls,
}

impl<W: Setting> Model for World<W> {
    ghost use Rattle.admin_run.specs.Outside.{WorldOf};

    ghost Value = { WorldOf W.Keeper };

    ghost view = { λ world. record { keeper = world.held.keeper; tells = record { inlet = W.Input.inlet world.input; outlet = W.Output.outlet world.out; line = W.Door.Link.line world.link; holds = world.held.tell; moments = W.Clock.moments world.clock; doorway = W.Door.doorway world.door; hallway = W.Halls.doorway world.halls } } };
}

/// The status of a run, with its world handed back.
#[derive(Drop)]
pub struct Ran<W: Setting> {
    pub status: u8,
    pub world: World<W>,
}

/// The setting of these types of objects: input, output, keeper, secrets, spawner, clock, door and halls.
pub struct Of<I, O, K, S, P, T, E, H>(PhantomData<(I, O, K, S, P, T, E, H)>);

impl<I, O, K: Keeper + Drop, S: Secrets + Drop, P: Spawner + Drop, T, E, H> Holding
    for Of<I, O, K, S, P, T, E, H> {
    type Keeper = K;

    type Secrets = S;

    type Spawner = P;
}

impl<
    I: Source + Drop,
    O: Sink + Drop,
    K: Keeper + Drop,
    S: Secrets + Drop,
    P: Spawner + Drop,
    T: Clock + Drop,
    E: Door + Drop,
    H: HallDoor + Entrance<Link = E::Link> + Drop,
> Setting for Of<I, O, K, S, P, T, E, H> {
    type Input = I;

    type Output = O;

    type Clock = T;

    type Door = E;

    type Halls = H;
}

/// The world of these objects.
pub fn world_of<
    I: Source + Drop,
    O: Sink + Drop,
    K: Keeper + Drop,
    S: Secrets + Drop,
    P: Spawner + Drop,
    T: Clock + Drop,
    E: Door + Drop,
    H: HallDoor + Entrance<Link = E::Link> + Drop,
>(
    input: I,
    out: O,
    link: E::Link,
    keeper: K,
    secrets: S,
    spawner: P,
    clock: T,
    door: E,
    halls: H,
) -> World<Of<I, O, K, S, P, T, E, H>>
    ensures keeper { result.keeper ≡ keeper }
    ensures tells { result.tells ≡ record {
      inlet = I.inlet input;
      outlet = O.outlet out;
      line = E.Link.line link;
      holds = record { keeping = K.keeping keeper; drawer = S.drawer secrets; spawns = P.spawns spawner };
      moments = T.moments clock;
      doorway = E.doorway door;
      hallway = H.doorway halls;
    } }
{
    World {
        input,
        out,
        link,
        held: Held {
            keeper,
            secrets,
            spawner,
        },
        clock,
        door,
        halls,
    }
}

// The world of a connection's objects and what stands beside them.
pub(crate) fn joined<W: Setting>(
    wire: Wire<W::Input, W::Output, LinkOf<W>>,
    held: Held<W>,
    clock: W::Clock,
    door: W::Door,
    halls: W::Halls,
) -> World<W>
    ensures keeper { result.keeper ≡ held.keeper }
    ensures tells { result.tells ≡ record {
      inlet = wire.inlet;
      outlet = wire.outlet;
      line = wire.line;
      holds = held.tell;
      moments = W.Clock.moments clock;
      doorway = W.Door.doorway door;
      hallway = W.Halls.doorway halls;
    } }
{
    let Wire { input, out, link } = wire;
    World {
        input,
        out,
        link,
        held,
        clock,
        door,
        halls,
    }
}
