//! A post, where connections or tunnels are served.

ghost use Rattle.std.specs.Prelude.{◌≡◌};
ghost use Rattle.serve_door.specs.Doors.{IsInOrder};
ghost use Rattle.serve_door.specs.Working.{Works};

use crate::door::Door;
use crate::entrance::Entrance;
use crate::hall_door::HallDoor;
use crate::serving::{Stop, Stopped, serve_all};
use crate::tunneling::serve_tunnels;
use front_http::Routes;
use hub_core::Desk;
use std::alloc::Global;
use std::marker::Model;
use std::sync::Wait;

/// A post: its door, its link to the grains, and how serving there stopped.
#[derive(Drop)]
pub struct Post<E: Entrance> {
    door: E,
    link: E::Link,
    stopped: Stopped,
}

impl<E: Entrance> Model for Post<E> {
    ghost use Rattle.serve_door.specs.Working.{Post as ThePost};

    ghost Value = { ThePost };

    ghost view = { λ post. record { doorway = E.doorway post.door; stopped = post.stopped } };
}

impl<E: Entrance + Drop> Post<E> {
    /// A post where none was served yet.
    pub fn new(door: E, link: E::Link) -> Self
        ensures { result.doorway ≡ E.doorway door }
    {
        Post {
            door,
            link,
            stopped: Stopped {
                stop: Stop::Memory,
                answered: 0,
            },
        }
    }

    /// The post's door, handed back, and how serving there stopped.
    pub fn into_parts(self) -> (E, Stopped)
        ensures door { E.doorway result.0 ≡ self.doorway }
        ensures stopped { result.1 ≡ self.stopped }
    {
        let Post {
            door,
            link: _,
            stopped,
        } = self;
        (door, stopped)
    }
}

impl<E: Door + Drop> Post<E> {
    /// Serves the connections that come in here.
    pub(crate) fn serve_connections<R: Wait, D: Desk>(
        &mut self,
        rt: &R,
        alloc: Global,
        desk: &mut D,
    )
        requires { IsInOrder self.old.doorway }
        ensures { Works (D.book desk.old) (D.book desk.new) self.old self.new }
    {
        // A router isn't known to cross threads, so each worker makes its own.
        let Ok(routes) = Routes::new(alloc) else {
            self.stopped = Stopped {
                stop: Stop::Memory,
                answered: 0,
            };
            return;
        };
        self.stopped = serve_all(rt, alloc, &routes, &mut self.door, desk, &self.link);
    }
}

impl<H: HallDoor + Drop> Post<H> {
    /// Serves the tunnels that come in here.
    pub(crate) fn serve_messages<R: Wait, D: Desk>(&mut self, rt: &R, alloc: Global, desk: &mut D)
        requires { IsInOrder self.old.doorway }
        ensures { Works (D.book desk.old) (D.book desk.new) self.old self.new }
    {
        let stop = serve_tunnels(rt, alloc, &mut self.door, desk, &self.link);
        self.stopped = Stopped { stop, answered: 0 };
    }
}
