//! A worker, who serves at posts of his own.

ghost use Rattle.std.specs.Prelude.{◌≡◌, Some, None};
ghost use Rattle.serve_door.specs.Working.{AreReady, IsReadyAt, WorksAt, WorksBoth};

use crate::door::Door;
use crate::entrance::Entrance;
use crate::hall_door::HallDoor;
use crate::post::Post;
use hub_core::Desk;
use hub_jobs::Job;
use std::alloc::Global;
use std::marker::Model;
use std::sync::Wait;

/// A worker: his post at the door and his post at the halls, where he has them. He waits by a handle.
#[derive(Drop)]
pub struct Worker<'a, E: Entrance, H: Entrance, R> {
    rt: &'a R,
    door: Option<Post<E>>,
    halls: Option<Post<H>>,
}

impl<'a, E: Entrance, H: Entrance, R> Model for Worker<'a, E, H, R> {
    ghost use Rattle.serve_door.specs.Working.{Posts};

    ghost Value = { Posts };

    ghost view = { λ worker. record { door = worker.door; halls = worker.halls } };
}

impl<'a, E: Entrance + Drop, H: Entrance + Drop, R> Worker<'a, E, H, R> {
    /// A worker at the door.
    pub fn at_door(rt: &'a R, post: Post<E>) -> Self
        ensures { result ≡ record { door = Some post; halls = None } }
    {
        Worker {
            rt,
            door: Some(post),
            halls: None,
        }
    }

    /// A worker at the halls.
    pub fn at_halls(rt: &'a R, post: Post<H>) -> Self
        ensures { result ≡ record { door = None; halls = Some post } }
    {
        Worker {
            rt,
            door: None,
            halls: Some(post),
        }
    }

    /// The worker's posts, handed back.
    pub fn into_posts(self) -> (Option<Post<E>>, Option<Post<H>>)
        ensures door { result.0 ≡ self.entry.door }
        ensures halls { result.1 ≡ self.entry.halls }
    {
        let Worker { rt: _, door, halls } = self;
        (door, halls)
    }
}

// Serves the connections at a post, where there is one.
fn serve_at_door<R: Wait, E: Door + Drop, D: Desk>(
    rt: &R,
    alloc: Global,
    post: &mut Option<Post<E>>,
    desk: &mut D,
)
    requires { IsReadyAt post.old }
    ensures { WorksAt (D.book desk.old) (D.book desk.new) post.old post.new }
{
    match post {
        Some(post) => post.serve_connections(rt, alloc, desk),
        None => {}
    }
}

// Serves the tunnels at a post, where there is one.
fn serve_at_halls<R: Wait, H: HallDoor + Drop, D: Desk>(
    rt: &R,
    alloc: Global,
    post: &mut Option<Post<H>>,
    desk: &mut D,
)
    requires { IsReadyAt post.old }
    ensures { WorksAt (D.book desk.old) (D.book desk.new) post.old post.new }
{
    match post {
        Some(post) => post.serve_messages(rt, alloc, desk),
        None => {}
    }
}

impl<'a, E: Door + Drop, H: HallDoor + Drop, R: Wait> Job for Worker<'a, E, H, R> {
    ghost ready = { AreReady };

    ghost does = { WorksBoth };

    fn work<D: Desk>(&mut self, alloc: Global, desk: &mut D) {
        serve_at_door(self.rt, alloc, &mut self.door, desk);
        serve_at_halls(self.rt, alloc, &mut self.halls, desk);
    }
}
