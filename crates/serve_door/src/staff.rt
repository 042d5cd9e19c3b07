//! Workers are hired for a door and for halls, and dismissed.

ghost use Rattle.std.specs.Prelude.{◌≡◌, ◌+◌, ◌<◌, ◌≤◌, ◌++◌, ◌∷◌, [], List, IfOk, IfErr, map, vec_capacity, vec_len, Some, None};
ghost use Rattle.serve_door.specs.Doors.{given_and_back};
ghost use Rattle.serve_door.specs.Inner.{door_posts, hall_posts, listed};
ghost use Rattle.serve_door.specs.Working.{AreHired, AreStaff, Post as ThePost, Posts, all_together, together, with_handles, workers_at, worse};

use crate::entrance::Entrance;
use crate::post::Post;
use crate::serving::{Stop, Stopped};
use crate::worker::Worker;
use grain_supervise::Link;
use host_base::Memory;
use std::alloc::Global;

// Why serving stopped at two posts.
fn worse(one: Stop, other: Stop) -> Stop
    ensures { result ≡ worse one other }
{
    match (one, other) {
        (Stop::All, other) => other,
        (Stop::DoorFailed, _) => Stop::DoorFailed,
        (Stop::Memory, Stop::DoorFailed) => Stop::DoorFailed,
        (Stop::Memory, _) => Stop::Memory,
    }
}

// How serving stopped at two posts together.
fn together(one: Stopped, other: Stopped) -> Stopped
    ensures { result ≡ together one other }
{
    Stopped {
        stop: worse(one.stop, other.stop),
        answered: one.answered.saturating_add(other.answered),
    }
}

// A post at a door, and so many others at further handles of it. Each has a link of its own. Where memory runs out the door is
// handed back.
fn make_posts<E: Entrance + Drop>(
    alloc: Global,
    door: E,
    link: &E::Link,
    others: u16,
) -> Result<Vec<Post<E>>, E>
    ensures hired { IfOk result (λ posts. AreHired (E.doorway door) others posts.items) }
    ensures back { IfErr result (λ back. back ≡ door) }
{
    let Ok(mut posts) = Vec::with_capacity(alloc, usize::from(others) + 1) else {
        return Err(door);
    };
    let Ok(own) = link.another(alloc) else {
        return Err(door);
    };
    'handles: for _made in 0..others {
        let (Ok(handle), Ok(link)) = (door.another(alloc), link.another(alloc)) else {
            return Err(door);
        };
        posts.push_reserved(Post::new(handle, link));
    }
    posts.push_reserved(Post::new(door, own));
    Ok(posts)
}

// Takes posts apart, the last of which has the door whose handles the others have: the door that took them back, and how serving
// stopped there together.
fn close_posts<E: Entrance + Drop>(posts: Vec<Post<E>>) -> (E, Stopped)
    requires { (handles : List ThePost) × (main : ThePost) × (posts.items ≡ handles ++ main ∷ []) }
    ensures door { (handles : List ThePost) (main : ThePost) → posts.items ≡ handles ++ main ∷ []
        → E.doorway result.0 ≡ with_handles main.doorway handles }
    ensures stopped { (handles : List ThePost) (main : ThePost) → posts.items ≡ handles ++ main ∷ []
        → result.1 ≡ all_together main.stopped handles }
{
    let mut posts = posts;
    let Some(main) = posts.pop() else {
        unreachable!();
    };
    let (mut door, mut all) = main.into_parts();
    'handles: for post in posts {
        let (handle, stopped) = post.into_parts();
        door.take_back(handle);
        all = together(all, stopped);
    }
    (door, all)
}

/// Workers at a door and at halls, and room for their posts once they served.
#[derive(Drop)]
pub struct Staff<'a, E: Entrance, H: Entrance, R> {
    pub workers: Vec<Worker<'a, E, H, R>>,
    pub doors: Vec<Post<E>>,
    pub halls: Vec<Post<H>>,
}

// No worker yet, and room for so many and their posts.
fn make_room<'a, E: Entrance + Drop, H: Entrance + Drop, R>(
    alloc: Global,
    count: usize,
) -> Result<Staff<'a, E, H, R>, Memory>
    ensures none { IfOk result (λ staff. (staff.workers.items ≡ []) × (staff.doors.items ≡ [])
        × (staff.halls.items ≡ [])) }
    ensures room { IfOk result (λ staff. (count ≤ vec_capacity staff.workers)
        × (count ≤ vec_capacity staff.doors) × (count ≤ vec_capacity staff.halls)) }
{
    Ok(Staff {
        workers: Vec::with_capacity(alloc, count)?,
        doors: Vec::with_capacity(alloc, count)?,
        halls: Vec::with_capacity(alloc, count)?,
    })
}

// A worker more for each post at the door.
fn employ_at_door<'a, E: Entrance + Drop, H: Entrance + Drop, R>(
    rt: &'a R,
    posts: Vec<Post<E>>,
    workers: &mut Vec<Worker<'a, E, H, R>>,
)
    requires { vec_len workers.old + vec_len posts ≤ vec_capacity workers.old }
    ensures employed { workers.new.items ≡ workers.old.items ++ workers_at posts.items [] }
    ensures many { vec_len workers.new ≡ vec_len workers.old + vec_len posts }
    ensures capacity { vec_capacity workers.new ≡ vec_capacity workers.old }
{
    'posts: for post in posts {
        workers.push_reserved(Worker::at_door(rt, post));
    }
}

// A worker more for each post at the halls.
fn employ_at_halls<'a, E: Entrance + Drop, H: Entrance + Drop, R>(
    rt: &'a R,
    posts: Vec<Post<H>>,
    workers: &mut Vec<Worker<'a, E, H, R>>,
)
    requires { vec_len workers.old + vec_len posts ≤ vec_capacity workers.old }
    ensures employed { workers.new.items ≡ workers.old.items ++ workers_at [] posts.items }
    ensures capacity { vec_capacity workers.new ≡ vec_capacity workers.old }
{
    'posts: for post in posts {
        workers.push_reserved(Worker::at_halls(rt, post));
    }
}

// Workers for posts at a door and at halls. Where memory runs out the posts are handed back.
fn employ<'a, E: Entrance + Drop, H: Entrance + Drop, R>(
    rt: &'a R,
    alloc: Global,
    doors: Vec<Post<E>>,
    halls: Vec<Post<H>>,
) -> Result<Staff<'a, E, H, R>, (Vec<Post<E>>, Vec<Post<H>>)>
    requires { vec_len doors + vec_len halls ≤ 131072 }
    ensures employed { IfOk result (λ staff. staff.workers.items ≡ workers_at doors.items halls.items) }
    ensures none { IfOk result (λ staff. (staff.doors.items ≡ []) × (staff.halls.items ≡ [])) }
    ensures room { IfOk result (λ staff. (vec_len staff.workers ≤ vec_capacity staff.doors)
        × (vec_len staff.workers ≤ vec_capacity staff.halls)) }
    ensures back { IfErr result (λ back. (back.0 ≡ doors) × (back.1 ≡ halls)) }
{
    let Ok(mut staff) = make_room(alloc, doors.len() + halls.len()) else {
        return Err((doors, halls));
    };
    employ_at_door(rt, doors, &mut staff.workers);
    employ_at_halls(rt, halls, &mut staff.workers);
    Ok(staff)
}

/// Workers for a door and for halls: for each of these one, and so many others for further handles. Where memory runs out both are
/// handed back, which gave none.
pub fn hire<'a, E: Entrance + Drop, H: Entrance + Drop, R>(
    rt: &'a R,
    alloc: Global,
    door: (E, u16),
    link: &E::Link,
    halls: (H, u16),
    hall_link: &H::Link,
) -> Result<Staff<'a, E, H, R>, (E, H)>
    ensures hired { IfOk result (λ staff. AreStaff (E.doorway door.0) door.1 (H.doorway halls.0) halls.1
        staff.workers.items) }
    ensures none { IfOk result (λ staff. (staff.doors.items ≡ []) × (staff.halls.items ≡ [])) }
    ensures room { IfOk result (λ staff. (vec_len staff.workers ≤ vec_capacity staff.doors)
        × (vec_len staff.workers ≤ vec_capacity staff.halls)) }
    ensures back { IfErr result (λ back.
        (given_and_back (E.doorway back.0) ≡ given_and_back (E.doorway door.0))
        × (given_and_back (H.doorway back.1) ≡ given_and_back (H.doorway halls.0))) }
{
    let (door, others) = door;
    let (halls, hall_others) = halls;
    let doors = match make_posts(alloc, door, link, others) {
        Ok(doors) => doors,
        Err(door) => return Err((door, halls)),
    };
    let halls = match make_posts(alloc, halls, hall_link, hall_others) {
        Ok(halls) => halls,
        Err(halls) => return Err((close_posts(doors).0, halls)),
    };
    match employ(rt, alloc, doors, halls) {
        Ok(staff) => Ok(staff),
        Err((doors, halls)) => Err((close_posts(doors).0, close_posts(halls).0)),
    }
}

// One post more, where there is one.
fn keep<E: Entrance + Drop>(post: Option<Post<E>>, posts: &mut Vec<Post<E>>)
    requires { vec_len posts.old < vec_capacity posts.old }
    ensures kept { posts.new.items ≡ posts.old.items ++ listed post }
    ensures few { vec_len posts.new ≤ vec_len posts.old + 1 }
    ensures capacity { vec_capacity posts.new ≡ vec_capacity posts.old }
{
    match post {
        Some(post) => posts.push_reserved(post),
        None => {}
    }
}

// Takes workers apart: their posts at the door and at the halls, each in their order.
fn collect<'a, E: Entrance + Drop, H: Entrance + Drop, R>(
    workers: Vec<Worker<'a, E, H, R>>,
    doors: &mut Vec<Post<E>>,
    halls: &mut Vec<Post<H>>,
)
    requires none { (doors.old.items ≡ []) × (halls.old.items ≡ []) }
    requires room { (vec_len workers ≤ vec_capacity doors.old) × (vec_len workers ≤ vec_capacity halls.old) }
    ensures doors { doors.new.items ≡ door_posts workers.entry.items }
    ensures halls { halls.new.items ≡ hall_posts workers.entry.items }
{
    'workers: for worker in workers {
        let (door, hall) = worker.into_posts();
        keep(door, doors);
        keep(hall, halls);
    }
}

/// Takes workers apart, of whom those with the door itself and with the halls themselves come last: the door and the halls, which took
/// their handles back, and how all stopped together. There has to be room for their posts.
pub fn dismiss<'a, E: Entrance + Drop, H: Entrance + Drop, R>(
    workers: Vec<Worker<'a, E, H, R>>,
    doors: Vec<Post<E>>,
    halls: Vec<Post<H>>,
) -> (E, H, Stopped)
    requires none { (doors.items ≡ []) × (halls.items ≡ []) }
    requires room { (vec_len workers ≤ vec_capacity doors) × (vec_len workers ≤ vec_capacity halls) }
    requires all { (handles at_halls : List ThePost) × (main hall : ThePost)
        × (workers.items ≡ workers_at (handles ++ main ∷ []) (at_halls ++ hall ∷ [])) }
    ensures door { (handles at_halls : List ThePost) (main hall : ThePost)
        → workers.entry.items ≡ workers_at (handles ++ main ∷ []) (at_halls ++ hall ∷ [])
        → E.doorway result.0 ≡ with_handles main.doorway handles }
    ensures halls { (handles at_halls : List ThePost) (main hall : ThePost)
        → workers.entry.items ≡ workers_at (handles ++ main ∷ []) (at_halls ++ hall ∷ [])
        → H.doorway result.1 ≡ with_handles hall.doorway at_halls }
    ensures stopped { (handles at_halls : List ThePost) (main hall : ThePost)
        → workers.entry.items ≡ workers_at (handles ++ main ∷ []) (at_halls ++ hall ∷ [])
        → result.2 ≡ together (all_together main.stopped handles) (all_together hall.stopped at_halls) }
{
    let (mut doors, mut halls) = (doors, halls);
    collect(workers, &mut doors, &mut halls);
    let (door, at_door) = close_posts(doors);
    let (halls, at_halls) = close_posts(halls);
    (door, halls, together(at_door, at_halls))
}
