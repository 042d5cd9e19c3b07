//! Playing a conversation over objects in memory.

use crate::comparing::{Difference, compare_asked, compare_rows, compare_told};
use crate::conversation::{Conversation, Round};
use crate::keepers::{first_rows, list_of};
use crate::objects::{AnyLink, AnySecrets, Objects};
use crate::rounds::{Part, play_otherwise, play_round};
use admin_run::book_keeper;
use cloud_keeper::MemKeeper;
use grain_supervise::{CannedLink, EchoLink, FakeSpawner};
use host_base::{Answer, ListSecrets, SeqSecrets};
use plain_data::List;
use std::alloc::Global;
use std::sync::Wait;
use std::thread::Threads;
use test_words::Fault;

// Bytes some times over.
fn repeated(alloc: Global, bytes: &[u8], times: usize) -> Result<Vec<u8>, Fault> {
    let mut all = Vec::new(alloc);
    for _ in 0..times {
        all.extend_from_slice(bytes)?;
    }
    Ok(all)
}

// A run as it is written.
fn whole(alloc: Global, conversation: &Conversation, round: &Round) -> Result<Part, Fault> {
    Ok(Part {
        sent: repeated(alloc, round.own.sent.as_slice(), conversation.repeats)?,
        times: conversation.repeats,
        status: round.status.1,
    })
}

// A run of which the first bytes alone are sent.
fn cut_at(
    alloc: Global,
    conversation: &Conversation,
    round: &Round,
    length: usize,
) -> Result<Part, Fault> {
    let mut sent = repeated(alloc, round.own.sent.as_slice(), conversation.repeats)?;
    let one = round.own.sent.len().max(1);
    sent.truncate(length);
    Ok(Part {
        sent,
        times: length / one,
        status: if length % one == 0 { 0 } else { 6 },
    })
}

// Plays the runs from one on, and compares what is there at the end.
fn play_from<R: Threads + Wait + Sync>(
    rt: &R,
    alloc: Global,
    conversation: &Conversation,
    first: usize,
    objects: Objects,
    found: &mut Vec<Difference>,
) -> Result<(), Fault> {
    let mut objects = objects;
    for round in conversation.rounds.iter().skip(first) {
        let part = whole(alloc, conversation, round)?;
        objects = play_otherwise(rt, alloc, conversation, round, &part, objects, found)?;
    }
    compare_told(alloc, conversation, found, &objects.spawner)?;
    compare_rows(alloc, conversation, found, &mut objects.keeper)?;
    compare_asked(alloc, conversation, found, objects.link.asked())
}

// The answers of the grains.
fn grain_answers(alloc: Global, conversation: &Conversation) -> Result<List<Answer>, Fault> {
    let mut answers = List::empty(alloc);
    for bytes in &conversation.grains {
        answers.push(Answer::new(bytes.clone()?))?;
    }
    Ok(answers)
}

// The link of a conversation, which echoes where no answers of grains are listed.
fn link_of(alloc: Global, conversation: &Conversation) -> Result<AnyLink, Fault> {
    let fails = List::new(conversation.failing.link.clone()?);
    if conversation.grains.is_empty() {
        return Ok(AnyLink::Echo(EchoLink::new(alloc, fails)));
    }
    let answers = grain_answers(alloc, conversation)?;
    Ok(AnyLink::Canned(CannedLink::new(alloc, answers, fails)))
}

// The secrets that a conversation lists.
fn listed(alloc: Global, conversation: &Conversation, of: &[u8]) -> Result<ListSecrets, Fault> {
    let mut secrets = List::empty(alloc);
    for byte in of {
        secrets.push([*byte; 32])?;
    }
    let fails = List::new(conversation.failing.draw.clone()?);
    Ok(ListSecrets::new(secrets, fails))
}

// The secrets of a conversation, in sequence where none are listed.
fn secrets_of(alloc: Global, conversation: &Conversation) -> Result<AnySecrets, Fault> {
    match &conversation.secrets {
        Some(bytes) => Ok(AnySecrets::Listed(listed(alloc, conversation, bytes.as_slice())?)),
        None => Ok(AnySecrets::Sequence(SeqSecrets::new())),
    }
}

// The spawner of a conversation.
fn spawner_of(alloc: Global, conversation: &Conversation) -> Result<FakeSpawner, Fault> {
    let fails = List::new(conversation.failing.spawner.clone()?);
    Ok(FakeSpawner::new(alloc, fails))
}

// The keeper of a conversation that begins with rows of its own.
fn keeper_of(alloc: Global, conversation: &Conversation) -> Result<MemKeeper, Fault> {
    let rows = first_rows(alloc, conversation)?;
    let fails = List::new(conversation.failing.store.clone()?);
    list_of(alloc, rows.as_slice(), fails)
}

// Plays the runs with the small book, of the first of which a part is played.
fn over_book<R: Threads + Wait + Sync>(
    rt: &R,
    alloc: Global,
    conversation: &Conversation,
    round: &Round,
    part: &Part,
    found: &mut Vec<Difference>,
) -> Result<(), Fault> {
    let link = link_of(alloc, conversation)?;
    let secrets = secrets_of(alloc, conversation)?;
    let spawner = spawner_of(alloc, conversation)?;
    let fails = List::new(conversation.failing.store.clone()?);
    let keeper = book_keeper(alloc, fails)?;
    let objects = Objects {
        link,
        keeper,
        secrets,
        spawner,
    };
    let objects = play_round(rt, alloc, conversation, round, part, objects, found)?;
    play_from(rt, alloc, conversation, 1, objects, found)
}

// Plays the runs with rows of its own.
fn over_rows<R: Threads + Wait + Sync>(
    rt: &R,
    alloc: Global,
    conversation: &Conversation,
    found: &mut Vec<Difference>,
) -> Result<(), Fault> {
    let keeper = keeper_of(alloc, conversation)?;
    let link = link_of(alloc, conversation)?;
    let secrets = secrets_of(alloc, conversation)?;
    let spawner = spawner_of(alloc, conversation)?;
    let objects = Objects {
        link,
        keeper,
        secrets,
        spawner,
    };
    play_from(rt, alloc, conversation, 0, objects, found)
}

// Plays the runs, of the first of which a part is played.
fn play_part<R: Threads + Wait + Sync>(
    rt: &R,
    alloc: Global,
    conversation: &Conversation,
    part: &Part,
    found: &mut Vec<Difference>,
) -> Result<(), Fault> {
    let kept = &conversation.kept;
    match conversation.rounds.first() {
        Some(round) if !kept.empty && kept.first.is_empty() => {
            over_book(rt, alloc, conversation, round, part, found)
        }
        _ => over_rows(rt, alloc, conversation, found),
    }
}

// Plays the first run, cut at each of its lengths until something goes otherwise.
fn play_cuts<R: Threads + Wait + Sync>(
    rt: &R,
    alloc: Global,
    conversation: &Conversation,
    round: &Round,
    found: &mut Vec<Difference>,
) -> Result<(), Fault> {
    let all = round.own.sent.len().saturating_mul(conversation.repeats);
    for length in 0..all {
        if found.is_empty() {
            let part = cut_at(alloc, conversation, round, length)?;
            play_part(rt, alloc, conversation, &part, found)?;
        }
    }
    Ok(())
}

/// What goes otherwise than a conversation says.
pub fn differences<R: Threads + Wait + Sync>(
    rt: &R,
    alloc: Global,
    conversation: &Conversation,
) -> Result<Vec<Difference>, Fault> {
    let mut found = Vec::new(alloc);
    if let Some(round) = conversation.rounds.first() {
        if conversation.cuts {
            play_cuts(rt, alloc, conversation, round, &mut found)?;
        }
        let part = whole(alloc, conversation, round)?;
        play_part(rt, alloc, conversation, &part, &mut found)?;
    }
    Ok(found)
}
