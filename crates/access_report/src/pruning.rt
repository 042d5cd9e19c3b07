//! Leaving out the steps on which nothing rests.

ghost use Rattle.std.specs.Prelude.{◌≡◌, ◌⊎◌, ◌≤◌, ◌<◌, ◌+◌, ◌∷◌, ◌++◌, [], ℕ, Some, Contains, IfOk, OnOk, length, slice_get, slice_index_or, false};
ghost use Rattle.access_report.specs.Pruning.{AreMarks, AreMoved, IsKeptAs, IsKeptIf, IsMarked, IsMarkedAt, IsNamed, IsPruned};

use crate::step::Step;
use host_base::Memory;
use plain_data::List;
use std::alloc::Global;

// Marks a place, if it stands before another one.
fn mark(marks: &mut [bool], place: usize, at: usize)
    requires { place ≤ length marks.old }
    ensures same { (k : ℕ) → place ≤ k
        → slice_index_or marks.new k false ≡ slice_index_or marks.old k false }
    ensures keeps { (k : ℕ) → IsMarked marks.old k → IsMarked marks.new k }
    ensures marked { at < place → IsMarked marks.new at }
    ensures only { (k : ℕ) → IsMarked marks.new k → IsMarked marks.old k ⊎ ((at ≡ k) × (k < place)) }
{
    if at < place {
        marks[at] = true;
    }
}

// Marks the places of a list that stand before a place.
fn mark_all(marks: &mut [bool], place: usize, from: &[u32])
    requires { place ≤ length marks.old }
    ensures same { (k : ℕ) → place ≤ k
        → slice_index_or marks.new k false ≡ slice_index_or marks.old k false }
    ensures keeps { (k : ℕ) → IsMarked marks.old k → IsMarked marks.new k }
    ensures marked { (p : ℕ) → Contains from.now p → p < place → IsMarked marks.new p }
    ensures only { (k : ℕ) → IsMarked marks.new k → IsMarked marks.old k
        ⊎ (Contains from.now k × (k < place)) }
{
    for at in from {
        mark(marks, place, *at as usize);
    }
}

// Marks what the step at a place rests on, if it is marked.
fn mark_from(marks: &mut [bool], steps: &[Step], place: usize)
    requires within { place < length marks.old }
    requires steps { length marks.old ≤ length steps.now }
    ensures same { (k : ℕ) → place ≤ k
        → slice_index_or marks.new k false ≡ slice_index_or marks.old k false }
    ensures keeps { (k : ℕ) → IsMarked marks.old k → IsMarked marks.new k }
    ensures marked { IsMarkedAt steps.now marks.new place }
    ensures only { (k : ℕ) → IsMarked marks.new k → IsMarked marks.old k ⊎ IsNamed steps.now marks.new k }
{
    if marks[place] {
        mark_all(marks, place, steps[place].from.as_slice());
    }
}

// Marks each step on which a marked one rests, from the last one to the first.
fn mark_back(marks: &mut [bool], steps: &[Step])
    requires { length marks.old ≤ length steps.now }
    ensures keeps { (k : ℕ) → IsMarked marks.old k → IsMarked marks.new k }
    ensures closed { (i : ℕ) → IsMarkedAt steps.now marks.new i }
    ensures only { (k : ℕ) → IsMarked marks.new k → IsMarked marks.old k ⊎ IsNamed steps.now marks.new k }
{
    let count = marks.len();
    for back in 0..count {
        mark_from(marks, steps, count - 1 - back);
    }
}

// A mark on the last of so many places and one.
fn one_mark(alloc: Global, last: usize) -> Result<Vec<bool>, Memory>
    ensures long { IfOk result (λ marks. length marks.items ≡ last + 1) }
    ensures marked { IfOk result (λ marks. IsMarked marks.items last) }
    ensures only { IfOk result (λ marks. (k : ℕ) → IsMarked marks.items k → k ≡ last) }
{
    let mut marks = vec![in alloc; false; last]?;
    marks.push(true)?;
    Ok(marks)
}

// Marks on the steps up to a last one: on that one, and on each on which one that is marked rests.
fn marks_for(alloc: Global, steps: &[Step], last: usize) -> Result<Vec<bool>, Memory>
    requires { last < length steps.now }
    ensures { IfOk result (λ marks. AreMarks steps.now last marks.items) }
{
    let mut marks = one_mark(alloc, last)?;
    mark_back(marks.as_mut_slice(), steps);
    Ok(marks)
}

// Adds where a place was moved to, if it was.
fn add_moved(places: &[usize], at: u32, to: &mut Vec<u32>) -> Result<(), Memory>
    ensures keeps { OnOk result ((p : ℕ) → Contains to.old.items p → Contains to.new.items p) }
    ensures there { OnOk result ((k : ℕ) → slice_get places.now at ≡ Some k → Contains to.new.items k) }
{
    let Some(place) = places.get(at as usize) else {
        return Ok(());
    };
    let Ok(place) = u32::try_from(*place) else {
        return Err(Memory);
    };
    to.push(place)?;
    Ok(())
}

// Where the places of a list were moved to.
fn moved(alloc: Global, places: &[usize], from: &[u32]) -> Result<Vec<u32>, Memory>
    ensures { IfOk result (λ to. AreMoved places.now from.now to.items) }
{
    let mut to = Vec::new(alloc);
    for at in from {
        add_moved(places, *at, &mut to)?;
    }
    Ok(to)
}

// Adds a step to a list.
fn add_step(steps: &mut Vec<Step>, step: Step) -> Result<(), Memory>
    ensures { OnOk result (steps.new.items ≡ steps.old.items ++ step ∷ []) }
{
    match steps.push(step) {
        Ok(_) => Ok(()),
        Err(_) => Err(Memory),
    }
}

// Adds a step, with its places as they were moved.
fn keep(alloc: Global, kept: &mut Vec<Step>, places: &[usize], step: &Step) -> Result<(), Memory>
    ensures { OnOk result (IsKeptAs places.now step.now kept.old.items kept.new.items) }
{
    let to = moved(alloc, places, step.from.as_slice())?;
    add_step(
        kept,
        Step {
            node: step.node,
            fact: step.fact,
            grant: step.grant,
            from: List::new(to),
        },
    )?;
    Ok(())
}

// Adds it where it is marked.
fn keep_if(
    alloc: Global,
    kept: &mut Vec<Step>,
    places: &[usize],
    step: &Step,
    marked: bool,
) -> Result<(), Memory>
    ensures { OnOk result (IsKeptIf marked places.now step.now kept.old.items kept.new.items) }
{
    if !marked {
        return Ok(());
    }
    keep(alloc, kept, places, step)?;
    Ok(())
}

// The steps that are marked, with their places as they are among these.
fn kept_by(alloc: Global, steps: &[Step], last: usize, marks: &[bool]) -> Result<Vec<Step>, Memory>
    requires within { last < length steps.now }
    requires marks { AreMarks steps.now last marks.now }
    ensures { IfOk result (λ kept. IsPruned steps.now last kept.items) }
{
    let mut kept = Vec::new(alloc);
    let mut places = Vec::new(alloc);
    for place in 0..marks.len() {
        let next = kept.len();
        keep_if(
            alloc,
            &mut kept,
            places.as_slice(),
            &steps[place],
            marks[place],
        )?;
        places.push(next)?;
    }
    Ok(kept)
}

/// The steps up to a last one on which that one rests, with their places as they are among these.
pub fn pruned(alloc: Global, steps: &[Step], last: usize) -> Result<Vec<Step>, Memory>
    requires { last < length steps.now }
    ensures { IfOk result (λ kept. IsPruned steps.now last kept.items) }
{
    let marks = marks_for(alloc, steps, last)?;
    kept_by(alloc, steps, last, marks.as_slice())
}
