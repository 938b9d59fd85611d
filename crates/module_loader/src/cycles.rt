ghost use Rattle.std.specs.Prelude.{◌≡◌, ◌<◌, [], ◌∷◌, length, slice_index_or, IfOk};
ghost use Rattle.module_loader.specs.inside.Distances.{links_of, is_step, near, reached_at, reached, Measured, away};
ghost use Rattle.module_loader.specs.inside.Distances.{way_from, least_next, lesser};
ghost use Rattle.module_loader.specs.inside.Distances.{IsFirstOrNone};

use crate::linked::Linked;
use crate::numbers::{all_less, numbers};
use std::alloc::{AllocError, Global};

/// The first of the cycles among modules, as the indices of its modules: one that begins at the least index that lies
/// on any, of these a shortest one, and of these the one whose indices are least.
pub fn first_cycle(alloc: Global, all: &[Linked]) -> Result<Option<Vec<usize>>, AllocError>
    ensures { IfOk result (λ found. IsFirstOrNone (links_of all.now) found) }
{
    let numbers = numbers(alloc, all)?;
    for start in 0..all.len() {
        if all_less(all, &numbers, start) {
            continue;
        }
        let distances = distances(alloc, all, start)?;
        if away(start, &distances) < all.len() {
            let cycle = cycle_through(alloc, all, &distances, start)?;
            return Ok(Some(cycle));
        }
    }
    Ok(None)
}

/// How many modules stand between each module and one on a shortest import path; as many as there are, where no
/// path leads to it.
fn distances(alloc: Global, all: &[Linked], to: usize) -> Result<Vec<usize>, AllocError>
    ensures { IfOk result (λ found. Measured (links_of all.now) to found.items) }
{
    let mut distances = vec![in alloc; all.len(); all.len()]?;
    let mut between = 0;
    loop {
        let next = reached(alloc, all, to, &distances, between)?;
        if next == distances {
            return Ok(distances);
        }
        distances = next;
        between += 1;
    }
}

/// The least of the shortest cycles through a module, from which the distances are.
fn cycle_through(
    alloc: Global,
    all: &[Linked],
    distances: &[usize],
    start: usize,
) -> Result<Vec<usize>, AllocError>
    requires { length distances.now ≡ length all.now }
    ensures { IfOk result (λ cycle. cycle.items ≡ start ∷ way_from (links_of all.now) distances.now
        (away (length distances.now) distances.now start) start) }
{
    let mut cycle = Vec::new(alloc);
    cycle.push(start)?;
    let mut at = start;
    let mut between = away(start, distances);
    while between > 0 {
        between -= 1;
        let Some(next) = least_next(imports_at(all, at), distances, between) else {
            return Ok(cycle);
        };
        cycle.push(next)?;
        at = next;
    }
    Ok(cycle)
}

/// The modules that one imports.
pub fn imports_at(all: &[Linked], index: usize) -> &[usize]
    ensures { result.now ≡ slice_index_or (links_of all.now) index [] }
{
    match all.get(index) {
        Some(one) => one.imports.as_slice(),
        None => &[],
    }
}

/// The least of the modules that are so far.
fn least_next(targets: &[usize], distances: &[usize], between: usize) -> Option<usize>
    ensures { result ≡ least_next (length distances.now) distances.now between targets.now }
{
    let mut least = None;
    for index in 0..targets.len() {
        let target = targets[targets.len() - 1 - index];
        if away(target, distances) == between {
            least = Some(lesser(target, least));
        }
    }
    least
}

fn lesser(one: usize, other: Option<usize>) -> usize
    ensures { result ≡ lesser one other }
{
    match other {
        Some(other) => { if other < one { other } else { one } }
        None => one,
    }
}

fn away(index: usize, distances: &[usize]) -> usize
    ensures { result ≡ away (length distances.now) distances.now index }
{
    match distances.get(index) {
        Some(own) => *own,
        None => distances.len(),
    }
}

/// The distances, with those of modules from which so many stand between.
fn reached(
    alloc: Global,
    all: &[Linked],
    to: usize,
    distances: &[usize],
    between: usize,
) -> Result<Vec<usize>, AllocError>
    requires { length distances.now ≡ length all.now }
    ensures { IfOk result (λ found. found.items
        ≡ reached (length all.now) to distances.now between (links_of all.now) distances.now) }
{
    let mut found = Vec::new(alloc);
    for index in 0..all.len() {
        let next = reached_at(
            &all[index].imports,
            to,
            distances,
            between,
            distances[index],
        );
        found.push(next)?;
    }
    Ok(found)
}

fn reached_at(
    targets: &[usize],
    to: usize,
    distances: &[usize],
    between: usize,
    own: usize,
) -> usize
    ensures { result ≡ reached_at (length distances.now) to distances.now between targets.now own }
{
    if own != distances.len() {
        return own;
    }
    if near(targets, to, distances, between) {
        between
    } else {
        own
    }
}

/// Whether over one of these imports so many modules stand between.
fn near(targets: &[usize], to: usize, distances: &[usize], between: usize) -> bool
    ensures { result ≡ near (length distances.now) to distances.now between targets.now }
{
    targets
        .iter()
        .any(|target| is_step(*target, to, distances, between))
}

fn is_step(target: usize, to: usize, distances: &[usize], between: usize) -> bool
    ensures { result ≡ is_step (length distances.now) to distances.now between target }
{
    if between == 0 {
        return target == to;
    }
    match distances.get(target) {
        Some(own) => *own == between - 1,
        None => distances.len() == between - 1,
    }
}
