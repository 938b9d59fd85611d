ghost use Rattle.std.specs.Prelude.{◌≡◌, true, IfOk};
ghost use Rattle.std.specs.List.{list_all};
ghost use Rattle.module_loader.specs.inside.Distances.{links_of};
ghost use Rattle.module_loader.specs.inside.Numbers.{RisesNot, RisesNotAt, all_less, is_less, is_no_greater, number};

use crate::cycles::imports_at;
use crate::linked::Linked;
use std::alloc::{AllocError, Global};

/// Numbers of modules that rise along no import. Modules have the same number where import paths lead from each to the
/// other, unless the numbers that were found fail their test: then each is 0.
pub fn numbers(alloc: Global, all: &[Linked]) -> Result<Vec<usize>, AllocError>
    ensures { IfOk result (λ numbers. RisesNot (links_of all.now) numbers.items) }
{
    let numbers = found_numbers(alloc, all)?;
    if rise_not(all, &numbers) {
        return Ok(numbers);
    }
    let none = Vec::new(alloc);
    Ok(none)
}

/// Whether the numbers rise along no import.
fn rise_not(all: &[Linked], numbers: &[usize]) -> bool
    ensures { result ≡ true → RisesNot (links_of all.now) numbers.now }
{
    for index in 0..all.len() {
        if !rises_not(all, numbers, index) {
            return false;
        }
    }
    true
}

fn rises_not(all: &[Linked], numbers: &[usize], index: usize) -> bool
    ensures { result ≡ true → RisesNotAt (links_of all.now) numbers.now index }
{
    are_no_greater(numbers, number(index, numbers), imports_at(all, index))
}

fn are_no_greater(numbers: &[usize], own: usize, targets: &[usize]) -> bool
    ensures { result ≡ list_all (is_no_greater numbers.now own) targets.now }
{
    targets
        .iter()
        .all(|target| is_no_greater(numbers, own, *target))
}

fn is_no_greater(numbers: &[usize], own: usize, target: usize) -> bool
    ensures { result ≡ is_no_greater numbers.now own target }
{
    number(target, numbers) <= own
}

/// Whether all that a module imports have less numbers. Then it lies on no cycle.
pub fn all_less(all: &[Linked], numbers: &[usize], index: usize) -> bool
    ensures { result ≡ all_less (links_of all.now) numbers.now index }
{
    are_less(numbers, number(index, numbers), imports_at(all, index))
}

fn are_less(numbers: &[usize], own: usize, targets: &[usize]) -> bool
    ensures { result ≡ list_all (is_less numbers.now own) targets.now }
{
    targets.iter().all(|target| is_less(numbers, own, *target))
}

fn is_less(numbers: &[usize], own: usize, target: usize) -> bool
    ensures { result ≡ is_less numbers.now own target }
{
    number(target, numbers) < own
}

/// The number of a module.
fn number(index: usize, numbers: &[usize]) -> usize
    ensures { result ≡ number numbers.now index }
{
    match numbers.get(index) {
        Some(own) => *own,
        None => 0,
    }
}

/// A walk over the modules, in depth first, that numbers the strongly connected components in the order in which they
/// end. What it finds is tested, so no clause speaks of it.
#[derive(Drop)]
struct Walk {
    /// The number of each module's component, or 0 where it hasn't ended.
    numbers: Vec<usize>,
    /// The order in which modules were first seen, from 1 on.
    order: Vec<usize>,
    /// The least order of the modules that one is known to reach, of those without a number.
    least: Vec<usize>,
    /// The modules that were seen and have no number.
    waiting: Vec<usize>,
    /// The modules that are open, each with the place of the import that is next.
    open: Vec<(usize, usize)>,
    seen: usize,
    ended: usize,
}

fn found_numbers(alloc: Global, all: &[Linked]) -> Result<Vec<usize>, AllocError> {
    let mut walk = Walk {
        numbers: vec![in alloc; 0; all.len()]?,
        order: vec![in alloc; 0; all.len()]?,
        least: vec![in alloc; 0; all.len()]?,
        waiting: Vec::new(alloc),
        open: Vec::new(alloc),
        seen: 0,
        ended: 0,
    };
    for root in 0..all.len() {
        walk.visit(root)?;
        walk.run(all)?;
    }
    Ok(walk.numbers)
}

fn set(numbers: &mut [usize], index: usize, number: usize) {
    if let Some(own) = numbers.get_mut(index) {
        *own = number;
    }
}

impl Walk {
    /// Opens a module, unless it was seen.
    fn visit(&mut self, index: usize) -> Result<(), AllocError> {
        if number(index, &self.order) > 0 {
            return Ok(());
        }
        self.seen = self.seen.saturating_add(1);
        set(&mut self.order, index, self.seen);
        set(&mut self.least, index, self.seen);
        self.waiting.push(index)?;
        self.open.push((index, 0))?;
        Ok(())
    }

    /// Goes on until no module is open.
    fn run(&mut self, all: &[Linked]) -> Result<(), AllocError> {
        for _ in 0..u64::MAX {
            let Some((index, next)) = self.open.pop() else {
                return Ok(());
            };
            match imports_at(all, index).get(next) {
                Some(target) => {
                    self.open.push((index, next.saturating_add(1)))?;
                    self.visit(*target)?;
                    self.lower(index, *target);
                }
                None => self.close(index),
            }
        }
        Ok(())
    }

    /// Takes in what a module reaches over another that has no number yet.
    fn lower(&mut self, index: usize, target: usize) {
        if number(target, &self.numbers) > 0 {
            return;
        }
        let least = number(index, &self.least).min(number(target, &self.least));
        set(&mut self.least, index, least);
    }

    /// Ends a module: it is the first of its component, or its component waits for one that was seen before it.
    fn close(&mut self, index: usize) {
        if number(index, &self.least) == number(index, &self.order) {
            self.end_component(index);
        }
        if let Some((importer, _)) = self.open.last() {
            let importer = *importer;
            self.lower(importer, index);
        }
    }

    /// Numbers the modules that were seen from this one on and wait.
    fn end_component(&mut self, first: usize) {
        self.ended = self.ended.saturating_add(1);
        for _ in 0..self.waiting.len() {
            let Some(member) = self.waiting.pop() else {
                return;
            };
            set(&mut self.numbers, member, self.ended);
            if member == first {
                return;
            }
        }
    }
}
