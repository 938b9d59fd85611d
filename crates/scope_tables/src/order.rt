ghost use Rattle.std.specs.Prelude.{◌≡◌, ◌<◌, ◌∷◌, length, map, reverse, slice_get, IfOk, IsSome};
ghost use Rattle.module_set.specs.Cycles.{HasNoCycle};
ghost use Rattle.scope_tables.specs.inside.Order.{AreWithin, IsOrder};
ghost use Rattle.scope_tables.specs.inside.Ordering.{links_of, targets_of, IsWalk, Visits, Steps, Ends};

use std::alloc::{AllocError, Global};

/// The modules in an order in which each stands behind all that it imports. No import path may lead from a module to
/// itself.
pub fn order(alloc: Global, links: &[Vec<usize>]) -> Result<Vec<usize>, AllocError>
    requires within { AreWithin (map (λ targets. targets.items) links.now) }
    requires acyclic { HasNoCycle (map (λ targets. targets.items) links.now) }
    ensures { IfOk result (λ order. IsOrder (map (λ targets. targets.items) links.now) order.items) }
{
    let seen = vec![in alloc; false; links.len()]?;
    let done = Vec::with_capacity(alloc, links.len())?;
    let mut walk = Walk {
        seen,
        opened: Vec::new(alloc),
        done,
    };
    for root in 0..links.len() {
        walk.visit(root)?;
        walk.run(links)?;
    }
    Ok(walk.done)
}

/// A walk over the modules, in depth first.
#[derive(Drop)]
struct Walk {
    seen: Vec<bool>,
    /// The modules that are open. Each but the first is imported by the one before it.
    opened: Vec<Opened>,
    /// Those that have ended.
    done: Vec<usize>,
}

/// An open module, with the place of the import that is next.
#[derive(Clone, Copy)]
struct Opened {
    index: usize,
    next: usize,
}

impl Walk {
    /// Opens a module, unless it was seen.
    fn visit(&mut self, index: usize) -> Result<(), AllocError>
        requires { index < length self.old.seen.items }
        ensures { IfOk result (λ _. Visits self.old index self.new) }
    {
        if self.seen[index] {
            return Ok(());
        }
        self.seen[index] = true;
        self.opened.push(Opened { index, next: 0 })?;
        Ok(())
    }

    /// Goes on until no module is open.
    fn run(&mut self, links: &[Vec<usize>]) -> Result<(), AllocError>
        requires within { AreWithin (links_of links.now) }
        requires acyclic { HasNoCycle (links_of links.now) }
        requires walk { IsWalk (links_of links.now) self.old.seen.items (reverse self.old.opened.items)
            self.old.done.items }
        ensures { IfOk result (λ _. Ends (links_of links.now) self.old self.new) }
    {
        'steps: while let Some(last) = self.opened.pop() {
            self.step(links, last)?;
        }
        Ok(())
    }

    /// Goes on at the module that was open last: opens what it imports next, or ends it.
    fn step(&mut self, links: &[Vec<usize>], last: Opened) -> Result<(), AllocError>
        requires within { AreWithin (links_of links.now) }
        requires acyclic { HasNoCycle (links_of links.now) }
        requires walk { IsWalk (links_of links.now) self.old.seen.items (last ∷ reverse self.old.opened.items)
            self.old.done.items }
        ensures { IfOk result (λ _. Steps (links_of links.now) self.old last self.new) }
    {
        match target(links, last.index, last.next) {
            Some(target) => {
                self.opened.push(Opened {
                    index: last.index,
                    next: last.next + 1,
                })?;
                self.visit(target)?;
                Ok(())
            }
            None => {
                self.done.push(last.index)?;
                Ok(())
            }
        }
    }
}

/// What a module imports at a place.
fn target(links: &[Vec<usize>], index: usize, next: usize) -> Option<usize>
    ensures is { result ≡ slice_get (targets_of (links_of links.now) index) next }
    ensures few { IsSome result → next < usize.MAX }
{
    let targets = targets_at(links, index);
    if next < targets.len() {
        Some(targets[next])
    } else {
        None
    }
}

fn targets_at(links: &[Vec<usize>], index: usize) -> &[usize]
    ensures { result.now ≡ targets_of (links_of links.now) index }
{
    match links.get(index) {
        Some(targets) => targets.as_slice(),
        None => &[],
    }
}
