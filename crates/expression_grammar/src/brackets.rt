ghost use Rattle.std.specs.Prelude.{◌≡◌, false, Err, IfOk};
ghost use Rattle.mdl_syntax.specs.Trees.{tree_of};
ghost use Rattle.expression_grammar.specs.declared.mode.Stop.TheVariants as stop;
ghost use Rattle.expression_grammar.specs.inside.Machine.{bracketed_step as machine_bracketed};
ghost use Rattle.expression_grammar.specs.inside.Machine.{sized_step as machine_sized};
ghost use Rattle.expression_grammar.specs.inside.Machine.{sized_closed_step as machine_sized_closed, indexed_tree};
ghost use Rattle.expression_grammar.specs.inside.Machine.{unsized_closed_step as machine_unsized};
ghost use Rattle.expression_grammar.specs.inside.Views.{Came, stack_of, UnlessBad};
ghost use Rattle.expression_grammar.specs.inside.SortViews.{sort_view};

use crate::complete::complete_step;
use crate::frame::Frame;
use crate::mode::{Mode, Stop};
use crate::names::refused_name;
use crate::operand::Operand;
use crate::room::has_room;
use crate::several::Elements;
use crate::sort::Sort;
use crate::wanted::wanted_step;
use mdl_syntax::{Lit, Name, Span};
use std::alloc::{AllocError, Global};

/// The token behind `name[`: a size, or the first token of an index.
#[tactic(auto, using(crate::proofs::StackLaws::stack_laws))]
pub fn bracketed_step(
    alloc: Global,
    limit: u32,
    name: Name,
    frames: &mut Vec<Frame>,
    sort: Sort<'_>,
    place: Span,
) -> Result<Mode, Stop>
    ensures { Came result frames.new.items
        (machine_bracketed limit name (stack_of frames.old.items) (sort_view sort.entry) place) }
{
    match sort {
        Sort::ClosingBracket => Ok(Mode::UnsizedClosed(name)),
        Sort::Integer(value) => Ok(Mode::Sized {
            name,
            value,
            at: place,
        }),
        other => {
            let of = Operand::name(name);
            frames.push(Frame::Index { of })?;
            wanted_step(alloc, limit, frames, other, place)
        }
    }
}

/// The token behind `name[3`: `3` is a size, or the first token of an index.
#[tactic(auto, using(crate::proofs::StackLaws::stack_laws))]
pub fn sized_step(
    alloc: Global,
    limit: u32,
    name: Name,
    value: u32,
    at: Span,
    frames: &mut Vec<Frame>,
    sort: Sort<'_>,
    place: Span,
) -> Result<Mode, Stop>
    ensures { Came result frames.new.items
        (machine_sized limit name value at (stack_of frames.old.items) (sort_view sort.entry) place) }
{
    match sort {
        Sort::ClosingBracket => Ok(Mode::SizedClosed {
            name,
            value,
            at,
            end: place.end,
        }),
        other => {
            let of = Operand::name(name);
            frames.push(Frame::Index { of })?;
            let index = Operand::literal(Lit::Int(value), at);
            complete_step(alloc, limit, index, frames, other, place)
        }
    }
}

/// The token behind `name[3]`: `(` begins elements, and behind all others it is an index.
#[tactic(auto, using(crate::proofs::StackLaws::stack_laws))]
pub fn sized_closed_step(
    alloc: Global,
    limit: u32,
    name: Name,
    value: u32,
    at: Span,
    end: u32,
    frames: &mut Vec<Frame>,
    sort: Sort<'_>,
    place: Span,
) -> Result<Mode, Stop>
    ensures { Came result frames.new.items
        (machine_sized_closed limit name value at end (stack_of frames.old.items) (sort_view sort.entry) place) }
{
    match sort {
        Sort::Opening => {
            let elements = Elements::none(alloc);
            frames.push(Frame::Elements {
                name,
                size: Some(value),
                elements,
            })?;
            Ok(Mode::FirstElement)
        }
        other => {
            let fits = has_room(limit, frames.as_slice(), 2);
            let operand = constant_index(alloc, name, value, at, end)?;
            let made = complete_step(alloc, limit, operand, frames, other, place);
            unless_bad(fits, made)
        }
    }
}

/// `name[3]`, where the bracket ends here.
pub fn constant_index(
    alloc: Global,
    name: Name,
    value: u32,
    at: Span,
    end: u32,
) -> Result<Operand, AllocError>
    ensures { IfOk result (λ whole. tree_of whole ≡ indexed_tree name value at end) }
{
    let index = Operand::literal(Lit::Int(value), at);
    Operand::indexed(alloc, Operand::name(name), index, end)
}

/// What comes of a token that goes on, where there is room for it or not.
fn unless_bad(fits: bool, made: Result<Mode, Stop>) -> Result<Mode, Stop>
    ensures { UnlessBad fits made result }
{
    if fits {
        return made;
    }
    match made {
        Ok(mode) => Err(too_deep(mode)),
        Err(stop) => Err(bad_or_deep(stop)),
    }
}

/// There is no room for what goes on.
fn too_deep(_mode: Mode) -> Stop
    ensures { result ≡ stop.Deep }
{
    Stop::Deep
}

fn bad_or_deep(why: Stop) -> Stop
    ensures { UnlessBad false (Err why) (Err result) }
{
    match why {
        Stop::Bad => Stop::Bad,
        Stop::OutOfMemory => Stop::OutOfMemory,
        Stop::Deep => Stop::Deep,
        Stop::LeftOut(_) => Stop::Deep,
    }
}

/// The token behind `name[]`.
#[tactic(auto, using(crate::proofs::StackLaws::stack_laws))]
pub fn unsized_closed_step(
    alloc: Global,
    name: Name,
    frames: &mut Vec<Frame>,
    sort: Sort<'_>,
) -> Result<Mode, Stop>
    ensures { Came result frames.new.items
        (machine_unsized name (stack_of frames.old.items) (sort_view sort.entry)) }
{
    match sort {
        Sort::Opening => {
            let elements = Elements::none(alloc);
            frames.push(Frame::Elements {
                name,
                size: None,
                elements,
            })?;
            Ok(Mode::FirstElement)
        }
        _ => Err(refused_name(name)),
    }
}
