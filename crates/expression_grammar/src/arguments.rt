ghost use Rattle.std.specs.Prelude.{◌≡◌, IfOk};
ghost use Rattle.mdl_syntax.specs.Trees.{tree_of};
ghost use Rattle.expression_grammar.specs.declared.mode.Stop.TheVariants as stop;
ghost use Rattle.expression_grammar.specs.inside.Machine.{argument_step as machine_argument};
ghost use Rattle.expression_grammar.specs.inside.Machine.{field_step as machine_field};
ghost use Rattle.expression_grammar.specs.inside.Machine.{first_argument_step as machine_first_argument};
ghost use Rattle.expression_grammar.specs.inside.Machine.{labelled_step as machine_labelled, first_part};
ghost use Rattle.expression_grammar.specs.inside.Machine.{identifier_step as machine_identifier};
ghost use Rattle.expression_grammar.specs.inside.Machine.{colon_wanted_step as machine_colon};
ghost use Rattle.expression_grammar.specs.inside.Machine.{first_element_step as machine_first_element};
ghost use Rattle.expression_grammar.specs.inside.Views.{Came, stack_of, path_of, after_named, closed_call};
ghost use Rattle.expression_grammar.specs.inside.Views.{closed_array};
ghost use Rattle.expression_grammar.specs.inside.SortViews.{sort_view};

use crate::complete::{bad_frame, refused};
use crate::frame::Frame;
use crate::mode::{Mode, Path, Purpose, Stop};
use crate::names::part_step;
use crate::operand::Operand;
use crate::room::has_room;
use crate::several::{Arguments, Elements};
use crate::sort::Sort;
use crate::wanted::{ident, wanted_step};
use mdl_syntax::{Ident, Span};
use std::alloc::{AllocError, Global};

/// The first token of an argument. Behind a named one all are named.
#[tactic(auto, using(crate::proofs::StackLaws::stack_laws))]
pub fn argument_step(
    alloc: Global,
    limit: u32,
    frames: &mut Vec<Frame>,
    sort: Sort<'_>,
    place: Span,
) -> Result<Mode, Stop>
    ensures { Came result frames.new.items
        (machine_argument limit (stack_of frames.old.items) (sort_view sort.entry) place) }
{
    let named = is_after_named(frames.as_slice());
    match sort {
        Sort::Identifier(text) => {
            if !has_room(limit, frames.as_slice(), 1) {
                return Err(Stop::Deep);
            }
            let ident = ident(text, place)?;
            Ok(if named {
                Mode::ColonWanted(ident)
            } else {
                Mode::IdentifierRead(ident)
            })
        }
        other => {
            if named {
                return Err(Stop::Bad);
            }
            wanted_step(alloc, limit, frames, other, place)
        }
    }
}

/// Whether this is a list of arguments of which one was named.
#[tactic(auto, using(crate::proofs::StackLaws::stack_laws))]
fn is_after_named(frames: &[Frame]) -> bool
    ensures { result ≡ after_named (stack_of frames.now) }
{
    match frames.split_last() {
        Some((Frame::Arguments { with_name, .. }, _)) => *with_name,
        _ => false,
    }
}

/// The first token of the first argument, or `)`.
#[tactic(auto, using(crate::proofs::StackLaws::stack_laws))]
pub fn first_argument_step(
    alloc: Global,
    limit: u32,
    frames: &mut Vec<Frame>,
    sort: Sort<'_>,
    place: Span,
) -> Result<Mode, Stop>
    ensures { Came result frames.new.items
        (machine_first_argument limit (stack_of frames.old.items) (sort_view sort.entry) place) }
{
    match sort {
        Sort::Closing => close_call(alloc, frames, place.end),
        other => argument_step(alloc, limit, frames, other, place),
    }
}

/// `)` behind `name(`
#[tactic(auto, using(crate::proofs::StackLaws::stack_laws))]
fn close_call(alloc: Global, frames: &mut Vec<Frame>, end: u32) -> Result<Mode, Stop>
    ensures { Came result frames.new.items (closed_call (stack_of frames.old.items) end) }
{
    match frames.pop() {
        Some(Frame::Arguments { name, .. }) => {
            Ok(Mode::Complete(Operand::call(name, Arguments::none(alloc), end)))
        }
        other => Err(bad_frame(other)),
    }
}

/// `:` behind the name of an argument.
#[tactic(auto, using(crate::proofs::StackLaws::stack_laws))]
fn labelled_step(label: Ident, frames: &mut Vec<Frame>) -> Result<Mode, Stop>
    ensures { Came result frames.new.items (machine_labelled label (stack_of frames.old.items)) }
{
    match frames.pop() {
        Some(
            Frame::Arguments {
                name,
                arguments,
                ..
            },
        ) => {
            frames.push(Frame::Arguments {
                name,
                arguments,
                with_name: true,
                label: Some(label),
            })?;
            Ok(Mode::Wanted)
        }
        other => Err(bad_frame(other)),
    }
}

/// The token behind an identifier at the front of an argument.
pub fn identifier_step(
    alloc: Global,
    limit: u32,
    ident: Ident,
    frames: &mut Vec<Frame>,
    sort: Sort<'_>,
    place: Span,
) -> Result<Mode, Stop>
    ensures { Came result frames.new.items
        (machine_identifier limit ident (stack_of frames.old.items) (sort_view sort.entry) place) }
{
    match sort {
        Sort::Colon => labelled_step(ident, frames),
        other => {
            let path = path_from(alloc, ident)?;
            part_step(
                alloc,
                limit,
                Purpose::Expression,
                path,
                frames,
                other,
                place,
            )
        }
    }
}

/// A name of this identifier.
fn path_from(alloc: Global, ident: Ident) -> Result<Path, AllocError>
    ensures { IfOk result (λ path. path_of path ≡ first_part ident.text ident.span) }
{
    let span = ident.span;
    let mut parts = Vec::with_capacity(alloc, 1)?;
    parts.push(ident)?;
    Ok(Path {
        absolute: false,
        parts,
        span,
    })
}

/// The token behind an identifier that has to name an argument.
pub fn colon_wanted_step(
    ident: Ident,
    frames: &mut Vec<Frame>,
    sort: Sort<'_>,
) -> Result<Mode, Stop>
    ensures { Came result frames.new.items
        (machine_colon ident (stack_of frames.old.items) (sort_view sort.entry)) }
{
    match sort {
        Sort::Colon => labelled_step(ident, frames),
        _ => Err(refused_ident(ident)),
    }
}

fn refused_ident(_ident: Ident) -> Stop
    ensures { result ≡ stop.Bad }
{
    Stop::Bad
}

/// The first token of the first element, or `)`.
#[tactic(auto, using(crate::proofs::StackLaws::stack_laws))]
pub fn first_element_step(
    alloc: Global,
    limit: u32,
    frames: &mut Vec<Frame>,
    sort: Sort<'_>,
    place: Span,
) -> Result<Mode, Stop>
    ensures { Came result frames.new.items
        (machine_first_element limit (stack_of frames.old.items) (sort_view sort.entry) place) }
{
    match sort {
        Sort::Closing => close_array(alloc, frames, place.end),
        other => wanted_step(alloc, limit, frames, other, place),
    }
}

/// `)` behind `name[3](`
#[tactic(auto, using(crate::proofs::StackLaws::stack_laws))]
fn close_array(alloc: Global, frames: &mut Vec<Frame>, end: u32) -> Result<Mode, Stop>
    ensures { Came result frames.new.items (closed_array (stack_of frames.old.items) end) }
{
    match frames.pop() {
        Some(Frame::Elements { name, size, .. }) => {
            let elements = Elements::none(alloc);
            Ok(Mode::Complete(Operand::array(name, size, elements, end)))
        }
        other => Err(bad_frame(other)),
    }
}

/// The name of a field.
pub fn field_step(
    alloc: Global,
    of: Operand,
    frames: &Vec<Frame>,
    sort: Sort<'_>,
    place: Span,
) -> Result<Mode, Stop>
    ensures { Came result frames.now.items
        (machine_field (tree_of of) (stack_of frames.now.items) (sort_view sort.entry) place) }
{
    match sort {
        Sort::Identifier(text) => {
            let name = ident(text, place)?;
            let whole = Operand::field(alloc, of, name)?;
            Ok(Mode::Complete(whole))
        }
        _ => Err(refused(of)),
    }
}
