ghost use Rattle.std.specs.Prelude.{◌≡◌, IfOk};
ghost use Rattle.mdl_syntax.specs.Trees.{tree_of};
ghost use Rattle.expression_grammar.specs.inside.Machine.{reduced, around as machine_around};
ghost use Rattle.expression_grammar.specs.inside.Machine.{complete_step as machine_step};
ghost use Rattle.expression_grammar.specs.inside.Machine.{infix_step as machine_infix};
ghost use Rattle.expression_grammar.specs.inside.Machine.{question_step as machine_question};
ghost use Rattle.expression_grammar.specs.inside.Machine.{colon_step as machine_colon, closing_step as machine_closing};
ghost use Rattle.expression_grammar.specs.inside.Machine.{bracket_step as machine_bracket, comma_step as machine_comma};
ghost use Rattle.expression_grammar.specs.inside.Machine.{semicolon_step as machine_semicolon};
ghost use Rattle.expression_grammar.specs.inside.Machine.{longer_let as machine_let};
ghost use Rattle.expression_grammar.specs.inside.Views.{Came, stack_of, let_of, head_of};
ghost use Rattle.expression_grammar.specs.inside.SortViews.{sort_view};
ghost use Rattle.expression_grammar.specs.inside.Machine.{in_index};
ghost use Rattle.expression_grammar.specs.declared.mode.Stop.TheVariants as stop;

use crate::frame::{Frame, Head, Held};
use crate::mode::{Mode, Stop};
use crate::operand::Operand;
use crate::reduce::reduce;
use crate::room::has_room_around;
use crate::sort::Sort;
use mdl_syntax::{Ident, Span, TypeTree};
use std::alloc::{AllocError, Global};

/// The token behind a whole operand.
pub fn complete_step(
    alloc: Global,
    limit: u32,
    operand: Operand,
    frames: &mut Vec<Frame>,
    sort: Sort<'_>,
    place: Span,
) -> Result<Mode, Stop>
    ensures { Came result frames.new.items
        (machine_step limit (tree_of operand) (stack_of frames.old.items) (sort_view sort.entry) place) }
{
    match sort {
        Sort::EitherOperator { op, level } => infix_step(alloc, limit, op, level, operand, frames),
        Sort::BinaryOperator { op, level } => infix_step(alloc, limit, op, level, operand, frames),
        Sort::Question => question_step(alloc, limit, operand, frames),
        Sort::Dot => {
            if !has_room_around(limit, frames.as_slice(), &operand) {
                return Err(Stop::Deep);
            }
            Ok(Mode::FieldWanted(operand))
        }
        Sort::OpeningBracket => index_step(limit, operand, frames),
        Sort::Colon => colon_step(alloc, operand, frames),
        Sort::Closing => closing_step(alloc, operand, frames, place.end),
        Sort::ClosingBracket => bracket_step(alloc, operand, frames, place.end),
        Sort::Comma => comma_step(alloc, operand, frames),
        Sort::Semicolon => semicolon_step(alloc, operand, frames, place.end),
        _ => Err(refused(operand)),
    }
}

/// No expression goes on behind this operand.
pub fn refused(_operand: Operand) -> Stop
    ensures { result ≡ stop.Bad }
{
    Stop::Bad
}

/// An operator between two operands.
#[tactic(auto, using(crate::proofs::StackLaws::stack_laws))]
fn infix_step(
    alloc: Global,
    limit: u32,
    op: u16,
    level: u8,
    operand: Operand,
    frames: &mut Vec<Frame>,
) -> Result<Mode, Stop>
    ensures { Came result frames.new.items
        (machine_infix limit op level (reduced level (tree_of operand) (stack_of frames.old.items))) }
{
    let left = reduce(alloc, level, operand, frames)?;
    if !has_room_around(limit, frames.as_slice(), &left) {
        return Err(Stop::Deep);
    }
    frames.push(Frame::Infix { op, level, left })?;
    Ok(Mode::Wanted)
}

#[tactic(auto, using(crate::proofs::StackLaws::stack_laws))]
fn question_step(
    alloc: Global,
    limit: u32,
    operand: Operand,
    frames: &mut Vec<Frame>,
) -> Result<Mode, Stop>
    ensures { Came result frames.new.items
        (machine_question limit (reduced 2 (tree_of operand) (stack_of frames.old.items))) }
{
    let test = reduce(alloc, 2, operand, frames)?;
    if !has_room_around(limit, frames.as_slice(), &test) {
        return Err(Stop::Deep);
    }
    frames.push(Frame::Question { test })?;
    Ok(Mode::Wanted)
}

#[tactic(auto, using(crate::proofs::StackLaws::stack_laws))]
fn index_step(limit: u32, of: Operand, frames: &mut Vec<Frame>) -> Result<Mode, Stop>
    ensures { Came result frames.new.items
        (machine_around limit (in_index (tree_of of)) (tree_of of) (stack_of frames.old.items)) }
{
    if !has_room_around(limit, frames.as_slice(), &of) {
        return Err(Stop::Deep);
    }
    frames.push(Frame::Index { of })?;
    Ok(Mode::Wanted)
}

/// `:` behind `test ? yes`
#[tactic(auto, using(crate::proofs::StackLaws::stack_laws))]
fn colon_step(alloc: Global, operand: Operand, frames: &mut Vec<Frame>) -> Result<Mode, Stop>
    ensures { Came result frames.new.items
        (machine_colon (reduced 0 (tree_of operand) (stack_of frames.old.items))) }
{
    let yes = reduce(alloc, 0, operand, frames)?;
    match frames.pop() {
        Some(Frame::Question { test }) => {
            frames.push(Frame::Colon { test, yes })?;
            Ok(Mode::Wanted)
        }
        other => Err(bad_frame(other)),
    }
}

/// `)` behind an operand in parentheses, and behind the last argument or element.
#[tactic(auto, using(crate::proofs::StackLaws::stack_laws))]
fn closing_step(
    alloc: Global,
    operand: Operand,
    frames: &mut Vec<Frame>,
    end: u32,
) -> Result<Mode, Stop>
    ensures { Came result frames.new.items
        (machine_closing end (reduced 0 (tree_of operand) (stack_of frames.old.items))) }
{
    let inner = reduce(alloc, 0, operand, frames)?;
    match frames.pop() {
        Some(Frame::Parentheses { at }) => {
            let whole = Operand::parenthesized(alloc, inner, Span { at, end })?;
            Ok(Mode::Complete(whole))
        }
        Some(
            Frame::Arguments {
                name,
                arguments,
                label,
                ..
            },
        ) => {
            let arguments = arguments.with(label, inner)?;
            Ok(Mode::Complete(Operand::call(name, arguments, end)))
        }
        Some(
            Frame::Elements {
                name,
                size,
                elements,
            },
        ) => {
            let elements = elements.with(inner)?;
            Ok(Mode::Complete(Operand::array(name, size, elements, end)))
        }
        other => Err(bad_frame(other)),
    }
}

/// `]` behind an index.
#[tactic(auto, using(crate::proofs::StackLaws::stack_laws))]
fn bracket_step(
    alloc: Global,
    operand: Operand,
    frames: &mut Vec<Frame>,
    end: u32,
) -> Result<Mode, Stop>
    ensures { Came result frames.new.items
        (machine_bracket end (reduced 0 (tree_of operand) (stack_of frames.old.items))) }
{
    let index = reduce(alloc, 0, operand, frames)?;
    match frames.pop() {
        Some(Frame::Index { of }) => {
            let whole = Operand::indexed(alloc, of, index, end)?;
            Ok(Mode::Complete(whole))
        }
        other => Err(bad_frame(other)),
    }
}

/// `,` behind an argument or an element.
#[tactic(auto, using(crate::proofs::StackLaws::stack_laws))]
fn comma_step(alloc: Global, operand: Operand, frames: &mut Vec<Frame>) -> Result<Mode, Stop>
    ensures { Came result frames.new.items
        (machine_comma (reduced 0 (tree_of operand) (stack_of frames.old.items))) }
{
    let one = reduce(alloc, 0, operand, frames)?;
    match frames.pop() {
        Some(
            Frame::Arguments {
                name,
                arguments,
                with_name,
                label,
            },
        ) => {
            let arguments = arguments.with(label, one)?;
            frames.push(Frame::Arguments {
                name,
                arguments,
                with_name,
                label: None,
            })?;
            Ok(Mode::ArgumentWanted)
        }
        Some(
            Frame::Elements {
                name,
                size,
                elements,
            },
        ) => {
            let elements = elements.with(one)?;
            frames.push(Frame::Elements {
                name,
                size,
                elements,
            })?;
            Ok(Mode::Wanted)
        }
        other => Err(bad_frame(other)),
    }
}

/// `;` behind an initializer.
#[tactic(auto, using(crate::proofs::StackLaws::stack_laws))]
fn semicolon_step(
    alloc: Global,
    operand: Operand,
    frames: &mut Vec<Frame>,
    end: u32,
) -> Result<Mode, Stop>
    ensures { Came result frames.new.items
        (machine_semicolon end (reduced 0 (tree_of operand) (stack_of frames.old.items))) }
{
    let value = reduce(alloc, 0, operand, frames)?;
    match frames.pop() {
        Some(
            Frame::Initializer {
                held,
                head,
                ty,
                name,
            },
        ) => {
            let braces = held.braces;
            let held = longer_let(held, head, ty, name, value, end)?;
            frames.push(Frame::Let { held })?;
            Ok(if braces {
                Mode::NextWanted
            } else {
                Mode::InWanted
            })
        }
        other => Err(bad_frame(other)),
    }
}

/// A `let` with one initializer more, which ends here.
fn longer_let(
    held: Held,
    head: Head,
    ty: TypeTree,
    name: Ident,
    value: Operand,
    end: u32,
) -> Result<Held, AllocError>
    ensures { IfOk result (λ longer. let_of longer
        ≡ machine_let (let_of held) (head_of head) ty name (tree_of value) end) }
{
    let span = Span { at: head.at, end };
    let initializers = held
        .initializers
        .with(head.frequency, ty, name, value, span)?;
    Ok(Held {
        at: held.at,
        braces: held.braces,
        initializers,
    })
}

/// No form that is unfinished goes on here.
pub fn bad_frame(_frame: Option<Frame>) -> Stop
    ensures { result ≡ stop.Bad }
{
    Stop::Bad
}
