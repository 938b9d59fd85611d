ghost use Rattle.std.specs.Prelude.{◌≡◌, [], ◌∷◌, IfOk};
ghost use Rattle.mdl_syntax.specs.Trees.{literal};
ghost use Rattle.expression_grammar.specs.inside.Machine.{asked, wanted_step as machine_step, let_step as machine_let};
ghost use Rattle.expression_grammar.specs.inside.Machine.{first_part as machine_part};
ghost use Rattle.expression_grammar.specs.inside.Machine.{absolute_path as machine_absolute};
ghost use Rattle.expression_grammar.specs.inside.Machine.{word_name as machine_name};
ghost use Rattle.expression_grammar.specs.inside.Machine.{within, goes, complete, wanted};
ghost use Rattle.expression_grammar.specs.inside.Views.{Came, stack_of, frame_of, path_of};
ghost use Rattle.expression_grammar.specs.inside.SortViews.{sort_view};

use crate::frame::Frame;
use crate::mode::{Mode, Path, Purpose, Stop};
use crate::operand::Operand;
use crate::room::has_room;
use crate::sort::Sort;
use case_table::Text;
use mdl_syntax::{Ident, Lit, Name, NameForm, Span};
use std::alloc::{AllocError, Global};

/// The first token of an operand.
#[tactic(auto, using(crate::proofs::StackLaws::stack_laws))]
pub fn wanted_step(
    alloc: Global,
    limit: u32,
    frames: &mut Vec<Frame>,
    sort: Sort<'_>,
    place: Span,
) -> Result<Mode, Stop>
    ensures { Came result frames.new.items
        (machine_step limit (stack_of frames.old.items) (sort_view sort.entry) place) }
{
    match sort {
        Sort::Identifier(text) => {
            if !has_room(limit, frames.as_slice(), 1) {
                return Err(Stop::Deep);
            }
            let path = first_part(alloc, text, place)?;
            Ok(Mode::PartRead {
                purpose: Purpose::Expression,
                path,
            })
        }
        Sort::Integer(value) => leaf(limit, frames.as_slice(), Lit::Int(value), place),
        Sort::Bool(value) => leaf(limit, frames.as_slice(), Lit::Bool(value), place),
        Sort::Real { text, double } => {
            let text = text.clone()?;
            leaf(limit, frames.as_slice(), Lit::Real { text, double }, place)
        }
        Sort::Str(text) => {
            let text = text.clone()?;
            leaf(limit, frames.as_slice(), Lit::Str(text), place)
        }
        Sort::TypeWord(number) => {
            if !has_room(limit, frames.as_slice(), 1) {
                return Err(Stop::Deep);
            }
            Ok(Mode::WordRead {
                purpose: Purpose::Expression,
                name: word_name(number, place),
            })
        }
        Sort::DoubleColon => {
            if !has_room(limit, frames.as_slice(), 1) {
                return Err(Stop::Deep);
            }
            Ok(Mode::PartWanted {
                purpose: Purpose::Expression,
                path: absolute_path(alloc, place),
            })
        }
        Sort::Opening => enter(limit, frames, Frame::Parentheses { at: place.at }),
        Sort::UnaryOperator(op) => enter(limit, frames, Frame::Unary { op, at: place.at }),
        Sort::EitherOperator { op, .. } => enter(limit, frames, Frame::Unary { op, at: place.at }),
        Sort::Let => let_step(limit, frames.as_slice(), place.at),
        _ => Err(Stop::Bad),
    }
}

/// A name of one identifier.
pub fn first_part(alloc: Global, text: &Text, place: Span) -> Result<Path, AllocError>
    ensures { IfOk result (λ path. path_of path ≡ machine_part text.now place) }
{
    let mut parts = Vec::with_capacity(alloc, 1)?;
    parts.push(ident(text, place)?)?;
    Ok(Path {
        absolute: false,
        parts,
        span: place,
    })
}

/// The front of an absolute name.
pub fn absolute_path(alloc: Global, place: Span) -> Path
    ensures { path_of result ≡ machine_absolute place }
{
    Path {
        absolute: true,
        parts: Vec::new(alloc),
        span: place,
    }
}

/// The name of a type that is a reserved word.
pub fn word_name(number: u16, place: Span) -> Name
    ensures { result ≡ machine_name number place }
{
    Name {
        form: NameForm::Word(number),
        span: place,
    }
}

pub fn ident(text: &Text, place: Span) -> Result<Ident, AllocError>
    ensures { IfOk result (λ ident. ident ≡ record { text = text.now; span = place }) }
{
    let text = text.clone()?;
    Ok(Ident { text, span: place })
}

/// A literal.
fn leaf(limit: u32, frames: &[Frame], lit: Lit, place: Span) -> Result<Mode, Stop>
    ensures { Came result frames.now
        (within limit (stack_of frames.now) 1 (goes (complete (literal lit place)) (stack_of frames.now))) }
{
    if !has_room(limit, frames, 1) {
        return Err(Stop::Deep);
    }
    Ok(Mode::Complete(Operand::literal(lit, place)))
}

/// A form that has an operand right behind its first token.
#[tactic(auto, using(crate::proofs::StackLaws::stack_laws))]
fn enter(limit: u32, frames: &mut Vec<Frame>, frame: Frame) -> Result<Mode, Stop>
    ensures { Came result frames.new.items
        (within limit (stack_of frames.old.items) 2 (goes wanted (frame_of frame ∷ stack_of frames.old.items))) }
{
    if !has_room(limit, frames.as_slice(), 2) {
        return Err(Stop::Deep);
    }
    frames.push(frame)?;
    Ok(Mode::Wanted)
}

/// A `let` stands where an operand of any level may.
fn let_step(limit: u32, frames: &[Frame], at: u32) -> Result<Mode, Stop>
    ensures { Came result frames.now (machine_let limit (stack_of frames.now) at) }
{
    if asked_level(frames) != 0 {
        return Err(Stop::Bad);
    }
    if !has_room(limit, frames, 2) {
        return Err(Stop::Deep);
    }
    Ok(Mode::LetBegun { at })
}

/// The level that the place asks of an operand.
#[tactic(auto, using(crate::proofs::StackLaws::stack_laws))]
fn asked_level(frames: &[Frame]) -> u32
    ensures { result ≡ asked (stack_of frames.now) }
{
    match frames.split_last() {
        Some((frame, _)) => asked_in(frame),
        None => 0,
    }
}

fn asked_in(frame: &Frame) -> u32
    ensures { result ≡ asked (frame_of frame.now ∷ []) }
{
    match frame {
        Frame::Unary { .. } => 12,
        Frame::Infix { level, .. } => *level as u32 + 1,
        Frame::Colon { .. } => 1,
        Frame::Body { .. } => 0,
        Frame::Parentheses { .. } => 0,
        Frame::Question { .. } => 0,
        Frame::Index { .. } => 0,
        Frame::Arguments { .. } => 0,
        Frame::Elements { .. } => 0,
        Frame::Let { .. } => 0,
        Frame::Initializer { .. } => 0,
    }
}
