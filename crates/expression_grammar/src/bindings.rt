ghost use Rattle.std.specs.Prelude.{◌≡◌, true, [], ◌∷◌, OnOk};
ghost use Rattle.expression_grammar.specs.declared.mode.Stop.TheVariants as stop;
ghost use Rattle.expression_grammar.specs.inside.Machine.{type_step as machine_type_step, head_step as machine_head};
ghost use Rattle.expression_grammar.specs.inside.Machine.{let_begun_step as machine_let_begun};
ghost use Rattle.expression_grammar.specs.inside.Machine.{type_bracketed_step as machine_type_bracketed};
ghost use Rattle.expression_grammar.specs.inside.Machine.{deferred_wanted_step as machine_deferred_wanted};
ghost use Rattle.expression_grammar.specs.inside.Machine.{deferred_read_step as machine_deferred_read};
ghost use Rattle.expression_grammar.specs.inside.Machine.{deferred_closed_step as machine_deferred_closed};
ghost use Rattle.expression_grammar.specs.inside.Machine.{type_sized_step as machine_type_sized};
ghost use Rattle.expression_grammar.specs.inside.Machine.{name_wanted_step as machine_name_wanted};
ghost use Rattle.expression_grammar.specs.inside.Machine.{equals_step as machine_equals, next_step as machine_next};
ghost use Rattle.expression_grammar.specs.inside.Machine.{in_step as machine_in, in_let, in_word, equals};
ghost use Rattle.expression_grammar.specs.inside.Views.{Came, stack_of, head_of};
ghost use Rattle.expression_grammar.specs.inside.SortViews.{sort_view};

use crate::complete::bad_frame;
use crate::frame::{Frame, Head, Held};
use crate::mode::{Mode, Purpose, Stop};
use crate::names::{refused_name, type_of};
use crate::several::Initializers;
use crate::sort::Sort;
use crate::wanted::{absolute_path, first_part, ident, word_name};
use mdl_lexer::mark;
use mdl_syntax::{Ident, Name, Size, Span, TypeTree};
use std::alloc::{AllocError, Global};

/// The first token of a type.
pub fn type_step(
    alloc: Global,
    head: Head,
    frames: &Vec<Frame>,
    sort: Sort<'_>,
    place: Span,
) -> Result<Mode, Stop>
    ensures { Came result frames.now.items
        (machine_type_step (head_of head) (stack_of frames.now.items) (sort_view sort.entry) place) }
{
    let purpose = Purpose::Type(head);
    match sort {
        Sort::DoubleColon => Ok(Mode::PartWanted {
            purpose,
            path: absolute_path(alloc, place),
        }),
        Sort::Identifier(text) => {
            let path = first_part(alloc, text, place)?;
            Ok(Mode::PartRead { purpose, path })
        }
        Sort::TypeWord(number) => Ok(Mode::WordRead {
            purpose,
            name: word_name(number, place),
        }),
        _ => Err(Stop::Bad),
    }
}

/// The first token of an initializer.
pub fn head_step(
    alloc: Global,
    frames: &Vec<Frame>,
    sort: Sort<'_>,
    place: Span,
) -> Result<Mode, Stop>
    ensures { Came result frames.now.items
        (machine_head (stack_of frames.now.items) (sort_view sort.entry) place) }
{
    match sort {
        Sort::Frequency(freq) => Ok(Mode::TypeWanted(Head {
            at: place.at,
            frequency: Some(freq),
        })),
        other => {
            let head = Head {
                at: place.at,
                frequency: None,
            };
            type_step(alloc, head, frames, other, place)
        }
    }
}

/// The token behind `let`.
#[tactic(auto, using(crate::proofs::StackLaws::stack_laws))]
pub fn let_begun_step(
    alloc: Global,
    at: u32,
    frames: &mut Vec<Frame>,
    sort: Sort<'_>,
    place: Span,
) -> Result<Mode, Stop>
    ensures { Came result frames.new.items
        (machine_let_begun at (stack_of frames.old.items) (sort_view sort.entry) place) }
{
    match sort {
        Sort::OpeningBrace => {
            push_let(alloc, frames, at, true)?;
            Ok(Mode::HeadWanted)
        }
        other => {
            push_let(alloc, frames, at, false)?;
            head_step(alloc, frames, other, place)
        }
    }
}

/// A `let` without initializers.
#[tactic(auto, using(crate::proofs::StackLaws::stack_laws))]
fn push_let(alloc: Global, frames: &mut Vec<Frame>, at: u32, braces: bool) -> Result<(), AllocError>
    ensures { OnOk result (stack_of frames.new.items
        ≡ in_let (record { at = at; braces = braces; initializers = [] }) ∷ stack_of frames.old.items) }
{
    let initializers = Initializers::none(alloc);
    frames.push(Frame::Let {
        held: Held {
            at,
            braces,
            initializers,
        },
    })?;
    Ok(())
}

/// The token behind `name[` in a type.
pub fn type_bracketed_step(
    head: Head,
    name: Name,
    frames: &Vec<Frame>,
    sort: Sort<'_>,
) -> Result<Mode, Stop>
    ensures { Came result frames.now.items
        (machine_type_bracketed (head_of head) name (stack_of frames.now.items) (sort_view sort.entry)) }
{
    match sort {
        Sort::Integer(value) => Ok(Mode::TypeSized { head, name, value }),
        Sort::BinaryOperator { op, .. } => {
            if op == mark::LESS {
                Ok(Mode::DeferredWanted { head, name })
            } else {
                Err(Stop::Bad)
            }
        }
        _ => Err(refused_name(name)),
    }
}

/// The name of a size that is deferred.
pub fn deferred_wanted_step(
    head: Head,
    name: Name,
    frames: &Vec<Frame>,
    sort: Sort<'_>,
    place: Span,
) -> Result<Mode, Stop>
    ensures { Came result frames.now.items (machine_deferred_wanted (head_of head) name
        (stack_of frames.now.items) (sort_view sort.entry) place) }
{
    match sort {
        Sort::Identifier(text) => {
            let ident = ident(text, place)?;
            Ok(Mode::DeferredRead { head, name, ident })
        }
        _ => Err(refused_name(name)),
    }
}

/// `>` behind it.
pub fn deferred_read_step(
    head: Head,
    name: Name,
    ident: Ident,
    frames: &Vec<Frame>,
    sort: Sort<'_>,
) -> Result<Mode, Stop>
    ensures { Came result frames.now.items (machine_deferred_read (head_of head) name ident
        (stack_of frames.now.items) (sort_view sort.entry)) }
{
    match sort {
        Sort::BinaryOperator { op, .. } => {
            if op == mark::GREATER {
                Ok(Mode::DeferredClosed { head, name, ident })
            } else {
                Err(Stop::Bad)
            }
        }
        _ => Err(refused_name(name)),
    }
}

/// `]` behind that.
pub fn deferred_closed_step(
    head: Head,
    name: Name,
    ident: Ident,
    frames: &Vec<Frame>,
    sort: Sort<'_>,
    place: Span,
) -> Result<Mode, Stop>
    ensures { Came result frames.now.items (machine_deferred_closed (head_of head) name ident
        (stack_of frames.now.items) (sort_view sort.entry) place) }
{
    match sort {
        Sort::ClosingBracket => Ok(Mode::NameWanted {
            head,
            ty: type_of(name, Size::Deferred(ident), place.end),
        }),
        _ => Err(refused_name(name)),
    }
}

/// `]` behind the size of a type.
pub fn type_sized_step(
    head: Head,
    name: Name,
    value: u32,
    frames: &Vec<Frame>,
    sort: Sort<'_>,
    place: Span,
) -> Result<Mode, Stop>
    ensures { Came result frames.now.items (machine_type_sized (head_of head) name value
        (stack_of frames.now.items) (sort_view sort.entry) place) }
{
    match sort {
        Sort::ClosingBracket => Ok(Mode::NameWanted {
            head,
            ty: type_of(name, Size::Sized(value), place.end),
        }),
        _ => Err(refused_name(name)),
    }
}

/// The name of an initializer behind its type.
pub fn name_wanted_step(
    head: Head,
    ty: TypeTree,
    frames: &Vec<Frame>,
    sort: Sort<'_>,
    place: Span,
) -> Result<Mode, Stop>
    ensures { Came result frames.now.items
        (machine_name_wanted (head_of head) ty (stack_of frames.now.items) (sort_view sort.entry) place) }
{
    match sort {
        Sort::Identifier(text) => {
            let name = ident(text, place)?;
            Ok(Mode::EqualsWanted { head, ty, name })
        }
        _ => Err(refused_type(ty)),
    }
}

fn refused_type(_ty: TypeTree) -> Stop
    ensures { result ≡ stop.Bad }
{
    Stop::Bad
}

/// `=` behind the name of an initializer.
#[tactic(auto, using(crate::proofs::StackLaws::stack_laws))]
pub fn equals_step(
    head: Head,
    ty: TypeTree,
    name: Ident,
    frames: &mut Vec<Frame>,
    sort: Sort<'_>,
) -> Result<Mode, Stop>
    ensures { Came result frames.new.items
        (machine_equals (head_of head) ty name (stack_of frames.old.items) (sort_view sort.entry)) }
{
    match sort {
        Sort::Equals => begin_value(head, ty, name, frames),
        _ => Err(refused_type(ty)),
    }
}

/// The value of an initializer is wanted.
#[tactic(auto, using(crate::proofs::StackLaws::stack_laws))]
fn begin_value(head: Head, ty: TypeTree, name: Ident, frames: &mut Vec<Frame>) -> Result<Mode, Stop>
    ensures { Came result frames.new.items
        (machine_equals (head_of head) ty name (stack_of frames.old.items) equals) }
{
    match frames.pop() {
        Some(Frame::Let { held }) => {
            frames.push(Frame::Initializer {
                held,
                head,
                ty,
                name,
            })?;
            Ok(Mode::Wanted)
        }
        other => Err(bad_frame(other)),
    }
}

/// The token behind an initializer in braces.
pub fn next_step(
    alloc: Global,
    frames: &Vec<Frame>,
    sort: Sort<'_>,
    place: Span,
) -> Result<Mode, Stop>
    ensures { Came result frames.now.items
        (machine_next (stack_of frames.now.items) (sort_view sort.entry) place) }
{
    match sort {
        Sort::ClosingBrace => Ok(Mode::InWanted),
        other => head_step(alloc, frames, other, place),
    }
}

/// `in` behind all initializers.
pub fn in_step(frames: &mut Vec<Frame>, sort: Sort<'_>) -> Result<Mode, Stop>
    ensures { Came result frames.new.items (machine_in (stack_of frames.old.items) (sort_view sort.entry)) }
{
    match sort {
        Sort::In => begin_body(frames),
        _ => Err(Stop::Bad),
    }
}

/// The body of a `let` is wanted.
#[tactic(auto, using(crate::proofs::StackLaws::stack_laws))]
fn begin_body(frames: &mut Vec<Frame>) -> Result<Mode, Stop>
    ensures { Came result frames.new.items (machine_in (stack_of frames.old.items) in_word) }
{
    match frames.pop() {
        Some(Frame::Let { held }) => {
            frames.push(Frame::Body { held })?;
            Ok(Mode::Wanted)
        }
        other => Err(bad_frame(other)),
    }
}
