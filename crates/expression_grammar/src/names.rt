ghost use Rattle.std.specs.Prelude.{◌≡◌, IfOk};
ghost use Rattle.expression_grammar.specs.declared.mode.Stop.TheVariants as stop;
ghost use Rattle.expression_grammar.specs.inside.Machine.{name_step as machine_name};
ghost use Rattle.expression_grammar.specs.inside.Machine.{type_name_step as machine_type_name};
ghost use Rattle.expression_grammar.specs.inside.Machine.{used_step as machine_used, part_step as machine_part};
ghost use Rattle.expression_grammar.specs.inside.Machine.{part_wanted_step as machine_wanted};
ghost use Rattle.expression_grammar.specs.inside.Machine.{path_name as machine_path_name};
ghost use Rattle.expression_grammar.specs.inside.Machine.{longer_path as machine_longer, type_of as machine_type};
ghost use Rattle.expression_grammar.specs.inside.Views.{Came, stack_of, path_of, head_of, purpose_of};
ghost use Rattle.expression_grammar.specs.inside.SortViews.{sort_view};

use crate::complete::complete_step;
use crate::frame::{Frame, Head};
use crate::mode::{Mode, Path, Purpose, Stop};
use crate::operand::Operand;
use crate::several::Arguments;
use crate::sort::Sort;
use crate::wanted::ident;
use case_table::{Seq, Text};
use mdl_syntax::{Name, NameForm, Size, Span, TypeTree};
use std::alloc::{AllocError, Global};

/// The token behind a part of a name.
pub fn part_step(
    alloc: Global,
    limit: u32,
    purpose: Purpose,
    path: Path,
    frames: &mut Vec<Frame>,
    sort: Sort<'_>,
    place: Span,
) -> Result<Mode, Stop>
    ensures { Came result frames.new.items (machine_part limit (purpose_of purpose) (path_of path)
        (stack_of frames.old.items) (sort_view sort.entry) place) }
{
    match sort {
        Sort::DoubleColon => Ok(Mode::PartWanted { purpose, path }),
        other => used_step(alloc, limit, purpose, path_name(path), frames, other, place),
    }
}

/// The part of a name behind `::`.
pub fn part_wanted_step(
    purpose: Purpose,
    path: Path,
    frames: &Vec<Frame>,
    sort: Sort<'_>,
    place: Span,
) -> Result<Mode, Stop>
    ensures { Came result frames.now.items (machine_wanted (purpose_of purpose) (path_of path)
        (stack_of frames.now.items) (sort_view sort.entry) place) }
{
    match sort {
        Sort::Identifier(text) => {
            let path = longer_path(path, text, place)?;
            Ok(Mode::PartRead { purpose, path })
        }
        _ => Err(refused_path(path)),
    }
}

fn refused_path(_path: Path) -> Stop
    ensures { result ≡ stop.Bad }
{
    Stop::Bad
}

/// A name with one part more.
fn longer_path(path: Path, text: &Text, place: Span) -> Result<Path, AllocError>
    ensures { IfOk result (λ longer. path_of longer ≡ machine_longer (path_of path) text.now place) }
{
    let span = Span {
        at: path.span.at,
        end: place.end,
    };
    let mut parts = path.parts;
    parts.push(ident(text, place)?)?;
    Ok(Path {
        absolute: path.absolute,
        parts,
        span,
    })
}

/// The name that is whole.
pub fn path_name(path: Path) -> Name
    ensures { result ≡ machine_path_name (path_of path) }
{
    Name {
        form: NameForm::Parts {
            absolute: path.absolute,
            parts: Seq::of(path.parts),
        },
        span: path.span,
    }
}

/// The token behind a whole name.
pub fn used_step(
    alloc: Global,
    limit: u32,
    purpose: Purpose,
    name: Name,
    frames: &mut Vec<Frame>,
    sort: Sort<'_>,
    place: Span,
) -> Result<Mode, Stop>
    ensures { Came result frames.new.items (machine_used limit (purpose_of purpose) name
        (stack_of frames.old.items) (sort_view sort.entry) place) }
{
    match purpose {
        Purpose::Expression => name_step(alloc, limit, name, frames, sort, place),
        Purpose::Type(head) => type_name_step(head, name, frames, sort, place),
    }
}

/// The token behind a name in an expression.
#[tactic(auto, using(crate::proofs::StackLaws::stack_laws))]
fn name_step(
    alloc: Global,
    limit: u32,
    name: Name,
    frames: &mut Vec<Frame>,
    sort: Sort<'_>,
    place: Span,
) -> Result<Mode, Stop>
    ensures { Came result frames.new.items
        (machine_name limit name (stack_of frames.old.items) (sort_view sort.entry) place) }
{
    match sort {
        Sort::Opening => {
            let arguments = Arguments::none(alloc);
            frames.push(Frame::Arguments {
                name,
                arguments,
                with_name: false,
                label: None,
            })?;
            Ok(Mode::FirstArgument)
        }
        Sort::OpeningBracket => Ok(Mode::Bracketed(name)),
        other => complete_step(alloc, limit, Operand::name(name), frames, other, place),
    }
}

/// The token behind the name of a type.
fn type_name_step(
    head: Head,
    name: Name,
    frames: &mut Vec<Frame>,
    sort: Sort<'_>,
    place: Span,
) -> Result<Mode, Stop>
    ensures { Came result frames.new.items (machine_type_name (head_of head) name
        (stack_of frames.old.items) (sort_view sort.entry) place) }
{
    match sort {
        Sort::OpeningBracket => Ok(Mode::TypeBracketed { head, name }),
        Sort::Identifier(text) => {
            let end = name.span.end;
            let own = ident(text, place)?;
            Ok(Mode::EqualsWanted {
                head,
                ty: type_of(name, Size::One, end),
                name: own,
            })
        }
        _ => Err(refused_name(name)),
    }
}

/// No type goes on behind this name.
pub fn refused_name(_name: Name) -> Stop
    ensures { result ≡ stop.Bad }
{
    Stop::Bad
}

/// A type that ends here.
pub fn type_of(name: Name, size: Size, end: u32) -> TypeTree
    ensures { result ≡ machine_type name size end }
{
    let at = name.span.at;
    TypeTree {
        name,
        size,
        span: Span { at, end },
    }
}
