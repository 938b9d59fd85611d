ghost use Rattle.std.specs.Prelude.{◌≡◌, true, List, [], Err};
ghost use Rattle.mdl_syntax.specs.Trees.{tree_of};
ghost use Rattle.expression_grammar.specs.declared.mode.Stop.TheVariants as stop;
ghost use Rattle.expression_grammar.specs.declared.frame.Frame.{Frame};
ghost use Rattle.expression_grammar.specs.inside.Machine.{Step, mode_step as machine_mode, allowed, taken};
ghost use Rattle.expression_grammar.specs.inside.Machine.{finish as machine_finish};
ghost use Rattle.expression_grammar.specs.inside.Machine.{whole as machine_whole, reduced, goes, is_left_out};
ghost use Rattle.expression_grammar.specs.inside.Views.{Came, Finished, stack_of, mode_of};
ghost use Rattle.expression_grammar.specs.inside.SortViews.{sort_view};

use crate::arguments::{
    argument_step, colon_wanted_step, field_step, first_argument_step, first_element_step,
    identifier_step,
};
use crate::bindings::{
    deferred_closed_step, deferred_read_step, deferred_wanted_step, equals_step, head_step,
    in_step, let_begun_step, name_wanted_step, next_step, type_bracketed_step, type_sized_step,
    type_step,
};
use crate::brackets::{
    bracketed_step, constant_index, sized_closed_step, sized_step, unsized_closed_step,
};
use crate::complete::complete_step;
use crate::frame::Frame;
use crate::mode::{Mode, Purpose, Stop};
use crate::names::{part_step, part_wanted_step, path_name, used_step};
use crate::operand::Operand;
use crate::reduce::reduce;
use crate::room::has_room;
use crate::sort::{Sort, sort_of};
use crate::wanted::wanted_step;
use case_table::Text;
use mdl_lexer::Token;
use mdl_syntax::{Expr, Span};
use std::alloc::Global;

/// What comes of the next token.
pub fn step(
    alloc: Global,
    limit: u32,
    mode: Mode,
    frames: &mut Vec<Frame>,
    token: &Token,
) -> Result<Mode, Stop>
    ensures { Came result frames.new.items
        (taken true limit (mode_of mode) (stack_of frames.old.items) token.now) }
{
    let place = Span {
        at: token.at,
        end: token.end,
    };
    match sort_of(&token.kind) {
        Sort::LeftOut(text) => Err(left_out(alloc, text)),
        sort => {
            let made = mode_step(alloc, limit, mode, frames, sort, place);
            strictly(alloc, made)
        }
    }
}

/// A word that no form has.
fn left_out(alloc: Global, text: &str) -> Stop
    ensures { Came (Err result) [] (is_left_out text.now) }
{
    match Text::copy(alloc, text) {
        Ok(word) => Stop::LeftOut(word),
        Err(_) => Stop::OutOfMemory,
    }
}

/// The profile leaves sizes that are deferred out.
#[tactic(auto, using(crate::proofs::StepLaws::stop_allowed))]
fn strictly(alloc: Global, made: Result<Mode, Stop>) -> Result<Mode, Stop>
    ensures { (frames : List Frame) (step : Step) → Came made frames step → Came result frames (allowed true step) }
{
    match made {
        Ok(mode) => permit(alloc, mode),
        Err(stop) => Err(stop),
    }
}

#[tactic(auto, using(crate::proofs::StepLaws::plain_allowed))]
fn permit(alloc: Global, mode: Mode) -> Result<Mode, Stop>
    ensures { (frames : List Frame) (step : Step) → step ≡ goes (mode_of mode) (stack_of frames)
        → Came result frames (allowed true step) }
{
    match mode {
        Mode::DeferredWanted { .. } => Err(left_out(alloc, "deferred-size")),
        other => Ok(other),
    }
}

/// What comes of a token of this sort. Sizes that are deferred are read.
pub fn mode_step(
    alloc: Global,
    limit: u32,
    mode: Mode,
    frames: &mut Vec<Frame>,
    sort: Sort<'_>,
    place: Span,
) -> Result<Mode, Stop>
    ensures { Came result frames.new.items
        (machine_mode limit (mode_of mode) (stack_of frames.old.items) (sort_view sort.entry) place) }
{
    match mode {
        Mode::Wanted => wanted_step(alloc, limit, frames, sort, place),
        Mode::Complete(operand) => complete_step(alloc, limit, operand, frames, sort, place),
        Mode::PartWanted { purpose, path } => part_wanted_step(purpose, path, frames, sort, place),
        Mode::PartRead { purpose, path } => {
            part_step(alloc, limit, purpose, path, frames, sort, place)
        }
        Mode::WordRead { purpose, name } => {
            used_step(alloc, limit, purpose, name, frames, sort, place)
        }
        Mode::Bracketed(name) => bracketed_step(alloc, limit, name, frames, sort, place),
        Mode::Sized { name, value, at } => {
            sized_step(alloc, limit, name, value, at, frames, sort, place)
        }
        Mode::SizedClosed {
            name,
            value,
            at,
            end,
        } => sized_closed_step(alloc, limit, name, value, at, end, frames, sort, place),
        Mode::UnsizedClosed(name) => unsized_closed_step(alloc, name, frames, sort),
        Mode::FirstArgument => first_argument_step(alloc, limit, frames, sort, place),
        Mode::ArgumentWanted => argument_step(alloc, limit, frames, sort, place),
        Mode::IdentifierRead(ident) => identifier_step(alloc, limit, ident, frames, sort, place),
        Mode::ColonWanted(ident) => colon_wanted_step(ident, frames, sort),
        Mode::FirstElement => first_element_step(alloc, limit, frames, sort, place),
        Mode::FieldWanted(of) => field_step(alloc, of, frames, sort, place),
        Mode::LetBegun { at } => let_begun_step(alloc, at, frames, sort, place),
        Mode::HeadWanted => head_step(alloc, frames, sort, place),
        Mode::TypeWanted(head) => type_step(alloc, head, frames, sort, place),
        Mode::TypeBracketed { head, name } => type_bracketed_step(head, name, frames, sort),
        Mode::TypeSized { head, name, value } => {
            type_sized_step(head, name, value, frames, sort, place)
        }
        Mode::DeferredWanted { head, name } => {
            deferred_wanted_step(head, name, frames, sort, place)
        }
        Mode::DeferredRead { head, name, ident } => {
            deferred_read_step(head, name, ident, frames, sort)
        }
        Mode::DeferredClosed { head, name, ident } => {
            deferred_closed_step(head, name, ident, frames, sort, place)
        }
        Mode::NameWanted { head, ty } => name_wanted_step(head, ty, frames, sort, place),
        Mode::EqualsWanted { head, ty, name } => equals_step(head, ty, name, frames, sort),
        Mode::NextWanted => next_step(alloc, frames, sort, place),
        Mode::InWanted => in_step(frames, sort),
    }
}

/// What comes of the end of the text.
pub fn finish(alloc: Global, limit: u32, mode: Mode, frames: &mut Vec<Frame>) -> Result<Expr, Stop>
    ensures { Finished result (machine_finish limit (mode_of mode) (stack_of frames.old.items)) }
{
    match mode {
        Mode::Complete(operand) => whole(alloc, operand, frames),
        Mode::PartRead {
            purpose: Purpose::Expression,
            path,
        } => whole(alloc, Operand::name(path_name(path)), frames),
        Mode::WordRead {
            purpose: Purpose::Expression,
            name,
        } => whole(alloc, Operand::name(name), frames),
        Mode::SizedClosed {
            name,
            value,
            at,
            end,
        } => {
            let fits = has_room(limit, frames.as_slice(), 2);
            let operand = constant_index(alloc, name, value, at, end)?;
            let tree = whole(alloc, operand, frames)?;
            if !fits {
                return Err(refused_tree(tree));
            }
            Ok(tree)
        }
        other => Err(refused_mode(other)),
    }
}

/// An expression that is too high.
fn refused_tree(_tree: Expr) -> Stop
    ensures { result ≡ stop.Deep }
{
    Stop::Deep
}

/// No expression ends here.
fn refused_mode(_mode: Mode) -> Stop
    ensures { result ≡ stop.Bad }
{
    Stop::Bad
}

/// The whole expression that ends with this operand.
#[tactic(auto, using(crate::proofs::StackLaws::stack_laws))]
fn whole(alloc: Global, operand: Operand, frames: &mut Vec<Frame>) -> Result<Expr, Stop>
    ensures { Finished result (machine_whole (reduced 0 (tree_of operand) (stack_of frames.old.items))) }
{
    let operand = reduce(alloc, 0, operand, frames)?;
    if !frames.is_empty() {
        return Err(Stop::Bad);
    }
    Ok(operand.tree())
}
