ghost use Rattle.std.specs.Prelude.{◌≡◌, [], Some, None, Err};
ghost use Rattle.mdl_syntax.specs.Trees.{tree_of};
ghost use Rattle.mdl_syntax.specs.Modules.{parameter_of};
ghost use Rattle.mdl_grammar.specs.declared.ends.End.TheVariants as end;
ghost use Rattle.mdl_grammar.specs.declared.module_state.Begun.{Begun as HeldBegun};
ghost use Rattle.mdl_grammar.specs.declared.module_state.Holder.TheVariants as holders;
ghost use Rattle.mdl_grammar.specs.declared.module_state.ModuleStop.TheVariants as stop;
ghost use Rattle.mdl_grammar.specs.inside.Ends.{end_kind};
ghost use Rattle.expression_grammar.specs.inside.Machine.{wanted, finish as machine_finish, mode_step as machine_mode};
ghost use Rattle.module_grammar.specs.inside.ModuleMachine.{closes as machine_closes, closed_by as machine_closed_by};
ghost use Rattle.module_grammar.specs.inside.ModuleMachine.{expression_outcome as machine_outcome};
ghost use Rattle.module_grammar.specs.inside.ModuleMachine.{value_step_of as machine_value};
ghost use Rattle.module_grammar.specs.inside.ModuleMachine.{by_finish as machine_by_finish};
ghost use Rattle.module_grammar.specs.inside.ModuleMachine.{opened_step as machine_opened};
ghost use Rattle.module_grammar.specs.inside.ModuleMachine.{is_bracket as machine_is_bracket};
ghost use Rattle.module_grammar.specs.inside.ModuleMachine.{holder_of as machine_holder};
ghost use Rattle.module_grammar.specs.inside.ModuleStates.{plain_parameter as machine_plain};
ghost use Rattle.module_grammar.specs.inside.ModuleMachine.{unless_wrong as machine_unless_wrong};
ghost use Rattle.module_grammar.specs.inside.ModuleStates.{Site as MachineSite};
ghost use Rattle.mdl_grammar.specs.inside.ModuleViews.{ModuleCame, StopIn, begun_of, site_of, holder_of, front_of};
ghost use Rattle.expression_grammar.specs.inside.Views.{mode_of, stack_of};
ghost use Rattle.expression_grammar.specs.inside.SortViews.{sort_view};

use crate::annotations::parameter_from;
use crate::declarations::{function_from, with_declaration};
use crate::ends::{End, end_of};
use crate::functions::{parameter_ends, with_parameter};
use crate::module_state::{AnnotationPosition, Begun, Front, Holder, ModuleStop, Position, Site};
use crate::structs::field_ends;
use expression_grammar::frame::Frame;
use expression_grammar::mode::{Mode, Stop};
use expression_grammar::operand::span;
use expression_grammar::sort::Sort;
use expression_grammar::step::{finish, mode_step};
use mdl_syntax::{Expr, Param, Span};
use std::alloc::Global;

/// A token of a value that stands in a module: of a body or of a default.
pub fn value_step(
    alloc: Global,
    limit: u32,
    begun: &mut Begun,
    site: Box<Site>,
    mode: Mode,
    frames: Vec<Frame>,
    sort: Sort<'_>,
    place: Span,
) -> Result<Position, ModuleStop>
    ensures { ModuleCame result begun.new (machine_value limit (begun_of begun.old) (site_of site.value) (mode_of mode)
        (stack_of frames.items) (sort_view sort.entry) place) }
{
    if !closes(&*site, &sort) {
        return within_value(alloc, limit, begun, site, mode, frames, sort, place);
    }
    match end_of(limit, &mode, frames.as_slice()) {
        End::Bad => within_value(alloc, limit, begun, site, mode, frames, sort, place),
        End::Deep => Err(ModuleStop::Deep),
        End::Whole => closed_step(alloc, limit, begun, site, mode, frames, sort, place),
    }
}

/// Whether a token may stand behind a whole value.
fn closes(site: &Site, sort: &Sort<'_>) -> bool
    ensures { result ≡ machine_closes (site_of site.now) (sort_view sort.now) }
{
    match site {
        Site::FunctionBody { .. } => match sort {
            Sort::Semicolon => true,
            _ => false,
        },
        Site::Default { .. } => match sort {
            Sort::Comma => true,
            Sort::Closing => true,
            Sort::OpeningBracket => true,
            _ => false,
        },
        Site::FieldDefault { .. } => match sort {
            Sort::Semicolon => true,
            Sort::OpeningBracket => true,
            _ => false,
        },
        Site::Annotation { .. } => false,
        Site::Base { .. } => false,
    }
}

/// A token within a value.
fn within_value(
    alloc: Global,
    limit: u32,
    begun: &Begun,
    site: Box<Site>,
    mode: Mode,
    frames: Vec<Frame>,
    sort: Sort<'_>,
    place: Span,
) -> Result<Position, ModuleStop>
    ensures { ModuleCame result begun.now (machine_outcome (begun_of begun.now) (site_of site.value)
        (machine_mode limit (mode_of mode) (stack_of frames.items) (sort_view sort.entry) place)) }
{
    let mut frames = frames;
    match mode_step(alloc, limit, mode, &mut frames, sort, place) {
        Ok(mode) => Ok(Position::Expression { site, mode, frames }),
        Err(Stop::Bad) => Err(ModuleStop::Bad),
        Err(Stop::Deep) => Err(ModuleStop::Deep),
        Err(Stop::LeftOut(word)) => Err(ModuleStop::LeftOut(word)),
        Err(Stop::OutOfMemory) => Err(ModuleStop::OutOfMemory),
    }
}

/// A token behind a whole value. `[` begins annotations or an index.
fn closed_step(
    alloc: Global,
    limit: u32,
    begun: &mut Begun,
    site: Box<Site>,
    mode: Mode,
    frames: Vec<Frame>,
    sort: Sort<'_>,
    place: Span,
) -> Result<Position, ModuleStop>
    ensures { end_kind (machine_finish limit (mode_of mode) (stack_of frames.items)) ≡ end.Whole
        → ModuleCame result begun.new (machine_by_finish limit (begun_of begun.old) (site_of site.value) (mode_of mode)
        (stack_of frames.items) (sort_view sort.entry) place
        (machine_finish limit (mode_of mode) (stack_of frames.items))) }
{
    if is_bracket(&sort) {
        return Ok(Position::Opened {
            site,
            mode,
            frames,
            bracket: place,
        });
    }
    let mut frames = frames;
    match finish(alloc, limit, mode, &mut frames) {
        Ok(tree) => closed_by(begun, Box::into_inner(site), tree, sort, place),
        Err(stop) => Err(stopped(stop)),
    }
}

fn is_bracket(sort: &Sort<'_>) -> bool
    ensures { result ≡ machine_is_bracket (sort_view sort.now) }
{
    match sort {
        Sort::OpeningBracket => true,
        _ => false,
    }
}

/// What a stop in an expression is in a module.
pub fn stopped(stop: Stop) -> ModuleStop
    ensures { StopIn stop result }
{
    match stop {
        Stop::Bad => ModuleStop::Bad,
        Stop::Deep => ModuleStop::Deep,
        Stop::LeftOut(word) => ModuleStop::LeftOut(word),
        Stop::OutOfMemory => ModuleStop::OutOfMemory,
    }
}

/// A value that ends before this token.
fn closed_by(
    begun: &mut Begun,
    site: Site,
    tree: Expr,
    sort: Sort<'_>,
    place: Span,
) -> Result<Position, ModuleStop>
    ensures { ModuleCame result begun.new (machine_closed_by (begun_of begun.old) (site_of site) (tree_of tree)
        (sort_view sort.entry) place) }
{
    match site {
        Site::FunctionBody {
            fronted,
            parameters,
            frequency,
            annotations,
        } => {
            let declaration = function_from(
                fronted,
                parameters,
                frequency,
                annotations,
                tree,
                place.end,
            );
            with_declaration(begun, declaration, place.end)
        }
        Site::Default {
            owner,
            parameters,
            front,
        } => {
            let parameters = with_parameter(parameters, with_default(front, tree))?;
            parameter_ends(begun, owner, parameters, sort)
        }
        Site::FieldDefault { held, front } => {
            field_ends(begun, held, with_default(front, tree), sort)
        }
        other => Err(refused_site(other)),
    }
}

/// A parameter or a field that ends with its default.
fn with_default(front: Box<Front>, default: Expr) -> Param
    ensures { parameter_of result ≡ machine_plain (front_of front.value) (Some (tree_of default)) }
{
    let end = span(&default).end;
    parameter_from(front, Some(default), None, end)
}

fn refused_site(_site: Site) -> ModuleStop
    ensures { result ≡ stop.Bad }
{
    ModuleStop::Bad
}

/// The token behind a value and `[`.
pub fn opened_step(
    alloc: Global,
    limit: u32,
    begun: &mut Begun,
    site: Box<Site>,
    mode: Mode,
    frames: Vec<Frame>,
    bracket: Span,
    sort: Sort<'_>,
    place: Span,
) -> Result<Position, ModuleStop>
    ensures { ModuleCame result begun.new (machine_opened limit (begun_of begun.old) (site_of site.value) (mode_of mode)
        (stack_of frames.items) bracket (sort_view sort.entry) place) }
{
    let mut frames = frames;
    if is_bracket(&sort) {
        return match finish(alloc, limit, mode, &mut frames) {
            Ok(tree) => {
                let holder = Box::new(alloc, holder_from(Box::into_inner(site), tree))?;
                Ok(Position::Annotation(AnnotationPosition::FirstAnnotation(holder)))
            }
            Err(stop) => Err(stopped(stop)),
        };
    }
    match mode_step(
        alloc,
        limit,
        mode,
        &mut frames,
        Sort::OpeningBracket,
        bracket,
    ) {
        Ok(mode) => within_value(alloc, limit, begun, site, mode, frames, sort, place),
        Err(Stop::Deep) => Err(deep_unless_wrong(alloc, limit, sort, place)),
        Err(stop) => Err(stopped(stop)),
    }
}

/// No index has room here. It is too deep where one may begin so.
#[tactic(auto, using(crate::proofs::ReaderLaws::stack_laws))]
fn deep_unless_wrong(alloc: Global, limit: u32, sort: Sort<'_>, place: Span) -> ModuleStop
    ensures { (begun : HeldBegun) (site : MachineSite) → ModuleCame (Err result) begun
        (machine_unless_wrong (machine_outcome (begun_of begun) site
        (machine_mode limit wanted [] (sort_view sort.entry) place))) }
{
    let mut frames = Vec::new(alloc);
    match mode_step(alloc, limit, Mode::Wanted, &mut frames, sort, place) {
        Err(Stop::Bad) => ModuleStop::Bad,
        Err(Stop::OutOfMemory) => ModuleStop::OutOfMemory,
        Ok(_) => ModuleStop::Deep,
        Err(Stop::Deep) => ModuleStop::Deep,
        Err(Stop::LeftOut(_)) => ModuleStop::Deep,
    }
}

/// What the annotations behind a value belong to.
fn holder_from(site: Site, default: Expr) -> Holder
    ensures { holder_of result ≡ machine_holder (site_of site) (tree_of default) }
{
    match site {
        Site::Default {
            owner,
            parameters,
            front,
        } => Holder::Parameter {
            owner,
            parameters,
            front,
            default: Some(default),
        },
        Site::FieldDefault { held, front } => Holder::Field {
            held,
            front,
            default: Some(default),
        },
        other => no_holder(other),
    }
}

fn no_holder(_site: Site) -> Holder
    ensures { result ≡ holders.Module }
{
    Holder::Module
}
