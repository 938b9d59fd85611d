ghost use Rattle.std.specs.Prelude.{◌≡◌, ◌<◌, [], true, false};
ghost use Rattle.mdl_syntax.specs.Trees.{tree_of};
ghost use Rattle.mdl_syntax.specs.Modules.{annotation_of};
ghost use Rattle.expression_grammar.specs.inside.Machine.{mode_step as machine_mode, wanted};
ghost use Rattle.module_grammar.specs.inside.ModuleStates.{within};
ghost use Rattle.module_grammar.specs.inside.ModuleMachine.{may_name as machine_may_name};
ghost use Rattle.module_grammar.specs.inside.ModuleMachine.{call_step as machine_call, call_outcome as machine_outcome};
ghost use Rattle.module_grammar.specs.inside.ModuleMachine.{call_goes as machine_goes};
ghost use Rattle.module_grammar.specs.inside.ModuleMachine.{call_read as machine_read, whole_call as machine_whole};
ghost use Rattle.module_grammar.specs.inside.ModuleStates.{on};
ghost use Rattle.module_grammar.specs.inside.ModuleMachine.{expression_step as machine_expression};
ghost use Rattle.module_grammar.specs.inside.ModuleMachine.{is_call_site as machine_is_call_site};
ghost use Rattle.module_grammar.specs.inside.ModuleMachine.{first_annotation_step as machine_first};
ghost use Rattle.mdl_grammar.specs.inside.ModuleViews.{ModuleCame, begun_of, site_of, holder_of, position_of};
ghost use Rattle.module_grammar.specs.inside.ModuleStates.{item_wanted as machine_item_wanted, in_annotation};
ghost use Rattle.expression_grammar.specs.inside.Views.{mode_of, stack_of};
ghost use Rattle.expression_grammar.specs.inside.SortViews.{sort_view};

use crate::module_state::{
    AnnotationPosition, Begun, FunctionPosition, Holder, ModuleStop, Position, Site,
};
use crate::sites::value_step;
use expression_grammar::frame::Frame;
use expression_grammar::mode::{Mode, Stop};
use expression_grammar::operand::Operand;
use expression_grammar::sort::Sort;
use expression_grammar::step::mode_step;
use mdl_syntax::{Anno, Span};
use std::alloc::Global;

/// A token within an expression that stands in a module.
pub fn expression_step(
    alloc: Global,
    limit: u32,
    begun: &mut Begun,
    site: Box<Site>,
    mode: Mode,
    frames: Vec<Frame>,
    sort: Sort<'_>,
    place: Span,
) -> Result<Position, ModuleStop>
    requires { limit < 4294967295 }
    ensures { ModuleCame result begun.new
        (machine_expression limit (begun_of begun.old) (site_of site.value) (mode_of mode)
        (stack_of frames.items) (sort_view sort.entry) place) }
{
    if is_call_site(&*site) {
        call_step(alloc, limit, begun, site, mode, frames, sort, place)
    } else {
        value_step(alloc, limit, begun, site, mode, frames, sort, place)
    }
}

fn is_call_site(site: &Site) -> bool
    ensures { result ≡ machine_is_call_site (site_of site.now) }
{
    match site {
        Site::Annotation { .. } => true,
        Site::Base { .. } => true,
        Site::FunctionBody { .. } => false,
        Site::Default { .. } => false,
        Site::FieldDefault { .. } => false,
    }
}

/// The first token of the first annotation, or `]`.
pub fn first_annotation_step(
    alloc: Global,
    limit: u32,
    begun: &Begun,
    holder: Box<Holder>,
    sort: Sort<'_>,
    place: Span,
) -> Result<Position, ModuleStop>
    requires { limit < 4294967295 }
    ensures { ModuleCame result begun.now (machine_first limit (begun_of begun.now) (holder_of holder.value)
        (sort_view sort.entry) place) }
{
    match sort {
        Sort::ClosingBracket => Ok(Position::Annotation(AnnotationPosition::AnnotationsClosing {
            holder,
            annotations: Vec::new(alloc),
        })),
        other => first_call(alloc, limit, begun, holder, other, place),
    }
}

/// The first token of the first annotation.
#[tactic(auto, using(crate::proofs::ReaderLaws::stack_laws))]
fn first_call(
    alloc: Global,
    limit: u32,
    begun: &Begun,
    holder: Box<Holder>,
    sort: Sort<'_>,
    place: Span,
) -> Result<Position, ModuleStop>
    requires { limit < 4294967295 }
    ensures { ModuleCame result begun.now (machine_call limit (begun_of begun.now)
        (in_annotation (holder_of holder.value) []) wanted [] (sort_view sort.entry) place) }
{
    let site = Site::Annotation {
        holder,
        annotations: Vec::new(alloc),
    };
    let site = Box::new(alloc, site)?;
    let frames = Vec::new(alloc);
    call_step(alloc, limit, begun, site, Mode::Wanted, frames, sort, place)
}

/// A token of a call that is no expression.
fn call_step(
    alloc: Global,
    limit: u32,
    begun: &Begun,
    site: Box<Site>,
    mode: Mode,
    frames: Vec<Frame>,
    sort: Sort<'_>,
    place: Span,
) -> Result<Position, ModuleStop>
    requires { limit < 4294967295 }
    ensures { ModuleCame result begun.now (machine_call limit (begun_of begun.now) (site_of site.value) (mode_of mode)
        (stack_of frames.items) (sort_view sort.entry) place) }
{
    if !frames.is_empty() {
        return within_call(alloc, limit + 1, begun, site, mode, frames, sort, place);
    }
    if may_name(&mode, &sort) {
        within_call(alloc, limit + 1, begun, site, mode, frames, sort, place)
    } else {
        Err(ModuleStop::Bad)
    }
}

/// A token that may stand in a call, with this room for the call.
fn within_call(
    alloc: Global,
    room: u32,
    begun: &Begun,
    site: Box<Site>,
    mode: Mode,
    frames: Vec<Frame>,
    sort: Sort<'_>,
    place: Span,
) -> Result<Position, ModuleStop>
    ensures { ModuleCame result begun.now (machine_outcome (begun_of begun.now) (site_of site.value)
        (machine_mode room (mode_of mode) (stack_of frames.items) (sort_view sort.entry) place)) }
{
    let mut frames = frames;
    match mode_step(alloc, room, mode, &mut frames, sort, place) {
        Ok(mode) => call_goes(begun, site, mode, frames),
        Err(Stop::Bad) => Err(ModuleStop::Bad),
        Err(Stop::Deep) => Err(ModuleStop::Deep),
        Err(Stop::LeftOut(word)) => Err(ModuleStop::LeftOut(word)),
        Err(Stop::OutOfMemory) => Err(ModuleStop::OutOfMemory),
    }
}

/// Whether a token may stand in the name of a call, or begin its arguments.
fn may_name(mode: &Mode, sort: &Sort<'_>) -> bool
    ensures { result ≡ machine_may_name (mode_of mode.now) (sort_view sort.now) }
{
    match mode {
        Mode::Wanted => match sort {
            Sort::Identifier(_) => true,
            Sort::TypeWord(_) => true,
            Sort::DoubleColon => true,
            _ => false,
        },
        Mode::PartWanted { .. } => true,
        Mode::PartRead { .. } => match sort {
            Sort::DoubleColon => true,
            Sort::Opening => true,
            _ => false,
        },
        Mode::WordRead { .. } => match sort {
            Sort::Opening => true,
            _ => false,
        },
        _ => false,
    }
}

/// What is so far of a call, or a whole one.
#[tactic(auto, using(crate::proofs::ReaderLaws::stack_laws))]
fn call_goes(
    begun: &Begun,
    site: Box<Site>,
    mode: Mode,
    frames: Vec<Frame>,
) -> Result<Position, ModuleStop>
    ensures { ModuleCame result begun.now
        (on (machine_goes (begun_of begun.now) (site_of site.value) (mode_of mode) (stack_of frames.items))) }
{
    match mode {
        Mode::Complete(operand) => {
            if frames.is_empty() {
                whole_call(begun, site, operand, frames)
            } else {
                Ok(Position::Expression {
                    site,
                    mode: Mode::Complete(operand),
                    frames,
                })
            }
        }
        other => Ok(Position::Expression {
            site,
            mode: other,
            frames,
        }),
    }
}

#[tactic(auto, using(crate::proofs::SiteStepLaws::no_call))]
fn whole_call(
    begun: &Begun,
    site: Box<Site>,
    operand: Operand,
    frames: Vec<Frame>,
) -> Result<Position, ModuleStop>
    ensures { stack_of frames.items ≡ [] → ModuleCame result begun.now
        (on (within (begun_of begun.now) (machine_whole (begun_of begun.now) (site_of site.value) (tree_of operand)))) }
{
    match operand.into_call() {
        Ok(call) => call_read(begun, site, call),
        Err(operand) => Ok(Position::Expression {
            site,
            mode: Mode::Complete(operand),
            frames,
        }),
    }
}

/// Behind a whole call.
#[tactic(auto, using(crate::proofs::SiteStepLaws::longer_annotations))]
fn call_read(begun: &Begun, site: Box<Site>, call: Anno) -> Result<Position, ModuleStop>
    ensures { ModuleCame result begun.now
        (on (within (begun_of begun.now)
        (machine_read (begun_of begun.now) (site_of site.value) (annotation_of call)))) }
{
    match Box::into_inner(site) {
        Site::Annotation {
            holder,
            annotations,
        } => {
            let mut annotations = annotations;
            annotations.push(call)?;
            Ok(Position::Annotation(AnnotationPosition::AnnotationRead {
                holder,
                annotations,
            }))
        }
        Site::Base {
            fronted,
            annotations,
        } => Ok(Position::Function(FunctionPosition::BaseRead {
            fronted,
            annotations,
            base: call,
        })),
        other => Ok(no_call(other)),
    }
}

fn no_call(_site: Site) -> Position
    ensures { position_of result ≡ machine_item_wanted false }
{
    Position::ItemWanted { early: false }
}
