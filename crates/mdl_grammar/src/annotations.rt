ghost use Rattle.std.specs.Prelude.{◌≡◌, map, Some};
ghost use Rattle.mdl_syntax.specs.Modules.{annotations_of, annotation_of, parameter_of, default_of};
ghost use Rattle.mdl_grammar.specs.inside.ModuleViews.{ModuleCame, begun_of, holder_of, front_of};
ghost use Rattle.module_grammar.specs.inside.ModuleMachine.{second_bracket as machine_second_bracket};
ghost use Rattle.module_grammar.specs.inside.ModuleMachine.{own_step as machine_own, own_ends as machine_own_ends};
ghost use Rattle.module_grammar.specs.inside.ModuleMachine.{annotation_read_step as machine_annotation_read};
ghost use Rattle.module_grammar.specs.inside.ModuleMachine.{closing_annotations as machine_closing};
ghost use Rattle.module_grammar.specs.inside.ModuleMachine.{annotated_step as machine_annotated};
ghost use Rattle.module_grammar.specs.inside.ModuleStates.{parameter_from as machine_parameter_from};
ghost use Rattle.expression_grammar.specs.inside.SortViews.{sort_view};

use crate::boxes::{begin_annotations, expression_wanted};
use crate::declarations::{annotation_annotated, function_annotated};
use crate::functions::{parameter_ends, variant_annotated, with_parameter};
use crate::module_state::{AnnotationPosition, Begun, Front, Holder, ModuleStop, Position, Site};
use crate::structs::{enum_annotated, enum_value, field_ends, struct_annotated, value_ends};
use case_table::Seq;
use expression_grammar::mode::Mode;
use expression_grammar::sort::Sort;
use mdl_syntax::{Anno, Expr, Param, Span};
use std::alloc::Global;

/// The second `[` of annotations.
pub fn second_bracket(
    begun: &Begun,
    holder: Box<Holder>,
    sort: Sort<'_>,
) -> Result<Position, ModuleStop>
    ensures { ModuleCame result begun.now
        (machine_second_bracket (begun_of begun.now) (holder_of holder.value) (sort_view sort.entry)) }
{
    match sort {
        Sort::OpeningBracket => Ok(Position::Annotation(AnnotationPosition::FirstAnnotation(
            holder,
        ))),
        _ => Err(ModuleStop::Bad),
    }
}

/// `[` behind `module`.
pub fn own_step(alloc: Global, begun: &Begun, sort: Sort<'_>) -> Result<Position, ModuleStop>
    ensures { ModuleCame result begun.now (machine_own (begun_of begun.now) (sort_view sort.entry)) }
{
    match sort {
        Sort::OpeningBracket => {
            let position = begin_annotations(alloc, Holder::Module)?;
            Ok(position)
        }
        _ => Err(ModuleStop::Bad),
    }
}

/// The token behind an annotation.
#[tactic(auto, using(crate::proofs::ReaderLaws::stack_laws))]
pub fn annotation_read_step(
    alloc: Global,
    begun: &Begun,
    holder: Box<Holder>,
    annotations: Vec<Anno>,
    sort: Sort<'_>,
) -> Result<Position, ModuleStop>
    ensures { ModuleCame result begun.now (machine_annotation_read (begun_of begun.now) (holder_of holder.value)
        (map annotation_of annotations.items) (sort_view sort.entry)) }
{
    match sort {
        Sort::Comma => {
            let site = Site::Annotation {
                holder,
                annotations,
            };
            let position = expression_wanted(alloc, site)?;
            Ok(position)
        }
        Sort::ClosingBracket => Ok(Position::Annotation(AnnotationPosition::AnnotationsClosing {
            holder,
            annotations,
        })),
        _ => Err(ModuleStop::Bad),
    }
}

/// The second `]` of annotations.
pub fn closing_annotations(
    begun: &Begun,
    holder: Box<Holder>,
    annotations: Vec<Anno>,
    sort: Sort<'_>,
    place: Span,
) -> Result<Position, ModuleStop>
    ensures { ModuleCame result begun.now (machine_closing (begun_of begun.now) (holder_of holder.value)
        (map annotation_of annotations.items) (sort_view sort.entry) place) }
{
    match sort {
        Sort::ClosingBracket => Ok(Position::Annotation(AnnotationPosition::Annotated {
            holder,
            annotations,
            end: place.end,
        })),
        _ => Err(ModuleStop::Bad),
    }
}

/// `;` behind the annotations of the module.
fn own_ends(
    begun: &mut Begun,
    annotations: Vec<Anno>,
    sort: Sort<'_>,
    place: Span,
) -> Result<Position, ModuleStop>
    ensures { ModuleCame result begun.new (machine_own_ends (begun_of begun.old)
        (map annotation_of annotations.items) (sort_view sort.entry) place) }
{
    match sort {
        Sort::Semicolon => {
            begun.annotations = Some(Seq::of(annotations));
            begun.end = place.end;
            Ok(Position::ItemWanted { early: false })
        }
        _ => Err(ModuleStop::Bad),
    }
}

/// A parameter or a field that ends here.
pub fn parameter_from(
    front: Box<Front>,
    default: Option<Expr>,
    annos: Option<Seq<Anno>>,
    end: u32,
) -> Param
    ensures { parameter_of result
        ≡ machine_parameter_from (front_of front.value) (default_of default) (annotations_of annos) end }
{
    let Front {
        at,
        frequency: freq,
        ty,
        name,
    } = Box::into_inner(front);
    Param {
        freq,
        ty,
        name,
        default,
        annos,
        span: Span { at, end },
    }
}

/// The token behind `]]`, which ends here.
pub fn annotated_step(
    alloc: Global,
    begun: &mut Begun,
    holder: Box<Holder>,
    annotations: Vec<Anno>,
    end: u32,
    sort: Sort<'_>,
    place: Span,
) -> Result<Position, ModuleStop>
    ensures { ModuleCame result begun.new (machine_annotated (begun_of begun.old) (holder_of holder.value)
        (map annotation_of annotations.items) end (sort_view sort.entry) place) }
{
    match Box::into_inner(holder) {
        Holder::Module => own_ends(begun, annotations, sort, place),
        Holder::Parameter {
            owner,
            parameters,
            front,
            default,
        } => {
            let annos = Some(Seq::of(annotations));
            let parameter = parameter_from(front, default, annos, end);
            let parameters = with_parameter(parameters, parameter)?;
            parameter_ends(begun, owner, parameters, sort)
        }
        Holder::Function {
            fronted,
            parameters,
            frequency,
        } => {
            let annos = Some(Seq::of(annotations));
            function_annotated(
                alloc, begun, fronted, parameters, frequency, annos, sort, place,
            )
        }
        Holder::Annotation { named, parameters } => {
            let annos = Some(Seq::of(annotations));
            annotation_annotated(begun, named, parameters, annos, sort, place)
        }
        Holder::Variant(fronted) => {
            let annos = Some(Seq::of(annotations));
            variant_annotated(alloc, begun, fronted, annos, sort)
        }
        Holder::Struct(named) => {
            let annos = Some(Seq::of(annotations));
            struct_annotated(alloc, begun, named, annos, sort)
        }
        Holder::Field {
            held,
            front,
            default,
        } => {
            let annos = Some(Seq::of(annotations));
            field_ends(
                begun,
                held,
                parameter_from(front, default, annos, end),
                sort,
            )
        }
        Holder::Enum(named) => {
            let annos = Some(Seq::of(annotations));
            enum_annotated(alloc, begun, named, annos, sort)
        }
        Holder::EnumValue { held, name, number } => {
            let annos = Some(Seq::of(annotations));
            value_ends(begun, held, enum_value(name, number, annos, end), sort)
        }
    }
}
