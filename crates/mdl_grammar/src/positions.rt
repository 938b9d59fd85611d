ghost use Rattle.std.specs.Prelude.{◌≡◌, ◌<◌, IfSome, None, Err};
ghost use Rattle.module_grammar.specs.inside.ModuleMachine.{module_step as machine_step};
ghost use Rattle.module_grammar.specs.inside.ModuleMachine.{position_step as machine_position};
ghost use Rattle.module_grammar.specs.inside.ModuleStates.{within};
ghost use Rattle.mdl_grammar.specs.inside.ModuleViews.{ModuleCame, begun_of, position_of, import_position_of};
ghost use Rattle.mdl_grammar.specs.inside.ModuleViews.{annotation_position_of, function_position_of, type_position_of};
ghost use Rattle.expression_grammar.specs.inside.Machine.{left_out};
ghost use Rattle.mdl_grammar.specs.declared.module_state.Begun.{Begun as HeldBegun};
ghost use Rattle.module_grammar.specs.inside.ModuleStates.{leaves_out};
ghost use Rattle.mdl_grammar.specs.inside.ModuleViews.{IsInUse};
ghost use Rattle.expression_grammar.specs.inside.SortViews.{sort_view};

use crate::annotations::{
    annotated_step, annotation_read_step, closing_annotations, own_step, second_bracket,
};
use crate::calls::{expression_step, first_annotation_step};
use crate::declarations::{base_step, enum_closed_step, struct_closed_step};
use crate::fronts::{first_front_step, front_step};
use crate::functions::{
    annotation_named_step, declared_step, parameter_step, star_read_step, variant_step,
};
use crate::imports::{import_ends, import_step};
use crate::items::{
    annotation_declared_step, exported_step, fields_step, function_step, item_step, kin_step,
    parameters_step,
};
use crate::module_state::{
    AnnotationPosition, Begun, Fronting, FunctionPosition, ImportPosition, ModuleStop, Position,
    TypePosition, left_out_form,
};
use crate::sites::opened_step;
use crate::structs::{
    enum_named_step, field_step, number_read_step, number_step, struct_named_step, value_step,
    value_wanted_step,
};
use crate::using::{used_all_step, used_next_step, used_read_step, used_wanted_step, using_step};
use expression_grammar::sort::{Sort, sort_of};
use mdl_lexer::Token;
use mdl_syntax::Span;
use std::alloc::Global;

/// What comes of the token of this number. Sizes that are deferred are read.
pub fn token_step(
    alloc: Global,
    limit: u32,
    number: u32,
    begun: &mut Begun,
    position: Position,
    token: &Token,
) -> Result<Position, ModuleStop>
    requires { limit < 4294967295 }
    ensures { ModuleCame result begun.new
        (machine_step limit number (within (begun_of begun.old) (position_of position)) token.now) }
{
    let place = Span {
        at: token.at,
        end: token.end,
    };
    let sort = sort_of(&token.kind);
    match left_out_text(&sort) {
        Some(text) => Err(left_out_behind(alloc, position, text)),
        None => position_step(alloc, limit, number, begun, position, sort, place),
    }
}

/// A word that is left out ends this position. A function that drops one makes room for all its parts, which the one
/// that takes each token must not.
fn left_out_behind(alloc: Global, position: Position, text: &str) -> ModuleStop
    ensures { (begun : HeldBegun) → ModuleCame (Err result) begun (leaves_out None text.now) }
{
    drop(position);
    left_out_form(alloc, text)
}

/// The text of a word that no form has.
fn left_out_text(sort: &Sort<'_>) -> Option<&'static str>
    ensures some { IfSome result (λ text. sort_view sort.now ≡ left_out text.now) }
    ensures none { result ≡ None → IsInUse (sort_view sort.now) }
{
    match sort {
        Sort::LeftOut(text) => Some(*text),
        _ => None,
    }
}

fn position_step(
    alloc: Global,
    limit: u32,
    number: u32,
    begun: &mut Begun,
    position: Position,
    sort: Sort<'_>,
    place: Span,
) -> Result<Position, ModuleStop>
    requires { limit < 4294967295 }
    ensures { ModuleCame result begun.new (machine_position limit number (begun_of begun.old) (position_of position)
        (sort_view sort.entry) place) }
{
    match position {
        Position::ItemWanted { early } => item_step(alloc, number, begun, early, sort, place),
        Position::Import(position) => {
            import_positions(alloc, limit, number, begun, position, sort, place)
        }
        Position::Annotation(position) => {
            annotation_positions(alloc, limit, number, begun, position, sort, place)
        }
        Position::Function(position) => {
            function_positions(alloc, limit, number, begun, position, sort, place)
        }
        Position::Type(position) => {
            type_positions(alloc, limit, number, begun, position, sort, place)
        }
        Position::Fronting { of, mode } => {
            front_step(alloc, limit, number, begun, of, mode, sort, place)
        },
        Position::Expression { site, mode, frames } => {
            expression_step(alloc, limit, begun, site, mode, frames, sort, place)
        },
        Position::Opened {
            site,
            mode,
            frames,
            bracket,
        } => opened_step(
            alloc, limit, begun, site, mode, frames, bracket, sort, place,
        ),
    }
}

/// A token within an import.
fn import_positions(
    alloc: Global,
    limit: u32,
    number: u32,
    begun: &mut Begun,
    position: ImportPosition,
    sort: Sort<'_>,
    place: Span,
) -> Result<Position, ModuleStop>
    requires { limit < 4294967295 }
    ensures { ModuleCame result begun.new
        (machine_position limit number (begun_of begun.old) (import_position_of position)
        (sort_view sort.entry) place) }
{
    match position {
        ImportPosition::Importing { at, items, naming } => {
            import_step(alloc, begun, at, items, naming, sort, place)
        },
        ImportPosition::Imported { at, items } => import_ends(begun, at, items, sort, place),
        ImportPosition::Using { at, naming } => using_step(alloc, begun, at, naming, sort, place),
        ImportPosition::UsedWanted { at, module: name } => {
            used_wanted_step(alloc, begun, at, name, sort, place)
        },
        ImportPosition::UsedRead {
            at,
            module: name,
            names,
        } => used_read_step(begun, at, name, names, sort, place),
        ImportPosition::UsedNext {
            at,
            module: name,
            names,
        } => used_next_step(begun, at, name, names, sort, place),
        ImportPosition::UsedAll { at, module: name } => used_all_step(begun, at, name, sort, place),
    }
}

/// A token within annotations.
fn annotation_positions(
    alloc: Global,
    limit: u32,
    number: u32,
    begun: &mut Begun,
    position: AnnotationPosition,
    sort: Sort<'_>,
    place: Span,
) -> Result<Position, ModuleStop>
    requires { limit < 4294967295 }
    ensures { ModuleCame result begun.new
        (machine_position limit number (begun_of begun.old) (annotation_position_of position)
        (sort_view sort.entry) place) }
{
    match position {
        AnnotationPosition::OwnWanted => own_step(alloc, begun, sort),
        AnnotationPosition::AnnotationsBegun(holder) => second_bracket(begun, holder, sort),
        AnnotationPosition::FirstAnnotation(holder) => {
            first_annotation_step(alloc, limit, begun, holder, sort, place)
        },
        AnnotationPosition::AnnotationRead {
            holder,
            annotations,
        } => annotation_read_step(alloc, begun, holder, annotations, sort),
        AnnotationPosition::AnnotationsClosing {
            holder,
            annotations,
        } => closing_annotations(begun, holder, annotations, sort, place),
        AnnotationPosition::Annotated {
            holder,
            annotations,
            end,
        } => annotated_step(alloc, begun, holder, annotations, end, sort, place),
    }
}

/// A token within a declaration with parameters, or the front of any.
fn function_positions(
    alloc: Global,
    limit: u32,
    number: u32,
    begun: &mut Begun,
    position: FunctionPosition,
    sort: Sort<'_>,
    place: Span,
) -> Result<Position, ModuleStop>
    requires { limit < 4294967295 }
    ensures { ModuleCame result begun.new
        (machine_position limit number (begun_of begun.old) (function_position_of position)
        (sort_view sort.entry) place) }
{
    match position {
        FunctionPosition::ExportedRead { at } => exported_step(
            alloc, number, begun, at, sort, place,
        ),
        FunctionPosition::KinNamed { at, exported, kin } => {
            kin_step(begun, at, exported, kin, sort, place)
        },
        FunctionPosition::AnnotationNamed(named) => annotation_named_step(begun, named, sort),
        FunctionPosition::Declared(fronted) => declared_step(begun, fronted, sort),
        FunctionPosition::ParametersBegun(owner) => {
            parameters_step(alloc, number, begun, owner, sort, place)
        },
        FunctionPosition::StarRead(fronted) => star_read_step(begun, fronted, sort),
        FunctionPosition::VariantRead(fronted) => variant_step(alloc, begun, fronted, sort),
        FunctionPosition::BaseRead {
            fronted,
            annotations,
            base,
        } => base_step(begun, fronted, annotations, base, sort, place),
        FunctionPosition::ParameterRead {
            owner,
            parameters,
            front,
        } => parameter_step(alloc, begun, owner, parameters, front, sort),
        FunctionPosition::ParameterNext { owner, parameters } => {
            let of = Fronting::Parameter { owner, parameters };
            first_front_step(alloc, number, begun, of, sort, place)
        },
        FunctionPosition::FunctionRead {
            fronted,
            parameters,
            frequency,
        } => function_step(alloc, begun, fronted, parameters, frequency, sort, place),
        FunctionPosition::AnnotationDeclared { named, parameters } => {
            annotation_declared_step(alloc, begun, named, parameters, sort, place)
        },
    }
}

/// A token within a struct or an enum.
fn type_positions(
    alloc: Global,
    limit: u32,
    number: u32,
    begun: &mut Begun,
    position: TypePosition,
    sort: Sort<'_>,
    place: Span,
) -> Result<Position, ModuleStop>
    requires { limit < 4294967295 }
    ensures { ModuleCame result begun.new
        (machine_position limit number (begun_of begun.old) (type_position_of position)
        (sort_view sort.entry) place) }
{
    match position {
        TypePosition::StructNamed(named) => struct_named_step(alloc, begun, named, sort),
        TypePosition::FieldsRead(held) => fields_step(alloc, number, begun, held, sort, place),
        TypePosition::FieldRead { held, front } => field_step(alloc, begun, held, front, sort),
        TypePosition::EnumNamed(named) => enum_named_step(alloc, begun, named, sort),
        TypePosition::ValueWanted(held) => value_wanted_step(begun, held, sort, place),
        TypePosition::ValueRead { held, name } => value_step(alloc, begun, held, name, sort),
        TypePosition::NumberWanted { held, name } => number_step(begun, held, name, sort, place),
        TypePosition::NumberRead {
            held,
            name,
            value,
            end,
        } => number_read_step(alloc, begun, held, name, value, end, sort),
        TypePosition::StructClosed(held) => struct_closed_step(begun, held, sort, place),
        TypePosition::EnumClosed(held) => enum_closed_step(begun, held, sort, place),
    }
}
