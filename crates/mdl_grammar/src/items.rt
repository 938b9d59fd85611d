ghost use Rattle.std.specs.Prelude.{◌≡◌, map, Some, None, true};
ghost use Rattle.mdl_syntax.specs.Modules.{parameter_of};
ghost use Rattle.module_grammar.specs.inside.ModuleMachine.{declaration_step as machine_declaration};
ghost use Rattle.module_grammar.specs.inside.ModuleMachine.{item_step as machine_item};
ghost use Rattle.module_grammar.specs.inside.ModuleMachine.{exported_step as machine_exported, kin_step as machine_kin};
ghost use Rattle.module_grammar.specs.inside.ModuleMachine.{parameters_step as machine_parameters};
ghost use Rattle.module_grammar.specs.inside.ModuleMachine.{fields_step as machine_fields};
ghost use Rattle.module_grammar.specs.inside.ModuleMachine.{function_step as machine_function};
ghost use Rattle.module_grammar.specs.inside.ModuleMachine.{annotation_declared_step as machine_annotation_declared};
ghost use Rattle.mdl_grammar.specs.inside.ModuleViews.{ModuleCame, begun_of, kin_of, owner_of, struct_of, named_of};
ghost use Rattle.mdl_grammar.specs.inside.ModuleViews.{fronted_of};
ghost use Rattle.mdl_grammar.specs.inside.ModuleViews.{late_item, unmarked};
ghost use Rattle.mdl_grammar.specs.declared.module_state.ModuleStop.TheVariants as stop;
ghost use Rattle.expression_grammar.specs.inside.SortViews.{sort_view};

use crate::boxes::begin_annotations;
use crate::declarations::{annotation_annotated, function_annotated};
use crate::fronts::{first_front_step, typed_step};
use crate::functions::{parameters_read, star_step};
use crate::module_state::{
    AnnotationPosition, Begun, Fronted, Fronting, FunctionPosition, Holder, ImportPosition, Kin,
    ModuleStop, Named, Naming, Owner, Position, StructSoFar, TypePosition, left_out_form,
};
use expression_grammar::sort::Sort;
use expression_grammar::wanted::ident;
use mdl_lexer::mark;
use mdl_syntax::{Freq, Param, Span};
use std::alloc::Global;

/// The first token of an import, of the module's annotations or of a declaration, with its number.
pub fn item_step(
    alloc: Global,
    token: u32,
    begun: &Begun,
    early: bool,
    sort: Sort<'_>,
    place: Span,
) -> Result<Position, ModuleStop>
    ensures { ModuleCame result begun.now (machine_item token (begun_of begun.now) early (sort_view sort.entry) place) }
{
    if early {
        early_step(alloc, token, begun, sort, place)
    } else {
        late_step(alloc, token, begun, sort, place)
    }
}

/// Where imports and annotations of the module may come.
fn early_step(
    alloc: Global,
    token: u32,
    begun: &Begun,
    sort: Sort<'_>,
    place: Span,
) -> Result<Position, ModuleStop>
    ensures { ModuleCame result begun.now (machine_item token (begun_of begun.now) true (sort_view sort.entry) place) }
{
    match sort {
        Sort::Import => Ok(Position::Import(ImportPosition::Importing {
            at: place.at,
            items: Vec::new(alloc),
            naming: Naming::Unnamed,
        })),
        Sort::Using => Ok(Position::Import(ImportPosition::Using {
            at: place.at,
            naming: Naming::Unnamed,
        })),
        Sort::Module => Ok(Position::Annotation(AnnotationPosition::OwnWanted)),
        other => late_step(alloc, token, begun, other, place),
    }
}

/// The first token of a declaration, which may be `export`.
fn late_step(
    alloc: Global,
    token: u32,
    begun: &Begun,
    sort: Sort<'_>,
    place: Span,
) -> Result<Position, ModuleStop>
    ensures { ModuleCame result begun.now (late_item token (begun_of begun.now) (sort_view sort.entry) place) }
{
    match sort {
        Sort::Export => Ok(Position::Function(FunctionPosition::ExportedRead { at: place.at })),
        other => declaration_step(alloc, token, begun, place.at, false, other, place),
    }
}

/// The token behind `export`.
pub fn exported_step(
    alloc: Global,
    token: u32,
    begun: &Begun,
    at: u32,
    sort: Sort<'_>,
    place: Span,
) -> Result<Position, ModuleStop>
    ensures { ModuleCame result begun.now
        (machine_exported token (begun_of begun.now) at (sort_view sort.entry) place) }
{
    match sort {
        Sort::Using => Err(left_out_form(alloc, "re-export")),
        other => declaration_step(alloc, token, begun, at, true, other, place),
    }
}

/// The first token of a declaration but for `export`.
fn declaration_step(
    alloc: Global,
    token: u32,
    begun: &Begun,
    at: u32,
    exported: bool,
    sort: Sort<'_>,
    place: Span,
) -> Result<Position, ModuleStop>
    ensures { ModuleCame result begun.now (machine_declaration token (begun_of begun.now) at exported
        (sort_view sort.entry) place) }
{
    match sort {
        Sort::Struct => Ok(Position::Function(FunctionPosition::KinNamed {
            at,
            exported,
            kin: Kin::Struct,
        })),
        Sort::Enum => Ok(Position::Function(FunctionPosition::KinNamed {
            at,
            exported,
            kin: Kin::Enum,
        })),
        Sort::Annotation => Ok(Position::Function(FunctionPosition::KinNamed {
            at,
            exported,
            kin: Kin::Annotation,
        })),
        other => typed_step(alloc, token, begun, at, exported, other, place),
    }
}

/// The name behind `struct`, `enum` or `annotation`.
pub fn kin_step(
    begun: &Begun,
    at: u32,
    exported: bool,
    kin: Kin,
    sort: Sort<'_>,
    place: Span,
) -> Result<Position, ModuleStop>
    ensures { ModuleCame result begun.now (machine_kin (begun_of begun.now) at exported (kin_of kin)
        (sort_view sort.entry) place) }
{
    match sort {
        Sort::Identifier(text) => {
            let name = ident(text, place)?;
            let named = Named { at, exported, name };
            match kin {
                Kin::Struct => Ok(Position::Type(TypePosition::StructNamed(named))),
                Kin::Enum => Ok(Position::Type(TypePosition::EnumNamed(named))),
                Kin::Annotation => Ok(Position::Function(FunctionPosition::AnnotationNamed(named))),
            }
        }
        _ => Err(ModuleStop::Bad),
    }
}

/// The token behind `(`, with its number.
pub fn parameters_step(
    alloc: Global,
    token: u32,
    begun: &Begun,
    owner: Owner,
    sort: Sort<'_>,
    place: Span,
) -> Result<Position, ModuleStop>
    ensures { ModuleCame result begun.now (machine_parameters token (begun_of begun.now) (owner_of owner)
        (sort_view sort.entry) place) }
{
    match sort {
        Sort::Closing => Ok(parameters_read(owner, Vec::new(alloc))),
        Sort::BinaryOperator { op, .. } => {
            if op == mark::STAR {
                star_step(begun, owner)
            } else {
                Err(refused_owner(owner))
            }
        }
        other => {
            let parameters = Vec::new(alloc);
            let of = Fronting::Parameter { owner, parameters };
            first_front_step(alloc, token, begun, of, other, place)
        }
    }
}

fn refused_owner(_owner: Owner) -> ModuleStop
    ensures { result ≡ stop.Bad }
{
    ModuleStop::Bad
}

/// The token behind `{` or a whole field, with its number.
pub fn fields_step(
    alloc: Global,
    token: u32,
    begun: &Begun,
    held: StructSoFar,
    sort: Sort<'_>,
    place: Span,
) -> Result<Position, ModuleStop>
    ensures { ModuleCame result begun.now (machine_fields token (begun_of begun.now) (struct_of held)
        (sort_view sort.entry) place) }
{
    match sort {
        Sort::ClosingBrace => Ok(Position::Type(TypePosition::StructClosed(held))),
        other => first_front_step(alloc, token, begun, Fronting::Field(held), other, place),
    }
}

/// The token behind all parameters of a function.
pub fn function_step(
    alloc: Global,
    begun: &mut Begun,
    fronted: Box<Fronted>,
    parameters: Vec<Param>,
    frequency: Option<Freq>,
    sort: Sort<'_>,
    place: Span,
) -> Result<Position, ModuleStop>
    ensures { ModuleCame result begun.new (machine_function (begun_of begun.old) (fronted_of fronted.value)
        (map parameter_of parameters.items) frequency (sort_view sort.entry) place) }
{
    match frequency {
        None => frequency_step(alloc, begun, fronted, parameters, sort, place),
        Some(freq) => behind_frequency(alloc, begun, fronted, parameters, Some(freq), sort, place),
    }
}

/// Where a frequency may come.
fn frequency_step(
    alloc: Global,
    begun: &mut Begun,
    fronted: Box<Fronted>,
    parameters: Vec<Param>,
    sort: Sort<'_>,
    place: Span,
) -> Result<Position, ModuleStop>
    ensures { ModuleCame result begun.new (machine_function (begun_of begun.old) (fronted_of fronted.value)
        (map parameter_of parameters.items) None (sort_view sort.entry) place) }
{
    match sort {
        Sort::Frequency(freq) => Ok(Position::Function(FunctionPosition::FunctionRead {
            fronted,
            parameters,
            frequency: Some(freq),
        })),
        other => behind_frequency(alloc, begun, fronted, parameters, None, other, place),
    }
}

fn behind_frequency(
    alloc: Global,
    begun: &mut Begun,
    fronted: Box<Fronted>,
    parameters: Vec<Param>,
    frequency: Option<Freq>,
    sort: Sort<'_>,
    place: Span,
) -> Result<Position, ModuleStop>
    ensures { ModuleCame result begun.new (unmarked (begun_of begun.old) (fronted_of fronted.value)
        (map parameter_of parameters.items) frequency (sort_view sort.entry) place) }
{
    match sort {
        Sort::OpeningBracket => {
            let holder = Holder::Function {
                fronted,
                parameters,
                frequency,
            };
            let position = begin_annotations(alloc, holder)?;
            Ok(position)
        }
        other => function_annotated(
            alloc, begun, fronted, parameters, frequency, None, other, place,
        ),
    }
}

/// The token behind all parameters of an annotation.
pub fn annotation_declared_step(
    alloc: Global,
    begun: &mut Begun,
    named: Named,
    parameters: Vec<Param>,
    sort: Sort<'_>,
    place: Span,
) -> Result<Position, ModuleStop>
    ensures { ModuleCame result begun.new (machine_annotation_declared (begun_of begun.old) (named_of named)
        (map parameter_of parameters.items) (sort_view sort.entry) place) }
{
    match sort {
        Sort::OpeningBracket => {
            let position = begin_annotations(alloc, Holder::Annotation { named, parameters })?;
            Ok(position)
        }
        other => annotation_annotated(begun, named, parameters, None, other, place),
    }
}
