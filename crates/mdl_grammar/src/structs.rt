ghost use Rattle.std.specs.Prelude.{◌≡◌, Some, None, IfOk};
ghost use Rattle.mdl_syntax.specs.Modules.{annotations_of, parameter_of, enum_value_of};
ghost use Rattle.mdl_grammar.specs.inside.ModuleViews.{ModuleCame, begun_of, named_of, front_of, struct_of, enum_of};
ghost use Rattle.module_grammar.specs.inside.ModuleMachine.{struct_annotated as machine_struct_annotated};
ghost use Rattle.module_grammar.specs.inside.ModuleMachine.{struct_named_step as machine_struct_named};
ghost use Rattle.module_grammar.specs.inside.ModuleMachine.{field_ends as machine_field_ends};
ghost use Rattle.module_grammar.specs.inside.ModuleMachine.{field_step as machine_field};
ghost use Rattle.module_grammar.specs.inside.ModuleStates.{plain_parameter as machine_plain};
ghost use Rattle.module_grammar.specs.inside.ModuleMachine.{enum_annotated as machine_enum_annotated};
ghost use Rattle.module_grammar.specs.inside.ModuleMachine.{enum_named_step as machine_enum_named};
ghost use Rattle.module_grammar.specs.inside.ModuleMachine.{value_wanted_step as machine_value_wanted};
ghost use Rattle.module_grammar.specs.inside.ModuleMachine.{value_ends as machine_value_ends};
ghost use Rattle.module_grammar.specs.inside.ModuleMachine.{value_step as machine_value};
ghost use Rattle.module_grammar.specs.inside.ModuleMachine.{number_step as machine_number};
ghost use Rattle.module_grammar.specs.inside.ModuleMachine.{number_read_step as machine_number_read};
ghost use Rattle.module_grammar.specs.inside.ModuleStates.{enum_value_from as machine_enum_value};
ghost use Rattle.module_grammar.specs.inside.ModuleStates.{with_value as machine_with_value};
ghost use Rattle.expression_grammar.specs.inside.SortViews.{sort_view};

use crate::boxes::{begin_annotations, expression_wanted};
use crate::module_state::{
    Begun, EnumSoFar, Front, Holder, ModuleStop, Named, Position, Site, StructSoFar, TypePosition,
};
use case_table::Seq;
use expression_grammar::mode::Mode;
use expression_grammar::sort::Sort;
use expression_grammar::wanted::ident;
use mdl_syntax::{Anno, EnumItem, Ident, Param, Span};
use std::alloc::{AllocError, Global};

/// The token behind the name of a struct and its annotations.
pub fn struct_annotated(
    alloc: Global,
    begun: &Begun,
    named: Named,
    annotations: Option<Seq<Anno>>,
    sort: Sort<'_>,
) -> Result<Position, ModuleStop>
    ensures { ModuleCame result begun.now (machine_struct_annotated (begun_of begun.now) (named_of named)
        (annotations_of annotations) (sort_view sort.entry)) }
{
    match sort {
        Sort::OpeningBrace => Ok(Position::Type(TypePosition::FieldsRead(StructSoFar {
            named,
            annotations,
            fields: Vec::new(alloc),
        }))),
        _ => Err(ModuleStop::Bad),
    }
}

/// The token behind the name of a struct.
pub fn struct_named_step(
    alloc: Global,
    begun: &Begun,
    named: Named,
    sort: Sort<'_>,
) -> Result<Position, ModuleStop>
    ensures { ModuleCame result begun.now
        (machine_struct_named (begun_of begun.now) (named_of named) (sort_view sort.entry)) }
{
    match sort {
        Sort::OpeningBracket => {
            let position = begin_annotations(alloc, Holder::Struct(named))?;
            Ok(position)
        }
        other => struct_annotated(alloc, begun, named, None, other),
    }
}

/// The token behind the name of a field.
#[tactic(auto, using(crate::proofs::ReaderLaws::stack_laws))]
pub fn field_step(
    alloc: Global,
    begun: &Begun,
    held: StructSoFar,
    front: Box<Front>,
    sort: Sort<'_>,
) -> Result<Position, ModuleStop>
    ensures { ModuleCame result begun.now (machine_field (begun_of begun.now) (struct_of held)
        (front_of front.value) (sort_view sort.entry)) }
{
    match sort {
        Sort::Equals => {
            let position = expression_wanted(alloc, Site::FieldDefault { held, front })?;
            Ok(position)
        }
        Sort::OpeningBracket => {
            let holder = Holder::Field {
                held,
                front,
                default: None,
            };
            let position = begin_annotations(alloc, holder)?;
            Ok(position)
        }
        other => field_ends(begun, held, plain_parameter(front), other),
    }
}

/// A parameter or a field without a default and without annotations.
pub fn plain_parameter(front: Box<Front>) -> Param
    ensures { parameter_of result ≡ machine_plain (front_of front.value) None }
{
    let front = Box::into_inner(front);
    let span = Span {
        at: front.at,
        end: front.name.span.end,
    };
    Param {
        freq: front.frequency,
        ty: front.ty,
        name: front.name,
        default: None,
        annos: None,
        span,
    }
}

/// `;` behind a field.
pub fn field_ends(
    begun: &Begun,
    held: StructSoFar,
    field: Param,
    sort: Sort<'_>,
) -> Result<Position, ModuleStop>
    ensures { ModuleCame result begun.now (machine_field_ends (begun_of begun.now) (struct_of held)
        (parameter_of field) (sort_view sort.entry)) }
{
    match sort {
        Sort::Semicolon => {
            let mut fields = held.fields;
            fields.push(field)?;
            Ok(Position::Type(TypePosition::FieldsRead(StructSoFar {
                named: held.named,
                annotations: held.annotations,
                fields,
            })))
        }
        _ => Err(ModuleStop::Bad),
    }
}

/// The token behind the name of an enum and its annotations.
pub fn enum_annotated(
    alloc: Global,
    begun: &Begun,
    named: Named,
    annotations: Option<Seq<Anno>>,
    sort: Sort<'_>,
) -> Result<Position, ModuleStop>
    ensures { ModuleCame result begun.now (machine_enum_annotated (begun_of begun.now) (named_of named)
        (annotations_of annotations) (sort_view sort.entry)) }
{
    match sort {
        Sort::OpeningBrace => Ok(Position::Type(TypePosition::ValueWanted(EnumSoFar {
            named,
            annotations,
            values: Vec::new(alloc),
        }))),
        _ => Err(ModuleStop::Bad),
    }
}

/// The token behind the name of an enum.
pub fn enum_named_step(
    alloc: Global,
    begun: &Begun,
    named: Named,
    sort: Sort<'_>,
) -> Result<Position, ModuleStop>
    ensures { ModuleCame result begun.now
        (machine_enum_named (begun_of begun.now) (named_of named) (sort_view sort.entry)) }
{
    match sort {
        Sort::OpeningBracket => {
            let position = begin_annotations(alloc, Holder::Enum(named))?;
            Ok(position)
        }
        other => enum_annotated(alloc, begun, named, None, other),
    }
}

/// The name of a value.
pub fn value_wanted_step(
    begun: &Begun,
    held: EnumSoFar,
    sort: Sort<'_>,
    place: Span,
) -> Result<Position, ModuleStop>
    ensures { ModuleCame result begun.now
        (machine_value_wanted (begun_of begun.now) (enum_of held) (sort_view sort.entry) place) }
{
    match sort {
        Sort::Identifier(text) => {
            let name = ident(text, place)?;
            Ok(Position::Type(TypePosition::ValueRead { held, name }))
        }
        _ => Err(ModuleStop::Bad),
    }
}

/// The token behind the name of a value.
pub fn value_step(
    alloc: Global,
    begun: &Begun,
    held: EnumSoFar,
    name: Ident,
    sort: Sort<'_>,
) -> Result<Position, ModuleStop>
    ensures { ModuleCame result begun.now
        (machine_value (begun_of begun.now) (enum_of held) name (sort_view sort.entry)) }
{
    match sort {
        Sort::Equals => Ok(Position::Type(TypePosition::NumberWanted { held, name })),
        Sort::OpeningBracket => {
            let holder = Holder::EnumValue {
                held,
                name,
                number: None,
            };
            let position = begin_annotations(alloc, holder)?;
            Ok(position)
        }
        other => {
            let end = name.span.end;
            value_ends(begun, held, enum_value(name, None, None, end), other)
        }
    }
}

/// A value that ends here.
pub fn enum_value(name: Ident, number: Option<u32>, annos: Option<Seq<Anno>>, end: u32) -> EnumItem
    ensures { enum_value_of result ≡ machine_enum_value name number (annotations_of annos) end }
{
    let at = name.span.at;
    EnumItem {
        name,
        number,
        annos,
        span: Span { at, end },
    }
}

/// `,` or `}` behind a value.
pub fn value_ends(
    begun: &Begun,
    held: EnumSoFar,
    value: EnumItem,
    sort: Sort<'_>,
) -> Result<Position, ModuleStop>
    ensures { ModuleCame result begun.now (machine_value_ends (begun_of begun.now) (enum_of held)
        (enum_value_of value) (sort_view sort.entry)) }
{
    match sort {
        Sort::Comma => {
            let held = with_value(held, value)?;
            Ok(Position::Type(TypePosition::ValueWanted(held)))
        }
        Sort::ClosingBrace => {
            let held = with_value(held, value)?;
            Ok(Position::Type(TypePosition::EnumClosed(held)))
        }
        _ => Err(ModuleStop::Bad),
    }
}

fn with_value(held: EnumSoFar, value: EnumItem) -> Result<EnumSoFar, AllocError>
    ensures { IfOk result (λ longer. enum_of longer ≡ machine_with_value (enum_of held) (enum_value_of value)) }
{
    let mut values = held.values;
    values.push(value)?;
    Ok(EnumSoFar {
        named: held.named,
        annotations: held.annotations,
        values,
    })
}

/// The number of a value.
pub fn number_step(
    begun: &Begun,
    held: EnumSoFar,
    name: Ident,
    sort: Sort<'_>,
    place: Span,
) -> Result<Position, ModuleStop>
    ensures { ModuleCame result begun.now
        (machine_number (begun_of begun.now) (enum_of held) name (sort_view sort.entry) place) }
{
    match sort {
        Sort::Integer(value) => Ok(Position::Type(TypePosition::NumberRead {
            held,
            name,
            value,
            end: place.end,
        })),
        _ => Err(ModuleStop::Bad),
    }
}

/// The token behind the number of a value.
pub fn number_read_step(
    alloc: Global,
    begun: &Begun,
    held: EnumSoFar,
    name: Ident,
    value: u32,
    end: u32,
    sort: Sort<'_>,
) -> Result<Position, ModuleStop>
    ensures { ModuleCame result begun.now
        (machine_number_read (begun_of begun.now) (enum_of held) name value end (sort_view sort.entry)) }
{
    match sort {
        Sort::OpeningBracket => {
            let holder = Holder::EnumValue {
                held,
                name,
                number: Some(value),
            };
            let position = begin_annotations(alloc, holder)?;
            Ok(position)
        }
        other => value_ends(begun, held, enum_value(name, Some(value), None, end), other),
    }
}
