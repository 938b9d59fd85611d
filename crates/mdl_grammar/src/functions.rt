ghost use Rattle.std.specs.Prelude.{◌≡◌, ◌++◌, ◌∷◌, [], map, None, IfOk};
ghost use Rattle.mdl_syntax.specs.Modules.{annotations_of, parameter_of};
ghost use Rattle.mdl_grammar.specs.inside.ModuleViews.{ModuleCame, begun_of, named_of, fronted_of, front_of, owner_of};
ghost use Rattle.module_grammar.specs.inside.ModuleMachine.{declared_step as machine_declared};
ghost use Rattle.module_grammar.specs.inside.ModuleMachine.{parameters_state as machine_parameters_state};
ghost use Rattle.module_grammar.specs.inside.ModuleMachine.{parameter_ends as machine_parameter_ends};
ghost use Rattle.module_grammar.specs.inside.ModuleMachine.{parameter_step as machine_parameter};
ghost use Rattle.module_grammar.specs.inside.ModuleMachine.{star_step as machine_star};
ghost use Rattle.module_grammar.specs.inside.ModuleMachine.{star_read_step as machine_star_read};
ghost use Rattle.module_grammar.specs.inside.ModuleMachine.{variant_annotated as machine_variant_annotated};
ghost use Rattle.module_grammar.specs.inside.ModuleMachine.{variant_step as machine_variant};
ghost use Rattle.module_grammar.specs.inside.ModuleMachine.{annotation_named_step as machine_annotation_named};
ghost use Rattle.mdl_grammar.specs.inside.ModuleViews.{position_of};
ghost use Rattle.expression_grammar.specs.inside.SortViews.{sort_view};

use crate::boxes::{begin_annotations, expression_wanted};
use crate::module_state::{
    Begun, Front, Fronted, FunctionPosition, Holder, ModuleStop, Named, Owner, Position, Site,
};
use crate::structs::plain_parameter;
use case_table::Seq;
use expression_grammar::mode::Mode;
use expression_grammar::sort::Sort;
use mdl_syntax::{Anno, Param};
use std::alloc::{AllocError, Global};

/// `(` behind a type and a name.
pub fn declared_step(
    begun: &Begun,
    fronted: Box<Fronted>,
    sort: Sort<'_>,
) -> Result<Position, ModuleStop>
    ensures { ModuleCame result begun.now
        (machine_declared (begun_of begun.now) (fronted_of fronted.value) (sort_view sort.entry)) }
{
    match sort {
        Sort::Opening => Ok(Position::Function(FunctionPosition::ParametersBegun(Owner::Function(
            fronted,
        )))),
        _ => Err(ModuleStop::Bad),
    }
}

/// `(` behind the name of an annotation.
pub fn annotation_named_step(
    begun: &Begun,
    named: Named,
    sort: Sort<'_>,
) -> Result<Position, ModuleStop>
    ensures { ModuleCame result begun.now
        (machine_annotation_named (begun_of begun.now) (named_of named) (sort_view sort.entry)) }
{
    match sort {
        Sort::Opening => Ok(Position::Function(FunctionPosition::ParametersBegun(Owner::Annotation(
            named,
        )))),
        _ => Err(ModuleStop::Bad),
    }
}

/// Behind all parameters.
pub fn parameters_read(owner: Owner, parameters: Vec<Param>) -> Position
    ensures { position_of result ≡ machine_parameters_state (owner_of owner) (map parameter_of parameters.items) }
{
    match owner {
        Owner::Function(fronted) => Position::Function(FunctionPosition::FunctionRead {
            fronted,
            parameters,
            frequency: None,
        }),
        Owner::Annotation(named) => Position::Function(FunctionPosition::AnnotationDeclared {
            named,
            parameters,
        }),
    }
}

/// `*` behind `(`
pub fn star_step(begun: &Begun, owner: Owner) -> Result<Position, ModuleStop>
    ensures { ModuleCame result begun.now (machine_star (begun_of begun.now) (owner_of owner)) }
{
    match owner {
        Owner::Function(fronted) => Ok(Position::Function(FunctionPosition::StarRead(fronted))),
        Owner::Annotation(_) => Err(ModuleStop::Bad),
    }
}

/// The token behind a whole parameter, which is the last one so far.
pub fn parameter_ends(
    begun: &Begun,
    owner: Owner,
    parameters: Vec<Param>,
    sort: Sort<'_>,
) -> Result<Position, ModuleStop>
    ensures { ModuleCame result begun.now (machine_parameter_ends (begun_of begun.now) (owner_of owner)
        (map parameter_of parameters.items) (sort_view sort.entry)) }
{
    match sort {
        Sort::Comma => Ok(Position::Function(FunctionPosition::ParameterNext {
            owner,
            parameters,
        })),
        Sort::Closing => Ok(parameters_read(owner, parameters)),
        _ => Err(ModuleStop::Bad),
    }
}

/// The token behind the name of a parameter.
#[tactic(auto, using(crate::proofs::ReaderLaws::stack_laws))]
pub fn parameter_step(
    alloc: Global,
    begun: &Begun,
    owner: Owner,
    parameters: Vec<Param>,
    front: Box<Front>,
    sort: Sort<'_>,
) -> Result<Position, ModuleStop>
    ensures { ModuleCame result begun.now (machine_parameter (begun_of begun.now) (owner_of owner)
        (map parameter_of parameters.items) (front_of front.value) (sort_view sort.entry)) }
{
    match sort {
        Sort::Equals => {
            let site = Site::Default {
                owner,
                parameters,
                front,
            };
            let position = expression_wanted(alloc, site)?;
            Ok(position)
        }
        Sort::OpeningBracket => {
            let holder = Holder::Parameter {
                owner,
                parameters,
                front,
                default: None,
            };
            let position = begin_annotations(alloc, holder)?;
            Ok(position)
        }
        other => {
            let mut parameters = parameters;
            parameters.push(plain_parameter(front))?;
            parameter_ends(begun, owner, parameters, other)
        }
    }
}

/// `)` behind `(*`
pub fn star_read_step(
    begun: &Begun,
    fronted: Box<Fronted>,
    sort: Sort<'_>,
) -> Result<Position, ModuleStop>
    ensures { ModuleCame result begun.now
        (machine_star_read (begun_of begun.now) (fronted_of fronted.value) (sort_view sort.entry)) }
{
    match sort {
        Sort::Closing => Ok(Position::Function(FunctionPosition::VariantRead(fronted))),
        _ => Err(ModuleStop::Bad),
    }
}

/// `=` behind a variant and its annotations.
#[tactic(auto, using(crate::proofs::ReaderLaws::stack_laws))]
pub fn variant_annotated(
    alloc: Global,
    begun: &Begun,
    fronted: Box<Fronted>,
    annotations: Option<Seq<Anno>>,
    sort: Sort<'_>,
) -> Result<Position, ModuleStop>
    ensures { ModuleCame result begun.now (machine_variant_annotated (begun_of begun.now) (fronted_of fronted.value)
        (annotations_of annotations) (sort_view sort.entry)) }
{
    match sort {
        Sort::Equals => {
            let site = Site::Base {
                fronted,
                annotations,
            };
            let position = expression_wanted(alloc, site)?;
            Ok(position)
        }
        _ => Err(ModuleStop::Bad),
    }
}

/// The token behind `(*)`
pub fn variant_step(
    alloc: Global,
    begun: &Begun,
    fronted: Box<Fronted>,
    sort: Sort<'_>,
) -> Result<Position, ModuleStop>
    ensures { ModuleCame result begun.now
        (machine_variant (begun_of begun.now) (fronted_of fronted.value) (sort_view sort.entry)) }
{
    match sort {
        Sort::OpeningBracket => {
            let position = begin_annotations(alloc, Holder::Variant(fronted))?;
            Ok(position)
        }
        other => variant_annotated(alloc, begun, fronted, None, other),
    }
}

/// Parameters with one more.
#[tactic(auto, using(crate::proofs::ReaderLaws::longer_parameters))]
pub fn with_parameter(parameters: Vec<Param>, one: Param) -> Result<Vec<Param>, AllocError>
    ensures { IfOk result (λ longer. map parameter_of longer.items
        ≡ map parameter_of parameters.items ++ parameter_of one ∷ []) }
{
    let mut parameters = parameters;
    parameters.push(one)?;
    Ok(parameters)
}
