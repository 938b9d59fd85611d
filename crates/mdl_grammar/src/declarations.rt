ghost use Rattle.std.specs.Prelude.{◌≡◌, map, Some, None};
ghost use Rattle.mdl_syntax.specs.Trees.{tree_of};
ghost use Rattle.mdl_syntax.specs.Modules.{annotations_of, annotation_of, parameter_of, declaration_of};
ghost use Rattle.mdl_grammar.specs.inside.ModuleViews.{ModuleCame, begun_of, named_of, fronted_of, struct_of, enum_of};
ghost use Rattle.module_grammar.specs.inside.ModuleStates.{on, with_declaration as machine_with_declaration};
ghost use Rattle.module_grammar.specs.inside.ModuleStates.{function_from as machine_function_from};
ghost use Rattle.module_grammar.specs.inside.ModuleStates.{is_material as machine_is_material};
ghost use Rattle.module_grammar.specs.inside.ModuleStates.{prototype_from as machine_prototype_from};
ghost use Rattle.module_grammar.specs.inside.ModuleMachine.{function_annotated as machine_function_annotated};
ghost use Rattle.module_grammar.specs.inside.ModuleMachine.{annotation_annotated as machine_annotation_annotated};
ghost use Rattle.module_grammar.specs.inside.ModuleMachine.{base_step as machine_base};
ghost use Rattle.module_grammar.specs.inside.ModuleMachine.{struct_closed_step as machine_struct_closed};
ghost use Rattle.module_grammar.specs.inside.ModuleMachine.{enum_closed_step as machine_enum_closed};
ghost use Rattle.expression_grammar.specs.inside.SortViews.{sort_view};

use crate::boxes::expression_wanted;
use crate::module_state::{
    Begun, EnumSoFar, Fronted, ModuleStop, Named, Position, Site, StructSoFar,
};
use case_table::Seq;
use expression_grammar::mode::Mode;
use expression_grammar::sort::Sort;
use mdl_lexer::reserved;
use mdl_syntax::{Anno, Decl, Expr, Freq, NameForm, Param, Size, Span, TypeTree};
use std::alloc::Global;

/// A declaration that ends here.
#[tactic(auto, using(crate::proofs::ReaderLaws::longer_declarations))]
pub fn with_declaration(
    begun: &mut Begun,
    declaration: Decl,
    end: u32,
) -> Result<Position, ModuleStop>
    ensures { ModuleCame result begun.new
        (on (machine_with_declaration (begun_of begun.old) (declaration_of declaration) end)) }
{
    begun.declarations.push(declaration)?;
    begun.end = end;
    Ok(Position::ItemWanted { early: false })
}

/// Whether a type is `material` as it stands.
fn is_material(ty: &TypeTree) -> bool
    ensures { result ≡ machine_is_material ty.now }
{
    match (&ty.name.form, &ty.size) {
        (NameForm::Word(number), Size::One) => *number == reserved::MATERIAL,
        _ => false,
    }
}

/// A function, or the material that it is.
pub fn function_from(
    fronted: Box<Fronted>,
    parameters: Vec<Param>,
    freq: Option<Freq>,
    annos: Option<Seq<Anno>>,
    body: Expr,
    end: u32,
) -> Decl
    ensures { declaration_of result ≡ machine_function_from (fronted_of fronted.value)
        (map parameter_of parameters.items) freq (annotations_of annos) (tree_of body) end }
{
    let fronted = Box::into_inner(fronted);
    let span = Span {
        at: fronted.named.at,
        end,
    };
    let params = Seq::of(parameters);
    let exported = fronted.named.exported;
    let name = fronted.named.name;
    match freq {
        None => {
            if is_material(&fronted.ty) {
                Decl::Material {
                    exported,
                    name,
                    params,
                    annos,
                    body,
                    span,
                }
            } else {
                Decl::Function {
                    exported,
                    ty: fronted.ty,
                    name,
                    params,
                    freq: None,
                    annos,
                    body: Some(body),
                    span,
                }
            }
        }
        Some(freq) => Decl::Function {
            exported,
            ty: fronted.ty,
            name,
            params,
            freq: Some(freq),
            annos,
            body: Some(body),
            span,
        },
    }
}

/// The token behind the head of a function.
#[tactic(auto, using(crate::proofs::ReaderLaws::stack_laws))]
pub fn function_annotated(
    alloc: Global,
    begun: &mut Begun,
    fronted: Box<Fronted>,
    parameters: Vec<Param>,
    frequency: Option<Freq>,
    annotations: Option<Seq<Anno>>,
    sort: Sort<'_>,
    place: Span,
) -> Result<Position, ModuleStop>
    ensures { ModuleCame result begun.new (machine_function_annotated (begun_of begun.old) (fronted_of fronted.value)
        (map parameter_of parameters.items) frequency (annotations_of annotations) (sort_view sort.entry) place) }
{
    match sort {
        Sort::Equals => {
            let site = Site::FunctionBody {
                fronted,
                parameters,
                frequency,
                annotations,
            };
            let position = expression_wanted(alloc, site)?;
            Ok(position)
        }
        Sort::Semicolon => {
            let declaration = prototype_from(
                fronted,
                parameters,
                frequency,
                annotations,
                place.end,
            );
            with_declaration(begun, declaration, place.end)
        }
        Sort::OpeningBrace => Err(ModuleStop::StatementBody),
        _ => Err(ModuleStop::Bad),
    }
}

fn prototype_from(
    fronted: Box<Fronted>,
    parameters: Vec<Param>,
    freq: Option<Freq>,
    annos: Option<Seq<Anno>>,
    end: u32,
) -> Decl
    ensures { declaration_of result ≡ machine_prototype_from (fronted_of fronted.value)
        (map parameter_of parameters.items) freq (annotations_of annos) end }
{
    let Fronted { named, ty, .. } = Box::into_inner(fronted);
    let Named { at, exported, name } = named;
    let params = Seq::of(parameters);
    Decl::Function {
        exported,
        ty,
        name,
        params,
        freq,
        annos,
        body: None,
        span: Span { at, end },
    }
}

/// `;` behind an annotation's declaration.
pub fn annotation_annotated(
    begun: &mut Begun,
    named: Named,
    parameters: Vec<Param>,
    annotations: Option<Seq<Anno>>,
    sort: Sort<'_>,
    place: Span,
) -> Result<Position, ModuleStop>
    ensures { ModuleCame result begun.new (machine_annotation_annotated (begun_of begun.old) (named_of named)
        (map parameter_of parameters.items) (annotations_of annotations) (sort_view sort.entry) place) }
{
    match sort {
        Sort::Semicolon => {
            let end = place.end;
            let Named { at, exported, name } = named;
            let params = Seq::of(parameters);
            let declaration = Decl::Annotation {
                exported,
                name,
                params,
                annos: annotations,
                span: Span { at, end },
            };
            with_declaration(begun, declaration, end)
        }
        _ => Err(ModuleStop::Bad),
    }
}

/// `;` behind the base of a variant.
pub fn base_step(
    begun: &mut Begun,
    fronted: Box<Fronted>,
    annotations: Option<Seq<Anno>>,
    base: Anno,
    sort: Sort<'_>,
    place: Span,
) -> Result<Position, ModuleStop>
    ensures { ModuleCame result begun.new (machine_base (begun_of begun.old) (fronted_of fronted.value)
        (annotations_of annotations) (annotation_of base) (sort_view sort.entry) place) }
{
    match sort {
        Sort::Semicolon => {
            let end = place.end;
            let Fronted { named, ty, .. } = Box::into_inner(fronted);
            let Named { at, exported, name } = named;
            let Anno {
                name: base,
                args,
                ..
            } = base;
            let declaration = Decl::Variant {
                exported,
                ty,
                name,
                annos: annotations,
                base,
                args,
                span: Span { at, end },
            };
            with_declaration(begun, declaration, end)
        }
        _ => Err(ModuleStop::Bad),
    }
}

/// `;` behind a struct.
pub fn struct_closed_step(
    begun: &mut Begun,
    held: StructSoFar,
    sort: Sort<'_>,
    place: Span,
) -> Result<Position, ModuleStop>
    ensures { ModuleCame result begun.new
        (machine_struct_closed (begun_of begun.old) (struct_of held) (sort_view sort.entry) place) }
{
    match sort {
        Sort::Semicolon => {
            let end = place.end;
            let StructSoFar {
                named,
                annotations: annos,
                fields,
            } = held;
            let Named { at, exported, name } = named;
            let fields = Seq::of(fields);
            let declaration = Decl::Struct {
                exported,
                name,
                annos,
                fields,
                span: Span { at, end },
            };
            with_declaration(begun, declaration, end)
        }
        _ => Err(ModuleStop::Bad),
    }
}

/// `;` behind an enum.
pub fn enum_closed_step(
    begun: &mut Begun,
    held: EnumSoFar,
    sort: Sort<'_>,
    place: Span,
) -> Result<Position, ModuleStop>
    ensures { ModuleCame result begun.new
        (machine_enum_closed (begun_of begun.old) (enum_of held) (sort_view sort.entry) place) }
{
    match sort {
        Sort::Semicolon => {
            let end = place.end;
            let EnumSoFar {
                named,
                annotations: annos,
                values,
            } = held;
            let Named { at, exported, name } = named;
            let values = Seq::of(values);
            let declaration = Decl::Enum {
                exported,
                name,
                annos,
                values,
                span: Span { at, end },
            };
            with_declaration(begun, declaration, end)
        }
        _ => Err(ModuleStop::Bad),
    }
}
