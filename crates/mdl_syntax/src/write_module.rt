ghost use Rattle.std.specs.Prelude.{◌≡◌, ◌≤◌, ◌∷◌, [], ◌++◌, map, codes, Some, IfOk, OnOk};
ghost use Rattle.mdl_lexer.specs.declared.token.Kind.TheVariants as kind;
ghost use Rattle.mdl_lexer.specs.Kinds.{mark_word};
ghost use Rattle.mdl_syntax.specs.Trees.{tree_of, argument_of, arguments_of};
ghost use Rattle.mdl_syntax.specs.Words.{name_words, type_words, ident_word};
ghost use Rattle.mdl_syntax.specs.Written.{write, write_arguments};
ghost use Rattle.mdl_syntax.specs.Modules.{annotation_of, annotations_of, parameter_of, default_of};
ghost use Rattle.mdl_syntax.specs.Modules.{enum_value_of, declaration_of, module_of};
ghost use Rattle.mdl_syntax.specs.WrittenModules as words;
ghost use Rattle.mdl_syntax.specs.Heights.{most_height};
ghost use Rattle.mdl_syntax.specs.AcceptedModules.{module_height};

use crate::declarations::{Anno, Decl, EnumItem, Param};
use crate::expressions::{Argument, Expr};
use crate::imports::{Import, Lead, ModuleRef, Qualified};
use crate::modules::{Module, VersionLit};
use crate::names::{Ident, Name};
use crate::types::TypeTree;
use crate::words::{
    push_frequency, push_ident, push_mark, push_name, push_parts, push_reserved, push_type,
};
use crate::write::{push_arguments, push_tree};
use case_table::{OutOfMemory, Seq, Text};
use mdl_lexer::{Kind, mark, reserved};
use std::alloc::{AllocError, Global};

/// The words that a module writes, with expressions of a height of at most 400.
pub fn write_tokens(alloc: Global, tree: &Module) -> Result<Vec<Kind>, OutOfMemory>
    requires { module_height (module_of tree.now) ≤ most_height }
    ensures { IfOk result (λ kinds. kinds.items ≡ words.write_module (module_of tree.now)) }
{
    let mut kinds = Vec::new(alloc);
    push_module(alloc, &mut kinds, tree)?;
    Ok(kinds)
}

pub(crate) fn push_module(
    alloc: Global,
    kinds: &mut Vec<Kind>,
    tree: &Module,
) -> Result<(), AllocError>
    ensures { OnOk result (kinds.new.items ≡ kinds.old.items ++ words.write_module (module_of tree.now)) }
{
    push_reserved(kinds, reserved::MDL)?;
    push_version(alloc, kinds, &tree.version)?;
    push_mark(kinds, mark::SEMICOLON)?;
    push_imports(alloc, kinds, tree.imports.list())?;
    push_own(alloc, kinds, &tree.annos)?;
    push_declarations(alloc, kinds, tree.decls.list())
}

fn push_version(
    alloc: Global,
    kinds: &mut Vec<Kind>,
    version: &VersionLit,
) -> Result<(), AllocError>
    ensures { OnOk result (kinds.new.items ≡ kinds.old.items ++ kind.Real version.now.text version.now.double ∷ []) }
{
    let text = Text::copy(alloc, version.text.as_str())?;
    kinds.push(Kind::Real {
        text,
        double: version.double,
    })?;
    Ok(())
}

#[tactic(auto, using(crate::proofs::ModulePieces::module_pieces))]
fn push_imports(alloc: Global, kinds: &mut Vec<Kind>, imports: &[Import]) -> Result<(), AllocError>
    ensures { OnOk result (kinds.new.items ≡ kinds.old.items ++ words.write_each words.write_import imports.now) }
{
    for import in imports {
        push_import(alloc, kinds, import)?;
    }
    Ok(())
}

fn push_import(alloc: Global, kinds: &mut Vec<Kind>, import: &Import) -> Result<(), AllocError>
    ensures { OnOk result (kinds.new.items ≡ kinds.old.items ++ words.write_import import.now) }
{
    match import {
        Import::Import { items, .. } => {
            push_reserved(kinds, reserved::IMPORT)?;
            push_items(alloc, kinds, items.list())?;
            push_mark(kinds, mark::SEMICOLON)
        }
        Import::Using { module, names, .. } => {
            push_reserved(kinds, reserved::USING)?;
            push_module_name(alloc, kinds, module)?;
            push_reserved(kinds, reserved::IMPORT)?;
            push_used(alloc, kinds, names)?;
            push_mark(kinds, mark::SEMICOLON)
        }
    }
}

/// Appends what is imported, with commas between.
#[tactic(auto, using(crate::proofs::ModulePieces::module_pieces))]
fn push_items(alloc: Global, kinds: &mut Vec<Kind>, items: &[Qualified]) -> Result<(), AllocError>
    ensures { OnOk result (kinds.new.items ≡ kinds.old.items ++ words.write_several words.qualified_words items.now) }
{
    let Some((first, others)) = items.split_first() else {
        return Ok(());
    };
    push_qualified(alloc, kinds, first)?;
    for item in others {
        push_mark(kinds, mark::COMMA)?;
        push_qualified(alloc, kinds, item)?;
    }
    Ok(())
}

/// Appends a name of a module, or `*`.
fn push_qualified(alloc: Global, kinds: &mut Vec<Kind>, item: &Qualified) -> Result<(), AllocError>
    ensures { OnOk result (kinds.new.items ≡ kinds.old.items ++ words.qualified_words item.now) }
{
    push_module_name(alloc, kinds, &item.module)?;
    push_mark(kinds, mark::DOUBLE_COLON)?;
    match &item.name {
        None => push_mark(kinds, mark::STAR),
        Some(name) => push_ident(alloc, kinds, name),
    }
}

fn push_module_name(
    alloc: Global,
    kinds: &mut Vec<Kind>,
    name: &ModuleRef,
) -> Result<(), AllocError>
    ensures { OnOk result (kinds.new.items ≡ kinds.old.items ++ words.module_words name.now) }
{
    push_lead(kinds, name.lead)?;
    push_parts(alloc, kinds, name.parts.list())
}

fn push_lead(kinds: &mut Vec<Kind>, lead: Lead) -> Result<(), AllocError>
    ensures { OnOk result (kinds.new.items ≡ kinds.old.items ++ words.lead_words lead) }
{
    match lead {
        Lead::Bare => Ok(()),
        Lead::Absolute => push_mark(kinds, mark::DOUBLE_COLON),
        Lead::Here => {
            push_mark(kinds, mark::DOT)?;
            push_mark(kinds, mark::DOUBLE_COLON)
        }
        Lead::Up(steps) => push_steps(kinds, steps),
    }
}

/// Appends so many `..::`.
#[tactic(auto, using(crate::proofs::ModulePieces::module_pieces))]
fn push_steps(kinds: &mut Vec<Kind>, steps: u32) -> Result<(), AllocError>
    ensures { OnOk result (kinds.new.items ≡ kinds.old.items ++ words.up_words steps) }
{
    for step in 0..steps {
        push_mark(kinds, mark::DOT)?;
        push_mark(kinds, mark::DOT)?;
        push_mark(kinds, mark::DOUBLE_COLON)?;
    }
    Ok(())
}

fn push_used(
    alloc: Global,
    kinds: &mut Vec<Kind>,
    names: &Option<Seq<Ident>>,
) -> Result<(), AllocError>
    ensures { OnOk result (kinds.new.items ≡ kinds.old.items ++ words.used_words names.now) }
{
    match names {
        None => push_mark(kinds, mark::STAR),
        Some(names) => push_names(alloc, kinds, names.list()),
    }
}

/// Appends names, with commas between them.
#[tactic(auto, using(crate::proofs::ModulePieces::module_pieces))]
fn push_names(alloc: Global, kinds: &mut Vec<Kind>, names: &[Ident]) -> Result<(), AllocError>
    ensures { OnOk result (kinds.new.items ≡ kinds.old.items ++ words.used_words (Some names.now)) }
{
    let Some((first, others)) = names.split_first() else {
        return Ok(());
    };
    push_ident(alloc, kinds, first)?;
    for name in others {
        push_mark(kinds, mark::COMMA)?;
        push_ident(alloc, kinds, name)?;
    }
    Ok(())
}

/// Appends the annotations of the module itself.
fn push_own(
    alloc: Global,
    kinds: &mut Vec<Kind>,
    annos: &Option<Seq<Anno>>,
) -> Result<(), AllocError>
    ensures { OnOk result (kinds.new.items ≡ kinds.old.items ++ words.write_own (annotations_of annos.now)) }
{
    match annos {
        None => Ok(()),
        Some(annos) => {
            push_reserved(kinds, reserved::MODULE)?;
            push_block(alloc, kinds, annos.list())?;
            push_mark(kinds, mark::SEMICOLON)
        }
    }
}

fn push_annotations(
    alloc: Global,
    kinds: &mut Vec<Kind>,
    annos: &Option<Seq<Anno>>,
) -> Result<(), AllocError>
    ensures { OnOk result (kinds.new.items ≡ kinds.old.items ++ words.write_annotations (annotations_of annos.now)) }
{
    match annos {
        None => Ok(()),
        Some(annos) => push_block(alloc, kinds, annos.list()),
    }
}

/// Appends annotations in their brackets.
fn push_block(alloc: Global, kinds: &mut Vec<Kind>, annos: &[Anno]) -> Result<(), AllocError>
    ensures { OnOk result
        (kinds.new.items ≡ kinds.old.items ++ words.write_annotations (Some (map annotation_of annos.now))) }
{
    push_mark(kinds, mark::OPEN_BRACKET)?;
    push_mark(kinds, mark::OPEN_BRACKET)?;
    push_annotation_list(alloc, kinds, annos)?;
    push_mark(kinds, mark::CLOSE_BRACKET)?;
    push_mark(kinds, mark::CLOSE_BRACKET)
}

/// Appends annotations, with commas between them.
#[tactic(auto, using(crate::proofs::ModulePieces::module_pieces))]
fn push_annotation_list(
    alloc: Global,
    kinds: &mut Vec<Kind>,
    annos: &[Anno],
) -> Result<(), AllocError>
    ensures { OnOk result
        (kinds.new.items ≡ kinds.old.items ++
        words.write_several words.write_annotation (map annotation_of annos.now)) }
{
    let Some((first, others)) = annos.split_first() else {
        return Ok(());
    };
    push_annotation(alloc, kinds, first)?;
    for anno in others {
        push_mark(kinds, mark::COMMA)?;
        push_annotation(alloc, kinds, anno)?;
    }
    Ok(())
}

fn push_annotation(alloc: Global, kinds: &mut Vec<Kind>, anno: &Anno) -> Result<(), AllocError>
    ensures { OnOk result (kinds.new.items ≡ kinds.old.items ++ words.write_annotation (annotation_of anno.now)) }
{
    push_name(alloc, kinds, &anno.name)?;
    push_mark(kinds, mark::OPEN_PARENTHESIS)?;
    push_arguments(alloc, kinds, anno.args.list())?;
    push_mark(kinds, mark::CLOSE_PARENTHESIS)
}

#[tactic(auto, using(crate::proofs::ModulePieces::module_pieces))]
fn push_declarations(alloc: Global, kinds: &mut Vec<Kind>, decls: &[Decl]) -> Result<(), AllocError>
    ensures { OnOk result
        (kinds.new.items ≡ kinds.old.items ++
        words.write_each words.write_declaration (map declaration_of decls.now)) }
{
    for decl in decls {
        push_declaration(alloc, kinds, decl)?;
    }
    Ok(())
}

fn push_declaration(alloc: Global, kinds: &mut Vec<Kind>, decl: &Decl) -> Result<(), AllocError>
    ensures { OnOk result (kinds.new.items ≡ kinds.old.items ++ words.write_declaration (declaration_of decl.now)) }
{
    match decl {
        Decl::Material {
            exported,
            name,
            params,
            annos,
            body,
            ..
        } => {
            push_export(kinds, *exported)?;
            push_reserved(kinds, reserved::MATERIAL)?;
            push_ident(alloc, kinds, name)?;
            push_parameters(alloc, kinds, params.list())?;
            push_annotations(alloc, kinds, annos)?;
            push_definition(alloc, kinds, body)
        }
        Decl::Function {
            exported,
            ty,
            name,
            params,
            freq,
            annos,
            body,
            ..
        } => {
            push_export(kinds, *exported)?;
            push_typed(alloc, kinds, ty, name)?;
            push_parameters(alloc, kinds, params.list())?;
            push_frequency(kinds, *freq)?;
            push_annotations(alloc, kinds, annos)?;
            push_body(alloc, kinds, body)
        }
        Decl::Variant {
            exported,
            ty,
            name,
            annos,
            base,
            args,
            ..
        } => {
            push_export(kinds, *exported)?;
            push_typed(alloc, kinds, ty, name)?;
            push_all_parameters(kinds)?;
            push_annotations(alloc, kinds, annos)?;
            push_base(alloc, kinds, base, args.list())
        }
        Decl::Struct {
            exported,
            name,
            annos,
            fields,
            ..
        } => {
            push_export(kinds, *exported)?;
            push_reserved(kinds, reserved::STRUCT)?;
            push_ident(alloc, kinds, name)?;
            push_annotations(alloc, kinds, annos)?;
            push_fields(alloc, kinds, fields.list())
        }
        Decl::Enum {
            exported,
            name,
            annos,
            values,
            ..
        } => {
            push_export(kinds, *exported)?;
            push_reserved(kinds, reserved::ENUM)?;
            push_ident(alloc, kinds, name)?;
            push_annotations(alloc, kinds, annos)?;
            push_values(alloc, kinds, values.list())
        }
        Decl::Annotation {
            exported,
            name,
            params,
            annos,
            ..
        } => {
            push_export(kinds, *exported)?;
            push_reserved(kinds, reserved::ANNOTATION)?;
            push_ident(alloc, kinds, name)?;
            push_parameters(alloc, kinds, params.list())?;
            push_annotations(alloc, kinds, annos)?;
            push_mark(kinds, mark::SEMICOLON)
        }
    }
}

fn push_export(kinds: &mut Vec<Kind>, exported: bool) -> Result<(), AllocError>
    ensures { OnOk result (kinds.new.items ≡ kinds.old.items ++ words.export_words exported) }
{
    if exported {
        push_reserved(kinds, reserved::EXPORT)?;
    }
    Ok(())
}

/// Appends parameters in their parentheses.
fn push_parameters(alloc: Global, kinds: &mut Vec<Kind>, params: &[Param]) -> Result<(), AllocError>
    ensures { OnOk result (kinds.new.items ≡ kinds.old.items ++ words.write_parameters (map parameter_of params.now)) }
{
    push_mark(kinds, mark::OPEN_PARENTHESIS)?;
    push_parameter_list(alloc, kinds, params)?;
    push_mark(kinds, mark::CLOSE_PARENTHESIS)
}

/// Appends parameters, with commas between them.
#[tactic(auto, using(crate::proofs::ModulePieces::module_pieces))]
fn push_parameter_list(
    alloc: Global,
    kinds: &mut Vec<Kind>,
    params: &[Param],
) -> Result<(), AllocError>
    ensures { OnOk result
        (kinds.new.items ≡ kinds.old.items ++
        words.write_several words.write_parameter (map parameter_of params.now)) }
{
    let Some((first, others)) = params.split_first() else {
        return Ok(());
    };
    push_parameter(alloc, kinds, first)?;
    for param in others {
        push_mark(kinds, mark::COMMA)?;
        push_parameter(alloc, kinds, param)?;
    }
    Ok(())
}

fn push_parameter(alloc: Global, kinds: &mut Vec<Kind>, param: &Param) -> Result<(), AllocError>
    ensures { OnOk result (kinds.new.items ≡ kinds.old.items ++ words.write_parameter (parameter_of param.now)) }
{
    push_frequency(kinds, param.freq)?;
    push_type(alloc, kinds, &param.ty)?;
    push_ident(alloc, kinds, &param.name)?;
    push_value(alloc, kinds, &param.default)?;
    push_annotations(alloc, kinds, &param.annos)
}

/// Appends `=` and an expression, if there is one.
fn push_value(alloc: Global, kinds: &mut Vec<Kind>, value: &Option<Expr>) -> Result<(), AllocError>
    ensures { OnOk result (kinds.new.items ≡ kinds.old.items ++ words.write_value (default_of value.now)) }
{
    match value {
        None => Ok(()),
        Some(value) => {
            push_mark(kinds, mark::EQUAL)?;
            push_tree(alloc, kinds, value)
        }
    }
}

/// Appends `(*)`.
fn push_all_parameters(kinds: &mut Vec<Kind>) -> Result<(), AllocError>
    ensures { OnOk result
        (kinds.new.items ≡ kinds.old.items ++ mark_word (codes "(") ∷ mark_word (codes "*") ∷
        mark_word (codes ")") ∷ []) }
{
    push_mark(kinds, mark::OPEN_PARENTHESIS)?;
    push_mark(kinds, mark::STAR)?;
    push_mark(kinds, mark::CLOSE_PARENTHESIS)
}

/// Appends the call that a variant stands for, from its `=` to its `;`.
fn push_base(
    alloc: Global,
    kinds: &mut Vec<Kind>,
    base: &Name,
    args: &[Argument],
) -> Result<(), AllocError>
    ensures { OnOk result
        (kinds.new.items ≡ kinds.old.items ++ mark_word (codes "=") ∷ (name_words base.now ++
        (mark_word (codes "(") ∷ (write_arguments (arguments_of (map argument_of args.now)) ++
        mark_word (codes ")") ∷ words.semicolon)))) }
{
    push_mark(kinds, mark::EQUAL)?;
    push_name(alloc, kinds, base)?;
    push_mark(kinds, mark::OPEN_PARENTHESIS)?;
    push_arguments(alloc, kinds, args)?;
    push_mark(kinds, mark::CLOSE_PARENTHESIS)?;
    push_mark(kinds, mark::SEMICOLON)
}

/// Appends a body, from its `=` to its `;`.
fn push_definition(alloc: Global, kinds: &mut Vec<Kind>, body: &Expr) -> Result<(), AllocError>
    ensures { OnOk result
        (kinds.new.items ≡ kinds.old.items ++ mark_word (codes "=") ∷ (write (tree_of body.now) ++
        words.semicolon)) }
{
    push_mark(kinds, mark::EQUAL)?;
    push_tree(alloc, kinds, body)?;
    push_mark(kinds, mark::SEMICOLON)
}

/// Appends a body, if there is one, and `;`.
fn push_body(alloc: Global, kinds: &mut Vec<Kind>, body: &Option<Expr>) -> Result<(), AllocError>
    ensures { OnOk result
        (kinds.new.items ≡ kinds.old.items ++ (words.write_value (default_of body.now) ++ words.semicolon)) }
{
    push_value(alloc, kinds, body)?;
    push_mark(kinds, mark::SEMICOLON)
}

/// Appends a type and the name behind it.
fn push_typed(
    alloc: Global,
    kinds: &mut Vec<Kind>,
    ty: &TypeTree,
    name: &Ident,
) -> Result<(), AllocError>
    ensures { OnOk result (kinds.new.items ≡ kinds.old.items ++ (type_words ty.now ++ ident_word name.now ∷ [])) }
{
    push_type(alloc, kinds, ty)?;
    push_ident(alloc, kinds, name)
}

/// Appends the fields of a struct in their braces.
fn push_fields(alloc: Global, kinds: &mut Vec<Kind>, fields: &[Param]) -> Result<(), AllocError>
    ensures { OnOk result
        (kinds.new.items ≡ kinds.old.items ++ (mark_word (codes "{") ∷
        (words.write_each words.write_field (map parameter_of fields.now) ++ mark_word (codes "}") ∷
        words.semicolon))) }
{
    push_mark(kinds, mark::OPEN_BRACE)?;
    push_field_list(alloc, kinds, fields)?;
    push_mark(kinds, mark::CLOSE_BRACE)?;
    push_mark(kinds, mark::SEMICOLON)
}

/// Appends fields, each with `;` behind it.
#[tactic(auto, using(crate::proofs::ModulePieces::module_pieces))]
fn push_field_list(alloc: Global, kinds: &mut Vec<Kind>, fields: &[Param]) -> Result<(), AllocError>
    ensures { OnOk result
        (kinds.new.items ≡ kinds.old.items ++ words.write_each words.write_field (map parameter_of fields.now)) }
{
    for field in fields {
        push_parameter(alloc, kinds, field)?;
        push_mark(kinds, mark::SEMICOLON)?;
    }
    Ok(())
}

/// Appends the values of an enum in their braces.
fn push_values(alloc: Global, kinds: &mut Vec<Kind>, values: &[EnumItem]) -> Result<(), AllocError>
    ensures { OnOk result
        (kinds.new.items ≡ kinds.old.items ++ (mark_word (codes "{") ∷
        (words.write_several words.write_enum_value (map enum_value_of values.now) ++ mark_word (codes "}") ∷
        words.semicolon))) }
{
    push_mark(kinds, mark::OPEN_BRACE)?;
    push_value_list(alloc, kinds, values)?;
    push_mark(kinds, mark::CLOSE_BRACE)?;
    push_mark(kinds, mark::SEMICOLON)
}

/// Appends the values of an enum, with commas between them.
#[tactic(auto, using(crate::proofs::ModulePieces::module_pieces))]
fn push_value_list(
    alloc: Global,
    kinds: &mut Vec<Kind>,
    values: &[EnumItem],
) -> Result<(), AllocError>
    ensures { OnOk result
        (kinds.new.items ≡ kinds.old.items ++
        words.write_several words.write_enum_value (map enum_value_of values.now)) }
{
    let Some((first, others)) = values.split_first() else {
        return Ok(());
    };
    push_enum_value(alloc, kinds, first)?;
    for value in others {
        push_mark(kinds, mark::COMMA)?;
        push_enum_value(alloc, kinds, value)?;
    }
    Ok(())
}

fn push_enum_value(alloc: Global, kinds: &mut Vec<Kind>, value: &EnumItem) -> Result<(), AllocError>
    ensures { OnOk result (kinds.new.items ≡ kinds.old.items ++ words.write_enum_value (enum_value_of value.now)) }
{
    push_ident(alloc, kinds, &value.name)?;
    push_given(kinds, value.number)?;
    push_annotations(alloc, kinds, &value.annos)
}

/// Appends `=` and a number, if there is one.
fn push_given(kinds: &mut Vec<Kind>, number: Option<u32>) -> Result<(), AllocError>
    ensures { OnOk result (kinds.new.items ≡ kinds.old.items ++ words.write_number number) }
{
    if let Some(number) = number {
        push_mark(kinds, mark::EQUAL)?;
        kinds.push(Kind::Int(number))?;
    }
    Ok(())
}
