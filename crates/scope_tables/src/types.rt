ghost use Rattle.std.specs.Prelude.{◌≡◌, ◌++◌, [], false, Some, None, codes, decimal, option_map, string_bytes};
ghost use Rattle.std.specs.Prelude.{IfOk, OnOk};
ghost use Rattle.std.specs.List.{flat_map};
ghost use Rattle.scope_tables.specs.Visible.{name_at, texts};
ghost use Rattle.scope_tables.specs.Types.{full_name, named_type, parts_text, shape_of, size_text};
ghost use Rattle.scope_tables.specs.inside.Typing.{types_at, type_at, single_place, named, word_type};

use crate::entity::{Entity, Sort};
use crate::found::{View, found};
use crate::tables::{Place, entity_at};
use crate::words::word_text;
use case_table::Text;
use mdl_syntax::{Ident, NameForm, Param, Size, TypeTree};
use std::alloc::{AllocError, Global};
use type_rules::{Shape, Ty};

/// The types of parameters, as they are written in a module.
pub fn types_of(
    alloc: Global,
    view: View,
    module: usize,
    params: &[Param],
) -> Result<Vec<Ty>, AllocError>
    ensures { IfOk result
        (λ types. types.items ≡ types_at view.entry.names.now view.entry.tables.now «module» params.now) }
{
    let mut types = Vec::new(alloc);
    for param in params {
        let ty = type_of(alloc, view, module, &param.ty)?;
        types.push(ty)?;
    }
    Ok(types)
}

fn type_of(alloc: Global, view: View, module: usize, tree: &TypeTree) -> Result<Ty, AllocError>
    ensures { IfOk result (λ ty. ty ≡ type_at view.entry.names.now view.entry.tables.now «module» tree.now) }
{
    match &tree.name.form {
        NameForm::Word(word) => word_type(alloc, *word, &tree.size),
        NameForm::Parts { absolute, parts } => {
            let found = found(alloc, view, module, &tree.name.form, false)?;
            let entity = single_type(view, &found);
            named_type(alloc, view, entity, *absolute, parts.list(), &tree.size)
        }
    }
}

/// The type of a reserved word.
fn word_type(alloc: Global, word: u16, size: &Size) -> Result<Ty, AllocError>
    ensures { IfOk result (λ ty. ty ≡ word_type word size.now) }
{
    let name = Text::copy(alloc, word_text(word))?;
    Ok(Ty {
        name,
        shape: shape_of(size),
    })
}

/// The type of a name by what it finds.
fn named_type(
    alloc: Global,
    view: View,
    entity: Option<&Entity>,
    absolute: bool,
    parts: &[Ident],
    size: &Size,
) -> Result<Ty, AllocError>
    ensures { IfOk result (λ ty. ty ≡ named_type (named view.entry.names.now)
        (option_map (λ entity. entity.now) entity.entry) absolute (texts parts.now) size.now) }
{
    match entity {
        Some(entity) => entity_type(alloc, view, entity, size),
        None => written_type(alloc, absolute, parts, size),
    }
}

/// The type that an entity is.
fn entity_type(alloc: Global, view: View, entity: &Entity, size: &Size) -> Result<Ty, AllocError>
    ensures { IfOk result (λ ty. ty ≡ named_type (named view.entry.names.now) (Some entity.now) false [] size.now) }
{
    let name = full_name(alloc, view, entity)?;
    Ok(Ty {
        name,
        shape: shape_of(size),
    })
}

/// The one entity that is found, if it is a type.
fn single_type<'a>(view: View<'a>, found: &[Place]) -> Option<&'a Entity>
    ensures { option_map (λ entity. entity.now) result ≡ single_place view.entry.tables.now found.now }
{
    let [place] = found else {
        return None;
    };
    let entity = entity_at(view.tables, *place)?;
    match entity.sort {
        Sort::Struct | Sort::Enum => Some(entity),
        _ => None,
    }
}

fn shape_of(size: &Size) -> Shape
    ensures { result ≡ shape_of size.now }
{
    match size {
        Size::One => Shape::One,
        Size::Sized(count) => Shape::Sized(*count),
        Size::Deferred(_) => Shape::AnySize,
    }
}

/// The absolute name of an entity, or its name in the prelude.
fn full_name(alloc: Global, view: View, entity: &Entity) -> Result<Text, AllocError>
    ensures { IfOk result (λ name. name ≡ full_name (named view.entry.names.now) entity.now) }
{
    let module = entity.id.module as usize;
    if module == view.names.len() {
        return entity.name.clone();
    }
    absolute_name(alloc, parts_at(view, module), &entity.name)
}

/// The components of a module's name.
fn parts_at(view: View, module: usize) -> &[Text]
    ensures { result.now ≡ (name_at (named view.entry.names.now) «module»).parts }
{
    match view.names.get(module) {
        Some(name) => name.parts.list(),
        None => &[],
    }
}

/// A name behind the components of its module.
fn absolute_name(alloc: Global, parts: &[Text], name: &Text) -> Result<Text, AllocError>
    ensures { IfOk result
        (λ made. made ≡ flat_map (λ part. codes "::" ++ part) parts.now ++ (codes "::" ++ name.now)) }
{
    let mut text = String::new(alloc);
    for part in parts {
        push_part(&mut text, part)?;
    }
    push_part(&mut text, name)?;
    Ok(Text::of(text))
}

/// Appends a component behind `::`.
fn push_part(text: &mut String, part: &Text) -> Result<(), AllocError>
    ensures { OnOk result (string_bytes text.new ≡ string_bytes text.old ++ (codes "::" ++ part.now)) }
{
    text.push_str("::")?;
    text.push_str(part.as_str())?;
    Ok(())
}

/// A type as it is written, behind a mark that stands in no name.
fn written_type(
    alloc: Global,
    absolute: bool,
    parts: &[Ident],
    size: &Size,
) -> Result<Ty, AllocError>
    ensures { IfOk result (λ ty. ty ≡ named_type (named []) None absolute (texts parts.now) size.now) }
{
    let mut text = String::from_str(alloc, "?")?;
    push_parts(&mut text, absolute, parts)?;
    push_size(alloc, &mut text, size)?;
    Ok(Ty {
        name: Text::of(text),
        shape: Shape::One,
    })
}

/// Appends a name.
fn push_parts(text: &mut String, absolute: bool, parts: &[Ident]) -> Result<(), AllocError>
    ensures { OnOk result (string_bytes text.new ≡ string_bytes text.old ++ parts_text absolute (texts parts.now)) }
{
    if absolute {
        return push_behind(text, parts);
    }
    let Some((first, others)) = parts.split_first() else {
        return Ok(());
    };
    text.push_str(first.text.as_str())?;
    push_behind(text, others)?;
    Ok(())
}

/// Appends components, each behind `::`.
fn push_behind(text: &mut String, parts: &[Ident]) -> Result<(), AllocError>
    ensures { OnOk result (string_bytes text.new
        ≡ string_bytes text.old ++ flat_map (λ part. codes "::" ++ part) (texts parts.now)) }
{
    for part in parts {
        push_part(text, &part.text)?;
    }
    Ok(())
}

/// Appends a size.
fn push_size(alloc: Global, text: &mut String, size: &Size) -> Result<(), AllocError>
    ensures { OnOk result (string_bytes text.new ≡ string_bytes text.old ++ size_text size.now) }
{
    match size {
        Size::One => Ok(()),
        Size::Sized(count) => push_count(alloc, text, *count),
        Size::Deferred(name) => push_deferred(text, name),
    }
}

fn push_count(alloc: Global, text: &mut String, count: u32) -> Result<(), AllocError>
    ensures { OnOk result (string_bytes text.new
        ≡ string_bytes text.old ++ (codes "[" ++ (decimal count ++ codes "]"))) }
{
    let size = format!(in alloc; "[{count}]")?;
    text.push_str(&size)?;
    Ok(())
}

fn push_deferred(text: &mut String, name: &Ident) -> Result<(), AllocError>
    ensures { OnOk result (string_bytes text.new
        ≡ string_bytes text.old ++ (codes "[<" ++ (name.now.text ++ codes ">]"))) }
{
    text.push_str("[<")?;
    text.push_str(name.text.as_str())?;
    text.push_str(">]")?;
    Ok(())
}
