ghost use Rattle.std.specs.Prelude.{◌≡◌, ◌<◌, [], ◌∷◌, map, IfOk, OnOk};
ghost use Rattle.mdl_syntax.specs.Modules.{declaration_of, enum_value_of, default_of};
ghost use Rattle.scope_tables.specs.declared.entity.Sort.TheVariants as sort;
ghost use Rattle.scope_tables.specs.Entities.{declared, declared_from, values_from, whole, variant_sort};
ghost use Rattle.scope_tables.specs.Entities.{listed, function_sort, a_value};
ghost use Rattle.scope_tables.specs.inside.Pieces.{takes_of, IsPiece, Appends};

use crate::entity::{Entity, EntityId, Sort};
use mdl_lexer::reserved;
use mdl_syntax::{Decl, EnumItem, Expr, Ident, Name, NameForm, Param, Size, TypeTree};
use std::alloc::{AllocError, Global};

/// What an entity takes.
#[derive(Clone, Copy)]
pub enum Takes<'a> {
    /// Parameters, or fields.
    Listed(&'a [Param]),
    /// Types of the prelude, or builtin ones.
    Known(&'static [&'static str]),
    /// What the base of a variant takes.
    Based(&'a Name),
}

/// The entities of a module, in order, and what is written of each.
#[derive(Drop)]
pub struct Piece<'a> {
    pub entities: Vec<Entity>,
    pub written: Written<'a>,
}

/// What each entity of a module takes, and the byte offset of its name.
#[derive(Drop)]
pub struct Written<'a> {
    pub takes: Vec<Takes<'a>>,
    pub places: Vec<u32>,
}

impl<'a> Piece<'a> {
    pub fn new(alloc: Global) -> Piece<'a>
        ensures { IsPiece [] result }
    {
        Piece {
            entities: Vec::new(alloc),
            written: Written {
                takes: Vec::new(alloc),
                places: Vec::new(alloc),
            },
        }
    }

    pub fn push(&mut self, entity: Entity, takes: Takes<'a>, at: u32) -> Result<(), AllocError>
        ensures { OnOk result (Appends (record { entity = entity; takes = takes_of takes.entry; at = at } ∷ [])
            self.old self.new) }
    {
        self.entities.push(entity)?;
        self.written.takes.push(takes)?;
        self.written.places.push(at)?;
        Ok(())
    }
}

/// An index as a number of an entity. Lists that are too long for such numbers count as want of memory.
pub fn number_of(index: usize) -> Result<u32, AllocError>
    ensures { IfOk result (λ number. number ≡ index) }
{
    if index >= u32::MAX as usize {
        return Err(AllocError);
    }
    Ok(index as u32)
}

/// The entities of the module of this index.
pub fn declare<'a>(alloc: Global, module: u32, decls: &'a [Decl]) -> Result<Piece<'a>, AllocError>
    ensures { IfOk result (λ piece. IsPiece (declared_from «module» 0 (map declaration_of decls.now)) piece) }
{
    let mut piece = Piece::new(alloc);
    for index in 0..decls.len() {
        push_declaration(&mut piece, module, number_of(index)?, &decls[index])?;
    }
    Ok(piece)
}

fn push_declaration<'a>(
    piece: &mut Piece<'a>,
    module: u32,
    decl: u32,
    tree: &'a Decl,
) -> Result<(), AllocError>
    ensures { OnOk result (Appends (declared «module» decl (declaration_of tree.now)) piece.old piece.new) }
{
    let id = EntityId {
        module,
        decl,
        part: 0,
    };
    match tree {
        Decl::Material {
            exported,
            name,
            params,
            ..
        } => push(
            piece,
            id,
            *exported,
            name,
            Sort::Material,
            Takes::Listed(params.list()),
        ),
        Decl::Variant {
            exported,
            ty,
            name,
            base,
            ..
        } => push(
            piece,
            id,
            *exported,
            name,
            variant_sort(ty),
            Takes::Based(base),
        ),
        Decl::Function {
            exported,
            name,
            params,
            body,
            ..
        } => push(
            piece,
            id,
            *exported,
            name,
            function_sort(body),
            Takes::Listed(params.list()),
        ),
        Decl::Struct {
            exported,
            name,
            fields,
            ..
        } => push(
            piece,
            id,
            *exported,
            name,
            Sort::Struct,
            Takes::Listed(fields.list()),
        ),
        Decl::Enum {
            exported,
            name,
            values,
            ..
        } => push_enum(piece, id, *exported, name, values.list()),
        Decl::Annotation {
            exported,
            name,
            params,
            ..
        } => push(
            piece,
            id,
            *exported,
            name,
            Sort::Annotation,
            Takes::Listed(params.list()),
        ),
    }
}

fn push<'a>(
    piece: &mut Piece<'a>,
    id: EntityId,
    exported: bool,
    name: &Ident,
    sort: Sort,
    takes: Takes<'a>,
) -> Result<(), AllocError>
    ensures { OnOk result
        (Appends (whole id exported name.now sort (takes_of takes.entry) ∷ []) piece.old piece.new) }
{
    let text = name.text.clone()?;
    let group = name.text.clone()?;
    let entity = Entity {
        id,
        name: text,
        group,
        sort,
        exported,
    };
    piece.push(entity, takes, name.span.at)
}

/// An enum, and its values behind it.
fn push_enum<'a>(
    piece: &mut Piece<'a>,
    id: EntityId,
    exported: bool,
    name: &Ident,
    values: &'a [EnumItem],
) -> Result<(), AllocError>
    ensures { OnOk result (Appends (whole id exported name.now sort.Enum (listed []) ∷
        values_from id.«module» id.decl 1 exported name.now.text (map enum_value_of values.now)) piece.old piece.new) }
{
    push(piece, id, exported, name, Sort::Enum, Takes::Listed(&[]))?;
    push_values(piece, id, exported, name, values)
}

fn push_values<'a>(
    piece: &mut Piece<'a>,
    id: EntityId,
    exported: bool,
    group: &Ident,
    values: &'a [EnumItem],
) -> Result<(), AllocError>
    ensures { OnOk result (Appends
        (values_from id.«module» id.decl 1 exported group.now.text (map enum_value_of values.now))
        piece.old piece.new) }
{
    for index in 0..values.len() {
        let id = EntityId {
            module: id.module,
            decl: id.decl,
            part: number_of(index + 1)?,
        };
        push_value(piece, id, exported, group, &values[index])?;
    }
    Ok(())
}

fn push_value<'a>(
    piece: &mut Piece<'a>,
    id: EntityId,
    exported: bool,
    group: &Ident,
    value: &EnumItem,
) -> Result<(), AllocError>
    ensures { OnOk result (Appends (a_value id exported group.now.text (enum_value_of value.now) ∷ [])
        piece.old piece.new) }
{
    let text = value.name.text.clone()?;
    let group = group.text.clone()?;
    let entity = Entity {
        id,
        name: text,
        group,
        sort: Sort::EnumValue,
        exported,
    };
    piece.push(entity, Takes::Listed(&[]), value.name.span.at)
}

/// A variant is a material where its type is the word `material`.
fn variant_sort(ty: &TypeTree) -> Sort
    ensures { result ≡ variant_sort ty.now }
{
    match (&ty.name.form, &ty.size) {
        (NameForm::Word(reserved::MATERIAL), Size::One) => Sort::Material,
        _ => Sort::Function,
    }
}

/// A function without a body is a prototype.
fn function_sort(body: &Option<Expr>) -> Sort
    ensures { result ≡ function_sort (default_of body.now) }
{
    match body {
        Some(_) => Sort::Function,
        None => Sort::Intrinsic,
    }
}
