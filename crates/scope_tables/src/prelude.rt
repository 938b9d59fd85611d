ghost use Rattle.std.specs.Prelude.{[], ◌∷◌, map, IfOk, OnOk};
ghost use Rattle.scope_tables.specs.declared.entity.Sort.TheVariants as sort;
ghost use Rattle.scope_tables.specs.PreludeEntities.{given, prelude, modes, structs, large_structs, normal};
ghost use Rattle.scope_tables.specs.inside.Pieces.{IsPiece, Appends};

use crate::declared::{Piece, Takes};
use crate::entity::{Entity, EntityId, Sort};
use case_table::Text;
use std::alloc::{AllocError, Global};

/// What every module sees, as the module of this index.
pub fn prelude<'a>(alloc: Global, module: u32) -> Result<Piece<'a>, AllocError>
    ensures { IfOk result (λ piece. IsPiece (prelude «module») piece) }
{
    let mut piece = Piece::new(alloc);
    push_modes(alloc, &mut piece, module)?;
    push_structs(alloc, &mut piece, module)?;
    push_large_structs(alloc, &mut piece, module)?;
    push_normal(alloc, &mut piece, module)?;
    Ok(piece)
}

fn push_modes<'a>(alloc: Global, piece: &mut Piece<'a>, module: u32) -> Result<(), AllocError>
    ensures { OnOk result (Appends (modes «module») piece.old piece.new) }
{
    let id = EntityId {
        module,
        decl: 0,
        part: 0,
    };
    push_given(alloc, piece, id, Sort::Enum, "intensity_mode", &[])?;
    let id = EntityId {
        module,
        decl: 0,
        part: 1,
    };
    push_given(
        alloc,
        piece,
        id,
        Sort::EnumValue,
        "intensity_radiant_exitance",
        &[],
    )?;
    let id = EntityId {
        module,
        decl: 0,
        part: 2,
    };
    push_given(alloc, piece, id, Sort::EnumValue, "intensity_power", &[])?;
    Ok(())
}

fn push_structs<'a>(alloc: Global, piece: &mut Piece<'a>, module: u32) -> Result<(), AllocError>
    ensures { OnOk result (Appends (structs «module») piece.old piece.new) }
{
    let takes = &["edf", "color", "intensity_mode"];
    push_struct(
        alloc,
        piece,
        EntityId {
            module,
            decl: 1,
            part: 0,
        },
        "material_emission",
        takes,
    )?;
    let takes = &["bsdf", "material_emission"];
    push_struct(
        alloc,
        piece,
        EntityId {
            module,
            decl: 2,
            part: 0,
        },
        "material_surface",
        takes,
    )?;
    let takes = &["vdf", "color", "color"];
    push_struct(
        alloc,
        piece,
        EntityId {
            module,
            decl: 3,
            part: 0,
        },
        "material_volume",
        takes,
    )?;
    Ok(())
}

fn push_large_structs<'a>(
    alloc: Global,
    piece: &mut Piece<'a>,
    module: u32,
) -> Result<(), AllocError>
    ensures { OnOk result (Appends (large_structs «module») piece.old piece.new) }
{
    let takes = &["float3", "float", "float3"];
    push_struct(
        alloc,
        piece,
        EntityId {
            module,
            decl: 4,
            part: 0,
        },
        "material_geometry",
        takes,
    )?;
    let takes = &[
        "bool",
        "material_surface",
        "material_surface",
        "color",
        "material_volume",
        "material_geometry",
        "hair_bsdf",
    ];
    push_struct(
        alloc,
        piece,
        EntityId {
            module,
            decl: 5,
            part: 0,
        },
        "material",
        takes,
    )?;
    Ok(())
}

fn push_normal<'a>(alloc: Global, piece: &mut Piece<'a>, module: u32) -> Result<(), AllocError>
    ensures { OnOk result (Appends (normal «module») piece.old piece.new) }
{
    let id = EntityId {
        module,
        decl: 6,
        part: 0,
    };
    push_given(alloc, piece, id, Sort::Intrinsic, "state_normal", &[])
}

fn push_struct<'a>(
    alloc: Global,
    piece: &mut Piece<'a>,
    id: EntityId,
    name: &str,
    takes: &'static [&'static str],
) -> Result<(), AllocError>
    ensures { OnOk result (Appends (given id sort.Struct name.now (map (λ type. type.now) takes.now) ∷ [])
        piece.old piece.new) }
{
    push_given(alloc, piece, id, Sort::Struct, name, takes)
}

fn push_given<'a>(
    alloc: Global,
    piece: &mut Piece<'a>,
    id: EntityId,
    sort: Sort,
    name: &str,
    takes: &'static [&'static str],
) -> Result<(), AllocError>
    ensures { OnOk result
        (Appends (given id sort name.now (map (λ type. type.now) takes.now) ∷ []) piece.old piece.new) }
{
    let text = Text::copy(alloc, name)?;
    let group = Text::copy(alloc, name)?;
    let entity = Entity {
        id,
        name: text,
        group,
        sort,
        exported: true,
    };
    piece.push(entity, Takes::Known(takes), 0)
}
