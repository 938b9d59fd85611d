ghost use Rattle.std.specs.Prelude.{◌≡◌, ◌++◌, ◌∷◌, [], true, false, map, IfOk, OnOk};
ghost use Rattle.std.specs.List.{filter_map};
ghost use Rattle.scope_tables.specs.inside.Finding.{entity_at, found_places};
ghost use Rattle.scope_tables.specs.inside.Kinds.{kinds_among, ids_among, judged_among, missing_among};
ghost use Rattle.scope_tables.specs.inside.Kinds.{looked_among, answer};

use crate::entity::{Entity, EntityId};
use crate::found::{View, found};
use crate::kinds::{Kinds, NO_KINDS};
use crate::looked::Looked;
use crate::tables::{Place, entity_at};
use case_table::{OutOfMemory, Seq};
use mdl_syntax::NameForm;
use std::alloc::{AllocError, Global};

/// What a name finds in a module.
pub fn look(
    alloc: Global,
    view: View,
    module: usize,
    form: &NameForm,
) -> Result<Looked, OutOfMemory>
    ensures { IfOk result (λ looked. looked ≡ looked_among
        (filter_map (entity_at view.entry.tables.now)
        (found_places view.entry.names.now view.entry.tables.now «module» form.now false))
        (filter_map (entity_at view.entry.tables.now)
        (found_places view.entry.names.now view.entry.tables.now «module» form.now true))) }
{
    let entities = entities_found(alloc, view, module, form, false)?;
    if entities.is_empty() {
        let hidden = entities_found(alloc, view, module, form, true)?;
        return Ok(missing(&hidden));
    }
    let looked = judged(alloc, &entities)?;
    Ok(looked)
}

/// The entities that a name finds in a module.
fn entities_found<'a>(
    alloc: Global,
    view: View<'a>,
    module: usize,
    form: &NameForm,
    all: bool,
) -> Result<Vec<&'a Entity>, AllocError>
    ensures { IfOk result (λ entities. map (λ entity. entity.now) entities.items
        ≡ filter_map (entity_at view.entry.tables.now)
        (found_places view.entry.names.now view.entry.tables.now «module» form.now all)) }
{
    let places = found(alloc, view, module, form, all)?;
    entities_at(alloc, view, &places)
}

fn entities_at<'a>(
    alloc: Global,
    view: View<'a>,
    places: &[Place],
) -> Result<Vec<&'a Entity>, AllocError>
    ensures { IfOk result (λ entities. map (λ entity. entity.now) entities.items
        ≡ filter_map (entity_at view.entry.tables.now) places.now) }
{
    let mut entities = Vec::new(alloc);
    for index in 0..places.len() {
        let place = places[index];
        push_at(&mut entities, view, place)?;
    }
    Ok(entities)
}

fn push_at<'a>(
    entities: &mut Vec<&'a Entity>,
    view: View<'a>,
    place: Place,
) -> Result<(), AllocError>
    ensures { OnOk result (map (λ entity. entity.now) entities.new.items
        ≡ map (λ entity. entity.now) entities.old.items ++ filter_map (entity_at view.entry.tables.now) (place ∷ [])) }
{
    match entity_at(view.tables, place) {
        Some(entity) => {
            entities.push(entity)?;
            Ok(())
        }
        None => Ok(()),
    }
}

/// Why nothing is found, by what would be found if everything were exported.
fn missing(hidden: &[&Entity]) -> Looked
    ensures { result ≡ missing_among (map (λ entity. entity.now) hidden.now) }
{
    if hidden.is_empty() {
        Looked::Unknown
    } else {
        Looked::NotExported
    }
}

/// What is found, where something is.
fn judged(alloc: Global, entities: &[&Entity]) -> Result<Looked, OutOfMemory>
    ensures { IfOk result (λ looked. looked ≡ judged_among (map (λ entity. entity.now) entities.now)) }
{
    let kinds = kinds_of(entities);
    let ids = ids_of(alloc, entities)?;
    Ok(answer(kinds.are_overloads(), ids))
}

fn answer(are_overloads: bool, ids: Vec<EntityId>) -> Looked
    ensures { result ≡ answer are_overloads ids.items }
{
    match ids.as_slice() {
        [one, other, ..] if !are_overloads => Looked::Clash { a: *one, b: *other },
        _ => Looked::Found(Seq::of(ids)),
    }
}

fn kinds_of(entities: &[&Entity]) -> Kinds
    ensures { result ≡ kinds_among (map (λ entity. entity.now) entities.now) }
{
    let mut kinds = NO_KINDS;
    for entity in entities {
        kinds = kinds.and(Kinds::of(entity.sort));
    }
    kinds
}

fn ids_of(alloc: Global, entities: &[&Entity]) -> Result<Vec<EntityId>, AllocError>
    ensures { IfOk result (λ ids. ids.items ≡ ids_among (map (λ entity. entity.now) entities.now)) }
{
    let mut ids = Vec::new(alloc);
    for entity in entities {
        ids.push(entity.id)?;
    }
    Ok(ids)
}
