ghost use Rattle.std.specs.Prelude.{◌≡◌, false, None, option_map, IfOk};
ghost use Rattle.scope_tables.specs.Visible.{texts};
ghost use Rattle.scope_tables.specs.inside.Finding.{found_places};
ghost use Rattle.scope_core.specs.inside.Settling.{is_own_prototype, likely_base, only_place, others_of};
ghost use Rattle.scope_core.specs.inside.Based.{base_at, IsBase, AreBasesOf, NotesBase};

use crate::settled::{is_prototype, taken_at};
use case_table::{Seq, Text};
use indexmap::IndexSet;
use mdl_syntax::{Ident, NameForm};
use scope_tables::declared::Takes;
use scope_tables::found::{View, found};
use scope_tables::tables::{Place, Table, entity_at};
use std::alloc::{AllocError, Global};

/// What the name of a base finds, and which of it the base may be.
#[derive(Drop)]
pub struct Base {
    pub found: Vec<Place>,
    pub likely: Option<Place>,
}

/// The bases of the variants of a module. What a name finds is looked for once, however many variants have it.
#[derive(Drop)]
pub struct Bases {
    module: usize,
    /// For each entity the index of its base, where the name of that has components.
    indices: Vec<Option<usize>>,
    bases: Vec<Base>,
}

impl Bases {
    /// What is kept for the entity at a place.
    pub fn at(&self, place: Place) -> Option<&Base>
        ensures { option_map (λ base. base.now) result ≡ base_at self.now place }
    {
        if place.module == self.module {
            let index = taken_at(&self.indices, place.index)?;
            self.bases.get(index)
        } else {
            None
        }
    }
}

/// The bases of the entities of a module.
pub fn bases_of(
    alloc: Global,
    view: View,
    module: usize,
    takes: &[Takes],
) -> Result<Bases, AllocError>
    ensures { IfOk result
        (λ bases. AreBasesOf view.entry.names.now view.entry.tables.now «module» takes.now bases) }
{
    let mut forms: IndexSet<(bool, Seq<Text>)> = IndexSet::new(alloc);
    let mut bases = Vec::new(alloc);
    let mut indices = Vec::new(alloc);
    for index in 0..takes.len() {
        let number = note_base(alloc, view, module, &mut forms, &mut bases, takes[index])?;
        indices.push(number)?;
    }
    Ok(Bases {
        module,
        indices,
        bases,
    })
}

/// Notes the base of an entity, unless its name was noted before, and gives its index.
fn note_base(
    alloc: Global,
    view: View,
    module: usize,
    forms: &mut IndexSet<(bool, Seq<Text>)>,
    bases: &mut Vec<Base>,
    takes: Takes,
) -> Result<Option<usize>, AllocError>
    ensures { IfOk result (λ number. NotesBase view.entry.names.now view.entry.tables.now «module» takes.entry
        forms.old.keys bases.old.items number forms.new.keys bases.new.items) }
{
    match takes {
        Takes::Based(name) => match &name.form {
            NameForm::Word(_) => Ok(None),
            NameForm::Parts { absolute, parts } => {
                let copied = copied(alloc, parts.list())?;
                let (number, fresh) = forms.insert_full((*absolute, copied))?;
                if fresh {
                    let base = base_of(alloc, view, module, &name.form)?;
                    bases.push(base)?;
                }
                Ok(Some(number))
            }
        },
        Takes::Listed(_) => Ok(None),
        Takes::Known(_) => Ok(None),
    }
}

fn base_of(alloc: Global, view: View, module: usize, form: &NameForm) -> Result<Base, AllocError>
    ensures { IfOk result (IsBase view.entry.tables.now «module»
        (found_places view.entry.names.now view.entry.tables.now «module» form.now false)) }
{
    let found = found(alloc, view, module, form, false)?;
    let likely = likely(view.tables, module, &found);
    Ok(Base { found, likely })
}

fn copied(alloc: Global, parts: &[Ident]) -> Result<Seq<Text>, AllocError>
    ensures { IfOk result (λ copied. copied ≡ texts parts.now) }
{
    let mut copied = Vec::new(alloc);
    for part in parts {
        copied.push(part.text.clone()?)?;
    }
    Ok(Seq::of(copied))
}

/// The one of these that isn't a prototype of the module, or else the only one. None where there are others, or none.
pub fn likely(tables: &[Table], module: usize, found: &[Place]) -> Option<Place>
    ensures { result ≡ likely_base tables.now «module» found.now }
{
    if let [only] = found {
        return Some(*only);
    }
    only_other(tables, module, found)
}

fn only_other(tables: &[Table], module: usize, found: &[Place]) -> Option<Place>
    ensures { result ≡ only_place (others_of tables.now «module» found.now) }
{
    let mut first = None;
    let mut more = false;
    for index in 0..found.len() {
        if !is_own_prototype(tables, module, found[index]) {
            more = first.is_some();
            first = first.or(Some(found[index]));
        }
    }
    if more { None } else { first }
}

fn is_own_prototype(tables: &[Table], module: usize, place: Place) -> bool
    ensures { result ≡ is_own_prototype tables.now «module» place }
{
    match entity_at(tables, place) {
        Some(entity) => is_prototype(entity.sort) && place.module == module,
        None => false,
    }
}
