ghost use Rattle.std.specs.Prelude.{◌≡◌, ◌++◌, ◌==◌, ◌&&◌, not, true, Some, length, slice_get, IfOk, OnOk};
ghost use Rattle.scope_tables.specs.Visible.{fits, texts, word_text};
ghost use Rattle.scope_tables.specs.inside.Finding.{found_places, parts_places, near_places, far_places};
ghost use Rattle.scope_tables.specs.inside.Finding.{seen_in, sees_at, reaches_of, fits_name, first_of};

use crate::reach::Reach;
use crate::tables::{Place, Table, is_hidden};
use crate::words::word_text;
use case_table::Text;
use mdl_syntax::{Ident, NameForm};
use module_set::ModuleName;
use std::alloc::{AllocError, Global};

/// The names of modules, and their tables, behind which stands that of the prelude.
#[derive(Clone, Copy)]
pub struct View<'a> {
    pub names: &'a [ModuleName],
    pub tables: &'a [Table],
}

/// All that a name finds in a module, in order. With `all` everything is taken for exported.
pub fn found(
    alloc: Global,
    view: View,
    module: usize,
    form: &NameForm,
    all: bool,
) -> Result<Vec<Place>, AllocError>
    ensures { IfOk result
        (λ found. found.items ≡ found_places view.entry.names.now view.entry.tables.now «module» form.now all) }
{
    match form {
        NameForm::Word(word) => found_word(alloc, view, *word, all),
        NameForm::Parts { absolute, parts } => {
            found_parts(alloc, view, module, *absolute, parts.list(), all)
        }
    }
}

fn found_parts(
    alloc: Global,
    view: View,
    module: usize,
    absolute: bool,
    parts: &[Ident],
    all: bool,
) -> Result<Vec<Place>, AllocError>
    ensures { IfOk result
        (λ found. found.items
        ≡ parts_places view.entry.names.now view.entry.tables.now «module» absolute (texts parts.now) all) }
{
    let Some((last, front)) = parts.split_last() else {
        return Ok(Vec::new(alloc));
    };
    if is_alone(absolute, parts) {
        let found = found_near(alloc, view, module, &last.text, all)?;
        return Ok(found);
    }
    let found = found_far(alloc, view, module, absolute, front, &last.text, all)?;
    Ok(found)
}

/// Whether a name has no component before it.
fn is_alone(absolute: bool, parts: &[Ident]) -> bool
    ensures { result ≡ (not absolute && (length parts.now == 1)) }
{
    !absolute && parts.len() == 1
}

/// What is found by a name alone: what the module has or uses, or else what the prelude has.
fn found_near(
    alloc: Global,
    view: View,
    module: usize,
    name: &Text,
    all: bool,
) -> Result<Vec<Place>, AllocError>
    ensures { IfOk result (λ found. found.items
        ≡ first_of (near_places view.entry.tables.now «module» name.now all)
        (near_places view.entry.tables.now (length view.entry.names.now) name.now all)) }
{
    let found = near(alloc, view, module, name, all)?;
    if found.is_empty() {
        return near(alloc, view, view.names.len(), name, all);
    }
    Ok(found)
}

/// What is found by a reserved word: what the prelude has of that name.
fn found_word(alloc: Global, view: View, word: u16, all: bool) -> Result<Vec<Place>, AllocError>
    ensures { IfOk result (λ found. found.items
        ≡ near_places view.entry.tables.now (length view.entry.names.now) (word_text word) all) }
{
    let name = Text::copy(alloc, word_text(word))?;
    near(alloc, view, view.names.len(), &name, all)
}

/// What a module has or uses under a name.
fn near(
    alloc: Global,
    view: View,
    module: usize,
    name: &Text,
    all: bool,
) -> Result<Vec<Place>, AllocError>
    ensures { IfOk result
        (λ found. found.items ≡ near_places view.entry.tables.now «module» name.now all) }
{
    let mut found = Vec::new(alloc);
    for reach in reaches(view, module) {
        push_seen(&mut found, view, reach, name, true, all)?;
    }
    Ok(found)
}

/// What is found by a name with components before it.
fn found_far(
    alloc: Global,
    view: View,
    module: usize,
    absolute: bool,
    front: &[Ident],
    name: &Text,
    all: bool,
) -> Result<Vec<Place>, AllocError>
    ensures { IfOk result (λ found. found.items
        ≡ far_places view.entry.names.now view.entry.tables.now «module» absolute (texts front.now) name.now all) }
{
    let mut found = Vec::new(alloc);
    for reach in reaches(view, module) {
        if fits(view, reach.module, absolute, front) {
            push_seen(&mut found, view, reach, name, false, all)?;
        }
    }
    Ok(found)
}

fn reaches(view: View, module: usize) -> &[Reach]
    ensures { result.now ≡ reaches_of (slice_get view.entry.tables.now «module») }
{
    match view.tables.get(module) {
        Some(table) => &table.reaches,
        None => &[],
    }
}

/// Whether the components before a name are those of the module, or the last of them.
fn fits(view: View, module: usize, absolute: bool, front: &[Ident]) -> bool
    ensures { result ≡ fits_name (slice_get view.entry.names.now «module») absolute (texts front.now) }
{
    match view.names.get(module) {
        Some(name) => fits_parts(absolute, front, name.parts.list()),
        None => false,
    }
}

fn fits_parts(absolute: bool, front: &[Ident], parts: &[Text]) -> bool
    ensures { result ≡ fits absolute (texts front.now) parts.now }
{
    if absolute {
        are_same(front, parts)
    } else {
        are_same(front, &parts[parts.len().saturating_sub(front.len())..])
    }
}

fn are_same(front: &[Ident], parts: &[Text]) -> bool
    ensures { result ≡ fits true (texts front.now) parts.now }
{
    if front.len() != parts.len() {
        return false;
    }
    for index in 0..front.len() {
        if front[index].text != parts[index] {
            return false;
        }
    }
    true
}

/// Appends what a module sees under a name of one that it reaches.
fn push_seen(
    found: &mut Vec<Place>,
    view: View,
    reach: &Reach,
    name: &Text,
    used: bool,
    all: bool,
) -> Result<(), AllocError>
    ensures { OnOk result (found.new.items
        ≡ found.old.items ++ seen_in (slice_get view.entry.tables.now reach.now.«module») reach.now name.now used all) }
{
    match view.tables.get(reach.module) {
        Some(table) => push_seen_in(found, table, reach, name, used, all),
        None => Ok(()),
    }
}

fn push_seen_in(
    found: &mut Vec<Place>,
    table: &Table,
    reach: &Reach,
    name: &Text,
    used: bool,
    all: bool,
) -> Result<(), AllocError>
    ensures { OnOk result
        (found.new.items ≡ found.old.items ++ seen_in (Some table.now) reach.now name.now used all) }
{
    for index in table.own.indices(name) {
        if sees(table, reach, *index, used, all) {
            found.push(Place {
                module: reach.module,
                index: *index,
            })?;
        }
    }
    Ok(())
}

fn sees(table: &Table, reach: &Reach, index: usize, used: bool, all: bool) -> bool
    ensures { result ≡ sees_at table.now reach.now used all index }
{
    match table.own.list().get(index) {
        Some(entity) => !is_hidden(table, index) && reach.has(entity, used, all),
        None => false,
    }
}
