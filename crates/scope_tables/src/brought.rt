ghost use Rattle.std.specs.Prelude.{◌≡◌, ◌++◌, Some, map, option_map, IfOk, OnOk};
ghost use Rattle.std.specs.List.{flat_map, filter_map};
ghost use Rattle.case_table.specs.Lists.{place_of};
ghost use Rattle.module_set.specs.Names.{same_name, named, package_of};
ghost use Rattle.module_set.specs.Imports.{bare, within, package_up};
ghost use Rattle.module_set.specs.ModuleSets.{is_among};
ghost use Rattle.scope_tables.specs.Brought.{index_meant, bringing, as_list, named_alone, brought_item, brought_by};
ghost use Rattle.scope_tables.specs.Visible.{texts};
ghost use Rattle.scope_tables.specs.inside.Reaching.{names_of, bringing_of};

use case_table::{Seq, Text};
use indexmap::IndexSet;
use mdl_syntax::{Ident, Import, Lead, Module, ModuleRef, Qualified};
use module_set::ModuleName;
use std::alloc::{AllocError, Global};

/// The names that a module brings from another: all, one, or those that are listed.
#[derive(Clone, Copy)]
pub enum Names<'a> {
    All,
    One(&'a Ident),
    Listed(&'a [Ident]),
}

/// What a module brings from another by one name of it in an import.
#[derive(Clone, Copy)]
pub struct Bringing<'a> {
    pub from: usize,
    pub names: Names<'a>,
    /// By `using`.
    pub used: bool,
}

/// What a module brings, in order of place.
pub fn brought<'a>(
    alloc: Global,
    names: &IndexSet<ModuleName>,
    importer: &ModuleName,
    module: &'a Module,
) -> Result<Vec<Bringing<'a>>, AllocError>
    ensures { IfOk result (λ all. map bringing_of all.items
        ≡ flat_map (brought_by names.now.keys importer.now) «module».now.imports) }
{
    let mut all = Vec::new(alloc);
    for import in module.imports.list() {
        push_import(alloc, &mut all, names, importer, import)?;
    }
    Ok(all)
}

/// Appends what an import brings.
fn push_import<'a>(
    alloc: Global,
    all: &mut Vec<Bringing<'a>>,
    names: &IndexSet<ModuleName>,
    importer: &ModuleName,
    import: &'a Import,
) -> Result<(), AllocError>
    ensures { OnOk result (map bringing_of all.new.items
        ≡ map bringing_of all.old.items ++ brought_by names.now.keys importer.now import.now) }
{
    match import {
        Import::Import { items, .. } => push_items(alloc, all, names, importer, items.list()),
        Import::Using {
            module,
            names: listed,
            ..
        } => push_one(
            alloc,
            all,
            names,
            importer,
            module,
            listed_names(listed),
            true,
        ),
    }
}

fn push_items<'a>(
    alloc: Global,
    all: &mut Vec<Bringing<'a>>,
    names: &IndexSet<ModuleName>,
    importer: &ModuleName,
    items: &'a [Qualified],
) -> Result<(), AllocError>
    ensures { OnOk result (map bringing_of all.new.items
        ≡ map bringing_of all.old.items ++ filter_map (brought_item names.now.keys importer.now) items.now) }
{
    for item in items {
        push_one(
            alloc,
            all,
            names,
            importer,
            &item.module,
            named_alone(&item.name),
            false,
        )?;
    }
    Ok(())
}

/// Appends what one name of a module brings.
fn push_one<'a>(
    alloc: Global,
    all: &mut Vec<Bringing<'a>>,
    names: &IndexSet<ModuleName>,
    importer: &ModuleName,
    reference: &ModuleRef,
    listed: Names<'a>,
    used: bool,
) -> Result<(), AllocError>
    ensures { OnOk result (map bringing_of all.new.items ≡ map bringing_of all.old.items
        ++ as_list (option_map (bringing (names_of listed.entry) used)
        (index_meant names.now.keys importer.now reference.now))) }
{
    match index_meant(alloc, names, importer, reference)? {
        Some(from) => {
            all.push(Bringing {
                from,
                names: listed,
                used,
            })?;
            Ok(())
        }
        None => Ok(()),
    }
}

fn listed_names(listed: &Option<Seq<Ident>>) -> Names
    ensures { names_of result ≡ listed.now }
{
    match listed {
        Some(names) => Names::Listed(names.list()),
        None => Names::All,
    }
}

fn named_alone(name: &Option<Ident>) -> Names
    ensures { names_of result ≡ named_alone name.now }
{
    match name {
        Some(name) => Names::One(name),
        None => Names::All,
    }
}

/// The index of the module that a name means in another. The number of modules stands for one that isn't there.
fn index_meant(
    alloc: Global,
    names: &IndexSet<ModuleName>,
    importer: &ModuleName,
    reference: &ModuleRef,
) -> Result<Option<usize>, AllocError>
    ensures { IfOk result (λ found. found ≡ index_meant names.now.keys importer.now reference.now) }
{
    let parts = reference.parts.list();
    let folder = package_of(importer);
    match reference.lead {
        Lead::Bare => {
            let index = index_bare(alloc, names, folder, parts)?;
            Ok(Some(index))
        }
        Lead::Absolute => {
            let index = index_of(alloc, names, &[], parts)?;
            Ok(Some(index))
        }
        Lead::Here => {
            let index = index_of(alloc, names, folder, parts)?;
            Ok(Some(index))
        }
        Lead::Up(steps) => {
            let found = index_up(alloc, names, folder, steps, parts)?;
            Ok(found)
        }
    }
}

/// The index of the module that a name without a mark means.
fn index_bare(
    alloc: Global,
    names: &IndexSet<ModuleName>,
    folder: &[Text],
    parts: &[Ident],
) -> Result<usize, AllocError>
    ensures { IfOk result (λ index. index
        ≡ place_of same_name (bare (is_among names.now.keys) folder.now (texts parts.now)) names.now.keys) }
{
    let sibling = joined(alloc, folder, parts)?;
    if names.contains(&sibling) {
        return Ok(place_of(names, &sibling));
    }
    let index = index_of(alloc, names, &[], parts)?;
    Ok(index)
}

/// The index of the module of a name in the package that lies so many steps up.
fn index_up(
    alloc: Global,
    names: &IndexSet<ModuleName>,
    folder: &[Text],
    steps: u32,
    parts: &[Ident],
) -> Result<Option<usize>, AllocError>
    ensures { IfOk result (λ found. found ≡ option_map (λ name. place_of same_name name names.now.keys)
        (within (texts parts.now) (package_up steps folder.now))) }
{
    let steps = steps as usize;
    if steps > folder.len() {
        return Ok(None);
    }
    let index = index_of(alloc, names, &folder[..folder.len() - steps], parts)?;
    Ok(Some(index))
}

fn package_of(name: &ModuleName) -> &[Text]
    ensures { result.now ≡ package_of name.now }
{
    let parts = name.parts.list();
    &parts[..parts.len().saturating_sub(1)]
}

/// The index of the module of a name in a package.
fn index_of(
    alloc: Global,
    names: &IndexSet<ModuleName>,
    folder: &[Text],
    parts: &[Ident],
) -> Result<usize, AllocError>
    ensures { IfOk result
        (λ index. index ≡ place_of same_name (named (folder.now ++ texts parts.now)) names.now.keys) }
{
    let name = joined(alloc, folder, parts)?;
    Ok(place_of(names, &name))
}

/// The index of a name among others, or their number where it isn't there.
fn place_of(names: &IndexSet<ModuleName>, name: &ModuleName) -> usize
    ensures { result ≡ place_of same_name name.now names.now.keys }
{
    match names.get_index_of(name) {
        Some(index) => index,
        None => names.len(),
    }
}

/// The name that stands in a package.
fn joined(alloc: Global, folder: &[Text], parts: &[Ident]) -> Result<ModuleName, AllocError>
    ensures { IfOk result (λ name. name ≡ named (folder.now ++ texts parts.now)) }
{
    let mut all = Vec::new(alloc);
    for part in folder {
        all.push(part.clone()?)?;
    }
    for part in parts {
        all.push(part.text.clone()?)?;
    }
    Ok(ModuleName {
        parts: Seq::of(all),
    })
}
