ghost use Rattle.std.specs.Prelude.{◌≡◌, ◌≤◌, ◌++◌, map, length, string_bytes, slice_get, Some, IfOk, IfErr};
ghost use Rattle.std.specs.Prelude.{OnOk};
ghost use Rattle.mdl_syntax.specs.Modules.{module_of};
ghost use Rattle.case_table.specs.Lists.{with_first};
ghost use Rattle.module_set.specs.Names.{same_name, named};
ghost use Rattle.module_set.specs.Imports.{references_in, references, components};
ghost use Rattle.mdl_lexer.specs.Places.{IsPlace};
ghost use Rattle.module_loader.specs.declared.fault.LoadFault.TheVariants as fault;
ghost use Rattle.module_loader.specs.TextFaults.{place_in};
ghost use Rattle.module_loader.specs.inside.Contents.{Reading};
ghost use Rattle.module_loader.specs.inside.Texts.{ArePlaces};
ghost use Rattle.module_loader.specs.inside.Loading.{Surely, member_of};
ghost use Rattle.module_loader.specs.inside.Importing.{Imported, HasImportFault};

use crate::contents::Contents;
use crate::fault::LoadFault;
use crate::meaning::{joined, meaning};
use crate::members::Loaded;
use indexmap::IndexSet;
use io_edge::{Source, place_of};
use mdl_syntax::{Import, Module, ModuleRef};
use module_set::ModuleName;
use std::alloc::{AllocError, AllocFailed, Global};

/// The indices of the modules that a module imports, in order of place. Those that weren't known come to the end of
/// the names.
pub fn imports<S: Source>(
    alloc: Global,
    source: &mut S,
    contents: &mut Contents,
    roots: &[String],
    names: &mut IndexSet<ModuleName>,
    name: &ModuleName,
    loaded: &Loaded,
) -> Result<Vec<usize>, LoadFault>
    requires places { ArePlaces loaded.now.text (module_of loaded.now.module) }
    requires short { length loaded.now.text ≤ 4194304 }
    ensures reads { Reading (S.state source.old) (S.state source.new) contents.old contents.new }
    ensures imported { IfOk result (λ indices. Surely (map string_bytes roots.now) contents.new (λ packages.
        Imported packages name.now (references (module_of loaded.now.module)) names.old.keys names.new.keys
        indices.items)) }
    ensures fault { IfErr result (λ fault. HasImportFault (S.state source.old) (S.state source.new)
        (map string_bytes roots.now) (member_of name.now loaded.now) contents.new fault) }
{
    let references = references(alloc, &loaded.module)?;
    let mut indices = Vec::new(alloc);
    for reference in &references {
        match meaning(alloc, source, contents, roots, name, reference)? {
            Some(imported) => {
                let index = take_in(names, imported)?;
                indices.push(index)?;
            }
            None => return Err(past_top(alloc, name, loaded, reference)?),
        }
    }
    Ok(indices)
}

/// The index of a name among others, where it comes to the end unless it is there.
pub fn take_in(
    names: &mut IndexSet<ModuleName>,
    name: ModuleName,
) -> Result<usize, AllocFailed<ModuleName>>
    ensures names { OnOk result (names.new.keys ≡ with_first same_name names.old.keys name) }
    ensures index { IfOk result (λ index. slice_get names.new.keys index ≡ Some name) }
{
    let (index, _) = names.insert_full(name)?;
    Ok(index)
}

/// The fault of an import that goes up past the top.
fn past_top(
    alloc: Global,
    name: &ModuleName,
    loaded: &Loaded,
    reference: &ModuleRef,
) -> Result<LoadFault, AllocError>
    requires place { IsPlace loaded.now.text reference.now.span.at }
    requires short { length loaded.now.text ≤ 4194304 }
    ensures { IfOk result (λ found. found ≡ fault.Absent (Some name.now)
        (place_in loaded.now.text reference.now.span.at) (named (components reference.now))) }
{
    let place = place_of(loaded.text.as_str().as_bytes(), reference.span.at as usize);
    let importer = name.copy(alloc)?;
    let name = joined(alloc, &[], reference.parts.list())?;
    Ok(LoadFault::Absent {
        importer: Some(importer),
        place,
        name,
    })
}

/// The names of modules that stand in a module's imports, in order of place.
pub fn references(alloc: Global, read: &Module) -> Result<Vec<&ModuleRef>, AllocError>
    ensures { IfOk result (λ all. map (λ one. one.now) all.items ≡ references (module_of read.now)) }
{
    let mut all = Vec::new(alloc);
    for import in read.imports.list() {
        push_references(&mut all, import)?;
    }
    Ok(all)
}

/// Appends the names of modules that stand in an import.
fn push_references<'a>(all: &mut Vec<&'a ModuleRef>, import: &'a Import) -> Result<(), AllocError>
    ensures { OnOk result
        (map (λ one. one.now) all.new.items ≡ map (λ one. one.now) all.old.items ++ references_in import.now) }
{
    match import {
        Import::Import { items, .. } => {
            for item in items.list() {
                all.push(&item.module)?;
            }
        }
        Import::Using { module, .. } => all.push(module)?,
    }
    Ok(())
}
