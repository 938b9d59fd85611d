ghost use Rattle.std.specs.Prelude.{◌≡◌, slice_get, option_map, IfOk, IfSome};
ghost use Rattle.std.specs.List.{list_any};
ghost use Rattle.mdl_lexer.specs.Places.{IsPlace};
ghost use Rattle.module_set.specs.Names.{same_name};
ghost use Rattle.mdl_syntax.specs.Modules.{module_of};
ghost use Rattle.module_loader.specs.declared.fault.LoadFault.TheVariants as fault;
ghost use Rattle.module_loader.specs.LoadFaults.{means};
ghost use Rattle.module_loader.specs.inside.Texts.{ArePlaces};
ghost use Rattle.module_loader.specs.inside.Linking.{asked, asked_among, pointing_in, ArePlaced};

use crate::fault::LoadFault;
use crate::imports::references;
use crate::members::Loaded;
use io_edge::{Place, place_of};
use mdl_syntax::ModuleRef;
use module_set::ModuleName;
use std::alloc::{AllocError, Global};

/// A module that is loaded, with the indices of those that it imports, in order of place.
#[derive(Drop)]
pub struct Linked {
    pub name: ModuleName,
    pub loaded: Loaded,
    pub imports: Vec<usize>,
}

/// The fault of a module that has no text. `names` are those that are known.
pub fn absent(
    alloc: Global,
    first: &[ModuleName],
    names: &[ModuleName],
    all: &[Linked],
    name: ModuleName,
) -> Result<LoadFault, AllocError>
    requires { ArePlaced all.now }
    ensures { IfOk result (λ found. found ≡ fault.Absent (asked first.now names.now all.now name).0
        (asked first.now names.now all.now name).1 name) }
{
    if is_among(first, &name) {
        return Ok(LoadFault::Absent {
            importer: None,
            place: NOWHERE,
            name,
        });
    }
    let (importer, place) = importer(alloc, names, all, &name)?;
    Ok(LoadFault::Absent {
        importer,
        place,
        name,
    })
}

fn is_among(names: &[ModuleName], name: &ModuleName) -> bool
    ensures { result ≡ list_any (same_name name.now) names.now }
{
    names.iter().any(|one| name == one)
}

/// Where no module asks for another.
const NOWHERE: Place = Place { line: 0, column: 0 };

/// The first module that imports another, with the place of its first import.
fn importer(
    alloc: Global,
    names: &[ModuleName],
    all: &[Linked],
    name: &ModuleName,
) -> Result<(Option<ModuleName>, Place), AllocError>
    requires { ArePlaced all.now }
    ensures { IfOk result (λ found. found ≡ asked_among names.now all.now name.now) }
{
    for one in all {
        if let Some(reference) = import_of(alloc, names, one, name)? {
            let place = place_of(
                one.loaded.text.as_str().as_bytes(),
                reference.span.at as usize,
            );
            let importer = one.name.copy(alloc)?;
            return Ok((Some(importer), place));
        }
    }
    Ok((None, NOWHERE))
}

/// The first import of a module in another.
fn import_of<'a>(
    alloc: Global,
    names: &[ModuleName],
    one: &'a Linked,
    name: &ModuleName,
) -> Result<Option<&'a ModuleRef>, AllocError>
    requires { ArePlaces one.now.loaded.text (module_of one.now.loaded.module) }
    ensures place { IfOk result
        (λ found. IfSome found (λ reference. IsPlace one.now.loaded.text reference.now.span.at)) }
    ensures is { IfOk result
        (λ found. option_map (λ reference. reference.now) found ≡ pointing_in names.now one.now name.now) }
{
    let references = references(alloc, &one.loaded.module)?;
    let mut imports = one.imports.as_slice();
    for reference in &references {
        let Some((index, rest)) = imports.split_first() else {
            return Ok(None);
        };
        if means(names, *index, name) {
            return Ok(Some(*reference));
        }
        imports = rest;
    }
    Ok(None)
}

/// Whether the name at an index is this one.
fn means(names: &[ModuleName], index: usize, name: &ModuleName) -> bool
    ensures { result ≡ means (slice_get names.now index) name.now }
{
    match names.get(index) {
        Some(found) => name == found,
        None => false,
    }
}
