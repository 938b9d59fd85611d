ghost use Rattle.std.specs.Prelude.{◌≡◌, ◌++◌, map, string_bytes, IfOk, IfErr};
ghost use Rattle.module_set.specs.Names.{named, package_of};
ghost use Rattle.module_set.specs.Imports.{within, package_up};
ghost use Rattle.module_loader.specs.inside.Contents.{Reading, Fails};
ghost use Rattle.module_loader.specs.inside.Loading.{IsMeant, IsBare, HasFile};

use crate::contents::Contents;
use crate::fault::LoadFault;
use crate::files::{Located, locate};
use case_table::{Seq, Text};
use io_edge::Source;
use mdl_syntax::{Ident, Lead, Module, ModuleRef};
use module_set::ModuleName;
use std::alloc::{AllocError, Global};

/// The module that a name means in another, or nothing where it goes up past the top.
pub fn meaning<S: Source>(
    alloc: Global,
    source: &mut S,
    contents: &mut Contents,
    roots: &[String],
    importer: &ModuleName,
    reference: &ModuleRef,
) -> Result<Option<ModuleName>, LoadFault>
    ensures reads { Reading (S.state source.old) (S.state source.new) contents.old contents.new }
    ensures meant { IfOk result
        (λ found. IsMeant (map string_bytes roots.now) importer.now reference.now contents.new found) }
    ensures fails { IfErr result (λ fault. Fails (S.state source.old) (S.state source.new) fault) }
{
    let parts = reference.parts.list();
    let folder = package_of(importer);
    match reference.lead {
        Lead::Bare => {
            let name = bare(alloc, source, contents, roots, folder, parts)?;
            Ok(Some(name))
        }
        Lead::Absolute => {
            let name = joined(alloc, &[], parts)?;
            Ok(Some(name))
        }
        Lead::Here => {
            let name = joined(alloc, folder, parts)?;
            Ok(Some(name))
        }
        Lead::Up(steps) => {
            let found = upwards(alloc, folder, steps, parts)?;
            Ok(found)
        }
    }
}

/// The module that a name without a mark means.
fn bare<S: Source>(
    alloc: Global,
    source: &mut S,
    contents: &mut Contents,
    roots: &[String],
    folder: &[Text],
    parts: &[Ident],
) -> Result<ModuleName, LoadFault>
    ensures reads { Reading (S.state source.old) (S.state source.new) contents.old contents.new }
    ensures meant { IfOk result (λ name. IsBare (map string_bytes roots.now) folder.now
        (map (λ part. part.text) parts.now) contents.new name) }
    ensures fails { IfErr result (λ fault. Fails (S.state source.old) (S.state source.new) fault) }
{
    let sibling = joined(alloc, folder, parts)?;
    if folder.is_empty() {
        return Ok(sibling);
    }
    if has_file(alloc, source, contents, roots, &sibling)? {
        return Ok(sibling);
    }
    let name = joined(alloc, &[], parts)?;
    Ok(name)
}

/// Whether some root has the module's file.
fn has_file<S: Source>(
    alloc: Global,
    source: &mut S,
    contents: &mut Contents,
    roots: &[String],
    name: &ModuleName,
) -> Result<bool, LoadFault>
    ensures reads { Reading (S.state source.old) (S.state source.new) contents.old contents.new }
    ensures has { IfOk result (λ has. HasFile (map string_bytes roots.now) name.now contents.new has) }
    ensures fails { IfErr result (λ fault. Fails (S.state source.old) (S.state source.new) fault) }
{
    match locate(alloc, source, contents, roots, name)? {
        Located::At(_) => Ok(true),
        Located::TooLong => Ok(true),
        Located::Nowhere => Ok(false),
    }
}

/// The module of a name in the package that lies so many steps up.
fn upwards(
    alloc: Global,
    folder: &[Text],
    steps: u32,
    parts: &[Ident],
) -> Result<Option<ModuleName>, AllocError>
    ensures { IfOk result
        (λ found. found ≡ within (map (λ part. part.text) parts.now) (package_up steps folder.now)) }
{
    let steps = steps as usize;
    if steps > folder.len() {
        return Ok(None);
    }
    let name = joined(alloc, &folder[..folder.len() - steps], parts)?;
    Ok(Some(name))
}

/// The package that a module lies in.
fn package_of(name: &ModuleName) -> &[Text]
    ensures { result.now ≡ package_of name.now }
{
    let parts = name.parts.list();
    &parts[..parts.len().saturating_sub(1)]
}

/// The name that stands in a package.
pub fn joined(alloc: Global, folder: &[Text], parts: &[Ident]) -> Result<ModuleName, AllocError>
    ensures { IfOk result (λ name. name ≡ named (folder.now ++ map (λ part. part.text) parts.now)) }
{
    let mut all = Vec::new(alloc);
    for part in folder {
        all.push(part.clone()?)?;
    }
    for part in parts {
        all.push(part.text.clone()?)?;
    }
    Ok(ModuleName {
        parts: Seq::of(all),
    })
}
