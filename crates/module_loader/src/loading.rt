ghost use Rattle.std.specs.Prelude.{◌≡◌, map, string_bytes, IfOk, IfErr};
ghost use Rattle.module_set.specs.ModuleSets.{IsModuleSet};
ghost use Rattle.module_loader.specs.Loads.{Loads, FailsToLoad, SourceKept};
ghost use Rattle.module_loader.specs.LoadFaults.{name_at};
ghost use Rattle.module_loader.specs.inside.Linking.{linked_members};

use crate::closure::load_closure;
use crate::contents::Contents;
use crate::cycles::first_cycle;
use crate::fault::LoadFault;
use crate::linked::Linked;
use crate::members::Loaded;
use case_table::Seq;
use io_edge::{Gate, Source};
use module_grammar::one_module_reading;
use module_set::{ModuleName, ModuleSet};
use std::alloc::{AllocError, Global};
use std::thread::Threads;

/// The modules that are asked for with all that they import, in the order in which they become known. No path is read
/// twice. `docs/PACKAGES.md` says how a module is found.
pub fn load<R: Threads + Sync, S: Source, G: Gate>(
    _rt: &R,
    alloc: Global,
    source: &mut S,
    roots: &[String],
    first: &[ModuleName],
    _workers: usize,
    _gate: &G,
) -> Result<ModuleSet, LoadFault>
    ensures kept { SourceKept (S.state source.old) (S.state source.new) }
    ensures loaded { IfOk result (λ set. Loads (map string_bytes roots.now) first.now (S.state source.old) set) }
    ensures is_set { IfOk result IsModuleSet }
    ensures fault { IfErr result (λ fault. FailsToLoad (map string_bytes roots.now) first.now (S.state source.old)
        (S.state source.new) fault) }
{
    one_module_reading();
    let mut contents = Contents::new(alloc);
    let all = load_closure(alloc, source, &mut contents, roots, first)?;
    contents.are_read();
    if let Some(cycle) = first_cycle(alloc, &all)? {
        let path = names_at(alloc, &all, &cycle)?;
        return Err(LoadFault::Cycle {
            path: Seq::of(path),
        });
    }
    let set = set_of(alloc, all)?;
    Ok(set)
}

/// The names of the modules at some indices.
fn names_at(alloc: Global, all: &[Linked], indices: &[usize]) -> Result<Vec<ModuleName>, AllocError>
    ensures { IfOk result (λ names. names.items ≡ map (name_at (linked_members all.now)) indices.now) }
{
    let mut names = Vec::new(alloc);
    for index in indices {
        let name = name_at(alloc, all, *index)?;
        names.push(name)?;
    }
    Ok(names)
}

fn name_at(alloc: Global, all: &[Linked], index: usize) -> Result<ModuleName, AllocError>
    ensures { IfOk result (λ name. name ≡ name_at (linked_members all.now) index) }
{
    match all.get(index) {
        Some(one) => {
            let name = one.name.copy(alloc)?;
            Ok(name)
        }
        None => Ok(ModuleName {
            parts: Seq::of(Vec::new(alloc)),
        }),
    }
}

/// The set of these modules.
fn set_of(alloc: Global, all: Vec<Linked>) -> Result<ModuleSet, AllocError>
    ensures { IfOk result (λ set. (set.names ≡ map (λ one. one.name) all.items)
        × (set.modules ≡ map (λ one. one.loaded.module) all.items)
        × (set.texts ≡ map (λ one. one.loaded.text) all.items)) }
{
    let mut names = Vec::new(alloc);
    let mut modules = Vec::new(alloc);
    let mut texts = Vec::new(alloc);
    for one in all {
        let Linked { name, loaded, .. } = one;
        let Loaded { text, module } = loaded;
        names.push(name)?;
        modules.push(module)?;
        texts.push(text)?;
    }
    Ok(ModuleSet {
        names: Seq::of(names),
        modules: Seq::of(modules),
        texts: Seq::of(texts),
    })
}
