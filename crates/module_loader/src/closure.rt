ghost use Rattle.std.specs.Prelude.{◌≡◌, map, string_bytes, Ok, IfOk, IfErr};
ghost use Rattle.case_table.specs.Lists.{firsts};
ghost use Rattle.module_set.specs.Names.{same_name};
ghost use Rattle.module_loader.specs.inside.Contents.{Reading};
ghost use Rattle.module_loader.specs.inside.Loading.{Surely};
ghost use Rattle.module_loader.specs.inside.Linking.{IsClosed, HasClosureFault};

use crate::contents::Contents;
use crate::fault::LoadFault;
use crate::imports::{imports, take_in};
use crate::linked::{Linked, absent};
use crate::members::load_member;
use indexmap::IndexSet;
use io_edge::Source;
use module_set::ModuleName;
use std::alloc::{AllocError, Global};

/// The most modules of a closure.
const MOST_MODULES: usize = 4096;

/// The modules of a closure, in its order.
#[tactic(auto, using(crate::proofs::LocateLaws::reads_on))]
pub fn load_closure<S: Source>(
    alloc: Global,
    source: &mut S,
    contents: &mut Contents,
    roots: &[String],
    first: &[ModuleName],
) -> Result<Vec<Linked>, LoadFault>
    ensures reads { Reading (S.state source.old) (S.state source.new) contents.old contents.new }
    ensures closed { IfOk result (λ all. Surely (map string_bytes roots.now) contents.new (λ packages.
        IsClosed packages first.now all.items)) }
    ensures fault { IfErr result (λ fault. HasClosureFault (S.state source.old) (S.state source.new)
        (map string_bytes roots.now) first.now contents.new fault) }
{
    let mut names = names_of(alloc, first)?;
    let mut all: Vec<Linked> = Vec::new(alloc);
    while let Some(name) = names.get_index(all.len()) {
        if all.len() >= MOST_MODULES {
            return Err(LoadFault::TooMany);
        }
        let name = name.copy(alloc)?;
        match load_member(alloc, source, contents, roots, &name)? {
            Some(loaded) => {
                let imports = imports(alloc, source, contents, roots, &mut names, &name, &loaded)?;
                all.push(Linked {
                    name,
                    loaded,
                    imports,
                })?;
            }
            None => return Err(absent(alloc, first, names.as_slice(), &all, name)?),
        }
    }
    Ok(all)
}

/// The names without later repeats.
fn names_of(alloc: Global, first: &[ModuleName]) -> Result<IndexSet<ModuleName>, AllocError>
    ensures { IfOk result (λ names. names.keys ≡ firsts same_name first.now) }
{
    let mut names = IndexSet::new(alloc);
    for name in first {
        let copied = name.copy(alloc)?;
        take_in(&mut names, copied)?;
    }
    Ok(names)
}
