ghost use Rattle.std.specs.Prelude.{◌≤◌, map, length, string_bytes, Some, IfOk, IfErr};
ghost use Rattle.module_loader.specs.inside.Contents.{Reading};
ghost use Rattle.module_loader.specs.inside.Loading.{IsLoaded, HasMemberFault, ReadIn};

use crate::contents::Contents;
use crate::embedded_texts::embedded;
use crate::fault::LoadFault;
use crate::files::{Located, locate};
use crate::texts::{TextFault, read_text};
use case_table::Text;
use io_edge::Source;
use mdl_syntax::Module;
use module_set::ModuleName;
use std::alloc::Global;
use std::str;

/// A module with its text.
#[derive(Debug, Drop)]
pub struct Loaded {
    pub text: Text,
    pub module: Module,
}

/// The module of a name, or nothing where it has neither a file nor an embedded text.
pub fn load_member<S: Source>(
    alloc: Global,
    source: &mut S,
    contents: &mut Contents,
    roots: &[String],
    name: &ModuleName,
) -> Result<Option<Loaded>, LoadFault>
    ensures reads { Reading (S.state source.old) (S.state source.new) contents.old contents.new }
    ensures loaded { IfOk result (λ found. IsLoaded (map string_bytes roots.now) name.now contents.new found) }
    ensures fault { IfErr result (λ fault. HasMemberFault (S.state source.old) (S.state source.new)
        (map string_bytes roots.now) name.now contents.new fault) }
{
    match locate(alloc, source, contents, roots, name)? {
        Located::At(index) => read_member(alloc, name, contents.bytes(index)),
        Located::TooLong => Err(LoadFault::TooLong {
            name: name.copy(alloc)?,
        }),
        Located::Nowhere => match embedded(name) {
            Some(text) => read_member(alloc, name, text.as_bytes()),
            None => Ok(None),
        },
    }
}

/// The module of a name whose text is this.
fn read_member(alloc: Global, name: &ModuleName, bytes: &[u8]) -> Result<Option<Loaded>, LoadFault>
    requires { length bytes.now ≤ 4194304 }
    ensures { ReadIn name.now bytes.now result }
{
    match read_text(alloc, bytes) {
        Ok(module) => Ok(Some(Loaded {
            text: Text::copy(alloc, str::from_utf8(bytes).unwrap())?,
            module,
        })),
        Err(TextFault::Lex { fault, place }) => Err(LoadFault::Lex {
            module: name.copy(alloc)?,
            fault,
            place,
        }),
        Err(TextFault::Parse { fault, place }) => Err(LoadFault::Parse {
            module: name.copy(alloc)?,
            fault,
            place,
        }),
        Err(TextFault::OutOfMemory) => Err(LoadFault::OutOfMemory),
    }
}
