ghost use Rattle.std.specs.Prelude.{◌≡◌, map, string_bytes, IfOk, IfErr};
ghost use Rattle.module_loader.specs.Files.{path_of};
ghost use Rattle.module_loader.specs.inside.Contents.{Reading, Fails};
ghost use Rattle.module_loader.specs.inside.Locating.{IsLocated};

use crate::contents::{Content, Contents};
use crate::fault::LoadFault;
use case_table::Text;
use io_edge::Source;
use module_set::ModuleName;
use std::alloc::{AllocError, Global};

/// Where a module's file stands among the contents.
#[derive(Clone, Copy, Debug)]
pub enum Located {
    At(usize),
    TooLong,
    Nowhere,
}

/// The file of a module under the first root that has it.
pub fn locate<S: Source>(
    alloc: Global,
    source: &mut S,
    contents: &mut Contents,
    roots: &[String],
    name: &ModuleName,
) -> Result<Located, LoadFault>
    ensures reads { Reading (S.state source.old) (S.state source.new) contents.old contents.new }
    ensures located { IfOk result (λ located. IsLocated (map string_bytes roots.now) name.now contents.new located) }
    ensures fails { IfErr result (λ fault. Fails (S.state source.old) (S.state source.new) fault) }
{
    for root in roots {
        let path = path_of(alloc, root, name)?;
        let index = contents.read(alloc, source, path)?;
        match contents.content(index) {
            Content::Found(_) => return Ok(Located::At(index)),
            Content::TooLong => return Ok(Located::TooLong),
            Content::Absent => {}
        }
    }
    Ok(Located::Nowhere)
}

/// The path of a module's file under a root.
fn path_of(alloc: Global, root: &str, name: &ModuleName) -> Result<Text, AllocError>
    ensures { IfOk result (λ path. path ≡ path_of root.now name.now) }
{
    let mut path = String::from_str(alloc, root)?;
    for part in name.parts.list() {
        path.push_str("/")?;
        path.push_str(part.as_str())?;
    }
    path.push_str(".mdl")?;
    Ok(Text::of(path))
}
