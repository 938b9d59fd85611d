ghost use Rattle.std.specs.Prelude.{◌≡◌, IfOk};

use case_table::{Seq, Text};
use std::alloc::{AllocError, Global};

/// The absolute name of a module: its components, at least one.
#[derive(Debug, Drop, PartialEq, Eq, Hash)]
pub struct ModuleName {
    pub parts: Seq<Text>,
}

impl ModuleName {
    /// A copy of the name.
    pub fn copy(&self, alloc: Global) -> Result<ModuleName, AllocError>
        ensures { IfOk result (λ copied. copied ≡ self.now) }
    {
        let mut parts = Vec::new(alloc);
        for part in self.parts.list() {
            parts.push(part.clone()?)?;
        }
        Ok(ModuleName {
            parts: Seq::of(parts),
        })
    }
}
