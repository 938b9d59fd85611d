ghost use Rattle.std.specs.Prelude.{◌≡◌};

use case_table::Text;
use std::alloc::AllocError;

/// Whether a type is an array, and of which size.
#[derive(Clone, Copy, Debug, PartialEq, Eq, PartialOrd, Ord, Hash)]
pub enum Shape {
    /// No array.
    One,
    /// An array of so many elements.
    Sized(u32),
    /// An array of deferred size.
    AnySize,
}

/// A type by its builtin, prelude or absolute name. An array has the name of its elements' type.
#[derive(Debug, Drop, PartialEq, Eq, PartialOrd, Ord, Hash)]
pub struct Ty {
    pub name: Text,
    pub shape: Shape,
}

/// The type of an argument, and whether its parameter is uniform.
#[derive(Debug, Drop, PartialEq, Eq, PartialOrd, Ord, Hash)]
pub struct Arg {
    pub ty: Ty,
    pub uniform: bool,
}

impl Clone for Ty {
    ghost is_clone = { λ t copied. copied ≡ t };

    fn clone(&self) -> Result<Ty, AllocError> {
        let name = self.name.clone()?;
        Ok(Ty {
            name,
            shape: self.shape,
        })
    }
}

impl Clone for Arg {
    ghost is_clone = { λ a copied. copied ≡ a };

    fn clone(&self) -> Result<Arg, AllocError> {
        let ty = self.ty.clone()?;
        Ok(Arg {
            ty,
            uniform: self.uniform,
        })
    }
}
