ghost use Rattle.std.specs.Prelude.{◌≡◌};
ghost use Rattle.type_rules.specs.Same.{same_symbol};

use crate::ty::{Arg, Ty};
use case_table::{Seq, Text};
use std::alloc::AllocError;

/// What stands at a node of a graph. A literal keeps its text, and an operation is never evaluated.
#[derive(Debug, Drop, PartialEq, Eq, PartialOrd, Ord, Hash)]
pub enum Symbol {
    Bool(bool),
    Int(u32),
    /// A real number as it was written, without its suffix.
    Real {
        text: Text,
        double: bool,
    },
    Str(Text),
    EnumValue {
        ty: Text,
        value: Text,
    },
    /// A parameter of a class, by its place among them.
    Param {
        index: u32,
        ty: Ty,
        uniform: bool,
    },
    /// A constructor, conversion, operator, field, index or intrinsic.
    Op {
        name: Text,
        args: Seq<Arg>,
        result: Ty,
        varying: bool,
    },
}

impl Clone for Symbol {
    ghost is_clone = { λ s copied. copied ≡ s };

    fn clone(&self) -> Result<Symbol, AllocError> {
        match self {
            Symbol::Bool(value) => Ok(Symbol::Bool(*value)),
            Symbol::Int(value) => Ok(Symbol::Int(*value)),
            Symbol::Real { text, double } => {
                let text = text.clone()?;
                Ok(Symbol::Real {
                    text,
                    double: *double,
                })
            }
            Symbol::Str(text) => {
                let text = text.clone()?;
                Ok(Symbol::Str(text))
            }
            Symbol::EnumValue { ty, value } => {
                let ty = ty.clone()?;
                let value = value.clone()?;
                Ok(Symbol::EnumValue { ty, value })
            }
            Symbol::Param { index, ty, uniform } => {
                let ty = ty.clone()?;
                Ok(Symbol::Param {
                    index: *index,
                    ty,
                    uniform: *uniform,
                })
            }
            Symbol::Op {
                name,
                args,
                result,
                varying,
            } => {
                let name = name.clone()?;
                let args = args.clone()?;
                let result = result.clone()?;
                Ok(Symbol::Op {
                    name,
                    args,
                    result,
                    varying: *varying,
                })
            }
        }
    }
}

impl Symbol {
    /// Whether both are one symbol, texts, types and marks.
    pub fn is_same(&self, other: &Symbol) -> bool
        ensures { result ≡ same_symbol self.now other.now }
    {
        self == other
    }
}
