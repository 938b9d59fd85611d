use case_table::Text;
use std::alloc::{AllocError, AllocFailed, Global};

/// Why tokens are no module, or no expression. Places are indices of tokens; their number is the end of the text.
#[derive(Debug, Drop, PartialEq, Eq)]
pub enum ParseFault {
    /// The tokens up to this one begin no module. `declaration` is the first token behind the whole declarations
    /// before it, or 0 for an expression alone.
    BadSyntax { declaration: u32, at: u32 },
    /// The tokens up to this one begin a module, but only one with an expression of a height above 400.
    TooDeep { at: u32 },
    /// The `{` behind a function's head.
    StatementBody { at: u32 },
    /// This word, or the form that begins here, is left out of the profile. `docs/LANGUAGE.md` lists them.
    LeftOut { at: u32, word: Text },
    /// A version other than 1.0 to 1.6.
    Version { at: u32 },
    OutOfMemory,
}

impl From<AllocError> for ParseFault {
    ghost use Rattle.std.specs.Prelude.{◌≡◌};
    ghost use Rattle.expression_grammar.specs.declared.fault.ParseFault.TheVariants as fault;

    ghost from_gives = { λ _ made. made ≡ fault.OutOfMemory };

    fn from(_error: AllocError) -> ParseFault {
        ParseFault::OutOfMemory
    }
}

impl<T: Drop> From<AllocFailed<T>> for ParseFault {
    ghost use Rattle.std.specs.Prelude.{◌≡◌};
    ghost use Rattle.expression_grammar.specs.declared.fault.ParseFault.TheVariants as fault;

    ghost from_gives = { λ _ made. made ≡ fault.OutOfMemory };

    fn from(_error: AllocFailed<T>) -> ParseFault {
        ParseFault::OutOfMemory
    }
}
