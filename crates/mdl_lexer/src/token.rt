use case_table::{OutOfMemory, Text};
use std::alloc::{AllocError, AllocFailed};

/// A word of a module's text, with its place.
#[derive(Debug, Drop, PartialEq, Eq)]
pub struct Token {
    pub kind: Kind,
    /// The byte offset of its first byte.
    pub at: u32,
    /// The byte offset behind its last byte.
    pub end: u32,
}

/// What a word is. Reserved words and marks are told by their numbers in the tables.
#[derive(Debug, Drop, PartialEq, Eq)]
pub enum Kind {
    /// An identifier, as it is written.
    Word(Text),
    Reserved(u16),
    Mark(u16),
    Int(u32),
    /// The text as it is written, without its suffix. Without one it is a float.
    Real { text: Text, double: bool },
    /// What stands between the quotes, with each escape replaced by its character.
    Str(Text),
}

/// Why a text has no words. Places are byte offsets.
#[derive(Clone, Copy, Debug, PartialEq, Eq)]
pub enum LexFault {
    /// The bytes aren't UTF-8: the first byte that starts no character.
    NotUtf8 { at: u32 },
    /// No word stands here.
    BadToken { at: u32 },
    /// The first digit of an integer past 4294967295.
    IntRange { at: u32 },
    OutOfMemory,
}

impl From<AllocError> for LexFault {
    ghost use Rattle.std.specs.Prelude.{◌≡◌};
    ghost use Rattle.mdl_lexer.specs.declared.token.LexFault.TheVariants.{OutOfMemory};

    ghost from_gives = { λ _ fault. fault ≡ OutOfMemory };

    fn from(_error: AllocError) -> LexFault {
        LexFault::OutOfMemory
    }
}

impl<T: Drop> From<AllocFailed<T>> for LexFault {
    ghost use Rattle.std.specs.Prelude.{◌≡◌};
    ghost use Rattle.mdl_lexer.specs.declared.token.LexFault.TheVariants.{OutOfMemory};

    ghost from_gives = { λ _ fault. fault ≡ OutOfMemory };

    fn from(_error: AllocFailed<T>) -> LexFault {
        LexFault::OutOfMemory
    }
}

impl From<OutOfMemory> for LexFault {
    ghost use Rattle.std.specs.Prelude.{◌≡◌};
    ghost use Rattle.mdl_lexer.specs.declared.token.LexFault.TheVariants.{OutOfMemory};

    ghost from_gives = { λ _ fault. fault ≡ OutOfMemory };

    fn from(_error: OutOfMemory) -> LexFault {
        LexFault::OutOfMemory
    }
}
