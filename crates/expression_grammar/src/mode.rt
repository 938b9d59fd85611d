use crate::frame::Head;
use crate::operand::Operand;
use case_table::{OutOfMemory, Text};
use mdl_syntax::{Ident, Name, Span, TypeTree};
use std::alloc::{AllocError, AllocFailed};

/// What the reader has read last, and so what it waits for.
#[derive(Debug, Drop)]
pub enum Mode {
    /// An operand is wanted.
    Wanted,
    /// A whole operand.
    Complete(Operand),
    /// `::` in a name, or at its front.
    PartWanted {
        purpose: Purpose,
        path: Path,
    },
    /// A part of a name.
    PartRead {
        purpose: Purpose,
        path: Path,
    },
    /// A reserved word that names a type.
    WordRead {
        purpose: Purpose,
        name: Name,
    },
    /// `name[`
    Bracketed(Name),
    /// `name[3`, with the place of the number.
    Sized {
        name: Name,
        value: u32,
        at: Span,
    },
    /// `name[3]`, with the place of the number and the end of the bracket.
    SizedClosed {
        name: Name,
        value: u32,
        at: Span,
        end: u32,
    },
    /// `name[]`
    UnsizedClosed(Name),
    /// `name(`
    FirstArgument,
    /// `,` behind an argument.
    ArgumentWanted,
    /// An identifier at the front of an argument.
    IdentifierRead(Ident),
    /// An identifier at the front of an argument that has to be named.
    ColonWanted(Ident),
    /// `name[3](`
    FirstElement,
    /// `of.`
    FieldWanted(Operand),
    /// `let`, with its place.
    LetBegun {
        at: u32,
    },
    /// An initializer is wanted.
    HeadWanted,
    /// The frequency of an initializer.
    TypeWanted(Head),
    /// `name[` in a type.
    TypeBracketed {
        head: Head,
        name: Name,
    },
    /// `name[3` in a type.
    TypeSized {
        head: Head,
        name: Name,
        value: u32,
    },
    /// `name[<` in a type.
    DeferredWanted {
        head: Head,
        name: Name,
    },
    /// `name[<n` in a type.
    DeferredRead {
        head: Head,
        name: Name,
        ident: Ident,
    },
    /// `name[<n>` in a type.
    DeferredClosed {
        head: Head,
        name: Name,
        ident: Ident,
    },
    /// A type of an initializer.
    NameWanted {
        head: Head,
        ty: TypeTree,
    },
    /// A type and a name of an initializer.
    EqualsWanted {
        head: Head,
        ty: TypeTree,
        name: Ident,
    },
    /// An initializer in braces.
    NextWanted,
    /// All initializers.
    InWanted,
}

/// What a name is read for.
#[derive(Clone, Copy, Debug)]
pub enum Purpose {
    Expression,
    /// The type of an initializer.
    Type(Head),
}

/// A name of identifiers so far.
#[derive(Debug, Drop)]
pub struct Path {
    pub absolute: bool,
    pub parts: Vec<Ident>,
    pub span: Span,
}

/// Why the reader can't take a token.
#[derive(Debug, Drop)]
pub enum Stop {
    /// No expression goes on with it.
    Bad,
    /// One does, but is too high.
    Deep,
    /// The profile leaves out the form that this names.
    LeftOut(Text),
    OutOfMemory,
}

impl From<AllocError> for Stop {
    ghost use Rattle.std.specs.Prelude.{◌≡◌};
    ghost use Rattle.expression_grammar.specs.declared.mode.Stop.TheVariants as stop;

    ghost from_gives = { λ _ made. made ≡ stop.OutOfMemory };

    fn from(_error: AllocError) -> Stop {
        Stop::OutOfMemory
    }
}

impl<T: Drop> From<AllocFailed<T>> for Stop {
    ghost use Rattle.std.specs.Prelude.{◌≡◌};
    ghost use Rattle.expression_grammar.specs.declared.mode.Stop.TheVariants as stop;

    ghost from_gives = { λ _ made. made ≡ stop.OutOfMemory };

    fn from(_error: AllocFailed<T>) -> Stop {
        Stop::OutOfMemory
    }
}
