use case_table::{Seq, Text};

/// Where a part of a module stands: the byte offset of its first word, and that behind its last.
#[derive(Clone, Copy, Debug, PartialEq, Eq)]
pub struct Span {
    pub at: u32,
    pub end: u32,
}

/// An identifier.
#[derive(Debug, Drop)]
pub struct Ident {
    pub text: Text,
    pub span: Span,
}

/// The name of a declaration or of a type.
#[derive(Debug, Drop)]
pub struct Name {
    pub form: NameForm,
    pub span: Span,
}

#[derive(Debug, Drop)]
pub enum NameForm {
    /// Identifiers with `::` between them, at least one. An absolute name begins with `::`.
    Parts { absolute: bool, parts: Seq<Ident> },
    /// A reserved word that names a type, by its number in the tables of `mdl_lexer`.
    Word(u16),
}
