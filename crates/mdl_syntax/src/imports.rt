use crate::names::{Ident, Span};
use case_table::Seq;

/// What a module's name begins with.
#[derive(Clone, Copy, Debug, PartialEq, Eq)]
pub enum Lead {
    Bare,
    /// `::`
    Absolute,
    /// `.::`
    Here,
    /// So many `..::`, at least one.
    Up(u32),
}

/// The name of a module.
#[derive(Debug, Drop)]
pub struct ModuleRef {
    pub lead: Lead,
    /// Identifiers with `::` between them, at least one.
    pub parts: Seq<Ident>,
    pub span: Span,
}

/// A module and one of its names, or all of them.
#[derive(Debug, Drop)]
pub struct Qualified {
    pub module: ModuleRef,
    /// None for `*`.
    pub name: Option<Ident>,
    pub span: Span,
}

#[derive(Debug, Drop)]
pub enum Import {
    /// `import items;`
    Import {
        items: Seq<Qualified>,
        span: Span,
    },
    /// `using module import names;`, without names for `*`
    Using {
        module: ModuleRef,
        names: Option<Seq<Ident>>,
        span: Span,
    },
}
