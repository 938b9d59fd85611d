use crate::names::{Ident, Name, Span};

/// A type as it is written: a name, and the size of an array.
#[derive(Debug, Drop)]
pub struct TypeTree {
    pub name: Name,
    pub size: Size,
    pub span: Span,
}

#[derive(Debug, Drop)]
pub enum Size {
    /// No array.
    One,
    /// `[3]`
    Sized(u32),
    /// `[<n>]`
    Deferred(Ident),
}

/// `uniform` or `varying`.
#[derive(Clone, Copy, Debug, PartialEq, Eq)]
pub enum Freq {
    Uniform,
    Varying,
}
