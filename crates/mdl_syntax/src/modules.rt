use crate::declarations::{Anno, Decl};
use crate::imports::Import;
use crate::names::Span;
use case_table::{Seq, Text};

/// The number behind `mdl`, as it is written.
#[derive(Debug, Drop)]
pub struct VersionLit {
    pub text: Text,
    pub double: bool,
    pub span: Span,
}

#[derive(Debug, Drop)]
pub struct Module {
    pub version: VersionLit,
    pub imports: Seq<Import>,
    pub annos: Option<Seq<Anno>>,
    pub decls: Seq<Decl>,
    pub span: Span,
}
