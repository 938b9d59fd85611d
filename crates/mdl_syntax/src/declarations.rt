use crate::expressions::{Argument, Expr};
use crate::names::{Ident, Name, Span};
use crate::types::{Freq, TypeTree};
use case_table::Seq;

/// An annotation.
#[derive(Debug, Drop)]
pub struct Anno {
    pub name: Name,
    pub args: Seq<Argument>,
    pub span: Span,
}

/// A parameter, or a field of a struct.
#[derive(Debug, Drop)]
pub struct Param {
    pub freq: Option<Freq>,
    pub ty: TypeTree,
    pub name: Ident,
    pub default: Option<Expr>,
    pub annos: Option<Seq<Anno>>,
    pub span: Span,
}

/// A value of an enum.
#[derive(Debug, Drop)]
pub struct EnumItem {
    pub name: Ident,
    pub number: Option<u32>,
    pub annos: Option<Seq<Anno>>,
    pub span: Span,
}

#[derive(Debug, Drop)]
pub enum Decl {
    /// `material name(params) annos = body;`
    Material {
        exported: bool,
        name: Ident,
        params: Seq<Param>,
        annos: Option<Seq<Anno>>,
        body: Expr,
        span: Span,
    },
    /// `ty name(*) annos = base(args);`
    Variant {
        exported: bool,
        ty: TypeTree,
        name: Ident,
        annos: Option<Seq<Anno>>,
        base: Name,
        args: Seq<Argument>,
        span: Span,
    },
    /// `ty name(params) freq annos = body;`, a prototype where it has no body
    Function {
        exported: bool,
        ty: TypeTree,
        name: Ident,
        params: Seq<Param>,
        freq: Option<Freq>,
        annos: Option<Seq<Anno>>,
        body: Option<Expr>,
        span: Span,
    },
    /// `struct name annos { fields };`
    Struct {
        exported: bool,
        name: Ident,
        annos: Option<Seq<Anno>>,
        fields: Seq<Param>,
        span: Span,
    },
    /// `enum name annos { values };`
    Enum {
        exported: bool,
        name: Ident,
        annos: Option<Seq<Anno>>,
        values: Seq<EnumItem>,
        span: Span,
    },
    /// `annotation name(params) annos;`
    Annotation {
        exported: bool,
        name: Ident,
        params: Seq<Param>,
        annos: Option<Seq<Anno>>,
        span: Span,
    },
}
