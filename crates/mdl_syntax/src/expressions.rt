use crate::names::{Ident, Name, Span};
use crate::types::{Freq, TypeTree};
use case_table::{Seq, Text};

/// A literal.
#[derive(Debug, Drop)]
pub enum Lit {
    Bool(bool),
    Int(u32),
    /// Its text, without a suffix.
    Real { text: Text, double: bool },
    Str(Text),
}

/// An expression. Operators are told by the numbers of their marks in the tables of `mdl_lexer`.
#[cycle(expr)]
#[derive(Debug, Drop)]
pub enum Expr {
    Lit {
        lit: Lit,
        span: Span,
    },
    Name {
        name: Name,
        span: Span,
    },
    /// An expression in parentheses.
    Paren {
        inner: Box<Expr>,
        span: Span,
    },
    Unary {
        op: u16,
        arg: Box<Expr>,
        span: Span,
    },
    Binary {
        op: u16,
        left: Box<Expr>,
        right: Box<Expr>,
        span: Span,
    },
    /// `test ? yes : no`
    Cond {
        test: Box<Expr>,
        yes: Box<Expr>,
        no: Box<Expr>,
        span: Span,
    },
    /// `of[index]`
    Index {
        of: Box<Expr>,
        index: Box<Expr>,
        span: Span,
    },
    /// `of.field`
    Field {
        of: Box<Expr>,
        field: Ident,
        span: Span,
    },
    /// `name(args)`
    Call {
        name: Name,
        args: Seq<Argument>,
        span: Span,
    },
    /// `name[size](args)`, where the size may be left out
    Array {
        name: Name,
        size: Option<u32>,
        args: Seq<Expr>,
        span: Span,
    },
    /// `let { inits } in body`, where one initializer may stand without braces
    Let {
        braces: bool,
        inits: Seq<LetInit>,
        body: Box<Expr>,
        span: Span,
    },
}

/// An argument of a call, which may be named.
#[cycle(expr)]
#[derive(Debug, Drop)]
pub struct Argument {
    pub name: Option<Ident>,
    pub value: Expr,
    pub span: Span,
}

/// `freq type name = value;` of a `let`.
#[cycle(expr)]
#[derive(Debug, Drop)]
pub struct LetInit {
    pub freq: Option<Freq>,
    pub ty: TypeTree,
    pub name: Ident,
    pub value: Expr,
    pub span: Span,
}
