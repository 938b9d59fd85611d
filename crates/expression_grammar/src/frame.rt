use crate::operand::Operand;
use crate::several::{Arguments, Elements, Initializers};
use mdl_syntax::{Freq, Ident, Name, TypeTree};

/// What is unfinished around the place that the reader has come to.
#[derive(Debug, Drop)]
pub enum Frame {
    /// `(`
    Parentheses {
        at: u32,
    },
    /// An operator before its operand.
    Unary {
        op: u16,
        at: u32,
    },
    /// An operator between two, with its level, behind its left operand.
    Infix {
        op: u16,
        level: u8,
        left: Operand,
    },
    /// `test ?`
    Question {
        test: Operand,
    },
    /// `test ? yes :`
    Colon {
        test: Operand,
        yes: Operand,
    },
    /// `of[`
    Index {
        of: Operand,
    },
    /// `name(` with the arguments before, whether one of them was named, and the name of the one at hand.
    Arguments {
        name: Name,
        arguments: Arguments,
        with_name: bool,
        label: Option<Ident>,
    },
    /// `name[size](` with the elements before.
    Elements {
        name: Name,
        size: Option<u32>,
        elements: Elements,
    },
    /// `let` where an initializer may begin, or behind the last one.
    Let {
        held: Held,
    },
    /// `let`, and an initializer up to its `=`.
    Initializer {
        held: Held,
        head: Head,
        ty: TypeTree,
        name: Ident,
    },
    /// `let`, its initializers and `in`.
    Body {
        held: Held,
    },
}

/// A `let` so far.
#[derive(Debug, Drop)]
pub struct Held {
    pub at: u32,
    pub braces: bool,
    pub initializers: Initializers,
}

/// The front of an initializer: where it begins, and its frequency.
#[derive(Clone, Copy, Debug)]
pub struct Head {
    pub at: u32,
    pub frequency: Option<Freq>,
}
