ghost use Rattle.std.specs.Prelude.{◌≡◌, ◌++◌, ◌∷◌, [], map, max, IfOk};
ghost use Rattle.mdl_syntax.specs.Trees.{tree_of, trees_of, argument_of, arguments_of, initializer_of, initializers_of};
ghost use Rattle.mdl_syntax.specs.Heights.{trees_height, arguments_height, initializers_height};
ghost use Rattle.expression_grammar.specs.inside.Capped.{capped};
ghost use Rattle.expression_grammar.specs.inside.Machine.{argument};

use crate::operand::Operand;
use mdl_syntax::{Argument, Expr, Freq, Ident, LetInit, Span, TypeTree};
use std::alloc::{AllocError, Global};
use std::marker::Model;

/// Elements of an array, with the height of the highest.
#[derive(Debug, Drop)]
pub struct Elements {
    list: Vec<Expr>,
    height: u64,
}

impl Model for Elements {
    ghost use Rattle.std.specs.Prelude.{◌≡◌, List, map};
    ghost use Rattle.std.specs.Coded.{codes, coded_list};
    ghost use Rattle.mdl_syntax.specs.declared.expressions.Expr.{Expr};
    ghost use Rattle.mdl_syntax.specs.contracts.expressions.Expr as e;

    ghost Value = { List Expr };

    ghost coded = { Prim.hlevel (codes, coded_list e.the_row.coded) };

    ghost use Rattle.mdl_syntax.specs.Trees.{tree_of, trees_of};
    ghost use Rattle.mdl_syntax.specs.Heights.{trees_height};
    ghost use Rattle.expression_grammar.specs.inside.Capped.{capped};

    ghost view = { λ several. several.list.items };

    ghost invariant = { λ several. several.height ≡ capped (trees_height (trees_of (map tree_of several.list.items))) };
}

impl Elements {
    pub fn none(alloc: Global) -> Elements
        ensures { result ≡ [] }
    {
        Elements {
            list: Vec::new(alloc),
            height: 0,
        }
    }

    pub fn height(&self) -> u64
        ensures { result ≡ capped (trees_height (trees_of (map tree_of self.now))) }
    {
        self.height
    }

    pub fn list(self) -> Vec<Expr>
        ensures { result.items ≡ self }
    {
        self.list
    }

    pub fn with(self, element: Operand) -> Result<Elements, AllocError>
        ensures { IfOk result (λ longer. map tree_of longer ≡ map tree_of self ++ tree_of element ∷ []) }
    {
        let height = self.height.max(element.height());
        let mut list = self.list;
        list.push(element.tree())?;
        Ok(Elements { list, height })
    }
}

/// Arguments of a call, with the height of the highest.
#[derive(Debug, Drop)]
pub struct Arguments {
    list: Vec<Argument>,
    height: u64,
}

impl Model for Arguments {
    ghost use Rattle.std.specs.Prelude.{◌≡◌, List, map};
    ghost use Rattle.std.specs.Coded.{codes, coded_list};
    ghost use Rattle.mdl_syntax.specs.declared.expressions.Argument.{Argument};
    ghost use Rattle.mdl_syntax.specs.contracts.expressions.Argument as e;

    ghost Value = { List Argument };

    ghost coded = { Prim.hlevel (codes, coded_list e.the_row.coded) };

    ghost use Rattle.mdl_syntax.specs.Trees.{argument_of, arguments_of};
    ghost use Rattle.mdl_syntax.specs.Heights.{arguments_height};
    ghost use Rattle.expression_grammar.specs.inside.Capped.{capped};

    ghost view = { λ several. several.list.items };

    ghost invariant = { λ several. several.height
        ≡ capped (arguments_height (arguments_of (map argument_of several.list.items))) };
}

impl Arguments {
    pub fn none(alloc: Global) -> Arguments
        ensures { result ≡ [] }
    {
        Arguments {
            list: Vec::new(alloc),
            height: 0,
        }
    }

    pub fn height(&self) -> u64
        ensures { result ≡ capped (arguments_height (arguments_of (map argument_of self.now))) }
    {
        self.height
    }

    pub fn list(self) -> Vec<Argument>
        ensures { result.items ≡ self }
    {
        self.list
    }

    pub fn with(self, name: Option<Ident>, value: Operand) -> Result<Arguments, AllocError>
        ensures { IfOk result (λ longer. map argument_of longer
            ≡ map argument_of self ++ argument name (tree_of value) ∷ []) }
    {
        let height = self.height.max(value.height());
        let span = argument_span(&name, &value);
        let mut list = self.list;
        list.push(Argument {
            name,
            value: value.tree(),
            span,
        })?;
        Ok(Arguments { list, height })
    }
}

/// Initializers of a let, with the height of the highest.
#[derive(Debug, Drop)]
pub struct Initializers {
    list: Vec<LetInit>,
    height: u64,
}

impl Model for Initializers {
    ghost use Rattle.std.specs.Prelude.{◌≡◌, List, map};
    ghost use Rattle.std.specs.Coded.{codes, coded_list};
    ghost use Rattle.mdl_syntax.specs.declared.expressions.LetInit.{LetInit};
    ghost use Rattle.mdl_syntax.specs.contracts.expressions.LetInit as e;

    ghost Value = { List LetInit };

    ghost coded = { Prim.hlevel (codes, coded_list e.the_row.coded) };

    ghost use Rattle.mdl_syntax.specs.Trees.{initializer_of, initializers_of};
    ghost use Rattle.mdl_syntax.specs.Heights.{initializers_height};
    ghost use Rattle.expression_grammar.specs.inside.Capped.{capped};

    ghost view = { λ several. several.list.items };

    ghost invariant = { λ several. several.height
        ≡ capped (initializers_height (initializers_of (map initializer_of several.list.items))) };
}

impl Initializers {
    pub fn none(alloc: Global) -> Initializers
        ensures { result ≡ [] }
    {
        Initializers {
            list: Vec::new(alloc),
            height: 0,
        }
    }

    pub fn height(&self) -> u64
        ensures { result ≡ capped (initializers_height (initializers_of (map initializer_of self.now))) }
    {
        self.height
    }

    pub fn list(self) -> Vec<LetInit>
        ensures { result.items ≡ self }
    {
        self.list
    }

    /// With one more, which stands from one place to the other.
    pub fn with(
        self,
        freq: Option<Freq>,
        ty: TypeTree,
        name: Ident,
        value: Operand,
        span: Span,
    ) -> Result<Initializers, AllocError>
        ensures { IfOk result (λ longer. map initializer_of longer
            ≡ map initializer_of self ++ (freq, ty, name, tree_of value, span) ∷ []) }
    {
        let height = self.height.max(value.height());
        let mut list = self.list;
        list.push(LetInit {
            freq,
            ty,
            name,
            value: value.tree(),
            span,
        })?;
        Ok(Initializers { list, height })
    }
}

/// An argument begins with its name, if it has one.
fn argument_span(name: &Option<Ident>, value: &Operand) -> Span
    ensures { result ≡ (argument name.now (tree_of value.now)).2 }
{
    let span = value.span();
    match name {
        Some(name) => Span {
            at: name.span.at,
            end: span.end,
        },
        None => span,
    }
}
