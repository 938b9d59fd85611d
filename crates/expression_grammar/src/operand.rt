ghost use Rattle.std.specs.Prelude.{◌≡◌, map, IfOk};
ghost use Rattle.mdl_syntax.specs.Trees.{tree_of, literal, parenthesized, unary, binary, conditional, indexed};
ghost use Rattle.mdl_syntax.specs.Trees.{field as field_tree, call, array, binding, trees_of, arguments_of};
ghost use Rattle.mdl_syntax.specs.Trees.{argument_of};
ghost use Rattle.mdl_syntax.specs.Trees.{initializers_of, initializer_of};
ghost use Rattle.mdl_syntax.specs.Heights.{height as height_of};
ghost use Rattle.expression_grammar.specs.inside.Capped.{capped};
ghost use Rattle.expression_grammar.specs.inside.Views.{IsCall};
ghost use Rattle.expression_grammar.specs.inside.Machine.{span_of, from_to, across, name_tree};

use crate::several::{Arguments, Elements, Initializers};
use case_table::Seq;
use mdl_syntax::{Anno, Expr, Ident, Lit, Name, Span};
use std::alloc::{AllocError, Global};
use std::marker::Model;

/// An expression with its height, or the greatest number where that is higher.
#[derive(Debug, Drop)]
pub struct Operand {
    tree: Expr,
    height: u64,
}

impl Model for Operand {
    ghost use Rattle.std.specs.Prelude.{◌≡◌};
    ghost use Rattle.std.specs.Coded.{codes};
    ghost use Rattle.mdl_syntax.specs.declared.expressions.Expr.{Expr};
    ghost use Rattle.mdl_syntax.specs.contracts.expressions.Expr as e;

    ghost Value = { Expr };

    ghost coded = { Prim.hlevel (codes, e.the_row.coded) };

    ghost use Rattle.mdl_syntax.specs.Trees.{tree_of};
    ghost use Rattle.mdl_syntax.specs.Heights.{height as height_of};
    ghost use Rattle.expression_grammar.specs.inside.Capped.{capped};

    ghost view = { λ operand. operand.tree };

    ghost invariant = { λ operand. operand.height ≡ capped (height_of (tree_of operand.tree)) };
}

impl Operand {
    pub fn height(&self) -> u64
        ensures { result ≡ capped (height_of (tree_of self.now)) }
    {
        self.height
    }

    pub fn tree(self) -> Expr
        ensures { result ≡ self }
    {
        self.tree
    }

    /// The call that this is, or else the operand back.
    #[tactic(auto, using(mdl_syntax::proofs::TreeLaws::tree_laws))]
    pub fn into_call(self) -> Result<Anno, Operand>
        ensures { IsCall (tree_of self) result }
    {
        let Operand { tree, height } = self;
        match tree {
            Expr::Call { name, args, span } => Ok(Anno { name, args, span }),
            tree => Err(Operand { tree, height }),
        }
    }

    pub fn span(&self) -> Span
        ensures { result ≡ span_of (tree_of self.now) }
    {
        span(&self.tree)
    }

    #[tactic(auto, using(mdl_syntax::proofs::TreeLaws::tree_laws))]
    pub fn literal(lit: Lit, span: Span) -> Operand
        ensures { tree_of result ≡ literal lit span }
    {
        Operand {
            tree: Expr::Lit { lit, span },
            height: 1,
        }
    }

    #[tactic(auto, using(mdl_syntax::proofs::TreeLaws::tree_laws))]
    pub fn name(name: Name) -> Operand
        ensures { tree_of result ≡ name_tree name }
    {
        let span = name.span;
        Operand {
            tree: Expr::Name { name, span },
            height: 1,
        }
    }

    #[tactic(auto, using(mdl_syntax::proofs::TreeLaws::tree_laws))]
    pub fn parenthesized(alloc: Global, inner: Operand, span: Span) -> Result<Operand, AllocError>
        ensures { IfOk result (λ whole. tree_of whole ≡ parenthesized (tree_of inner) span) }
    {
        let height = inner.height.saturating_add(1);
        let inner = Box::new(alloc, inner.tree)?;
        Ok(Operand {
            tree: Expr::Paren { inner, span },
            height,
        })
    }

    #[tactic(auto, using(mdl_syntax::proofs::TreeLaws::tree_laws))]
    pub fn unary(alloc: Global, op: u16, at: u32, operand: Operand) -> Result<Operand, AllocError>
        ensures { IfOk result (λ whole. tree_of whole
            ≡ unary op (tree_of operand) (from_to at (span_of (tree_of operand)).end)) }
    {
        let end = span(&operand.tree).end;
        let height = operand.height.saturating_add(1);
        let arg = Box::new(alloc, operand.tree)?;
        Ok(Operand {
            tree: Expr::Unary {
                op,
                arg,
                span: Span { at, end },
            },
            height,
        })
    }

    #[tactic(auto, using(mdl_syntax::proofs::TreeLaws::tree_laws))]
    pub fn binary(
        alloc: Global,
        op: u16,
        left: Operand,
        right: Operand,
    ) -> Result<Operand, AllocError>
        ensures { IfOk result (λ whole. tree_of whole
            ≡ binary op (tree_of left) (tree_of right) (across (tree_of left) (tree_of right))) }
    {
        let at = span(&left.tree).at;
        let end = span(&right.tree).end;
        let height = left.height.max(right.height).saturating_add(1);
        let left = Box::new(alloc, left.tree)?;
        let right = Box::new(alloc, right.tree)?;
        Ok(Operand {
            tree: Expr::Binary {
                op,
                left,
                right,
                span: Span { at, end },
            },
            height,
        })
    }

    #[tactic(auto, using(mdl_syntax::proofs::TreeLaws::tree_laws))]
    pub fn conditional(
        alloc: Global,
        test: Operand,
        yes: Operand,
        no: Operand,
    ) -> Result<Operand, AllocError>
        ensures { IfOk result (λ whole. tree_of whole
            ≡ conditional (tree_of test) (tree_of yes) (tree_of no) (across (tree_of test) (tree_of no))) }
    {
        let at = span(&test.tree).at;
        let end = span(&no.tree).end;
        let height = test.height.max(yes.height.max(no.height)).saturating_add(1);
        let test = Box::new(alloc, test.tree)?;
        let yes = Box::new(alloc, yes.tree)?;
        let no = Box::new(alloc, no.tree)?;
        Ok(Operand {
            tree: Expr::Cond {
                test,
                yes,
                no,
                span: Span { at, end },
            },
            height,
        })
    }

    #[tactic(auto, using(mdl_syntax::proofs::TreeLaws::tree_laws))]
    pub fn indexed(
        alloc: Global,
        of: Operand,
        index: Operand,
        end: u32,
    ) -> Result<Operand, AllocError>
        ensures { IfOk result (λ whole. tree_of whole
            ≡ indexed (tree_of of) (tree_of index) (from_to (span_of (tree_of of)).at end)) }
    {
        let at = span(&of.tree).at;
        let height = of.height.max(index.height).saturating_add(1);
        let of = Box::new(alloc, of.tree)?;
        let index = Box::new(alloc, index.tree)?;
        Ok(Operand {
            tree: Expr::Index {
                of,
                index,
                span: Span { at, end },
            },
            height,
        })
    }

    #[tactic(auto, using(mdl_syntax::proofs::TreeLaws::tree_laws))]
    pub fn field(alloc: Global, of: Operand, field: Ident) -> Result<Operand, AllocError>
        ensures { IfOk result (λ whole. tree_of whole
            ≡ field_tree (tree_of of) field (from_to (span_of (tree_of of)).at field.span.end)) }
    {
        let at = span(&of.tree).at;
        let end = field.span.end;
        let height = of.height.saturating_add(1);
        let of = Box::new(alloc, of.tree)?;
        Ok(Operand {
            tree: Expr::Field {
                of,
                field,
                span: Span { at, end },
            },
            height,
        })
    }

    /// A call, whose closing mark ends here.
    #[tactic(auto, using(mdl_syntax::proofs::TreeLaws::tree_laws))]
    pub fn call(name: Name, arguments: Arguments, end: u32) -> Operand
        ensures { tree_of result
            ≡ call name (arguments_of (map argument_of arguments)) (from_to name.span.at end) }
    {
        let at = name.span.at;
        let height = arguments.height().saturating_add(1);
        let args = Seq::of(arguments.list());
        Operand {
            tree: Expr::Call {
                name,
                args,
                span: Span { at, end },
            },
            height,
        }
    }

    /// An array, whose closing mark ends here.
    #[tactic(auto, using(mdl_syntax::proofs::TreeLaws::tree_laws))]
    pub fn array(name: Name, size: Option<u32>, elements: Elements, end: u32) -> Operand
        ensures { tree_of result
            ≡ array name size (trees_of (map tree_of elements)) (from_to name.span.at end) }
    {
        let at = name.span.at;
        let height = elements.height().saturating_add(1);
        let args = Seq::of(elements.list());
        Operand {
            tree: Expr::Array {
                name,
                size,
                args,
                span: Span { at, end },
            },
            height,
        }
    }

    #[tactic(auto, using(mdl_syntax::proofs::TreeLaws::tree_laws))]
    pub fn binding(
        alloc: Global,
        at: u32,
        braces: bool,
        initializers: Initializers,
        body: Operand,
    ) -> Result<Operand, AllocError>
        ensures { IfOk result (λ whole. tree_of whole
            ≡ binding braces (initializers_of (map initializer_of initializers)) (tree_of body)
            (from_to at (span_of (tree_of body)).end)) }
    {
        let end = span(&body.tree).end;
        let height = initializers.height().max(body.height).saturating_add(1);
        let inits = Seq::of(initializers.list());
        let body = Box::new(alloc, body.tree)?;
        Ok(Operand {
            tree: Expr::Let {
                braces,
                inits,
                body,
                span: Span { at, end },
            },
            height,
        })
    }
}

/// Where an expression stands.
#[tactic(auto, using(mdl_syntax::proofs::TreeLaws::tree_laws))]
pub fn span(tree: &Expr) -> Span
    ensures { result ≡ span_of (tree_of tree.now) }
{
    match tree {
        Expr::Lit { span, .. } => *span,
        Expr::Name { span, .. } => *span,
        Expr::Paren { span, .. } => *span,
        Expr::Unary { span, .. } => *span,
        Expr::Binary { span, .. } => *span,
        Expr::Cond { span, .. } => *span,
        Expr::Index { span, .. } => *span,
        Expr::Field { span, .. } => *span,
        Expr::Call { span, .. } => *span,
        Expr::Array { span, .. } => *span,
        Expr::Let { span, .. } => *span,
    }
}
