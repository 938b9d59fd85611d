ghost use Rattle.std.specs.Prelude.{◌≡◌, ◌≤◌, ◌++◌, map, IfOk, OnOk};
ghost use Rattle.mdl_syntax.specs.Trees.{tree_of, trees_of, argument_of, arguments_of, initializer_of, initializers_of};
ghost use Rattle.mdl_syntax.specs.Written.{write, write_trees};
ghost use Rattle.mdl_syntax.specs.Heights.{height, most_height};
ghost use Rattle.mdl_syntax.specs.Written.{write_arguments, write_initializers};
ghost use Rattle.mdl_syntax.specs.inside.Parts.{argument_words, initializer_words};

use crate::expressions::{Argument, Expr, LetInit};
use crate::words::{
    push_frequency, push_ident, push_label, push_literal, push_mark, push_name, push_number,
    push_reserved, push_type,
};
use case_table::OutOfMemory;
use mdl_lexer::{Kind, mark, reserved};
use std::alloc::{AllocError, Global};

/// The words that an expression writes, of a height of at most 400.
pub fn write_expr(alloc: Global, tree: &Expr) -> Result<Vec<Kind>, OutOfMemory>
    requires { height (tree_of tree.now) ≤ most_height }
    ensures { IfOk result (λ kinds. kinds.items ≡ write (tree_of tree.now)) }
{
    let mut kinds = Vec::new(alloc);
    push_tree(alloc, &mut kinds, tree)?;
    Ok(kinds)
}

#[cycle(write)]
#[tactic(auto, using(crate::proofs::TreeLaws::tree_laws))]
pub(crate) fn push_tree(alloc: Global, kinds: &mut Vec<Kind>, tree: &Expr) -> Result<(), AllocError>
    ensures { OnOk result (kinds.new.items ≡ kinds.old.items ++ write (tree_of tree.now)) }
{
    match tree {
        Expr::Lit { lit, .. } => push_literal(alloc, kinds, lit),
        Expr::Name { name, .. } => push_name(alloc, kinds, name),
        Expr::Paren { inner, .. } => {
            push_mark(kinds, mark::OPEN_PARENTHESIS)?;
            push_tree(alloc, kinds, inner)?;
            push_mark(kinds, mark::CLOSE_PARENTHESIS)
        }
        Expr::Unary { op, arg, .. } => {
            push_mark(kinds, *op)?;
            push_tree(alloc, kinds, arg)
        }
        Expr::Binary {
            op,
            left,
            right,
            ..
        } => {
            push_tree(alloc, kinds, left)?;
            push_mark(kinds, *op)?;
            push_tree(alloc, kinds, right)
        }
        Expr::Cond { test, yes, no, .. } => {
            push_tree(alloc, kinds, test)?;
            push_mark(kinds, mark::QUESTION)?;
            push_tree(alloc, kinds, yes)?;
            push_mark(kinds, mark::COLON)?;
            push_tree(alloc, kinds, no)
        }
        Expr::Index { of, index, .. } => {
            push_tree(alloc, kinds, of)?;
            push_mark(kinds, mark::OPEN_BRACKET)?;
            push_tree(alloc, kinds, index)?;
            push_mark(kinds, mark::CLOSE_BRACKET)
        }
        Expr::Field { of, field, .. } => {
            push_tree(alloc, kinds, of)?;
            push_mark(kinds, mark::DOT)?;
            push_ident(alloc, kinds, field)
        }
        Expr::Call { name, args, .. } => {
            push_name(alloc, kinds, name)?;
            push_mark(kinds, mark::OPEN_PARENTHESIS)?;
            push_arguments(alloc, kinds, args.list())?;
            push_mark(kinds, mark::CLOSE_PARENTHESIS)
        }
        Expr::Array {
            name,
            size,
            args,
            ..
        } => {
            push_name(alloc, kinds, name)?;
            push_mark(kinds, mark::OPEN_BRACKET)?;
            push_number(kinds, *size)?;
            push_mark(kinds, mark::CLOSE_BRACKET)?;
            push_mark(kinds, mark::OPEN_PARENTHESIS)?;
            push_trees(alloc, kinds, args.list())?;
            push_mark(kinds, mark::CLOSE_PARENTHESIS)
        }
        Expr::Let {
            braces: true,
            inits,
            body,
            ..
        } => {
            push_reserved(kinds, reserved::LET)?;
            push_mark(kinds, mark::OPEN_BRACE)?;
            push_initializers(alloc, kinds, inits.list())?;
            push_mark(kinds, mark::CLOSE_BRACE)?;
            push_reserved(kinds, reserved::IN)?;
            push_tree(alloc, kinds, body)
        }
        Expr::Let {
            braces: false,
            inits,
            body,
            ..
        } => {
            push_reserved(kinds, reserved::LET)?;
            push_initializers(alloc, kinds, inits.list())?;
            push_reserved(kinds, reserved::IN)?;
            push_tree(alloc, kinds, body)
        }
    }
}

/// Appends elements, with commas between them.
#[cycle(write)]
#[tactic(auto, using(crate::proofs::PieceLaws::piece_laws))]
fn push_trees(alloc: Global, kinds: &mut Vec<Kind>, trees: &[Expr]) -> Result<(), AllocError>
    ensures { OnOk result (kinds.new.items ≡ kinds.old.items ++ write_trees (trees_of (map tree_of trees.now))) }
{
    let Some((first, others)) = trees.split_first() else {
        return Ok(());
    };
    push_tree(alloc, kinds, first)?;
    for tree in others {
        push_mark(kinds, mark::COMMA)?;
        push_tree(alloc, kinds, tree)?;
    }
    Ok(())
}

/// Appends arguments, with commas between them.
#[cycle(write)]
#[tactic(auto, using(crate::proofs::PieceLaws::piece_laws))]
pub(crate) fn push_arguments(
    alloc: Global,
    kinds: &mut Vec<Kind>,
    arguments: &[Argument],
) -> Result<(), AllocError>
    ensures { OnOk result
        (kinds.new.items ≡ kinds.old.items ++ write_arguments (arguments_of (map argument_of arguments.now))) }
{
    let Some((first, others)) = arguments.split_first() else {
        return Ok(());
    };
    push_argument(alloc, kinds, first)?;
    for argument in others {
        push_mark(kinds, mark::COMMA)?;
        push_argument(alloc, kinds, argument)?;
    }
    Ok(())
}

#[cycle(write)]
#[tactic(auto, using(crate::proofs::TreeLaws::tree_laws))]
fn push_argument(
    alloc: Global,
    kinds: &mut Vec<Kind>,
    argument: &Argument,
) -> Result<(), AllocError>
    ensures { OnOk result (kinds.new.items ≡ kinds.old.items ++ argument_words (argument_of argument.now)) }
{
    push_label(alloc, kinds, &argument.name)?;
    push_tree(alloc, kinds, &argument.value)
}

/// Appends the initializers of a let.
#[cycle(write)]
#[tactic(auto, using(crate::proofs::PieceLaws::piece_laws))]
fn push_initializers(
    alloc: Global,
    kinds: &mut Vec<Kind>,
    initializers: &[LetInit],
) -> Result<(), AllocError>
    ensures { OnOk result
        (kinds.new.items ≡ kinds.old.items ++
        write_initializers (initializers_of (map initializer_of initializers.now))) }
{
    for initializer in initializers {
        push_initializer(alloc, kinds, initializer)?;
    }
    Ok(())
}

#[cycle(write)]
#[tactic(auto, using(crate::proofs::TreeLaws::tree_laws))]
fn push_initializer(
    alloc: Global,
    kinds: &mut Vec<Kind>,
    initializer: &LetInit,
) -> Result<(), AllocError>
    ensures { OnOk result (kinds.new.items ≡ kinds.old.items ++ initializer_words (initializer_of initializer.now)) }
{
    push_frequency(kinds, initializer.freq)?;
    push_type(alloc, kinds, &initializer.ty)?;
    push_ident(alloc, kinds, &initializer.name)?;
    push_mark(kinds, mark::EQUAL)?;
    push_tree(alloc, kinds, &initializer.value)?;
    push_mark(kinds, mark::SEMICOLON)
}
