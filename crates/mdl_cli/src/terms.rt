ghost use Rattle.std.specs.Prelude.{◌≡◌, ◌∷◌, []};
ghost use Rattle.type_rules.specs.Types.{type_of, plain};
ghost use Rattle.type_rules.specs.Same.{same_type, same_shape};
ghost use Rattle.mdl_cli.specs.Words.{kinds_of};
ghost use Rattle.mdl_cli.specs.inside.Reading as reading;
ghost use Rattle.mdl_cli.specs.inside.Trees.{term_of};
ghost use Rattle.mdl_cli.specs.inside.Gives.{Gives, symbol_found, term_found, terms_found};
ghost use Rattle.mdl_cli.specs.inside.Gives.{behind_terms, next_in};

use crate::forms::symbol_named;
use crate::tree::Tree;
use crate::words::{CLOSE, COMMA, OPEN, expect};
use case_table::Text;
use mdl_lexer::{Kind, Token};
use std::alloc::{AllocError, AllocFailed, Global};
use thiserror::Error;
use type_rules::{Arg, Shape, Symbol, Ty};

/// Why nothing was read.
#[derive(Clone, Copy, Debug, Drop, Error, PartialEq, Eq)]
pub enum ReadError {
    #[error("the text isn't a first text")]
    NotFirst,
    #[error("out of memory")]
    OutOfMemory,
}

impl From<AllocError> for ReadError {
    ghost use Rattle.std.specs.Prelude.{◌≡◌};
    ghost use Rattle.mdl_cli.specs.declared.terms.ReadError.TheVariants.{OutOfMemory};

    ghost from_gives = { λ _ error. error ≡ OutOfMemory };

    fn from(_error: AllocError) -> ReadError {
        ReadError::OutOfMemory
    }
}

impl<T: Drop> From<AllocFailed<T>> for ReadError {
    ghost use Rattle.std.specs.Prelude.{◌≡◌};
    ghost use Rattle.mdl_cli.specs.declared.terms.ReadError.TheVariants.{OutOfMemory};

    ghost from_gives = { λ _ error. error ≡ OutOfMemory };

    fn from(_error: AllocFailed<T>) -> ReadError {
        ReadError::OutOfMemory
    }
}

/// A term of a type, of a height of at most so much, and the rest.
#[cycle(term)]
#[tactic(auto, unfolding(crate::specs::inside::Reading::term_in, crate::specs::inside::Reading::typed_in))]
pub fn term_in<'a>(
    alloc: Global,
    height: usize,
    wanted: &Ty,
    words: &'a [Token],
) -> Result<(Tree, &'a [Token]), ReadError>
    ensures { Gives term_found result (reading.term_in height wanted.now (kinds_of words.now)) }
{
    if height == 0 {
        return Err(ReadError::NotFirst);
    }
    let (symbol, rest) = symbol_in(alloc, words)?;
    if !has_type(&symbol, wanted) {
        return Err(ReadError::NotFirst);
    }
    under(alloc, height - 1, symbol, rest)
}

/// What stands under a symbol, and the rest.
#[cycle(term)]
#[tactic(auto, unfolding(crate::specs::inside::Reading::under))]
fn under<'a>(
    alloc: Global,
    height: usize,
    symbol: Symbol,
    words: &'a [Token],
) -> Result<(Tree, &'a [Token]), ReadError>
    ensures { Gives term_found result (reading.under (reading.term_in height) symbol (kinds_of words.now)) }
{
    let Symbol::Op { args, .. } = &symbol else {
        return Ok((Tree::new(symbol, Vec::new(alloc)), words));
    };
    let (kids, rest) = operands_in(alloc, height, args.list(), words)?;
    Ok((Tree::new(symbol, kids), rest))
}

/// Kids in parentheses, and the rest.
#[cycle(term)]
#[tactic(auto, unfolding(crate::specs::inside::Reading::operands_in))]
fn operands_in<'a>(
    alloc: Global,
    height: usize,
    args: &[Arg],
    words: &'a [Token],
) -> Result<(Vec<Tree>, &'a [Token]), ReadError>
    ensures { Gives terms_found result (reading.operands_in (reading.term_in height) args.now (kinds_of words.now)) }
{
    let rest = expect(OPEN, words)?;
    let (kids, rest) = kids_in(alloc, height, args, rest)?;
    let rest = expect(CLOSE, rest)?;
    Ok((kids, rest))
}

/// Kids with commas between them, and the rest.
#[cycle(term)]
#[tactic(auto, unfolding(crate::specs::inside::Reading::kids_in))]
fn kids_in<'a>(
    alloc: Global,
    height: usize,
    args: &[Arg],
    words: &'a [Token],
) -> Result<(Vec<Tree>, &'a [Token]), ReadError>
    ensures { Gives terms_found result (reading.kids_in (reading.term_in height) args.now (kinds_of words.now)) }
{
    let Some((arg, others)) = args.split_first() else {
        return Ok((Vec::new(alloc), words));
    };
    let (first, rest) = term_in(alloc, height, &arg.ty, words)?;
    others_in(alloc, height, others, first, rest)
}

/// A first kid and the kids behind it, each behind a comma, and the rest.
#[cycle(term)]
fn others_in<'a>(
    alloc: Global,
    height: usize,
    args: &[Arg],
    first: Tree,
    words: &'a [Token],
) -> Result<(Vec<Tree>, &'a [Token]), ReadError>
    ensures { Gives terms_found result (behind_terms (term_of first ∷ [])
        (reading.others_in (reading.term_in height) args.now (kinds_of words.now))) }
{
    let mut kids = Vec::new(alloc);
    kids.push(first)?;
    let mut rest = words;
    for arg in args {
        let (kid, behind_kid) = next_in(alloc, height, arg, rest)?;
        kids.push(kid)?;
        rest = behind_kid;
    }
    Ok((kids, rest))
}

/// A kid behind a comma, and the rest.
#[cycle(term)]
fn next_in<'a>(
    alloc: Global,
    height: usize,
    arg: &Arg,
    words: &'a [Token],
) -> Result<(Tree, &'a [Token]), ReadError>
    ensures { Gives term_found result (next_in (reading.term_in height) arg.now (kinds_of words.now)) }
{
    let rest = expect(COMMA, words)?;
    term_in(alloc, height, &arg.ty, rest)
}

/// The symbol that the first word stands for, and the rest.
#[tactic(auto, unfolding(crate::specs::inside::Reading::symbol_in))]
fn symbol_in(alloc: Global, words: &[Token]) -> Result<(Symbol, &[Token]), ReadError>
    ensures { Gives symbol_found result (reading.symbol_in (kinds_of words.now)) }
{
    match words {
        [first, rest @ ..] => {
            let symbol = symbol_of(alloc, &first.kind)?;
            Ok((symbol, rest))
        }
        [] => Err(ReadError::NotFirst),
    }
}

/// The symbol that a word stands for.
fn symbol_of(alloc: Global, word: &Kind) -> Result<Symbol, ReadError>
    ensures { Gives (λ symbol. symbol) result (reading.symbol_of_word word.now) }
{
    if let Kind::Real { text, double } = word {
        if *double {
            return Err(ReadError::NotFirst);
        }
        let text = Text::copy(alloc, text.as_str())?;
        return Ok(Symbol::Real {
            text,
            double: false,
        });
    }
    match symbol_named(alloc, word)? {
        Some(symbol) => Ok(symbol),
        None => Err(ReadError::NotFirst),
    }
}

fn has_type(symbol: &Symbol, ty: &Ty) -> bool
    ensures { result ≡ same_type (type_of symbol.now) ty.now }
{
    match symbol {
        Symbol::Bool(_) => is_plain("bool", ty),
        Symbol::Int(_) => is_plain("int", ty),
        Symbol::Real { double, .. } => is_plain(if *double { "double" } else { "float" }, ty),
        Symbol::Str(_) => is_plain("string", ty),
        Symbol::EnumValue { ty: name, .. } => is_plain(name.as_str(), ty),
        Symbol::Param { ty: own, .. } => is_same_type(own, ty),
        Symbol::Op { result, .. } => is_same_type(result, ty),
    }
}

fn is_plain(name: &str, ty: &Ty) -> bool
    ensures { result ≡ same_type (plain name.now) ty.now }
{
    name == ty.name.as_str() && is_same_shape(Shape::One, ty.shape)
}

fn is_same_type(a: &Ty, b: &Ty) -> bool
    ensures { result ≡ same_type a.now b.now }
{
    a.name.as_str() == b.name.as_str() && is_same_shape(a.shape, b.shape)
}

fn is_same_shape(a: Shape, b: Shape) -> bool
    ensures { result ≡ same_shape a b }
{
    match a {
        Shape::One => match b {
            Shape::One => true,
            _ => false,
        },
        Shape::Sized(x) => match b {
            Shape::Sized(y) => x == y,
            _ => false,
        },
        Shape::AnySize => match b {
            Shape::AnySize => true,
            _ => false,
        },
    }
}
