ghost use Rattle.std.specs.Prelude.{◌≡◌, ℕ, List, Err, IfOk};
ghost use Rattle.type_rules.specs.Terms.{Term, IsTyped};
ghost use Rattle.mdl_cli.specs.Words.{kinds_of};
ghost use Rattle.mdl_cli.specs.FirstText.{AreFirstWords};
ghost use Rattle.mdl_cli.specs.inside.Reading as reading;
ghost use Rattle.mdl_cli.specs.inside.Trees.{term_of};
ghost use Rattle.mdl_cli.specs.inside.Views.{words_left, name_found, first_found};
ghost use Rattle.mdl_cli.specs.inside.Gives.{Gives};

use crate::forms::plain;
use crate::names::{is_among, is_prelude_name};
use crate::terms::{ReadError, term_in};
use crate::tree::Tree;
use crate::words::{CLOSE, EQUALS, EXPORT, MATERIAL, MDL, OPEN, SEMICOLON, expect, name_in};
use mdl_lexer::{Kind, Token};
use std::alloc::Global;

const VERSIONS: [&str; 7] = ["1.0", "1.1", "1.2", "1.3", "1.4", "1.5", "1.6"];

/// No material of a first text is higher.
const MOST_HEIGHT: usize = 5;

/// A first text's material: its name and its term.
#[derive(Drop)]
pub struct FirstText<'a> {
    pub name: &'a str,
    pub tree: Tree,
}

/// The material of a first text, by the text's words.
pub fn read_first(alloc: Global, words: &[Token]) -> Result<FirstText<'_>, ReadError>
    ensures first { IfOk result (λ first. AreFirstWords (kinds_of words.now) first.name.now (term_of first.tree)) }
    ensures typed { IfOk result (λ first. IsTyped (term_of first.tree)) }
    ensures not_first { result ≡ Err ReadError.NotFirst
        → (name : List ℕ) (term : Term) → AreFirstWords (kinds_of words.now) name term → ⊥ }
{
    let first = first_in(alloc, words)?;
    Ok(first)
}

#[tactic(auto, unfolding(crate::specs::inside::Reading::first_in))]
fn first_in(alloc: Global, words: &[Token]) -> Result<FirstText<'_>, ReadError>
    ensures { Gives first_found result (reading.first_in (kinds_of words.now)) }
{
    let (name, rest) = head_in(words)?;
    let material = plain(alloc, "material")?;
    let (tree, rest) = term_in(alloc, MOST_HEIGHT, &material, rest)?;
    let rest = expect(SEMICOLON, rest)?;
    if !rest.is_empty() || is_prelude_name(name.as_bytes()) {
        return Err(ReadError::NotFirst);
    }
    Ok(FirstText { name, tree })
}

/// The name of a material, and the words behind its head. The version line stands before it.
#[tactic(auto, unfolding(crate::specs::inside::Reading::head_in))]
fn head_in(words: &[Token]) -> Result<(&str, &[Token]), ReadError>
    ensures { Gives name_found result (reading.head_in (kinds_of words.now)) }
{
    let rest = expect(MDL, words)?;
    let rest = behind_version(rest)?;
    let rest = expect(SEMICOLON, rest)?;
    let rest = expect(EXPORT, rest)?;
    let rest = expect(MATERIAL, rest)?;
    let (name, rest) = name_in(rest)?;
    let rest = expect(OPEN, rest)?;
    let rest = expect(CLOSE, rest)?;
    let rest = expect(EQUALS, rest)?;
    Ok((name, rest))
}

#[tactic(auto, unfolding(crate::specs::inside::Reading::behind_version))]
fn behind_version(words: &[Token]) -> Result<&[Token], ReadError>
    ensures { Gives words_left result (reading.behind_version (kinds_of words.now)) }
{
    match words {
        [first, rest @ ..] => {
            if is_version(&first.kind) {
                Ok(rest)
            } else {
                Err(ReadError::NotFirst)
            }
        }
        [] => Err(ReadError::NotFirst),
    }
}

/// Whether a word is a known version.
fn is_version(word: &Kind) -> bool
    ensures { result ≡ reading.is_version word.now }
{
    match word {
        Kind::Real { text, double } => !*double && is_among(text.as_str().as_bytes(), &VERSIONS),
        _ => false,
    }
}
