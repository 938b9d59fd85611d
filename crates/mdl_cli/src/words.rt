ghost use Rattle.std.specs.Prelude.{◌≡◌};
ghost use Rattle.mdl_cli.specs.Words.{kinds_of};
ghost use Rattle.mdl_cli.specs.inside.Reading as reading;
ghost use Rattle.mdl_cli.specs.inside.Views.{fixed_word, words_left, name_found};
ghost use Rattle.mdl_cli.specs.inside.Gives.{Gives};

use crate::terms::ReadError;
use mdl_lexer::{Kind, Token, mark, reserved};

/// A word that its number tells.
#[derive(Clone, Copy)]
pub enum Fixed {
    Reserved(u16),
    Mark(u16),
}

pub const EXPORT: Fixed = Fixed::Reserved(reserved::EXPORT);

pub const MATERIAL: Fixed = Fixed::Reserved(reserved::MATERIAL);

pub const MDL: Fixed = Fixed::Reserved(reserved::MDL);

pub const OPEN: Fixed = Fixed::Mark(mark::OPEN_PARENTHESIS);

pub const CLOSE: Fixed = Fixed::Mark(mark::CLOSE_PARENTHESIS);

pub const COMMA: Fixed = Fixed::Mark(mark::COMMA);

pub const SEMICOLON: Fixed = Fixed::Mark(mark::SEMICOLON);

pub const EQUALS: Fixed = Fixed::Mark(mark::EQUAL);

/// The words behind one, where they begin with it.
#[tactic(auto, unfolding(crate::specs::inside::Reading::behind))]
pub fn expect(wanted: Fixed, words: &[Token]) -> Result<&[Token], ReadError>
    ensures { Gives words_left result (reading.behind (fixed_word wanted) (kinds_of words.now)) }
{
    match words {
        [first, rest @ ..] => {
            if is_fixed(&first.kind, wanted) {
                Ok(rest)
            } else {
                Err(ReadError::NotFirst)
            }
        }
        [] => Err(ReadError::NotFirst),
    }
}

fn is_fixed(word: &Kind, wanted: Fixed) -> bool
    ensures { result ≡ reading.same_word (fixed_word wanted) word.now }
{
    match wanted {
        Fixed::Reserved(number) => match word {
            Kind::Reserved(found) => number == *found,
            _ => false,
        },
        Fixed::Mark(number) => match word {
            Kind::Mark(found) => number == *found,
            _ => false,
        },
    }
}

/// A name that isn't reserved, and the words behind it.
#[tactic(auto, unfolding(crate::specs::inside::Reading::name_in))]
pub fn name_in(words: &[Token]) -> Result<(&str, &[Token]), ReadError>
    ensures { Gives name_found result (reading.name_in (kinds_of words.now)) }
{
    match words {
        [first, rest @ ..] => match &first.kind {
            Kind::Word(name) => Ok((name.as_str(), rest)),
            _ => Err(ReadError::NotFirst),
        },
        [] => Err(ReadError::NotFirst),
    }
}
