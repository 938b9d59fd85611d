ghost use Rattle.std.specs.Prelude.{◌<◌, ◌≡◌, ◌∷◌, true, chars, length, IfOk};
ghost use Rattle.mdl_lexer.specs.WordTables.{reserved_in_use, reserved_left_out};
ghost use Rattle.mdl_lexer.specs.WordTables.{marks_in_use, marks_left_out};
ghost use Rattle.mdl_lexer.specs.Characters.{starts_name};
ghost use Rattle.mdl_lexer.specs.inside.Cutting.{IsRest, begins};
ghost use Rattle.mdl_lexer.specs.inside.Reading.{begins_number};
ghost use Rattle.mdl_lexer.specs.inside.Reads.{Reads};
ghost use Rattle.mdl_lexer.specs.inside.Strings as strings;
ghost use Rattle.mdl_lexer.specs.inside.Tokens as tokens;
ghost use Rattle.mdl_lexer.specs.inside.Singles.{HasSingles};

use crate::cursor::{Class, begins, first};
use crate::marks::{Marks, mark_in};
use crate::names::{ReservedWords, name_in, starts_name};
use crate::numbers::{Number, number_in};
use crate::strings::string_in;
use crate::token::Kind;
use case_table::Text;
use std::alloc::{AllocError, Global};

/// Why no word was read.
pub(crate) enum Stop {
    NoWord,
    /// An integer past 4294967295.
    PastRange,
    OutOfMemory,
}

impl From<AllocError> for Stop {
    ghost use Rattle.std.specs.Prelude.{◌≡◌};
    ghost use Rattle.mdl_lexer.specs.declared.tokens.Stop.TheVariants.{OutOfMemory};

    ghost from_gives = { λ _ stop. stop ≡ OutOfMemory };

    fn from(_error: AllocError) -> Stop {
        Stop::OutOfMemory
    }
}

/// The number at the front of a text, and what stands behind it.
#[tactic(auto, unfolding(crate::specs::inside::Tokens::number_word))]
fn number_word(alloc: Global, text: &str) -> Result<(Kind, &str), Stop>
    requires { begins_number (chars text.now) ≡ true }
    ensures value { Reads result (tokens.number_word (chars text.now)) }
    ensures shorter { IfOk result (λ found. length found.1.now < length text.now) }
    ensures rest { IfOk result (λ found. IsRest text.now found.1.now) }
{
    match number_in(text) {
        None => Err(Stop::NoWord),
        Some((Number::Real { text, double }, rest)) => match Text::copy(alloc, text) {
            Ok(text) => Ok((Kind::Real { text, double }, rest)),
            Err(_) => Err(Stop::OutOfMemory),
        },
        Some((Number::Integer { digits, base }, rest)) => match u32::from_str_radix(digits, base) {
            Ok(value) => Ok((Kind::Int(value), rest)),
            Err(_) => Err(Stop::PastRange),
        },
    }
}

/// Whether a number begins with a character that stands before a text.
fn begins_number(character: char, behind: &str) -> bool
    ensures { result ≡ begins_number (character ∷ chars behind.now) }
{
    Class::Digit.has(character) || (character == '.' && begins(behind, Class::Digit))
}

/// The string whose first quote stands before a text.
fn string_word(alloc: Global, text: &str) -> Result<(Kind, &str), Stop>
    ensures value { Reads result
        (tokens.string_read (strings.string_in (length (chars text.now)) (chars text.now))) }
    ensures rest { IfOk result (λ found. IsRest text.now found.1.now) }
{
    match string_in(alloc, text)? {
        Some((meaning, rest)) => Ok((Kind::Str(meaning), rest)),
        None => Err(Stop::NoWord),
    }
}

/// The word at the front of a text, and what stands behind it.
#[tactic(auto, using(crate::proofs::CuttingLaws::rest_of_rest, crate::proofs::CuttingLaws::rest_shorter_than), unfolding(crate::specs::inside::Tokens::word_in))]
pub(crate) fn word_in<'a>(
    alloc: Global,
    reserved: &ReservedWords,
    marks: &Marks,
    text: &'a str,
) -> Result<(Kind, &'a str), Stop>
    requires reserved_in_use { reserved.now.in_use ≡ reserved_in_use }
    requires reserved_left_out { reserved.now.left_out ≡ reserved_left_out }
    requires marks_in_use { marks.now.in_use ≡ marks_in_use }
    requires marks_left_out { marks.now.left_out ≡ marks_left_out }
    requires singles { HasSingles marks.now }
    ensures value { Reads result (tokens.word_in (chars text.now)) }
    ensures shorter { IfOk result (λ found. length found.1.now < length text.now) }
    ensures rest { IfOk result (λ found. IsRest text.now found.1.now) }
{
    let Some((character, behind)) = first(text) else {
        return Err(Stop::NoWord);
    };
    if character == '"' {
        return string_word(alloc, behind);
    }
    if begins_number(character, behind) {
        return number_word(alloc, text);
    }
    if starts_name(character) {
        return match name_in(alloc, reserved, text, behind) {
            Ok(found) => Ok(found),
            Err(_) => Err(Stop::OutOfMemory),
        };
    }
    match mark_in(marks, text) {
        Some((number, rest)) => Ok((Kind::Mark(number), rest)),
        None => Err(Stop::NoWord),
    }
}
