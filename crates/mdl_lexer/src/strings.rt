ghost use Rattle.std.specs.Prelude.{◌≡◌, ◌≤◌, ◌<◌, chars, length, IsUtf8, IfOk, IfSome};
ghost use Rattle.std.specs.Option.{option_map};
ghost use Rattle.mdl_lexer.specs.Strings.{escapes, escaped_in};
ghost use Rattle.mdl_lexer.specs.inside.Cutting.{IsRest};
ghost use Rattle.mdl_lexer.specs.inside.Classes.{value_found, string_found};
ghost use Rattle.mdl_lexer.specs.inside.Strings as strings;

use crate::cursor::first;
use case_table::Text;
use std::alloc::{AllocError, Global};

/// The value of a digit in a base up to 16, and what stands behind the digit.
#[tactic(auto, unfolding(crate::specs::inside::Strings::digit_in))]
fn digit_in(text: &str, base: u32) -> Option<(u8, &str)>
    requires least { 2 ≤ base }
    requires most { base ≤ 16 }
    ensures value { option_map value_found result ≡ strings.digit_in base (chars text.now) }
    ensures small { IfSome result (λ found. found.0 < base) }
    ensures rest { IfSome result (λ found. IsRest text.now found.1.now) }
{
    let (character, behind) = first(text)?;
    let digit = character.to_digit(base)?;
    Some((digit as u8, behind))
}

/// One more octal digit behind a value, where it has room for one and one comes.
#[tactic(auto, using(crate::proofs::CuttingLaws::whole_rest), unfolding(crate::specs::inside::Strings::octal_more))]
fn octal_more(value: u8, text: &str) -> (u8, &str)
    requires { value ≤ 127 }
    ensures value { value_found result ≡ strings.octal_more (value, chars text.now) }
    ensures small { result.0 ≤ 127 }
    ensures rest { IsRest text.now result.1.now }
{
    match digit_in(text, 8) {
        Some((digit, behind)) if value < 16 => (value * 8 + digit, behind),
        _ => (value, text),
    }
}

/// One to three octal digits up to 177.
#[tactic(auto, using(crate::proofs::CuttingLaws::rest_of_rest), unfolding(crate::specs::inside::Strings::octal_in))]
fn octal_in(text: &str) -> Option<(u8, &str)>
    ensures value { option_map value_found result ≡ strings.octal_in (chars text.now) }
    ensures small { IfSome result (λ found. found.0 ≤ 127) }
    ensures rest { IfSome result (λ found. IsRest text.now found.1.now) }
{
    let (value, rest) = digit_in(text, 8)?;
    let (value, rest) = octal_more(value, rest);
    Some(octal_more(value, rest))
}

/// Two hexadecimal digits below 80.
#[tactic(auto, using(crate::proofs::CuttingLaws::rest_of_rest), unfolding(crate::specs::inside::Strings::hexadecimal_in))]
fn hexadecimal_in(text: &str) -> Option<(u8, &str)>
    ensures value { option_map value_found result ≡ strings.hexadecimal_in (chars text.now) }
    ensures small { IfSome result (λ found. found.0 ≤ 127) }
    ensures rest { IfSome result (λ found. IsRest text.now found.1.now) }
{
    let (high, rest) = digit_in(text, 16)?;
    let (low, rest) = digit_in(rest, 16)?;
    if high >= 8 {
        return None;
    }
    Some((high * 16 + low, rest))
}

/// The character that a letter behind `\` stands for.
fn escaped(letter: char) -> Option<u8>
    ensures value { result ≡ escaped_in escapes letter }
    ensures small { IfSome result (λ found. found ≤ 127) }
{
    match letter {
        'a' => Some(7),
        'b' => Some(8),
        'f' => Some(12),
        'n' => Some(10),
        'r' => Some(13),
        't' => Some(9),
        'v' => Some(11),
        '\\' => Some(b'\\'),
        '\'' => Some(b'\''),
        '"' => Some(b'"'),
        _ => None,
    }
}

/// The character that an escape behind its `\` stands for, and what stands behind it.
#[tactic(auto, using(crate::proofs::CuttingLaws::rest_of_rest), unfolding(crate::specs::inside::Strings::escape_in))]
fn escape_in(text: &str) -> Option<(u8, &str)>
    ensures value { option_map value_found result ≡ strings.escape_in (chars text.now) }
    ensures small { IfSome result (λ found. found.0 ≤ 127) }
    ensures rest { IfSome result (λ found. IsRest text.now found.1.now) }
{
    let (letter, behind) = first(text)?;
    if let Some(character) = escaped(letter) {
        return Some((character, behind));
    }
    if letter == 'x' {
        return hexadecimal_in(behind);
    }
    octal_in(text)
}

/// The text that a string stands for, and what stands behind it. The text begins behind the first quote.
pub(crate) fn string_in(alloc: Global, text: &str) -> Result<Option<(Text, &str)>, AllocError>
    ensures value { IfOk result
        (λ found. option_map string_found found ≡ strings.string_in (length (chars text.now)) (chars text.now)) }
    ensures text { IfOk result (λ found. IfSome found (λ string. IsUtf8 string.0)) }
    ensures rest { IfOk result (λ found. IfSome found (λ string. IsRest text.now string.1.now)) }
{
    let mut meaning = String::new(alloc);
    let mut rest = text;
    while let Some((character, behind)) = first(rest) {
        if character == '"' {
            return Ok(Some((Text::of(meaning), behind)));
        }
        if character == '\n' {
            return Ok(None);
        }
        if character == '\\' {
            let Some((escaped, behind)) = escape_in(behind) else {
                return Ok(None);
            };
            meaning.push(char::from(escaped))?;
            rest = behind;
        } else {
            meaning.push(character)?;
            rest = behind;
        }
    }
    Ok(None)
}
