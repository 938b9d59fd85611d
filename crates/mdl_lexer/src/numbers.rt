ghost use Rattle.std.specs.Prelude.{◌<◌, length, ◌≡◌, true, Some, chars, IfSome};
ghost use Rattle.std.specs.Option.{option_map};
ghost use Rattle.mdl_lexer.specs.inside.Cutting.{IsRest};
ghost use Rattle.mdl_lexer.specs.inside.Classes.{characters_of};
ghost use Rattle.mdl_lexer.specs.inside.Numbers.{number_value, number_found, AreDigits, IsNumber};
ghost use Rattle.mdl_lexer.specs.inside.Reading.{begins_number};
ghost use Rattle.mdl_lexer.specs.inside.Reading as reading;

use crate::cursor::{Class, before, begins, behind, behind_either, first, skip, skip_some};

/// A number at the front of a text.
#[derive(Clone, Copy)]
pub(crate) enum Number<'a> {
    /// The digits of an integer, and their base.
    Integer { digits: &'a str, base: u32 },
    /// A real without its suffix.
    Real { text: &'a str, double: bool },
}

/// Whether a number that ends here would go on.
pub(crate) fn goes_on(rest: &str) -> bool
    ensures { result ≡ reading.goes_on (chars rest.now) }
{
    match first(rest) {
        None => false,
        Some((character, behind)) => {
            if character == '.' {
                begins(behind, Class::Digit)
            } else {
                Class::Name.has(character)
            }
        }
    }
}

#[tactic(auto, using(crate::proofs::CuttingLaws::rest_of_rest, crate::proofs::CuttingLaws::rest_shorter_than), unfolding(crate::specs::inside::Reading::hexadecimal_in))]
fn hexadecimal_in(text: &str) -> Option<(Number<'_>, &str)>
    ensures value { option_map number_found result ≡ reading.hexadecimal_in (chars text.now) }
    ensures shorter { IfSome result (λ found. length found.1.now < length text.now) }
    ensures number { IfSome result (λ found. IsNumber found.0) }
    ensures rest { IfSome result (λ found. IsRest text.now found.1.now) }
{
    let zero = behind(text, '0')?;
    let digits = behind_either(zero, 'x', 'X')?;
    let rest = skip_some(digits, Class::Hexadecimal)?;
    let digits = before(digits, rest);
    Some((Number::Integer { digits, base: 16 }, rest))
}

/// What stands behind an exponent, if the text begins with one.
#[tactic(auto, using(crate::proofs::CuttingLaws::rest_of_rest, crate::proofs::CuttingLaws::rest_shorter_than), unfolding(crate::specs::inside::Reading::behind_exponent))]
fn behind_exponent(text: &str) -> Option<&str>
    ensures value { option_map characters_of result ≡ reading.behind_exponent (chars text.now) }
    ensures shorter { IfSome result (λ rest. length rest.now < length text.now) }
    ensures rest { IfSome result (λ rest. IsRest text.now rest.now) }
{
    let sign = behind_either(text, 'e', 'E')?;
    let digits = match behind_either(sign, '+', '-') {
        Some(digits) => digits,
        None => sign,
    };
    let rest = skip_some(digits, Class::Digit)?;
    Some(rest)
}

/// Whether a suffix makes a real a double, and what stands behind the suffix.
#[tactic(auto, using(crate::proofs::CuttingLaws::whole_rest), unfolding(crate::specs::inside::Reading::suffix_in))]
fn suffix_in(text: &str) -> (bool, &str)
    ensures value { (result.0, chars result.1.now) ≡ reading.suffix_in (chars text.now) }
    ensures rest { IsRest text.now result.1.now }
{
    match first(text) {
        Some(('f' | 'F', rest)) => (false, rest),
        Some(('d' | 'D', rest)) => (true, rest),
        _ => (false, text),
    }
}

/// The integer that these digits are. Where they begin with `0` they are octal.
#[tactic(auto, unfolding(crate::specs::inside::Reading::integer_of))]
fn integer_of(digits: &str) -> Option<Number<'_>>
    requires { AreDigits 10 digits.now }
    ensures value { option_map number_value result ≡ reading.integer_of (chars digits.now) }
    ensures number { IfSome result (λ found. IsNumber found) }
{
    if let Some(octal) = behind(digits, '0')
        && begins(octal, Class::Digit)
    {
        let rest = skip_some(octal, Class::Octal)?;
        if begins(rest, Class::Digit) {
            return None;
        }
        let digits = before(octal, rest);
        return Some(Number::Integer { digits, base: 8 });
    }
    Some(Number::Integer { digits, base: 10 })
}

/// What stands behind a real whose digits before the `.` end here, if this makes a real of them.
#[tactic(auto, using(crate::proofs::CuttingLaws::rest_of_rest, crate::proofs::CuttingLaws::rest_shorter_than), unfolding(crate::specs::inside::Reading::real_end))]
fn real_end(digits_end: &str) -> Option<&str>
    ensures value { option_map characters_of result ≡ reading.real_end (chars digits_end.now) }
    ensures shorter { IfSome result (λ rest. length rest.now < length digits_end.now) }
    ensures rest { IfSome result (λ rest. IsRest digits_end.now rest.now) }
{
    let Some(fraction) = behind(digits_end, '.') else {
        return behind_exponent(digits_end);
    };
    let pointed = skip(fraction, Class::Digit);
    match behind_exponent(pointed) {
        Some(rest) => Some(rest),
        None => Some(pointed),
    }
}

/// Digits, and what makes a real of them.
#[tactic(auto, using(crate::proofs::CuttingLaws::rest_of_rest, crate::proofs::CuttingLaws::rest_shorter_than), unfolding(crate::specs::inside::Reading::decimal_in))]
fn decimal_in(text: &str) -> Option<(Number<'_>, &str)>
    requires { begins_number (chars text.now) ≡ true }
    ensures value { option_map number_found result ≡ reading.decimal_in (chars text.now) }
    ensures shorter { IfSome result (λ found. length found.1.now < length text.now) }
    ensures number { IfSome result (λ found. IsNumber found.0) }
    ensures rest { IfSome result (λ found. IsRest text.now found.1.now) }
{
    let digits_end = skip(text, Class::Digit);
    match real_end(digits_end) {
        Some(rest) => {
            let text = before(text, rest);
            let (double, rest) = suffix_in(rest);
            Some((Number::Real { text, double }, rest))
        }
        None => Some((integer_of(before(text, digits_end))?, digits_end)),
    }
}

/// The longest number at the front of a text, and what stands behind it. There is none where the text
/// goes on with what would make it another.
#[tactic(auto, using(crate::proofs::CuttingLaws::rest_of_rest, crate::proofs::CuttingLaws::rest_shorter_than), unfolding(crate::specs::inside::Reading::number_in))]
pub(crate) fn number_in(text: &str) -> Option<(Number<'_>, &str)>
    requires { begins_number (chars text.now) ≡ true }
    ensures value { option_map number_found result ≡ reading.number_in (chars text.now) }
    ensures shorter { IfSome result (λ found. length found.1.now < length text.now) }
    ensures number { IfSome result (λ found. IsNumber found.0) }
    ensures rest { IfSome result (λ found. IsRest text.now found.1.now) }
{
    let found = match hexadecimal_in(text) {
        Some(found) => found,
        None => decimal_in(text)?,
    };
    if goes_on(found.1) {
        return None;
    }
    Some(found)
}
