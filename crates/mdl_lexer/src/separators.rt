ghost use Rattle.std.specs.Prelude.{◌<◌, ◌≡◌, ◌==◌, chars, length, IfSome};
ghost use Rattle.std.specs.Option.{option_map};
ghost use Rattle.mdl_lexer.specs.Characters.{is_blank};
ghost use Rattle.mdl_lexer.specs.inside.Cutting.{IsRest};
ghost use Rattle.mdl_lexer.specs.inside.Classes.{characters_of};
ghost use Rattle.mdl_lexer.specs.inside.Separators as separators;

use crate::cursor::{Class, behind, first, skip};

fn is_blank(character: char) -> bool
    ensures { result ≡ is_blank character }
{
    matches!(character, ' ' | '\t' | '\n' | '\x0c' | '\r')
}

/// What stands behind a `/` that follows a `*`.
fn block_end(character: char, text: &str) -> Option<&str>
    ensures value { option_map characters_of result ≡ separators.block_end character (chars text.now) }
    ensures rest { IfSome result (λ rest. IsRest text.now rest.now) }
{
    if character == '*' {
        return behind(text, '/');
    }
    None
}

/// What stands behind the first `*/`.
fn behind_block(text: &str) -> Option<&str>
    ensures value { option_map characters_of result ≡ separators.behind_block (chars text.now) }
    ensures rest { IfSome result (λ rest. IsRest text.now rest.now) }
{
    let mut rest = text;
    while let Some((character, next)) = first(rest) {
        if let Some(end) = block_end(character, next) {
            return Some(end);
        }
        rest = next;
    }
    None
}

/// What stands behind a comment, from behind its first `/`.
#[tactic(auto, using(crate::proofs::CuttingLaws::rest_of_rest), unfolding(crate::specs::inside::Separators::behind_comment))]
fn behind_comment(text: &str) -> Option<&str>
    ensures value { option_map characters_of result ≡ separators.behind_comment (chars text.now) }
    ensures rest { IfSome result (λ rest. IsRest text.now rest.now) }
{
    let (character, rest) = first(text)?;
    if character == '/' {
        return Some(skip(rest, Class::Line));
    }
    if character == '*' {
        return behind_block(rest);
    }
    None
}

/// What stands behind one separator, if the text begins with one.
#[tactic(auto, using(crate::proofs::CuttingLaws::rest_of_rest, crate::proofs::CuttingLaws::rest_shorter_than), unfolding(crate::specs::inside::Separators::behind_separator))]
pub(crate) fn behind_separator(text: &str) -> Option<&str>
    ensures value { option_map characters_of result ≡ separators.behind_separator (chars text.now) }
    ensures shorter { IfSome result (λ rest. length rest.now < length text.now) }
    ensures rest { IfSome result (λ rest. IsRest text.now rest.now) }
{
    let (character, rest) = first(text)?;
    if is_blank(character) {
        return Some(rest);
    }
    if character == '/' {
        return behind_comment(rest);
    }
    None
}
