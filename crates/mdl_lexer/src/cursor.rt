ghost use Rattle.std.specs.Prelude.{◌<◌, length, ◌≡◌, ◌++◌, true, [], chars, encode_utf8_all, IfSome, IfNone};
ghost use Rattle.std.specs.Option.{option_map};
ghost use Rattle.mdl_lexer.specs.inside.Cutting.{IsFirst, IsRest, drop_while, begins, behind_some, behind_one};
ghost use Rattle.mdl_lexer.specs.inside.Cutting.{behind_class};
ghost use Rattle.mdl_lexer.specs.inside.Reading.{front_of, or_else};
ghost use Rattle.mdl_lexer.specs.inside.Classes.{in_class, characters_of};

/// A class of characters that words go on with.
#[derive(Clone, Copy)]
pub(crate) enum Class {
    Digit,
    Octal,
    Hexadecimal,
    Name,
    /// All but a line feed.
    Line,
    /// What marks of more than one character go on with.
    Mark,
}

impl Class {
    pub(crate) fn has(self, character: char) -> bool
        ensures { result ≡ in_class self character }
    {
        match self {
            Class::Digit => character.is_ascii_digit(),
            Class::Octal => matches!(character, '0'..='7'),
            Class::Hexadecimal => character.is_ascii_hexdigit(),
            Class::Name => unicode_ident::is_xid_continue(character),
            Class::Line => character != '\n',
            Class::Mark => matches!(character, '=' | '&' | '|' | '+' | '-' | '<' | '>' | ':'),
        }
    }
}

/// The first character, and what stands behind it.
pub(crate) fn first(text: &str) -> Option<(char, &str)>
    ensures none { IfNone result (chars text.now ≡ []) }
    ensures some { IfSome result (λ found. IsFirst text.now found.0 found.1.now) }
{
    let mut characters = text.chars();
    let character = characters.next()?;
    Some((character, characters.as_str()))
}

/// Whether the first character is of a class.
pub(crate) fn begins(text: &str, class: Class) -> bool
    ensures { result ≡ begins (in_class class) (chars text.now) }
{
    match first(text) {
        Some((character, _)) => class.has(character),
        None => false,
    }
}

/// What stands behind a character, if the text begins with it.
pub(crate) fn behind(text: &str, character: char) -> Option<&str>
    ensures value { option_map characters_of result ≡ behind_one character (chars text.now) }
    ensures rest { IfSome result (λ rest. IsRest text.now rest.now) }
    ensures shorter { IfSome result (λ rest. length rest.now < length text.now) }
{
    let (found, rest) = first(text)?;
    if found != character {
        return None;
    }
    Some(rest)
}

/// What stands behind one of two characters, if the text begins with one.
pub(crate) fn behind_either(text: &str, one: char, other: char) -> Option<&str>
    ensures value { option_map characters_of result
        ≡ or_else (behind_one one (chars text.now)) (behind_one other (chars text.now)) }
    ensures rest { IfSome result (λ rest. IsRest text.now rest.now) }
    ensures shorter { IfSome result (λ rest. length rest.now < length text.now) }
{
    match behind(text, one) {
        Some(rest) => Some(rest),
        None => behind(text, other),
    }
}

/// What stands behind one character of a class, if the text begins with one.
pub(crate) fn skip_one(text: &str, class: Class) -> Option<&str>
    ensures value { option_map characters_of result ≡ behind_class (in_class class) (chars text.now) }
    ensures rest { IfSome result (λ rest. IsRest text.now rest.now) }
{
    let (character, rest) = first(text)?;
    if !class.has(character) {
        return None;
    }
    Some(rest)
}

/// What stands behind the characters of a class at the front.
pub(crate) fn skip(text: &str, class: Class) -> &str
    ensures value { chars result.now ≡ drop_while (in_class class) (chars text.now) }
    ensures rest { IsRest text.now result.now }
{
    let mut rest = text;
    while let Some((character, behind)) = first(rest) {
        if !class.has(character) {
            break;
        }
        rest = behind;
    }
    rest
}

/// What stands behind one or more characters of a class, if the text begins with one.
pub(crate) fn skip_some(text: &str, class: Class) -> Option<&str>
    ensures value { option_map characters_of result ≡ behind_some (in_class class) (chars text.now) }
    ensures some { IfSome result (λ rest. begins (in_class class) (chars text.now) ≡ true) }
    ensures dropped { IfSome result (λ rest. chars rest.now ≡ drop_while (in_class class) (chars text.now)) }
    ensures rest { IfSome result (λ rest. IsRest text.now rest.now) }
{
    if !begins(text, class) {
        return None;
    }
    Some(skip(text, class))
}

/// What stands before a rest of a text.
pub(crate) fn before<'a>(text: &'a str, rest: &str) -> &'a str
    requires { IsRest text.now rest.now }
    ensures bytes { text.now ≡ result.now ++ rest.now }
    ensures characters { chars text.now ≡ chars result.now ++ chars rest.now }
    ensures front { chars result.now ≡ front_of (chars text.now) (chars rest.now) }
    ensures encoded { result.now ≡ encode_utf8_all (front_of (chars text.now) (chars rest.now)) }
{
    let (front, _) = text.split_at(text.len() - rest.len());
    front
}
