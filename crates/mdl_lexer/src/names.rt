ghost use Rattle.std.specs.Prelude.{◌≡◌, chars, is_some, IfOk};
ghost use Rattle.case_table.specs.Tables.{value_of};
ghost use Rattle.mdl_lexer.specs.Characters.{starts_name};
ghost use Rattle.mdl_lexer.specs.Forms.{is_name, is_identifier};
ghost use Rattle.mdl_lexer.specs.WordTables as words;
ghost use Rattle.mdl_lexer.specs.inside.Cutting.{IsRest};
ghost use Rattle.mdl_lexer.specs.inside.Classes.{kind_found};
ghost use Rattle.mdl_lexer.specs.inside.Tokens as tokens;

use crate::cursor::{Class, before, first, skip};
use crate::token::Kind;
use crate::word_tables::{number_in, reserved_in_use, reserved_left_out};
use case_table::{Table, Text};
use std::alloc::{AllocError, Global};

/// The tables of reserved words.
#[derive(Drop)]
pub(crate) struct ReservedWords {
    in_use: Table,
    left_out: Table,
}

impl ReservedWords {
    pub(crate) fn new() -> ReservedWords
        ensures in_use { result.in_use ≡ words.reserved_in_use }
        ensures left_out { result.left_out ≡ words.reserved_left_out }
    {
        ReservedWords {
            in_use: reserved_in_use(),
            left_out: reserved_left_out(),
        }
    }

    /// The number of a name, if it is reserved.
    fn number(&self, name: &str) -> Option<u16>
        ensures { result ≡ tokens.number_in_either self.now.in_use self.now.left_out name.now }
    {
        number_in(&self.in_use, &self.left_out, name.as_bytes())
    }
}

/// Whether a text is a name that isn't reserved.
pub fn is_identifier(text: &str) -> bool
    ensures { result ≡ is_identifier (chars text.now) }
{
    is_name(text) && !is_reserved(text)
}

fn is_name(text: &str) -> bool
    ensures { result ≡ is_name (chars text.now) }
{
    match first(text) {
        Some((character, behind)) => starts_name(character) && skip(behind, Class::Name).is_empty(),
        None => false,
    }
}

fn is_reserved(name: &str) -> bool
    ensures { result ≡ is_some (value_of words.reserved (chars name.now)) }
{
    let words = ReservedWords::new();
    words.number(name).is_some()
}

/// Whether a character starts a name.
pub(crate) fn starts_name(character: char) -> bool
    ensures { result ≡ starts_name character }
{
    character == '_' || unicode_ident::is_xid_start(character)
}

/// A name at the front of a text, reserved or not, and what stands behind it. The text behind its first
/// character is at hand.
#[tactic(auto, using(crate::proofs::CuttingLaws::rest_of_rest), unfolding(crate::specs::inside::Tokens::name_in))]
pub(crate) fn name_in<'a>(
    alloc: Global,
    reserved: &ReservedWords,
    text: &'a str,
    behind: &'a str,
) -> Result<(Kind, &'a str), AllocError>
    requires in_use { reserved.now.in_use ≡ words.reserved_in_use }
    requires left_out { reserved.now.left_out ≡ words.reserved_left_out }
    requires rest { IsRest text.now behind.now }
    ensures value { IfOk result (λ found. kind_found found ≡ tokens.name_in (chars text.now) (chars behind.now)) }
    ensures rest { IfOk result (λ found. IsRest behind.now found.1.now) }
{
    let rest = skip(behind, Class::Name);
    let name = before(text, rest);
    let kind = match reserved.number(name) {
        Some(number) => Kind::Reserved(number),
        None => Kind::Word(Text::copy(alloc, name)?),
    };
    Ok((kind, rest))
}
