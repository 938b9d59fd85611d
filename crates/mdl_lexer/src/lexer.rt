ghost use Rattle.std.specs.Prelude.{◌≡◌, ◌≤◌, ℕ, List, chars, [], length, IfOk, IfErr};
ghost use Rattle.std.specs.List.{AllByRecursion};
ghost use Rattle.mdl_lexer.specs.Lexes.{HasTokens, HasFault, behind_mark};
ghost use Rattle.mdl_lexer.specs.Places.{IsPlace, HasPlace};
ghost use Rattle.mdl_lexer.specs.OneLexing.{OneStep, OneLexing};
ghost use Rattle.mdl_lexer.specs.WordTables as words;
ghost use Rattle.mdl_lexer.specs.inside.Cutting.{IsRest};
ghost use Rattle.mdl_lexer.specs.inside.Lexing.{Reaches, Stopped};
ghost use Rattle.mdl_lexer.specs.inside.Singles.{HasSingles};

use crate::cursor::behind;
use crate::marks::Marks;
use crate::names::ReservedWords;
use crate::separators::behind_separator;
use crate::token::{LexFault, Token};
use crate::tokens::{Stop, word_in};
use std::alloc::Global;
use std::str;

/// The words of a module's text, in order, each with its place; or the fault that stands first. Places are
/// byte offsets. `docs/LANGUAGE.md` has the words, with the sections of the MDL specification.
pub fn lex(alloc: Global, bytes: &[u8]) -> Result<Vec<Token>, LexFault>
    requires { length bytes.now ≤ 4194304 }
    ensures tokens { IfOk result (λ tokens. HasTokens bytes.now tokens.items) }
    ensures fault { IfErr result (λ fault. HasFault bytes.now fault) }
    ensures places { IfOk result (λ tokens. AllByRecursion (λ token. IsPlace bytes.now token.at) tokens.items) }
    ensures fault_place { IfErr result (λ fault. HasPlace bytes.now fault) }
{
    match str::from_utf8(bytes) {
        Ok(text) => lex_text(alloc, text),
        Err(error) => Err(LexFault::NotUtf8 {
            at: error.valid_up_to() as u32,
        }),
    }
}

/// The law that `lex` rests on: from each place there is one step at most.
pub fn one_step()
    ensures { (text : List ℕ) → OneStep text }
{}

/// The law that bytes have one list of tokens and no fault, or one fault and no tokens.
pub fn one_lexing()
    ensures { (bytes : List ℕ) → OneLexing bytes }
{}

fn lex_text(alloc: Global, text: &str) -> Result<Vec<Token>, LexFault>
    requires { length text.now ≤ 4194304 }
    ensures tokens { IfOk result (λ tokens. Reaches text.now tokens.items []) }
    ensures fault { IfErr result (λ fault. Stopped text.now fault) }
{
    let reserved = ReservedWords::new();
    let marks = Marks::new();
    read_tokens(alloc, &reserved, &marks, text)
}

fn read_tokens(
    alloc: Global,
    reserved: &ReservedWords,
    marks: &Marks,
    text: &str,
) -> Result<Vec<Token>, LexFault>
    requires short { length text.now ≤ 4194304 }
    requires reserved_in_use { reserved.now.in_use ≡ words.reserved_in_use }
    requires reserved_left_out { reserved.now.left_out ≡ words.reserved_left_out }
    requires marks_in_use { marks.now.in_use ≡ words.marks_in_use }
    requires marks_left_out { marks.now.left_out ≡ words.marks_left_out }
    requires singles { HasSingles marks.now }
    ensures tokens { IfOk result (λ tokens. Reaches text.now tokens.items []) }
    ensures fault { IfErr result (λ fault. Stopped text.now fault) }
{
    let mut tokens = Vec::new(alloc);
    let mut rest = behind_order_mark(text);
    while !rest.is_empty() {
        if let Some(behind) = behind_separator(rest) {
            rest = behind;
            continue;
        }
        let at = (text.len() - rest.len()) as u32;
        match word_in(alloc, reserved, marks, rest) {
            Ok((kind, behind)) => {
                let end = (text.len() - behind.len()) as u32;
                tokens.push(Token { kind, at, end })?;
                rest = behind;
            }
            Err(Stop::NoWord) => return Err(LexFault::BadToken { at }),
            Err(Stop::PastRange) => return Err(LexFault::IntRange { at }),
            Err(Stop::OutOfMemory) => return Err(LexFault::OutOfMemory),
        }
    }
    Ok(tokens)
}

/// A text behind a byte order mark at its start, which is a separator there.
#[tactic(auto, using(crate::proofs::CuttingLaws::whole_rest))]
fn behind_order_mark(text: &str) -> &str
    ensures value { chars result.now ≡ behind_mark (chars text.now) }
    ensures rest { IsRest text.now result.now }
{
    match behind(text, '\u{feff}') {
        Some(rest) => rest,
        None => text,
    }
}
