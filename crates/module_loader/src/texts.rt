ghost use Rattle.std.specs.Prelude.{◌≡◌, ◌≤◌, Some, length, IfOk, IfErr, IsUtf8};
ghost use Rattle.std.specs.List.{AllByRecursion};
ghost use Rattle.mdl_lexer.specs.Lexes.{HasTokens, HasFault};
ghost use Rattle.mdl_lexer.specs.Places.{IsPlace, HasPlace};
ghost use Rattle.mdl_syntax.specs.Modules.{module_of};
ghost use Rattle.mdl_syntax.specs.Heights.{most_height};
ghost use Rattle.mdl_grammar.specs.Answers.{HasModuleFault};
ghost use Rattle.module_loader.specs.Members.{IsModuleText};
ghost use Rattle.module_loader.specs.TextFaults.{token_of, byte_of};
ghost use Rattle.module_loader.specs.inside.Texts.{HasTextFault, ArePlaces};

use expression_grammar::ParseFault;
use io_edge::{Place, place_of};
use mdl_grammar::parse_module;
use mdl_lexer::{LexFault, Token, lex};
use mdl_syntax::Module;
use std::alloc::Global;

/// Why a text is no module.
#[derive(Debug, Drop)]
pub enum TextFault {
    Lex { fault: LexFault, place: Place },
    Parse { fault: ParseFault, place: Place },
    OutOfMemory,
}

/// The module that a text is.
pub fn read_text(alloc: Global, bytes: &[u8]) -> Result<Module, TextFault>
    requires { length bytes.now ≤ 4194304 }
    ensures tree { IfOk result (λ read. IsModuleText bytes.now (module_of read)) }
    ensures places { IfOk result (λ read. ArePlaces bytes.now (module_of read)) }
    ensures fault { IfErr result (λ fault. HasTextFault bytes.now fault) }
{
    match lex(alloc, bytes) {
        Ok(tokens) => read_words(alloc, bytes, &tokens),
        Err(fault) => Err(lexical_fault(bytes, fault)),
    }
}

/// The module that the words of a text are.
fn read_words(alloc: Global, bytes: &[u8], tokens: &[Token]) -> Result<Module, TextFault>
    requires words { HasTokens bytes.now tokens.now }
    requires places { AllByRecursion (λ token. IsPlace bytes.now token.at) tokens.now }
    requires short { length bytes.now ≤ 4194304 }
    ensures tree { IfOk result (λ read. IsModuleText bytes.now (module_of read)) }
    ensures places { IfOk result (λ read. ArePlaces bytes.now (module_of read)) }
    ensures fault { IfErr result (λ fault. HasTextFault bytes.now fault) }
{
    match parse_module(alloc, tokens) {
        Ok(read) => Ok(read),
        Err(fault) => Err(grammar_fault(bytes, tokens, fault)),
    }
}

/// The fault of a text that has no words, with its place.
fn lexical_fault(bytes: &[u8], fault: LexFault) -> TextFault
    requires stands { HasFault bytes.now fault }
    requires place { HasPlace bytes.now fault }
    requires short { length bytes.now ≤ 4194304 }
    ensures { HasTextFault bytes.now result }
{
    match fault {
        LexFault::NotUtf8 { at } => {
            let line = place_of(bytes, at as usize).line;
            let place = Place { line, column: 0 };
            TextFault::Lex { fault, place }
        }
        LexFault::BadToken { at } | LexFault::IntRange { at } => {
            let place = place_of(bytes, at as usize);
            TextFault::Lex { fault, place }
        }
        LexFault::OutOfMemory => TextFault::OutOfMemory,
    }
}

/// The fault of a text whose words are no module, with its place.
fn grammar_fault(bytes: &[u8], tokens: &[Token], fault: ParseFault) -> TextFault
    requires words { HasTokens bytes.now tokens.now }
    requires places { AllByRecursion (λ token. IsPlace bytes.now token.at) tokens.now }
    requires stands { HasModuleFault most_height tokens.now fault }
    requires short { length bytes.now ≤ 4194304 }
    ensures { HasTextFault bytes.now result }
{
    match token_of(&fault) {
        Some(token) => {
            let place = place_of(bytes, byte_of(bytes, tokens, token) as usize);
            TextFault::Parse { fault, place }
        }
        None => TextFault::OutOfMemory,
    }
}

/// The token at which a fault stands.
fn token_of(fault: &ParseFault) -> Option<u32>
    ensures { result ≡ token_of fault.now }
{
    match fault {
        ParseFault::BadSyntax { at, .. }
        | ParseFault::TooDeep { at }
        | ParseFault::StatementBody { at }
        | ParseFault::LeftOut { at, .. }
        | ParseFault::Version { at } => Some(*at),
        ParseFault::OutOfMemory => None,
    }
}

/// The byte at which the word of this number begins, where the text ends behind the last one.
fn byte_of(bytes: &[u8], tokens: &[Token], number: u32) -> u32
    requires text { IsUtf8 bytes.now }
    requires places { AllByRecursion (λ token. IsPlace bytes.now token.at) tokens.now }
    requires short { length bytes.now ≤ 4194304 }
    ensures is { result ≡ byte_of bytes.now tokens.now number }
    ensures place { IsPlace bytes.now result }
{
    match tokens.get(number as usize) {
        Some(token) => token.at,
        None => bytes.len() as u32,
    }
}
