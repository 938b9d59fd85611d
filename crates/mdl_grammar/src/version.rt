ghost use Rattle.std.specs.Prelude.{◌≡◌, IfOk, IfErr};
ghost use Rattle.std.specs.List.{list_any};
ghost use Rattle.std.specs.Str.{bytes_eq};
ghost use Rattle.mdl_syntax.specs.AcceptedModules.{is_version as known_version};
ghost use Rattle.module_grammar.specs.inside.ModuleStates.{mdl_wanted, version_wanted, version_read};
ghost use Rattle.mdl_grammar.specs.inside.Runs.{BegunFrom, FaultFrom};

use crate::faults::{bad_at, left_out_at};
use crate::module_state::Begun;
use case_table::Text;
use expression_grammar::ParseFault;
use expression_grammar::sort::{Sort, sort_of};
use mdl_lexer::Token;
use mdl_syntax::{Span, VersionLit};
use std::alloc::Global;

/// The versions that are read.
const VERSIONS: [&str; 7] = ["1.0", "1.1", "1.2", "1.3", "1.4", "1.5", "1.6"];

/// The version line, which is three tokens.
pub fn version_line(alloc: Global, tokens: &[Token]) -> Result<Begun, ParseFault>
    ensures begun { IfOk result (λ begun. BegunFrom 3 0 mdl_wanted begun tokens.now) }
    ensures fault { IfErr result (λ fault. FaultFrom 0 mdl_wanted fault tokens.now) }
{
    match tokens {
        [word, rest @ ..] => match sort_of(&word.kind) {
            Sort::Mdl => version_number(alloc, word.at, rest),
            Sort::LeftOut(text) => Err(left_out_at(alloc, 0, text)),
            _ => Err(bad_at(0, 0)),
        },
        [] => Err(bad_at(0, 0)),
    }
}

/// The number behind `mdl`, which begins at this place.
fn version_number(alloc: Global, at: u32, tokens: &[Token]) -> Result<Begun, ParseFault>
    ensures begun { IfOk result (λ begun. BegunFrom 2 1 (version_wanted at) begun tokens.now) }
    ensures fault { IfErr result (λ fault. FaultFrom 1 (version_wanted at) fault tokens.now) }
{
    match tokens {
        [number, rest @ ..] => match sort_of(&number.kind) {
            Sort::Real { text, double } => {
                if !is_version(text, double) {
                    return Err(ParseFault::Version { at: 1 });
                }
                let version = VersionLit {
                    text: text.clone()?,
                    double,
                    span: Span {
                        at: number.at,
                        end: number.end,
                    },
                };
                version_end(alloc, at, version, rest)
            }
            Sort::LeftOut(text) => Err(left_out_at(alloc, 1, text)),
            _ => Err(bad_at(0, 1)),
        },
        [] => Err(bad_at(0, 1)),
    }
}

/// `;` behind the number.
fn version_end(
    alloc: Global,
    at: u32,
    version: VersionLit,
    tokens: &[Token],
) -> Result<Begun, ParseFault>
    ensures begun { IfOk result (λ begun. BegunFrom 1 2 (version_read at version) begun tokens.now) }
    ensures fault { IfErr result (λ fault. FaultFrom 2 (version_read at version) fault tokens.now) }
{
    match tokens {
        [mark, ..] => match sort_of(&mark.kind) {
            Sort::Semicolon => Ok(Begun {
                at,
                end: mark.end,
                version,
                imports: Vec::new(alloc),
                annotations: None,
                declarations: Vec::new(alloc),
            }),
            Sort::LeftOut(text) => Err(left_out_at(alloc, 2, text)),
            _ => Err(bad_at(0, 2)),
        },
        [] => Err(bad_at(0, 2)),
    }
}

/// Whether a version is one that is read.
fn is_version(text: &Text, double: bool) -> bool
    ensures { result ≡ known_version text.now double }
{
    !double && is_among(text.as_str().as_bytes(), &VERSIONS)
}

fn is_among(text: &[u8], words: &[&str]) -> bool
    ensures { result ≡ list_any (λ word. bytes_eq text.now word.now) words.now }
{
    words.iter().any(|word| text == word.as_bytes())
}
