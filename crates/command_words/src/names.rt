ghost use Rattle.std.specs.Prelude.{◌≡◌, ◌≤◌, ◌==◌, not, [], length, is_some, IfOk, IfSome};
ghost use Rattle.std.specs.List.{prefix_len};
ghost use Rattle.std.specs.Option.{option_map};
ghost use Rattle.command_words.specs.Identifiers.{is_identifier};
ghost use Rattle.command_words.specs.inside.Names as reading;
ghost use Rattle.command_words.specs.inside.Views.{words_of, part_found, parts_found};

use case_table::{OutOfMemory, Seq, Text};
use indexmap::IndexSet;
use mdl_lexer::is_identifier;
use module_set::ModuleName;
use std::alloc::{AllocError, Global};
use std::str;

/// The modules that the words name, if none is named twice.
pub fn modules_in(alloc: Global, words: &[&str]) -> Result<Option<Seq<ModuleName>>, OutOfMemory>
    ensures { IfOk result (λ found. found ≡ reading.modules_onto [] (words_of words.now)) }
{
    let mut modules = IndexSet::new(alloc);
    for word in words {
        let Some(module) = module_in(alloc, word)? else {
            return Ok(None);
        };
        if !modules.insert(module)? {
            return Ok(None);
        }
    }
    let modules = list_of(alloc, modules)?;
    Ok(Some(Seq::of(modules)))
}

/// The modules of a set in order.
fn list_of(alloc: Global, modules: IndexSet<ModuleName>) -> Result<Vec<ModuleName>, AllocError>
    ensures { IfOk result (λ list. list.items ≡ modules.keys) }
{
    let list = modules.into_iter().collect(alloc)?;
    Ok(list)
}

/// The module that a word names.
#[tactic(auto, unfolding(crate::specs::inside::Names::module_in))]
fn module_in(alloc: Global, name: &str) -> Result<Option<ModuleName>, AllocError>
    ensures { IfOk result (λ found. found ≡ reading.module_in name.now) }
{
    let Some(parts) = parts_of(alloc, name.as_bytes())? else {
        return Ok(None);
    };
    Ok(module_of(parts))
}

/// The module that has these parts, if there are any.
fn module_of(parts: Vec<Text>) -> Option<ModuleName>
    ensures { result ≡ reading.module_of parts.items }
{
    if parts.is_empty() {
        return None;
    }
    Some(ModuleName {
        parts: Seq::of(parts),
    })
}

/// The parts of an absolute name of identifiers.
pub fn parts_of(alloc: Global, name: &[u8]) -> Result<Option<Vec<Text>>, AllocError>
    ensures { IfOk result (λ found. option_map parts_found found ≡ reading.parts_of name.now) }
{
    let mut parts = Vec::new(alloc);
    let mut rest = name;
    while !rest.is_empty() {
        let Some((part, behind)) = part_in(rest) else {
            return Ok(None);
        };
        parts.push(Text::copy(alloc, part)?)?;
        rest = behind;
    }
    Ok(Some(parts))
}

/// An identifier behind `::`, and the rest.
#[tactic(auto, unfolding(crate::specs::inside::Names::part_in))]
fn part_in(text: &[u8]) -> Option<(&str, &[u8])>
    ensures { option_map part_found result ≡ reading.part_in text.now }
{
    if !text.starts_with(b"::") {
        return None;
    }
    let name = &text[2..];
    let end = part_len(name);
    let part = identifier_of(&name[..end])?;
    Some((part, &name[end..]))
}

/// Bytes as an identifier, if they are one.
fn identifier_of(name: &[u8]) -> Option<&str>
    ensures is { is_some result ≡ is_identifier name.now }
    ensures same { IfSome result (λ text. text.now ≡ name.now) }
{
    match str::from_utf8(name) {
        Ok(text) if is_identifier(text) => Some(text),
        _ => None,
    }
}

/// How many bytes stand before the first `:`.
#[tactic(auto, using(crate::proofs::Fronts::prefix_len_at, crate::proofs::Fronts::prefix_len_whole))]
fn part_len(text: &[u8]) -> usize
    ensures len { result ≡ prefix_len (λ byte. not (byte == 58)) text.now }
    ensures within { result ≤ length text.now }
{
    for i in 0..text.len() {
        if text[i] == b':' {
            return i;
        }
    }
    text.len()
}
