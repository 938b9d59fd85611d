ghost use Rattle.std.specs.Prelude.{◌≡◌, ◌++◌, codes, Some, IfOk, OnOk};
ghost use Rattle.std.specs.List.{flat_map};
ghost use Rattle.module_set.specs.Names.{written_name};
ghost use Rattle.mdl_cli.specs.Lines.{absent_line, name_end, lexical_line, grammar_line, cycle_line, load_line};
ghost use Rattle.mdl_cli.specs.Lines.{material_unknown_line, site, site_word, place_end, place_word};
ghost use Rattle.mdl_cli.specs.Lines.{word_end, scope_line};

use crate::graph_text::push_number;
use case_table::Text;
use expression_grammar::ParseFault;
use io_edge::Place;
use mdl_lexer::LexFault;
use module_loader::LoadFault;
use module_set::ModuleName;
use scope_core::ScopeFault;
use std::alloc::{AllocError, Global};

/// The line for modules that can't be loaded.
pub fn load_line(alloc: Global, fault: &LoadFault) -> Result<Vec<u8>, AllocError>
    ensures { IfOk result (λ line. line.items ≡ load_line fault.now) }
{
    match fault {
        LoadFault::Absent {
            importer,
            place,
            name,
        } => absent_line(alloc, importer, *place, name),
        LoadFault::TooLong { name } => name_line(alloc, b"error 11 TooLong ", name),
        LoadFault::Lex {
            module,
            fault,
            place,
        } => lexical_line(alloc, module, *fault, *place),
        LoadFault::Parse {
            module,
            fault,
            place,
        } => grammar_line(alloc, module, fault, *place),
        LoadFault::TooMany => Vec::from_slice(alloc, b"error 12 TooMany\n"),
        LoadFault::Cycle { path } => cycle_line(alloc, path.list()),
        LoadFault::ReadFault => Vec::from_slice(alloc, b"error 2 ReadFault\n"),
        LoadFault::OutOfMemory => Vec::from_slice(alloc, b"error 4 OutOfMemory\n"),
    }
}

/// The line for a module that isn't there.
fn absent_line(
    alloc: Global,
    importer: &Option<ModuleName>,
    place: Place,
    name: &ModuleName,
) -> Result<Vec<u8>, AllocError>
    ensures { IfOk result (λ line. line.items ≡ absent_line importer.now place name.now) }
{
    match importer {
        Some(importer) => imported_line(alloc, importer, place, name),
        None => name_line(alloc, b"error 10 Absent ", name),
    }
}

fn imported_line(
    alloc: Global,
    importer: &ModuleName,
    place: Place,
    name: &ModuleName,
) -> Result<Vec<u8>, AllocError>
    ensures { IfOk result (λ line. line.items ≡ absent_line (Some importer.now) place name.now) }
{
    let mut line = Vec::from_slice(alloc, b"error 10 Absent ")?;
    push_name(&mut line, name)?;
    line.extend_from_slice(b" from ")?;
    push_site(&mut line, importer, place)?;
    Ok(line)
}

/// The line for a module, behind the refusal's number and name.
fn name_line(alloc: Global, front: &[u8], name: &ModuleName) -> Result<Vec<u8>, AllocError>
    ensures { IfOk result (λ line. line.items ≡ front.now ++ name_end name.now) }
{
    let mut line = Vec::from_slice(alloc, front)?;
    push_name(&mut line, name)?;
    line.extend_from_slice(b"\n")?;
    Ok(line)
}

/// The line for a module whose bytes have no words.
fn lexical_line(
    alloc: Global,
    name: &ModuleName,
    fault: LexFault,
    place: Place,
) -> Result<Vec<u8>, AllocError>
    ensures { IfOk result (λ line. line.items ≡ lexical_line name.now fault place) }
{
    match fault {
        LexFault::NotUtf8 { .. } => site_line(alloc, b"error 14 NotUtf8 ", name, place),
        LexFault::BadToken { .. } => site_line(alloc, b"error 15 BadToken ", name, place),
        LexFault::IntRange { .. } => site_line(alloc, b"error 16 IntRange ", name, place),
        LexFault::OutOfMemory => Vec::from_slice(alloc, b"error 4 OutOfMemory\n"),
    }
}

/// The line for a module whose words aren't accepted.
fn grammar_line(
    alloc: Global,
    name: &ModuleName,
    fault: &ParseFault,
    place: Place,
) -> Result<Vec<u8>, AllocError>
    ensures { IfOk result (λ line. line.items ≡ grammar_line name.now fault.now place) }
{
    match fault {
        ParseFault::BadSyntax { .. } => site_line(alloc, b"error 17 BadSyntax ", name, place),
        ParseFault::TooDeep { .. } => site_line(alloc, b"error 18 TooDeep ", name, place),
        ParseFault::StatementBody { .. } => {
            site_line(alloc, b"error 19 StatementBody ", name, place)
        }
        ParseFault::LeftOut { word, .. } => left_out_line(alloc, name, word, place),
        ParseFault::Version { .. } => site_line(alloc, b"error 21 Version ", name, place),
        ParseFault::OutOfMemory => Vec::from_slice(alloc, b"error 4 OutOfMemory\n"),
    }
}

/// The line for a module and a place in it, behind the refusal's number and name.
fn site_line(
    alloc: Global,
    front: &[u8],
    name: &ModuleName,
    place: Place,
) -> Result<Vec<u8>, AllocError>
    ensures { IfOk result (λ line. line.items ≡ front.now ++ site name.now place) }
{
    let mut line = Vec::from_slice(alloc, front)?;
    push_site(&mut line, name, place)?;
    Ok(line)
}

/// The line for a word that is left out, or a form of this name.
fn left_out_line(
    alloc: Global,
    name: &ModuleName,
    word: &Text,
    place: Place,
) -> Result<Vec<u8>, AllocError>
    ensures { IfOk result (λ line. line.items ≡ codes "error 20 LeftOut " ++ site_word name.now place word.now) }
{
    let mut line = Vec::from_slice(alloc, b"error 20 LeftOut ")?;
    push_name(&mut line, name)?;
    line.extend_from_slice(b" ")?;
    push_place_word(&mut line, place, word.as_str())?;
    Ok(line)
}

/// The line for a cycle.
fn cycle_line(alloc: Global, path: &[ModuleName]) -> Result<Vec<u8>, AllocError>
    ensures { IfOk result (λ line. line.items ≡ cycle_line path.now) }
{
    let mut line = Vec::from_slice(alloc, b"error 13 Cycle")?;
    push_path(&mut line, path)?;
    line.extend_from_slice(b"\n")?;
    Ok(line)
}

/// Appends the names of modules, each behind a blank.
fn push_path(line: &mut Vec<u8>, path: &[ModuleName]) -> Result<(), AllocError>
    ensures { OnOk result
        (line.new.items ≡ line.old.items ++ flat_map (λ name. codes " " ++ written_name name) path.now) }
{
    for name in path {
        push_behind_blank(line, name)?;
    }
    Ok(())
}

fn push_behind_blank(line: &mut Vec<u8>, name: &ModuleName) -> Result<(), AllocError>
    ensures { OnOk result (line.new.items ≡ line.old.items ++ (codes " " ++ written_name name.now)) }
{
    line.extend_from_slice(b" ")?;
    push_name(line, name)?;
    Ok(())
}

/// The line for a name of a module with which something is wrong.
pub fn scope_line(
    alloc: Global,
    name: &ModuleName,
    fault: ScopeFault,
    place: Place,
) -> Result<Vec<u8>, AllocError>
    ensures { IfOk result (λ line. line.items ≡ scope_line name.now fault place) }
{
    match fault {
        ScopeFault::Twice { .. } => site_line(alloc, b"error 30 Twice ", name, place),
        ScopeFault::Unknown { .. } => site_line(alloc, b"error 31 Unknown ", name, place),
        ScopeFault::NotExported { .. } => site_line(alloc, b"error 32 NotExported ", name, place),
        ScopeFault::Clash { .. } => site_line(alloc, b"error 33 Clash ", name, place),
        ScopeFault::OutOfMemory => Vec::from_slice(alloc, b"error 4 OutOfMemory\n"),
    }
}

/// The line for a module that has no material of the name that was asked for.
pub fn material_unknown_line(alloc: Global) -> Result<Vec<u8>, AllocError>
    ensures { IfOk result (λ line. line.items ≡ material_unknown_line) }
{
    Vec::from_slice(alloc, b"error 53 MaterialUnknown request\n")
}

/// Appends a module's name and a place in it, at the end of the line.
fn push_site(line: &mut Vec<u8>, name: &ModuleName, place: Place) -> Result<(), AllocError>
    ensures { OnOk result (line.new.items ≡ line.old.items ++ site name.now place) }
{
    push_name(line, name)?;
    line.extend_from_slice(b" ")?;
    push_place_end(line, place)?;
    Ok(())
}

/// Appends a name, as it is written.
pub fn push_name(text: &mut Vec<u8>, name: &ModuleName) -> Result<(), AllocError>
    ensures { OnOk result (text.new.items ≡ text.old.items ++ written_name name.now) }
{
    for part in name.parts.list() {
        push_part(text, part)?;
    }
    Ok(())
}

/// Appends a component of a name.
pub fn push_part(text: &mut Vec<u8>, part: &Text) -> Result<(), AllocError>
    ensures { OnOk result (text.new.items ≡ text.old.items ++ (codes "::" ++ part.now)) }
{
    text.extend_from_slice(b"::")?;
    text.extend_from_slice(part.as_str().as_bytes())?;
    Ok(())
}

fn push_place_word(line: &mut Vec<u8>, place: Place, word: &str) -> Result<(), AllocError>
    ensures { OnOk result (line.new.items ≡ line.old.items ++ place_word place word.now) }
{
    push_number(line, place.line as usize)?;
    line.extend_from_slice(b":")?;
    push_number(line, place.column as usize)?;
    push_word_end(line, word)?;
    Ok(())
}

fn push_word_end(line: &mut Vec<u8>, word: &str) -> Result<(), AllocError>
    ensures { OnOk result (line.new.items ≡ line.old.items ++ word_end word.now) }
{
    line.extend_from_slice(b" ")?;
    line.extend_from_slice(word.as_bytes())?;
    line.extend_from_slice(b"\n")?;
    Ok(())
}

fn push_place_end(line: &mut Vec<u8>, place: Place) -> Result<(), AllocError>
    ensures { OnOk result (line.new.items ≡ line.old.items ++ place_end place) }
{
    push_number(line, place.line as usize)?;
    line.extend_from_slice(b":")?;
    push_number(line, place.column as usize)?;
    line.extend_from_slice(b"\n")?;
    Ok(())
}
