ghost use Rattle.std.specs.Prelude.{◌≡◌, ◌≤◌, map, length, string_bytes, IfOk};
ghost use Rattle.std.specs.List.{AllByRecursion};
ghost use Rattle.type_rules.specs.Terms.{IsTyped};
ghost use Rattle.module_set.specs.Members.{members_of};
ghost use Rattle.module_set.specs.ModuleSets.{IsModuleSet};
ghost use Rattle.scope_core.specs.Places.{HasPlace, IsAtName};
ghost use Rattle.mdl_cli.specs.Words.{kinds_of};
ghost use Rattle.mdl_cli.specs.GraphText.{instance_text};
ghost use Rattle.mdl_cli.specs.Outcome.{asked, material_name, ok_text, HasLineAt};
ghost use Rattle.mdl_cli.specs.inside.Trees.{term_of};
ghost use Rattle.mdl_cli.specs.inside.Delivery.{Finds, FindsAt, FindsIn, FindsInText, FindsInTexts, FindsInWords};
ghost use Rattle.mdl_cli.specs.inside.Delivery.{Refuses, Told, Given, WithoutWords, AreShort};
ghost use Rattle.mdl_cli.specs.inside.Delivery.{FindsTask, TellsScope};

use crate::answer::Answer;
use crate::first_text::read_first;
use crate::graph_text::{push_number, write_instance};
use crate::lines::{load_line, material_unknown_line, push_name, push_part, scope_line};
use crate::put::put_tree;
use crate::terms::ReadError;
use crate::tree::Tree;
use case_table::{OutOfMemory, Text};
use command_words::{Request, Task, names_command, read_request};
use dag_store::Store;
use io_edge::{Gate, Source, place_of};
use mdl_lexer::{LexFault, Token, lex};
use module_loader::{LoadFault, load};
use module_set::{ModuleName, ModuleSet};
use scope_core::{ScopeFault, Scopes};
use std::alloc::{AllocError, Global};
use std::thread::Threads;

/// What is found for a command line.
pub fn find_answer<R: Threads + Sync, S: Source, G: Gate>(
    rt: &R,
    alloc: Global,
    words: &[String],
    source: &mut S,
    gate: &G,
) -> Answer
    ensures { Finds (map string_bytes words.now) (S.state source.old) (S.state source.new) result }
{
    if !names_command(words) {
        return Answer::Usage;
    }
    match read_request(alloc, words) {
        Ok(Some(request)) => find(rt, alloc, &request, source, gate),
        Ok(None) => Answer::Usage,
        Err(_) => Answer::OutOfMemory,
    }
}

/// What is found for a request.
fn find<R: Threads + Sync, S: Source, G: Gate>(
    rt: &R,
    alloc: Global,
    request: &Request,
    source: &mut S,
    gate: &G,
) -> Answer
    ensures { FindsAt request.now (S.state source.old) (S.state source.new) result }
{
    let Ok(roots) = strings(alloc, request.roots.list()) else {
        return Answer::OutOfMemory;
    };
    let Ok(first) = asked(alloc, &request.task) else {
        return Answer::OutOfMemory;
    };
    match load(
        rt,
        alloc,
        source,
        &roots,
        &first,
        request.workers as usize,
        gate,
    ) {
        Ok(set) => find_in(alloc, &request.task, &set),
        Err(fault) => refuse(alloc, &fault),
    }
}

fn strings(alloc: Global, texts: &[Text]) -> Result<Vec<String>, AllocError>
    ensures { IfOk result (λ all. map string_bytes all.items ≡ texts.now) }
{
    let mut all = Vec::new(alloc);
    for text in texts {
        all.push(String::from_str(alloc, text.as_str())?)?;
    }
    Ok(all)
}

/// The modules that a task asks for.
fn asked(alloc: Global, task: &Task) -> Result<Vec<ModuleName>, AllocError>
    ensures { IfOk result (λ names. names.items ≡ asked task.now) }
{
    match task {
        Task::Instance { module, .. } => {
            let name = module.copy(alloc)?;
            let mut names = Vec::new(alloc);
            names.push(name)?;
            Ok(names)
        }
        Task::Check { modules } => copies(alloc, modules.list()),
    }
}

fn copies(alloc: Global, names: &[ModuleName]) -> Result<Vec<ModuleName>, AllocError>
    ensures { IfOk result (λ copied. copied.items ≡ names.now) }
{
    let mut copied = Vec::new(alloc);
    for name in names {
        let one = name.copy(alloc)?;
        copied.push(one)?;
    }
    Ok(copied)
}

/// The refusal of modules that can't be loaded.
fn refuse(alloc: Global, fault: &LoadFault) -> Answer
    ensures { Refuses fault.now result }
{
    match fault {
        LoadFault::ReadFault => Answer::ReadFault,
        LoadFault::OutOfMemory => Answer::OutOfMemory,
        _ => refused(load_line(alloc, fault)),
    }
}

/// What is found for a task in a set that is loaded.
fn find_in(alloc: Global, task: &Task, set: &ModuleSet) -> Answer
    requires short { AreShort set.now }
    requires is_set { IsModuleSet set.now }
    ensures { FindsIn task.now set.now result }
{
    match Scopes::new(alloc, set) {
        Ok(scopes) => {
            // Their memory serves what comes next.
            drop(scopes);
            find_task(alloc, task, set)
        }
        Err(fault) => refuse_scope(alloc, set, fault),
    }
}

/// The refusal of a set for what is wrong with a name.
fn refuse_scope(alloc: Global, set: &ModuleSet, fault: ScopeFault) -> Answer
    requires short { AreShort set.now }
    requires is_set { IsModuleSet set.now }
    requires placed { IsAtName set.now fault }
    ensures { TellsScope (members_of set.now) fault result }
{
    match fault {
        ScopeFault::Twice { module, at } => refused(line_at(alloc, set, fault, module, at)),
        ScopeFault::Unknown { module, at } => refused(line_at(alloc, set, fault, module, at)),
        ScopeFault::NotExported { module, at } => refused(line_at(alloc, set, fault, module, at)),
        ScopeFault::Clash { module, at } => refused(line_at(alloc, set, fault, module, at)),
        ScopeFault::OutOfMemory => Answer::OutOfMemory,
    }
}

/// The line of a fault at a byte of a module.
fn line_at(
    alloc: Global,
    set: &ModuleSet,
    fault: ScopeFault,
    module: u32,
    at: u32,
) -> Result<Vec<u8>, AllocError>
    requires short { AreShort set.now }
    requires is_set { IsModuleSet set.now }
    requires placed { HasPlace (members_of set.now) «module» at }
    ensures { IfOk result (λ line. HasLineAt (members_of set.now) fault «module» at line.items) }
{
    let name = &set.names.list()[module as usize];
    let text = set.texts.list()[module as usize].as_str();
    let place = place_of(text.as_bytes(), at as usize);
    scope_line(alloc, name, fault, place)
}

/// What is found for a task in a set with whose names nothing is wrong.
fn find_task(alloc: Global, task: &Task, set: &ModuleSet) -> Answer
    requires { AreShort set.now }
    ensures { FindsTask task.now set.now result }
{
    match task {
        Task::Instance { module, material } => {
            find_instance(alloc, module, material, set.texts.list())
        }
        Task::Check { .. } => told(ok_text(alloc, set.names.list().len())),
    }
}

/// The text for so many modules that are in order.
fn ok_text(alloc: Global, count: usize) -> Result<Vec<u8>, AllocError>
    ensures { IfOk result (λ text. text.items ≡ ok_text count) }
{
    let mut text = Vec::from_slice(alloc, b"ok ")?;
    push_number(&mut text, count)?;
    text.extend_from_slice(b"\n")?;
    Ok(text)
}

/// What is found for a material in texts.
fn find_instance(alloc: Global, own: &ModuleName, material: &Text, texts: &[Text]) -> Answer
    requires { AllByRecursion (λ text. length text ≤ 4194304) texts.now }
    ensures { FindsInTexts (material_name own.now material.now) material.now texts.now result }
{
    let [text] = texts else {
        return Answer::NotBuilt;
    };
    find_in_text(alloc, own, material, text.as_str().as_bytes())
}

/// What is found for a material in a text.
fn find_in_text(alloc: Global, own: &ModuleName, material: &Text, bytes: &[u8]) -> Answer
    requires { length bytes.now ≤ 4194304 }
    ensures { FindsInText (material_name own.now material.now) material.now bytes.now result }
{
    match lex(alloc, bytes) {
        Ok(tokens) => find_in_words(alloc, own, material, &tokens),
        Err(fault) => without_words(fault),
    }
}

/// What is found in a text without words.
fn without_words(fault: LexFault) -> Answer
    ensures { WithoutWords fault result }
{
    match fault {
        LexFault::NotUtf8 { .. } | LexFault::BadToken { .. } | LexFault::IntRange { .. } => {
            Answer::NotBuilt
        }
        LexFault::OutOfMemory => Answer::OutOfMemory,
    }
}

/// What is found for a material in the words of a text.
fn find_in_words(alloc: Global, own: &ModuleName, material: &Text, words: &[Token]) -> Answer
    ensures { FindsInWords (material_name own.now material.now) material.now (kinds_of words.now) result }
{
    match read_first(alloc, words) {
        Ok(first) if first.name != material.as_str() => refused(material_unknown_line(alloc)),
        Ok(first) => match instance_of(alloc, own, material, &first.tree) {
            Ok(text) => Answer::Text(text),
            Err(OutOfMemory) => Answer::OutOfMemory,
        },
        Err(ReadError::NotFirst) => Answer::NotBuilt,
        Err(ReadError::OutOfMemory) => Answer::OutOfMemory,
    }
}

/// The refusal of this line, if there was memory for it.
fn refused(line: Result<Vec<u8>, AllocError>) -> Answer
    ensures { Told line result }
{
    match line {
        Ok(line) => Answer::Refused(line),
        Err(_) => Answer::OutOfMemory,
    }
}

/// The answer of this text, if there was memory for it.
fn told(text: Result<Vec<u8>, AllocError>) -> Answer
    ensures { Given text result }
{
    match text {
        Ok(text) => Answer::Text(text),
        Err(_) => Answer::OutOfMemory,
    }
}

/// The text of the instance that a tree is.
fn instance_of(
    alloc: Global,
    own: &ModuleName,
    material: &Text,
    tree: &Tree,
) -> Result<Vec<u8>, OutOfMemory>
    requires { IsTyped (term_of tree.now) }
    ensures { IfOk result
        (λ text. text.items ≡ instance_text (material_name own.now material.now) (term_of tree.now)) }
{
    let name = material_name(alloc, own, material)?;
    let mut store = Store::new(alloc)?;
    put_tree(alloc, &mut store, tree)?;
    let text = write_instance(alloc, &name, &store)?;
    Ok(text)
}

/// The absolute name of a material.
fn material_name(alloc: Global, own: &ModuleName, material: &Text) -> Result<Vec<u8>, AllocError>
    ensures { IfOk result (λ name. name.items ≡ material_name own.now material.now) }
{
    let mut name = Vec::new(alloc);
    push_name(&mut name, own)?;
    push_part(&mut name, material)?;
    Ok(name)
}
