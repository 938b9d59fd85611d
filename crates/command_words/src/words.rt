ghost use Rattle.std.specs.Prelude.{◌≡◌, map, string_bytes, IfOk};
ghost use Rattle.std.specs.List.{list_all};
ghost use Rattle.command_words.specs.Requests.{names_command};
ghost use Rattle.command_words.specs.Requests.{HasRequest};
ghost use Rattle.command_words.specs.inside.Names as names;
ghost use Rattle.command_words.specs.inside.Reading as reading;
ghost use Rattle.command_words.specs.inside.Views.{words_of};

use crate::names::{modules_in, parts_of};
use crate::options::{sort_words, workers_in};
use crate::request::{Request, Task};
use crate::roots::roots_in;
use case_table::{OutOfMemory, Seq, Text};
use module_set::ModuleName;
use std::alloc::Global;

const INSTANCE: &str = "instance";

const CHECK: &str = "check";

/// The length of the longest word.
const MOST_WORD: usize = 4_194_304;

/// Whether the first word names a command. Takes no memory.
pub fn names_command(words: &[String]) -> bool
    ensures { result ≡ names_command (map string_bytes words.now) }
{
    match words {
        [] => false,
        [command, ..] => command.as_str() == INSTANCE || command.as_str() == CHECK,
    }
}

/// The request that the words are, or nothing where they are none.
pub fn read_request(alloc: Global, words: &[String]) -> Result<Option<Request>, OutOfMemory>
    ensures { IfOk result (HasRequest (map string_bytes words.now)) }
{
    let found = request_in(alloc, words)?;
    Ok(found)
}

/// The request that the words are read as.
#[tactic(auto, unfolding(crate::specs::inside::Reading::request_in))]
fn request_in(alloc: Global, words: &[String]) -> Result<Option<Request>, OutOfMemory>
    ensures { IfOk result (λ found. found ≡ reading.request_in (map string_bytes words.now)) }
{
    let Some((command, behind)) = words.split_first() else {
        return Ok(None);
    };
    if !are_short(words) {
        return Ok(None);
    }
    let Some(sorted) = sort_words(alloc, behind)? else {
        return Ok(None);
    };
    let found = request_of(alloc, command.as_str(), &sorted.values, &sorted.others)?;
    Ok(found)
}

/// Whether no word is longer than the longest.
fn are_short(words: &[String]) -> bool
    ensures { result ≡ list_all reading.is_short (map string_bytes words.now) }
{
    for word in words {
        if !is_short(word.as_str()) {
            return false;
        }
    }
    true
}

fn is_short(word: &str) -> bool
    ensures { result ≡ reading.is_short word.now }
{
    word.len() <= MOST_WORD
}

/// The request that a command is with the values of its options and with other words.
#[tactic(auto, unfolding(crate::specs::inside::Reading::request_of))]
fn request_of(
    alloc: Global,
    command: &str,
    values: &[&str],
    words: &[&str],
) -> Result<Option<Request>, OutOfMemory>
    ensures { IfOk result (λ found. found ≡ reading.request_of command.now (words_of values.now) (words_of words.now)) }
{
    let Some((roots_word, others)) = words.split_first() else {
        return Ok(None);
    };
    let Some(workers) = workers_in(values) else {
        return Ok(None);
    };
    let Some(roots) = roots_in(alloc, roots_word)? else {
        return Ok(None);
    };
    let Some(task) = task_in(alloc, command, others)? else {
        return Ok(None);
    };
    Ok(Some(Request {
        task,
        roots,
        workers,
    }))
}

/// The task that the words behind the roots are for a command.
#[tactic(auto, unfolding(crate::specs::inside::Reading::task_in))]
fn task_in(alloc: Global, command: &str, words: &[&str]) -> Result<Option<Task>, OutOfMemory>
    ensures { IfOk result (λ found. found ≡ reading.task_in command.now (words_of words.now)) }
{
    if command == INSTANCE {
        let found = instance_in(alloc, words)?;
        return Ok(found);
    }
    if command == CHECK {
        let found = check_in(alloc, words)?;
        return Ok(found);
    }
    Ok(None)
}

/// The instance that words ask for.
#[tactic(auto, unfolding(crate::specs::inside::Reading::instance_in))]
fn instance_in(alloc: Global, words: &[&str]) -> Result<Option<Task>, OutOfMemory>
    ensures { IfOk result (λ found. found ≡ reading.instance_in (words_of words.now)) }
{
    let [name] = words else {
        return Ok(None);
    };
    let Some(parts) = parts_of(alloc, name.as_bytes())? else {
        return Ok(None);
    };
    Ok(instance_of(parts))
}

/// The task for the material that the last of two or more parts names.
fn instance_of(mut parts: Vec<Text>) -> Option<Task>
    ensures { result ≡ names.instance_of parts.items }
{
    if parts.len() < 2 {
        return None;
    }
    let material = parts.pop()?;
    let module = ModuleName {
        parts: Seq::of(parts),
    };
    Some(Task::Instance { module, material })
}

/// The check that words ask for.
#[tactic(auto, unfolding(crate::specs::inside::Reading::check_in))]
fn check_in(alloc: Global, words: &[&str]) -> Result<Option<Task>, OutOfMemory>
    ensures { IfOk result (λ found. found ≡ reading.check_in (words_of words.now)) }
{
    if words.is_empty() {
        return Ok(None);
    }
    let Some(modules) = modules_in(alloc, words)? else {
        return Ok(None);
    };
    Ok(Some(Task::Check { modules }))
}
