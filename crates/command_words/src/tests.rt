use crate::{Request, Task, names_command, read_request};
use module_set::ModuleName;
use std::alloc::Global;
use std::test::Fail;

// The words between blanks. `""` is an empty word, `64-roots` is 64 paths with `:` between them,
// and `65-roots` is 65.
fn words(alloc: Global, line: &str) -> Result<Vec<String>, Fail> {
    let mut words = Vec::new(alloc);
    for word in line.split_whitespace() {
        words.push(match word {
            "\"\"" => String::new(alloc),
            "64-roots" => roots(alloc, 64)?,
            "65-roots" => roots(alloc, 65)?,
            word => String::from_str(alloc, word)?,
        })?;
    }
    Ok(words)
}

fn roots(alloc: Global, count: usize) -> Result<String, Fail> {
    let mut text = String::from_str(alloc, "r")?;
    for _ in 1..count {
        text.push_str(":r")?;
    }
    Ok(text)
}

fn push_name(text: &mut String, name: &ModuleName) -> Result<(), Fail> {
    for part in name.parts.list() {
        text.push_str("::")?;
        text.push_str(part.as_str())?;
    }
    Ok(())
}

// The request in short: the command, how many paths and the last of them, workers, and the names.
fn told(alloc: Global, request: &Request) -> Result<String, Fail> {
    let mut text = String::new(alloc);
    text.push_str(match &request.task {
        Task::Instance { .. } => "instance",
        Task::Check { .. } => "check",
    })?;
    let roots = request.roots.list();
    let last = roots.last().map_or("", |root| root.as_str());
    text.push_str(&format!(in alloc; " {} {last} {}", roots.len(), request.workers)?)?;
    match &request.task {
        Task::Instance { module, material } => {
            text.push_str(" ")?;
            push_name(&mut text, module)?;
            text.push_str(" ")?;
            text.push_str(material.as_str())?;
        }
        Task::Check { modules } => {
            for module in modules.list() {
                text.push_str(" ")?;
                push_name(&mut text, module)?;
            }
        }
    }
    Ok(text)
}

#[test]
fn words_are_requests_or_none(rt: HostRuntime) -> Result<(), Fail> {
    let alloc = rt.alloc();
    let cases = [
        ("instance r ::m::a", "instance 1 r 1 ::m a"),
        ("instance a:b ::p::m::a", "instance 2 b 1 ::p::m a"),
        ("check r ::m", "check 1 r 1 ::m"),
        ("check r ::m ::n::o", "check 1 r 1 ::m ::n::o"),
        ("check r ::n ::m", "check 1 r 1 ::n ::m"),
        // options
        ("check --workers 2 r ::m", "check 1 r 2 ::m"),
        ("check --workers=3 r ::m", "check 1 r 3 ::m"),
        ("check r --workers 4 ::m", "check 1 r 4 ::m"),
        ("check r --workers=5 ::m", "check 1 r 5 ::m"),
        ("check r ::m --workers 64", "check 1 r 64 ::m"),
        ("check r ::m --workers=10", "check 1 r 10 ::m"),
        ("instance r ::m::a --workers=1", "instance 1 r 1 ::m a"),
        ("check r ::m --workers", "none"),
        ("check r ::m --workers=", "none"),
        ("check --workers r ::m", "none"),
        ("check --workers 1 --workers 1 r ::m", "none"),
        ("check --workers=1 --workers 1 r ::m", "none"),
        ("check --workers 0 r ::m", "none"),
        ("check --workers 65 r ::m", "none"),
        ("check --workers 01 r ::m", "none"),
        ("check --workers +5 r ::m", "none"),
        ("check --workers 4294967297 r ::m", "none"),
        ("check --workers \"\" r ::m", "none"),
        ("check --workers 6a r ::m", "none"),
        ("check --workers -- r ::m", "none"),
        ("check --worker 1 r ::m", "none"),
        ("check --workers1 r ::m", "none"),
        ("check -w r ::m", "none"),
        ("--workers 1 check r ::m", "none"),
        // the end of options
        ("check -- r ::m", "check 1 r 1 ::m"),
        ("check r -- ::m", "check 1 r 1 ::m"),
        ("check r ::m --", "check 1 r 1 ::m"),
        ("check --workers 7 -- r ::m", "check 1 r 7 ::m"),
        ("check -- --workers ::m", "check 1 --workers 1 ::m"),
        ("check -- --workers=2 ::m", "check 1 --workers=2 1 ::m"),
        ("check -- -- ::m", "check 1 -- 1 ::m"),
        ("check r ::m -- --workers 2", "none"),
        // roots
        ("check - ::m", "check 1 - 1 ::m"),
        ("check -x:y ::m", "none"),
        ("check 64-roots ::m", "check 64 r 1 ::m"),
        ("check 65-roots ::m", "none"),
        ("check \"\" ::m", "none"),
        ("check : ::m", "none"),
        ("check a: ::m", "none"),
        ("check :a ::m", "none"),
        ("check a::b ::m", "none"),
        ("check a:a ::m", "check 2 a 1 ::m"),
        // names
        ("check r", "none"),
        ("check", "none"),
        ("check r ::m ::m", "none"),
        ("check r ::m ::n ::m", "none"),
        ("check r ::m ::m::m", "check 1 r 1 ::m ::m::m"),
        ("check r m", "none"),
        ("check r ::", "none"),
        ("check r \"\"", "none"),
        ("check r ::m::", "none"),
        ("check r ::m:n", "none"),
        ("check r ::m::if", "none"),
        ("check r ::é", "check 1 r 1 ::é"),
        ("check r ::1a", "none"),
        ("instance r", "none"),
        ("instance r ::m", "none"),
        ("instance r ::m::a ::m::b", "none"),
        ("instance r ::m::import", "none"),
        ("instance r m::a", "none"),
        // other words
        ("", "none"),
        ("\"\"", "none"),
        ("help", "none"),
        ("--help", "none"),
        ("-h", "none"),
        ("check --help", "none"),
        ("Check r ::m", "none"),
        ("checks r ::m", "none"),
        ("run r ::m", "none"),
    ];
    for (line, expected) in cases {
        let found = read_request(alloc, &words(alloc, line)?)?;
        let text = match &found {
            Some(request) => told(alloc, request)?,
            None => String::from_str(alloc, "none")?,
        };
        assert_eq!(rt; text.as_str(), expected, "{line}");
    }
    Ok(())
}

#[test]
fn first_words_name_commands(rt: HostRuntime) -> Result<(), Fail> {
    let alloc = rt.alloc();
    let cases = [
        ("", false),
        ("\"\"", false),
        ("instance", true),
        ("check", true),
        ("check --workers", true),
        ("checks", false),
        ("help check", false),
    ];
    for (line, expected) in cases {
        assert_eq!(rt; names_command(&words(alloc, line)?), expected, "{line}");
    }
    Ok(())
}

#[test]
fn words_are_at_most_so_long(rt: HostRuntime) -> Result<(), Fail> {
    let alloc = rt.alloc();
    for (length, taken) in [(4_194_304, true), (4_194_305, false)] {
        let mut long = String::with_capacity(alloc, length)?;
        for _ in 0..length {
            long.push_str("r")?;
        }
        let mut all = words(alloc, "check")?;
        all.push(long)?;
        all.push(String::from_str(alloc, "::m")?)?;
        let found = read_request(alloc, &all)?;
        assert_eq!(rt; found.is_some(), taken, "{length}");
    }
    Ok(())
}
