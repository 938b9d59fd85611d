use crate::{LoadFault, load};
use case_table::{Seq, Text};
use io_edge::{MemorySource, NoGate, Source, SteadySource};
use module_set::{ModuleName, ModuleSet};
use std::alloc::{AllocError, Global};
use std::ops::Range;
use std::test::Fail;
use std::thread::Threads;

fn name(alloc: Global, written: &str) -> Result<ModuleName, AllocError> {
    let mut parts = Vec::new(alloc);
    for part in written.split("::") {
        if !part.is_empty() {
            parts.push(Text::of(String::from_str(alloc, part)?))?;
        }
    }
    Ok(ModuleName {
        parts: Seq::of(parts),
    })
}

fn push_name(text: &mut String, name: &ModuleName) -> Result<(), AllocError> {
    for part in name.parts.list() {
        text.push_str("::")?;
        text.push_str(part.as_str())?;
    }
    Ok(())
}

// What was loaded, or the fault, as a text.
fn told(alloc: Global, answer: &Result<ModuleSet, LoadFault>) -> Result<String, AllocError> {
    let mut text = String::new(alloc);
    match answer {
        Ok(set) => {
            text.push_str("ok")?;
            for name in set.names.list() {
                text.push_str(" ")?;
                push_name(&mut text, name)?;
            }
        }
        Err(
            LoadFault::Absent {
                importer,
                place,
                name,
            },
        ) => {
            text.push_str("absent ")?;
            push_name(&mut text, name)?;
            if let Some(importer) = importer {
                text.push_str(" from ")?;
                push_name(&mut text, importer)?;
                let at = format!(in alloc; " {}:{}", place.line, place.column)?;
                text.push_str(&at)?;
            }
        }
        Err(LoadFault::TooLong { name }) => {
            text.push_str("too long ")?;
            push_name(&mut text, name)?;
        }
        Err(LoadFault::Lex { module, place, .. }) => {
            text.push_str("lex ")?;
            push_name(&mut text, module)?;
            let at = format!(in alloc; " {}:{}", place.line, place.column)?;
            text.push_str(&at)?;
        }
        Err(LoadFault::Parse { module, place, .. }) => {
            text.push_str("parse ")?;
            push_name(&mut text, module)?;
            let at = format!(in alloc; " {}:{}", place.line, place.column)?;
            text.push_str(&at)?;
        }
        Err(LoadFault::TooMany) => text.push_str("too many")?,
        Err(LoadFault::Cycle { path }) => {
            text.push_str("cycle")?;
            for name in path.list() {
                text.push_str(" ")?;
                push_name(&mut text, name)?;
            }
        }
        Err(LoadFault::ReadFault) => text.push_str("read fault")?,
        Err(LoadFault::OutOfMemory) => text.push_str("out of memory")?,
    }
    Ok(text)
}

/// Files as `path=text` with `|` between and `@` for a line feed.
fn files_of(alloc: Global, written: &str) -> Result<Vec<(String, Vec<u8>)>, AllocError> {
    let mut files = Vec::new(alloc);
    for file in written.split("|") {
        if let Some((path, text)) = file.split_once("=") {
            let text = text.replace(alloc, "@", "\n")?;
            let bytes = Vec::from_slice(alloc, text.as_bytes())?;
            files.push((String::from_str(alloc, path)?, bytes))?;
        }
    }
    Ok(files)
}

/// What is told of a load: roots with `:` between, names with a blank.
fn load_told<R: Threads + Sync, S: Source>(
    rt: &R,
    alloc: Global,
    source: &mut S,
    roots: &str,
    first: &str,
) -> Result<String, AllocError> {
    let mut under = Vec::new(alloc);
    for root in roots.split(":") {
        under.push(String::from_str(alloc, root)?)?;
    }
    let mut asked = Vec::new(alloc);
    for written in first.split(" ") {
        asked.push(name(alloc, written)?)?;
    }
    let answer = load(rt, alloc, source, &under, &asked, 1, &NoGate);
    told(alloc, &answer)
}

const PAINT: &str =
    "r/shop/paint.mdl=mdl 1.6;@import ::df::*;@import ::state::*;@using ::anno import *;@";

#[test]
fn closures_and_faults(rt: HostRuntime) -> Result<(), Fail> {
    let alloc = rt.alloc();
    // files, roots, names, the answer
    let rows = [
        ("r/m.mdl=mdl 1.6;@", "r", "::m", "ok ::m"),
        (
            PAINT,
            "r",
            "::shop::paint",
            "ok ::shop::paint ::df ::state ::anno",
        ),
        // a module that is asked for first comes first, and once
        (
            PAINT,
            "r",
            "::anno ::shop::paint",
            "ok ::anno ::shop::paint ::df ::state",
        ),
        // the closure goes on from module to module, not from import to import
        (
            "r/a.mdl=mdl 1.6;@import ::b::*;@import ::c::*;@|r/b.mdl=mdl 1.6;@import ::d::*;@|\
             r/c.mdl=mdl 1.6;@|r/d.mdl=mdl 1.6;@",
            "r",
            "::a",
            "ok ::a ::b ::c ::d",
        ),
        ("", "r", "::none", "absent ::none"),
        (
            "r/m.mdl=mdl 1.6;@import ::q::*;@",
            "r",
            "::m",
            "absent ::q from ::m 2:8",
        ),
        // the first import of the first importer, and none of a module that was asked for
        (
            "r/m.mdl=mdl 1.6;@import ::o::*;@import ::q::*, ::q::y;@|r/o.mdl=mdl 1.6;@import   ::q::*;@",
            "r",
            "::m",
            "absent ::q from ::m 3:8",
        ),
        (
            "r/m.mdl=mdl 1.6;@import ::q::*;@",
            "r",
            "::m ::q",
            "absent ::q",
        ),
        (
            "r/m.mdl=mdl 1.6;@import ..::x::*;@|r/x.mdl=mdl 1.6;@",
            "r",
            "::m",
            "absent ::x from ::m 2:8",
        ),
        (
            "r/p/m.mdl=mdl 1.6;@import ..::x::*, .::y::*;@|r/x.mdl=mdl 1.6;@|r/p/y.mdl=mdl 1.6;@",
            "r",
            "::p::m",
            "ok ::p::m ::x ::p::y",
        ),
        // a sibling comes before an absolute name, and the second root is asked where the first lacks it
        (
            "r/p/m.mdl=mdl 1.6;@import x::*;@|s/p/x.mdl=mdl 1.6;@|r/x.mdl=mdl 1.6;@",
            "r:s",
            "::p::m",
            "ok ::p::m ::p::x",
        ),
        (
            "r/p/m.mdl=mdl 1.6;@import x::*;@|r/x.mdl=mdl 1.6;@",
            "r",
            "::p::m",
            "ok ::p::m ::x",
        ),
        // a file comes before the embedded text
        (
            "r/df.mdl=mdl 1.6;@import ::state::*;@",
            "r",
            "::df",
            "ok ::df ::state",
        ),
        // of several faults that of the least index in the closure
        (
            "r/m.mdl=mdl 1.6;@import ::q::*, ::z::*, ::p::*;@|r/q.mdl=mdl 1.6;@$@|r/p.mdl=mdl 1.6;@$@",
            "r",
            "::m",
            "lex ::q 2:1",
        ),
        (
            "r/m.mdl=mdl 1.6;@import ::q::*, ::p::*;@|r/q.mdl=mdl 1.6;@import ::z::*;@|r/p.mdl=mdl 1.6@",
            "r",
            "::m",
            "parse ::p 2:1",
        ),
        (
            "r/a.mdl=mdl 1.6;@import ::b::*;@|r/b.mdl=mdl 1.6;@import ::a::*;@",
            "r",
            "::a",
            "cycle ::a ::b",
        ),
        ("r/a.mdl=mdl 1.6;@import ::a::*;@", "r", "::a", "cycle ::a"),
        // the first cycle: the least index, the shortest, the least indices
        (
            "r/a.mdl=mdl 1.6;@import ::b::*, ::c::*, ::d::*;@|r/b.mdl=mdl 1.6;@import ::c::*;@|\
             r/c.mdl=mdl 1.6;@import ::a::*;@|r/d.mdl=mdl 1.6;@import ::a::*, ::d::*;@",
            "r",
            "::a",
            "cycle ::a ::c",
        ),
        // modules that lead to a cycle lie on none
        (
            "r/a.mdl=mdl 1.6;@import ::b::*;@|r/b.mdl=mdl 1.6;@import ::c::*;@|\
             r/c.mdl=mdl 1.6;@import ::d::*;@|r/d.mdl=mdl 1.6;@import ::c::*;@",
            "r",
            "::a",
            "cycle ::c ::d",
        ),
    ];
    for (files, roots, first, wanted) in rows {
        let mut source = SteadySource::new(files_of(alloc, files)?);
        let text = load_told(&rt, alloc, &mut source, roots, first)?;
        assert!(rt; text.as_str() == wanted, "{text}");
    }
    Ok(())
}

#[test]
fn no_path_is_read_twice(rt: HostRuntime) -> Result<(), Fail> {
    let alloc = rt.alloc();
    // files, roots, names, the answer, and how many reads it takes
    let rows = [
        (
            PAINT,
            "r",
            "::shop::paint",
            "ok ::shop::paint ::df ::state ::anno",
            4,
        ),
        // one path of two modules' names
        (
            "r/a/m.mdl=mdl 1.6;@",
            "r:r/a",
            "::a::m ::m",
            "ok ::a::m ::m",
            2,
        ),
        // a sibling that is absent
        (
            "r/p/m.mdl=mdl 1.6;@import x::*, x::y;@using x import z;@|r/x.mdl=mdl 1.6;@",
            "r",
            "::p::m",
            "ok ::p::m ::x",
            3,
        ),
        ("", "r:s:t", "::none", "absent ::none", 3),
    ];
    for (files, roots, first, wanted, reads) in rows {
        for failing in 0..=reads {
            let calls = Vec::from_slice(alloc, &[failing])?;
            let mut source = MemorySource::new(files_of(alloc, files)?, calls);
            let text = load_told(&rt, alloc, &mut source, roots, first)?;
            let answer = if failing < reads {
                "read fault"
            } else {
                wanted
            };
            assert!(rt; text.as_str() == answer, "{failing}: {text}");
        }
    }
    Ok(())
}

/// A module that imports others, by their numbers.
fn importing(alloc: Global, others: Range<u32>) -> Result<Vec<u8>, AllocError> {
    let mut text = String::from_str(alloc, "mdl 1.6;\n")?;
    for other in others {
        let import = format!(in alloc; "import ::m{}::*;\n", other)?;
        text.push_str(&import)?;
    }
    Vec::from_slice(alloc, text.as_bytes())
}

#[test]
fn longest_text(rt: HostRuntime) -> Result<(), Fail> {
    let alloc = rt.alloc();
    for (length, wanted) in [(4_194_304, "ok ::m"), (4_194_305, "too long ::m")] {
        let mut text = vec![in alloc; b' '; length]?;
        text[..8].copy_from_slice(b"mdl 1.6;");
        let mut files = Vec::new(alloc);
        files.push((String::from_str(alloc, "r/m.mdl")?, text))?;
        let mut source = SteadySource::new(files);
        let told = load_told(&rt, alloc, &mut source, "r", "::m")?;
        assert!(rt; told.as_str() == wanted, "{told}");
    }
    Ok(())
}

#[test]
fn most_modules(rt: HostRuntime) -> Result<(), Fail> {
    let alloc = rt.alloc();
    // a module that imports 4,096 others, whose texts are short
    let mut files = Vec::new(alloc);
    files.push((
        String::from_str(alloc, "r/m.mdl")?,
        importing(alloc, 0..4096)?,
    ))?;
    for number in 0..4096 {
        let path = format!(in alloc; "r/m{}.mdl", number)?;
        files.push((path, importing(alloc, 0..0)?))?;
    }
    let mut source = SteadySource::new(files);
    let told = load_told(&rt, alloc, &mut source, "r", "::m")?;
    assert!(rt; told.as_str() == "too many", "{told}");
    Ok(())
}
