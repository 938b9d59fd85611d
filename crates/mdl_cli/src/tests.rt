use crate::run::{one_outcome, run};
use crate::status::Status;
use io_edge::{MemorySink, MemorySource, NoGate, SteadySink, SteadySource};
use std::alloc::Global;
use std::process::Abort;
use std::test::Fail;
use std::thread::Threads;

const FIRST: &str = "mdl 1.6;
export material m() = material(
    false,
    material_surface(bsdf(), material_emission(edf(), color(0.0), intensity_radiant_exitance)),
    material_surface(bsdf(), material_emission(edf(), color(0.0), intensity_radiant_exitance)),
    color(1.0),
    material_volume(vdf(), color(0.0), color(0.0)),
    material_geometry(float3(0.0), 1.0, state_normal()),
    hair_bsdf());
";

const GRAPH: &str = "mdlgraph 1
instance ::m::m
nodes 17
0 - bool false
1 - bsdf()
2 - edf()
3 - float 0.0
4 3 color(float)
5 - enum intensity_mode intensity_radiant_exitance
6 2,4,5 material_emission(edf,color,intensity_mode)
7 1,6 material_surface(bsdf,material_emission)
8 - float 1.0
9 8 color(float)
10 - vdf()
11 10,4,4 material_volume(vdf,color,color)
12 3 float3(float)
13 - state_normal():~float3
14 12,8,13 material_geometry(float3,float,float3)
15 - hair_bsdf()
16 0,7,7,9,11,14,15 material(!bool,material_surface,material_surface,!color,material_volume,material_geometry,hair_bsdf)
end
";

fn file(alloc: Global, text: &str) -> Result<Vec<(String, Vec<u8>)>, Fail> {
    let path = String::from_str(alloc, "r/m.mdl")?;
    let bytes = Vec::from_slice(alloc, text.as_bytes())?;
    let mut files = Vec::new(alloc);
    files.push((path, bytes))?;
    Ok(files)
}

fn words(alloc: Global, list: &[&str]) -> Result<Vec<String>, Fail> {
    let mut words = Vec::new(alloc);
    for word in list {
        words.push(String::from_str(alloc, word)?)?;
    }
    Ok(words)
}

#[test]
fn answers_and_refusals(rt: HostRuntime) -> Result<(), Fail> {
    let alloc = rt.alloc();
    let own = ["instance", "r", "::m::m"];
    let cases: [(&[&str], &str, Status, &str, &str); 18] = [
        (&own, FIRST, Status::Done, GRAPH, ""),
        (&own, "mdl 1.6;", Status::Refused, "", "error 9 NotBuilt\n"),
        (
            &own,
            "mdl 1.6;\n4294967296 $\n",
            Status::Refused,
            "",
            "error 16 IntRange ::m 2:1\n",
        ),
        (
            &own,
            "mdl 1.6;\n\u{e9} \u{e9} $ 4294967296",
            Status::Refused,
            "",
            "error 15 BadToken ::m 2:5\n",
        ),
        (
            &own,
            "mdl 1.6;\nexport material m() = \"ab",
            Status::Refused,
            "",
            "error 15 BadToken ::m 2:23\n",
        ),
        (
            &["instance", "r", "::m::\u{e9}\u{301}"],
            FIRST,
            Status::Refused,
            "",
            "error 53 MaterialUnknown request\n",
        ),
        (
            &["instance", "r", "::m::\u{301}"],
            FIRST,
            Status::Usage,
            "",
            "error 1 Usage\n",
        ),
        (
            &["instance", "r", "::m::n"],
            FIRST,
            Status::Refused,
            "",
            "error 53 MaterialUnknown request\n",
        ),
        (
            &["instance", "r", "::n::m"],
            FIRST,
            Status::Refused,
            "",
            "error 10 Absent ::n\n",
        ),
        (
            &["instance", "-", "::a::m::m"],
            FIRST,
            Status::Refused,
            "",
            "error 10 Absent ::a::m\n",
        ),
        (
            &["instance", "r", "::m"],
            FIRST,
            Status::Usage,
            "",
            "error 1 Usage\n",
        ),
        (
            &["instance", "r", "::m::bsdf"],
            FIRST,
            Status::Usage,
            "",
            "error 1 Usage\n",
        ),
        (
            &["instance", "s:r", "::m::m", "--workers=8"],
            FIRST,
            Status::Done,
            GRAPH,
            "",
        ),
        (
            &["instance", "r", "::m::m", "--workers", "0"],
            FIRST,
            Status::Usage,
            "",
            "error 1 Usage\n",
        ),
        (&["check", "r", "::m"], FIRST, Status::Done, "ok 1\n", ""),
        (
            &["check", "r", "::df", "--workers", "2", "::m"],
            FIRST,
            Status::Done,
            "ok 2\n",
            "",
        ),
        (&["check", "r"], FIRST, Status::Usage, "", "error 1 Usage\n"),
        (&[], FIRST, Status::Usage, "", "error 1 Usage\n"),
    ];
    for (list, text, status, graph, line) in cases {
        let words = words(alloc, list)?;
        let mut source = SteadySource::new(file(alloc, text)?);
        let mut out = SteadySink::new(alloc, 4096)?;
        let mut diag = SteadySink::new(alloc, 64)?;
        let got = run(
            &rt,
            alloc,
            &words,
            &mut source,
            &mut out,
            &mut diag,
            &NoGate,
        );
        assert_eq!(rt; got, status, "{line}");
        assert_eq!(rt; out.taken(), graph.as_bytes());
        assert_eq!(rt; diag.taken(), line.as_bytes());
    }
    one_outcome();
    Ok(())
}

/// Files as `path=text` with `|` between and `@` for a line feed.
fn files_of(alloc: Global, written: &str) -> Result<Vec<(String, Vec<u8>)>, Fail> {
    let mut files = Vec::new(alloc);
    for file in written.split("|") {
        if let Some((path, text)) = file.split_once("=") {
            let text = text.replace(alloc, "@", "\n")?;
            let bytes = Vec::from_slice(alloc, text.as_bytes())?;
            files.push((String::from_str(alloc, path)?, bytes))?;
        }
    }
    Ok(files)
}

#[test]
fn packages(rt: HostRuntime) -> Result<(), Fail> {
    let alloc = rt.alloc();
    // files, the words behind the roots, the answer, the line
    let cases: [(&str, &[&str], &str, &str); 15] = [
        (
            "r/shop/paint.mdl=mdl 1.6;@import ::df::*;@import ::state::*;@using ::anno import *;@",
            &["check", "r", "::shop::paint"],
            "ok 4\n",
            "",
        ),
        (
            "",
            &["check", "r", "::none"],
            "",
            "error 10 Absent ::none\n",
        ),
        (
            "r/m.mdl=mdl 1.6;@import ..::x::*;@",
            &["check", "r", "::m"],
            "",
            "error 10 Absent ::x from ::m 2:8\n",
        ),
        (
            "r/a.mdl=mdl 1.6;@import ::b::*;@|r/b.mdl=mdl 1.6;@import ::a::*;@",
            &["check", "r", "::a"],
            "",
            "error 13 Cycle ::a ::b\n",
        ),
        (
            "r/m.mdl=mdl 1.6;@import ::q::*, ::z::*, ::p::*;@|r/q.mdl=mdl 1.6;@$@|r/p.mdl=mdl 1.6;@$@",
            &["check", "r", "::m", "--workers", "8"],
            "",
            "error 15 BadToken ::q 2:1\n",
        ),
        (
            "r/p/m.mdl=mdl 1.6;@import x::*;@|s/p/x.mdl=mdl 1.7;@",
            &["check", "r:s", "::p::m"],
            "",
            "error 21 Version ::p::x 1:5\n",
        ),
        (
            "r/m.mdl=mdl 1.6;@import ::df::*;@",
            &["instance", "r", "::m::m"],
            "",
            "error 9 NotBuilt\n",
        ),
        (
            "r/m.mdl=mdl 1.6;@import ::none::*;@",
            &["instance", "r", "::m::m"],
            "",
            "error 10 Absent ::none from ::m 2:8\n",
        ),
        ("", &["instance", "r", "::df::m"], "", "error 9 NotBuilt\n"),
        (
            "r/m.mdl=mdl 1.6;@using ::b import x;@|r/b.mdl=mdl 1.6;@export float x() = 1.0;@",
            &["check", "r", "::m"],
            "ok 2\n",
            "",
        ),
        (
            "r/m.mdl=mdl 1.6;@float f() = 1.0;@float f() = 2.0;@",
            &["check", "r", "::m"],
            "",
            "error 30 Twice ::m 3:7\n",
        ),
        (
            "r/m.mdl=mdl 1.6;@import ::b::x;@|r/b.mdl=mdl 1.6;@",
            &["check", "r", "::m"],
            "",
            "error 31 Unknown ::m 2:13\n",
        ),
        (
            "r/m.mdl=mdl 1.6;@import ::b::*;@|r/b.mdl=mdl 1.6;@using ::c import x;@|r/c.mdl=mdl 1.6;@float x() = 1.0;@",
            &["check", "r", "::m"],
            "",
            "error 32 NotExported ::b 2:18\n",
        ),
        (
            "r/m.mdl=mdl 1.6;@using ::b import x;@struct x { float a; };@|r/b.mdl=mdl 1.6;@export float x() = 1.0;@",
            &["check", "r", "::m"],
            "",
            "error 33 Clash ::m 2:18\n",
        ),
        (
            "r/m.mdl=mdl 1.6;@export material m(float a, float a) = material();@",
            &["instance", "r", "::m::m"],
            "",
            "error 30 Twice ::m 2:34\n",
        ),
    ];
    for (files, list, text, line) in cases {
        let words = words(alloc, list)?;
        let mut source = SteadySource::new(files_of(alloc, files)?);
        let mut out = SteadySink::new(alloc, 64)?;
        let mut diag = SteadySink::new(alloc, 64)?;
        let got = run(
            &rt,
            alloc,
            &words,
            &mut source,
            &mut out,
            &mut diag,
            &NoGate,
        );
        let status = if line.is_empty() {
            Status::Done
        } else {
            Status::Refused
        };
        assert_eq!(rt; got, status, "{line}");
        assert_eq!(rt; out.taken(), text.as_bytes());
        assert_eq!(rt; diag.taken(), line.as_bytes());
    }
    Ok(())
}

// The line of a refusal of a module's text.
fn refusal(rt: &(impl Abort + Threads + Sync), alloc: Global, text: &str) -> Result<String, Fail> {
    let files = file(alloc, text)?;
    refusal_of(rt, alloc, files)
}

// The line of a refusal of these files.
fn refusal_of(
    rt: &(impl Abort + Threads + Sync),
    alloc: Global,
    files: Vec<(String, Vec<u8>)>,
) -> Result<String, Fail> {
    let words = words(alloc, &["instance", "r", "::m::m"])?;
    let mut source = SteadySource::new(files);
    let mut out = SteadySink::new(alloc, 4096)?;
    let mut diag = SteadySink::new(alloc, 64)?;
    let got = run(rt, alloc, &words, &mut source, &mut out, &mut diag, &NoGate);
    assert_eq!(rt; got, Status::Refused);
    assert!(rt; out.taken().is_empty());
    let mut line = String::new(alloc);
    line.push_str(str::from_utf8(diag.taken()).unwrap_or("no text"))?;
    Ok(line)
}

#[test]
fn faults_of_modules_have_their_lines(rt: HostRuntime) -> Result<(), Fail> {
    let alloc = rt.alloc();
    let cases: [(&str, &str); 17] = [
        ("", "error 17 BadSyntax ::m 1:1\n"),
        ("mdl 1.60;", "error 21 Version ::m 1:5\n"),
        ("mdl 1.7;\nexport material", "error 21 Version ::m 1:5\n"),
        (
            "mdl 1.6;\nfloat f(float x) = x++;\n",
            "error 20 LeftOut ::m 2:21 ++\n",
        ),
        (
            "mdl 1.6;\nexport using",
            "error 20 LeftOut ::m 2:8 re-export\n",
        ),
        (
            "mdl 1.6;\nfloat \u{e9}[<n>]",
            "error 17 BadSyntax ::m 2:8\n",
        ),
        (
            "mdl 1.6;\n\u{e9}[<n>] f();",
            "error 20 LeftOut ::m 2:3 deferred-size\n",
        ),
        (
            "mdl 1.6;\nexport material m( = 1;",
            "error 17 BadSyntax ::m 2:20\n",
        ),
        ("mdl 1.6;\nfloat f() = 1.0", "error 17 BadSyntax ::m 2:16\n"),
        (
            "mdl 1.6;\nfloat f() = 1.0\n",
            "error 17 BadSyntax ::m 3:1\n",
        ),
        (
            "mdl 1.6;\nfloat g() = f(a: 1, 2);",
            "error 17 BadSyntax ::m 2:21\n",
        ),
        (
            "mdl 1.6;\nfloat g() = f(a: 1, b);",
            "error 17 BadSyntax ::m 2:22\n",
        ),
        (
            "mdl 1.6;\nfloat f() = 1.0 + let { float x = 1.0; } in x;",
            "error 17 BadSyntax ::m 2:19\n",
        ),
        (
            "mdl 1.6;\nfloat f() { return 1.0; }",
            "error 19 StatementBody ::m 2:11\n",
        ),
        ("mdl 1.6;\nfloat f();", "error 9 NotBuilt\n"),
        ("mdl 1.6;\nexport material m() = 1;", "error 9 NotBuilt\n"),
        ("mdl 1.6;\nfloat f() = 1 $", "error 15 BadToken ::m 2:15\n"),
    ];
    for (text, expected) in cases {
        let line = refusal(&rt, alloc, text)?;
        assert_eq!(rt; line.as_str(), expected);
    }
    let heights: [(usize, &str); 2] = [
        (399, "error 9 NotBuilt\n"),
        (400, "error 18 TooDeep ::m 2:419\n"),
    ];
    for (count, expected) in heights {
        let mut text = String::from_str(alloc, "mdl 1.6;\nexport float f() = ")?;
        for _ in 0..count {
            text.push('(')?;
        }
        text.push_str("1.0")?;
        for _ in 0..count {
            text.push(')')?;
        }
        text.push(';')?;
        let line = refusal(&rt, alloc, text.as_str())?;
        assert_eq!(rt; line.as_str(), expected);
    }
    Ok(())
}

fn contains(text: &[u8], part: &[u8]) -> bool {
    part.is_empty() || text.windows(part.len()).any(|front| front == part)
}

#[test]
fn reals_may_have_every_form_of_a_float(rt: HostRuntime) -> Result<(), Fail> {
    let alloc = rt.alloc();
    let cases: [(&str, Status, &str, &str); 5] = [
        (".5e-1f", Status::Done, "3 - float .5e-1\n", ""),
        ("08.", Status::Done, "3 - float 08.\n", ""),
        ("1e5F", Status::Done, "3 - float 1e5\n", ""),
        ("1e5d", Status::Refused, "", "error 9 NotBuilt\n"),
        ("08", Status::Refused, "", "error 15 BadToken ::m 4:61\n"),
    ];
    for (real, status, node, line) in cases {
        let text = FIRST.replace(alloc, "0.0", real)?;
        let words = words(alloc, &["instance", "r", "::m::m"])?;
        let mut source = SteadySource::new(file(alloc, text.as_str())?);
        let mut out = SteadySink::new(alloc, 4096)?;
        let mut diag = SteadySink::new(alloc, 64)?;
        let got = run(
            &rt,
            alloc,
            &words,
            &mut source,
            &mut out,
            &mut diag,
            &NoGate,
        );
        assert_eq!(rt; got, status, "{real}");
        assert_eq!(rt; diag.taken(), line.as_bytes());
        assert!(rt; contains(out.taken(), node.as_bytes()), "{node}");
    }
    Ok(())
}

#[test]
fn long_files(rt: HostRuntime) -> Result<(), Fail> {
    let alloc = rt.alloc();
    for (more, status, line) in [
        (0, Status::Done, ""),
        (1, Status::Refused, "error 11 TooLong ::m\n"),
    ] {
        let words = words(alloc, &["instance", "r", "::m::m"])?;
        let mut bytes = vec![in alloc; b' '; 4_194_304 + more]?;
        let text = FIRST.as_bytes();
        for i in 0..text.len() {
            bytes[i] = text[i];
        }
        let path = String::from_str(alloc, "r/m.mdl")?;
        let mut files = Vec::new(alloc);
        files.push((path, bytes))?;
        let mut source = SteadySource::new(files);
        let mut out = SteadySink::new(alloc, 4096)?;
        let mut diag = SteadySink::new(alloc, 64)?;
        let got = run(
            &rt,
            alloc,
            &words,
            &mut source,
            &mut out,
            &mut diag,
            &NoGate,
        );
        assert_eq!(rt; got, status);
        assert_eq!(rt; diag.taken(), line.as_bytes());
    }
    Ok(())
}

#[test]
fn bytes_that_are_no_text(rt: HostRuntime) -> Result<(), Fail> {
    let alloc = rt.alloc();
    let path = String::from_str(alloc, "r/m.mdl")?;
    let bytes = Vec::from_slice(alloc, b"mdl 1.6;\n \xff")?;
    let mut files = Vec::new(alloc);
    files.push((path, bytes))?;
    let line = refusal_of(&rt, alloc, files)?;
    assert_eq!(rt; line.as_str(), "error 14 NotUtf8 ::m 2:0\n");
    Ok(())
}

// The modules that are imported, and the one that imports them, are one more than may be loaded.
#[test]
fn too_many_modules(rt: HostRuntime) -> Result<(), Fail> {
    let alloc = rt.alloc();
    let mut text = String::from_str(alloc, "mdl 1.6;\n")?;
    let mut files = Vec::new(alloc);
    for number in 0..4096 {
        let import = format!(in alloc; "import ::n{}::*;\n", number)?;
        text.push_str(&import)?;
        let path = format!(in alloc; "r/n{}.mdl", number)?;
        let bytes = Vec::from_slice(alloc, b"mdl 1.6;\n")?;
        files.push((path, bytes))?;
    }
    let path = String::from_str(alloc, "r/m.mdl")?;
    let bytes = Vec::from_slice(alloc, text.as_bytes())?;
    files.push((path, bytes))?;
    let line = refusal_of(&rt, alloc, files)?;
    assert_eq!(rt; line.as_str(), "error 12 TooMany\n");
    Ok(())
}

#[test]
fn a_read_that_fails(rt: HostRuntime) -> Result<(), Fail> {
    let alloc = rt.alloc();
    let words = words(alloc, &["instance", "r", "::m::m"])?;
    let mut source = MemorySource::new(file(alloc, FIRST)?, vec![in alloc; 0]?);
    let mut out = SteadySink::new(alloc, 4096)?;
    let mut diag = SteadySink::new(alloc, 64)?;
    let first = run(
        &rt,
        alloc,
        &words,
        &mut source,
        &mut out,
        &mut diag,
        &NoGate,
    );
    assert_eq!(rt; first, Status::ReadFault);
    assert_eq!(rt; diag.taken(), b"error 2 ReadFault\n".as_slice());
    assert_eq!(rt; out.taken(), b"".as_slice());
    let second = run(
        &rt,
        alloc,
        &words,
        &mut source,
        &mut out,
        &mut diag,
        &NoGate,
    );
    assert_eq!(rt; second, Status::Done);
    assert_eq!(rt; out.taken(), GRAPH.as_bytes());
    Ok(())
}

// The graph's text has 577 bytes, so that six writes of at most 100 bytes take it.
#[test]
fn writes_that_fail(rt: HostRuntime) -> Result<(), Fail> {
    let alloc = rt.alloc();
    let graph = GRAPH.as_bytes();
    for k in 0..7u64 {
        let words = words(alloc, &["instance", "r", "::m::m"])?;
        let mut source = SteadySource::new(file(alloc, FIRST)?);
        let mut out = MemorySink::new(alloc, 4096, 100, vec![in alloc; k]?)?;
        let mut diag = SteadySink::new(alloc, 64)?;
        let got = run(
            &rt,
            alloc,
            &words,
            &mut source,
            &mut out,
            &mut diag,
            &NoGate,
        );
        let gone = (k as usize * 100).min(graph.len());
        assert_eq!(rt; out.taken(), &graph[..gone]);
        if k < 6 {
            assert_eq!(rt; got, Status::WriteFault);
            assert_eq!(rt; diag.taken(), b"error 3 WriteFault\n".as_slice());
        } else {
            assert_eq!(rt; got, Status::Done);
            assert_eq!(rt; diag.taken(), b"".as_slice());
        }
    }
    Ok(())
}

#[test]
fn room_that_runs_out(rt: HostRuntime) -> Result<(), Fail> {
    let alloc = rt.alloc();
    let graph = GRAPH.as_bytes();
    for (room, line_room) in [(0, 64), (1, 64), (576, 64), (576, 5)] {
        let words = words(alloc, &["instance", "r", "::m::m"])?;
        let mut source = SteadySource::new(file(alloc, FIRST)?);
        let mut out = SteadySink::new(alloc, room)?;
        let mut diag = SteadySink::new(alloc, line_room)?;
        let got = run(
            &rt,
            alloc,
            &words,
            &mut source,
            &mut out,
            &mut diag,
            &NoGate,
        );
        assert_eq!(rt; got, Status::WriteFault);
        assert!(rt; room <= graph.len());
        assert_eq!(rt; out.taken(), &graph[..room]);
        let line = b"error 3 WriteFault\n";
        assert_eq!(rt; diag.taken(), &line[..line_room.min(line.len())]);
    }
    let words = words(alloc, &[])?;
    let mut source = SteadySource::new(file(alloc, FIRST)?);
    let mut out = SteadySink::new(alloc, 0)?;
    let mut diag = MemorySink::new(alloc, 64, 100, vec![in alloc; 0]?)?;
    let got = run(
        &rt,
        alloc,
        &words,
        &mut source,
        &mut out,
        &mut diag,
        &NoGate,
    );
    assert_eq!(rt; got, Status::WriteFault);
    assert_eq!(rt; diag.taken(), b"".as_slice());
    Ok(())
}
