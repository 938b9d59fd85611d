use crate::{
    FileSource, MemorySink, MemorySource, Place, Read, Sink, Source, StdSink, SteadySink,
    SteadySource, WriteFault, Wrote, place_of, write_whole,
};
use std::alloc::{AllocError, Global};
use std::fs;
use std::test::Fail;

// The bytes that were found, or the answer's name.
fn told(answer: &Read) -> &[u8] {
    match answer {
        Read::Found(bytes) => bytes.list(),
        Read::Absent => b"absent",
        Read::TooLong => b"too long",
        Read::Failed => b"failed",
        Read::OutOfMemory => b"out of memory",
    }
}

fn file(alloc: Global, path: &str, text: &str) -> Result<(String, Vec<u8>), AllocError> {
    let path = String::from_str(alloc, path)?;
    let bytes = Vec::from_slice(alloc, text.as_bytes())?;
    Ok((path, bytes))
}

fn files(alloc: Global) -> Result<Vec<(String, Vec<u8>)>, AllocError> {
    let mut files = Vec::new(alloc);
    files.push(file(alloc, "a.mdl", "abc")?)?;
    files.push(file(alloc, "a.mdl", "later")?)?;
    files.push(file(alloc, "empty.mdl", "")?)?;
    Ok(files)
}

#[test]
fn reads_files_in_memory(rt: HostRuntime) -> Result<(), Fail> {
    let alloc = rt.alloc();
    let mut failing = MemorySource::new(files(alloc)?, vec![in alloc; 1]?);
    let mut steady = SteadySource::new(files(alloc)?);
    let rows = [
        ("a.mdl", 3, "abc", "abc"),
        ("a.mdl", 3, "failed", "abc"),
        ("a.mdl", 4, "abc", "abc"),
        ("a.mdl", 2, "too long", "too long"),
        ("b.mdl", 9, "absent", "absent"),
        ("empty.mdl", 0, "", ""),
    ];
    for (path, most, want, want_steady) in rows {
        let answer = failing.read(alloc, path, most);
        assert_eq!(rt;
            told(&answer),
            want.as_bytes(),
            "{path} of at most {most} bytes"
        );
        let answer = steady.read(alloc, path, most);
        assert_eq!(rt; told(&answer), want_steady.as_bytes(), "steady {path}");
    }
    Ok(())
}

#[test]
fn writes_into_memory(rt: HostRuntime) -> Result<(), Fail> {
    let alloc = rt.alloc();
    let mut sink = MemorySink::new(alloc, 10, 3, vec![in alloc; 1]?)?;
    let rows = [
        ("abcdef", Err(WriteFault { gone: 3 }), "abc"),
        ("defghi", Ok(()), "abcdefghi"),
        ("jk", Err(WriteFault { gone: 1 }), "abcdefghij"),
        ("k", Err(WriteFault { gone: 0 }), "abcdefghij"),
        ("", Ok(()), "abcdefghij"),
    ];
    for (text, want, taken) in rows {
        assert_eq!(rt; write_whole(&mut sink, text.as_bytes()), want, "{text}");
        assert_eq!(rt; sink.taken(), taken.as_bytes(), "after {text}");
    }
    let mut single = MemorySink::new(alloc, 9, 1, Vec::new(alloc))?;
    assert_eq!(rt; write_whole(&mut single, b"single"), Ok(()));
    assert_eq!(rt; single.taken(), b"single".as_slice());
    let mut steady = SteadySink::new(alloc, 5)?;
    assert_eq!(rt; write_whole(&mut steady, b"whole"), Ok(()));
    assert_eq!(rt; write_whole(&mut steady, b"!"), Err(WriteFault { gone: 0 }));
    assert_eq!(rt; steady.taken(), b"whole".as_slice());
    Ok(())
}

#[test]
fn reads_files_of_the_system(rt: HostRuntime) -> Result<(), Fail> {
    let alloc = rt.alloc();
    fs::write(&rt, "some.mdl", "mdl 1.6;\n")?;
    let mut source = FileSource::new(&rt);
    let rows = [
        ("some.mdl", 9, "mdl 1.6;\n"),
        ("some.mdl", 8, "too long"),
        ("none.mdl", 9, "absent"),
        ("some.mdl/none.mdl", 9, "absent"),
        (".", 9, "failed"),
        ("some.mdl", usize::MAX, "mdl 1.6;\n"),
    ];
    for (path, most, want) in rows {
        let answer = source.read(alloc, path, most);
        assert_eq!(rt;
            told(&answer),
            want.as_bytes(),
            "{path} of at most {most} bytes"
        );
    }
    Ok(())
}

#[test]
fn writes_to_streams(rt: HostRuntime) -> Result<(), Fail> {
    let mut room = [0u8; 3];
    let mut sink = StdSink::new(&mut room[..]);
    assert_eq!(rt;
        write_whole(&mut sink, b"abcd"),
        Err(WriteFault { gone: 3 })
    );
    let mut errors = StdSink::new(rt.stderr());
    assert_eq!(rt; errors.write(b""), Wrote::Took(0));
    Ok(())
}

// The place of the end of a text.
fn end_of(text: &str) -> Option<Place> {
    if text.len() > 4_194_304 {
        return None;
    }
    Some(place_of(text.as_bytes(), text.len()))
}

#[test]
fn places_are_lines_and_columns(rt: HostRuntime) {
    let cases: [(&str, u32, u32); 9] = [
        ("", 1, 1),
        ("\u{feff}", 1, 2),
        ("\u{feff}ab", 1, 4),
        ("ab\n", 2, 1),
        ("ab\né", 2, 2),
        ("ab\né\u{10348}", 2, 3),
        ("ab\né\u{10348}c\r", 2, 5),
        ("ab\né\u{10348}c\r\n", 3, 1),
        ("ab\r\n\n", 3, 1),
    ];
    for (text, line, column) in cases {
        assert_eq!(rt; end_of(text), Some(Place { line, column }));
    }
}
