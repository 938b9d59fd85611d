use crate::{Kind, LexFault, Token, is_identifier, lex, one_lexing, one_step};
use std::alloc::Global;
use std::fmt::Write;
use std::process::Abort;
use std::test::Fail;

// The tokens in short, each with its place; or the fault.
fn told(rt: &impl Abort, alloc: Global, text: &[u8]) -> Result<String, Fail> {
    let mut told = String::new(alloc);
    assert!(rt; text.len() <= 4_194_304);
    match lex(alloc, text) {
        Ok(tokens) => {
            for token in &tokens {
                match &token.kind {
                    Kind::Word(text) => write!(told, "{} ", text.as_str())?,
                    Kind::Reserved(number) => write!(told, "r{number} ")?,
                    Kind::Mark(number) => write!(told, "m{number} ")?,
                    Kind::Int(value) => write!(told, "i{value} ")?,
                    Kind::Real {
                        text,
                        double: false,
                    } => write!(told, "f{} ", text.as_str())?,
                    Kind::Real { text, double: true } => write!(told, "d{} ", text.as_str())?,
                    Kind::Str(text) => write!(told, "'{}' ", text.as_str())?,
                }
                write!(told, "{}-{};", token.at, token.end)?;
            }
        }
        Err(LexFault::NotUtf8 { at }) => write!(told, "not UTF-8 {at}")?,
        Err(LexFault::BadToken { at }) => write!(told, "bad {at}")?,
        Err(LexFault::IntRange { at }) => write!(told, "range {at}")?,
        Err(LexFault::OutOfMemory) => write!(told, "out of memory")?,
    }
    Ok(told)
}

#[test]
fn words_have_their_kinds_and_places(rt: HostRuntime) -> Result<(), Fail> {
    let alloc = rt.alloc();
    one_step();
    one_lexing();
    let cases: [(&str, &str); 40] = [
        ("", ""),
        ("\u{feff} \t\r\n\x0c", ""),
        ("a\u{feff}", "bad 1"),
        ("_a b2 \u{e9}\u{301}", "_a 0-2;b2 3-5;\u{e9}\u{301} 6-10;"),
        ("bool boolean", "r1 0-4;boolean 5-12;"),
        (
            "double4x4 float2x2 float2x3",
            "r115 0-9;r18 10-18;r117 19-27;",
        ),
        ("// a\n/* * */b//", "b 12-13;"),
        ("/*/ */a", "a 6-7;"),
        ("/* a", "m212 0-1;m207 1-2;a 3-4;"),
        (">>>= >>> a", "m310 0-4;m224 5-8;a 9-10;"),
        ("[[", "m226 0-1;m226 1-2;"),
        (
            "0 7 10 017 0x1F 0XaB",
            "i0 0-1;i7 2-3;i10 4-6;i15 7-10;i31 11-15;i171 16-20;",
        ),
        (
            "4294967295 037777777777 0xffffffff",
            "i4294967295 0-10;i4294967295 11-23;i4294967295 24-34;",
        ),
        ("4294967296", "range 0"),
        ("a 040000000000", "range 2"),
        ("0x100000000", "range 0"),
        ("4294967296x", "bad 0"),
        ("4294967296 $", "range 0"),
        ("$ 4294967296", "bad 0"),
        ("08", "bad 0"),
        ("0778", "bad 0"),
        ("0xg", "bad 0"),
        ("0x", "bad 0"),
        ("08.5 08e1", "f08.5 0-4;f08e1 5-9;"),
        (
            "1. .5 1.5 1e5 1.e+5 .5E-07",
            "f1. 0-2;f.5 3-5;f1.5 6-9;f1e5 10-13;f1.e+5 14-19;f.5E-07 20-26;",
        ),
        (
            "1.0f 1.0F 1.0d 1e1D",
            "f1.0 0-4;f1.0 5-9;d1.0 10-14;d1e1 15-19;",
        ),
        ("1f", "bad 0"),
        ("1.x", "bad 0"),
        ("1.5.5", "bad 0"),
        ("1...5", "f1. 0-2;m211 2-3;f.5 3-5;"),
        ("1.0f.5", "bad 0"),
        ("1e", "bad 0"),
        ("1e+", "bad 0"),
        (".x", "m211 0-1;x 1-2;"),
        (
            "\"a\u{e9}\\n\\x41\\101\\200\\1778\\\\\"",
            "'a\u{e9}\nAA\x100\x7f8\\' 0-26;",
        ),
        ("\"a\nb\"", "bad 0"),
        ("a \"b", "bad 2"),
        ("\"\\q\"", "bad 0"),
        ("\"\\x80\"", "bad 0"),
        ("\"\\8\"", "bad 0"),
    ];
    for (text, expected) in cases {
        assert_eq!(rt; told(&rt, alloc, text.as_bytes())?.as_str(), expected);
    }
    assert_eq!(rt; told(&rt, alloc, b"a\n\xff")?.as_str(), "not UTF-8 2");
    assert_eq!(rt; told(&rt, alloc, b"$\xc3")?.as_str(), "not UTF-8 1");
    Ok(())
}

#[test]
fn identifiers_are_names_that_are_not_reserved(rt: HostRuntime) {
    let cases: [(&str, bool); 8] = [
        ("", false),
        ("a", true),
        ("_", true),
        ("1", false),
        ("a b", false),
        ("\u{e9}\u{301}", true),
        ("material", false),
        ("materials", true),
    ];
    for (text, expected) in cases {
        assert_eq!(rt; is_identifier(text), expected, "{text}");
    }
}
