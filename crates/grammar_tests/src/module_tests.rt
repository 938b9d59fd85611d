use crate::expression_tests::{tell, tell_arguments, tell_name, tell_span, tell_type};
use case_table::Seq;
use mdl_grammar::{
    ParseFault, before_a_module_fault, one_module, one_module_reading, parse_module,
    what_a_module_writes_is_read,
};
use mdl_lexer::{Token, lex};
use mdl_syntax::{
    Anno, Decl, EnumItem, Expr, Freq, Ident, Import, Lead, Module, ModuleRef, Param, Span,
    write_tokens,
};
use std::alloc::Global;
use std::fmt::Write;
use std::process::Abort;
use std::test::Fail;

fn tell_ident(told: &mut String, ident: &Ident) -> Result<(), Fail> {
    write!(told, "{}", ident.text.as_str())?;
    tell_span(told, ident.span)
}

fn tell_module_name(told: &mut String, name: &ModuleRef) -> Result<(), Fail> {
    match name.lead {
        Lead::Bare => {}
        Lead::Absolute => write!(told, "::")?,
        Lead::Here => write!(told, ".::")?,
        Lead::Up(steps) => write!(told, "{steps}*..::")?,
    }
    for part in name.parts.list() {
        tell_ident(told, part)?;
        write!(told, " ")?;
    }
    tell_span(told, name.span)
}

fn tell_import(told: &mut String, import: &Import) -> Result<(), Fail> {
    match import {
        Import::Import { items, span } => {
            write!(told, "\nimport")?;
            for item in items.list() {
                write!(told, " (")?;
                tell_module_name(told, &item.module)?;
                match &item.name {
                    Some(name) => {
                        write!(told, " ")?;
                        tell_ident(told, name)?;
                    }
                    None => write!(told, " *")?,
                }
                write!(told, ")")?;
                tell_span(told, item.span)?;
            }
            write!(told, " ")?;
            tell_span(told, *span)
        }
        Import::Using {
            module: name,
            names,
            span,
        } => {
            write!(told, "\nusing ")?;
            tell_module_name(told, name)?;
            match names {
                Some(names) => {
                    for name in names.list() {
                        write!(told, " ")?;
                        tell_ident(told, name)?;
                    }
                }
                None => write!(told, " *")?,
            }
            write!(told, " ")?;
            tell_span(told, *span)
        }
    }
}

fn tell_annotations(told: &mut String, annotations: &Option<Seq<Anno>>) -> Result<(), Fail> {
    if let Some(annotations) = annotations {
        write!(told, " [[")?;
        for one in annotations.list() {
            write!(told, " (")?;
            tell_name(told, &one.name)?;
            tell_arguments(told, one.args.list())?;
            write!(told, ")")?;
            tell_span(told, one.span)?;
        }
        write!(told, " ]]")?;
    }
    Ok(())
}

fn tell_frequency(told: &mut String, frequency: Option<Freq>) -> Result<(), Fail> {
    match frequency {
        Some(Freq::Uniform) => write!(told, " uniform")?,
        Some(Freq::Varying) => write!(told, " varying")?,
        None => {}
    }
    Ok(())
}

fn tell_parameters(told: &mut String, parameters: &[Param]) -> Result<(), Fail> {
    for one in parameters {
        write!(told, " {{")?;
        tell_frequency(told, one.freq)?;
        write!(told, " ")?;
        tell_type(told, &one.ty)?;
        write!(told, " ")?;
        tell_ident(told, &one.name)?;
        tell_value(told, &one.default)?;
        tell_annotations(told, &one.annos)?;
        write!(told, " }}")?;
        tell_span(told, one.span)?;
    }
    Ok(())
}

fn tell_value(told: &mut String, value: &Option<Expr>) -> Result<(), Fail> {
    if let Some(value) = value {
        write!(told, " = ")?;
        tell(told, value)?;
    }
    Ok(())
}

fn tell_front(told: &mut String, word: &str, exported: bool, name: &Ident) -> Result<(), Fail> {
    let export = if exported { "export " } else { "" };
    write!(told, "\n{export}{word} ")?;
    tell_ident(told, name)
}

fn tell_enum_values(told: &mut String, values: &[EnumItem]) -> Result<(), Fail> {
    for one in values {
        write!(told, " {{ ")?;
        tell_ident(told, &one.name)?;
        if let Some(number) = one.number {
            write!(told, " = {number}")?;
        }
        tell_annotations(told, &one.annos)?;
        write!(told, " }}")?;
        tell_span(told, one.span)?;
    }
    Ok(())
}

fn tell_declaration(told: &mut String, one: &Decl) -> Result<(), Fail> {
    match one {
        Decl::Material {
            exported,
            name,
            params,
            annos,
            body,
            span,
        } => {
            tell_front(told, "material", *exported, name)?;
            tell_parameters(told, params.list())?;
            tell_annotations(told, annos)?;
            write!(told, " = ")?;
            tell(told, body)?;
            tell_end(told, *span)
        }
        Decl::Variant {
            exported,
            ty,
            name,
            annos,
            base,
            args,
            span,
        } => {
            tell_front(told, "variant", *exported, name)?;
            write!(told, " ")?;
            tell_type(told, ty)?;
            tell_annotations(told, annos)?;
            write!(told, " = ")?;
            tell_name(told, base)?;
            tell_arguments(told, args.list())?;
            tell_end(told, *span)
        }
        Decl::Function {
            exported,
            ty,
            name,
            params,
            freq,
            annos,
            body,
            span,
        } => {
            tell_front(told, "function", *exported, name)?;
            write!(told, " ")?;
            tell_type(told, ty)?;
            tell_parameters(told, params.list())?;
            tell_frequency(told, *freq)?;
            tell_annotations(told, annos)?;
            tell_value(told, body)?;
            tell_end(told, *span)
        }
        Decl::Struct {
            exported,
            name,
            annos,
            fields,
            span,
        } => {
            tell_front(told, "struct", *exported, name)?;
            tell_annotations(told, annos)?;
            tell_parameters(told, fields.list())?;
            tell_end(told, *span)
        }
        Decl::Enum {
            exported,
            name,
            annos,
            values,
            span,
        } => {
            tell_front(told, "enum", *exported, name)?;
            tell_annotations(told, annos)?;
            tell_enum_values(told, values.list())?;
            tell_end(told, *span)
        }
        Decl::Annotation {
            exported,
            name,
            params,
            annos,
            span,
        } => {
            tell_front(told, "annotation", *exported, name)?;
            tell_parameters(told, params.list())?;
            tell_annotations(told, annos)?;
            tell_end(told, *span)
        }
    }
}

fn tell_end(told: &mut String, span: Span) -> Result<(), Fail> {
    write!(told, " ")?;
    tell_span(told, span)
}

// A module in short, with all its places.
fn tell_module(told: &mut String, tree: &Module) -> Result<(), Fail> {
    write!(
        told,
        "mdl {}/{}",
        tree.version.text.as_str(),
        tree.version.double
    )?;
    tell_span(told, tree.version.span)?;
    for import in tree.imports.list() {
        tell_import(told, import)?;
    }
    tell_annotations(told, &tree.annos)?;
    for one in tree.decls.list() {
        tell_declaration(told, one)?;
    }
    write!(told, "\n")?;
    tell_span(told, tree.span)
}

fn tell_answer(alloc: Global, told: &mut String, tokens: &[Token]) -> Result<(), Fail> {
    match parse_module(alloc, tokens) {
        Ok(tree) => tell_module(told, &tree),
        Err(fault) => tell_fault(told, &fault),
    }
}

// What the text's tokens are read as.
fn told(rt: &impl Abort, alloc: Global, text: &str) -> Result<String, Fail> {
    let mut told = String::new(alloc);
    let bytes = text.as_bytes();
    assert!(rt; bytes.len() <= 4_194_304);
    match lex(alloc, bytes) {
        Ok(tokens) => tell_answer(alloc, &mut told, tokens.as_slice())?,
        Err(_) => write!(told, "no words")?,
    }
    Ok(told)
}

// What the words of the text's tree, at the places of its tokens, are read as.
fn told_again(rt: &impl Abort, alloc: Global, text: &str) -> Result<String, Fail> {
    let mut told = String::new(alloc);
    let bytes = text.as_bytes();
    assert!(rt; bytes.len() <= 4_194_304);
    let Ok(tokens) = lex(alloc, bytes) else {
        return Ok(told);
    };
    let Ok(tree) = parse_module(alloc, tokens.as_slice()) else {
        return Ok(told);
    };
    let kinds = write_tokens(alloc, &tree)?;
    assert_eq!(rt; kinds.len(), tokens.len());
    let mut again = Vec::new(alloc);
    for (kind, token) in kinds.into_iter().zip(tokens.iter()) {
        again.push(Token {
            kind,
            at: token.at,
            end: token.end,
        })?;
    }
    tell_answer(alloc, &mut told, again.as_slice())?;
    Ok(told)
}

fn tell_fault(told: &mut String, fault: &ParseFault) -> Result<(), Fail> {
    match fault {
        ParseFault::BadSyntax { declaration, at } => write!(told, "bad {declaration} {at}")?,
        ParseFault::TooDeep { at } => write!(told, "deep {at}")?,
        ParseFault::StatementBody { at } => write!(told, "statement {at}")?,
        ParseFault::LeftOut { at, word } => write!(told, "left out {at} {}", word.as_str())?,
        ParseFault::Version { at } => write!(told, "version {at}")?,
        ParseFault::OutOfMemory => write!(told, "out of memory")?,
    }
    Ok(())
}

// The fault of a text, or that it is read.
fn short(rt: &impl Abort, alloc: Global, text: &str) -> Result<String, Fail> {
    let mut told = String::new(alloc);
    let bytes = text.as_bytes();
    assert!(rt; bytes.len() <= 4_194_304);
    match lex(alloc, bytes) {
        Ok(tokens) => match parse_module(alloc, tokens.as_slice()) {
            Ok(_) => write!(told, "read")?,
            Err(fault) => tell_fault(&mut told, &fault)?,
        },
        Err(_) => write!(told, "no words")?,
    }
    Ok(told)
}

#[test]
fn faults_of_modules_have_their_places(rt: HostRuntime) -> Result<(), Fail> {
    let alloc = rt.alloc();
    one_module_reading();
    before_a_module_fault();
    let cases: [(&str, &str); 57] = [
        ("", "bad 0 0"),
        ("a", "bad 0 0"),
        ("mdl", "bad 0 1"),
        ("mdl 1;", "bad 0 1"),
        ("mdl 1.6", "bad 0 2"),
        ("mdl 1.6 a", "bad 0 2"),
        ("mdl 1.7;", "version 1"),
        ("mdl 1.6d;", "version 1"),
        ("mdl 1.60;", "version 1"),
        ("mdl 01.6;", "version 1"),
        ("mdl 1.7", "version 1"),
        ("while", "left out 0 while"),
        ("mdl while", "left out 1 while"),
        ("mdl 1.6 ++", "left out 2 ++"),
        ("mdl 1.6; a", "bad 3 4"),
        ("mdl 1.6; a;", "bad 3 4"),
        ("mdl 1.6; import", "bad 3 4"),
        ("mdl 1.6; import a;", "bad 3 5"),
        ("mdl 1.6; import ::a;", "bad 3 6"),
        ("mdl 1.6; import ::a::*", "bad 3 8"),
        ("mdl 1.6; import ::a::b,;", "bad 3 9"),
        ("mdl 1.6; import \"s\";", "left out 4 string-name"),
        ("mdl 1.6; using \"s\";", "left out 4 string-name"),
        ("mdl 1.6; using m import \"s\";", "left out 6 string-name"),
        ("mdl 1.6; import ::a::b, \"s\";", "bad 3 9"),
        ("mdl 1.6; export using", "left out 4 re-export"),
        ("mdl 1.6; using m = n;", "left out 5 alias"),
        ("mdl 1.6; using ::m = n;", "bad 3 6"),
        ("mdl 1.6; module [[]]; import ::a::b;", "bad 9 9"),
        ("mdl 1.6; float f(); import ::a::b;", "bad 8 8"),
        ("mdl 1.6; float f() {", "statement 7"),
        ("mdl 1.6; material m() {", "statement 7"),
        ("mdl 1.6; float f() uniform [[]] {", "statement 12"),
        ("mdl 1.6; float f( {", "bad 3 6"),
        ("mdl 1.6; float f {", "bad 3 5"),
        ("mdl 1.6; annotation f() {", "bad 3 7"),
        ("mdl 1.6; float f(*) {", "bad 3 8"),
        ("mdl 1.6; float f() = 1.0 {", "bad 3 9"),
        ("mdl 1.6; struct S { };", "read"),
        ("mdl 1.6; enum E { };", "bad 3 6"),
        ("mdl 1.6; enum E { a, };", "bad 3 8"),
        ("mdl 1.6; float f(float x) = x++;", "left out 11 ++"),
        ("mdl 1.6; float[<n>] f();", "left out 5 deferred-size"),
        ("mdl 1.6; float f(float[<n>] a);", "read"),
        ("mdl 1.6; annotation f(float[<n>] a);", "read"),
        (
            "mdl 1.6; float f(float[<n>] a) = 1.0;",
            "left out 8 deferred-size",
        ),
        ("mdl 1.6; float f(float[<n>] a", "bad 3 13"),
        ("mdl 1.6; float f(float[<n>] a) {", "statement 14"),
        (
            "mdl 1.6; struct S { float[<n>] a; };",
            "left out 8 deferred-size",
        ),
        (
            "mdl 1.6; a f(a[<n>] b = let a[<n>] d = 1; in 1) =",
            "left out 8 deferred-size",
        ),
        (
            "mdl 1.6; a f(a[<n>] b = let a[<n>] d = 1; in 1);",
            "left out 17 deferred-size",
        ),
        (
            "mdl 1.6; a f(a[<n>] b = let a[<n>] d = 1; in 1) {",
            "left out 17 deferred-size",
        ),
        (
            "mdl 1.6; a f(a[<n>] b = let a[<n>",
            "left out 17 deferred-size",
        ),
        ("mdl 1.6; a f(a[<n>] b); a g() = while", "left out 20 while"),
        ("mdl 1.6; a f(*) = 1;", "bad 3 9"),
        ("mdl 1.6; a f(*) = g(1) + 2;", "bad 3 13"),
        ("mdl 1.6; a f() = g[[1]];", "bad 3 10"),
    ];
    for (text, expected) in cases {
        let told = short(&rt, alloc, text)?;
        assert_eq!(rt; told.as_str(), expected);
    }
    Ok(())
}

#[test]
fn modules_have_their_trees_and_places(rt: HostRuntime) -> Result<(), Fail> {
    let alloc = rt.alloc();
    one_module();
    what_a_module_writes_is_read();
    let cases: [(&str, &[&str]); 14] = [
        ("mdl 1.6;", &["mdl 1.6/false@4-7", "@0-8"]),
        (
            "mdl 1.0; import ::a::b, .::c::*, ..::..::d::e, f::g;",
            &[
                "mdl 1.0/false@4-7",
                "import (::a@18-19 @16-19 b@21-22)@16-22 (.::c@27-28 @24-28 *)@24-31 (2*..::d@41-42 @33-42 e@44-45)@33-45 (f@47-48 @47-48 g@50-51)@47-51 @9-52",
                "@0-52",
            ],
        ),
        (
            "mdl 1.1; using ::h::i import j, k; using .::l import *; using ..::m import n; using o import p;",
            &[
                "mdl 1.1/false@4-7",
                "using ::h@17-18 i@20-21 @15-21 j@29-30 k@32-33 @9-34",
                "using .::l@44-45 @41-45 * @35-55",
                "using 1*..::m@66-67 @62-67 n@75-76 @56-77",
                "using o@84-85 @84-85 p@93-94 @78-95",
                "@0-95",
            ],
        ),
        (
            "mdl 1.6; module [[ ::anno::author(\"x\"), hidden() ]];",
            &[
                "mdl 1.6/false@4-7 [[ (::anno'21-25 author'27-33 @19-33 'x'@34-37@34-37)@19-38 (hidden'40-46 @40-46)@40-48 ]]",
                "@0-52",
            ],
        ),
        (
            "mdl 1.6; module [[ ]]; export enum E { a };",
            &[
                "mdl 1.6/false@4-7 [[ ]]",
                "export enum E@35-36 { a@39-40 }@39-40 @23-43",
                "@0-43",
            ],
        ),
        (
            "mdl 1.6; export material m(uniform float x = 1.0 [[ a() ]], ::t::T y) [[ b(1) ]] = f(x);",
            &[
                "mdl 1.6/false@4-7",
                "export material m@25-26 { uniform r16@35-40 @35-40 x@41-42 = 1.0/false@45-48 [[ (a'52-53 @52-53)@52-55 ]] }@27-58 { ::t'62-63 T'65-66 @60-66 @60-66 y@67-68 }@60-68 [[ (b'73-74 @73-74 1@75-76@75-76)@73-77 ]] = (c f'83-84 @83-84 x'85-86 @85-86@85-86@85-86)@83-87 @9-88",
                "@0-88",
            ],
        ),
        (
            "mdl 1.6; material v(*) [[ a() ]] = ::n::m(x: 1); color[2] w(*) = n(1); material[2] n() uniform = e;",
            &[
                "mdl 1.6/false@4-7",
                "variant v@18-19 r32@9-17 @9-17 [[ (a'26-27 @26-27)@26-29 ]] = ::n'37-38 m'40-41 @35-41 x:@42-431@45-46@42-46 @9-48",
                "variant w@58-59 r7@49-54[2]@49-57 = n'65-66 @65-66 1@67-68@67-68 @49-70",
                "function n@83-84 r32@71-79[2]@71-82 uniform = e'97-98 @97-98@97-98 @71-99",
                "@0-99",
            ],
        ),
        (
            "mdl 1.6; float f(int i, varying float[3] g = h[1]) uniform [[ a() ]] = i + 1; export color c();",
            &[
                "mdl 1.6/false@4-7",
                "function f@15-16 r16@9-14 @9-14 { r26@17-20 @17-20 i@21-22 }@17-22 { varying r16@32-37[3]@32-40 g@41-42 = (i h'45-46 @45-46@45-46 1@47-48)@45-49 }@24-49 uniform [[ (a'62-63 @62-63)@62-65 ]] = (b208 i'71-72 @71-72@71-72 1@75-76)@71-76 @9-77",
                "export function c@91-92 r7@85-90 @85-90 @78-95",
                "@0-95",
            ],
        ),
        (
            "mdl 1.6; export struct S [[ a() ]] { float x = 1.0 [[ b() ]]; uniform ::m::T[2] y; }; struct T { };",
            &[
                "mdl 1.6/false@4-7",
                "export struct S@23-24 [[ (a'28-29 @28-29)@28-31 ]] { r16@37-42 @37-42 x@43-44 = 1.0/false@47-50 [[ (b'54-55 @54-55)@54-57 ]] }@37-60 { uniform ::m'72-73 T'75-76 @70-76[2]@70-79 y@80-81 }@62-81 @9-85",
                "struct T@93-94 @86-99",
                "@0-99",
            ],
        ),
        (
            "mdl 1.6; enum E [[ a() ]] { p = 1, q, r = 0x10 [[ b() ]] };",
            &[
                "mdl 1.6/false@4-7",
                "enum E@14-15 [[ (a'19-20 @19-20)@19-22 ]] { p@28-29 = 1 }@28-33 { q@35-36 }@35-36 { r@38-39 = 16 [[ (b'50-51 @50-51)@50-53 ]] }@38-56 @9-59",
                "@0-59",
            ],
        ),
        (
            "mdl 1.6; export annotation a(float x = 0.5, float[<n>] y) [[ b() ]]; annotation c();",
            &[
                "mdl 1.6/false@4-7",
                "export annotation a@27-28 { r16@29-34 @29-34 x@35-36 = 0.5/false@39-42 }@29-42 { r16@44-49[<n>]@44-54 y@55-56 }@44-56 [[ (b'61-62 @61-62)@61-64 ]] @9-68",
                "annotation c@80-81 @69-84",
                "@0-84",
            ],
        ),
        (
            "mdl 1.6; float f(float x = a[1][[ b() ]], T y[[ ]]);",
            &[
                "mdl 1.6/false@4-7",
                "function f@15-16 r16@9-14 @9-14 { r16@17-22 @17-22 x@23-24 = (i a'27-28 @27-28@27-28 1@29-30)@27-31 [[ (b'34-35 @34-35)@34-37 ]] }@17-40 { T'42-43 @42-43 @42-43 y@44-45 [[ ]] }@42-50 @9-52",
                "@0-52",
            ],
        ),
        (
            "mdl 1.6; float f(float[<n>] x);",
            &[
                "mdl 1.6/false@4-7",
                "function f@15-16 r16@9-14 @9-14 { r16@17-22[<n>]@17-27 x@28-29 }@17-29 @9-31",
                "@0-31",
            ],
        ),
        (
            "mdl 1.6; material m() = material(surface: a ? b : c); float g() = let { float x = 1.0; } in x;",
            &[
                "mdl 1.6/false@4-7",
                "material m@18-19 = (c r32@24-32 surface:@33-40(? a'42-43 @42-43@42-43 b'46-47 @46-47@46-47 c'50-51 @50-51@50-51)@42-51@33-51)@24-52 @9-53",
                "function g@60-61 r16@54-59 @54-59 = (l true r16@72-77 @72-77 x=@78-791.0/false@82-85@72-86 x'92-93 @92-93@92-93)@66-93 @54-94",
                "@0-94",
            ],
        ),
    ];
    for (text, lines) in cases {
        let mut expected = String::new(alloc);
        for (number, line) in lines.iter().enumerate() {
            if number > 0 {
                expected.push_str("\n")?;
            }
            expected.push_str(line)?;
        }
        let told = told(&rt, alloc, text)?;
        assert_eq!(rt; told.as_str(), expected.as_str());
        let again = told_again(&rt, alloc, text)?;
        assert_eq!(rt; again.as_str(), expected.as_str());
    }
    Ok(())
}
