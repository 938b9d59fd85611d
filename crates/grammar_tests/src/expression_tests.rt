use mdl_grammar::{
    ParseFault, before_a_fault, one_expression, one_reading, parse_expr, what_is_written_is_read,
};
use mdl_lexer::{LexFault, Token, lex};
use mdl_syntax::{
    Argument, Expr, Freq, LetInit, Lit, Name, NameForm, Size, Span, TypeTree, write_expr,
};
use std::alloc::Global;
use std::fmt::Write;
use std::process::Abort;
use std::test::Fail;

pub fn tell_span(told: &mut String, span: Span) -> Result<(), Fail> {
    write!(told, "@{}-{}", span.at, span.end)?;
    Ok(())
}

pub fn tell_name(told: &mut String, name: &Name) -> Result<(), Fail> {
    match &name.form {
        NameForm::Parts { absolute, parts } => {
            if *absolute {
                write!(told, "::")?;
            }
            for part in parts.list() {
                write!(
                    told,
                    "{}'{}-{} ",
                    part.text.as_str(),
                    part.span.at,
                    part.span.end
                )?;
            }
        }
        NameForm::Word(number) => write!(told, "r{number}")?,
    }
    tell_span(told, name.span)
}

fn tell_literal(told: &mut String, lit: &Lit) -> Result<(), Fail> {
    match lit {
        Lit::Bool(value) => write!(told, "{value}")?,
        Lit::Int(value) => write!(told, "{value}")?,
        Lit::Real { text, double } => write!(told, "{}/{double}", text.as_str())?,
        Lit::Str(text) => write!(told, "'{}'", text.as_str())?,
    }
    Ok(())
}

pub fn tell_type(told: &mut String, ty: &TypeTree) -> Result<(), Fail> {
    tell_name(told, &ty.name)?;
    match &ty.size {
        Size::One => write!(told, " ")?,
        Size::Sized(size) => write!(told, "[{size}]")?,
        Size::Deferred(name) => write!(told, "[<{}>]", name.text.as_str())?,
    }
    tell_span(told, ty.span)
}

// A tree in short, with all its places.
#[cycle(tell)]
pub fn tell(told: &mut String, tree: &Expr) -> Result<(), Fail> {
    match tree {
        Expr::Lit { lit, span } => {
            tell_literal(told, lit)?;
            tell_span(told, *span)
        }
        Expr::Name { name, span } => {
            tell_name(told, name)?;
            tell_span(told, *span)
        }
        Expr::Paren { inner, span } => {
            write!(told, "(p ")?;
            tell(told, inner)?;
            write!(told, ")")?;
            tell_span(told, *span)
        }
        Expr::Unary { op, arg, span } => {
            write!(told, "(u{op} ")?;
            tell(told, arg)?;
            write!(told, ")")?;
            tell_span(told, *span)
        }
        Expr::Binary {
            op,
            left,
            right,
            span,
        } => {
            write!(told, "(b{op} ")?;
            tell(told, left)?;
            write!(told, " ")?;
            tell(told, right)?;
            write!(told, ")")?;
            tell_span(told, *span)
        }
        Expr::Cond {
            test,
            yes,
            no,
            span,
        } => {
            write!(told, "(? ")?;
            tell(told, test)?;
            write!(told, " ")?;
            tell(told, yes)?;
            write!(told, " ")?;
            tell(told, no)?;
            write!(told, ")")?;
            tell_span(told, *span)
        }
        Expr::Index { of, index, span } => {
            write!(told, "(i ")?;
            tell(told, of)?;
            write!(told, " ")?;
            tell(told, index)?;
            write!(told, ")")?;
            tell_span(told, *span)
        }
        Expr::Field { of, field, span } => {
            write!(told, "(f ")?;
            tell(told, of)?;
            write!(told, " {}", field.text.as_str())?;
            tell_span(told, field.span)?;
            write!(told, ")")?;
            tell_span(told, *span)
        }
        Expr::Call { name, args, span } => {
            write!(told, "(c ")?;
            tell_name(told, name)?;
            tell_arguments(told, args.list())?;
            write!(told, ")")?;
            tell_span(told, *span)
        }
        Expr::Array {
            name,
            size,
            args,
            span,
        } => {
            write!(told, "(a ")?;
            tell_name(told, name)?;
            if let Some(size) = size {
                write!(told, "[{size}]")?;
            }
            for element in args.list() {
                write!(told, " ")?;
                tell(told, element)?;
            }
            write!(told, ")")?;
            tell_span(told, *span)
        }
        Expr::Let {
            braces,
            inits,
            body,
            span,
        } => {
            write!(told, "(l {braces}")?;
            tell_initializers(told, inits.list())?;
            write!(told, " ")?;
            tell(told, body)?;
            write!(told, ")")?;
            tell_span(told, *span)
        }
    }
}

#[cycle(tell)]
pub fn tell_arguments(told: &mut String, arguments: &[Argument]) -> Result<(), Fail> {
    for argument in arguments {
        write!(told, " ")?;
        if let Some(name) = &argument.name {
            write!(told, "{}:", name.text.as_str())?;
            tell_span(told, name.span)?;
        }
        tell(told, &argument.value)?;
        tell_span(told, argument.span)?;
    }
    Ok(())
}

#[cycle(tell)]
fn tell_initializers(told: &mut String, initializers: &[LetInit]) -> Result<(), Fail> {
    for initializer in initializers {
        write!(told, " ")?;
        match initializer.freq {
            Some(Freq::Uniform) => write!(told, "u ")?,
            Some(Freq::Varying) => write!(told, "v ")?,
            None => {}
        }
        tell_type(told, &initializer.ty)?;
        write!(told, " {}=", initializer.name.text.as_str())?;
        tell_span(told, initializer.name.span)?;
        tell(told, &initializer.value)?;
        tell_span(told, initializer.span)?;
    }
    Ok(())
}

// What the text's tokens are read as.
fn told(rt: &impl Abort, alloc: Global, text: &str) -> Result<String, Fail> {
    let mut told = String::new(alloc);
    let bytes = text.as_bytes();
    assert!(rt; bytes.len() <= 4_194_304);
    match lex(alloc, bytes) {
        Ok(tokens) => tell_answer(alloc, &mut told, tokens.as_slice())?,
        Err(_) => write!(told, "no words")?,
    }
    Ok(told)
}

fn tell_answer(alloc: Global, told: &mut String, tokens: &[Token]) -> Result<(), Fail> {
    match parse_expr(alloc, tokens) {
        Ok(tree) => tell(told, &tree)?,
        Err(ParseFault::BadSyntax { declaration, at }) => write!(told, "bad {declaration} {at}")?,
        Err(ParseFault::TooDeep { at }) => write!(told, "deep {at}")?,
        Err(ParseFault::StatementBody { at }) => write!(told, "statement {at}")?,
        Err(ParseFault::Version { at }) => write!(told, "version {at}")?,
        Err(ParseFault::LeftOut { at, word }) => write!(told, "left out {at} {}", word.as_str())?,
        Err(ParseFault::OutOfMemory) => write!(told, "out of memory")?,
    }
    Ok(())
}

fn repeated(alloc: Global, parts: &[(&str, usize)]) -> Result<String, Fail> {
    let mut text = String::new(alloc);
    for (part, count) in parts {
        for _ in 0..*count {
            text.push_str(part)?;
        }
    }
    Ok(text)
}

#[test]
fn expressions_have_their_trees_and_places(rt: HostRuntime) -> Result<(), Fail> {
    let alloc = rt.alloc();
    let cases: [(&str, &str); 30] = [
        (
            "a - b - c",
            "(b210 (b210 a'0-1 @0-1@0-1 b'4-5 @4-5@4-5)@0-5 c'8-9 @8-9@8-9)@0-9",
        ),
        (
            "1 - (2 - x)",
            "(b210 1@0-1 (p (b210 2@5-6 x'9-10 @9-10@9-10)@5-10)@4-11)@0-11",
        ),
        (
            "-a.b[0]",
            "(u210 (i (f a'1-2 @1-2@1-2 b@3-4)@1-4 0@5-6)@1-7)@0-7",
        ),
        (
            "- -~!a",
            "(u210 (u210 (u233 (u200 a'5-6 @5-6@5-6)@4-6)@3-6)@2-6)@0-6",
        ),
        (
            "a ? b : c ? d : e",
            "(? a'0-1 @0-1@0-1 b'4-5 @4-5@4-5 (? c'8-9 @8-9@8-9 d'12-13 @12-13@12-13 e'16-17 @16-17@16-17)@8-17)@0-17",
        ),
        (
            "a || b && c | d ^ e & f == g",
            "(b231 a'0-1 @0-1@0-1 (b204 b'5-6 @5-6@5-6 (b230 c'10-11 @10-11@10-11 (b228 d'14-15 @14-15@14-15 (b203 e'18-19 @18-19@18-19 (b220 f'22-23 @22-23@22-23 g'27-28 @27-28@27-28)@22-28)@18-28)@14-28)@10-28)@5-28)@0-28",
        ),
        (
            "a < b << c + d * e",
            "(b216 a'0-1 @0-1@0-1 (b217 b'4-5 @4-5@4-5 (b208 c'9-10 @9-10@9-10 (b207 d'13-14 @13-14@13-14 e'17-18 @17-18@17-18)@13-18)@9-18)@4-18)@0-18",
        ),
        (
            "a * b + c",
            "(b208 (b207 a'0-1 @0-1@0-1 b'4-5 @4-5@4-5)@0-5 c'8-9 @8-9@8-9)@0-9",
        ),
        (
            "::m::n(1, b, c: 2.5, d: \"s\")",
            "(c ::m'2-3 n'5-6 @0-6 1@7-8@7-8 b'10-11 @10-11@10-11@10-11 c:@13-142.5/false@16-19@13-19 d:@21-22's'@24-27@21-27)@0-28",
        ),
        ("f()", "(c f'0-1 @0-1)@0-3"),
        (
            "color(0.5d).r",
            "(f (c r7@0-5 0.5/true@6-10@6-10)@0-11 r@12-13)@0-13",
        ),
        (
            "int[3](1, 2, 3)",
            "(a r26@0-3[3] 1@7-8 2@10-11 3@13-14)@0-15",
        ),
        ("float[]()", "(a r16@0-5)@0-9"),
        ("a[3]", "(i a'0-1 @0-1@0-1 3@2-3)@0-4"),
        (
            "a[3][4].b",
            "(f (i (i a'0-1 @0-1@0-1 3@2-3)@0-4 4@5-6)@0-7 b@8-9)@0-9",
        ),
        (
            "a[b + 1]",
            "(i a'0-1 @0-1@0-1 (b208 b'2-3 @2-3@2-3 1@6-7)@2-7)@0-8",
        ),
        (
            "a[3](b).c",
            "(f (a a'0-1 @0-1[3] b'5-6 @5-6@5-6)@0-7 c@8-9)@0-9",
        ),
        ("f(a)", "(c f'0-1 @0-1 a'2-3 @2-3@2-3@2-3)@0-4"),
        (
            "f(a.b, c ? d : e)",
            "(c f'0-1 @0-1 (f a'2-3 @2-3@2-3 b@4-5)@2-5@2-5 (? c'7-8 @7-8@7-8 d'11-12 @11-12@11-12 e'15-16 @15-16@15-16)@7-16@7-16)@0-17",
        ),
        (
            "f(a: a, b: b)",
            "(c f'0-1 @0-1 a:@2-3a'5-6 @5-6@5-6@2-6 b:@8-9b'11-12 @11-12@11-12@8-12)@0-13",
        ),
        (
            "let float x = 1; in x",
            "(l false r16@4-9 @4-9 x=@10-111@14-15@4-16 x'20-21 @20-21@20-21)@0-21",
        ),
        (
            "let { uniform float[2] x = y; ::m::T z = true; varying a b = false; } in x + z",
            "(l true u r16@14-19[2]@14-22 x=@23-24y'27-28 @27-28@27-28@6-29 ::m'32-33 T'35-36 @30-36 @30-36 z=@37-38true@41-45@30-46 v a'55-56 @55-56 @55-56 b=@57-58false@61-66@47-67 (b208 x'73-74 @73-74@73-74 z'77-78 @77-78@77-78)@73-78)@0-78",
        ),
        (
            "a ? let int x = 1; in x : b",
            "(? a'0-1 @0-1@0-1 (l false r26@8-11 @8-11 x=@12-131@16-17@8-18 x'22-23 @22-23@22-23)@4-23 b'26-27 @26-27@26-27)@0-27",
        ),
        (
            "(let int x = 1; in x) + 1",
            "(b208 (p (l false r26@5-8 @5-8 x=@9-101@13-14@5-15 x'19-20 @19-20@19-20)@1-20)@0-21 1@24-25)@0-25",
        ),
        ("int", "r26@0-3@0-3"),
        ("a::b", "a'0-1 b'3-4 @0-4@0-4"),
        (
            "f(a::b, int(1))",
            "(c f'0-1 @0-1 a'2-3 b'5-6 @2-6@2-6@2-6 (c r26@8-11 1@12-13@12-13)@8-14@8-14)@0-15",
        ),
        (
            "f(let int i = 0; in i, b)",
            "(c f'0-1 @0-1 (l false r26@6-9 @6-9 i=@10-110@14-15@6-16 i'20-21 @20-21@20-21)@2-21@2-21 b'23-24 @23-24@23-24@23-24)@0-25",
        ),
        (
            "a[int(1)]",
            "(i a'0-1 @0-1@0-1 (c r26@2-5 1@6-7@6-7)@2-8)@0-9",
        ),
        ("- f[2](1)", "(u210 (a f'2-3 @2-3[2] 1@7-8)@2-9)@0-9"),
    ];
    one_expression();
    for (text, expected) in cases {
        let told = told(&rt, alloc, text)?;
        assert_eq!(rt; told.as_str(), expected);
        let again = told_again(&rt, alloc, text)?;
        assert_eq!(rt; again.as_str(), expected);
    }
    Ok(())
}

#[test]
fn faults_have_their_places(rt: HostRuntime) -> Result<(), Fail> {
    let alloc = rt.alloc();
    one_reading();
    before_a_fault();
    let cases: [(&str, &str); 38] = [
        ("", "bad 0 0"),
        ("a b", "bad 0 1"),
        ("a)", "bad 0 1"),
        ("a, b", "bad 0 1"),
        ("a = b", "bad 0 1"),
        ("a : b", "bad 0 1"),
        ("-", "bad 0 1"),
        ("(a", "bad 0 2"),
        ("[", "bad 0 0"),
        ("a[", "bad 0 2"),
        ("a[]", "bad 0 3"),
        ("a[3", "bad 0 3"),
        ("a[b](c)", "bad 0 4"),
        ("::", "bad 0 1"),
        ("a::", "bad 0 2"),
        ("a.1", "bad 0 1"),
        ("a ? b", "bad 0 3"),
        ("a ? b : c : d", "bad 0 5"),
        ("f(a ? b : c: d)", "bad 0 7"),
        ("f(,)", "bad 0 2"),
        ("f(a,)", "bad 0 4"),
        ("f(a: 1, 2)", "bad 0 6"),
        ("f(a: 1, b)", "bad 0 7"),
        ("1.0 + let { float x = 1.0; } in x", "bad 0 2"),
        ("let", "bad 0 1"),
        ("let { } in x", "bad 0 2"),
        ("let int x = 1 in x", "bad 0 5"),
        ("let int x = 1; int y = 2; in x", "bad 0 6"),
        ("a[<b", "bad 0 2"),
        ("mdl", "bad 0 0"),
        ("x++", "left out 1 ++"),
        ("a b ++", "bad 0 1"),
        ("f(if)", "left out 2 if"),
        ("float2x3(1)", "left out 0 float2x3"),
        ("a >>>= b", "left out 1 >>>="),
        ("let int[<n>] a = b; in a", "left out 3 deferred-size"),
        ("let int[<", "left out 3 deferred-size"),
        ("let int[>", "bad 0 3"),
    ];
    for (text, expected) in cases {
        let told = told(&rt, alloc, text)?;
        assert_eq!(rt; told.as_str(), expected);
    }
    Ok(())
}

// What the words of the text's tree, at the places of its tokens, are read as.
fn told_again(rt: &impl Abort, alloc: Global, text: &str) -> Result<String, Fail> {
    let mut told = String::new(alloc);
    let bytes = text.as_bytes();
    assert!(rt; bytes.len() <= 4_194_304);
    let Ok(tokens) = lex(alloc, bytes) else {
        return Ok(told);
    };
    let Ok(tree) = parse_expr(alloc, tokens.as_slice()) else {
        return Ok(told);
    };
    let kinds = write_expr(alloc, &tree)?;
    assert_eq!(rt; kinds.len(), tokens.len());
    let mut again = Vec::new(alloc);
    for (kind, token) in kinds.into_iter().zip(tokens.iter()) {
        again.push(Token {
            kind,
            at: token.at,
            end: token.end,
        })?;
    }
    tell_answer(alloc, &mut told, again.as_slice())?;
    Ok(told)
}

#[test]
fn heights_end_at_400(rt: HostRuntime) -> Result<(), Fail> {
    let alloc = rt.alloc();
    what_is_written_is_read();
    let cases: [(&[(&str, usize)], &str); 11] = [
        (&[("(", 399), ("a", 1), (")", 399)], "read"),
        (&[("(", 400), ("a", 1), (")", 400)], "deep 399"),
        (&[("(", 100_000)], "deep 399"),
        (&[("(", 399), ("++", 1)], "left out 399 ++"),
        (&[("(", 400), ("++", 1)], "deep 399"),
        (&[("- ", 399), ("f[2]()", 1)], "read"),
        (&[("- ", 399), ("f[2]", 1)], "deep 403"),
        (&[("- ", 399), ("f[2](1)", 1)], "deep 404"),
        (&[("a", 1), (" + a", 399)], "read"),
        (&[("a", 1), (" + a", 400)], "deep 799"),
        (&[("a", 1), (".b", 399), ("[0]", 1)], "deep 799"),
    ];
    for (parts, expected) in cases {
        let text = repeated(alloc, parts)?;
        let told = short(&rt, alloc, text.as_str())?;
        assert_eq!(rt; told.as_str(), expected);
    }
    Ok(())
}

// The fault of a text, or that it is read.
fn short(rt: &impl Abort, alloc: Global, text: &str) -> Result<String, Fail> {
    let mut told = String::new(alloc);
    let bytes = text.as_bytes();
    assert!(rt; bytes.len() <= 4_194_304);
    match lex(alloc, bytes) {
        Ok(tokens) => match parse_expr(alloc, tokens.as_slice()) {
            Ok(_) => write!(told, "read")?,
            Err(_) => tell_answer(alloc, &mut told, tokens.as_slice())?,
        },
        Err(_) => write!(told, "no words")?,
    }
    Ok(told)
}
