ghost use Rattle.std.specs.Prelude.{◌≡◌};
ghost use Rattle.mdl_syntax.specs.Trees.{tree_of};
ghost use Rattle.mdl_syntax.specs.Heights.{height};

use crate::write::push_tree;
use crate::{
    Argument, Expr, Freq, Ident, LetInit, Lit, Name, NameForm, Size, Span, TypeTree,
    places_change_no_word, write_expr,
};
use case_table::{Seq, Text};
use mdl_lexer::{Kind, mark, reserved};
use std::alloc::{AllocError, Global};
use std::fmt::Write;
use std::process::Abort;
use std::test::Fail;

pub(crate) const SPAN: Span = Span { at: 0, end: 0 };

pub(crate) fn ident(alloc: Global, text: &str) -> Result<Ident, AllocError> {
    let text = Text::copy(alloc, text)?;
    Ok(Ident { text, span: SPAN })
}

pub(crate) fn name(alloc: Global, absolute: bool, parts: &[&str]) -> Result<Name, AllocError> {
    let mut idents = Vec::new(alloc);
    for part in parts {
        let ident = ident(alloc, part)?;
        idents.push(ident)?;
    }
    let parts = Seq::of(idents);
    Ok(Name {
        form: NameForm::Parts { absolute, parts },
        span: SPAN,
    })
}

pub(crate) fn float() -> Name {
    Name {
        form: NameForm::Word(reserved::FLOAT),
        span: SPAN,
    }
}

fn literal(lit: Lit) -> Expr
    ensures { height (tree_of result) ≡ 1 }
{
    Expr::Lit { lit, span: SPAN }
}

fn named(name: Name) -> Expr {
    Expr::Name { name, span: SPAN }
}

pub(crate) fn variable(alloc: Global, text: &str) -> Result<Expr, AllocError> {
    let name = name(alloc, false, &[text])?;
    Ok(named(name))
}

fn boxed(alloc: Global, text: &str) -> Result<Box<Expr>, AllocError> {
    let tree = variable(alloc, text)?;
    let tree = Box::new(alloc, tree)?;
    Ok(tree)
}

pub(crate) fn argument(
    alloc: Global,
    name: Option<Ident>,
    value: &str,
) -> Result<Argument, AllocError> {
    let value = variable(alloc, value)?;
    Ok(Argument {
        name,
        value,
        span: SPAN,
    })
}

fn initializer(
    alloc: Global,
    freq: Option<Freq>,
    size: Size,
    name: &str,
    value: &str,
) -> Result<LetInit, AllocError> {
    let name = ident(alloc, name)?;
    let value = variable(alloc, value)?;
    let ty = TypeTree {
        name: float(),
        size,
        span: SPAN,
    };
    Ok(LetInit {
        freq,
        ty,
        name,
        value,
        span: SPAN,
    })
}

fn parenthesized(alloc: Global) -> Result<Expr, AllocError> {
    let inner = boxed(alloc, "a")?;
    Ok(Expr::Paren { inner, span: SPAN })
}

fn negated(alloc: Global) -> Result<Expr, AllocError> {
    let arg = boxed(alloc, "a")?;
    Ok(Expr::Unary {
        op: mark::MINUS,
        arg,
        span: SPAN,
    })
}

fn sum(alloc: Global) -> Result<Expr, AllocError> {
    let (left, right) = (boxed(alloc, "a")?, boxed(alloc, "b")?);
    Ok(Expr::Binary {
        op: mark::PLUS,
        left,
        right,
        span: SPAN,
    })
}

fn conditional(alloc: Global) -> Result<Expr, AllocError> {
    let (test, yes, no) = (boxed(alloc, "a")?, boxed(alloc, "b")?, boxed(alloc, "c")?);
    Ok(Expr::Cond {
        test,
        yes,
        no,
        span: SPAN,
    })
}

fn indexed(alloc: Global) -> Result<Expr, AllocError> {
    let (of, index) = (boxed(alloc, "a")?, boxed(alloc, "b")?);
    Ok(Expr::Index {
        of,
        index,
        span: SPAN,
    })
}

fn field(alloc: Global) -> Result<Expr, AllocError> {
    let (of, field) = (boxed(alloc, "a")?, ident(alloc, "b")?);
    Ok(Expr::Field {
        of,
        field,
        span: SPAN,
    })
}

fn call(alloc: Global) -> Result<Expr, AllocError> {
    let name = name(alloc, false, &["f"])?;
    let label = ident(alloc, "x")?;
    let args = vec![in alloc;
        argument(alloc, None, "a")?,
        argument(alloc, Some(label), "b")?,
    ]?;
    Ok(Expr::Call {
        name,
        args: Seq::of(args),
        span: SPAN,
    })
}

fn with_size(alloc: Global) -> Result<Expr, AllocError> {
    let args = vec![in alloc; variable(alloc, "a")?, variable(alloc, "b")?]?;
    Ok(Expr::Array {
        name: float(),
        size: Some(2),
        args: Seq::of(args),
        span: SPAN,
    })
}

fn with_no_size(alloc: Global) -> Result<Expr, AllocError> {
    let args = Seq::of(Vec::new(alloc));
    Ok(Expr::Array {
        name: float(),
        size: None,
        args,
        span: SPAN,
    })
}

fn braced(alloc: Global) -> Result<Expr, AllocError> {
    let first = initializer(alloc, Some(Freq::Uniform), Size::Sized(3), "x", "a")?;
    let deferred = Size::Deferred(ident(alloc, "n")?);
    let other = initializer(alloc, Some(Freq::Varying), deferred, "y", "b")?;
    let inits = Seq::of(vec![in alloc; first, other]?);
    let body = boxed(alloc, "x")?;
    Ok(Expr::Let {
        braces: true,
        inits,
        body,
        span: SPAN,
    })
}

fn unbraced(alloc: Global) -> Result<Expr, AllocError> {
    let one = initializer(alloc, None, Size::One, "x", "a")?;
    let inits = Seq::of(vec![in alloc; one]?);
    let body = boxed(alloc, "x")?;
    Ok(Expr::Let {
        braces: false,
        inits,
        body,
        span: SPAN,
    })
}

// The words in short.
pub(crate) fn told(alloc: Global, kinds: &[Kind]) -> Result<String, Fail> {
    let mut told = String::new(alloc);
    for kind in kinds {
        match kind {
            Kind::Word(text) => write!(told, " {}", text.as_str())?,
            Kind::Reserved(number) => write!(told, " r{number}")?,
            Kind::Mark(number) => write!(told, " m{number}")?,
            Kind::Int(value) => write!(told, " i{value}")?,
            Kind::Real {
                text,
                double: false,
            } => write!(told, " f{}", text.as_str())?,
            Kind::Real { text, double: true } => write!(told, " d{}", text.as_str())?,
            Kind::Str(text) => write!(told, " '{}'", text.as_str())?,
        }
    }
    Ok(told)
}

fn writes(rt: &impl Abort, alloc: Global, tree: Expr, expected: &str) -> Result<(), Fail> {
    let mut kinds = Vec::new(alloc);
    push_tree(alloc, &mut kinds, &tree)?;
    assert_eq!(rt; told(alloc, &kinds)?.trim_start(), expected);
    Ok(())
}

// Names of one letter are variables, and a number behind `r` or `m` is that of a reserved word or a mark.
#[test]
fn each_form_writes_its_words(rt: HostRuntime) -> Result<(), Fail> {
    let alloc = rt.alloc();
    writes(&rt, alloc, literal(Lit::Bool(true)), "r41")?;
    writes(&rt, alloc, literal(Lit::Bool(false)), "r15")?;
    writes(&rt, alloc, literal(Lit::Int(7)), "i7")?;
    let text = Text::copy(alloc, "1.5")?;
    writes(
        &rt,
        alloc,
        literal(Lit::Real {
            text,
            double: false,
        }),
        "f1.5",
    )?;
    let text = Text::copy(alloc, ".5e2")?;
    writes(
        &rt,
        alloc,
        literal(Lit::Real { text, double: true }),
        "d.5e2",
    )?;
    let text = Text::copy(alloc, "a b")?;
    writes(&rt, alloc, literal(Lit::Str(text)), "'a b'")?;
    writes(
        &rt,
        alloc,
        named(name(alloc, false, &["a", "b"])?),
        "a m214 b",
    )?;
    writes(
        &rt,
        alloc,
        named(name(alloc, true, &["a", "b"])?),
        "m214 a m214 b",
    )?;
    writes(&rt, alloc, named(float()), "r16")?;
    writes(&rt, alloc, parenthesized(alloc)?, "m205 a m206")?;
    writes(&rt, alloc, negated(alloc)?, "m210 a")?;
    writes(&rt, alloc, sum(alloc)?, "a m208 b")?;
    writes(&rt, alloc, conditional(alloc)?, "a m225 b m213 c")?;
    writes(&rt, alloc, indexed(alloc)?, "a m226 b m227")?;
    writes(&rt, alloc, field(alloc)?, "a m211 b")?;
    writes(&rt, alloc, call(alloc)?, "f m205 a m209 x m213 b m206")?;
    writes(
        &rt,
        alloc,
        with_size(alloc)?,
        "r16 m226 i2 m227 m205 a m209 b m206",
    )?;
    writes(&rt, alloc, with_no_size(alloc)?, "r16 m226 m227 m205 m206")?;
    let expected = "r30 m229 r42 r16 m226 i3 m227 x m219 a m215 \
        r44 r16 m226 m216 n m221 m227 y m219 b m215 m232 r25 x";
    writes(&rt, alloc, braced(alloc)?, expected)?;
    writes(&rt, alloc, unbraced(alloc)?, "r30 r16 x m219 a m215 r25 x")?;
    Ok(())
}

#[test]
fn a_literal_writes_one_word(rt: HostRuntime) -> Result<(), Fail> {
    let alloc = rt.alloc();
    places_change_no_word();
    let kinds = write_expr(alloc, &literal(Lit::Int(7)))?;
    assert_eq!(rt; told(alloc, &kinds)?.trim_start(), "i7");
    Ok(())
}
