ghost use Rattle.std.specs.Prelude.{◌≡◌, ◌∷◌, [], ◌++◌, IfOk, OnOk};
ghost use Rattle.mdl_syntax.specs.Words as words;
ghost use Rattle.mdl_syntax.specs.Written.{number_words, label_words};
ghost use Rattle.mdl_lexer.specs.declared.token.Kind.TheVariants as kind;

use crate::expressions::Lit;
use crate::names::{Ident, Name, NameForm};
use crate::types::{Freq, Size, TypeTree};
use case_table::Text;
use mdl_lexer::{Kind, mark, reserved};
use std::alloc::{AllocError, Global};

/// Appends a mark.
pub fn push_mark(kinds: &mut Vec<Kind>, number: u16) -> Result<(), AllocError>
    ensures { OnOk result (kinds.new.items ≡ kinds.old.items ++ kind.Mark number ∷ []) }
{
    kinds.push(Kind::Mark(number))?;
    Ok(())
}

/// Appends a reserved word.
pub fn push_reserved(kinds: &mut Vec<Kind>, number: u16) -> Result<(), AllocError>
    ensures { OnOk result (kinds.new.items ≡ kinds.old.items ++ kind.Reserved number ∷ []) }
{
    kinds.push(Kind::Reserved(number))?;
    Ok(())
}

/// Appends an identifier.
pub fn push_ident(alloc: Global, kinds: &mut Vec<Kind>, ident: &Ident) -> Result<(), AllocError>
    ensures { OnOk result (kinds.new.items ≡ kinds.old.items ++ words.ident_word ident.now ∷ []) }
{
    let text = Text::copy(alloc, ident.text.as_str())?;
    kinds.push(Kind::Word(text))?;
    Ok(())
}

/// Appends a literal.
pub fn push_literal(alloc: Global, kinds: &mut Vec<Kind>, literal: &Lit) -> Result<(), AllocError>
    ensures { OnOk result (kinds.new.items ≡ kinds.old.items ++ words.literal_word literal.now ∷ []) }
{
    let kind = literal_kind(alloc, literal)?;
    kinds.push(kind)?;
    Ok(())
}

fn literal_kind(alloc: Global, literal: &Lit) -> Result<Kind, AllocError>
    ensures { IfOk result (λ kind. kind ≡ words.literal_word literal.now) }
{
    match literal {
        Lit::Bool(value) => Ok(Kind::Reserved(if *value {
            reserved::TRUE
        } else {
            reserved::FALSE
        })),
        Lit::Int(value) => Ok(Kind::Int(*value)),
        Lit::Real { text, double } => {
            let text = Text::copy(alloc, text.as_str())?;
            Ok(Kind::Real {
                text,
                double: *double,
            })
        }
        Lit::Str(text) => {
            let text = Text::copy(alloc, text.as_str())?;
            Ok(Kind::Str(text))
        }
    }
}

/// Appends a name.
pub fn push_name(alloc: Global, kinds: &mut Vec<Kind>, name: &Name) -> Result<(), AllocError>
    ensures { OnOk result (kinds.new.items ≡ kinds.old.items ++ words.name_words name.now) }
{
    match &name.form {
        NameForm::Parts { absolute, parts } => {
            if *absolute {
                push_mark(kinds, mark::DOUBLE_COLON)?;
            }
            push_parts(alloc, kinds, parts.list())
        }
        NameForm::Word(number) => push_reserved(kinds, *number),
    }
}

/// Appends the parts of a name, with `::` between them.
#[tactic(auto, using(crate::proofs::PieceLaws::piece_laws))]
pub fn push_parts(alloc: Global, kinds: &mut Vec<Kind>, parts: &[Ident]) -> Result<(), AllocError>
    ensures { OnOk result (kinds.new.items ≡ kinds.old.items ++ words.parts_words parts.now) }
{
    let Some((first, others)) = parts.split_first() else {
        return Ok(());
    };
    push_ident(alloc, kinds, first)?;
    for part in others {
        push_mark(kinds, mark::DOUBLE_COLON)?;
        push_ident(alloc, kinds, part)?;
    }
    Ok(())
}

/// Appends a type.
pub fn push_type(alloc: Global, kinds: &mut Vec<Kind>, ty: &TypeTree) -> Result<(), AllocError>
    ensures { OnOk result (kinds.new.items ≡ kinds.old.items ++ words.type_words ty.now) }
{
    push_name(alloc, kinds, &ty.name)?;
    push_size(alloc, kinds, &ty.size)
}

fn push_size(alloc: Global, kinds: &mut Vec<Kind>, size: &Size) -> Result<(), AllocError>
    ensures { OnOk result (kinds.new.items ≡ kinds.old.items ++ words.size_words size.now) }
{
    match size {
        Size::One => Ok(()),
        Size::Sized(number) => {
            push_mark(kinds, mark::OPEN_BRACKET)?;
            kinds.push(Kind::Int(*number))?;
            push_mark(kinds, mark::CLOSE_BRACKET)
        }
        Size::Deferred(name) => {
            push_mark(kinds, mark::OPEN_BRACKET)?;
            push_mark(kinds, mark::LESS)?;
            push_ident(alloc, kinds, name)?;
            push_mark(kinds, mark::GREATER)?;
            push_mark(kinds, mark::CLOSE_BRACKET)
        }
    }
}

/// Appends a frequency, if there is one.
pub fn push_frequency(kinds: &mut Vec<Kind>, frequency: Option<Freq>) -> Result<(), AllocError>
    ensures { OnOk result (kinds.new.items ≡ kinds.old.items ++ words.frequency_words frequency) }
{
    match frequency {
        None => Ok(()),
        Some(Freq::Uniform) => push_reserved(kinds, reserved::UNIFORM),
        Some(Freq::Varying) => push_reserved(kinds, reserved::VARYING),
    }
}

/// Appends the size of an array constructor, if it is written.
pub fn push_number(kinds: &mut Vec<Kind>, number: Option<u32>) -> Result<(), AllocError>
    ensures { OnOk result (kinds.new.items ≡ kinds.old.items ++ number_words number) }
{
    if let Some(number) = number {
        kinds.push(Kind::Int(number))?;
    }
    Ok(())
}

/// Appends an argument's name and `:`, if it has one.
pub fn push_label(
    alloc: Global,
    kinds: &mut Vec<Kind>,
    name: &Option<Ident>,
) -> Result<(), AllocError>
    ensures { OnOk result (kinds.new.items ≡ kinds.old.items ++ label_words name.now) }
{
    if let Some(name) = name {
        push_ident(alloc, kinds, name)?;
        push_mark(kinds, mark::COLON)?;
    }
    Ok(())
}
