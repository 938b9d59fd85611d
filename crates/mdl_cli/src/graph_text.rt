ghost use Rattle.std.specs.Prelude.{◌≡◌, ◌<◌, ◌++◌, codes, decimal, length, IfOk, OnOk};
ghost use Rattle.std.specs.Prelude.{false, if◌then◌else◌};
ghost use Rattle.std.specs.List.{flat_map};
ghost use Rattle.std.specs.Str.{bytes_eq};
ghost use Rattle.std.specs.Fmt.{digit_glyph};
ghost use Rattle.type_rules.specs.Texts as texts;
ghost use Rattle.type_rules.specs.Texts.{symbol_text, type_text, size_text, escaped, result_text};
ghost use Rattle.dag_store.specs.Unfolding.{terms_of, term_at, IsShared};
ghost use Rattle.mdl_cli.specs.GraphText.{instance_lines, node_line, node_lines};
ghost use Rattle.mdl_cli.specs.inside.GraphLines.{ids_text, line_text, head_text};

use case_table::OutOfMemory;
use dag_store::{NodeId, Store};
use itoa::Buffer;
use std::alloc::{AllocError, Global};
use type_rules::{Arg, Shape, Symbol, Ty};

/// The text of an instance of this name: one line for each node of a store.
pub fn write_instance(alloc: Global, name: &[u8], store: &Store) -> Result<Vec<u8>, OutOfMemory>
    ensures { IfOk result (λ text. text.items ≡ instance_lines name.now (terms_of store.now)) }
{
    let mut text = Vec::from_slice(alloc, b"mdlgraph 1\ninstance ")?;
    push_head(&mut text, name, store.len())?;
    push_nodes(&mut text, store)?;
    text.extend_from_slice(b"end\n")?;
    Ok(text)
}

/// Appends an instance's name, and how many lines it has.
fn push_head(text: &mut Vec<u8>, name: &[u8], count: usize) -> Result<(), AllocError>
    ensures { OnOk result (text.new.items ≡ text.old.items ++ head_text name.now count) }
{
    text.extend_from_slice(name)?;
    text.extend_from_slice(b"\nnodes ")?;
    push_number(text, count)?;
    text.push(b'\n')?;
    Ok(())
}

/// Appends the lines of all nodes.
fn push_nodes(text: &mut Vec<u8>, store: &Store) -> Result<(), AllocError>
    ensures { let all = terms_of store.now in
        OnOk result (text.new.items ≡ text.old.items ++ node_lines all 0 all) }
{
    let count = store.len() as u32;
    for id in 0..count {
        push_node(text, store, NodeId(id))?;
    }
    Ok(())
}

/// Appends the line of a node.
fn push_node(text: &mut Vec<u8>, store: &Store, id: NodeId) -> Result<(), AllocError>
    requires shared { IsShared store.now }
    requires within { id.0 < length store.now.nodes }
    ensures { let all = terms_of store.now in
        OnOk result (text.new.items ≡ text.old.items ++ node_line all id.0 (term_at all id.0)) }
{
    let node = store.get(id);
    let symbol = &store.symbols()[node.symbol as usize];
    push_line(text, id.0, node.kids.list(), symbol)?;
    Ok(())
}

/// Appends a line of an id, of kids' ids and a symbol.
fn push_line(text: &mut Vec<u8>, id: u32, kids: &[u32], symbol: &Symbol) -> Result<(), AllocError>
    ensures { OnOk result (text.new.items ≡ text.old.items ++ line_text id kids.now symbol.now) }
{
    push_number(text, id as usize)?;
    text.push(b' ')?;
    push_kids(text, kids)?;
    text.push(b' ')?;
    push_symbol(text, symbol)?;
    text.push(b'\n')?;
    Ok(())
}

/// Appends kids' ids with commas between them, or a dash where there are none.
fn push_kids(text: &mut Vec<u8>, kids: &[u32]) -> Result<(), AllocError>
    ensures { OnOk result (text.new.items ≡ text.old.items ++ ids_text kids.now) }
{
    let Some((first, others)) = kids.split_first() else {
        text.push(b'-')?;
        return Ok(());
    };
    push_number(text, *first as usize)?;
    for kid in others {
        text.push(b',')?;
        push_number(text, *kid as usize)?;
    }
    Ok(())
}

/// Appends a symbol.
fn push_symbol(text: &mut Vec<u8>, symbol: &Symbol) -> Result<(), AllocError>
    ensures { OnOk result (text.new.items ≡ text.old.items ++ symbol_text symbol.now) }
{
    match symbol {
        Symbol::Bool(value) => push_bool(text, *value),
        Symbol::Int(value) => push_prefixed_number(text, b"int ", *value),
        Symbol::Real {
            text: digits,
            double,
        } => push_real(text, digits.as_str().as_bytes(), *double),
        Symbol::Str(value) => push_string(text, value.as_str().as_bytes()),
        Symbol::EnumValue { ty, value } => {
            push_enum_value(text, ty.as_str().as_bytes(), value.as_str().as_bytes())
        }
        Symbol::Param { index, .. } => push_prefixed_number(text, b"param ", *index),
        Symbol::Op {
            name,
            args,
            result,
            varying,
        } => push_op(
            text,
            name.as_str().as_bytes(),
            args.list(),
            result,
            *varying,
        ),
    }
}

fn push_bool(text: &mut Vec<u8>, value: bool) -> Result<(), AllocError>
    ensures { let shown = if value then codes "true" else codes "false" in
        OnOk result (text.new.items ≡ text.old.items ++ (codes "bool " ++ shown)) }
{
    text.extend_from_slice(if value { b"bool true" } else { b"bool false" })?;
    Ok(())
}

fn push_prefixed_number(text: &mut Vec<u8>, prefix: &[u8], number: u32) -> Result<(), AllocError>
    ensures { OnOk result (text.new.items ≡ text.old.items ++ (prefix.now ++ decimal number)) }
{
    text.extend_from_slice(prefix)?;
    push_number(text, number as usize)?;
    Ok(())
}

fn push_real(text: &mut Vec<u8>, digits: &[u8], double: bool) -> Result<(), AllocError>
    ensures { let name = if double then codes "double " else codes "float " in
        OnOk result (text.new.items ≡ text.old.items ++ (name ++ digits.now)) }
{
    text.extend_from_slice(if double { b"double " } else { b"float " })?;
    text.extend_from_slice(digits)?;
    Ok(())
}

fn push_string(text: &mut Vec<u8>, value: &[u8]) -> Result<(), AllocError>
    ensures { let shown = flat_map escaped value.now ++ codes "\"" in
        OnOk result (text.new.items ≡ text.old.items ++ (codes "string \"" ++ shown)) }
{
    text.extend_from_slice(b"string \"")?;
    for byte in value {
        push_escaped(text, *byte)?;
    }
    text.push(b'"')?;
    Ok(())
}

/// Appends a byte of a string as it stands between quotes.
fn push_escaped(text: &mut Vec<u8>, byte: u8) -> Result<(), AllocError>
    ensures { OnOk result (text.new.items ≡ text.old.items ++ escaped byte) }
{
    match byte {
        b'"' | b'\\' => text.extend_from_slice(&[b'\\', byte])?,
        b'\n' => text.extend_from_slice(b"\\n")?,
        0..=31 | 127 => text.extend_from_slice(&[b'\\', b'x', digit(byte / 16), digit(byte % 16)])?,
        _ => text.push(byte)?,
    }
    Ok(())
}

/// The digit of a number below 16.
fn digit(value: u8) -> u8
    requires { value < 16 }
    ensures { result ≡ digit_glyph false value }
{
    if value < 10 {
        b'0' + value
    } else {
        b'a' - 10 + value
    }
}

fn push_enum_value(text: &mut Vec<u8>, ty: &[u8], value: &[u8]) -> Result<(), AllocError>
    ensures { let shown = ty.now ++ (codes " " ++ value.now) in
        OnOk result (text.new.items ≡ text.old.items ++ (codes "enum " ++ shown)) }
{
    text.extend_from_slice(b"enum ")?;
    text.extend_from_slice(ty)?;
    text.push(b' ')?;
    text.extend_from_slice(value)?;
    Ok(())
}

fn push_op(
    text: &mut Vec<u8>,
    name: &[u8],
    args: &[Arg],
    ty: &Ty,
    varying: bool,
) -> Result<(), AllocError>
    ensures { let shown = texts.op_text name.now args.now ty.now varying in
        OnOk result (text.new.items ≡ text.old.items ++ shown) }
{
    text.extend_from_slice(name)?;
    text.push(b'(')?;
    push_args(text, args)?;
    text.push(b')')?;
    if tells_result(name, ty) {
        push_result(text, ty, varying)?;
    }
    Ok(())
}

/// Appends arguments' types with commas between them.
fn push_args(text: &mut Vec<u8>, args: &[Arg]) -> Result<(), AllocError>
    ensures { OnOk result (text.new.items ≡ text.old.items ++ texts.args_text args.now) }
{
    let Some((first, others)) = args.split_first() else {
        return Ok(());
    };
    push_arg(text, first)?;
    for arg in others {
        text.push(b',')?;
        push_arg(text, arg)?;
    }
    Ok(())
}

/// Appends an argument's type, behind a mark where its parameter is uniform.
fn push_arg(text: &mut Vec<u8>, arg: &Arg) -> Result<(), AllocError>
    ensures { OnOk result (text.new.items ≡ text.old.items ++ texts.arg_text arg.now) }
{
    if arg.uniform {
        text.push(b'!')?;
    }
    push_type(text, &arg.ty)?;
    Ok(())
}

/// Appends a result's type, behind a mark where the operation is varying.
fn push_result(text: &mut Vec<u8>, ty: &Ty, varying: bool) -> Result<(), AllocError>
    ensures { OnOk result (text.new.items ≡ text.old.items ++ result_text ty.now varying) }
{
    text.extend_from_slice(if varying { b":~" } else { b":" })?;
    push_type(text, ty)?;
    Ok(())
}

fn push_type(text: &mut Vec<u8>, ty: &Ty) -> Result<(), AllocError>
    ensures { OnOk result (text.new.items ≡ text.old.items ++ type_text ty.now) }
{
    text.extend_from_slice(ty.name.as_str().as_bytes())?;
    push_size(text, ty.shape)?;
    Ok(())
}

/// Appends an array's size.
fn push_size(text: &mut Vec<u8>, shape: Shape) -> Result<(), AllocError>
    ensures { OnOk result (text.new.items ≡ text.old.items ++ size_text shape) }
{
    match shape {
        Shape::One => {}
        Shape::Sized(size) => {
            push_prefixed_number(text, b"[", size)?;
            text.push(b']')?;
        }
        Shape::AnySize => text.extend_from_slice(b"[<n>]")?,
    }
    Ok(())
}

/// Appends a number in decimal.
pub fn push_number(text: &mut Vec<u8>, number: usize) -> Result<(), AllocError>
    ensures { OnOk result (text.new.items ≡ text.old.items ++ decimal number) }
{
    let mut buffer = Buffer::new();
    text.extend_from_slice(buffer.format(number).as_bytes())?;
    Ok(())
}

/// Whether an operation's result is written: where its name alone doesn't tell it.
fn tells_result(name: &[u8], ty: &Ty) -> bool
    ensures { result ≡ texts.tells_result name.now ty.now }
{
    name.starts_with(b".")
        || name == b"state_normal".as_slice()
        || (name.starts_with(b"::") && !is_type_text(name, ty))
}

fn is_type_text(text: &[u8], ty: &Ty) -> bool
    ensures { result ≡ bytes_eq text.now (type_text ty.now) }
{
    match text.strip_prefix(ty.name.as_str().as_bytes()) {
        Some(size) => is_size_text(size, ty.shape),
        None => false,
    }
}

fn is_size_text(text: &[u8], shape: Shape) -> bool
    ensures { result ≡ bytes_eq text.now (size_text shape) }
{
    match shape {
        Shape::One => text.is_empty(),
        Shape::Sized(size) => is_sized_text(text, size),
        Shape::AnySize => text == b"[<n>]".as_slice(),
    }
}

fn is_sized_text(text: &[u8], size: u32) -> bool
    ensures { result ≡ bytes_eq text.now (codes "[" ++ (decimal size ++ codes "]")) }
{
    let Some(behind) = text.strip_prefix(b"[") else {
        return false;
    };
    let Some(digits) = behind.strip_suffix(b"]") else {
        return false;
    };
    let mut buffer = Buffer::new();
    digits == buffer.format(size).as_bytes()
}

#[cfg(test)]
mod tests;
