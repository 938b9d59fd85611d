ghost use Rattle.std.specs.Prelude.{◌≡◌, Some, [], ◌∷◌, IfOk, OnOk, codes, map, slice_get};
ghost use Rattle.case_table.specs.Lists.{with_first};
ghost use Rattle.type_rules.specs.declared.symbol.Symbol.TheVariants as symbol;
ghost use Rattle.type_rules.specs.Types.{plain, arguments_of};
ghost use Rattle.type_rules.specs.Terms.{apply, nil};
ghost use Rattle.type_rules.specs.Same.{same_term};
ghost use Rattle.dag_store.specs.Unfolding.{terms_of};

use super::{push_symbol, write_instance};
use case_table::{OutOfMemory, Seq, Text};
use dag_store::{Node, NodeId, Store};
use std::alloc::{AllocError, Global};
use std::test::Fail;
use type_rules::{Arg, Shape, Symbol, Ty};

fn ty(alloc: Global, name: &str, shape: Shape) -> Result<Ty, AllocError>
    ensures { IfOk result (λ ty. ty ≡ record { name = name.now; shape = shape }) }
{
    let name = Text::copy(alloc, name)?;
    Ok(Ty { name, shape })
}

/// The sum of two whole numbers.
fn sum(alloc: Global) -> Result<Symbol, AllocError>
    ensures { let int = plain (codes "int") in
        IfOk result (λ sum. map (λ arg. arg.ty) (arguments_of sum) ≡ int ∷ int ∷ []) }
{
    let name = Text::copy(alloc, "operator+")?;
    let left = ty(alloc, "int", Shape::One)?;
    let right = ty(alloc, "int", Shape::One)?;
    let result = ty(alloc, "int", Shape::One)?;
    let left = Arg {
        ty: left,
        uniform: false,
    };
    let right = Arg {
        ty: right,
        uniform: false,
    };
    let args = Seq::of(vec![in alloc; left, right]?);
    Ok(Symbol::Op {
        name,
        args,
        result,
        varying: false,
    })
}

/// Puts a whole number.
fn put_int(alloc: Global, store: &mut Store, value: u32) -> Result<NodeId, OutOfMemory>
    ensures id { IfOk result
        (λ id. slice_get (terms_of store.new) id.0 ≡ Some (apply (symbol.Int value) nil)) }
    ensures terms { let term = apply (symbol.Int value) nil in
        OnOk result (terms_of store.new ≡ with_first same_term (terms_of store.old) term) }
{
    let number = store.intern(&Symbol::Int(value))?;
    let id = store.put(Node {
        symbol: number,
        kids: Seq::of(Vec::new(alloc)),
    })?;
    Ok(id)
}

/// Puts the sum of two whole numbers.
fn put_sum(alloc: Global, store: &mut Store, left: u32, right: u32) -> Result<NodeId, OutOfMemory> {
    let left = put_int(alloc, store, left)?;
    let right = put_int(alloc, store, right)?;
    let sum = sum(alloc)?;
    let number = store.intern(&sum)?;
    let id = store.put(Node {
        symbol: number,
        kids: Seq::copy(alloc, &[left.0, right.0])?,
    })?;
    Ok(id)
}

#[test]
fn an_instance_has_a_line_for_each_node(rt: HostRuntime) -> Result<(), Fail> {
    let alloc = rt.alloc();
    let mut store = Store::new(alloc)?;
    put_sum(alloc, &mut store, 7, u32::MAX)?;
    let text = write_instance(alloc, b"::m::plain", &store)?;
    let head = "mdlgraph 1\ninstance ::m::plain\nnodes 3\n";
    let nodes = "0 - int 7\n1 - int 4294967295\n2 0,1 operator+(int,int)\n";
    let wanted = format!(in alloc; "{head}{nodes}end\n")?;
    assert!(rt; text.as_slice() == wanted.as_bytes());
    Ok(())
}

fn text_of(alloc: Global, symbol: &Symbol) -> Result<Vec<u8>, AllocError> {
    let mut text = Vec::new(alloc);
    push_symbol(&mut text, symbol)?;
    Ok(text)
}

/// Literals and a parameter with their texts.
fn literals(alloc: Global) -> Result<Vec<(Symbol, &'static str)>, AllocError> {
    let mut literals = Vec::new(alloc);
    literals.push((Symbol::Bool(true), "bool true"))?;
    literals.push((Symbol::Bool(false), "bool false"))?;
    literals.push((Symbol::Int(u32::MAX), "int 4294967295"))?;
    let text = Text::copy(alloc, "1.50")?;
    let double = false;
    literals.push((Symbol::Real { text, double }, "float 1.50"))?;
    let text = Text::copy(alloc, "2.0")?;
    let double = true;
    literals.push((Symbol::Real { text, double }, "double 2.0"))?;
    let text = Text::copy(alloc, "a\"b\\c\nd\u{1}e\u{7f}\u{e9}~ ")?;
    let wanted = "string \"a\\\"b\\\\c\\nd\\x01e\\x7f\u{e9}~ \"";
    literals.push((Symbol::Str(text), wanted))?;
    let name = Text::copy(alloc, "::state::mode")?;
    let value = Text::copy(alloc, "mode_add")?;
    literals.push((
        Symbol::EnumValue { ty: name, value },
        "enum ::state::mode mode_add",
    ))?;
    let parameter = Symbol::Param {
        index: 3,
        ty: ty(alloc, "color", Shape::One)?,
        uniform: true,
    };
    literals.push((parameter, "param 3"))?;
    Ok(literals)
}

#[test]
fn literals_have_their_texts(rt: HostRuntime) -> Result<(), Fail> {
    let alloc = rt.alloc();
    for (symbol, wanted) in &literals(alloc)? {
        let text = text_of(alloc, symbol)?;
        assert!(rt; text.as_slice() == wanted.as_bytes(), "{wanted}");
    }
    Ok(())
}

/// An operation on a number, a uniform array and an array of any size.
fn operation(
    alloc: Global,
    name: &str,
    ty_of_result: Ty,
    varying: bool,
) -> Result<Symbol, AllocError> {
    let name = Text::copy(alloc, name)?;
    let number = Arg {
        ty: ty(alloc, "float", Shape::One)?,
        uniform: false,
    };
    let array = Arg {
        ty: ty(alloc, "int", Shape::Sized(4))?,
        uniform: true,
    };
    let any = Arg {
        ty: ty(alloc, "color", Shape::AnySize)?,
        uniform: false,
    };
    Ok(Symbol::Op {
        name,
        args: Seq::of(vec![in alloc; number, array, any]?),
        result: ty_of_result,
        varying,
    })
}

#[test]
fn operations_have_their_texts(rt: HostRuntime) -> Result<(), Fail> {
    let alloc = rt.alloc();
    let cases = [
        ("color", "color", Shape::One, true, ""),
        (".tint", "color", Shape::One, false, ":color"),
        ("state_normal", "float3", Shape::One, true, ":~float3"),
        ("::df::tint", "bsdf", Shape::One, false, ":bsdf"),
        ("::m::s", "::m::s", Shape::One, false, ""),
        ("::m::s", "::m::s", Shape::Sized(2), false, ":::m::s[2]"),
        ("::m::s[2]", "::m::s", Shape::Sized(2), false, ""),
        ("::m::s[<n>]", "::m::s", Shape::AnySize, false, ""),
    ];
    for (name, result, shape, varying, end) in cases {
        let symbol = operation(alloc, name, ty(alloc, result, shape)?, varying)?;
        let text = text_of(alloc, &symbol)?;
        let wanted = format!(in alloc; "{name}(float,!int[4],color[<n>]){end}")?;
        assert!(rt; text.as_slice() == wanted.as_bytes(), "{wanted}");
    }
    Ok(())
}
