ghost use Rattle.std.specs.Prelude.{◌≡◌, Some, [], ◌∷◌, IfOk, codes, map, slice_get};
ghost use Rattle.type_rules.specs.declared.symbol.Symbol.TheVariants as symbol;
ghost use Rattle.type_rules.specs.Types.{plain, arguments_of};
ghost use Rattle.type_rules.specs.Terms.{apply, nil};
ghost use Rattle.dag_store.specs.Unfolding.{terms_of};

use crate::{Node, NodeId, Store};
use case_table::{OutOfMemory, Seq, Text};
use std::alloc::{AllocError, Global};
use std::test::Fail;
use type_rules::{Arg, Shape, Symbol, Ty};

/// Puts a whole number.
fn put_int(alloc: Global, store: &mut Store, value: u32) -> Result<NodeId, OutOfMemory>
    ensures { IfOk result
        (λ id. slice_get (terms_of store.new) id.0 ≡ Some (apply (symbol.Int value) nil)) }
{
    let number = store.intern(&Symbol::Int(value))?;
    let id = store.put(Node {
        symbol: number,
        kids: Seq::of(Vec::new(alloc)),
    })?;
    Ok(id)
}

fn int(alloc: Global) -> Result<Ty, AllocError>
    ensures { IfOk result (λ ty. ty ≡ plain (codes "int")) }
{
    let name = Text::copy(alloc, "int")?;
    Ok(Ty {
        name,
        shape: Shape::One,
    })
}

/// The negation of a whole number.
fn negation(alloc: Global) -> Result<Symbol, AllocError>
    ensures { IfOk result
        (λ negation. map (λ arg. arg.ty) (arguments_of negation) ≡ plain (codes "int") ∷ []) }
{
    let name = Text::copy(alloc, "operator-")?;
    let ty = int(alloc)?;
    let result = int(alloc)?;
    let args = Seq::of(vec![in alloc; Arg { ty, uniform: false }]?);
    Ok(Symbol::Op {
        name,
        args,
        result,
        varying: false,
    })
}

/// Puts the negation of a whole number.
fn put_negated(alloc: Global, store: &mut Store, value: u32) -> Result<NodeId, OutOfMemory> {
    let kid = put_int(alloc, store, value)?;
    let negation = negation(alloc)?;
    let number = store.intern(&negation)?;
    let id = store.put(Node {
        symbol: number,
        kids: Seq::copy(alloc, &[kid.0])?,
    })?;
    Ok(id)
}

#[test]
fn equal_nodes_have_equal_ids(rt: HostRuntime) -> Result<(), Fail> {
    let alloc = rt.alloc();
    let mut store = Store::new(alloc)?;
    assert_eq!(rt; store.len(), 0);
    let seven = put_int(alloc, &mut store, 7)?;
    let eight = put_int(alloc, &mut store, 8)?;
    assert!(rt; (seven, eight) == (NodeId(0), NodeId(1)));
    assert!(rt; put_int(alloc, &mut store, 7)? == seven);
    assert_eq!(rt; store.len(), 2);
    let negated = put_negated(alloc, &mut store, 8)?;
    assert!(rt; negated == NodeId(2));
    assert!(rt; put_negated(alloc, &mut store, 8)? == negated);
    assert!(rt; put_negated(alloc, &mut store, 7)? == NodeId(3));
    assert_eq!(rt; store.len(), 4);
    assert_eq!(rt; store.symbols().len(), 3);
    assert!(rt; store.symbols()[1] == Symbol::Int(8));
    Ok(())
}
