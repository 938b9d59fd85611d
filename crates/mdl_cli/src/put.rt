ghost use Rattle.std.specs.Prelude.{◌≡◌, Some, IfOk, OnOk, map, slice_get};
ghost use Rattle.std.specs.List.{flat_map, AllByRecursion};
ghost use Rattle.case_table.specs.Lists.{firsts_onto};
ghost use Rattle.type_rules.specs.Terms.{IsTyped};
ghost use Rattle.type_rules.specs.Same.{same_term};
ghost use Rattle.type_rules.specs.Postorder.{post};
ghost use Rattle.dag_store.specs.Unfolding.{terms_of};
ghost use Rattle.mdl_cli.specs.inside.Trees.{term_of};

use crate::tree::Tree;
use case_table::{OutOfMemory, Seq};
use dag_store::{Node, NodeId, Store};
use std::alloc::Global;

/// Puts the subterms of a tree in postorder, each once.
#[cycle(put)]
pub fn put_tree(alloc: Global, store: &mut Store, tree: &Tree) -> Result<NodeId, OutOfMemory>
    requires { IsTyped (term_of tree.now) }
    ensures terms { OnOk result
        (terms_of store.new ≡ firsts_onto same_term (terms_of store.old) (post (term_of tree.now))) }
    ensures id { IfOk result (λ id. slice_get (terms_of store.new) id.0 ≡ Some (term_of tree.now)) }
{
    let kids = put_kids(alloc, store, tree.kids())?;
    let symbol = store.intern(tree.symbol())?;
    let id = store.put(Node {
        symbol,
        kids: Seq::of(kids),
    })?;
    Ok(id)
}

/// Puts the subterms of several trees, one tree after another, and gives the trees' ids.
#[cycle(put)]
fn put_kids(alloc: Global, store: &mut Store, kids: &[Tree]) -> Result<Vec<u32>, OutOfMemory>
    requires { AllByRecursion IsTyped (map term_of kids.now) }
    ensures terms { OnOk result
        (terms_of store.new ≡ firsts_onto same_term (terms_of store.old) (flat_map post (map term_of kids.now))) }
    ensures ids { IfOk result
        (λ ids. map (slice_get (terms_of store.new)) ids.items ≡ map Some (map term_of kids.now)) }
{
    let mut ids = Vec::new(alloc);
    for kid in kids {
        let id = put_tree(alloc, store, kid)?;
        ids.push(id.0)?;
    }
    Ok(ids)
}
