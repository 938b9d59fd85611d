ghost use Rattle.std.specs.Prelude.{◌≡◌, ℕ, ◌<◌, true, false, Some, [], length, slice_get};
ghost use Rattle.std.specs.Prelude.{IsOk, IfOk, OnOk, OnErr, IfSome, IfNone};
ghost use Rattle.std.specs.List.{list_any, AllByRecursion};
ghost use Rattle.case_table.specs.Lists.{with_first};
ghost use Rattle.type_rules.specs.Same.{same_symbol, same_term};
ghost use Rattle.dag_store.specs.Store.{Kept};
ghost use Rattle.dag_store.specs.Unfolding.{terms_of, stands_for, Fits, IsShared};

use case_table::{OutOfMemory, Seq};
use std::alloc::Global;
use std::marker::Model;
use type_rules::Symbol;

/// A symbol, by its number, over kids, by their ids.
#[derive(Debug, Drop, PartialEq, Eq, PartialOrd, Ord, Hash)]
pub struct Node {
    pub symbol: u32,
    pub kids: Seq<u32>,
}

/// A node of a store, by its place in the order in which nodes came.
#[derive(Clone, Copy, Debug, PartialEq, Eq, PartialOrd, Ord, Hash)]
pub struct NodeId(pub u32);

/// A list keeps fewer members than `u32::MAX`.
const MOST: usize = u32::MAX as usize - 1;

/// Nodes of which no two are equal. Kids come before the nodes that have them.
#[derive(Debug, Drop)]
pub struct Store {
    symbols: Vec<Symbol>,
    nodes: Vec<Node>,
}

impl Model for Store {
    ghost use Rattle.dag_store.specs.Store.{Kept};

    ghost Value = { Kept };

    ghost use Rattle.dag_store.specs.Unfolding.{IsShared};

    ghost view = { λ s. record { symbols = s.symbols.items; nodes = s.nodes.items } };

    ghost invariant = { λ s. IsShared (record { symbols = s.symbols.items; nodes = s.nodes.items }) };
}

impl Store {
    /// An empty store. It keeps the allocator for later calls.
    pub fn new(alloc: Global) -> Result<Store, OutOfMemory>
        ensures { IfOk result (λ store. store ≡ record { symbols = []; nodes = [] }) }
    {
        Ok(Store {
            symbols: Vec::new(alloc),
            nodes: Vec::new(alloc),
        })
    }

    /// The number of a symbol. A new symbol is copied, and comes after those that are there.
    pub fn intern(&mut self, symbol: &Symbol) -> Result<u32, OutOfMemory>
        ensures number { IfOk result
            (λ number. slice_get self.new.symbols number ≡ Some symbol.now) }
        ensures symbols { OnOk result
            (self.new.symbols ≡ with_first same_symbol self.old.symbols symbol.now) }
        ensures nodes { self.new.nodes ≡ self.old.nodes }
        ensures terms { terms_of self.new ≡ terms_of self.old }
        ensures known { list_any (same_symbol symbol.now) self.old.symbols ≡ true → IsOk result }
        ensures err { OnErr result (self.new ≡ self.old) }
    {
        if let Some(number) = find_symbol(&self.symbols, symbol) {
            return Ok(number as u32);
        }
        let number = self.symbols.len();
        if number >= MOST {
            return Err(OutOfMemory);
        }
        let copied = symbol.clone()?;
        self.symbols.push(copied)?;
        Ok(number as u32)
    }

    /// The id of a node. A node that is there takes no memory and changes nothing, and a new one
    /// comes after those that are there.
    pub fn put(&mut self, node: Node) -> Result<NodeId, OutOfMemory>
        requires { Fits self.old node }
        ensures id { IfOk result
            (λ id. slice_get (terms_of self.new) id.0 ≡ Some (stands_for self.old node)) }
        ensures terms { OnOk result
            (terms_of self.new ≡ with_first same_term (terms_of self.old) (stands_for self.old node)) }
        ensures symbols { self.new.symbols ≡ self.old.symbols }
        ensures known { list_any (same_term (stands_for self.old node)) (terms_of self.old) ≡ true → IsOk result }
        ensures unchanged { list_any (same_term (stands_for self.old node)) (terms_of self.old) ≡ true
            → self.new ≡ self.old }
        ensures err { OnErr result (self.new ≡ self.old) }
    {
        if let Some(place) = find_node(&self.nodes, &node) {
            return Ok(NodeId(place as u32));
        }
        let place = self.nodes.len();
        if place >= MOST {
            return Err(OutOfMemory);
        }
        self.nodes.push(node)?;
        Ok(NodeId(place as u32))
    }

    /// The node of an id. Takes no memory.
    pub fn get(&self, id: NodeId) -> &Node
        requires { id.0 < length self.now.nodes }
        ensures node { slice_get self.now.nodes id.0 ≡ Some result.now }
        ensures made { Fits self.now result.now }
        ensures below { AllByRecursion (λ kid. kid < id.0) result.now.kids }
        ensures term { slice_get (terms_of self.now) id.0 ≡ Some (stands_for self.now result.now) }
    {
        &self.nodes[id.0 as usize]
    }

    /// How many nodes there are. Takes no memory.
    pub fn len(&self) -> usize
        ensures nodes { result ≡ length self.now.nodes }
        ensures terms { result ≡ length (terms_of self.now) }
        ensures shared { IsShared self.now }
    {
        self.nodes.len()
    }

    /// The symbols by their numbers. Takes no memory.
    pub fn symbols(&self) -> &[Symbol]
        ensures { result.now ≡ self.now.symbols }
    {
        self.symbols.as_slice()
    }
}

/// The number of a symbol, if it is there.
fn find_symbol(symbols: &[Symbol], wanted: &Symbol) -> Option<usize>
    ensures found { IfSome result (λ number. slice_get symbols.now number ≡ Some wanted.now) }
    ensures absent { IfNone result (list_any (same_symbol wanted.now) symbols.now ≡ false) }
{
    symbols.iter().position(|known| wanted.is_same(known))
}

/// The place of a node, if it is there.
fn find_node(nodes: &[Node], wanted: &Node) -> Option<usize>
    ensures found { IfSome result (λ place. slice_get nodes.now place ≡ Some wanted.now) }
    ensures absent { IfNone result ((k : ℕ) → slice_get nodes.now k ≡ Some wanted.now → ⊥) }
{
    nodes.iter().position(|known| known == wanted)
}
