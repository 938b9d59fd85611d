//! Shared nodes: a store in which no two nodes are equal.
#![tactic(auto)]

mod store;

pub use store::{Node, NodeId, Store};

#[cfg(test)]
mod tests;
