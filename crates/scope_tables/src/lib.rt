//! What modules declare, what they see of one another, and what a name finds in them.
#![tactic(auto)]

pub mod brought;
pub mod declared;
pub mod entity;
pub mod found;
pub mod kinds;
pub mod looked;
pub mod looking;
pub mod order;
pub mod own;
pub mod prelude;
pub mod reach;
pub mod tables;
pub mod types;
mod words;
