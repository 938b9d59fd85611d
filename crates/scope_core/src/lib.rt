//! What names mean in the modules of a set.
#![tactic(auto)]

mod bases;
mod fault;
mod faults;
mod laws;
mod scopes;
mod settled;
mod sums;

pub use fault::ScopeFault;
pub use laws::one_scope_fault;
pub use scope_tables::entity::{EntityId, Sort};
pub use scope_tables::looked::Looked;
pub use scopes::Scopes;
