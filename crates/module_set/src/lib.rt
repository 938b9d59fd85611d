//! Sets of modules, each with its name and its text, and what their imports name.
#![tactic(auto)]

mod laws;
mod module_name;
mod set;

pub use laws::{one_first_cycle, same_names_are_one};
pub use module_name::ModuleName;
pub use set::ModuleSet;
