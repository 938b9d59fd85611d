//! Reads modules and their expressions from the words of a module's text.
#![tactic(auto)]

mod annotations;
mod boxes;
mod calls;
mod declarations;
mod ends;
mod faults;
mod fronts;
mod functions;
mod imports;
mod items;
mod module_state;
mod modules;
mod namings;
mod positions;
mod sites;
mod structs;
mod using;
mod verdicts;
mod version;

pub use expression_grammar::{
    ParseFault, before_a_fault, one_expression, one_reading, parse_expr, what_is_written_is_read,
};
pub use module_grammar::{
    before_a_module_fault, one_module, one_module_reading, what_a_module_writes_is_read,
};
pub use modules::parse_module;
