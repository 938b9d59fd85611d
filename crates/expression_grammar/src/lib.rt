//! Reads expressions from the words of a module's text. The public modules are for the reader of modules.
#![tactic(auto)]

mod arguments;
pub mod bindings;
mod brackets;
mod complete;
mod fault;
pub mod frame;
mod laws;
pub mod mode;
mod names;
pub mod operand;
mod parse;
pub mod reduce;
pub mod room;
mod several;
pub mod sort;
pub mod step;
pub mod wanted;

pub use fault::ParseFault;
pub use laws::{before_a_fault, one_expression, one_reading, what_is_written_is_read};
pub use parse::parse_expr;
