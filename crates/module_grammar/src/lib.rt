//! What tokens are as a module, and the laws of the machine that reads one.
#![tactic(auto)]

mod laws;

pub use laws::{
    before_a_module_fault, one_module, one_module_reading, what_a_module_writes_is_read,
};
