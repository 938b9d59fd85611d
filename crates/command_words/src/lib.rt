//! What the words of a command line ask for.
#![tactic(auto)]

mod laws;
mod names;
mod options;
mod request;
mod roots;
mod words;

pub use laws::one_request;
pub use request::{Request, Task};
pub use words::{names_command, read_request};

#[cfg(test)]
mod tests;
