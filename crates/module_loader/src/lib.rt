//! Loads modules with all that they import.
#![tactic(auto)]

mod closure;
mod contents;
mod cycles;
mod embedded_texts;
mod fault;
mod files;
mod imports;
mod laws;
mod linked;
mod loading;
mod meaning;
mod members;
mod numbers;
#[cfg(test)]
mod tests;
mod texts;

pub use fault::LoadFault;
pub use laws::one_load;
pub use loading::load;
