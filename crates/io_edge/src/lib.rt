//! The outside: where texts come from and where they go, over memory and over files; places in texts.
#![tactic(auto)]

mod calls;
mod file_source;
mod gate;
mod memory_sink;
mod memory_source;
mod place;
mod sink;
mod source;
mod std_sink;
#[cfg(test)]
mod tests;
mod whole;

pub use file_source::FileSource;
pub use gate::{Gate, NoGate};
pub use memory_sink::{MemorySink, SteadySink};
pub use memory_source::{MemorySource, SteadySource};
pub use place::{Place, place_of};
pub use sink::{Sink, Wrote};
pub use source::{Read, Source};
pub use std_sink::StdSink;
pub use whole::{WriteFault, write_whole};
