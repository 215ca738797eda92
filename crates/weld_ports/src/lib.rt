//! What a run reads from and writes to: a source of bytes, a sink of bytes, and a gate before each tile.
#![tactic(auto)]

mod count;
pub mod gate;
pub mod memory_sink;
pub mod memory_source;
pub mod sink;
pub mod source;
pub mod standard;
pub mod sure;

pub use gate::{Gate, NoGate};
pub use memory_sink::MemorySink;
pub use memory_source::MemorySource;
pub use sink::{Sink, WriteFailed};
pub use source::{ReadFailed, Source};
pub use standard::{StdinSource, StdoutSink};
pub use sure::{SureSink, SureSource};

#[cfg(test)]
mod tests;
