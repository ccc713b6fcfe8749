//! Where a program's bytes come from and where they go to: sources and sinks, the standard streams,
//! the words that the program is given, and the status with which it ends.
#![tactic(auto)]

mod arguments;
mod call_numbers;
mod error_sink;
mod inputs;
mod memory_sink;
mod memory_source;
mod outputs;
mod sinks;
mod sources;
mod standard;
mod status;

pub use arguments::words_after_name;
pub use call_numbers::CallNumbers;
pub use error_sink::StdErrorSink;
pub use inputs::{SourceFailed, read_all};
pub use memory_sink::MemorySink;
pub use memory_source::MemorySource;
pub use outputs::{SinkFailed, write_all};
pub use sinks::{Put, Sink};
pub use sources::{Read, Source};
pub use standard::{StdSink, StdSource};
pub use status::{Status, exit_code};
