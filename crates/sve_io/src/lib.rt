// Sources and sinks of bytes that count their faults.
//
// What reads and writes a session is generic over `Source` and `Sink`, so that it is proved over any
// of them: over ends in memory, which tell their bytes, and over standard input and output, which
// tell only how often they failed.
#![tactic(auto)]

mod halt;
mod memory_sink;
mod memory_source;
mod reading;
mod standard;
mod sure_source;
mod writing;

pub use halt::Halt;
pub use memory_sink::MemSink;
pub use memory_source::MemSource;
pub use reading::{Got, Source};
pub use standard::{RealIn, RealOut};
pub use sure_source::SureSource;
pub use writing::{Failed, Sink};

/// Want of memory, where it is all that can go wrong in a call.
pub type NoMemory = std::alloc::AllocError;
