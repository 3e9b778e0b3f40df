//! Where bytes come from and go to: sources, sinks, and the gate that workers pass.
//!
//! A source or a sink counts its faults, and a fault may be answered only where the count rose: so a caller's
//! contract can say that it reports a failure of the outside only where there was one.
#![tactic(auto)]

mod calls;
mod fault;
mod gate;
mod host_sink;
mod host_source;
mod memory_sink;
mod memory_source;
mod reading;
mod sink;
mod source;
mod writing;

pub use fault::Fault;
pub use gate::{Gate, OpenGate, Point};
pub use host_sink::HostSink;
pub use host_source::HostSource;
pub use memory_sink::MemorySink;
pub use memory_source::MemorySource;
pub use reading::{ReadEnd, read_all};
pub use sink::Sink;
pub use source::Source;
pub use writing::write_all;
