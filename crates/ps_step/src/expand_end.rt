//! Why a configuration wasn't expanded.
use ps_config::WideStep;
use std::alloc::AllocError;

/// The most smallest configurations of one step.
pub const MOST_SETS: u32 = 1024;

/// Why a configuration wasn't expanded.
#[derive(Debug, Drop)]
pub enum ExpandEnd {
    /// The first step that passes a limit.
    Wide(WideStep),
    Memory(AllocError),
}
