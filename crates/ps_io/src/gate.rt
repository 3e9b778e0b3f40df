//! The gate that a worker passes between its turns at the lock.

/// Where a worker stands when it passes the gate.
#[derive(Clone, Copy, Debug, PartialEq, Eq)]
pub enum Point {
    /// A task was claimed and the lock released.
    Claimed,
    /// The task was handed in.
    Answered,
}

/// Watches the workers pass, and may hold one up: a test shows with it that two workers run side by side.
/// Nothing is claimed of what a gate does.
pub trait Gate {
    /// Worker number `worker` passes at this point.
    fn pass(&self, worker: u32, at: Point);
}

/// The gate that holds nobody up.
#[derive(Clone, Copy, Debug, PartialEq, Eq)]
pub struct OpenGate;

impl Gate for OpenGate {
    fn pass(&self, _worker: u32, _at: Point) {}
}
