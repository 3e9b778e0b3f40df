// Threads of a replay.

// A thread's locals, and the location at which it is.
#[derive(Drop)]
pub(crate) struct Seat {
    pub(crate) locals: Vec<i128>,
    pub(crate) at: u32,
}
