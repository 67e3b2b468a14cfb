//! What is told of each join before it is made.

/// What a worker asks before each join. It changes nothing that a contract sees: a gate may count
/// joins, or let a worker go on only when another has come as far.
pub trait Gate: Sync {
    /// The worker with this index is about to join into this cell.
    fn pass(&self, worker: u32, cell: usize);
}

/// The gate that lets every worker go on at once.
pub struct OpenGate;

impl Gate for OpenGate {
    /// Does nothing.
    fn pass(&self, _worker: u32, _cell: usize) {}
}
