//! What a worker passes before each of its calls.

/// It is told the worker's number and how many calls the worker has made. It may hold the worker up; it promises nothing.
pub trait Gate: Sync {
    fn turn(&self, worker: u32, step: u64);
}

/// Lets every worker pass at once.
pub struct FreeGate;

impl Gate for FreeGate {
    fn turn(&self, _worker: u32, _step: u64) {}
}
