//! Where a test may hold jobs back. The product calls the gate and learns nothing from it.

/// The side of a call on which a job stands.
#[derive(Clone, Copy)]
pub enum Point {
    /// Before the job takes the lock.
    Before,
    /// After it gave the lock back.
    After,
}

/// Passed by each job on both sides of each call.
pub trait Gate {
    /// Lets a job through. `job` is the job's number, `call` the number of its call.
    fn pass(&self, job: u32, call: u64, point: Point);
}

/// A gate that holds nobody back.
#[derive(Clone, Copy)]
pub struct OpenGate;

impl Gate for OpenGate {
    fn pass(&self, _job: u32, _call: u64, _point: Point) {}
}
