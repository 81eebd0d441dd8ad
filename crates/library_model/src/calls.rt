//! One call of a job, as the history keeps it.
use crate::replies::Reply;
use crate::requests::Request;

/// A request with its reply.
#[derive(Drop)]
pub struct Call {
    /// The number of the job, from 1.
    pub job: u32,
    /// When it was made: microseconds, as the clock gave them before the call.
    pub timestamp: u64,
    pub request: Request,
    pub reply: Reply,
}
