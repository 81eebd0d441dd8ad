//! A history of one call.
use job_history::Call;
use job_history::history::History;
use library_model::replies::Reply;
use library_model::requests::{EndJob, EndReason, Request};
use std::test::Fail;

#[test]
fn calls_are_kept(rt: HostRuntime) -> Result<(), Fail> {
    let mut history = History::new(rt.alloc());
    history.reserve(1)?;
    history.push(Call {
        job: 1,
        timestamp: 7,
        request: Request::EndJob(EndJob {
            reason: EndReason::Normal,
            line: 0,
        }),
        reply: Reply::Done,
    });
    assert_eq!(rt; history.calls().len(), 1);
    assert!(rt; !history.is_full());
    Ok(())
}
