//! The listing of a history. What a line shows of a request and of its reply stands in `requests.rt` and `replies.rt`.
ghost use Rattle.std.specs.Prelude.{◌≡◌, ◌++◌, OnOk, IfOk};
ghost use Rattle.listing.specs.HistoryListing.{call_line, exchange, listing};

use crate::replies::{job_name, push_reply};
use crate::requests::push_request;
use crate::texts::push_number;
use field_types::names::Name;
use library_model::calls::Call;
use std::alloc::{AllocError, Global};

/// The listing of these calls: a line for each, numbered from 1. The first name is job 1's; a job that has none is
/// shown without a name. It fails for want of memory alone.
#[tactic(auto, unfolding(crate::specs::HistoryListing::listing))]
pub fn listing(alloc: Global, names: &[Name], calls: &[Call]) -> Result<Vec<u8>, AllocError>
    ensures { IfOk result (λ text. text.items ≡ listing names.now calls.now) }
{
    let mut out = Vec::from_slice(alloc, b"HISTORY\n")?;
    for (i, call) in calls.iter().enumerate() {
        push_line(&mut out, names, i as u64 + 1, call)?;
    }
    out.extend_from_slice(b"END ")?;
    push_number(&mut out, calls.len() as u64)?;
    out.push(b'\n')?;
    Ok(out)
}

#[tactic(auto, unfolding(crate::specs::HistoryListing::call_line))]
fn push_line(out: &mut Vec<u8>, names: &[Name], number: u64, call: &Call) -> Result<(), AllocError>
    ensures { OnOk result (out.new.items ≡ out.old.items ++ call_line names.now number call.now) }
{
    push_number(out, number)?;
    out.push(b' ')?;
    out.extend_from_slice(job_name(names, call.job))?;
    out.push(b' ')?;
    push_number(out, call.timestamp)?;
    out.push(b' ')?;
    push_exchange(out, names, call)
}

#[tactic(auto, unfolding(crate::specs::HistoryListing::exchange))]
fn push_exchange(out: &mut Vec<u8>, names: &[Name], call: &Call) -> Result<(), AllocError>
    ensures { OnOk result (out.new.items ≡ out.old.items ++ exchange names.now call.now) }
{
    push_request(out, &call.request)?;
    out.extend_from_slice(b" => ")?;
    push_reply(out, names, &call.reply)?;
    out.push(b'\n')?;
    Ok(())
}
