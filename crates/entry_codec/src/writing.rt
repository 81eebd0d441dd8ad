//! Measuring and writing an entry. The list in `list.rt` has what its body takes.
ghost use Rattle.std.specs.Prelude.{◌≡◌, ◌+◌, ◌^◌, ◌<◌, ◌≤◌, ◌++◌, OnOk, OnErr, IsOk, length, vec_len, vec_capacity};
ghost use Rattle.entry_codec.specs.Spelling.{HasSpelling, IsEntry, IsSpelled, spelling};
ghost use Rattle.entry_codec.specs.Writing.{HasRoom, Appends};

use crate::entries::Entry;
use crate::fronts::{Front, HEAD_LENGTH, LENGTH_FIELD};
use crate::list::{body_length, put_body};
use crate::parts::put_bytes;
use std::alloc::AllocError;

/// How many bytes the entry has in a receiver.
#[tactic(auto, using(crate::proofs::Lengths::entry_lengths))]
pub fn entry_length(e: &Entry) -> usize
    requires { HasSpelling e.now }
    ensures length { result ≡ length (spelling e.now) }
    ensures least { 49 ≤ result }
    ensures most { result < 2 ^ 32 + 4 }
{
    LENGTH_FIELD + HEAD_LENGTH + body_length(&e.kind)
}

/// Writes the entry at the end. No memory is taken where `out` has room for its bytes.
pub fn write_entry(e: &Entry, out: &mut Vec<u8>) -> Result<(), AllocError>
    requires { HasSpelling e.now }
    // Its one spelling.
    ensures written { OnOk result (out.new.items ≡ out.old.items ++ spelling e.now) }
    ensures len { OnOk result (vec_len out.new ≡ vec_len out.old + length (spelling e.now)) }
    ensures refused { OnErr result (out.new.items ≡ out.old.items) }
    // What room was reserved stays.
    ensures room { vec_len out.old + length (spelling e.now) ≤ vec_capacity out.old → IsOk result }
    ensures capacity { vec_capacity out.old ≤ vec_capacity out.new }
    // It is an entry of which `read_entry` says that it is read again.
    ensures spelled { OnOk result (IsSpelled e.now) }
{
    out.reserve(entry_length(e))?;
    put_entry(e, out);
    Ok(())
}

#[tactic(auto, using(crate::proofs::Lengths::entry_lengths))]
fn put_entry(e: &Entry, out: &mut Vec<u8>)
    requires room { HasRoom out.old (spelling e.now) }
    requires spelled { HasSpelling e.now }
    ensures written { Appends out.old out.new (spelling e.now) }
    ensures kept { IsEntry e.now }
{
    let front = Front::of(e, (HEAD_LENGTH + body_length(&e.kind)) as u32);
    put_bytes(out, front.as_slice());
    put_body(&e.kind, out);
}
