//! The entries of a state as one block.
ghost use Rattle.std.specs.Prelude.{◌≡◌, ◌+◌, ◌<◌, ◌≤◌, ◌^◌, ℕ, List, All, length, IfOk, IsErrOf};
ghost use Rattle.std.specs.List.{AllByRecursion};
ghost use Rattle.entry_codec.specs.Spelling.{HasSpelling, IsSpelled};
ghost use Rattle.gated_log.specs.Blocks.{frame};
ghost use Rattle.checkpoint.specs.States.{BreaksAtEntry, spelled};

use crate::layout::FIRST_BYTE;
use entry_codec::{Entry, read_entry, write_entry};
use gated_log::{LogFault, put_frame};
use std::alloc::{AllocError, Global};

/// The most bytes that the entries of a state have, so that its block can be appended.
pub const MAX_STATE: usize = 510 << 20;

/// The bytes of a block's length.
const LENGTH: usize = 4;

/// The entries one after another, in the frame of a block.
pub(crate) fn framed_state(alloc: Global, state: &[Entry]) -> Result<Vec<u8>, AllocError>
    requires spelled { All HasSpelling state.now }
    requires small { length (spelled state.now) ≤ MAX_STATE }
    ensures framed { IfOk result (λ framed. framed.items ≡ frame (spelled state.now)) }
    ensures each { IfOk result (λ _. AllByRecursion IsSpelled state.now) }
{
    let mut framed = Vec::from_slice(alloc, &[0; LENGTH])?; // room for the block's length
    for entry in state {
        write_entry(entry, &mut framed)?;
    }
    framed.push(0)?;
    put_frame(&mut framed);
    Ok(framed)
}

/// The entries that the block of an area is.
pub(crate) fn entries_of(alloc: Global, area: u32, block: &[u8]) -> Result<Vec<Entry>, LogFault>
    requires short { length block.now < 2 ^ 32 }
    ensures each { IfOk result (λ state. AllByRecursion IsSpelled state.items) }
    ensures whole { IfOk result (λ state. block.now ≡ spelled state.items) }
    ensures damaged { (a at : ℕ) → IsErrOf result (LogFault.Damaged a at) → (a ≡ area) × BreaksAtEntry block.now at }
    ensures no_fault { IsErrOf result LogFault.StoreFault → ⊥ }
{
    let mut entries = Vec::new(alloc);
    let mut at = 0;
    while at < block.len() {
        entries.reserve(1)?;
        let Some((entry, count)) = read_entry(alloc, &block[at..])? else {
            let at = FIRST_BYTE + at as u64;
            return Err(LogFault::Damaged { area, at });
        };
        entries.push_reserved(entry);
        at += count;
    }
    Ok(entries)
}
