//! The input of a command that runs jobs: read to its end, and judged.
ghost use Rattle.std.specs.Prelude.{◌≡◌, [], IfOk, IfErr};
ghost use Rattle.store_model.specs.Faults.{Rose};
ghost use Rattle.ibmi_batch.specs.Outcome.{IsRead};
ghost use Rattle.ibmi_batch.specs.Parts.{AreRunnable, IsUnread};

use crate::limits::MOST_INPUT;
use crate::status::Status;
use input_reader::input::{InputError, read_input};
use input_reader::laws::sources_are_no_longer_than_their_input;
use input_scripts::Scripts;
use std::alloc::Global;
use store_model::{ReadError, Source, read_to_end};

/// The scripts of the input, or the status at which it has none.
pub(crate) fn read_scripts<I: Source>(alloc: Global, input: &mut I) -> Result<Scripts, Status>
    ensures read { IfOk result (λ scripts. IsRead I.tells (I.left input.old) scripts) }
    ensures left { IfOk result (λ _. I.tells → I.left input.new ≡ []) }
    ensures runnable { IfOk result (λ scripts. AreRunnable scripts) }
    ensures refused { IfErr result (λ status. IsUnread status I.tells (I.left input.old) (I.left input.new) (Rose (I.faults input.old) (I.faults input.new))) }
{
    // Its sources fit into the journal.
    sources_are_no_longer_than_their_input();
    let bytes = match read_to_end(alloc, input, MOST_INPUT) {
        Ok(bytes) => bytes,
        Err(ReadError::Fault) => return Err(Status::ReadFault),
        Err(ReadError::TooLong) => return Err(Status::TooLong),
        Err(ReadError::NoMemory) => return Err(Status::NoMemory),
    };
    match read_input(alloc, bytes.as_slice()) {
        Ok(scripts) => Ok(scripts),
        Err(InputError::Script { line }) => Err(Status::Script { line }),
        Err(InputError::NoMemory) => Err(Status::NoMemory),
    }
}
