//! All that is printed below the status of an input at fault, and which line that is.
use hints::{line_help, script_help};
use input_reader::input::{InputError, read_input};
use std::alloc::{AllocError, Global};

/// The most bytes of an input here.
const MOST_BYTES: usize = 10_000;

/// The line at fault as it is shown, and what is known to be wrong with it.
pub(crate) fn whole_help(alloc: Global, input: &[u8], line: u32) -> Result<Vec<u8>, AllocError> {
    let mut text = Vec::new(alloc);
    text.extend_from_slice(line_help(alloc, input, line)?.as_bytes())?;
    text.extend_from_slice(script_help(alloc, input, line)?.as_bytes())?;
    Ok(text)
}

/// The first line at fault, as the reader of inputs says it.
pub(crate) fn line_at_fault(alloc: Global, input: &[u8]) -> Result<Option<u32>, AllocError> {
    if input.len() > MOST_BYTES {
        return Ok(None);
    }
    match read_input(alloc, input) {
        Ok(_) => Ok(None),
        Err(InputError::Script { line }) => Ok(Some(line)),
        Err(InputError::NoMemory) => Err(AllocError),
    }
}
