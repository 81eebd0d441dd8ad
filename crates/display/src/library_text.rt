//! The display of a library in three steps: its first line and its files, the lines of entries as they come, and END. Whoever has the entries makes the text:
//! those of a large journal needn't be in memory at once.
ghost use Rattle.std.specs.Prelude.{◌≡◌, ◌++◌, OnOk, IfOk};
ghost use Rattle.std.specs.List.{flat_map};
ghost use Rattle.display.specs.Display.{library_line, entry_line, display_front, end_line};

use crate::files::push_files;
use crate::parameters::push_number_parameter;
use entry_codec::Entry;
use file_catalogue::Catalogue;
use listing::entries::push_entry;
use member_slots::members::Members;
use std::alloc::{AllocError, Global};

/// What stands before the entries: the text of a library with these files and members, where the last entry has this sequence and this receiver is attached.
#[tactic(auto, unfolding(crate::specs::Display::display_front))]
pub fn begin_display(
    alloc: Global,
    last: u64,
    attached: u32,
    catalogue: &Catalogue,
    members: &Members,
) -> Result<Vec<u8>, AllocError>
    ensures { IfOk result (λ text. text.items ≡ display_front last attached catalogue.now.files members.now.members) }
{
    let mut out = Vec::new(alloc);
    push_library_line(&mut out, last, attached)?;
    push_files(&mut out, catalogue, members)?;
    Ok(out)
}

#[tactic(auto, unfolding(crate::specs::Display::library_line))]
fn push_library_line(out: &mut Vec<u8>, last: u64, attached: u32) -> Result<(), AllocError>
    ensures { OnOk result (out.new.items ≡ out.old.items ++ library_line last attached) }
{
    out.extend_from_slice(b"LIBRARY")?;
    push_number_parameter(out, b"SEQ", last)?;
    push_number_parameter(out, b"RCV", u64::from(attached))?;
    out.push(b'\n')?;
    Ok(())
}

/// Appends entries, each on a line.
pub fn push_entries(out: &mut Vec<u8>, entries: &[Entry]) -> Result<(), AllocError>
    ensures { OnOk result (out.new.items ≡ out.old.items ++ flat_map entry_line entries.now) }
{
    for entry in entries {
        push_entry_line(out, entry)?;
    }
    Ok(())
}

#[tactic(auto, unfolding(crate::specs::Display::entry_line))]
fn push_entry_line(out: &mut Vec<u8>, entry: &Entry) -> Result<(), AllocError>
    ensures { OnOk result (out.new.items ≡ out.old.items ++ entry_line entry.now) }
{
    push_entry(out, entry)?;
    out.push(b'\n')?;
    Ok(())
}

/// Appends what stands behind the entries.
pub fn end_display(out: &mut Vec<u8>) -> Result<(), AllocError>
    ensures { OnOk result (out.new.items ≡ out.old.items ++ end_line) }
{
    out.extend_from_slice(b"END\n")?;
    Ok(())
}
