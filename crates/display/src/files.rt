//! Files as they are shown, with the lines of their sources.
ghost use Rattle.std.specs.Prelude.{◌≡◌, ◌++◌, OnOk};
ghost use Rattle.std.specs.List.{flat_map};
ghost use Rattle.text_lines.specs.Lines.{lines_of};
ghost use Rattle.display.specs.Display.{kind_text, file_line, source_line, file_text};

use crate::members::push_members;
use entry_codec::FileKind;
use field_types::names::Name;
use file_catalogue::{Catalogue, File};
use member_slots::members::Members;
use std::alloc::AllocError;
use text_lines::lines::split_line;

/// Appends the files in order of creation, each with its source and its members.
pub(crate) fn push_files(
    out: &mut Vec<u8>,
    catalogue: &Catalogue,
    members: &Members,
) -> Result<(), AllocError>
    ensures { OnOk result (out.new.items ≡ out.old.items ++ flat_map (file_text members.now.members) catalogue.now.files) }
{
    for (name, file) in catalogue.iter() {
        push_file(out, members, name, file)?;
    }
    Ok(())
}

#[tactic(auto, unfolding(crate::specs::Display::file_text))]
fn push_file(
    out: &mut Vec<u8>,
    members: &Members,
    name: &Name,
    file: &File,
) -> Result<(), AllocError>
    ensures { OnOk result (out.new.items ≡ out.old.items ++ file_text members.now.members (name.now, file.now)) }
{
    push_file_line(out, name, file)?;
    push_source(out, file.source().as_bytes())?;
    push_members(out, members, file.members().as_slice())
}

#[tactic(auto, unfolding(crate::specs::Display::file_line))]
fn push_file_line(out: &mut Vec<u8>, name: &Name, file: &File) -> Result<(), AllocError>
    ensures { OnOk result (out.new.items ≡ out.old.items ++ file_line name.now file.now.spec) }
{
    out.extend_from_slice(b"FILE ")?;
    out.extend_from_slice(name.as_bytes())?;
    out.push(b' ')?;
    out.extend_from_slice(kind_text(file))?;
    out.push(b'\n')?;
    Ok(())
}

fn kind_text(file: &File) -> &'static [u8]
    ensures { result.now ≡ kind_text file.now.spec }
{
    match file.kind() {
        FileKind::Physical => b"*PHY",
        FileKind::Logical => b"*LGL",
    }
}

/// Appends the lines of a source.
fn push_source(out: &mut Vec<u8>, text: &[u8]) -> Result<(), AllocError>
    ensures { OnOk result (out.new.items ≡ out.old.items ++ flat_map source_line (lines_of text.now)) }
{
    let mut rest = text;
    while let Some((line, behind)) = split_line(rest) {
        push_source_line(out, line)?;
        rest = behind;
    }
    Ok(())
}

#[tactic(auto, unfolding(crate::specs::Display::source_line))]
fn push_source_line(out: &mut Vec<u8>, line: &[u8]) -> Result<(), AllocError>
    ensures { OnOk result (out.new.items ≡ out.old.items ++ source_line line.now) }
{
    out.extend_from_slice(b"SRC ")?;
    out.extend_from_slice(line)?;
    out.push(b'\n')?;
    Ok(())
}
