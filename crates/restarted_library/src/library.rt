//! The files and members that a journal leaves are put into a library one after another, in the order of their creation.
ghost use Rattle.std.specs.Prelude.{◌≡◌, ◌+◌, ◌≤◌, List, [], take, length, IfOk, OnOk};
ghost use Rattle.entry_codec.specs.declared.kinds.FileKind.TheVariants.{Physical};
ghost use Rattle.journal_model.specs.Catalogue.{CatalogFile};
ghost use Rattle.memory_journal.specs.Blanks.{blanks};
ghost use Rattle.journal_replay.specs.Left.{IsLeft};
ghost use Rattle.restart_model.specs.Libraries.{journal_with, library_left};
ghost use Rattle.restart_model.specs.Sources.{descriptions};
ghost use Rattle.library_parts.specs.Remembered.{remembered};
ghost use Rattle.restarted_library.specs.Built.{IsBuilt};
ghost use Rattle.restarted_library.specs.Steps.{AddsOwned, Leads};

use crate::placing::{put_member, put_physical, put_view, raise};
use entry_codec::{Entry, FileKind};
use field_types::names::Name;
use field_types::texts::SourceText;
use library_parts::Contents;
use memory_journal::journal::LAST_NUMBER;
use replay_files::Files;
use replay_members::Members;
use replay_step::Replay;
use std::alloc::{AllocError, Global};

/// What the memory has of the library that these entries leave, of which the replay is what they leave, with this receiver attached. The entries stay on the disk. Where something doesn't fit, as in a journal that no
/// library deposited, that is answered like want of memory.
pub fn restarted_contents(
    alloc: Global,
    entries: &[Entry],
    replay: Replay,
    attached: u32,
) -> Result<Contents, AllocError>
    requires left { IsLeft descriptions (λ _. 0) (journal_with entries.now) replay }
    ensures left { IfOk result (λ contents. contents.state ≡ remembered (library_left (λ _. 0) attached (journal_with entries.now))) }
{
    let mut contents = begun(alloc, entries.len(), attached)?;
    put_all(&mut contents, replay.files(), replay.members())?;
    Ok(contents)
}

/// A library that has so many entries on the disk, and nothing else.
fn begun(alloc: Global, count: usize, attached: u32) -> Result<Contents, AllocError>
    ensures { IfOk result (λ contents. IsBuilt (blanks 1 count) attached [] [] contents.state) }
{
    if count as u64 > LAST_NUMBER {
        return Err(AllocError);
    }
    Ok(Contents::restarted(alloc, count as u64, attached))
}

/// Puts all files and members into a library that has none.
fn put_all(contents: &mut Contents, files: &Files, members: &Members) -> Result<(), AllocError>
    ensures built { OnOk result (Leads contents.old.state [] [] contents.new.state files.now members.now.members) }
    ensures next { OnOk result (contents.new.state.next_member ≡ members.now.next) }
{
    let done = put_files(contents, files, members)?;
    put_members(contents, members, done, members.len())?;
    raise(contents, members.next())?;
    Ok(())
}

/// Puts all files, and before each the members that come before its own, and answers how many members these are.
fn put_files(contents: &mut Contents, files: &Files, members: &Members) -> Result<usize, AllocError>
    ensures built { IfOk result (λ done. Leads contents.old.state [] [] contents.new.state files.now (take done members.now.members)) }
    ensures few { IfOk result (λ done. done ≤ length members.now.members) }
{
    let mut done = 0;
    for place in 0..files.len() {
        done = put_file(contents, files, members, place, done)?;
    }
    Ok(done)
}

/// Puts the file at a place, and before it the members that come before its own, where so many have been put.
fn put_file(
    contents: &mut Contents,
    files: &Files,
    members: &Members,
    place: usize,
    done: usize,
) -> Result<usize, AllocError>
    requires { done ≤ length members.now.members }
    ensures built { IfOk result (λ later. Leads contents.old.state (take place files.now) (take done members.now.members) contents.new.state (take (place + 1) files.now) (take later members.now.members)) }
    ensures few { IfOk result (λ later. later ≤ length members.now.members) }
{
    let Some((name, file)) = files.at(place) else {
        return Err(AllocError);
    };
    match file.kind {
        FileKind::Logical => {
            put_view(contents, *name, &file.source)?;
            Ok(done)
        }
        FileKind::Physical => {
            let later = put_owner(contents, members, *name, &file.source, done)?;
            Ok(later)
        }
    }
}

/// Puts a physical file with its first member, and before it the members that come before that one.
fn put_owner(
    contents: &mut Contents,
    members: &Members,
    name: Name,
    source: &SourceText,
    done: usize,
) -> Result<usize, AllocError>
    requires { done ≤ length members.now.members }
    ensures built { IfOk result (λ later. AddsOwned contents.old.state contents.new.state Physical name source.now (take done members.now.members) (take later members.now.members)) }
    ensures few { IfOk result (λ later. later ≤ length members.now.members) }
{
    let first = first_of(members, &name, done);
    if first >= members.len() {
        return Err(AllocError);
    }
    put_members(contents, members, done, first)?;
    let Some((number, member)) = members.at(first) else {
        return Err(AllocError);
    };
    put_physical(contents, name, source, *number, member)?;
    Ok(first + 1)
}

/// Where the first member of the file stands from this place on.
fn first_of(members: &Members, name: &Name, from: usize) -> usize
    requires { from ≤ length members.now.members }
    ensures behind { from ≤ result }
    ensures few { result ≤ length members.now.members }
{
    let mut place = from;
    while place < members.len() && !is_of(members, name, place) {
        place += 1;
    }
    place
}

/// Whether the member at the place is one of the file.
fn is_of(members: &Members, name: &Name, place: usize) -> bool {
    match members.at(place) {
        Some((_, member)) => member.file() == *name,
        None => false,
    }
}

/// Puts the members from a place up to another, where those before it have been put.
fn put_members(
    contents: &mut Contents,
    members: &Members,
    from: usize,
    to: usize,
) -> Result<(), AllocError>
    requires { from ≤ to }
    ensures { OnOk result ((catalog : List CatalogFile) → Leads contents.old.state catalog (take from members.now.members) contents.new.state catalog (take to members.now.members)) }
{
    for place in from..to {
        put_at(contents, members, place)?;
    }
    Ok(())
}

/// Puts the member at a place.
fn put_at(contents: &mut Contents, members: &Members, place: usize) -> Result<(), AllocError>
    ensures { OnOk result ((catalog : List CatalogFile) → Leads contents.old.state catalog (take place members.now.members) contents.new.state catalog (take (place + 1) members.now.members)) }
{
    let Some((number, member)) = members.at(place) else {
        return Err(AllocError);
    };
    put_member(contents, *number, member)?;
    Ok(())
}
