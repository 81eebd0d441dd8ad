//! What the calls of a library rest on, looked for in one that was restarted.
ghost use Rattle.std.specs.Prelude.{◌≡◌, ◌≤◌, [], true};
ghost use Rattle.std.specs.List.{AllByRecursion};
ghost use Rattle.library_steps.specs.declared.limits.TheConstants.{LAST_SEQUENCE};
ghost use Rattle.library_steps.specs.State.{memory_of};
ghost use Rattle.kept_library.specs.Counted.{HasBytes};
ghost use Rattle.kept_library.specs.Journaled.{MayDeposit};

use described_journals::file_catalogue::{Catalogue, File};
use library_steps::limits::LAST_SEQUENCE;
use member_slots::members::Members;
use restarted_library::library_parts::Contents;

/// Whether members are counted from 1, records have bytes, and sequences are left, as in any library that was kept.
pub(crate) fn may_deposit(contents: &Contents) -> bool
    requires none { contents.now.state.jobs ≡ [] }
    requires unsaved { contents.now.state.checkpoint ≡ 0 }
    ensures { result ≡ true → MayDeposit contents.now.state }
{
    if !has_numbers(contents) {
        return false;
    }
    if !are_counted(contents.members()) {
        return false;
    }
    have_bytes(contents.catalogue())
}

/// Whether the next member's number isn't 0, and sequences are left.
fn has_numbers(contents: &Contents) -> bool
    ensures next { result ≡ true → 1 ≤ contents.now.state.next_member }
    ensures last { result ≡ true → (memory_of contents.now.state).last_entry ≤ LAST_SEQUENCE }
{
    let (_, next) = contents.counts();
    let (_, last) = contents.bounds();
    1 <= next && last <= LAST_SEQUENCE
}

/// Whether no member has the number 0.
fn are_counted(members: &Members) -> bool
    ensures { result ≡ true → AllByRecursion (λ entry. 1 ≤ entry.number) members.now.members }
{
    match members.at(0) {
        Some(_) => false,
        None => true,
    }
}

/// Whether each physical file's records have a byte.
fn have_bytes(catalogue: &Catalogue) -> bool
    ensures { result ≡ true → AllByRecursion (λ entry. HasBytes entry.1.spec) catalogue.now.files }
{
    for (_, file) in catalogue.iter() {
        if !has_bytes(file) {
            return false;
        }
    }
    true
}

fn has_bytes(file: &File) -> bool
    ensures { result ≡ true → HasBytes file.now.spec }
{
    match file.format() {
        Some(format) => 1 <= format.length(),
        None => true,
    }
}
