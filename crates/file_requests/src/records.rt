//! The records of a member: how many there are, and the entries that tell of them as journaling begins.
ghost use Rattle.std.specs.Prelude.{◌≡◌, ◌+◌, ◌<◌, ◌≤◌, ◌++◌, length, IfOk, OnOk};
ghost use Rattle.member_slots.specs.Member.{records};
ghost use Rattle.member_slots.specs.Members.{member_of};
ghost use Rattle.library_steps.specs.Records.{live_record};
ghost use Rattle.library_steps.specs.State.{memory_of};
ghost use Rattle.file_requests.specs.Records.{count_at, drafts_at, start_drafts};

use entry_codec::{Draft, EntryKind, Images};
use field_types::texts::Image;
use library_parts::{Author, Contents};
use std::alloc::AllocError;

/// How many slots the member has.
fn slots_of(contents: &Contents, member: u32) -> u32
    ensures count { result ≡ length (member_of member contents.now.state.members).slots }
    ensures few { result < 4294967295 }
{
    contents.next_place(member) - 1
}

/// How many records the member has.
pub(crate) fn record_count(contents: &Contents, member: u32) -> u32
    ensures { result ≡ length (records (member_of member contents.now.state.members)) }
{
    let mut count = 0;
    for place in 0..slots_of(contents, member) {
        count += count_at(contents, member, place + 1);
    }
    count
}

/// 1 where a record stands at the place, else 0.
fn count_at(contents: &Contents, member: u32, rrn: u32) -> u32
    ensures count { result ≡ count_at (live_record member rrn (memory_of contents.now.state)) }
    ensures few { result ≤ 1 }
{
    match contents.live_image(member, rrn) {
        Some(_) => 1,
        None => 0,
    }
}

/// That journaling begins, and each record that stands there.
pub(crate) fn drafts_of_start(
    contents: &Contents,
    author: &Author,
    images: Images,
    member: u32,
) -> Result<Vec<Draft>, AllocError>
    ensures drafts { IfOk result (λ drafts. drafts.items ≡ start_drafts author.now member images (member_of member contents.now.state.members).slots) }
    ensures few { IfOk result (λ drafts. length drafts.items ≤ 4294967295) }
{
    let slots = slots_of(contents, member);
    let kind = EntryKind::JournalingStarted { images, slots };
    let mut drafts = Vec::new(contents.alloc());
    drafts.push(author.member_draft(member, kind))?;
    for place in 0..slots {
        push_record(contents, author, member, place + 1, &mut drafts)?;
    }
    Ok(drafts)
}

/// Adds the entry of the record, where one stands at the place.
fn push_record(
    contents: &Contents,
    author: &Author,
    member: u32,
    rrn: u32,
    drafts: &mut Vec<Draft>,
) -> Result<(), AllocError>
    ensures few { OnOk result (length drafts.new.items ≤ length drafts.old.items + 1) }
    ensures drafts { OnOk result (drafts.new.items ≡ drafts.old.items ++ drafts_at author.now member rrn (live_record member rrn (memory_of contents.now.state))) }
{
    match contents.live_image(member, rrn) {
        None => Ok(()),
        Some(bytes) => {
            let image = Image::from_slice(contents.alloc(), bytes)?;
            let kind = EntryKind::InitialSlot { image };
            drafts.push(author.record_draft(None, member, rrn, kind))?;
            Ok(())
        }
    }
}
