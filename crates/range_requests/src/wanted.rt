//! What has to be read of the journal for a request.
use library_model::requests::{JournaledChanges, RangeEnd};
use library_parts::{Contents, MemberFound, Stop, may_deposit};

/// A member, and the sequences of the ends of its range, as far as they are known without the entries.
#[derive(Clone, Copy)]
pub struct RangeWanted {
    pub member: u32,
    pub from: Option<u64>,
    pub to: Option<u64>,
}

/// What the request reads; none where it is refused without any entry.
pub fn range_wanted(contents: &Contents, args: &JournaledChanges) -> Option<RangeWanted> {
    match journaled_member(contents, args) {
        Ok(Some(member)) => Some(RangeWanted {
            member,
            from: known(contents, args.from),
            to: known(contents, args.to),
        }),
        Ok(None) | Err(_) => None,
    }
}

/// The number of the member that is named, where it is there, isn't used and is journaled.
fn journaled_member(contents: &Contents, args: &JournaledChanges) -> Result<Option<u32>, Stop> {
    may_deposit(contents)?;
    let MemberFound { status, .. } = contents.member_of_file(&args.file, &args.member)?;
    let member = status.number();
    if contents.user_of(member).is_some() || status.images().is_none() {
        return Ok(None);
    }
    Ok(Some(member))
}

/// The sequence of an end, but where the member's last break has to be found.
fn known(contents: &Contents, end: RangeEnd) -> Option<u64> {
    match end {
        RangeEnd::First => None,
        RangeEnd::Last => Some(contents.bounds().1),
        RangeEnd::Sequence(sequence) => Some(sequence),
    }
}
