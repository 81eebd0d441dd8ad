//! Each public call once, with ample memory: no clause says that memory is left.
use field_types::texts::Image;
use member_slots::member::Member;
use member_slots::members::Members;
use member_slots::slot::Slot;
use std::alloc::Global;
use std::test::Fail;

fn shows(slot: &Slot, image: &[u8]) -> bool {
    match slot {
        Slot::Live(found) => found.as_bytes() == image,
        Slot::Deleted => false,
    }
}

#[test]
fn a_member_numbers_its_records(rt: HostRuntime) -> Result<(), Fail> {
    let alloc = rt.alloc();
    let mut member = Member::new(alloc, 3);
    assert_eq!(rt; member.length(), 3);
    assert!(rt; !member.is_full());
    member.reserve(2)?;
    assert_eq!(rt;
        member.append(Image::from_slice(alloc, b"ANN")?).ok(),
        Some(1)
    );
    assert_eq!(rt;
        member.append(Image::from_slice(alloc, b"BOB")?).ok(),
        Some(2)
    );
    let kept = member.slot(2).copied(alloc)?;
    assert!(rt; shows(&kept, b"BOB"));
    let removed = member.set(1, Slot::Deleted);
    assert!(rt; shows(&removed, b"ANN"));
    member.reorganize();
    assert_eq!(rt; member.slots(), 1);
    assert!(rt; shows(member.slot(1), b"BOB"));
    member.clear();
    assert_eq!(rt; member.slots(), 0);
    Ok(())
}

// The relative record number of a new record of the member, or 0 where it has no place for it.
fn added(alloc: Global, members: &mut Members, number: u32, image: &[u8]) -> Result<u32, Fail> {
    let Some(member) = members.at(number) else {
        return Ok(0);
    };
    if member.length() as usize != image.len() {
        return Ok(0);
    }
    members.reserve(number, 1)?;
    Ok(
        members
            .append(number, Image::from_slice(alloc, image)?)
            .unwrap_or(0),
    )
}

// The record that is deleted at the place, where the member has it.
fn deleted(members: &mut Members, number: u32, rrn: u32) -> Option<Slot> {
    if rrn == 0 || members.at(number)?.slots() < rrn {
        return None;
    }
    Some(members.set(number, rrn, Slot::Deleted))
}

// The number of slots of the member, after it is reorganized and then cleared.
fn reduced(members: &mut Members, number: u32) -> Option<(u32, u32)> {
    if members.at(number).is_none() {
        return None;
    }
    members.reorganize(number);
    let reorganized = members.at(number)?.slots();
    members.clear(number);
    Some((reorganized, members.at(number)?.slots()))
}

#[test]
fn members_are_changed_by_number(rt: HostRuntime) -> Result<(), Fail> {
    let alloc = rt.alloc();
    let mut members = Members::new(alloc);
    members.put(7, Member::new(alloc, 3))?;
    members.put(4, Member::new(alloc, 3))?;
    for (number, image, rrn) in [
        (7, b"ANN", 1),
        (7, b"BOB", 2),
        (4, b"CID", 1),
        (5, b"DAN", 0),
    ] {
        assert_eq!(rt;
            added(alloc, &mut members, number, image)?,
            rrn,
            "{rrn} in {number}"
        );
    }
    let removed = deleted(&mut members, 7, 1).ok_or("no such record")?;
    assert!(rt; shows(&removed, b"ANN"));
    assert_eq!(rt; reduced(&mut members, 7), Some((1, 0)));
    assert!(rt; members.take(7).is_some());
    assert!(rt; members.at(7).is_none());
    assert_eq!(rt; reduced(&mut members, 4), Some((1, 0)));
    Ok(())
}
