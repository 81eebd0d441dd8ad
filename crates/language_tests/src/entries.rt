//! Entries of the journal as they are printed, worked out by hand from the form of a line.
use commit_level::Level;
use entry_codec::{Entry, EntryKind, FileKind, Images};
use field_types::names::Name;
use field_types::texts::{Image, SourceText};
use listing::entries::push_entry;
use std::alloc::{AllocError, Global};
use std::process::Abort;
use std::test::Fail;

fn name(text: &str) -> Result<Name, Fail> {
    Ok(Name::from_bytes(text.as_bytes()).ok_or("not a name")?)
}

fn image(alloc: Global, bytes: &[u8]) -> Result<Image, Fail> {
    Ok(Image::from_slice(alloc, bytes)?)
}

/// An entry of record 3 of member 1 by job J1, in commit cycle 9.
fn in_cycle(job: Name, sequence: u64, kind: EntryKind) -> Entry {
    Entry {
        sequence,
        job: Some(job),
        moment: 70,
        group: Some(9),
        member: Some(1),
        rrn: Some(3),
        kind,
    }
}

/// An entry that names nothing but itself.
fn alone(sequence: u64, kind: EntryKind) -> Entry {
    Entry {
        sequence,
        job: None,
        moment: 0,
        group: None,
        member: None,
        rrn: None,
        kind,
    }
}

fn printed(alloc: Global, entry: Entry) -> Result<Vec<u8>, AllocError> {
    let mut out = Vec::new(alloc);
    push_entry(&mut out, &entry)?;
    Ok(out)
}

fn is_printed(
    rt: &impl Abort,
    alloc: Global,
    entry: Entry,
    place: &str,
    body: &str,
) -> Result<(), Fail> {
    let out = printed(alloc, entry)?;
    let (front, back) = out.as_slice().split_at(place.len().min(out.len()));
    assert_eq!(rt; front, place.as_bytes(), "{place}");
    assert_eq!(rt; back, body.as_bytes(), "{body}");
    Ok(())
}

#[test]
fn record_entries(rt: HostRuntime) -> Result<(), Fail> {
    let alloc = rt.alloc();
    let job = name("J1")?;
    let added = EntryKind::RecordAdded {
        image: image(alloc, b"\xC1\xC2")?,
    };
    is_printed(
        &rt,
        alloc,
        in_cycle(job, 5, added),
        "ENT 5 R PT JOB(J1) AT(70) GRP(9) MBR(1) RRN(3)",
        " IMG(1 'AB')",
    )?;
    let changed = EntryKind::AfterImage {
        has_before: true,
        image: image(alloc, b"\x00\xFF")?,
    };
    is_printed(
        &rt,
        alloc,
        in_cycle(job, 6, changed),
        "ENT 6 R UP JOB(J1) AT(70) GRP(9) MBR(1) RRN(3)",
        " IMG(2 X'00FF')",
    )?;
    let deleted = EntryKind::RecordDeleted { before: None };
    is_printed(
        &rt,
        alloc,
        in_cycle(job, 7, deleted),
        "ENT 7 R DL JOB(J1) AT(70) GRP(9) MBR(1) RRN(3)",
        " IMG(0)",
    )
}

#[test]
fn other_entries(rt: HostRuntime) -> Result<(), Fail> {
    let alloc = rt.alloc();
    let created = EntryKind::FileCreated {
        kind: FileKind::Physical,
        name: name("CUST")?,
        source: SourceText::from_slice(alloc, b"A  R CUSTR")?,
    };
    is_printed(
        &rt,
        alloc,
        alone(1, created),
        "ENT 1 D CT JOB() AT(0) GRP(0) MBR(0) RRN(0)",
        " KIND(*PHY) NAME(CUST) LEN(10)",
    )?;
    let begun = EntryKind::JournalingStarted {
        images: Images::Both,
        slots: 2,
    };
    is_printed(
        &rt,
        alloc,
        alone(2, begun),
        "ENT 2 F JM JOB() AT(0) GRP(0) MBR(0) RRN(0)",
        " IMAGES(*BOTH) SLOTS(2)",
    )?;
    let removed = EntryKind::ChangesRemoved {
        first: 9,
        last: 20,
        changes: 4,
    };
    is_printed(
        &rt,
        alloc,
        alone(3, removed),
        "ENT 3 F RC JOB() AT(0) GRP(0) MBR(0) RRN(0)",
        " ENT(9 20) CHG(4)",
    )?;
    is_printed(
        &rt,
        alloc,
        alone(4, EntryKind::CommitmentStarted { level: Level::Cs }),
        "ENT 4 C BC JOB() AT(0) GRP(0) MBR(0) RRN(0)",
        " LVL(*CS)",
    )?;
    is_printed(
        &rt,
        alloc,
        alone(5, EntryKind::AbnormalEnd),
        "ENT 5 J IA JOB() AT(0) GRP(0) MBR(0) RRN(0)",
        "",
    )
}
