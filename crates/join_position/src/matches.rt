//! What a position keeps of the records of the secondary files.
ghost use Rattle.std.specs.Prelude.{◌≡◌, ◌≤◌, ◌<◌, Some, None, map, All, IfOk};
ghost use Rattle.access_path.specs.KeyFields.{AreBytes, HasPosition};
ghost use Rattle.join_position.specs.Kept.{IsThere, value_kept, value_placed, record_kept, none_kept, number_kept, numbers_kept};
ghost use Rattle.join_position.specs.RowReads.{IsNumber, AreNumbers};

use crate::given::write_sequence;
use access_path::key_order::widths::bound;
use file_model::joins::Secondary;
use join_rows::positions::MatchPlace;
use join_rows::trials::image_at;
use key_spec::KeyPart;
use member_slots::members::Members;
use std::alloc::{AllocError, Global};
use std::marker::Model;

/// What a position keeps of a secondary file's record.
#[derive(Drop)]
pub(crate) struct KeptMatch {
    /// The position of JDUPSEQ.
    part: KeyPart,
    /// The bytes of the value there.
    bytes: Vec<u8>,
    /// None where no record is joined.
    number: Option<u32>,
}

impl Model for KeptMatch {
    ghost use Rattle.std.specs.Prelude.{vec_capacity};
    ghost use Rattle.join_position.specs.Kept.{MatchKept, IsMatchKept};

    ghost Value = { MatchKept };

    ghost view = { λ m. record { part = m.part; bytes = m.bytes.items; number = m.number } };

    ghost invariant = { λ m. IsMatchKept m.part m.bytes.items m.number (vec_capacity m.bytes) };
}

impl KeptMatch {
    /// No record, with room for the value of any.
    pub(crate) fn new(alloc: Global, part: KeyPart) -> Result<KeptMatch, AllocError>
        ensures { IfOk result (λ m. m.part ≡ part) }
    {
        let bytes = Vec::with_capacity(alloc, bound(std::slice::from_ref(&part)))?;
        Ok(KeptMatch {
            part,
            bytes,
            number: None,
        })
    }

    /// Keeps a record. It takes no memory.
    fn keep(&mut self, image: &[u8], rrn: u32)
        requires some { 1 ≤ rrn }
        requires most { rrn < 4294967295 }
        requires bytes { AreBytes image.now }
        requires there { HasPosition self.old.part image.now }
        ensures { self.new ≡ record_kept image.now rrn self.old }
    {
        write_sequence(&self.part, image, &mut self.bytes);
        self.number = Some(rrn);
    }

    /// Keeps that there is none.
    fn miss(&mut self)
        ensures { self.new ≡ none_kept self.old }
    {
        self.number = None;
    }

    /// What a read is given of it.
    pub(crate) fn place(&self) -> MatchPlace<'_>
        ensures value { value_placed result ≡ value_kept self.now }
        ensures there { IsThere self.now.part self.now.bytes self.now.number }
    {
        match self.number {
            None => MatchPlace::Missing,
            Some(rrn) => MatchPlace::Record {
                sequence: self.bytes.as_slice(),
                rrn,
            },
        }
    }
}

/// No record of any of these files.
pub(crate) fn none_of(alloc: Global, files: &[Secondary]) -> Result<Vec<KeptMatch>, AllocError>
    ensures { IfOk result (λ matches. map (λ m. m.part) matches.items ≡ map (λ file. file.sequence) files.now) }
{
    let mut matches = Vec::new(alloc);
    for file in files {
        matches.push(KeptMatch::new(alloc, file.sequence)?)?;
    }
    Ok(matches)
}

/// What a read is given of all.
pub(crate) fn places(
    alloc: Global,
    matches: &[KeptMatch],
) -> Result<Vec<MatchPlace<'_>>, AllocError>
    ensures values { IfOk result (λ places. map value_placed places.items ≡ map value_kept matches.now) }
    ensures there { IfOk result (λ places. All (λ m. IsThere m.part m.bytes m.number) matches.now) }
{
    let mut places = Vec::new(alloc);
    for kept in matches {
        places.push(kept.place())?;
    }
    Ok(places)
}

/// Keeps the records with these numbers, one of each file. It takes no memory.
pub(crate) fn keep_all(
    files: &[Secondary],
    members: &Members,
    numbers: &[Option<u32>],
    matches: &mut [KeptMatch],
)
    requires parts { map (λ file. file.sequence) files.now ≡ map (λ m. m.part) matches.old }
    requires there { AreNumbers members.now.members files.now numbers.now }
    ensures { matches.new ≡ numbers_kept members.now.members files.now numbers.now matches.old }
{
    let [file, further @ ..] = files else {
        return;
    };
    let [number, others @ ..] = numbers else {
        return;
    };
    let Some((kept, more)) = matches.split_first_mut() else {
        return;
    };
    keep_number(file, members, *number, kept);
    keep_all(further, members, others, more);
}

fn keep_number(file: &Secondary, members: &Members, number: Option<u32>, kept: &mut KeptMatch)
    requires part { file.now.sequence ≡ kept.old.part }
    requires there { IsNumber members.now.members file.now number }
    ensures { kept.new ≡ number_kept members.now.members file.now number kept.old }
{
    match number {
        None => kept.miss(),
        Some(rrn) => kept.keep(image_at(members, file.member, rrn), rrn),
    }
}
