//! The list of the kinds of entries: each once, with its letters, its place and the fields of its body.
//! Reader, writer and copy take their arms from it. `docs/formats/journal-entries.md` has the same table.
ghost use Rattle.std.specs.Prelude.{◌≡◌, ◌<◌, ◌^◌, IfOk, length};
ghost use Rattle.entry_codec.specs.Placing.{letters, place, place_of_file};
ghost use Rattle.entry_codec.specs.Spelling.{body, IsKind};
ghost use Rattle.entry_codec.specs.Reading.{Gives, placed, kind_at, file_kinds_at, member_kinds_at, record_kinds_at, commit_kinds_at, journal_kinds_at};
ghost use Rattle.entry_codec.specs.Writing.{HasRoom, Appends};

use crate::fields::{
    file_kind, flagged_image, has_before, image, images, level, name, number4, number8,
    optional_image, source,
};
use crate::kinds::{EntryKind, FileKind};
use crate::places::{Named, Place};
use crate::unread::Unread;
use std::alloc::{AllocError, Global};

macro_rules! entry_kinds {
    ($arms:ident!($($with:tt)*)) => {
        $arms! {
            ($($with)*)
            D {
                FileCreated b"DCT" (file_place(kind)) { kind: file_kind, name: name } + { source: source }
                FileDeleted b"DDT" (Place::Library) { name: name }
                MemberAdded b"DAM" (Place::Member) { file: name, name: name }
            }
            F {
                JournalingStarted b"FJM" (Place::Member) { images: images, slots: number4 }
                InitialSlot b"FIS" (Place::Slot) {} + { image: flagged_image }
                JournalingEnded b"FEJ" (Place::Member) {}
                MemberCleared b"FCR" (Place::Member) {}
                MemberReorganized b"FRG" (Place::Member) {}
                ChangesApplied b"FAY" (Place::Member) { first: number8, last: number8, changes: number4 }
                ChangesRemoved b"FRC" (Place::Member) { first: number8, last: number8, changes: number4 }
            }
            R {
                RecordAdded b"RPT" (Place::Record) {} + { image: flagged_image }
                RecordAddedAtNumber b"RPX" (Place::Record) {} + { image: flagged_image }
                BeforeImage b"RUB" (Place::Record) {} + { image: flagged_image }
                AfterImage b"RUP" (Place::Record) { has_before: has_before } + { image: image }
                RecordDeleted b"RDL" (Place::Record) {} + { before: optional_image }
                UndoBeforeImage b"RBR" (Place::Record) {} + { image: flagged_image }
                UndoAfterImage b"RUR" (Place::Record) { has_before: has_before } + { image: image }
                UndoDelete b"RDR" (Place::Record) {} + { image: flagged_image }
            }
            C {
                CommitmentStarted b"CBC" (Place::Commitment) { level: level }
                CommitCycleStarted b"CSC" (Place::CycleStart) {}
                CommitCycleCommitted b"CCM" (Place::CycleEnd) {}
                CommitCycleRolledBack b"CRB" (Place::CycleEnd) {}
                CommitmentEnded b"CEC" (Place::Commitment) {}
            }
            J {
                AbnormalEnd b"JIA" (Place::Library) {}
                NextReceiver b"JNR" (Place::Library) { number: number4 }
                PreviousReceiver b"JPR" (Place::Library) { number: number4 }
            }
        }
    };
}

macro_rules! letters_arms {
    (($kind:expr) $($code:ident { $($name:ident $letters:literal $place:tt { $($field:ident: $codec:ident),* } $(+ { $held:ident: $keep:ident })?)* })*) => {
        match $kind {
            $($(EntryKind::$name { .. } => $letters,)*)*
        }
    };
}

macro_rules! place_arms {
    (($kind:expr) $($code:ident { $($name:ident $letters:literal ($place:expr) { $($field:ident: $codec:ident),* } $(+ { $held:ident: $keep:ident })?)* })*) => {
        match $kind {
            $($(EntryKind::$name { $($field,)* $($held)? } => $place,)*)*
        }
    };
}

macro_rules! length_arms {
    (($kind:expr) $($code:ident { $($name:ident $letters:literal $place:tt { $($field:ident: $codec:ident),* } $(+ { $held:ident: $keep:ident })?)* })*) => {
        match $kind {
            $($(EntryKind::$name { $($field,)* $($held)? } => 0 $(+ $codec::length($field))* $(+ $keep::length($held))?,)*)*
        }
    };
}

macro_rules! put_arms {
    (($kind:expr, $out:expr) $($code:ident { $($name:ident $letters:literal $place:tt { $($field:ident: $codec:ident),* } $(+ { $held:ident: $keep:ident })?)* })*) => {
        match $kind {
            $($(EntryKind::$name { $($field,)* $($held)? } => {
                $($codec::put($field, $out);)*
                $($keep::put($held, $out);)?
            })*)*
        }
    };
}

// The arms of one code.
macro_rules! read_arms {
    ((D $with:tt) D $d:tt F $f:tt R $r:tt C $c:tt J $j:tt) => { read_rows!($with $d) };
    ((F $with:tt) D $d:tt F $f:tt R $r:tt C $c:tt J $j:tt) => { read_rows!($with $f) };
    ((R $with:tt) D $d:tt F $f:tt R $r:tt C $c:tt J $j:tt) => { read_rows!($with $r) };
    ((C $with:tt) D $d:tt F $f:tt R $r:tt C $c:tt J $j:tt) => { read_rows!($with $c) };
    ((J $with:tt) D $d:tt F $f:tt R $r:tt C $c:tt J $j:tt) => { read_rows!($with $j) };
}

// Each test comes before the memory: what is damaged is refused, however little memory there is.
macro_rules! read_rows {
    (($alloc:expr, $read:expr, $body:expr, $named:expr) { $($name:ident $letters:literal ($place:expr) { $($field:ident: $codec:ident),* } $(+ { $held:ident: $keep:ident })?)* }) => {{
        $(if $read == $letters.as_slice() {
            let rest = $body;
            $(let ($field, rest) = match $codec::take(rest) {
                Ok(taken) => taken,
                Err(_) => return Err(Unread::NotSpelled),
            };)*
            $(let ($held, rest) = match $keep::take(rest) {
                Ok(taken) => taken,
                Err(_) => return Err(Unread::NotSpelled),
            };)?
            if !rest.is_empty() || !$named.fit(read_place!(($place) $($field)*)) {
                return Err(Unread::NotSpelled);
            }
            return Ok(EntryKind::$name {
                $($field,)*
                $($held: $keep::owned($held, $alloc)?)?
            });
        })*
        Err(Unread::NotSpelled)
    }};
}

macro_rules! read_place {
    (($place:expr) $($field:ident)*) => {{
        $(let $field = &$field;)*
        $place
    }};
}

macro_rules! copy_arms {
    (($alloc:expr, $kind:expr) $($code:ident { $($name:ident $letters:literal $place:tt { $($field:ident: $codec:ident),* } $(+ { $held:ident: $keep:ident })?)* })*) => {
        match $kind {
            $($(EntryKind::$name { $($field,)* $($held)? } => Ok(EntryKind::$name {
                $($field: *$field,)*
                $($held: $keep::copied($held, $alloc)?)?
            }),)*)*
        }
    };
}

impl EntryKind {
    /// The code, one letter, and the type, two.
    pub fn letters(&self) -> &'static [u8; 3]
        ensures { result.now ≡ letters self.now }
    {
        entry_kinds!(letters_arms!(self))
    }

    /// What an entry of this kind names.
    pub(crate) fn place(&self) -> Place
        ensures { result ≡ place self.now }
    {
        entry_kinds!(place_arms!(self))
    }

    /// A copy in memory of its own.
    pub fn copied(&self, alloc: Global) -> Result<EntryKind, AllocError>
        ensures { IfOk result (λ k. k ≡ self.now) }
    {
        entry_kinds!(copy_arms!(alloc, self))
    }
}

fn file_place(kind: &FileKind) -> Place
    ensures { result ≡ place_of_file kind.now }
{
    match kind {
        FileKind::Physical => Place::Member,
        FileKind::Logical => Place::Library,
    }
}

/// How many bytes the body has.
pub fn body_length(kind: &EntryKind) -> usize
    requires { length (body kind.now) < 2 ^ 32 }
    ensures { result ≡ length (body kind.now) }
{
    entry_kinds!(length_arms!(kind))
}

/// Writes the body.
pub fn put_body(kind: &EntryKind, out: &mut Vec<u8>)
    requires room { HasRoom out.old (body kind.now) }
    requires fits { length (body kind.now) < 2 ^ 32 }
    ensures written { Appends out.old out.new (body kind.now) }
    ensures kept { IsKind kind.now }
{
    entry_kinds!(put_arms!(kind, out));
}

/// The kind with these letters that the body spells, all of the body, where the entry names what it has to.
#[tactic(auto, unfolding(crate::specs::Reading::kind_at, crate::specs::Reading::kind_by_code))]
pub fn kind_of(
    alloc: Global,
    letters: &[u8],
    body: &[u8],
    named: &Named,
) -> Result<EntryKind, Unread>
    ensures { Gives (λ k. k) result (placed named.now (kind_at letters.now body.now)) }
{
    match letters {
        [b'D', ..] => file_kind_of(alloc, letters, body, named),
        [b'F', ..] => member_kind_of(alloc, letters, body, named),
        [b'R', ..] => record_kind_of(alloc, letters, body, named),
        [b'C', ..] => commit_kind_of(alloc, letters, body, named),
        [b'J', ..] => journal_kind_of(alloc, letters, body, named),
        _ => Err(Unread::NotSpelled),
    }
}

#[tactic(auto, unfolding(crate::specs::Reading::file_kinds_at))]
fn file_kind_of(
    alloc: Global,
    letters: &[u8],
    body: &[u8],
    named: &Named,
) -> Result<EntryKind, Unread>
    ensures { Gives (λ k. k) result (placed named.now (file_kinds_at letters.now body.now)) }
{
    entry_kinds!(read_arms!(D(alloc, letters, body, named)))
}

#[tactic(auto, unfolding(crate::specs::Reading::member_kinds_at))]
fn member_kind_of(
    alloc: Global,
    letters: &[u8],
    body: &[u8],
    named: &Named,
) -> Result<EntryKind, Unread>
    ensures { Gives (λ k. k) result (placed named.now (member_kinds_at letters.now body.now)) }
{
    entry_kinds!(read_arms!(F(alloc, letters, body, named)))
}

#[tactic(auto, unfolding(crate::specs::Reading::record_kinds_at))]
fn record_kind_of(
    alloc: Global,
    letters: &[u8],
    body: &[u8],
    named: &Named,
) -> Result<EntryKind, Unread>
    ensures { Gives (λ k. k) result (placed named.now (record_kinds_at letters.now body.now)) }
{
    entry_kinds!(read_arms!(R(alloc, letters, body, named)))
}

#[tactic(auto, unfolding(crate::specs::Reading::commit_kinds_at))]
fn commit_kind_of(
    alloc: Global,
    letters: &[u8],
    body: &[u8],
    named: &Named,
) -> Result<EntryKind, Unread>
    ensures { Gives (λ k. k) result (placed named.now (commit_kinds_at letters.now body.now)) }
{
    entry_kinds!(read_arms!(C(alloc, letters, body, named)))
}

#[tactic(auto, unfolding(crate::specs::Reading::journal_kinds_at))]
fn journal_kind_of(
    alloc: Global,
    letters: &[u8],
    body: &[u8],
    named: &Named,
) -> Result<EntryKind, Unread>
    ensures { Gives (λ k. k) result (placed named.now (journal_kinds_at letters.now body.now)) }
{
    entry_kinds!(read_arms!(J(alloc, letters, body, named)))
}
