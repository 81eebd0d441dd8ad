//! A physical file by its source, or the first fault of the source.
ghost use Rattle.std.specs.Prelude.{◌≡◌, [], None, is_some, true, codes, IfOk, IfErr, OnOk};
ghost use Rattle.dds_source.specs.Faults.{first_after};
ghost use Rattle.dds_physical.specs.Keywords.{is_there};
ghost use Rattle.dds_physical.specs.Draft.{nothing};
ghost use Rattle.dds_physical.specs.Physical.{IsComplete, IfNothing, draft_of, faults_of, ties_of, finished, specification, physical_of, Gives, ReportsFirst};
ghost use Rattle.dds_physical.specs.declared.physical_files.PhysicalError.TheVariants.{NoMemory};

use crate::draft::Draft;
use crate::file_keywords::{note_file, note_whole};
use crate::first::FirstFault;
use crate::keyword_names::first_named;
use crate::lines::read_lines;
use crate::references::reference_file;
use crate::refs::Refs;
use dds_source::faults::DdsFault;
use dds_source::keywords::Keyword;
use dds_source::specifications::Source;
use field_types::names::Name;
use key_spec::{KeySpec, Ties};
use record_fmt::formats::Format;
use std::alloc::{AllocError, Global};

/// What a source describes: the record format, and the key.
#[derive(Drop)]
pub struct PhysicalSpec {
    pub format: Format,
    pub keys: KeySpec,
}

impl PhysicalSpec {
    /// A copy in memory of its own.
    pub fn copied(&self, alloc: Global) -> Result<PhysicalSpec, AllocError>
        ensures { IfOk result (λ spec. spec ≡ self.now) }
    {
        Ok(PhysicalSpec {
            format: self.format.copied(alloc)?,
            keys: self.keys.copied(alloc)?,
        })
    }
}

/// Why a source describes no physical file.
#[derive(Drop)]
pub enum PhysicalError {
    /// Memory ran out; the source may be fine.
    NoMemory,
    /// The source's first fault.
    Fault(DdsFault),
}

impl From<AllocError> for PhysicalError {
    ghost from_gives = { λ _ e. e ≡ NoMemory };

    fn from(_e: AllocError) -> PhysicalError {
        PhysicalError::NoMemory
    }
}

/// The physical file that a source describes, where the files of `refs` are there to refer to.
///
/// Fields take memory as they are read, so memory may run out before a fault is found. Time grows with the length of
/// the source and, within a format, with the square of its at most 1,000 fields.
pub fn physical<R: Refs>(
    alloc: Global,
    source: &Source,
    refs: &R,
) -> Result<PhysicalSpec, PhysicalError>
    // What is answered is what the source describes, and nothing is wrong with it.
    ensures found { IfOk result (λ spec. (faults_of (R.formats refs.now) source.now ≡ []) × (spec ≡ specification (R.formats refs.now) source.now)) }
    // What is reported is one of the faults, and none of them is before it.
    ensures first { IfErr result (ReportsFirst (faults_of (R.formats refs.now) source.now)) }
    // Both in one: what is described, or the first fault.
    ensures exact { Gives result (physical_of (R.formats refs.now) source.now) }
{
    judged(alloc, source, refs)
}

#[tactic(auto, unfolding(crate::specs::Physical::physical_of, crate::specs::Physical::specification))]
fn judged<R: Refs>(alloc: Global, source: &Source, refs: &R) -> Result<PhysicalSpec, PhysicalError>
    ensures { Gives result (physical_of (R.formats refs.now) source.now) }
{
    let keywords = source.file.as_slice();
    let mut draft = Draft::new(alloc);
    match first_fault(alloc, source, refs, &mut draft)? {
        Some(fault) => Err(PhysicalError::Fault(fault)),
        None => Ok(finished(alloc, draft, keywords)?),
    }
}

/// Reads a source into an empty draft, and tells its first fault.
#[tactic(auto, using(crate::proofs::FaultLemmas::first_after_append), unfolding(crate::specs::Physical::faults_of, crate::specs::Physical::draft_of))]
fn first_fault<R: Refs>(
    alloc: Global,
    source: &Source,
    refs: &R,
    draft: &mut Draft,
) -> Result<Option<DdsFault>, AllocError>
    requires { draft.old ≡ nothing }
    ensures fault { IfOk result (λ f. f ≡ first_after None (faults_of (R.formats refs.now) source.now)) }
    ensures described { OnOk result (draft.new ≡ draft_of (R.formats refs.now) source.now) }
    ensures complete { IfNothing result draft.new }
{
    let specifications = source.specifications.as_slice();
    let keywords = source.file.as_slice();
    let file = reference_file(keywords);
    let mut first = FirstFault::none();
    first.fault = read_lines(alloc, refs, &file, specifications, draft)?;
    note_file(refs, keywords, specifications, &mut first);
    note_whole(source.last_line, specifications, draft, &mut first);
    Ok(first.fault)
}

/// The physical file of a draft.
fn finished(alloc: Global, draft: Draft, keywords: &[Keyword]) -> Result<PhysicalSpec, AllocError>
    requires { IsComplete draft }
    ensures { IfOk result (λ spec. spec ≡ finished draft keywords.now) }
{
    let Draft {
        name,
        fields,
        key_parts,
        ..
    } = draft;
    let format = Format {
        name: name.unwrap(),
        fields: fields.to_fields(alloc)?,
    };
    let keys = KeySpec {
        parts: key_parts,
        unique: first_named(b"UNIQUE", keywords).is_some(),
        ties: ties_of(keywords),
    };
    Ok(PhysicalSpec { format, keys })
}

/// How records with equal keys are ordered.
fn ties_of(keywords: &[Keyword]) -> Ties
    ensures { result ≡ ties_of keywords.now }
{
    if first_named(b"LIFO", keywords).is_some() {
        Ties::Falling
    } else {
        Ties::Rising
    }
}
