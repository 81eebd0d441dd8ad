//! What a physical file's source describes beside the files of a journal. Of the others only those are described that it names, and that these name.
ghost use Rattle.std.specs.Prelude.{◌≡◌, ℕ, ◌+◌, ◌<◌, List, [], ◌∷◌, Option, None, true, false, length, reverse, slice_get, take, IfOk, OnOk};
ghost use Rattle.std.specs.List.{list_any};
ghost use Rattle.std.specs.Option.{option_map};
ghost use Rattle.dds_source.specs.Reading.{source_of};
ghost use Rattle.dds_physical.specs.References.{refers_to};
ghost use Rattle.dds_physical.specs.Physical.{physical_of};
ghost use Rattle.logical_model.specs.Bases.{PhysicalFile};
ghost use Rattle.entry_codec.specs.declared.kinds.FileKind.TheVariants.{Physical};
ghost use Rattle.journal_replay.specs.Tests.{is_physical};
ghost use Rattle.named_bases.specs.Sources.{described_files, format_named, if_physical, spec_beside};
ghost use Rattle.described_journals.specs.Files.{described_upon};
ghost use Rattle.described_journals.specs.Needed.{found, found_before, is_wanted, needed, with_source};

use crate::described::DescribedFiles;
use crate::whole::{add_at, described_files};
use dds_physical::{PhysicalError, PhysicalSpec, physical, refers_to};
use dds_source::{Source, SourceError, read_source};
use entry_codec::FileKind;
use field_types::names::Name;
use field_types::texts::SourceText;
use replay_files::Files;
use std::alloc::{AllocError, Global};

/// The physical file that a source describes beside the files; nothing where something is wrong with it.
pub(crate) fn physical_beside(
    alloc: Global,
    files: &Files,
    source: &SourceText,
) -> Result<Option<PhysicalSpec>, AllocError>
    ensures { IfOk result (λ spec. option_map PhysicalFile spec ≡ spec_beside (described_files files.now) Physical source.now) }
{
    match read_source(alloc, source.as_bytes()) {
        Ok(source) => described(alloc, files, &source),
        Err(SourceError::NoMemory) => Err(AllocError),
        Err(SourceError::Fault(_)) => Ok(None),
    }
}

/// The same of a source that was read.
pub(crate) fn described(
    alloc: Global,
    files: &Files,
    source: &Source,
) -> Result<Option<PhysicalSpec>, AllocError>
    ensures { IfOk result (λ spec. option_map PhysicalFile spec ≡ if_physical (physical_of (format_named (described_files files.now)) source.now)) }
{
    let named = named_files(alloc, files, source)?;
    spec_over(alloc, &named, source)
}

pub(crate) fn spec_over(
    alloc: Global,
    files: &DescribedFiles,
    source: &Source,
) -> Result<Option<PhysicalSpec>, AllocError>
    ensures { IfOk result (λ spec. option_map PhysicalFile spec ≡ if_physical (physical_of (format_named files.now) source.now)) }
{
    match physical(alloc, source, files) {
        Ok(spec) => Ok(Some(spec)),
        Err(PhysicalError::NoMemory) => Err(AllocError),
        Err(PhysicalError::Fault(_)) => Ok(None),
    }
}

/// Files beside which the source describes what it does beside all of them.
fn named_files(alloc: Global, files: &Files, source: &Source) -> Result<DescribedFiles, AllocError>
    ensures { IfOk result (λ named. if_physical (physical_of (format_named named) source.now) ≡ if_physical (physical_of (format_named (described_files files.now)) source.now)) }
{
    match named_places(alloc, files, source)? {
        Some(places) => described_at(alloc, files, places),
        None => described_files(alloc, files),
    }
}

/// The files at these places, each described beside those at the places behind it.
fn described_at(
    alloc: Global,
    files: &Files,
    places: Vec<usize>,
) -> Result<DescribedFiles, AllocError>
    ensures { IfOk result (λ described. described ≡ described_upon [] (found files.now places.items)) }
{
    let mut described = DescribedFiles::new(alloc);
    let mut places = places;
    while let Some(place) = places.pop() {
        add_at(alloc, files, place, &mut described)?;
    }
    Ok(described)
}

/// The places of the files that the source names, and of those that these name, the last one first. Nothing where one of them isn't physical.
fn named_places(
    alloc: Global,
    files: &Files,
    source: &Source,
) -> Result<Option<Vec<usize>>, AllocError>
    ensures { IfOk result (λ places. option_map (λ list. found files.now list.items) places ≡ needed (reverse files.now) (source.now ∷ [])) }
{
    let mut wanted = Vec::new(alloc);
    let mut places = Vec::new(alloc);
    let mut left = files.len();
    while left > 0 {
        left -= 1;
        if !take_place(alloc, files, left, source, &mut wanted, &mut places)? {
            return Ok(None);
        }
    }
    Ok(Some(places))
}

/// Takes the place of the file there, where it is named. Whether it is physical then.
fn take_place(
    alloc: Global,
    files: &Files,
    place: usize,
    source: &Source,
    wanted: &mut Vec<Source>,
    places: &mut Vec<usize>,
) -> Result<bool, AllocError>
    requires { place < length files.now }
    ensures goes { IfOk result (λ b. b ≡ true → found_before files.now places.old.items (needed (reverse (take (place + 1) files.now)) (source.now ∷ wanted.old.items)) ≡ found_before files.now places.new.items (needed (reverse (take place files.now)) (source.now ∷ wanted.new.items))) }
    ensures stops { IfOk result (λ b. b ≡ false → needed (reverse (take (place + 1) files.now)) (source.now ∷ wanted.old.items) ≡ None) }
{
    let Some((name, file)) = files.at(place) else {
        return Ok(true);
    };
    if !is_wanted(source, wanted.as_slice(), name) {
        return Ok(true);
    }
    if !is_physical(file.kind) {
        return Ok(false);
    }
    want(alloc, wanted, &file.source)?;
    places.push(place)?;
    Ok(true)
}

/// Whether one of the sources names the file.
fn is_wanted(source: &Source, wanted: &[Source], name: &Name) -> bool
    ensures { result ≡ is_wanted name.now (source.now ∷ wanted.now) }
{
    refers_to(source, name) || is_one_named(wanted, name)
}

fn is_one_named(wanted: &[Source], name: &Name) -> bool
    ensures { result ≡ list_any (refers_to name.now) wanted.now }
{
    let mut rest = wanted;
    while let [source, more @ ..] = rest {
        if refers_to(source, name) {
            return true;
        }
        rest = more;
    }
    false
}

fn is_physical(kind: FileKind) -> bool
    ensures { result ≡ is_physical kind }
{
    match kind {
        FileKind::Physical => true,
        FileKind::Logical => false,
    }
}

/// The source of this text too, where nothing is wrong with it.
fn want(alloc: Global, wanted: &mut Vec<Source>, text: &SourceText) -> Result<(), AllocError>
    ensures { OnOk result (wanted.new.items ≡ with_source text.now wanted.old.items) }
{
    match read_source(alloc, text.as_bytes()) {
        Ok(source) => {
            wanted.push(source)?;
            Ok(())
        }
        Err(SourceError::NoMemory) => Err(AllocError),
        Err(SourceError::Fault(_)) => Ok(()),
    }
}
