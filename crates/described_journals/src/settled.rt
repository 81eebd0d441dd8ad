//! Files that a physical file's source names, where each of them describes the same beside any files: as long as they are there, so does the source.
ghost use Rattle.std.specs.Prelude.{◌≡◌, true, [], ◌∷◌, option_to_list, IfOk, IfSome};
ghost use Rattle.std.specs.List.{AllByRecursion, filter_map};
ghost use Rattle.std.specs.Str.{bytes_eq};
ghost use Rattle.dds_source.specs.Reading.{source_of};
ghost use Rattle.entry_codec.specs.declared.kinds.FileKind.TheVariants.{Physical};
ghost use Rattle.named_bases.specs.Sources.{file_of_line, names_by};
ghost use Rattle.described_journals.specs.Kept.{AreSettled, IsAlone, IsRead, IsThere, has_named};

use crate::described::DescribedFiles;
use crate::naming::{file_of_line, names_nothing, reference_file};
use crate::needed::{described, spec_over};
use dds_physical::PhysicalSpec;
use dds_source::{Source, SourceError, Specification, read_source};
use entry_codec::FileKind;
use field_types::names::Name;
use field_types::texts::SourceText;
use replay_files::{File, Files};
use std::alloc::{AllocError, Global};

/// The most files that are looked for at each use of what was kept of a source.
const MOST_NAMED: usize = 4;

/// The longest source that is kept.
pub(crate) const MOST_SOURCE_BYTES: usize = 262_144;

/// A file's name and source.
#[derive(Drop)]
pub struct NamedFile {
    pub name: Name,
    pub source: SourceText,
}

/// What a source describes, and the files beside which it does so for good; nothing where there are no such files.
#[derive(Drop)]
pub struct ReadDescription {
    pub spec: PhysicalSpec,
    pub others: Option<Vec<NamedFile>>,
}

/// What the source describes beside the files; nothing where something is wrong with it.
pub(crate) fn read_description(
    alloc: Global,
    files: &Files,
    text: &SourceText,
) -> Result<Option<ReadDescription>, AllocError>
    ensures { IfOk result (IsRead files.now text.now) }
{
    match read_source(alloc, text.as_bytes()) {
        Ok(source) => description_of(alloc, files, text, &source),
        Err(SourceError::NoMemory) => Err(AllocError),
        Err(SourceError::Fault(_)) => Ok(None),
    }
}

/// The same of a source that was read.
fn description_of(
    alloc: Global,
    files: &Files,
    text: &SourceText,
    source: &Source,
) -> Result<Option<ReadDescription>, AllocError>
    requires { source_of text.now ≡ Ok source.now }
    ensures { IfOk result (IsRead files.now text.now) }
{
    match described(alloc, files, source)? {
        None => Ok(None),
        Some(spec) => {
            let others = settled_files(alloc, files, source)?;
            Ok(Some(ReadDescription { spec, others }))
        }
    }
}

// ---- when it is read

/// The files that the source names; nothing where one of them isn't there, or may describe something else beside other files.
fn settled_files(
    alloc: Global,
    files: &Files,
    source: &Source,
) -> Result<Option<Vec<NamedFile>>, AllocError>
    ensures { IfOk result (λ found. IfSome found (λ others. AreSettled files.now (names_by Physical source.now) [] others.items)) }
{
    let mut others = Vec::new(alloc);
    if !settle_if(
        alloc,
        files,
        reference_file(source.file.as_slice()),
        &mut others,
    )? {
        return Ok(None);
    }
    if !settle_lines(alloc, files, source.specifications.as_slice(), &mut others)? {
        return Ok(None);
    }
    Ok(Some(others))
}

/// Takes the files that REFFLD names in the lines.
fn settle_lines(
    alloc: Global,
    files: &Files,
    lines: &[Specification],
    others: &mut Vec<NamedFile>,
) -> Result<bool, AllocError>
    ensures { IfOk result (λ b. b ≡ true → AreSettled files.now (filter_map file_of_line lines.now) others.old.items others.new.items) }
{
    let mut rest = lines;
    while let [line, more @ ..] = rest {
        if !settle_if(alloc, files, file_of_line(line), others)? {
            return Ok(false);
        }
        rest = more;
    }
    Ok(true)
}

fn settle_if(
    alloc: Global,
    files: &Files,
    name: Option<Name>,
    others: &mut Vec<NamedFile>,
) -> Result<bool, AllocError>
    ensures { IfOk result (λ b. b ≡ true → AreSettled files.now (option_to_list name) others.old.items others.new.items) }
{
    match name {
        None => Ok(true),
        Some(name) => settle(alloc, files, &name, others),
    }
}

/// Takes the file of that name, where it isn't there yet.
fn settle(
    alloc: Global,
    files: &Files,
    name: &Name,
    others: &mut Vec<NamedFile>,
) -> Result<bool, AllocError>
    ensures { IfOk result (λ b. b ≡ true → AreSettled files.now (name.now ∷ []) others.old.items others.new.items) }
{
    if has_named(name, others.as_slice()) {
        return Ok(true);
    }
    let Some(file) = files.named(name) else {
        return Ok(false);
    };
    if others.as_slice().len() >= MOST_NAMED || !stays(alloc, file)? {
        return Ok(false);
    }
    let source = file.source.copied(alloc)?;
    others.push(NamedFile {
        name: *name,
        source,
    })?;
    Ok(true)
}

fn has_named(name: &Name, others: &[NamedFile]) -> bool
    ensures { result ≡ has_named name.now others.now }
{
    let mut rest = others;
    while let [other, more @ ..] = rest {
        if *name == other.name {
            return true;
        }
        rest = more;
    }
    false
}

/// Whether the file is physical and describes the same beside any files.
fn stays(alloc: Global, file: &File) -> Result<bool, AllocError>
    ensures { IfOk result (λ b. b ≡ true → (file.now.kind ≡ Physical) × IsAlone file.now.source) }
{
    match file.kind {
        FileKind::Logical => Ok(false),
        FileKind::Physical => is_alone(alloc, &file.source),
    }
}

fn is_alone(alloc: Global, text: &SourceText) -> Result<bool, AllocError>
    ensures { IfOk result (λ b. b ≡ true → IsAlone text.now) }
{
    if text.as_bytes().len() > MOST_SOURCE_BYTES {
        return Ok(false);
    }
    match read_source(alloc, text.as_bytes()) {
        Ok(source) => describes_alone(alloc, text, &source),
        Err(SourceError::NoMemory) => Err(AllocError),
        Err(SourceError::Fault(_)) => Ok(false),
    }
}

/// The same of a source that was read.
fn describes_alone(alloc: Global, text: &SourceText, source: &Source) -> Result<bool, AllocError>
    requires { source_of text.now ≡ Ok source.now }
    ensures { IfOk result (λ b. b ≡ true → IsAlone text.now) }
{
    if names_nothing(source) {
        describes(alloc, text, source)
    } else {
        Ok(false)
    }
}

/// Whether the source, which names no file, describes one.
fn describes(alloc: Global, text: &SourceText, source: &Source) -> Result<bool, AllocError>
    requires read { source_of text.now ≡ Ok source.now }
    requires alone { names_by Physical source.now ≡ [] }
    ensures { IfOk result (λ b. b ≡ true → IsAlone text.now) }
{
    let none = DescribedFiles::new(alloc);
    let spec = spec_over(alloc, &none, source)?;
    Ok(spec.is_some())
}

// ---- when it is used

/// Whether each of these files is there as it was.
pub(crate) fn are_there(files: &Files, others: &[NamedFile]) -> bool
    ensures { result ≡ true → AllByRecursion (IsThere files.now) others.now }
{
    let mut rest = others;
    while let [other, more @ ..] = rest {
        if !is_there(files, other) {
            return false;
        }
        rest = more;
    }
    true
}

fn is_there(files: &Files, other: &NamedFile) -> bool
    ensures { result ≡ true → IsThere files.now other.now }
{
    match files.named(&other.name) {
        None => false,
        Some(file) => has_source(file, &other.source),
    }
}

/// Whether the file is physical, with this source.
fn has_source(file: &File, source: &SourceText) -> bool
    ensures { result ≡ true → (file.now.kind ≡ Physical) × (file.now.source ≡ source.now) }
{
    match file.kind {
        FileKind::Logical => false,
        FileKind::Physical => is_same(&file.source, source),
    }
}

/// Whether two sources have the same bytes.
pub(crate) fn is_same(source: &SourceText, other: &SourceText) -> bool
    ensures { result ≡ bytes_eq source.now other.now }
{
    source.as_bytes() == other.as_bytes()
}
