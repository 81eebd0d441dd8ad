//! Which files a source names, whether or not something is wrong with it.
ghost use Rattle.std.specs.Prelude.{◌≡◌, true, List, [], IfOk, codes};
ghost use Rattle.std.specs.List.{filter_map, list_any};
ghost use Rattle.std.specs.Option.{option_copied};
ghost use Rattle.std.specs.Str.{bytes_eq};
ghost use Rattle.dds_source.specs.Reading.{is_record, source_of};
ghost use Rattle.dds_physical.specs.Keywords.{arguments_of, first_named, has_name};
ghost use Rattle.dds_physical.specs.KeywordRules.{argument_name};
ghost use Rattle.dds_logical.specs.FormatLines.{based_on, formats_in, is_join_file, is_join_keyword};
ghost use Rattle.dds_logical.specs.Logical.{base_name};
ghost use Rattle.dds_logical.specs.Origins.{keyword_names};
ghost use Rattle.dds_physical.specs.References.{file_of, reference_file};
ghost use Rattle.named_bases.specs.Sources.{base_files, file_of_line, names_by, names_if, second_name};
ghost use Rattle.entry_codec.specs.declared.kinds.FileKind.TheVariants.{Physical, Logical};
ghost use Rattle.described_journals.specs.Named.{first_joined, named_argument, named_base};

use dds_physical::refers_to;
use dds_source::{
    Argument, Keyword, Source, SourceError, Specification, SpecificationKind, read_source,
};
use entry_codec::FileKind;
use field_types::names::Name;
use field_types::texts::SourceText;
use std::alloc::{AllocError, Global};

/// Whether the source names the file; one that can't be read names none.
pub(crate) fn names(
    alloc: Global,
    kind: FileKind,
    source: &SourceText,
    name: &Name,
) -> Result<bool, AllocError>
    ensures { IfOk result (λ b. b ≡ list_any (bytes_eq name.now) (names_if kind (source_of source.now))) }
{
    match read_source(alloc, source.as_bytes()) {
        Ok(source) => Ok(source_names(kind, &source, name)),
        Err(SourceError::NoMemory) => Err(AllocError),
        Err(SourceError::Fault(_)) => Ok(false),
    }
}

fn source_names(kind: FileKind, source: &Source, name: &Name) -> bool
    ensures { result ≡ list_any (bytes_eq name.now) (names_by kind source.now) }
{
    match kind {
        FileKind::Physical => refers_to(source, name),
        FileKind::Logical => is_over(source.specifications.as_slice(), name),
    }
}

// ---- a physical file's source

/// Whether it names no file.
pub(crate) fn names_nothing(source: &Source) -> bool
    ensures { result ≡ true → names_by Physical source.now ≡ [] }
{
    match reference_file(source.file.as_slice()) {
        Some(_) => false,
        None => lines_name_nothing(source.specifications.as_slice()),
    }
}

fn lines_name_nothing(lines: &[Specification]) -> bool
    ensures { result ≡ true → filter_map file_of_line lines.now ≡ [] }
{
    let mut rest = lines;
    while let [line, more @ ..] = rest {
        if file_of_line(line).is_some() {
            return false;
        }
        rest = more;
    }
    true
}

/// The file that REF names.
pub(crate) fn reference_file(keywords: &[Keyword]) -> Option<Name>
    ensures { result ≡ reference_file keywords.now }
{
    match first_named(b"REF", keywords) {
        Some(keyword) => first_name(arguments_of(keyword)),
        None => None,
    }
}

fn first_name(arguments: &[Argument]) -> Option<Name>
    ensures { result ≡ file_of arguments.now }
{
    match arguments {
        [file, ..] => argument_name(file),
        [] => None,
    }
}

/// The file that REFFLD names in a line.
pub(crate) fn file_of_line(line: &Specification) -> Option<Name>
    ensures { result ≡ file_of_line line.now }
{
    match first_named(b"REFFLD", line.keywords.as_slice()) {
        Some(keyword) => second_name(arguments_of(keyword)),
        None => None,
    }
}

/// The second of two arguments.
fn second_name(arguments: &[Argument]) -> Option<Name>
    ensures { result ≡ second_name arguments.now }
{
    match arguments {
        [_, place] => argument_name(place),
        _ => None,
    }
}

fn argument_name(argument: &Argument) -> Option<Name>
    ensures { result ≡ argument_name argument.now }
{
    match argument {
        Argument::Name(name) => Some(*name),
        Argument::Number(_)
        | Argument::Special(_)
        | Argument::Word(_)
        | Argument::Quoted(_)
        | Argument::Hexadecimal(_) => None,
    }
}

// ---- a logical file's source

/// Whether PFILE or JFILE names the file.
fn is_over(specifications: &[Specification], name: &Name) -> bool
    ensures { result ≡ list_any (bytes_eq name.now) (base_files (formats_in specifications.now)) }
{
    if is_join_file(specifications) {
        is_joined(specifications, name)
    } else {
        is_base(specifications, name)
    }
}

// ---- a join

/// Whether the first format is over JFILE.
fn is_join_file(specifications: &[Specification]) -> bool
    ensures { result ≡ is_join_file (formats_in specifications.now) }
{
    let mut rest = specifications;
    while let [line, more @ ..] = rest {
        if is_record(line.kind) {
            return is_join_keyword(based_on(line.keywords.as_slice()));
        }
        rest = more;
    }
    false
}

fn is_record(kind: SpecificationKind) -> bool
    ensures { result ≡ is_record kind }
{
    match kind {
        SpecificationKind::Record => true,
        SpecificationKind::Field
        | SpecificationKind::Key
        | SpecificationKind::Select
        | SpecificationKind::Omit
        | SpecificationKind::And
        | SpecificationKind::Join => false,
    }
}

/// The first of PFILE and JFILE.
fn based_on(keywords: &[Keyword]) -> Option<&Keyword>
    ensures { option_copied result ≡ based_on keywords.now }
{
    let mut rest = keywords;
    while let [keyword, more @ ..] = rest {
        if has_name(b"PFILE", keyword) || has_name(b"JFILE", keyword) {
            return Some(keyword);
        }
        rest = more;
    }
    None
}

fn is_join_keyword(keyword: Option<&Keyword>) -> bool
    ensures { result ≡ is_join_keyword (option_copied keyword.entry) }
{
    match keyword {
        Some(keyword) => has_name(b"JFILE", keyword),
        None => false,
    }
}

/// Whether JFILE of the first format names the file.
fn is_joined(specifications: &[Specification], name: &Name) -> bool
    ensures { result ≡ list_any (bytes_eq name.now) (first_joined (formats_in specifications.now)) }
{
    let mut rest = specifications;
    while let [line, more @ ..] = rest {
        if is_record(line.kind) {
            return keyword_names(first_named(b"JFILE", line.keywords.as_slice()), name);
        }
        rest = more;
    }
    false
}

/// Whether one of the keyword's arguments is the name.
fn keyword_names(keyword: Option<&Keyword>, name: &Name) -> bool
    ensures { result ≡ list_any (bytes_eq name.now) (keyword_names (option_copied keyword.entry)) }
{
    match keyword {
        Some(keyword) => are_named(arguments_of(keyword), name),
        None => false,
    }
}

#[tactic(auto, using(crate::proofs::NamedLemmas::any_cons))]
fn are_named(arguments: &[Argument], name: &Name) -> bool
    ensures { result ≡ list_any (bytes_eq name.now) (filter_map argument_name arguments.now) }
{
    let mut rest = arguments;
    while let [argument, more @ ..] = rest {
        if is_name(argument, name) {
            return true;
        }
        rest = more;
    }
    false
}

/// Whether an argument is the name.
fn is_name(argument: &Argument, name: &Name) -> bool
    ensures { result ≡ named_argument name.now (argument_name argument.now) }
{
    match argument {
        Argument::Name(other) => *name == *other,
        Argument::Number(_)
        | Argument::Special(_)
        | Argument::Word(_)
        | Argument::Quoted(_)
        | Argument::Hexadecimal(_) => false,
    }
}

// ---- formats over one file each

/// Whether PFILE of a format names the file.
#[tactic(auto, using(crate::proofs::NamedLemmas::base_step))]
fn is_base(specifications: &[Specification], name: &Name) -> bool
    ensures { result ≡ list_any (bytes_eq name.now) (filter_map base_name (formats_in specifications.now)) }
{
    let mut rest = specifications;
    while let [line, more @ ..] = rest {
        if is_record(line.kind) && is_based(line.keywords.as_slice(), name) {
            return true;
        }
        rest = more;
    }
    false
}

/// Whether the first argument of PFILE is the name.
fn is_based(keywords: &[Keyword], name: &Name) -> bool
    ensures { result ≡ named_base name.now keywords.now }
{
    match first_named(b"PFILE", keywords) {
        Some(keyword) => is_first(arguments_of(keyword), name),
        None => false,
    }
}

fn is_first(arguments: &[Argument], name: &Name) -> bool
    ensures { result ≡ named_argument name.now (file_of arguments.now) }
{
    match arguments {
        [file, ..] => is_name(file, name),
        [] => false,
    }
}

// ---- keywords

/// Whether the keyword has this name.
fn has_name(name: &[u8], keyword: &Keyword) -> bool
    ensures { result ≡ has_name name.now keyword.now }
{
    keyword.name.as_bytes() == name
}

/// The first keyword of this name.
fn first_named<'a>(name: &[u8], keywords: &'a [Keyword]) -> Option<&'a Keyword>
    ensures { option_copied result ≡ first_named name.now keywords.now }
{
    let mut rest = keywords;
    while let [keyword, more @ ..] = rest {
        if has_name(name, keyword) {
            return Some(keyword);
        }
        rest = more;
    }
    None
}

/// What stands in its parentheses; nothing where it has none.
fn arguments_of(keyword: &Keyword) -> &[Argument]
    ensures { result.now ≡ arguments_of keyword.now }
{
    match &keyword.arguments {
        Some(arguments) => arguments.as_slice(),
        None => &[],
    }
}
