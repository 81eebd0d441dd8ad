//! The keys of formats: what is wrong with their lines, and their positions without places in a record.
ghost use Rattle.std.specs.Prelude.{◌≡◌, ◌≤◌, ◌+◌, ◌++◌, ◌&&◌, ◌||◌, List, ℕ, nat_lt, not, map, drop, flat_map, is_some, Option, IfOk, OnOk, codes};
ghost use Rattle.std.specs.Option.{option_copied, option_to_list};
ghost use Rattle.std.specs.List.{list_any, filter_map};
ghost use Rattle.record_fmt.specs.Layout.{record_length};
ghost use Rattle.dds_physical.below.dds_source.specs.declared.specifications.Specification.{Specification};
ghost use Rattle.dds_physical.specs.Faults.{first_after};
ghost use Rattle.dds_physical.specs.Draft.{part_length, key_length};
ghost use Rattle.dds_logical.specs.declared.format_lines.LineKind.TheVariants as line_kinds;
ghost use Rattle.dds_logical.specs.Fields.{laid_out};
ghost use Rattle.dds_logical.specs.Keys.{is_no_key, key_line_faults, key_lines_faults, parts_of_lines};
ghost use Rattle.dds_logical.specs.Judged.{lines_of, line_faults_of};
ghost use Rattle.dds_logical.specs.WholeFile.{size_faults};
ghost use Rattle.dds_logical.specs.JudgedKeys.{bytes_of, named_of, named_or_none, judged_part, judged_if};

use crate::fields::{note_names_twice, note_too_many};
use crate::first::{FirstFault, fault_at, file_fault};
use crate::format_lines::{LineKind, is_of};
use crate::keyword_names::is_there;
use crate::keyword_places::KeywordPlace;
use crate::keyword_rules::note_keywords;
use crate::limits::{MOST_KEY_BYTES, MOST_KEY_FIELDS};
use crate::named_fields::NamedField;
use crate::names::{is_blank, name_of};
use dds_physical::dds_source::faults::DdsCause;
use dds_physical::dds_source::keywords::Keyword;
use dds_physical::dds_source::specifications::{NameEntry, Specification};
use field_types::lists::ListOf;
use field_types::names::Name;
use key_spec::{KeyPart, KeyParts};
use record_fmt::field_values::fields;
use record_fmt::formats::MOST_BYTES;
use std::alloc::{AllocError, Global};

/// The field of a name in a format.
pub(crate) fn named_of<'a>(name: &Name, named: &'a [NamedField]) -> Option<&'a NamedField>
    ensures { option_copied result ≡ named_of name.now named.now }
{
    let mut rest = named;
    while let [field, more @ ..] = rest {
        if field.name == *name {
            return Some(field);
        }
        rest = more;
    }
    None
}

/// Whether the name of a key line is no field of the format; *NONE stands where there are several formats.
#[tactic(auto, using(crate::proofs::KeyLemmas::is_field_by_name))]
fn is_no_key(is_multi: bool, named: &[NamedField], name: NameEntry) -> bool
    ensures { result ≡ is_no_key is_multi (laid_out 0 named.now) name }
{
    match name {
        NameEntry::Blank => true,
        NameEntry::Named(name) => named_of(&name, named).is_none(),
        NameEntry::StarNone => !is_multi,
    }
}

/// Notes what is wrong with a line, if it is a key field's.
#[tactic(auto, using(dds_physical::proofs::FaultLemmas::first_after_append), unfolding(crate::specs::Judged::line_faults_of))]
fn note_key(
    is_join: bool,
    is_multi: bool,
    named: &[NamedField],
    line: &Specification,
    first: &mut FirstFault,
)
    ensures { first.new.fault ≡ first_after first.old.fault (line_faults_of line_kinds.Key (key_line_faults is_join is_multi (laid_out 0 named.now)) line.now) }
{
    if is_of(LineKind::Key, line) {
        first.note_if(is_blank(line.name), fault_at(line, 19, DdsCause::BadName));
        first.note_if(
            is_no_key(is_multi, named, line.name),
            fault_at(line, 19, DdsCause::NoSuchField),
        );
        note_keywords(is_join, KeywordPlace::Key, line.keywords.as_slice(), first);
    }
}

#[tactic(auto, using(dds_physical::proofs::FaultLemmas::first_after_append))]
fn note_keys(
    is_join: bool,
    is_multi: bool,
    named: &[NamedField],
    lines: &[Specification],
    first: &mut FirstFault,
)
    ensures { first.new.fault ≡ first_after first.old.fault (flat_map (line_faults_of line_kinds.Key (key_line_faults is_join is_multi (laid_out 0 named.now))) lines.now) }
{
    for line in lines {
        note_key(is_join, is_multi, named, line, first);
    }
}

/// Notes what is wrong with the key lines of a format with these fields.
#[tactic(auto, using(dds_physical::proofs::FaultLemmas::first_after_append, crate::proofs::LineLemmas::faults_of_kind))]
pub(crate) fn note_key_lines(
    alloc: Global,
    is_join: bool,
    is_multi: bool,
    named: &[NamedField],
    lines: &[Specification],
    first: &mut FirstFault,
) -> Result<(), AllocError>
    ensures { OnOk result (first.new.fault ≡ first_after first.old.fault (key_lines_faults is_join is_multi (laid_out 0 named.now) (lines_of line_kinds.Key lines.now))) }
{
    note_names_twice(alloc, LineKind::Key, lines, first)?;
    note_too_many(LineKind::Key, MOST_KEY_FIELDS, lines, first);
    note_keys(is_join, is_multi, named, lines, first);
    Ok(())
}

/// The position of a key that a field is, at no place in a record.
pub(crate) fn judged_part(field: Option<&NamedField>, keywords: &[Keyword]) -> KeyPart
    ensures { result ≡ judged_part (option_copied field.entry) keywords.now }
{
    match field {
        Some(field) => KeyPart::Field {
            ty: field.shown.field.ty,
            offset: 0,
            descend: is_there(b"DESCEND", keywords),
            absval: is_there(b"ABSVAL", keywords),
        },
        None => KeyPart::Absent,
    }
}

pub(crate) fn named_or_none(named: &[NamedField], name: Option<Name>) -> Option<&NamedField>
    ensures { option_copied result ≡ named_or_none named.now name }
{
    match name {
        Some(name) => named_of(&name, named),
        None => None,
    }
}

/// Adds the position of a line, if it is a key field's.
fn add_position(
    named: &[NamedField],
    line: &Specification,
    parts: &mut KeyParts,
) -> Result<(), AllocError>
    ensures { OnOk result (parts.new ≡ parts.old ++ option_to_list (judged_if named.now line.now)) }
{
    if !is_of(LineKind::Key, line) {
        return Ok(());
    }
    let field = named_or_none(named, name_of(line.name));
    parts.push(judged_part(field, line.keywords.as_slice()))
}

/// The positions of the key of a format with these fields, at no places in a record.
#[tactic(auto, using(crate::proofs::ListLemmas::joined, crate::proofs::NamedLemmas::cons_option_is))]
pub(crate) fn judged_parts(
    alloc: Global,
    named: &[NamedField],
    lines: &[Specification],
) -> Result<KeyParts, AllocError>
    ensures { IfOk result (λ parts. parts ≡ filter_map (judged_if named.now) lines.now) }
{
    let mut parts = KeyParts::new(alloc);
    for line in lines {
        add_position(named, line, &mut parts)?;
    }
    Ok(parts)
}

fn part_length(part: KeyPart) -> usize
    ensures { result ≡ part_length part }
{
    match part {
        KeyPart::Field { ty, .. } => fields::width(&ty),
        KeyPart::Absent => 0,
    }
}

/// Whether the key has more bytes in a record than it may.
fn is_key_too_long(parts: &[KeyPart]) -> bool
    ensures { result ≡ nat_lt MOST_KEY_BYTES (key_length parts.now) }
{
    let mut left = MOST_KEY_BYTES;
    let mut rest = parts;
    while let [part, more @ ..] = rest {
        let length = part_length(*part);
        if length > left {
            return true;
        }
        left -= length;
        rest = more;
    }
    false
}

/// Whether a record of the format has more bytes than it may.
fn is_record_too_long(named: &[NamedField]) -> bool
    ensures { result ≡ nat_lt MOST_BYTES (record_length (laid_out 0 named.now)) }
{
    has_too_many_bytes(named)
}

fn has_too_many_bytes(named: &[NamedField]) -> bool
    ensures { result ≡ nat_lt MOST_BYTES (bytes_of named.now) }
{
    let mut left = MOST_BYTES as usize;
    let mut rest = named;
    while let [field, more @ ..] = rest {
        let width = fields::width(&field.shown.field.ty);
        if width > left {
            return true;
        }
        left -= width;
        rest = more;
    }
    false
}

/// Notes a record, or a key, with too many bytes.
#[tactic(auto, using(dds_physical::proofs::FaultLemmas::first_after_append, crate::proofs::KeyLemmas::key_length_by_name))]
pub(crate) fn note_sizes(
    last_line: u32,
    named: &[NamedField],
    parts: &[KeyPart],
    lines: &[Specification],
    first: &mut FirstFault,
)
    requires { parts.now ≡ filter_map (judged_if named.now) lines.now }
    ensures { first.new.fault ≡ first_after first.old.fault (size_faults last_line (laid_out 0 named.now) (parts_of_lines (laid_out 0 named.now) (lines_of line_kinds.Key lines.now))) }
{
    first.note_if(
        is_record_too_long(named),
        file_fault(last_line, DdsCause::TooLarge),
    );
    first.note_if(
        is_key_too_long(parts),
        file_fault(last_line, DdsCause::TooLarge),
    );
}
