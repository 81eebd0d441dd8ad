//! The record of a format: its fields one behind the other, and the positions of its key.
ghost use Rattle.std.specs.Prelude.{◌≡◌, ◌≤◌, ◌-◌, ◌++◌, ◌∷◌, [], List, map, take, length, replicate, IfOk, OnOk};
ghost use Rattle.std.specs.Option.{option_copied, option_to_list};
ghost use Rattle.std.specs.List.{filter_map};
ghost use Rattle.record_fmt.specs.Layout.{record_length};
ghost use Rattle.dds_physical.specs.Draft.{key_part};
ghost use Rattle.key_spec.specs.declared.KeyPart.TheVariants as absent;
ghost use Rattle.dds_logical.specs.declared.format_lines.LineKind.TheVariants as line_kinds;
ghost use Rattle.dds_logical.specs.Fields.{laid_out, mapping_of};
ghost use Rattle.dds_logical.specs.Keys.{parts_of_lines, padded};
ghost use Rattle.dds_logical.specs.Judged.{lines_of};
ghost use Rattle.dds_logical.specs.JudgedKeys.{part_if, bytes_of};

use crate::format_lines::{LineKind, is_of};
use crate::keyword_names::is_there;
use crate::literals::unspecified;
use crate::named_fields::NamedFields;
use crate::names::name_of;
use crate::origins::field_of;
use crate::tested_fields::copied_field;
use dds_physical::dds_source::keywords::Keyword;
use dds_physical::dds_source::specifications::Specification;
use field_types::lists::ListOf;
use file_model::views::LogicalField;
use key_spec::{KeyPart, KeyParts};
use record_fmt::formats::{Field, Fields, MOST_BYTES, MOST_FIELDS};
use std::alloc::{AllocError, Global};

/// The fields of a record format, one behind the other.
pub(crate) fn laid_out(alloc: Global, named: &NamedFields) -> Result<Fields, AllocError>
    requires few { length named.now ≤ MOST_FIELDS }
    requires narrow { bytes_of named.now ≤ MOST_BYTES }
    ensures { IfOk result (λ fields. fields ≡ laid_out 0 named.now) }
{
    let mut fields = Fields::new(alloc);
    let described = named.as_slice();
    for field in described {
        let default = unspecified(alloc, field.shown.field.ty.kind)?;
        let text = field.text.copied(alloc)?;
        fields.push(field.name, field.shown.field.ty, default, text)?;
    }
    Ok(fields)
}

/// What each field shows, in memory of its own.
pub(crate) fn mapping_of(
    alloc: Global,
    named: &NamedFields,
) -> Result<ListOf<LogicalField>, AllocError>
    ensures { IfOk result (λ mapping. mapping ≡ mapping_of named.now) }
{
    let mut mapping = ListOf::new(alloc);
    let described = named.as_slice();
    for field in described {
        let copy = copied_field(alloc, &field.shown.field)?;
        mapping.push(LogicalField {
            field: copy,
            read_only: field.shown.read_only,
        })?;
    }
    Ok(mapping)
}

/// The position of a key that a field is.
fn key_part(field: Option<&Field>, keywords: &[Keyword]) -> KeyPart
    ensures { result ≡ key_part (option_copied field.entry) keywords.now }
{
    match field {
        Some(field) => KeyPart::Field {
            ty: field.ty,
            offset: field.offset,
            descend: is_there(b"DESCEND", keywords),
            absval: is_there(b"ABSVAL", keywords),
        },
        None => KeyPart::Absent,
    }
}

/// Adds the position of a line, if it is a key field's.
fn add_part(fields: &[Field], line: &Specification, parts: &mut KeyParts) -> Result<(), AllocError>
    ensures { OnOk result (parts.new ≡ parts.old ++ option_to_list (part_if fields.now line.now)) }
{
    if !is_of(LineKind::Key, line) {
        return Ok(());
    }
    let field = field_of(fields, name_of(line.name));
    parts.push(key_part(field, line.keywords.as_slice()))
}

/// The positions of the key of a format with these fields.
#[tactic(auto, using(crate::proofs::ListLemmas::joined, crate::proofs::NamedLemmas::cons_option_is))]
fn parts_of_lines(
    alloc: Global,
    fields: &[Field],
    lines: &[Specification],
) -> Result<KeyParts, AllocError>
    ensures { IfOk result (λ parts. parts ≡ filter_map (part_if fields.now) lines.now) }
{
    let mut parts = KeyParts::new(alloc);
    for line in lines {
        add_part(fields, line, &mut parts)?;
    }
    Ok(parts)
}

/// The same, by the lines of the key alone.
#[tactic(auto, using(crate::proofs::KeyLemmas::parts_are))]
pub(crate) fn key_parts(
    alloc: Global,
    fields: &[Field],
    lines: &[Specification],
) -> Result<KeyParts, AllocError>
    ensures { IfOk result (λ parts. parts ≡ parts_of_lines fields.now (lines_of line_kinds.Key lines.now)) }
{
    let parts = parts_of_lines(alloc, fields, lines)?;
    Ok(parts)
}

/// Adds so many positions that the format lacks.
#[tactic(auto, using(crate::proofs::ListLemmas::joined))]
fn add_absent(count: usize, parts: &mut KeyParts) -> Result<(), AllocError>
    ensures { OnOk result (parts.new ≡ parts.old ++ replicate count absent.Absent) }
{
    let mut left = count;
    while left > 0 {
        parts.push(KeyPart::Absent)?;
        left -= 1;
    }
    Ok(())
}

/// As many positions as the file has: those of the lines, and behind them such that the format lacks.
pub(crate) fn padded(
    alloc: Global,
    count: usize,
    fields: &[Field],
    lines: &[Specification],
) -> Result<KeyParts, AllocError>
    ensures { IfOk result (λ parts. parts ≡ padded count (parts_of_lines fields.now (lines_of line_kinds.Key lines.now))) }
{
    let mut parts = key_parts(alloc, fields, lines)?;
    let missing = count.saturating_sub(parts.as_slice().len());
    add_absent(missing, &mut parts)?;
    Ok(parts)
}
