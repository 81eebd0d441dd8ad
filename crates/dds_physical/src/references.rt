//! References to other fields: REF, REFFLD, and `R` in position 29.
ghost use Rattle.std.specs.Prelude.{◌≡◌, Option, Some, None, codes, IfOk};
ghost use Rattle.record_fmt.specs.FieldTypes.{IsFieldType};
ghost use Rattle.std.specs.Option.{option_copied};
ghost use Rattle.dds_source.specs.Faults.{first_after};
ghost use Rattle.dds_physical.specs.Places.{error_list};
ghost use Rattle.dds_physical.specs.Names.{field_named};
ghost use Rattle.dds_physical.specs.Keywords.{first_named};
ghost use Rattle.dds_physical.specs.KeywordRules.{argument_name};
ghost use Rattle.dds_physical.specs.References.{type_in, type_in_file, own_type, reference_type, reference_cause, found_or, referenced_by, referenced, typed, names_more, reference_faults, file_of, reference_file, is_file_missing, is_named};

use crate::attributes::{attributes, fault_at};
use crate::first::{FirstFault, keyword_fault};
use crate::keyword_names::{arguments_of, first_named};
use crate::keyword_rules::{argument_name, is_special};
use crate::names::{field_named, name_of};
use crate::refs::Refs;
use dds_source::arguments::Argument;
use dds_source::faults::{DdsCause, DdsFault};
use dds_source::keywords::Keyword;
use dds_source::specifications::Specification;
use field_types::kinds::FieldType;
use field_types::names::Name;
use record_fmt::formats::Field;

/// The type of the field of a name.
fn type_in(name: &Name, fields: &[Field]) -> Option<FieldType>
    ensures { result ≡ type_in name.now fields.now }
{
    match field_named(name, fields) {
        Some(field) => Some(field.ty),
        None => None,
    }
}

/// The type of a field of a file, if both are named and there.
fn type_in_file<R: Refs>(refs: &R, file: &Option<Name>, field: &Option<Name>) -> Option<FieldType>
    ensures { result ≡ type_in_file (R.formats refs.now) file.now field.now }
{
    match (file, field) {
        (Some(file), Some(field)) => match refs.format_of(file) {
            Some(format) => type_in(field, format.fields.as_slice()),
            None => None,
        },
        _ => None,
    }
}

/// The type of an earlier field of the same source.
fn own_type(field: &Option<Name>, own: &[Field]) -> Option<FieldType>
    ensures { result ≡ own_type field.now own.now }
{
    match field {
        Some(field) => type_in(field, own),
        None => None,
    }
}

/// The type of the field that the arguments of REFFLD name.
fn reference_type<R: Refs>(
    refs: &R,
    file: &Option<Name>,
    own: &[Field],
    arguments: &[Argument],
) -> Option<FieldType>
    ensures { result ≡ reference_type (R.formats refs.now) file.now own.now arguments.now }
{
    match arguments {
        [field] => type_in_file(refs, file, &argument_name(field)),
        [field, place] => {
            if is_special(b"*SRC", place) {
                own_type(&argument_name(field), own)
            } else {
                type_in_file(refs, &argument_name(place), &argument_name(field))
            }
        }
        _ => None,
    }
}

/// What is wrong where the arguments of REFFLD name nothing.
fn reference_cause(arguments: &[Argument]) -> DdsCause
    ensures { result ≡ reference_cause arguments.now }
{
    match arguments {
        [_, place] => {
            if is_special(b"*SRC", place) {
                DdsCause::NoSuchField
            } else {
                DdsCause::UnknownReference
            }
        }
        _ => DdsCause::UnknownReference,
    }
}

/// The type of the field that a line refers to, or that it isn't there.
fn referenced<R: Refs>(
    refs: &R,
    file: &Option<Name>,
    own: &[Field],
    specification: &Specification,
) -> Result<FieldType, DdsFault>
    ensures { result ≡ referenced (R.formats refs.now) file.now own.now specification.now }
{
    match first_named(b"REFFLD", specification.keywords.as_slice()) {
        None => found_or(
            type_in_file(refs, file, &name_of(specification.name)),
            fault_at(specification, 29, DdsCause::UnknownReference),
        ),
        Some(keyword) => {
            let arguments = arguments_of(keyword);
            found_or(
                reference_type(refs, file, own, arguments),
                keyword_fault(keyword, reference_cause(arguments)),
            )
        }
    }
}

fn found_or(found: Option<FieldType>, fault: DdsFault) -> Result<FieldType, DdsFault>
    ensures { result ≡ found_or found fault }
{
    match found {
        Some(ty) => Ok(ty),
        None => Err(fault),
    }
}

/// The type of a field, or what is wrong with its entries or its reference.
pub(crate) fn typed<R: Refs>(
    refs: &R,
    file: &Option<Name>,
    own: &[Field],
    specification: &Specification,
) -> Result<FieldType, DdsFault>
    ensures value { result ≡ typed (R.formats refs.now) file.now own.now specification.now }
    ensures allowed { IfOk result IsFieldType }
{
    if !specification.columns.reference {
        return attributes(specification, None);
    }
    match referenced(refs, file, own, specification) {
        Ok(ty) => attributes(specification, Some(ty)),
        Err(fault) => Err(fault),
    }
}

/// Notes a REFFLD that copies nothing and names what isn't there.
pub(crate) fn note_reference<R: Refs>(
    refs: &R,
    file: &Option<Name>,
    own: &[Field],
    specification: &Specification,
    first: &mut FirstFault,
)
    ensures { first.new.fault ≡ first_after first.old.fault (reference_faults (R.formats refs.now) file.now own.now specification.now) }
{
    if names_more(specification) {
        first.note_error(referenced(refs, file, own, specification));
    }
}

fn names_more(specification: &Specification) -> bool
    ensures { result ≡ names_more specification.now }
{
    !specification.columns.reference
        && first_named(b"REFFLD", specification.keywords.as_slice()).is_some()
}

/// The file that REF names.
pub(crate) fn reference_file(keywords: &[Keyword]) -> Option<Name>
    ensures { result ≡ reference_file keywords.now }
{
    match first_named(b"REF", keywords) {
        Some(keyword) => file_of(arguments_of(keyword)),
        None => None,
    }
}

fn file_of(arguments: &[Argument]) -> Option<Name>
    ensures { result ≡ file_of arguments.now }
{
    match arguments {
        [file, ..] => argument_name(file),
        [] => None,
    }
}

pub(crate) fn is_named(name: &Name, other: Option<Name>) -> bool
    ensures { result ≡ is_named name.now other }
{
    match other {
        Some(other) => other == *name,
        None => false,
    }
}

/// Whether REF names a file, or a format of it, that isn't there.
pub(crate) fn is_file_missing<R: Refs>(refs: &R, arguments: &[Argument]) -> bool
    ensures { result ≡ is_file_missing (R.formats refs.now) arguments.now }
{
    let Some(file) = file_of(arguments) else {
        return true;
    };
    let Some(format) = refs.format_of(&file) else {
        return true;
    };
    match arguments {
        [_, name, ..] => !is_named(&format.name, argument_name(name)),
        _ => false,
    }
}
