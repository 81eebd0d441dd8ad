//! The lines of a source: each is judged by what stands before it, up to the first that is at fault.
ghost use Rattle.std.specs.Prelude.{◌≡◌, ◌<◌, ◌++◌, ◌∷◌, [], ◌||◌, ◌==◌, nat_lt, not, length, None, is_some, is_none, IfOk, OnOk, if◌then◌else◌};
ghost use Rattle.record_fmt.specs.FieldTypes.{IsFieldType};
ghost use Rattle.dds_source.specs.Faults.{first_after};
ghost use Rattle.dds_source.specs.Entries.{when};
ghost use Rattle.dds_physical.specs.Names.{name_of};
ghost use Rattle.dds_physical.specs.References.{typed};
ghost use Rattle.dds_physical.specs.Lines.{place_faults, is_letter_wrong, is_usage_wrong, entry_faults, record_faults, type_faults, field_faults, key_place_faults, key_faults, is_blank, line_faults, described, with_field, with_key, lines_faults, lines_described};

use crate::attributes::{fault_at, kind_by_letter};
use crate::defaults::{default_of, note_default};
use crate::draft::{Draft, MOST_KEY_FIELDS, key_part};
use crate::first::FirstFault;
use crate::keyword_names::Place;
use crate::keyword_rules::note_keywords;
use crate::names::{field_named, is_field, is_listed, name_of};
use crate::references::{note_reference, typed};
use crate::refs::Refs;
use crate::texts::text_of;
use dds_source::faults::{DdsCause, DdsFault};
use dds_source::keywords::Keyword;
use dds_source::specifications::{NameEntry, Specification, SpecificationKind};
use field_types::kinds::FieldType;
use field_types::names::Name;
use record_fmt::formats::MOST_FIELDS;
use std::alloc::{AllocError, Global};

/// Reads lines into a draft, up to the first that is at fault and with it, and tells its first fault.
pub(crate) fn read_lines<R: Refs>(
    alloc: Global,
    refs: &R,
    file: &Option<Name>,
    specifications: &[Specification],
    draft: &mut Draft,
) -> Result<Option<DdsFault>, AllocError>
    ensures fault { IfOk result (λ f. f ≡ first_after None (lines_faults (R.formats refs.now) file.now draft.old specifications.now)) }
    ensures described { OnOk result (draft.new ≡ lines_described (R.formats refs.now) file.now draft.old specifications.now) }
{
    let mut rest = specifications;
    while !rest.is_empty() {
        let (here, more) = rest.split_at(1);
        if let Some(fault) = read_line(alloc, refs, file, draft, &here[0])? {
            return Ok(Some(fault));
        }
        rest = more;
    }
    Ok(None)
}

/// Adds what a line describes to the draft, and tells the line's first fault.
#[tactic(auto, unfolding(crate::specs::Lines::line_faults, crate::specs::Lines::described))]
fn read_line<R: Refs>(
    alloc: Global,
    refs: &R,
    file: &Option<Name>,
    draft: &mut Draft,
    specification: &Specification,
) -> Result<Option<DdsFault>, AllocError>
    ensures fault { IfOk result (λ f. f ≡ first_after None (line_faults (R.formats refs.now) file.now draft.old specification.now)) }
    ensures described { OnOk result (draft.new ≡ described (R.formats refs.now) file.now draft.old specification.now) }
{
    match specification.kind {
        SpecificationKind::Record => Ok(read_record(draft, specification)),
        SpecificationKind::Field => read_field(alloc, refs, file, draft, specification),
        SpecificationKind::Key => read_key(draft, specification),
        SpecificationKind::Select
        | SpecificationKind::Omit
        | SpecificationKind::And
        | SpecificationKind::Join => Ok(Some(fault_at(specification, 17, DdsCause::OutOfOrder))),
    }
}

/// Notes letters in 35 and 38 that say nothing.
#[tactic(auto, using(crate::proofs::FaultLemmas::first_after_append))]
fn note_entries(specification: &Specification, first: &mut FirstFault)
    ensures { first.new.fault ≡ first_after first.old.fault (entry_faults specification.now) }
{
    first.note_if(
        is_letter_wrong(specification.columns.data_type),
        fault_at(specification, 35, DdsCause::BadType),
    );
    first.note_if(
        is_usage_wrong(specification.columns.usage),
        fault_at(specification, 38, DdsCause::BadType),
    );
}

fn is_letter_wrong(letter: Option<u8>) -> bool
    ensures { result ≡ is_letter_wrong letter }
{
    match letter {
        Some(letter) => kind_by_letter(letter).is_none(),
        None => false,
    }
}

fn is_usage_wrong(usage: Option<u8>) -> bool
    ensures { result ≡ is_usage_wrong usage }
{
    match usage {
        Some(usage) => usage != b'B',
        None => false,
    }
}

fn read_record(draft: &mut Draft, specification: &Specification) -> Option<DdsFault>
    ensures fault { result ≡ first_after None (record_faults draft.old specification.now) }
    ensures described { draft.new ≡ record draft.old { name = name_of specification.now.name } }
{
    let mut first = FirstFault::none();
    note_record(draft, specification, &mut first);
    draft.name = name_of(specification.name);
    first.fault
}

#[tactic(auto, using(crate::proofs::FaultLemmas::first_after_append))]
fn note_record(draft: &Draft, specification: &Specification, first: &mut FirstFault)
    ensures { first.new.fault ≡ first_after first.old.fault (record_faults draft.now specification.now) }
{
    first.note_if(
        draft.name.is_some(),
        fault_at(specification, 17, DdsCause::OutOfOrder),
    );
    first.note_if(
        name_of(specification.name).is_none(),
        fault_at(specification, 19, DdsCause::BadName),
    );
    note_entries(specification, first);
    note_keywords(Place::Record, specification.keywords.as_slice(), first);
}

#[tactic(auto, using(crate::proofs::FaultLemmas::first_after_append))]
fn read_field<R: Refs>(
    alloc: Global,
    refs: &R,
    file: &Option<Name>,
    draft: &mut Draft,
    specification: &Specification,
) -> Result<Option<DdsFault>, AllocError>
    ensures fault { IfOk result (λ f. f ≡ first_after None (field_faults (R.formats refs.now) file.now draft.old specification.now)) }
    ensures described { OnOk result (draft.new ≡ with_field draft.old (name_of specification.now.name) (typed (R.formats refs.now) file.now draft.old.fields specification.now) specification.now.keywords) }
{
    let typed = typed(refs, file, draft.fields.as_slice(), specification);
    let keywords = specification.keywords.as_slice();
    let mut first = FirstFault::none();
    note_place(draft, specification, &mut first);
    note_entries(specification, &mut first);
    note_keywords(Place::Field, keywords, &mut first);
    note_reference(
        refs,
        file,
        draft.fields.as_slice(),
        specification,
        &mut first,
    );
    note_type(alloc, typed, keywords, &mut first)?;
    first.note_if(
        is_format_full(draft),
        fault_at(specification, 19, DdsCause::TooLarge),
    );
    add_field(alloc, draft, name_of(specification.name), typed, keywords)?;
    Ok(first.fault)
}

fn is_format_full(draft: &Draft) -> bool
    ensures { result ≡ not (nat_lt (length draft.now.fields) MOST_FIELDS) }
{
    draft.fields.as_slice().len() >= MOST_FIELDS
}

/// Notes what is wrong with the name and the place of a field.
#[tactic(auto, using(crate::proofs::FaultLemmas::first_after_append))]
fn note_place(draft: &Draft, specification: &Specification, first: &mut FirstFault)
    ensures { first.new.fault ≡ first_after first.old.fault (place_faults draft.now specification.now) }
{
    let name = name_of(specification.name);
    first.note_if(
        draft.name.is_none() || !draft.key_names.as_slice().is_empty(),
        fault_at(specification, 19, DdsCause::OutOfOrder),
    );
    first.note_if(
        name.is_none(),
        fault_at(specification, 19, DdsCause::BadName),
    );
    first.note_if(
        is_field(&name, draft.fields.as_slice()),
        fault_at(specification, 19, DdsCause::DuplicateName),
    );
}

/// Notes why a field has no type, or a default that its type refuses.
fn note_type(
    alloc: Global,
    typed: Result<FieldType, DdsFault>,
    keywords: &[Keyword],
    first: &mut FirstFault,
) -> Result<(), AllocError>
    requires { IfOk typed IsFieldType }
    ensures { OnOk result (first.new.fault ≡ first_after first.old.fault (type_faults typed keywords.now)) }
{
    match typed {
        Ok(ty) => note_default(alloc, &ty, keywords, first),
        Err(fault) => {
            first.note(fault);
            Ok(())
        }
    }
}

/// Adds a field that has a name and a type, where there is room for it.
fn add_field(
    alloc: Global,
    draft: &mut Draft,
    name: Option<Name>,
    typed: Result<FieldType, DdsFault>,
    keywords: &[Keyword],
) -> Result<(), AllocError>
    requires { IfOk typed IsFieldType }
    ensures { OnOk result (draft.new ≡ with_field draft.old name typed keywords.now) }
{
    if is_format_full(draft) {
        return Ok(());
    }
    match (name, typed) {
        (Some(name), Ok(ty)) => {
            let default = default_of(alloc, ty.kind, keywords)?;
            let text = text_of(alloc, keywords)?;
            draft.fields.push(name, ty, default, text)
        }
        _ => Ok(()),
    }
}

fn read_key(
    draft: &mut Draft,
    specification: &Specification,
) -> Result<Option<DdsFault>, AllocError>
    ensures fault { IfOk result (λ f. f ≡ first_after None (key_faults draft.old specification.now)) }
    ensures described { OnOk result (draft.new ≡ with_key draft.old (name_of specification.now.name) specification.now.keywords) }
{
    let mut first = FirstFault::none();
    note_key(draft, specification, &mut first);
    add_key(
        draft,
        name_of(specification.name),
        specification.keywords.as_slice(),
    )?;
    Ok(first.fault)
}

#[tactic(auto, using(crate::proofs::FaultLemmas::first_after_append))]
fn note_key(draft: &Draft, specification: &Specification, first: &mut FirstFault)
    ensures { first.new.fault ≡ first_after first.old.fault (key_faults draft.now specification.now) }
{
    note_key_place(draft, specification, first);
    note_entries(specification, first);
    note_keywords(Place::Key, specification.keywords.as_slice(), first);
    first.note_if(
        is_key_full(draft),
        fault_at(specification, 19, DdsCause::TooLarge),
    );
}

fn is_key_full(draft: &Draft) -> bool
    ensures { result ≡ not (nat_lt (length draft.now.key_names) MOST_KEY_FIELDS) }
{
    draft.key_names.as_slice().len() >= MOST_KEY_FIELDS
}

/// Notes what is wrong with the name and the place of a key field.
#[tactic(auto, using(crate::proofs::FaultLemmas::first_after_append))]
fn note_key_place(draft: &Draft, specification: &Specification, first: &mut FirstFault)
    ensures { first.new.fault ≡ first_after first.old.fault (key_place_faults draft.now specification.now) }
{
    let name = name_of(specification.name);
    first.note_if(
        draft.name.is_none(),
        fault_at(specification, 17, DdsCause::OutOfOrder),
    );
    first.note_if(
        is_blank(specification.name),
        fault_at(specification, 19, DdsCause::BadName),
    );
    first.note_if(
        is_listed(&name, draft.key_names.as_slice()),
        fault_at(specification, 19, DdsCause::DuplicateName),
    );
    first.note_if(
        !is_field(&name, draft.fields.as_slice()),
        fault_at(specification, 19, DdsCause::NoSuchField),
    );
}

fn is_blank(name: NameEntry) -> bool
    ensures { result ≡ is_blank name }
{
    match name {
        NameEntry::Blank => true,
        NameEntry::Named(_) | NameEntry::StarNone => false,
    }
}

/// Adds a key field that has a name.
fn add_key(draft: &mut Draft, name: Option<Name>, keywords: &[Keyword]) -> Result<(), AllocError>
    ensures { OnOk result (draft.new ≡ with_key draft.old name keywords.now) }
{
    let Some(name) = name else {
        return Ok(());
    };
    let part = key_part(field_named(&name, draft.fields.as_slice()), keywords);
    draft.key_names.push(name)?;
    draft.key_parts.push(part)
}
