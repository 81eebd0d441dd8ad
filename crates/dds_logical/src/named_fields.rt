//! The fields of a format, as its lines describe them or as the base file has them.
ghost use Rattle.std.specs.Prelude.{◌≡◌, ◌≤◌, List, [], ◌∷◌, ◌++◌, length, map, true, Some, None, All, IfOk, IfSome, OnOk};
ghost use Rattle.std.specs.Option.{option_map, option_to_list};
ghost use Rattle.std.specs.List.{filter_map};
ghost use Rattle.record_fmt.specs.FieldTypes.{IsFieldType};
ghost use Rattle.record_fmt.specs.Layout.{IsLaidOut};
ghost use Rattle.dds_logical.specs.declared.format_lines.LineKind.TheVariants as line_kinds;
ghost use Rattle.dds_logical.specs.Fields.{source_at, view_field, field_over, field_of_line, field_as_it_is, named_fields};
ghost use Rattle.file_model.specs.declared.views.FieldSource.TheVariants.{Copied};
ghost use Rattle.dds_logical.specs.declared.origins.MadeOf.TheVariants as made;
ghost use Rattle.dds_logical.specs.Made.{made_by};
ghost use Rattle.dds_logical.specs.Judged.{lines_of};
ghost use Rattle.dds_logical.specs.Named.{IsShown, field_if, AreShown};

use crate::attributes::attributes;
use crate::fields::{is_read_only_mapping, is_same_type, says_read_only};
use crate::format_lines::{LineKind, has_lines, is_of};
use crate::names::name_of;
use crate::origins::{MadeOf, origin, own_type};
use crate::texts::text_of;
use dds_physical::dds_source::specifications::Specification;
use field_types::kinds::FieldType;
use field_types::names::Name;
use field_types::texts::Text;
use file_model::views::{FieldSource, LogicalField, ViewField};
use record_fmt::formats::Field;
use std::alloc::{AllocError, Global};
use std::marker::Model;

/// A field that a line describes, or that the base file has.
#[derive(Drop)]
pub(crate) struct NamedField {
    pub(crate) name: Name,
    pub(crate) text: Text,
    pub(crate) shown: LogicalField,
}

/// Fields of types that a data description can give.
#[derive(Drop)]
pub(crate) struct NamedFields {
    items: Vec<NamedField>,
}

impl Model for NamedFields {
    ghost use Rattle.std.specs.Prelude.{List};
    ghost use Rattle.dds_logical.specs.declared.named_fields.NamedField.{NamedField};
    ghost use Rattle.dds_logical.specs.Named.{AreShown};

    ghost Value = { List NamedField };

    ghost view = { λ f. f.items.items };

    ghost invariant = { λ f. AreShown f.items.items };
}

impl NamedFields {
    pub(crate) fn new(alloc: Global) -> NamedFields
        ensures { result ≡ [] }
    {
        NamedFields {
            items: Vec::new(alloc),
        }
    }

    pub(crate) fn push(&mut self, field: NamedField) -> Result<(), AllocError>
        requires { IsShown field }
        ensures { OnOk result (self.new ≡ self.old ++ field ∷ []) }
    {
        self.items.push(field)?;
        Ok(())
    }

    pub(crate) fn as_slice(&self) -> &[NamedField]
        ensures fields { result.now ≡ self.now }
        ensures shown { AreShown self.now }
    {
        self.items.as_slice()
    }
}

/// A field of the base file as it is.
fn field_as_it_is(alloc: Global, field: &Field) -> Result<NamedField, AllocError>
    ensures { IfOk result (λ f. f ≡ field_as_it_is field.now) }
{
    let text = field.text.copied(alloc)?;
    let shown = ViewField {
        ty: field.ty,
        source: FieldSource::Copied {
            offset: field.offset,
        },
    };
    Ok(NamedField {
        name: field.name,
        text,
        shown: LogicalField {
            field: shown,
            read_only: false,
        },
    })
}

/// The fields of the base file as they are.
fn fields_as_they_are(alloc: Global, base: &[Field]) -> Result<NamedFields, AllocError>
    requires { IsLaidOut base.now }
    ensures { IfOk result (λ fields. fields ≡ map field_as_it_is base.now) }
{
    let mut fields = NamedFields::new(alloc);
    for field in base {
        let named = field_as_it_is(alloc, field)?;
        fields.push(named)?;
    }
    Ok(fields)
}

/// A field of this type that is made so.
fn view_field(ty: FieldType, made: MadeOf) -> ViewField
    ensures { result ≡ view_field ty (made_by made) }
{
    let source = match made {
        MadeOf::Whole { ty: from, offset } => whole_source(ty, from, offset),
        MadeOf::Pieces(pieces) => FieldSource::Concatenated(pieces),
        MadeOf::Part(piece) => FieldSource::Substring(piece),
    };
    ViewField { ty, source }
}

/// A field of another type shows the same value at its own type.
fn whole_source(ty: FieldType, from: FieldType, offset: u32) -> FieldSource
    ensures { result ≡ source_at ty (made_by (made.Whole from offset)) (Copied offset) }
{
    if is_same_type(ty, from) {
        FieldSource::Copied { offset }
    } else {
        FieldSource::Converted { from, offset }
    }
}

/// The field of a line that is made so, where it has a name and a type.
fn field_over(
    alloc: Global,
    is_join: bool,
    line: &Specification,
    made: MadeOf,
) -> Result<Option<NamedField>, AllocError>
    ensures value { IfOk result (λ f. f ≡ field_over is_join line.now (Some (made_by made))) }
    ensures shown { IfOk result (λ f. IfSome f IsShown) }
{
    let Some(name) = name_of(line.name) else {
        return Ok(None);
    };
    let Ok(ty) = attributes(line, own_type(&made)) else {
        return Ok(None);
    };
    let text = text_of(alloc, line.keywords.as_slice())?;
    let read_only = is_read_only_mapping(is_join, line) || says_read_only(line.columns.usage);
    Ok(Some(NamedField {
        name,
        text,
        shown: LogicalField {
            field: view_field(ty, made),
            read_only,
        },
    }))
}

/// The field of a line over the fields of a file.
pub(crate) fn field_of_line(
    alloc: Global,
    is_join: bool,
    base: &[Field],
    line: &Specification,
) -> Result<Option<NamedField>, AllocError>
    requires { IsLaidOut base.now }
    ensures value { IfOk result (λ f. f ≡ field_of_line is_join base.now line.now) }
    ensures shown { IfOk result (λ f. IfSome f IsShown) }
{
    match origin(alloc, base, line)? {
        Some(made) => field_over(alloc, is_join, line, made),
        None => Ok(None),
    }
}

/// Adds the field of a line, if it describes one.
#[tactic(auto, unfolding(crate::specs::Named::field_if))]
fn add_field(
    alloc: Global,
    base: &[Field],
    line: &Specification,
    fields: &mut NamedFields,
) -> Result<(), AllocError>
    requires { IsLaidOut base.now }
    ensures { OnOk result (fields.new ≡ fields.old ++ option_to_list (field_if base.now line.now)) }
{
    if !is_of(LineKind::Field, line) {
        return Ok(());
    }
    match field_of_line(alloc, false, base, line)? {
        Some(field) => fields.push(field),
        None => Ok(()),
    }
}

#[tactic(auto, using(crate::proofs::ListLemmas::joined, crate::proofs::NamedLemmas::cons_option_is))]
fn fields_of_lines(
    alloc: Global,
    base: &[Field],
    lines: &[Specification],
) -> Result<NamedFields, AllocError>
    requires { IsLaidOut base.now }
    ensures { IfOk result (λ fields. fields ≡ filter_map (field_if base.now) lines.now) }
{
    let mut fields = NamedFields::new(alloc);
    for line in lines {
        add_field(alloc, base, line, &mut fields)?;
    }
    Ok(fields)
}

/// The fields that lines describe, or without lines of fields all of the base file.
pub(crate) fn named_fields(
    alloc: Global,
    base: &[Field],
    lines: &[Specification],
) -> Result<NamedFields, AllocError>
    requires { IsLaidOut base.now }
    ensures { IfOk result (λ fields. fields ≡ named_fields base.now (lines_of line_kinds.Field lines.now)) }
{
    if has_lines(LineKind::Field, lines) {
        let described = fields_of_lines(alloc, base, lines)?;
        Ok(described)
    } else {
        let whole = fields_as_they_are(alloc, base)?;
        Ok(whole)
    }
}
