//! What a join is read by: its primary file's path, and how each secondary file is reached.
ghost use Rattle.std.specs.Prelude.{◌≡◌, ◌++◌, map, IfOk, OnOk};
ghost use Rattle.std.specs.List.{AllByRecursion};
ghost use Rattle.field_values.specs.FieldTypes.{IsFieldType};
ghost use Rattle.field_values.specs.FieldBytes.{written};
ghost use Rattle.file_model.specs.Views.{default_image};
ghost use Rattle.view_rules.specs.Stored.{HasDefault};
ghost use Rattle.logical_laws.specs.FilePaths.{join_of, secondary_of};
ghost use Rattle.logical_paths.specs.Steps.{HasType, HaveDefaults, fields_of_join};

use crate::bases::BaseFiles;
use crate::copies::copied_field;
use crate::paths::primary_path;
use dds_logical::join_views::{JoinView, JoinedField, JoinedFile};
use field_types::lists::ListOf;
use field_types::texts::Image;
use field_values::fields;
use file_model::joins::{JoinField, JoinPair, JoinSpec, Secondary};
use file_model::record_fmt::formats::Field;
use std::alloc::{AllocError, Global};

/// What a join is read by. The default values of its secondary files stand where no record is joined.
pub fn join_of<B: BaseFiles>(
    alloc: Global,
    bases: &B,
    view: &JoinView,
) -> Result<JoinSpec, AllocError>
    requires { HaveDefaults (B.bases bases.now) view.now.secondaries }
    ensures { IfOk result (λ spec. spec ≡ join_of (B.bases bases.now) view.now) }
{
    let primary = primary_path(alloc, bases, view)?;
    let secondaries = secondaries_of(alloc, bases, view.secondaries.as_slice())?;
    let fields = fields_of_join(alloc, view.fields.as_slice())?;
    Ok(JoinSpec {
        primary,
        secondaries,
        keeps_missing: view.keeps_missing,
        fields,
    })
}

#[tactic(auto, using(crate::proofs::PathLemmas::joined))]
fn secondaries_of<B: BaseFiles>(
    alloc: Global,
    bases: &B,
    files: &[JoinedFile],
) -> Result<ListOf<Secondary>, AllocError>
    requires { HaveDefaults (B.bases bases.now) files.now }
    ensures { IfOk result (λ secondaries. secondaries ≡ map (secondary_of (B.bases bases.now)) files.now) }
{
    let mut secondaries = ListOf::new(alloc);
    for joined in files {
        secondaries.push(secondary_of(alloc, bases, joined)?)?;
    }
    Ok(secondaries)
}

/// A secondary file, and the record that stands where none is joined.
fn secondary_of<B: BaseFiles>(
    alloc: Global,
    bases: &B,
    joined: &JoinedFile,
) -> Result<Secondary, AllocError>
    requires { AllByRecursion HasDefault (B.bases bases.now joined.now.file).fields }
    ensures { IfOk result (λ secondary. secondary ≡ secondary_of (B.bases bases.now) joined.now) }
{
    let pairs = copied_pairs(alloc, joined.pairs.as_slice())?;
    let default = default_image(alloc, bases.fields(&joined.file))?;
    Ok(Secondary {
        member: bases.member(&joined.file),
        from: joined.from,
        pairs,
        sequence: joined.sequence,
        default: Image::from_vec(default),
    })
}

fn copied_pairs(alloc: Global, pairs: &[JoinPair]) -> Result<ListOf<JoinPair>, AllocError>
    ensures { IfOk result (λ copies. copies ≡ pairs.now) }
{
    let mut copies = ListOf::new(alloc);
    for pair in pairs {
        copies.push(copied_pair(alloc, pair)?)?;
    }
    Ok(copies)
}

fn copied_pair(alloc: Global, pair: &JoinPair) -> Result<JoinPair, AllocError>
    ensures { IfOk result (λ copy. copy ≡ pair.now) }
{
    let from = copied_field(alloc, &pair.from)?;
    let to = copied_field(alloc, &pair.to)?;
    Ok(JoinPair { from, to })
}

#[tactic(auto, using(crate::proofs::PathLemmas::joined))]
fn fields_of_join(alloc: Global, fields: &[JoinedField]) -> Result<ListOf<JoinField>, AllocError>
    ensures { IfOk result (λ copies. copies ≡ fields_of_join fields.now) }
{
    let mut copies = ListOf::new(alloc);
    for field in fields {
        copies.push(copied_join_field(alloc, &field.field)?)?;
    }
    Ok(copies)
}

fn copied_join_field(alloc: Global, field: &JoinField) -> Result<JoinField, AllocError>
    ensures { IfOk result (λ copy. copy ≡ field.now) }
{
    let shown = copied_field(alloc, &field.field)?;
    Ok(JoinField {
        file: field.file,
        field: shown,
    })
}

/// A record of default values.
#[tactic(auto, using(crate::proofs::PathLemmas::joined))]
fn default_image(alloc: Global, fields: &[Field]) -> Result<Vec<u8>, AllocError>
    requires allowed { AllByRecursion HasType fields.now }
    requires fits { AllByRecursion HasDefault fields.now }
    ensures { IfOk result (λ image. image.items ≡ default_image fields.now) }
{
    let mut image = Vec::new(alloc);
    for field in fields {
        add_default(alloc, field, &mut image)?;
    }
    Ok(image)
}

/// Adds the default value of a field.
fn add_default(alloc: Global, field: &Field, image: &mut Vec<u8>) -> Result<(), AllocError>
    requires allowed { IsFieldType field.now.ty }
    requires fits { HasDefault field.now }
    ensures { OnOk result (image.new.items ≡ image.old.items ++ written field.now.ty field.now.default) }
{
    let mut room = Vec::new(alloc);
    room.resize(fields::width(&field.ty), 0)?;
    let bytes = &mut room[0..];
    match fields::put(&field.ty, &field.default, bytes) {
        Ok(()) => image.extend_from_slice(bytes),
        Err(_) => unreachable!(),
    }
}
