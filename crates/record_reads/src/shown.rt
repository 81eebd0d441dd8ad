//! What a record shows through a format of a file.
ghost use Rattle.std.specs.Prelude.{◌≡◌, ◌<◌, true, is_some, length, None, Some, IfOk, slice_get, option_copied};
ghost use Rattle.key_order.specs.KeyFields.{AreBytes};
ghost use Rattle.member_slots.specs.Members.{NumberedMembers, member_of};
ghost use Rattle.record_fmt.specs.Layout.{record_length};
ghost use Rattle.record_fmt.specs.Records.{record_held};
ghost use Rattle.physical_paths.specs.KeyedFiles.{IsRecord};
ghost use Rattle.dds_logical.specs.declared.views.LogicalSpec.TheVariants.{Multi};
ghost use Rattle.logical_model.specs.Bases.{Bases, LogicalFile};
ghost use Rattle.logical_model.specs.Formats.{shown_by, shown_in, shown_through, values_shown};
ghost use Rattle.view_records.specs.Through.{IsFormatOf, IsReadThrough};
ghost use Rattle.library_parts.specs.Bodies.{spec_in};
ghost use Rattle.library_steps.specs.State.{OpenState, memory_of};
ghost use Rattle.library_steps.specs.Reads.{Found, read_as};
ghost use Rattle.library_steps.specs.Records.{live_record};
ghost use Rattle.record_reads.specs.Plans.{CanShow, IsOfRow, record_shown};
ghost use Rattle.record_reads.specs.Shown.{ShowsImage, shown_as_held};
ghost use Rattle.logical_model.specs.Readings.{join_in};

use crate::plans::FoundAt;
use dds_logical::join_views::JoinView;
use dds_logical::{LogicalSpec, View};
use field_values::fields::ImageFault;
use library_model::replies::RecordRead;
use library_model::value_lists::Values;
use library_parts::file_catalogue::{Described, File, FileBody};
use library_parts::job_table::OpenAt;
use library_parts::{Contents, RowFound};
use record_fmt::formats::Format;
use std::alloc::{AllocError, Global};
use view_records::shown::values_shown;

/// What a file shows of what was found, through the format at which the open is.
pub(crate) fn shown_found(
    contents: &Contents,
    file: &File,
    opened: &OpenAt<'_>,
    found: &FoundAt,
) -> Result<RecordRead, AllocError>
    requires shows { found.now.row ≡ None → CanShow contents.now.state file.now opened.now.state found.now.rrn }
    requires found { (it : Found) × IsOfRow (memory_of contents.now.state) file.now.spec found.now.row it }
    ensures { (it : Found) → IsOfRow (memory_of contents.now.state) file.now.spec found.now.row it
        → IfOk result (λ shown. shown ≡ record_shown (memory_of contents.now.state) file.now opened.now.state found.now.rrn it.row) }
{
    match &found.row {
        Some(row) => row_shown(contents, file, row, found.rrn),
        None => record_shown(contents, file, opened, found.rrn),
    }
}

/// What a join shows of a row.
fn row_shown(
    contents: &Contents,
    file: &File,
    row: &RowFound,
    rrn: u32,
) -> Result<RecordRead, AllocError>
    requires { (it : Found) × IsOfRow (memory_of contents.now.state) file.now.spec (Some row.now) it }
    ensures { (it : Found) (opened : OpenState) → IsOfRow (memory_of contents.now.state) file.now.spec (Some row.now) it
        → IfOk result (λ shown. shown ≡ record_shown (memory_of contents.now.state) file.now opened rrn it.row) }
{
    let view = joined(file).unwrap();
    let values = contents.row_values(view, row)?;
    Ok(RecordRead {
        format: view.format.name,
        rrn,
        values: Values::from_vec(values),
    })
}

/// The join that a file is.
pub(crate) fn joined(file: &File) -> Option<&JoinView>
    ensures { option_copied result ≡ join_in file.now.spec }
{
    match file.logical() {
        Some(spec) => joined_in(spec),
        None => None,
    }
}

/// The join that a logical file is.
fn joined_in(spec: &LogicalSpec) -> Option<&JoinView>
    ensures { option_copied result ≡ join_in (LogicalFile spec.now) }
{
    match spec {
        LogicalSpec::Join(view) => Some(view),
        LogicalSpec::Simple(_) | LogicalSpec::Multi(_) => None,
    }
}

/// The record of that number of the open's member, through the format at which the open is.
fn record_shown(
    contents: &Contents,
    file: &File,
    opened: &OpenAt<'_>,
    rrn: u32,
) -> Result<RecordRead, AllocError>
    requires { CanShow contents.now.state file.now opened.now.state rrn }
    ensures { IfOk result (λ shown. shown ≡ record_shown (memory_of contents.now.state) file.now opened.now.state rrn None) }
{
    // What the parts of a library need of each other holds.
    let _jobs = contents.jobs_begun();
    let image = image_there(contents, opened.member(), rrn);
    shown_by(
        contents.alloc(),
        file.described(),
        opened.format(),
        rrn,
        image,
    )
}

/// The image of the record of that number, which is there.
fn image_there(contents: &Contents, member: u32, rrn: u32) -> &[u8]
    requires { is_some (live_record member rrn (memory_of contents.now.state)) ≡ true }
    ensures live { live_record member rrn (memory_of contents.now.state) ≡ Some result.now }
    ensures long { length result.now ≡ (member_of member contents.now.state.members).record_length }
    ensures bytes { AreBytes result.now }
{
    let image = contents.live_image(member, rrn).unwrap();
    are_bytes(image);
    image
}

/// A slice of bytes is of bytes.
fn are_bytes(bytes: &[u8])
    ensures { AreBytes bytes.now }
{}

/// What the format of that number shows of a record.
fn shown_by(
    alloc: Global,
    body: &FileBody,
    number: u16,
    rrn: u32,
    image: &[u8],
) -> Result<RecordRead, AllocError>
    requires { ShowsImage (spec_in body.now) number image.now }
    ensures { (bases : Bases) (members : NumberedMembers) → IfOk result (λ shown. shown ≡ read_as rrn (shown_in bases members (spec_in body.now) number image.now None)) }
{
    match body {
        FileBody::Physical(described) => shown_physical(alloc, described, rrn, image),
        FileBody::Logical(view) => shown_logical(alloc, view.spec(), number, rrn, image),
    }
}

/// What a physical file shows of a record of its own.
fn shown_physical(
    alloc: Global,
    described: &Described,
    rrn: u32,
    image: &[u8],
) -> Result<RecordRead, AllocError>
    requires { IsRecord described.now.spec.format.fields image.now }
    ensures { IfOk result (λ shown. shown ≡ read_as rrn (shown_as_held described.now.spec.format image.now)) }
{
    let format = described.format();
    let values = values_held(alloc, format, image)?;
    Ok(RecordRead {
        format: format.name,
        rrn,
        values,
    })
}

/// What the format of that number of a logical file shows of a record of its base file.
fn shown_logical(
    alloc: Global,
    spec: &LogicalSpec,
    number: u16,
    rrn: u32,
    image: &[u8],
) -> Result<RecordRead, AllocError>
    requires { ShowsImage (LogicalFile spec.now) number image.now }
    ensures { (bases : Bases) (members : NumberedMembers) → IfOk result (λ shown. shown ≡ read_as rrn (shown_in bases members (LogicalFile spec.now) number image.now None)) }
{
    match spec {
        LogicalSpec::Simple(view) => shown_view(alloc, view, rrn, image),
        LogicalSpec::Multi(views) => {
            shown_among(alloc, views.as_slice(), usize::from(number), rrn, image)
        }
        LogicalSpec::Join(_) => unreachable!(),
    }
}

/// What the format at that place among several shows of a record of its base file.
fn shown_among(
    alloc: Global,
    views: &[View],
    place: usize,
    rrn: u32,
    image: &[u8],
) -> Result<RecordRead, AllocError>
    requires within { place < length views.now }
    requires shows { ShowsImage (LogicalFile (Multi views.now)) place image.now }
    ensures { IfOk result (λ shown. shown ≡ read_as rrn (shown_by (slice_get views.now place) image.now)) }
{
    shown_view(alloc, &views[place], rrn, image)
}

/// What a format shows of a record of its base file.
fn shown_view(alloc: Global, view: &View, rrn: u32, image: &[u8]) -> Result<RecordRead, AllocError>
    requires read { IsReadThrough view.now image.now }
    requires format { IsFormatOf view.now }
    ensures { IfOk result (λ shown. shown ≡ read_as rrn (shown_through view.now image.now)) }
{
    let values = values_shown(alloc, view, image)?;
    Ok(RecordRead {
        format: view.format.name,
        rrn,
        values: Values::from_vec(values),
    })
}

/// The values of a record, in which one stands in each field.
fn values_held(alloc: Global, format: &Format, image: &[u8]) -> Result<Values, AllocError>
    requires long { length image.now ≡ record_length format.now.fields }
    requires held { is_some (record_held format.now.fields image.now) ≡ true }
    ensures { IfOk result (λ values. values ≡ values_shown format.now.fields image.now) }
{
    match format.unpack(alloc, image) {
        Ok(values) => Ok(Values::from_vec(values)),
        Err(ImageFault::NoMemory) => Err(AllocError),
        Err(ImageFault::BadImage(_)) => unreachable!(),
    }
}
