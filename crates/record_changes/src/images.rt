//! The image of a record from the values that a request gives, by what its file is.
ghost use Rattle.std.specs.Prelude.{◌≡◌, ◌<◌, Some, IfOk, IsSome, length};
ghost use Rattle.std.specs.Option.{ForSome, option_copied};
ghost use Rattle.record_fmt.specs.Records.{record_given};
ghost use Rattle.file_model.specs.Views.{base_image};
ghost use Rattle.member_slots.specs.declared.slot.Slot.TheVariants.{Live};
ghost use Rattle.dds_logical.specs.declared.views.LogicalSpec.TheVariants.{Multi};
ghost use Rattle.logical_model.specs.Bases.{LogicalFile};
ghost use Rattle.logical_model.specs.Formats.{given_in, given_through};
ghost use Rattle.logical_laws.specs.Found.{HoldsRecord};
ghost use Rattle.library_parts.specs.Bodies.{spec_in};
ghost use Rattle.lawful_states.specs.Physical.{IsPhysical};
ghost use Rattle.library_steps.specs.State.{format_in, memory_of, physical_among};
ghost use Rattle.library_steps.specs.LogicalFiles.{bases_of};
ghost use Rattle.library_steps.specs.WriteRecord.{packed};
ghost use Rattle.library_parts.specs.Answers.{Gives};
ghost use Rattle.library_parts.specs.Finds.{ReadsMember};
ghost use Rattle.library_parts.specs.Indexed.{IsViewBeside};
ghost use Rattle.joint_state.specs.Views.{HaveDefaults};
ghost use Rattle.view_records.specs.Through.{IsFormatOf, IsWrittenThrough};
ghost use Rattle.record_changes.specs.Images.{IsWritable, IsWrittenIn, fields_under};
ghost use Rattle.record_changes.specs.Places.{FitsMember};

use dds_logical::{LogicalSpec, View};
use field_types::faults::RecordFault;
use field_types::names::Name;
use field_types::texts::Image;
use field_types::values::Value;
use library_model::replies::Reply;
use library_parts::file_catalogue::{Described, DescribedView, File, FileBody};
use library_parts::job_table::OpenAt;
use library_parts::{Contents, Stop};
use record_fmt::formats::{Format, PackFault};
use record_laws::{changed_record_holds, new_record_holds};
use std::alloc::Global;
use view_records::given::image_given;

/// The image of a record that is added, or put in the place of the old one, through an open. A field whose value isn't given
/// takes its default, or keeps what it holds; so does a field that the format of a logical file doesn't show.
pub(crate) fn image_through(
    contents: &Contents,
    file: &File,
    opened: &OpenAt<'_>,
    given: &[Option<Value>],
    old: Option<&[u8]>,
) -> Result<Image, Stop>
    requires there { ReadsMember contents.now.state file.now opened.now.state }
    requires view { IsViewBeside contents.now.state.files file.now.spec }
    requires defaults { HaveDefaults contents.now.state.files }
    requires old { ForSome old (λ image. FitsMember contents.now.state opened.now.state.member (Live image.now)) }
    ensures packed { Gives result (packed (given_in (bases_of (memory_of contents.now.state)) file.now.spec opened.now.state.format given.now (option_copied old.entry))) }
    ensures fits { IfOk result (λ image. FitsMember contents.now.state opened.now.state.member (Live image)) }
{
    // A logical file is over a physical one that is there, and no two members have one number.
    let _begun = contents.jobs_begun();
    let _counts = contents.counts();
    image_in(contents, file.described(), opened.format(), given, old)
}

/// The same by what the file is, through the format of that number.
fn image_in(
    contents: &Contents,
    body: &FileBody,
    number: u16,
    given: &[Option<Value>],
    old: Option<&[u8]>,
) -> Result<Image, Stop>
    requires written { IsWrittenIn contents.now.state.files (spec_in body.now) number }
    requires old { ForSome old (λ image. HoldsRecord (fields_under (bases_of (memory_of contents.now.state)) (spec_in body.now) number) image.now) }
    ensures packed { Gives result (packed (given_in (bases_of (memory_of contents.now.state)) (spec_in body.now) number given.now (option_copied old.entry))) }
    ensures holds { IfOk result (λ image. HoldsRecord (fields_under (bases_of (memory_of contents.now.state)) (spec_in body.now) number) image) }
{
    match body {
        FileBody::Physical(described) => own_image(contents.alloc(), described, given, old),
        FileBody::Logical(view) => view_image(contents, view, number, given, old),
    }
}

/// The image of a record of a physical file.
fn own_image(
    alloc: Global,
    described: &Described,
    given: &[Option<Value>],
    old: Option<&[u8]>,
) -> Result<Image, Stop>
    requires old { ForSome old (λ image. HoldsRecord described.now.spec.format.fields image.now) }
    ensures packed { Gives result (packed (record_given described.now.spec.format.fields given.now (option_copied old.entry))) }
    ensures holds { IfOk result (λ image. HoldsRecord described.now.spec.format.fields image) }
{
    packed_image(alloc, described.format(), given, old)
}

/// The image of a record with the fields of a format.
fn packed_image(
    alloc: Global,
    format: &Format,
    given: &[Option<Value>],
    old: Option<&[u8]>,
) -> Result<Image, Stop>
    requires old { ForSome old (λ image. HoldsRecord format.now.fields image.now) }
    ensures packed { Gives result (packed (record_given format.now.fields given.now (option_copied old.entry))) }
    ensures holds { IfOk result (λ image. HoldsRecord format.now.fields image) }
{
    // The fields lie one behind the other, so a record that is packed holds a value of each.
    let _fields = format.fields.as_slice();
    new_record_holds();
    changed_record_holds();
    match format.pack_given(alloc, given, old) {
        Ok(image) => Ok(Image::from_vec(image)),
        Err(PackFault::NoMemory) => Err(Stop::NoMemory),
        Err(PackFault::Refused(fault)) => Err(Stop::Refused(Reply::BadValue(fault))),
    }
}

/// The image of a record of the file that a logical file is over.
fn view_image(
    contents: &Contents,
    view: &DescribedView,
    number: u16,
    given: &[Option<Value>],
    old: Option<&[u8]>,
) -> Result<Image, Stop>
    requires written { IsWrittenIn contents.now.state.files (LogicalFile view.now.spec) number }
    requires old { ForSome old (λ image. HoldsRecord (fields_under (bases_of (memory_of contents.now.state)) (LogicalFile view.now.spec) number) image.now) }
    ensures packed { Gives result (packed (given_in (bases_of (memory_of contents.now.state)) (LogicalFile view.now.spec) number given.now (option_copied old.entry))) }
    ensures holds { IfOk result (λ image. HoldsRecord (fields_under (bases_of (memory_of contents.now.state)) (LogicalFile view.now.spec) number) image) }
{
    format_image(contents, view.spec(), number, given, old)
}

/// The same by what the logical file is.
fn format_image(
    contents: &Contents,
    spec: &LogicalSpec,
    number: u16,
    given: &[Option<Value>],
    old: Option<&[u8]>,
) -> Result<Image, Stop>
    requires written { IsWrittenIn contents.now.state.files (LogicalFile spec.now) number }
    requires old { ForSome old (λ image. HoldsRecord (fields_under (bases_of (memory_of contents.now.state)) (LogicalFile spec.now) number) image.now) }
    ensures packed { Gives result (packed (given_in (bases_of (memory_of contents.now.state)) (LogicalFile spec.now) number given.now (option_copied old.entry))) }
    ensures holds { IfOk result (λ image. HoldsRecord (fields_under (bases_of (memory_of contents.now.state)) (LogicalFile spec.now) number) image) }
{
    match spec {
        LogicalSpec::Simple(view) => image_over(contents, view, given, old),
        LogicalSpec::Multi(views) => {
            image_among(contents, views.as_slice(), usize::from(number), given, old)
        }
        // It shows fields of several files: no value can be given.
        LogicalSpec::Join(_) => Err(Stop::Refused(Reply::BadValue(RecordFault::Count))),
    }
}

/// The same by the format at that place among several.
fn image_among(
    contents: &Contents,
    views: &[View],
    place: usize,
    given: &[Option<Value>],
    old: Option<&[u8]>,
) -> Result<Image, Stop>
    requires within { place < length views.now }
    requires written { IsWrittenIn contents.now.state.files (LogicalFile (Multi views.now)) place }
    requires old { ForSome old (λ image. HoldsRecord (fields_under (bases_of (memory_of contents.now.state)) (LogicalFile (Multi views.now)) place) image.now) }
    ensures packed { Gives result (packed (given_in (bases_of (memory_of contents.now.state)) (LogicalFile (Multi views.now)) place given.now (option_copied old.entry))) }
    ensures holds { IfOk result (λ image. HoldsRecord (fields_under (bases_of (memory_of contents.now.state)) (LogicalFile (Multi views.now)) place) image) }
{
    image_over(contents, &views[place], given, old)
}

/// The image of a record of the file that a format is over.
fn image_over(
    contents: &Contents,
    view: &View,
    given: &[Option<Value>],
    old: Option<&[u8]>,
) -> Result<Image, Stop>
    requires written { IsWritable contents.now.state.files view.now }
    requires old { ForSome old (λ image. HoldsRecord (bases_of (memory_of contents.now.state) view.now.base).fields image.now) }
    ensures packed { Gives result (packed (given_through (bases_of (memory_of contents.now.state)) view.now given.now (option_copied old.entry))) }
    ensures holds { IfOk result (λ image. HoldsRecord (bases_of (memory_of contents.now.state) view.now.base).fields image) }
{
    let base = base_format(contents, &view.base);
    stored_image(contents.alloc(), base, view, given, old)
}

/// The image of a record with the fields of that file's format.
fn stored_image(
    alloc: Global,
    base: &Format,
    view: &View,
    given: &[Option<Value>],
    old: Option<&[u8]>,
) -> Result<Image, Stop>
    requires written { IsWrittenThrough base.now.fields view.now }
    requires format { IsFormatOf view.now }
    requires old { ForSome old (λ image. HoldsRecord base.now.fields image.now) }
    ensures packed { Gives result (packed (base_image base.now.fields view.now.mapping given.now (option_copied old.entry))) }
    ensures holds { IfOk result (λ image. HoldsRecord base.now.fields image) }
{
    match image_given(alloc, base, view, given, old) {
        Ok(image) => Ok(Image::from_vec(image)),
        Err(PackFault::NoMemory) => Err(Stop::NoMemory),
        Err(PackFault::Refused(fault)) => Err(Stop::Refused(Reply::BadValue(fault))),
    }
}

/// The format of the physical file of that name, which is there.
fn base_format<'a>(contents: &'a Contents, name: &Name) -> &'a Format
    requires { IsSome (physical_among name.now contents.now.state.files) }
    ensures { result.now.fields ≡ (bases_of (memory_of contents.now.state) name.now).fields }
{
    own_format(base_file(contents, name))
}

/// The physical file of that name, which is there.
fn base_file<'a>(contents: &'a Contents, name: &Name) -> &'a File
    requires { IsSome (physical_among name.now contents.now.state.files) }
    ensures file { physical_among name.now contents.now.state.files ≡ Some result.now }
    ensures physical { IsPhysical result.now.spec }
{
    match contents.physical_file(name) {
        Ok(file) => file,
        Err(_) => unreachable!(),
    }
}

/// The format of a physical file.
fn own_format(file: &File) -> &Format
    requires { IsPhysical file.now.spec }
    ensures { result.now ≡ format_in file.now.spec }
{
    match file.format() {
        Some(format) => format,
        None => unreachable!(),
    }
}
