//! What refuses a change of a record, beside what the library refuses to all requests.
ghost use Rattle.std.specs.Prelude.{◌≡◌, [], ◌∷◌, Some, cond, map, IfOk, IsTrue};
ghost use Rattle.member_slots.specs.declared.slot.Slot.TheVariants.{Live, Deleted};
ghost use Rattle.std.specs.List.{position};
ghost use Rattle.std.specs.Str.{bytes_eq};
ghost use Rattle.logical_model.specs.Bases.{LogicalFile};
ghost use Rattle.logical_model.specs.Formats.{format_number};
ghost use Rattle.library_model.specs.declared.replies.Reply.TheVariants.{WrongOpen, NoCurrentRecord};
ghost use Rattle.library_parts.specs.Bodies.{spec_in};
ghost use Rattle.library_steps.specs.State.{job_at, memory_of};
ghost use Rattle.library_steps.specs.History.{is_running};
ghost use Rattle.library_steps.specs.Records.{slot_there};
ghost use Rattle.library_steps.specs.Refusals.{found, named_or_refused, refuse_if};
ghost use Rattle.library_steps.specs.SlotChange.{few_changes};
ghost use Rattle.library_steps.specs.UniqueKeys.{keys_free};
ghost use Rattle.library_steps.specs.WriteRecord.{format_asked, is_input};
ghost use Rattle.library_parts.specs.Answers.{Allows, Gives, MayAllow};
ghost use Rattle.library_parts.specs.Finds.{IsFormatIn};
ghost use Rattle.record_changes.specs.Places.{FitsMember};

use dds_logical::{LogicalSpec, View};
use field_types::names::Name;
use field_types::texts::Image;
use library_model::replies::Reply;
use library_model::requests::OpenOption;
use library_parts::file_catalogue::{File, FileBody};
use library_parts::job_table::OpenAt;
use library_parts::{Contents, Stop, no_such_name};
use member_slots::slot::Slot;

/// The number of the format that is named, counted from 0, or of the first.
pub(crate) fn format_asked(file: &File, named: Option<Name>) -> Result<u16, Stop>
    requires { IsFormatIn file.now.spec 0 }
    ensures asked { Gives result (format_asked named file.now.spec) }
    ensures there { IfOk result (λ number. IsFormatIn file.now.spec number) }
{
    match named {
        Some(name) => format_named(file, name),
        None => Ok(0),
    }
}

/// The number of the format of that name. One that can't be counted counts as memory that is exhausted.
fn format_named(file: &File, name: Name) -> Result<u16, Stop>
    ensures asked { Gives result (named_or_refused name (format_number name file.now.spec)) }
    ensures there { IfOk result (λ number. IsFormatIn file.now.spec number) }
{
    let Some(place) = place_of_format(file.described(), name) else {
        return Err(no_such_name(name));
    };
    match u16::try_from(place) {
        Ok(number) => Ok(number),
        Err(_) => Err(Stop::NoMemory),
    }
}

/// The place of the format of that name among those of a file.
fn place_of_format(body: &FileBody, name: Name) -> Option<usize>
    ensures { result ≡ format_number name (spec_in body.now) }
{
    match body {
        FileBody::Physical(described) => only_place(&described.format().name, name),
        FileBody::Logical(view) => place_of_view(view.spec(), name),
    }
}

/// The same of a logical file.
fn place_of_view(spec: &LogicalSpec, name: Name) -> Option<usize>
    ensures { result ≡ format_number name (LogicalFile spec.now) }
{
    match spec {
        LogicalSpec::Simple(view) => only_place(&view.format.name, name),
        LogicalSpec::Multi(views) => place_among(views.as_slice(), name),
        LogicalSpec::Join(view) => only_place(&view.format.name, name),
    }
}

/// The place of the one format.
fn only_place(format: &Name, name: Name) -> Option<usize>
    ensures { result ≡ position (bytes_eq name) (format.now ∷ []) }
{
    place_or(name, format, 0, None)
}

/// The place of the first of several formats that has the name.
fn place_among(views: &[View], name: Name) -> Option<usize>
    ensures { result ≡ position (bytes_eq name) (map (λ view. view.format.name) views.now) }
{
    let mut found = None;
    let mut left = views.len();
    while left > 0 {
        left -= 1;
        found = place_or(name, &views[left].format.name, left, found);
    }
    found
}

/// The place, where the format has the name, or that of another.
fn place_or(name: Name, format: &Name, place: usize, other: Option<usize>) -> Option<usize>
    ensures { result ≡ cond (bytes_eq name format.now) (Some place) other }
{
    if name == *format { Some(place) } else { other }
}

/// An open for input changes nothing.
pub(crate) fn may_change(opened: &OpenAt<'_>) -> Result<(), Stop>
    ensures { Allows result (refuse_if (is_input opened.now.state.option) WrongOpen) }
{
    match opened.option() {
        OpenOption::Input => Err(Stop::Refused(Reply::WrongOpen)),
        OpenOption::All => Ok(()),
    }
}

/// The record that the open may change.
pub(crate) fn current_record(opened: &OpenAt<'_>) -> Result<u32, Stop>
    ensures { Gives result (found opened.now.state.current NoCurrentRecord) }
{
    match opened.current() {
        Some(rrn) => Ok(rrn),
        None => Err(Stop::Refused(Reply::NoCurrentRecord)),
    }
}

/// The refusal where a key of the image, in the place of the slot that stands there, is another record's or is kept for one.
pub(crate) fn keys_free(
    contents: &Contents,
    job: u32,
    opened: &OpenAt<'_>,
    rrn: u32,
    image: &Image,
) -> Result<(), Stop>
    requires running { IsTrue (is_running (job_at job contents.now.state.jobs)) }
    requires fits { FitsMember contents.now.state opened.now.state.member (Live image.now) }
    ensures { let m = memory_of contents.now.state in MayAllow result (keys_free job opened.now.state.commit opened.now.state.member rrn (slot_there opened.now.state.member rrn m) image.now m) }
{
    contents.keys_free(job, opened.commit(), opened.member(), rrn, image.as_bytes())
}

/// The same at a place where no record stands.
pub(crate) fn added_keys_free(
    contents: &Contents,
    job: u32,
    opened: &OpenAt<'_>,
    rrn: u32,
    image: &Image,
) -> Result<(), Stop>
    requires running { IsTrue (is_running (job_at job contents.now.state.jobs)) }
    requires fits { FitsMember contents.now.state opened.now.state.member (Live image.now) }
    requires empty { slot_there opened.now.state.member rrn (memory_of contents.now.state) ≡ Deleted }
    ensures { MayAllow result (keys_free job opened.now.state.commit opened.now.state.member rrn Deleted image.now (memory_of contents.now.state)) }
{
    keys_free(contents, job, opened, rrn, image)
}

/// The refusal where one change more, of the slot that stands there to another, is too much for the open commit cycles.
pub(crate) fn few_changes(
    contents: &Contents,
    opened: &OpenAt<'_>,
    rrn: u32,
    new: &Slot,
) -> Result<(), Stop>
    ensures { Allows result (few_changes opened.now.state.commit (slot_there opened.now.state.member rrn (memory_of contents.now.state)) new.now (memory_of contents.now.state)) }
{
    match contents.slot(opened.member(), rrn) {
        Some(old) => contents.few_changes(opened.commit(), old, new),
        None => contents.few_changes(opened.commit(), &Slot::Deleted, new),
    }
}
