//! What a walk gives is looked at before any of it is put.
ghost use Rattle.std.specs.Prelude.{◌≡◌, true, length, IfErr, OnOk};
ghost use Rattle.std.specs.List.{AllByRecursion};
ghost use Rattle.record_fmt.specs.Layout.{record_length};
ghost use Rattle.library_parts.below.parts_model.specs.declared.stop.Stop.TheVariants.{NoMemory};
ghost use Rattle.range_requests.specs.Fits.{FitsFields, IsFit, IsRecordOf, MayHavePlace};

use library_parts::Stop;
use member_slots::member::{MOST_BYTES, MOST_SLOTS};
use member_slots::slot::Slot;
use range_images::SlotGiven;
use record_fmt::formats::Format;

/// Each slot is a record of the format, or none, at a place that a member may have.
pub(crate) fn check_fit(format: &Format, given: &[SlotGiven]) -> Result<(), Stop>
    ensures fit { OnOk result (AllByRecursion (IsFit format.now.fields) given.now) }
    ensures short { IfErr result (λ stop. stop ≡ NoMemory) }
{
    let mut rest = given;
    while let [first, more @ ..] = rest {
        if !is_fit(format, first) {
            // No request deposits an entry that gives such a slot, which isn't proved. Want of memory may always be answered.
            return Err(Stop::NoMemory);
        }
        rest = more;
    }
    Ok(())
}

fn is_fit(format: &Format, given: &SlotGiven) -> bool
    ensures { result ≡ true → IsFit format.now.fields given.now }
{
    may_have_place(format, given.rrn) && fits_fields(format, &given.slot)
}

/// Whether a member with records of the format may have a record at that number.
fn may_have_place(format: &Format, rrn: u32) -> bool
    ensures { result ≡ true → MayHavePlace format.now.fields rrn }
{
    let number = u64::from(rrn);
    0 < number && number <= MOST_SLOTS && number * u64::from(format.length()) <= MOST_BYTES
}

fn fits_fields(format: &Format, slot: &Slot) -> bool
    ensures { result ≡ true → FitsFields format.now.fields slot.now }
{
    match slot {
        Slot::Live(image) => is_record(format, image.as_bytes()),
        Slot::Deleted => true,
    }
}

fn is_record(format: &Format, image: &[u8]) -> bool
    ensures { result ≡ true → IsRecordOf format.now.fields image.now }
{
    image.len() == format.length() as usize && format.first_bad(image).is_none()
}
