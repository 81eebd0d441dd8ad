//! The type of a field: from the entries of its line, and from the field that it refers to.
ghost use Rattle.std.specs.Prelude.{◌≡◌, ◌&&◌, ◌||◌, ◌≤◌, not, is_some, IfOk};
ghost use Rattle.record_fmt.specs.FieldTypes.{is_allowed, is_numeric, is_moment_kind, IsFieldType};
ghost use Rattle.dds_physical.specs.Places.{fault_at};
ghost use Rattle.dds_physical.specs.Attributes.{kind_by_letter, kind_of, own_length, copied_length, blank_length, length_of, copied_decimals, decimals_of, are_decimals_wrong, sized, attributes};

use dds_source::faults::{DdsCause, DdsFault};
use dds_source::specifications::{Columns, LengthEntry, Specification};
use field_types::kinds::{FieldType, Kind};

/// A fault at the entry of a line that begins in this column.
pub(crate) fn fault_at(specification: &Specification, column: u32, cause: DdsCause) -> DdsFault
    ensures { result ≡ fault_at specification.now column cause }
{
    DdsFault {
        line: specification.line,
        column,
        cause,
    }
}

/// The kind of a letter in position 35.
pub(crate) fn kind_by_letter(letter: u8) -> Option<Kind>
    ensures { result ≡ kind_by_letter letter }
{
    match letter {
        b'A' => Some(Kind::Char),
        b'S' => Some(Kind::Zoned),
        b'P' => Some(Kind::Packed),
        b'B' => Some(Kind::Binary),
        b'L' => Some(Kind::Date),
        b'T' => Some(Kind::Time),
        b'Z' => Some(Kind::Stamp),
        _ => None,
    }
}

fn is_numeric(kind: Kind) -> bool
    ensures { result ≡ is_numeric kind }
{
    match kind {
        Kind::Zoned | Kind::Packed | Kind::Binary => true,
        Kind::Char | Kind::Date | Kind::Time | Kind::Stamp => false,
    }
}

/// The kind of a field; `None` where position 35 has no kind's letter.
fn kind_of(columns: &Columns, copied: Option<FieldType>) -> Option<Kind>
    ensures { result ≡ kind_of columns.now.data_type columns.now.decimals copied }
{
    match (columns.data_type, copied) {
        (Some(letter), _) => kind_by_letter(letter),
        (None, Some(ty)) => Some(ty.kind),
        (None, None) => Some(if columns.decimals.is_some() {
            Kind::Packed
        } else {
            Kind::Char
        }),
    }
}

/// The length that a kind has by itself, 0 where it has none.
fn own_length(kind: Kind) -> u64
    ensures { result ≡ own_length kind }
{
    match kind {
        Kind::Date => 10,
        Kind::Time => 8,
        Kind::Stamp => 26,
        Kind::Char | Kind::Zoned | Kind::Packed | Kind::Binary => 0,
    }
}

fn copied_length(copied: Option<FieldType>) -> u64
    ensures value { result ≡ copied_length copied }
    ensures bound { result ≤ 65535 }
{
    match copied {
        Some(ty) => u64::from(ty.length),
        None => 0,
    }
}

/// The length where positions 30 to 34 are blank.
fn blank_length(data_type: Option<u8>, kind: Kind, copied: Option<FieldType>) -> u64
    ensures { result ≡ blank_length data_type kind copied }
{
    let own = own_length(kind);
    if (own > 0 && data_type.is_some()) || copied.is_none() {
        own
    } else {
        copied_length(copied)
    }
}

fn length_of(columns: &Columns, kind: Kind, copied: Option<FieldType>) -> u64
    ensures { result ≡ length_of columns.now.length columns.now.data_type kind copied }
{
    match columns.length {
        None => blank_length(columns.data_type, kind, copied),
        Some(LengthEntry::Exactly(length)) => u64::from(length),
        Some(LengthEntry::Longer(by)) => copied_length(copied) + u64::from(by),
        Some(LengthEntry::Shorter(by)) => copied_length(copied).saturating_sub(u64::from(by)),
    }
}

fn decimals_of(given: Option<u8>, kind: Kind, copied: Option<FieldType>) -> u8
    ensures { result ≡ decimals_of given kind copied }
{
    match (given, copied) {
        (Some(decimals), _) => decimals,
        (None, Some(ty)) => { if is_numeric(kind) { ty.decimals } else { 0 } }
        (None, None) => 0,
    }
}

/// Whether a field of the kind may have this length and these decimals.
fn is_allowed(kind: Kind, length: u64, decimals: u8) -> bool
    ensures { result ≡ is_allowed kind length decimals }
{
    match kind {
        Kind::Char => (1..=32766).contains(&length) && decimals == 0,
        Kind::Zoned | Kind::Packed => (1..=31).contains(&length) && u64::from(decimals) <= length,
        Kind::Binary => (1..=18).contains(&length) && u64::from(decimals) <= length,
        Kind::Date => length == 10 && decimals == 0,
        Kind::Time => length == 8 && decimals == 0,
        Kind::Stamp => length == 26 && decimals == 0,
    }
}

/// Whether a field of the kind and length may not have these decimals, which its line gives or not.
fn are_decimals_wrong(given: bool, kind: Kind, length: u64, decimals: u8) -> bool
    ensures { result ≡ are_decimals_wrong given kind length decimals }
{
    (given && !is_numeric(kind)) || !is_allowed(kind, length, decimals)
}

/// The type of these entries, or the first that is at fault.
fn sized(
    specification: &Specification,
    kind: Kind,
    length: u64,
    decimals: u8,
) -> Result<FieldType, DdsFault>
    ensures value { result ≡ sized specification.now kind length decimals }
    ensures allowed { IfOk result IsFieldType }
{
    if !is_allowed(kind, length, 0) {
        return Err(fault_at(specification, 30, DdsCause::BadLength));
    }
    let given = specification.columns.decimals.is_some();
    if are_decimals_wrong(given, kind, length, decimals) {
        return Err(fault_at(specification, 36, DdsCause::BadDecimals));
    }
    Ok(FieldType {
        kind,
        length: length as u16,
        decimals,
    })
}

/// The type of a field, where what it refers to has a type; or the first entry at fault.
pub(crate) fn attributes(
    specification: &Specification,
    copied: Option<FieldType>,
) -> Result<FieldType, DdsFault>
    ensures value { result ≡ attributes specification.now copied }
    ensures allowed { IfOk result IsFieldType }
{
    let columns = &specification.columns;
    match kind_of(columns, copied) {
        None => Err(fault_at(specification, 35, DdsCause::BadType)),
        Some(kind) => {
            let length = length_of(columns, kind, copied);
            let decimals = decimals_of(columns.decimals, kind, copied);
            sized(specification, kind, length, decimals)
        }
    }
}
