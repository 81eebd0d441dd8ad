//! The type of a field: from the entries of its line, and from what it is made of.
ghost use Rattle.std.specs.Prelude.{◌≡◌, ◌&&◌, ◌||◌, ◌<◌, ◌^◌, not, is_some, IfOk, Some};
ghost use Rattle.record_fmt.specs.FieldTypes.{is_allowed, is_numeric, IsFieldType};
ghost use Rattle.dds_physical.specs.Attributes.{kind_by_letter, kind_of, own_length, blank_length, length_of, decimals_of, are_decimals_wrong, sized, attributes};
ghost use Rattle.dds_logical.specs.Made.{type_of};

use crate::first::fault_at;
use crate::origins::OwnType;
use dds_physical::dds_source::faults::{DdsCause, DdsFault};
use dds_physical::dds_source::specifications::{Columns, LengthEntry, Specification};
use field_types::kinds::{FieldType, Kind};

/// The kind of a letter in position 35.
pub(crate) fn kind_by_letter(letter: u8) -> Option<Kind>
    ensures { result ≡ kind_by_letter letter }
{
    match letter {
        b'A' => Some(Kind::Char),
        b'S' => Some(Kind::Zoned),
        b'P' => Some(Kind::Packed),
        b'B' => Some(Kind::Binary),
        b'L' => Some(Kind::Date),
        b'T' => Some(Kind::Time),
        b'Z' => Some(Kind::Stamp),
        _ => None,
    }
}

pub(crate) fn is_numeric(kind: Kind) -> bool
    ensures { result ≡ is_numeric kind }
{
    match kind {
        Kind::Zoned | Kind::Packed | Kind::Binary => true,
        Kind::Char | Kind::Date | Kind::Time | Kind::Stamp => false,
    }
}

/// The kind of a field; `None` where position 35 has no kind's letter.
fn kind_of(columns: &Columns, own: OwnType) -> Option<Kind>
    ensures { result ≡ kind_of columns.now.data_type columns.now.decimals (Some (type_of own)) }
{
    match columns.data_type {
        Some(letter) => kind_by_letter(letter),
        None => Some(own.kind),
    }
}

/// The length that a kind has by itself, 0 where it has none.
fn own_length(kind: Kind) -> u128
    ensures { result ≡ own_length kind }
{
    match kind {
        Kind::Date => 10,
        Kind::Time => 8,
        Kind::Stamp => 26,
        Kind::Char | Kind::Zoned | Kind::Packed | Kind::Binary => 0,
    }
}

/// The length where positions 30 to 34 are blank.
fn blank_length(data_type: Option<u8>, kind: Kind, own: OwnType) -> u128
    ensures { result ≡ blank_length data_type kind (Some (type_of own)) }
{
    let fixed = own_length(kind);
    if fixed > 0 && data_type.is_some() {
        fixed
    } else {
        own.length
    }
}

fn length_of(columns: &Columns, kind: Kind, own: OwnType) -> u128
    requires { own.length < 2 ^ 100 }
    ensures { result ≡ length_of columns.now.length columns.now.data_type kind (Some (type_of own)) }
{
    match columns.length {
        None => blank_length(columns.data_type, kind, own),
        Some(LengthEntry::Exactly(length)) => u128::from(length),
        Some(LengthEntry::Longer(by)) => own.length + u128::from(by),
        Some(LengthEntry::Shorter(by)) => own.length.saturating_sub(u128::from(by)),
    }
}

fn decimals_of(given: Option<u8>, kind: Kind, own: OwnType) -> u8
    ensures { result ≡ decimals_of given kind (Some (type_of own)) }
{
    match given {
        Some(decimals) => decimals,
        None => { if is_numeric(kind) { own.decimals } else { 0 } }
    }
}

/// Whether a field of the kind may have this length and these decimals.
fn is_allowed(kind: Kind, length: u128, decimals: u8) -> bool
    ensures { result ≡ is_allowed kind length decimals }
{
    match kind {
        Kind::Char => (1..=32766).contains(&length) && decimals == 0,
        Kind::Zoned | Kind::Packed => (1..=31).contains(&length) && u128::from(decimals) <= length,
        Kind::Binary => (1..=18).contains(&length) && u128::from(decimals) <= length,
        Kind::Date => length == 10 && decimals == 0,
        Kind::Time => length == 8 && decimals == 0,
        Kind::Stamp => length == 26 && decimals == 0,
    }
}

/// Whether a field of the kind and length may not have these decimals, which its line gives or not.
fn are_decimals_wrong(given: bool, kind: Kind, length: u128, decimals: u8) -> bool
    ensures { result ≡ are_decimals_wrong given kind length decimals }
{
    (given && !is_numeric(kind)) || !is_allowed(kind, length, decimals)
}

/// The type of these entries, or the first that is at fault.
fn sized(
    specification: &Specification,
    kind: Kind,
    length: u128,
    decimals: u8,
) -> Result<FieldType, DdsFault>
    ensures value { result ≡ sized specification.now kind length decimals }
    ensures allowed { IfOk result IsFieldType }
{
    if !is_allowed(kind, length, 0) {
        return Err(fault_at(specification, 30, DdsCause::BadLength));
    }
    let given = specification.columns.decimals.is_some();
    if are_decimals_wrong(given, kind, length, decimals) {
        return Err(fault_at(specification, 36, DdsCause::BadDecimals));
    }
    Ok(FieldType {
        kind,
        length: length as u16,
        decimals,
    })
}

/// The type of the field of a line that is made of what has this type; or the first entry at fault.
pub(crate) fn attributes(specification: &Specification, own: OwnType) -> Result<FieldType, DdsFault>
    requires { own.length < 2 ^ 100 }
    ensures value { result ≡ attributes specification.now (Some (type_of own)) }
    ensures allowed { IfOk result IsFieldType }
{
    let columns = &specification.columns;
    match kind_of(columns, own) {
        None => Err(fault_at(specification, 35, DdsCause::BadType)),
        Some(kind) => {
            let length = length_of(columns, kind, own);
            let decimals = decimals_of(columns.decimals, kind, own);
            sized(specification, kind, length, decimals)
        }
    }
}
