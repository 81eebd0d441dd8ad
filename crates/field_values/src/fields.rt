//! Fields: a value is put into its place in a record, and taken out of it again.
//! Each kind of field has a file of its own: `zoned.rt`, `packed.rt`, `binary.rt` and `moments.rt`.
ghost use Rattle.std.specs.Prelude.{◌≡◌, ◌↔◌, ℕ, ◌<◌, ◌≤◌, ◌^◌, true, false, length, is_some, unsigned_abs, IfOk, IfNone, OnOk, OnErr, IsErr, IsErrOf, IsTrue};
ghost use Rattle.std.specs.Result.{result_err};
ghost use Rattle.field_values.specs.FieldTypes.{IsFieldType, width, is_numeric, is_moment_kind};
ghost use Rattle.field_values.specs.FirstBad.{TellsFirstBad};
ghost use Rattle.field_values.specs.FieldBytes.{held, stands, written, units_at, filled, decimal, fault_of, IsBadAt};

use crate::{binary, decimals, moments, packed, zoned};
use decimal_order::field_types::faults::{BadImage, ValueFault};
use decimal_order::field_types::kinds::{FieldType, Kind};
use decimal_order::field_types::texts::Text;
use decimal_order::field_types::values::{Dec, Value};
use std::alloc::{AllocError, Global};

/// The blank, which fills a character field.
pub const BLANK: u8 = 0x40;

/// Why no value was taken out of a field.
#[derive(Clone, Copy, PartialEq)]
pub enum ImageFault {
    /// No value stands there.
    BadImage(BadImage),
    /// There is no memory for the text; try again with more.
    NoMemory,
}

impl From<AllocError> for ImageFault {
    ghost use Rattle.field_values.specs.declared.fields.ImageFault.TheVariants.{NoMemory};

    ghost from_gives = { λ _ e. e ≡ NoMemory };

    fn from(_: AllocError) -> ImageFault {
        ImageFault::NoMemory
    }
}

/// Whether a data description can give a field this length and these decimals.
pub fn is_allowed(t: &FieldType) -> bool
    ensures { IsTrue result ↔ IsFieldType t.now }
{
    let decimals = t.decimals;
    match t.kind {
        Kind::Char => (1..=32766).contains(&t.length) && decimals == 0,
        Kind::Zoned | Kind::Packed => (1..=31).contains(&t.length)
            && u16::from(decimals) <= t.length,
        Kind::Binary => (1..=18).contains(&t.length) && u16::from(decimals) <= t.length,
        Kind::Date => t.length == 10 && decimals == 0,
        Kind::Time => t.length == 8 && decimals == 0,
        Kind::Stamp => t.length == 26 && decimals == 0,
    }
}

/// The bytes that a field of the type has.
pub fn width(t: &FieldType) -> usize
    ensures { result ≡ width t.now }
{
    let length = usize::from(t.length);
    match t.kind {
        Kind::Packed => length / 2 + 1,
        Kind::Binary => binary::width(length),
        Kind::Char | Kind::Zoned | Kind::Date | Kind::Time | Kind::Stamp => length,
    }
}

/// Puts a value into its field.
#[tactic(auto, unfolding(crate::specs::FieldBytes::written))]
pub fn put(t: &FieldType, v: &Value, into: &mut [u8]) -> Result<(), ValueFault>
    requires allowed { IsFieldType t.now }
    requires room { length into.old ≡ width t.now }
    ensures written { OnOk result (into.new ≡ written t.now v.now) }
    // The first reason, in the order in which `fault_of` asks for them.
    ensures refused { result_err result ≡ fault_of t.now v.now }
    ensures unchanged { OnErr result (into.new ≡ into.old) }
{
    match v {
        Value::Chars(text) => put_text(t, text.as_bytes(), into),
        Value::Number(number) => put_number(t, *number, into),
    }
}

/// Why a value can't stand in its field; `None` where it can. It is what `put` answers.
pub fn fault(t: &FieldType, v: &Value) -> Option<ValueFault>
    requires { IsFieldType t.now }
    ensures { result ≡ fault_of t.now v.now }
{
    match v {
        Value::Chars(text) => text_fault(t, text.as_bytes()),
        Value::Number(number) => units_in(t, *number).err(),
    }
}

/// Takes the value out of a field: a text in the field's whole width, a number with the field's decimals.
pub fn take(alloc: Global, t: &FieldType, image: &[u8]) -> Result<Value, ImageFault>
    requires allowed { IsFieldType t.now }
    requires room { length image.now ≡ width t.now }
    ensures value { IfOk result (λ v. stands t.now v image.now) }
    ensures bad { (at : ℕ) → IsErrOf result (ImageFault.BadImage (record { at = at })) ↔ IsBadAt t.now image.now at }
    // A number takes none.
    ensures memory { IsErrOf result ImageFault.NoMemory → is_numeric t.now.kind ≡ false }
{
    match first_bad(t, image) {
        Some(at) => Err(ImageFault::BadImage(BadImage { at })),
        None => Ok(value(alloc, t, image)?),
    }
}

/// The first byte with which no image of a value of the type begins; `None` where a value stands.
pub fn first_bad(t: &FieldType, image: &[u8]) -> Option<usize>
    requires allowed { IsFieldType t.now }
    requires room { length image.now ≡ width t.now }
    ensures { TellsFirstBad (λ bytes. is_some (held t.now bytes)) image.now result }
{
    match t.kind {
        Kind::Char => None,
        Kind::Zoned => zoned::first_bad(image),
        Kind::Packed => packed::first_bad(usize::from(t.length), image),
        Kind::Binary => binary::first_bad(u32::from(t.length), image),
        Kind::Date => moments::date(image).err(),
        Kind::Time => moments::time(image).err(),
        Kind::Stamp => moments::timestamp(image).err(),
    }
}

/// The value that stands in a field in which one stands, as `first_bad` tells.
pub fn value(alloc: Global, t: &FieldType, image: &[u8]) -> Result<Value, AllocError>
    requires allowed { IsFieldType t.now }
    requires room { length image.now ≡ width t.now }
    requires there { is_some (held t.now image.now) ≡ true }
    ensures value { IfOk result (λ v. stands t.now v image.now) }
    // A number takes no memory.
    ensures memory { IsErr result → is_numeric t.now.kind ≡ false }
{
    if is_numeric(t.kind) {
        Ok(Value::Number(number(t, image)))
    } else {
        Ok(Value::Chars(Text::from_slice(alloc, image)?))
    }
}

/// The number that stands in a numeric field in which one stands, as `first_bad` tells.
pub fn number(t: &FieldType, image: &[u8]) -> Dec
    requires allowed { IsFieldType t.now }
    requires room { length image.now ≡ width t.now }
    requires numeric { is_numeric t.now.kind ≡ true }
    requires there { is_some (held t.now image.now) ≡ true }
    ensures { stands t.now (Value.Number result) image.now }
{
    match t.kind {
        Kind::Zoned => decimal(zoned::number(image), t),
        Kind::Packed => decimal(packed::number(image), t),
        Kind::Binary => decimal(i128::from(binary::number(image)), t),
        Kind::Char | Kind::Date | Kind::Time | Kind::Stamp => unreachable!(),
    }
}

fn put_text(t: &FieldType, text: &[u8], into: &mut [u8]) -> Result<(), ValueFault>
    requires { length into.old ≡ width t.now }
    ensures written { OnOk result (into.new ≡ filled (width t.now) text.now) }
    ensures refused { result_err result ≡ fault_of t.now (Value.Chars text.now) }
    ensures unchanged { OnErr result (into.new ≡ into.old) }
{
    if let Some(fault) = text_fault(t, text) {
        return Err(fault);
    }
    let (front, blanks) = into.split_at_mut(text.len());
    front.copy_from_slice(text);
    blanks.fill(BLANK);
    Ok(())
}

/// Why a text can't stand in the field.
#[tactic(auto, unfolding(crate::specs::FieldBytes::fault_of))]
fn text_fault(t: &FieldType, text: &[u8]) -> Option<ValueFault>
    ensures fault { result ≡ fault_of t.now (Value.Chars text.now) }
    ensures room { IfNone result (length text.now ≤ width t.now) }
{
    if is_numeric(t.kind) {
        return Some(ValueFault::WrongKind);
    }
    if text.len() > width(t) {
        return Some(ValueFault::TooWide);
    }
    if is_moment_kind(t.kind) && !moments::is_moment(t.kind, text) {
        return Some(ValueFault::BadDate);
    }
    None
}

#[tactic(auto, unfolding(crate::specs::FieldBytes::written))]
fn put_number(t: &FieldType, number: Dec, into: &mut [u8]) -> Result<(), ValueFault>
    requires allowed { IsFieldType t.now }
    requires room { length into.old ≡ width t.now }
    ensures written { OnOk result (into.new ≡ written t.now (Value.Number number)) }
    ensures refused { result_err result ≡ fault_of t.now (Value.Number number) }
    ensures unchanged { OnErr result (into.new ≡ into.old) }
{
    let units = units_in(t, number)?;
    match t.kind {
        Kind::Zoned => zoned::write(units, into),
        Kind::Packed => packed::write(units, into),
        Kind::Binary => binary::write(units, into),
        Kind::Char | Kind::Date | Kind::Time | Kind::Stamp => unreachable!(),
    }
    Ok(())
}

/// The number in units of the field's last decimal position, or why it can't stand there.
#[tactic(auto, unfolding(crate::specs::FieldBytes::fault_of))]
fn units_in(t: &FieldType, number: Dec) -> Result<i128, ValueFault>
    requires { IsFieldType t.now }
    ensures units { IfOk result (λ units. units ≡ units_at t.now.decimals number) }
    ensures small { IfOk result (λ units. unsigned_abs units < 10 ^ t.now.length) }
    ensures numeric { OnOk result (is_numeric t.now.kind ≡ true) }
    ensures refused { result_err result ≡ fault_of t.now (Value.Number number) }
{
    if !is_numeric(t.kind) {
        return Err(ValueFault::WrongKind);
    }
    decimals::units_at(number, u32::from(t.length), t.decimals)
}

fn decimal(units: i128, t: &FieldType) -> Dec
    ensures { Value.Number result ≡ decimal t.now.decimals units }
{
    Dec {
        units,
        scale: t.decimals,
    }
}

/// Whether fields of the kind hold numbers.
pub fn is_numeric(kind: Kind) -> bool
    ensures { result ≡ is_numeric kind }
{
    matches!(kind, Kind::Zoned | Kind::Packed | Kind::Binary)
}

fn is_moment_kind(kind: Kind) -> bool
    ensures { result ≡ is_moment_kind kind }
{
    matches!(kind, Kind::Date | Kind::Time | Kind::Stamp)
}
