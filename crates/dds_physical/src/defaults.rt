//! Default values, and the literals of DFT.
ghost use Rattle.std.specs.Prelude.{◌≡◌, Option, is_some, codes, IfOk, OnOk};
ghost use Rattle.std.specs.List.{filter_map};
ghost use Rattle.record_fmt.specs.FieldTypes.{IsFieldType};
ghost use Rattle.record_fmt.specs.FieldBytes.{fault_of};
ghost use Rattle.ebc_text.specs.CodePage.{ebcdic_of};
ghost use Rattle.dds_source.specs.Faults.{first_after};
ghost use Rattle.dds_physical.specs.Keywords.{first_named};
ghost use Rattle.dds_physical.specs.Defaults.{in_code_page, literal_value, literal_of, given_default, unspecified, default_of, is_refused, default_faults};

use crate::first::{FirstFault, keyword_fault};
use crate::keyword_names::{arguments_of, first_named};
use dds_source::arguments::Argument;
use dds_source::faults::DdsCause;
use dds_source::keywords::Keyword;
use ebc_text::to_ebcdic_byte;
use field_types::kinds::{FieldType, Kind};
use field_types::texts::Text;
use field_types::values::{Dec, Value};
use record_fmt::field_values::fields;
use std::alloc::{AllocError, Global};

/// Characters of a source in code page 037; one that it lacks is left out.
fn in_code_page(alloc: Global, characters: &[u8]) -> Result<Text, AllocError>
    ensures { IfOk result (λ t. t ≡ in_code_page characters.now) }
{
    Ok(Text::from_vec(codes(alloc, characters)?))
}

fn codes(alloc: Global, characters: &[u8]) -> Result<Vec<u8>, AllocError>
    ensures { IfOk result (λ v. v.items ≡ filter_map ebcdic_of characters.now) }
{
    characters
        .iter()
        .filter_map(|&c| to_ebcdic_byte(c))
        .collect(alloc)
}

/// The value of a literal; `None` where the argument is none.
pub(crate) fn literal_value(alloc: Global, argument: &Argument) -> Result<Option<Value>, AllocError>
    ensures { IfOk result (λ v. v ≡ literal_value argument.now) }
{
    match argument {
        Argument::Quoted(characters) => Ok(Some(Value::Chars(in_code_page(
            alloc,
            characters.as_bytes(),
        )?))),
        Argument::Hexadecimal(text) => Ok(Some(Value::Chars(text.copied(alloc)?))),
        Argument::Number(number) => Ok(Some(Value::Number(*number))),
        Argument::Name(_) | Argument::Special(_) | Argument::Word(_) => Ok(None),
    }
}

/// The value of the only argument, if it is a literal.
fn literal_of(alloc: Global, arguments: &[Argument]) -> Result<Option<Value>, AllocError>
    ensures { IfOk result (λ v. v ≡ literal_of arguments.now) }
{
    match arguments {
        [literal] => literal_value(alloc, literal),
        _ => Ok(None),
    }
}

/// The value that DFT gives.
fn given_default(alloc: Global, keywords: &[Keyword]) -> Result<Option<Value>, AllocError>
    ensures { IfOk result (λ v. v ≡ given_default (first_named (codes "DFT") keywords.now)) }
{
    match first_named(b"DFT", keywords) {
        Some(keyword) => literal_of(alloc, arguments_of(keyword)),
        None => Ok(None),
    }
}

/// What a field without DFT holds where no value is given.
fn unspecified(alloc: Global, kind: Kind) -> Result<Value, AllocError>
    ensures { IfOk result (λ v. v ≡ unspecified kind) }
{
    match kind {
        Kind::Char => Ok(Value::Chars(Text::new(alloc))),
        Kind::Zoned | Kind::Packed | Kind::Binary => Ok(Value::Number(Dec { units: 0, scale: 0 })),
        Kind::Date => Ok(Value::Chars(in_code_page(alloc, b"0001-01-01")?)),
        Kind::Time => Ok(Value::Chars(in_code_page(alloc, b"00.00.00")?)),
        Kind::Stamp => Ok(Value::Chars(in_code_page(alloc, b"0001-01-01-00.00.00.000000")?)),
    }
}

/// What a field holds where no value is given.
pub(crate) fn default_of(
    alloc: Global,
    kind: Kind,
    keywords: &[Keyword],
) -> Result<Value, AllocError>
    ensures { IfOk result (λ v. v ≡ default_of kind keywords.now) }
{
    match given_default(alloc, keywords)? {
        Some(value) => Ok(value),
        None => unspecified(alloc, kind),
    }
}

/// Notes a literal of DFT that the field refuses.
pub(crate) fn note_default(
    alloc: Global,
    ty: &FieldType,
    keywords: &[Keyword],
    first: &mut FirstFault,
) -> Result<(), AllocError>
    requires { IsFieldType ty.now }
    ensures { OnOk result (first.new.fault ≡ first_after first.old.fault (default_faults ty.now keywords.now)) }
{
    if let Some(keyword) = first_named(b"DFT", keywords) {
        let refused = is_refused(alloc, ty, literal_of(alloc, arguments_of(keyword))?)?;
        first.note_if(refused, keyword_fault(keyword, DdsCause::BadArguments));
    }
    Ok(())
}

fn is_refused(alloc: Global, ty: &FieldType, value: Option<Value>) -> Result<bool, AllocError>
    requires { IsFieldType ty.now }
    ensures { IfOk result (λ b. b ≡ is_refused ty.now value) }
{
    match value {
        Some(value) => refuses(alloc, ty, &value),
        None => Ok(false),
    }
}

fn refuses(alloc: Global, ty: &FieldType, value: &Value) -> Result<bool, AllocError>
    requires { IsFieldType ty.now }
    ensures { IfOk result (λ b. b ≡ is_some (fault_of ty.now value.now)) }
{
    let mut room = Vec::new(alloc);
    room.resize(fields::width(ty), 0)?;
    Ok(fields::put(ty, value, &mut room[0..]).err().is_some())
}
