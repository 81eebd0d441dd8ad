//! The values of literals, and what a field holds where none is given.
ghost use Rattle.std.specs.Prelude.{◌≡◌, Option, is_some, codes, IfOk};
ghost use Rattle.std.specs.List.{filter_map, list_any};
ghost use Rattle.record_fmt.specs.FieldTypes.{IsFieldType};
ghost use Rattle.record_fmt.specs.FieldBytes.{fault_of};
ghost use Rattle.ebc_text.specs.CodePage.{ebcdic_of};
ghost use Rattle.dds_physical.specs.Defaults.{in_code_page, literal_value, unspecified, is_refused};

use dds_physical::dds_source::arguments::Argument;
use ebc_text::to_ebcdic_byte;
use field_types::kinds::{FieldType, Kind};
use field_types::texts::Text;
use field_types::values::{Dec, Value};
use record_fmt::field_values::fields;
use std::alloc::{AllocError, Global};

/// Characters of a source in code page 037; one that it lacks is left out.
fn in_code_page(alloc: Global, characters: &[u8]) -> Result<Text, AllocError>
    ensures { IfOk result (λ t. t ≡ in_code_page characters.now) }
{
    Ok(Text::from_vec(codes(alloc, characters)?))
}

fn codes(alloc: Global, characters: &[u8]) -> Result<Vec<u8>, AllocError>
    ensures { IfOk result (λ v. v.items ≡ filter_map ebcdic_of characters.now) }
{
    characters
        .iter()
        .filter_map(|&c| to_ebcdic_byte(c))
        .collect(alloc)
}

/// The value of a literal; `None` where the argument is none.
pub(crate) fn literal_value(alloc: Global, argument: &Argument) -> Result<Option<Value>, AllocError>
    ensures { IfOk result (λ v. v ≡ literal_value argument.now) }
{
    match argument {
        Argument::Quoted(characters) => Ok(Some(Value::Chars(in_code_page(
            alloc,
            characters.as_bytes(),
        )?))),
        Argument::Hexadecimal(text) => Ok(Some(Value::Chars(text.copied(alloc)?))),
        Argument::Number(number) => Ok(Some(Value::Number(*number))),
        Argument::Name(_) | Argument::Special(_) | Argument::Word(_) => Ok(None),
    }
}

/// What a field holds where no value is given.
pub(crate) fn unspecified(alloc: Global, kind: Kind) -> Result<Value, AllocError>
    ensures { IfOk result (λ v. v ≡ unspecified kind) }
{
    match kind {
        Kind::Char => Ok(Value::Chars(Text::new(alloc))),
        Kind::Zoned | Kind::Packed | Kind::Binary => Ok(Value::Number(Dec { units: 0, scale: 0 })),
        Kind::Date => Ok(Value::Chars(in_code_page(alloc, b"0001-01-01")?)),
        Kind::Time => Ok(Value::Chars(in_code_page(alloc, b"00.00.00")?)),
        Kind::Stamp => Ok(Value::Chars(in_code_page(alloc, b"0001-01-01-00.00.00.000000")?)),
    }
}

/// Whether a field of the type refuses the value of a literal.
pub(crate) fn refuses_literal(
    alloc: Global,
    ty: &FieldType,
    argument: &Argument,
) -> Result<bool, AllocError>
    requires { IsFieldType ty.now }
    ensures { IfOk result (λ b. b ≡ is_refused ty.now (literal_value argument.now)) }
{
    match literal_value(alloc, argument)? {
        Some(value) => refuses(alloc, ty, &value),
        None => Ok(false),
    }
}

fn refuses(alloc: Global, ty: &FieldType, value: &Value) -> Result<bool, AllocError>
    requires { IsFieldType ty.now }
    ensures { IfOk result (λ b. b ≡ is_some (fault_of ty.now value.now)) }
{
    let mut room = Vec::new(alloc);
    room.resize(fields::width(ty), 0)?;
    Ok(fields::put(ty, value, &mut room[0..]).err().is_some())
}
