//! Parameters: a blank, a keyword, and the value in parentheses. What stands in the parentheses is in `texts.rt`.
ghost use Rattle.std.specs.Prelude.{◌≡◌, ◌++◌, OnOk};
ghost use Rattle.std.specs.Fmt.{decimal};
ghost use Rattle.listing.specs.Texts.{parameter, number_parameter, values_text, given_values_text};

use crate::texts::{push_given_values, push_values};
use field_types::names::Name;
use library_model::value_lists::{GivenValues, Values};
use std::alloc::AllocError;

/// Appends a parameter with this text as its value.
#[tactic(auto, unfolding(crate::specs::Texts::parameter))]
pub fn push_parameter(out: &mut Vec<u8>, keyword: &[u8], value: &[u8]) -> Result<(), AllocError>
    ensures { OnOk result (out.new.items ≡ out.old.items ++ parameter keyword.now value.now) }
{
    out.push(b' ')?;
    out.extend_from_slice(keyword)?;
    out.push(b'(')?;
    out.extend_from_slice(value)?;
    out.push(b')')?;
    Ok(())
}

/// Appends a parameter whose value is a name.
pub fn push_name(out: &mut Vec<u8>, keyword: &[u8], name: &Name) -> Result<(), AllocError>
    ensures { OnOk result (out.new.items ≡ out.old.items ++ parameter keyword.now name.now) }
{
    push_parameter(out, keyword, name.as_bytes())
}

/// Appends a parameter whose value is a number.
pub fn push_number_parameter(
    out: &mut Vec<u8>,
    keyword: &[u8],
    number: u64,
) -> Result<(), AllocError>
    ensures { OnOk result (out.new.items ≡ out.old.items ++ number_parameter keyword.now number) }
{
    let digits = number.to_string(*out.allocator())?;
    push_parameter(out, keyword, digits.as_bytes())
}

/// Appends a parameter whose value is a list of values.
#[tactic(auto, unfolding(crate::specs::Texts::parameter))]
pub fn push_values_parameter(
    out: &mut Vec<u8>,
    keyword: &[u8],
    values: &Values,
) -> Result<(), AllocError>
    ensures { OnOk result (out.new.items ≡ out.old.items ++ parameter keyword.now (values_text values.now)) }
{
    out.push(b' ')?;
    out.extend_from_slice(keyword)?;
    out.push(b'(')?;
    push_values(out, values.as_slice())?;
    out.push(b')')?;
    Ok(())
}

/// Appends a parameter whose value is a list of values of which some may not be given.
#[tactic(auto, unfolding(crate::specs::Texts::parameter))]
pub fn push_given_parameter(
    out: &mut Vec<u8>,
    keyword: &[u8],
    values: &GivenValues,
) -> Result<(), AllocError>
    ensures { OnOk result (out.new.items ≡ out.old.items ++ parameter keyword.now (given_values_text values.now)) }
{
    out.push(b' ')?;
    out.extend_from_slice(keyword)?;
    out.push(b'(')?;
    push_given_values(out, values.as_slice())?;
    out.push(b')')?;
    Ok(())
}
