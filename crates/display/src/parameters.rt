//! Parameters as they are printed: a blank, a keyword, and the value in parentheses.
ghost use Rattle.std.specs.Prelude.{◌≡◌, ◌++◌, OnOk};
ghost use Rattle.listing.specs.Texts.{parameter, number_parameter};

use std::alloc::AllocError;

/// Appends a parameter with this text as its value.
#[tactic(auto, unfolding(listing::specs::Texts::parameter))]
pub(crate) fn push_parameter(
    out: &mut Vec<u8>,
    keyword: &[u8],
    value: &[u8],
) -> Result<(), AllocError>
    ensures { OnOk result (out.new.items ≡ out.old.items ++ parameter keyword.now value.now) }
{
    out.push(b' ')?;
    out.extend_from_slice(keyword)?;
    out.push(b'(')?;
    out.extend_from_slice(value)?;
    out.push(b')')?;
    Ok(())
}

/// Appends a parameter whose value is a number.
pub(crate) fn push_number_parameter(
    out: &mut Vec<u8>,
    keyword: &[u8],
    number: u64,
) -> Result<(), AllocError>
    ensures { OnOk result (out.new.items ≡ out.old.items ++ number_parameter keyword.now number) }
{
    let digits = number.to_string(*out.allocator())?;
    push_parameter(out, keyword, digits.as_bytes())
}
