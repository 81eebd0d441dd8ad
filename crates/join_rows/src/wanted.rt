//! The bytes with which the key of a record begins, in a secondary file's path, that a row is joined to. `matches.rt`
//! looks for such records.
ghost use Rattle.std.specs.Prelude.{◌≡◌, ◌≤◌, ◌++◌, Some, None, IfOk, OnOk, length, replicate, if◌then◌else◌};
ghost use Rattle.std.specs.List.{AllByRecursion, list_all};
ghost use Rattle.std.specs.Option.{option_map};
ghost use Rattle.field_values.specs.FieldTypes.{width};
ghost use Rattle.field_values.specs.FieldBytes.{filled};
ghost use Rattle.file_model.specs.Views.{field_value};
ghost use Rattle.view_rules.specs.Shown.{HasValue};
ghost use Rattle.join_rows.specs.Wanted.{is_blank, cut_to, as_sought, sought_in};
ghost use Rattle.join_rows.specs.WantedBytes.{CanBeSought, sought_bytes, wanted_bytes, with_bytes};

use access_path::key_order::given::{KeyFault, encode_values};
use field_types::kinds::FieldType;
use field_types::texts::Text;
use field_types::values::Value;
use field_values::fields::{self, BLANK};
use file_model::joins::JoinPair;
use file_model::views::ViewField;
use key_pages::Key;
use key_spec::KeyPart;
use std::alloc::{AllocError, Global};
use view_rules::viewing;

/// The bytes with which the keys of the records begin that are joined to one with this image; none where no record
/// can be joined to it.
pub fn wanted_key(
    alloc: Global,
    pairs: &[JoinPair],
    image: &[u8],
) -> Result<Option<Key>, AllocError>
    requires { AllByRecursion (CanBeSought image.now) pairs.now }
    ensures { IfOk result (λ key. key ≡ wanted_bytes pairs.now image.now) }
{
    let mut key = Vec::new(alloc);
    for pair in pairs {
        let added = add_wanted(alloc, pair, image, &mut key)?;
        if !added {
            return Ok(None);
        }
    }
    Ok(Some(Key::from_vec(key)))
}

/// Adds the bytes of one field, where it can hold the value.
fn add_wanted(
    alloc: Global,
    pair: &JoinPair,
    image: &[u8],
    key: &mut Vec<u8>,
) -> Result<bool, AllocError>
    requires { CanBeSought image.now pair.now }
    ensures { IfOk result (λ added. with_bytes key.old.items (sought_bytes pair.now image.now) ≡ (if added then Some key.new.items else None)) }
{
    let value = value_of(alloc, &pair.from, image)?;
    let sought = as_sought(alloc, &pair.to.ty, value)?;
    let part = KeyPart::Field {
        ty: pair.to.ty,
        offset: 0,
        descend: false,
        absval: false,
    };
    match encode_values(alloc, &[part], &[sought]) {
        Ok(bytes) => {
            key.extend_from_slice(bytes.as_bytes())?;
            Ok(true)
        }
        Err(KeyFault::Refused(_)) => Ok(false),
        Err(KeyFault::NoMemory) => Err(AllocError),
    }
}

/// The value that a field shows of a record.
fn value_of(alloc: Global, field: &ViewField, image: &[u8]) -> Result<Value, AllocError>
    requires { HasValue image.now field.now }
    ensures { IfOk result (λ v. field_value image.now field.now ≡ Some v) }
{
    let shown = viewing::view(alloc, std::slice::from_ref(field), image)?;
    fields::value(alloc, &field.ty, shown.as_slice())
}

/// A value as it is looked for in a field of this type.
fn as_sought(alloc: Global, ty: &FieldType, value: Value) -> Result<Value, AllocError>
    ensures { IfOk result (λ v. v ≡ as_sought ty.now value) }
{
    match value {
        Value::Number(number) => Ok(Value::Number(number)),
        Value::Chars(text) => {
            let width = fields::width(ty);
            Ok(Value::Chars(filled(alloc, width, cut_to(text.as_bytes(), width))?))
        }
    }
}

/// A text without what passes the width, where only blanks do.
fn cut_to(text: &[u8], width: usize) -> &[u8]
    ensures { result.now ≡ cut_to width text.now }
{
    if text.len() <= width {
        return text;
    }
    let (front, rest) = text.split_at(width);
    if are_blank(rest) { front } else { text }
}

fn are_blank(bytes: &[u8]) -> bool
    ensures { result ≡ list_all is_blank bytes.now }
{
    bytes.iter().all(|&byte| byte == BLANK)
}

/// A text, and blanks to the width.
fn filled(alloc: Global, width: usize, text: &[u8]) -> Result<Text, AllocError>
    ensures { IfOk result (λ t. t ≡ filled width text.now) }
{
    let mut bytes = Vec::from_slice(alloc, text)?;
    for _i in 0..width.saturating_sub(text.len()) {
        bytes.push(BLANK)?;
    }
    Ok(Text::from_vec(bytes))
}
