//! Sources that describe files, and the files that sources name.
ghost use Rattle.std.specs.Prelude.{◌≡◌, Option, Some, None, if◌then◌else◌, nat_eq};
ghost use Rattle.std.specs.Cmp.Lexicographic.{pointwise};

use crate::physical_rows::{CUST, DESCRIBED};
use dds_physical::dependents::refers_to;
use dds_physical::physical_files::{PhysicalSpec, physical};
use dds_physical::refs::Refs;
use dds_source::{Source, read_source};
use ebc_text::to_ascii;
use field_types::kinds::{FieldType, Kind};
use field_types::names::Name;
use field_types::values::Value;
use key_spec::{KeyPart, Ties};
use record_fmt::formats::{Field, Format};
use std::alloc::{AllocError, Global};
use std::test::Fail;

/// The files to refer to: one.
#[derive(Drop)]
struct Files {
    name: Name,
    format: Format,
}

impl Refs for Files {
    ghost formats = { λ f name. if pointwise nat_eq name f.name then Some f.format else None };

    fn format_of(&self, file: &Name) -> Option<&Format> {
        if *file == self.name {
            Some(&self.format)
        } else {
            None
        }
    }
}

/// None.
#[derive(Drop)]
struct NoFiles {}

impl Refs for NoFiles {
    ghost formats = { λ f name. None };

    fn format_of(&self, _file: &Name) -> Option<&Format> {
        None
    }
}

fn source(alloc: Global, text: &str) -> Result<Source, Fail> {
    Ok(
        read_source(alloc, text.as_bytes())
            .ok()
            .ok_or("the source is read")?,
    )
}

/// The file that the others refer to.
fn customers(alloc: Global) -> Result<Files, Fail> {
    let name = Name::from_bytes(b"CUST").ok_or("a name")?;
    let PhysicalSpec { format, .. } = physical(alloc, &source(alloc, CUST)?, &NoFiles {})
        .ok()
        .ok_or("a file")?;
    Ok(Files { name, format })
}

/// What is described as one text, for comparison.
fn describe(alloc: Global, spec: &PhysicalSpec) -> Result<String, AllocError> {
    let mut out = String::new(alloc);
    describe_bytes(&mut out, spec.format.name.as_bytes())?;
    out.push_str("|")?;
    for field in spec.format.fields.as_slice() {
        describe_field(alloc, &mut out, field)?;
    }
    describe_number(alloc, &mut out, i128::from(spec.format.length()))?;
    out.push_str("|")?;
    for part in spec.keys.parts.as_slice() {
        describe_part(alloc, &mut out, part)?;
    }
    out.push_str(if spec.keys.unique { "|unique " } else { "|" })?;
    out.push_str(match spec.keys.ties {
        Ties::Rising => "rising",
        Ties::Falling => "falling",
    })?;
    Ok(out)
}

fn describe_field(alloc: Global, out: &mut String, field: &Field) -> Result<(), AllocError> {
    describe_bytes(out, field.name.as_bytes())?;
    out.push_str(" ")?;
    describe_type(alloc, out, &field.ty)?;
    out.push_str(" @")?;
    describe_number(alloc, out, i128::from(field.offset))?;
    out.push_str(" ")?;
    match &field.default {
        Value::Chars(text) => describe_text(out, text.as_bytes())?,
        Value::Number(number) => {
            describe_number(alloc, out, number.units)?;
            out.push_str("/")?;
            describe_number(alloc, out, i128::from(number.scale))?;
        }
    }
    out.push_str(" ")?;
    describe_text(out, field.text.as_bytes())?;
    out.push_str(";")
}

fn describe_type(alloc: Global, out: &mut String, ty: &FieldType) -> Result<(), AllocError> {
    out.push_str(match ty.kind {
        Kind::Char => "A",
        Kind::Zoned => "S",
        Kind::Packed => "P",
        Kind::Binary => "B",
        Kind::Date => "L",
        Kind::Time => "T",
        Kind::Stamp => "Z",
    })?;
    describe_number(alloc, out, i128::from(ty.length))?;
    out.push_str(",")?;
    describe_number(alloc, out, i128::from(ty.decimals))
}

fn describe_part(alloc: Global, out: &mut String, part: &KeyPart) -> Result<(), AllocError> {
    match part {
        KeyPart::Field {
            ty,
            offset,
            descend,
            absval,
        } => {
            describe_type(alloc, out, ty)?;
            out.push_str(" @")?;
            describe_number(alloc, out, i128::from(*offset))?;
            out.push_str(if *descend { " descend" } else { "" })?;
            out.push_str(if *absval { " absval;" } else { ";" })
        }
        KeyPart::Absent => out.push_str("absent;"),
    }
}

/// A text by its characters, with a question mark for a byte that stands for none, and a stroke for a line feed.
fn describe_text(out: &mut String, text: &[u8]) -> Result<(), AllocError> {
    out.push_str("'")?;
    for byte in text {
        let character = if *byte == 0x25 {
            Some(b'/')
        } else {
            to_ascii(*byte)
        };
        out.push(char::from(character.unwrap_or(b'?')))?;
    }
    out.push_str("'")
}

fn describe_number(alloc: Global, out: &mut String, number: i128) -> Result<(), AllocError> {
    out.push_str(number.to_string(alloc)?.as_str())
}

fn describe_bytes(out: &mut String, bytes: &[u8]) -> Result<(), AllocError> {
    for byte in bytes {
        out.push(char::from(*byte))?;
    }
    Ok(())
}

/// Each source is described as its row says.
fn are_described(
    alloc: Global,
    files: &Files,
    rows: &[(&'static str, &'static str, &'static str)],
) -> Result<(), Fail> {
    for (what, text, expected) in rows {
        let source = source(alloc, text)?;
        let spec = physical(alloc, &source, files).ok().ok_or(*what)?;
        let found = describe(alloc, &spec)?;
        (found.as_str() == *expected).then_some(()).ok_or(*what)?;
    }
    Ok(())
}

#[test]
fn files_that_are_described(rt: HostRuntime) -> Result<(), Fail> {
    are_described(rt.alloc(), &customers(rt.alloc())?, &DESCRIBED)
}

/// A source and a file, and whether the source names it.
const REFERRING: [(&str, &str, bool); 5] = [
    (CUST, "CUST", false),
    (
        "     A                                      REF(CUST CUSTR)\n",
        "CUST",
        true,
    ),
    (
        "     A                                      REF(CUST CUSTR)\n",
        "CUSTR",
        false,
    ),
    (
        "     A          R REC\n     A            FLD            5          REFFLD(NAME CUST)\n",
        "CUST",
        true,
    ),
    (
        "     A          R REC\n     A            FLD       R               REFFLD(CUST *SRC)\n",
        "CUST",
        false,
    ),
];

fn are_referring(alloc: Global, rows: &[(&'static str, &'static str, bool)]) -> Result<(), Fail> {
    for (text, file, wanted) in rows {
        let name = Name::from_bytes(file.as_bytes()).ok_or("a name")?;
        (refers_to(&source(alloc, text)?, &name) == *wanted)
            .then_some(())
            .ok_or(*text)?;
    }
    Ok(())
}

#[test]
fn files_that_are_named(rt: HostRuntime) -> Result<(), Fail> {
    are_referring(rt.alloc(), &REFERRING)
}
