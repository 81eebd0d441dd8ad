//! Sources that are read, and a faulty one.
use crate::source_rows::{FAULTS, LAST_LINES, READ, RISING};
use dds_source::*;
use field_types::values::Dec;
use std::alloc::{AllocError, Global};
use std::test::Fail;

/// The entries as one text, for comparison.
fn describe(alloc: Global, source: &Source) -> Result<String, AllocError> {
    let mut out = String::new(alloc);
    describe_keywords(alloc, &mut out, &source.file)?;
    out.push('|')?;
    for specification in source.specifications.as_slice() {
        describe_specification(alloc, &mut out, specification)?;
    }
    Ok(out)
}

fn describe_specification(
    alloc: Global,
    out: &mut String,
    specification: &Specification,
) -> Result<(), AllocError> {
    describe_number(alloc, out, specification.line)?;
    out.push_str(match specification.kind {
        SpecificationKind::Record => " R ",
        SpecificationKind::Field => " F ",
        SpecificationKind::Key => " K ",
        SpecificationKind::Select => " S ",
        SpecificationKind::Omit => " O ",
        SpecificationKind::And => " A ",
        SpecificationKind::Join => " J ",
    })?;
    match specification.name {
        NameEntry::Blank => {}
        NameEntry::Named(name) => describe_bytes(out, name.as_bytes())?,
        NameEntry::StarNone => out.push_str("*NONE")?,
    }
    describe_columns(alloc, out, &specification.columns)?;
    describe_keywords(alloc, out, &specification.keywords)?;
    out.push(';')
}

fn describe_columns(alloc: Global, out: &mut String, columns: &Columns) -> Result<(), AllocError> {
    out.push_str(if columns.reference { " R" } else { " -" })?;
    match columns.length {
        None => out.push_str(" -")?,
        Some(LengthEntry::Exactly(n)) => {
            out.push_str(" ")?;
            describe_number(alloc, out, n)?;
        }
        Some(LengthEntry::Longer(n)) => {
            out.push_str(" +")?;
            describe_number(alloc, out, n)?;
        }
        Some(LengthEntry::Shorter(n)) => {
            out.push_str(" -")?;
            describe_number(alloc, out, n)?;
        }
    }
    for entry in [columns.data_type, columns.decimals, columns.usage] {
        match entry {
            None => out.push_str(" -")?,
            Some(n) => {
                out.push_str(" ")?;
                describe_number(alloc, out, u32::from(n))?;
            }
        }
    }
    Ok(())
}

fn describe_keywords(
    alloc: Global,
    out: &mut String,
    keywords: &Keywords,
) -> Result<(), AllocError> {
    for keyword in keywords.as_slice() {
        out.push_str(" ")?;
        describe_number(alloc, out, keyword.line)?;
        out.push_str("/")?;
        describe_number(alloc, out, keyword.column)?;
        out.push_str(" ")?;
        describe_bytes(out, keyword.name.as_bytes())?;
        if let Some(arguments) = &keyword.arguments {
            out.push_str("(")?;
            describe_arguments(alloc, out, arguments.as_slice())?;
            out.push_str(")")?;
        }
    }
    Ok(())
}

fn describe_arguments(
    alloc: Global,
    out: &mut String,
    arguments: &[Argument],
) -> Result<(), AllocError> {
    for argument in arguments {
        describe_argument(alloc, out, argument)?;
        out.push_str(" ")?;
    }
    Ok(())
}

fn describe_argument(
    alloc: Global,
    out: &mut String,
    argument: &Argument,
) -> Result<(), AllocError> {
    match argument {
        Argument::Name(name) => {
            out.push_str("n:")?;
            describe_bytes(out, name.as_bytes())
        }
        Argument::Number(Dec { units, scale }) => {
            out.push_str("d:")?;
            out.push_str(units.to_string(alloc)?.as_str())?;
            out.push_str("/")?;
            describe_number(alloc, out, u32::from(*scale))
        }
        Argument::Special(word) => {
            out.push_str("s:")?;
            describe_bytes(out, word.as_bytes())
        }
        Argument::Word(word) => {
            out.push_str("w:")?;
            describe_bytes(out, word.as_bytes())
        }
        Argument::Quoted(text) => {
            out.push_str("q:")?;
            describe_bytes(out, text.as_bytes())
        }
        Argument::Hexadecimal(bytes) => {
            out.push_str("x:")?;
            for byte in bytes.as_bytes() {
                describe_number(alloc, out, u32::from(*byte))?;
                out.push_str(",")?;
            }
            Ok(())
        }
    }
}

fn describe_number(alloc: Global, out: &mut String, number: u32) -> Result<(), AllocError> {
    out.push_str(number.to_string(alloc)?.as_str())
}

fn describe_bytes(out: &mut String, bytes: &[u8]) -> Result<(), AllocError> {
    for byte in bytes {
        out.push(char::from(*byte))?;
    }
    Ok(())
}

#[test]
fn sources_that_are_read(rt: HostRuntime) -> Result<(), Fail> {
    for (what, text, expected) in READ {
        let source = read_source(rt.alloc(), text.as_bytes()).ok().ok_or(what)?;
        let found = describe(rt.alloc(), &source)?;
        assert_eq!(rt; found.as_str(), expected, "at {what}");
    }
    Ok(())
}

#[test]
fn first_faults(rt: HostRuntime) {
    for (what, text, line, column, cause) in FAULTS {
        let wanted = DdsFault {
            line,
            column,
            cause,
        };
        let is_wanted = match read_source(rt.alloc(), text.as_bytes()) {
            Err(SourceError::Fault(fault)) => fault == wanted,
            _ => false,
        };
        assert!(rt; is_wanted, "at {what}");
    }
}

#[test]
fn last_lines(rt: HostRuntime) -> Result<(), Fail> {
    for (text, line) in LAST_LINES {
        let source = read_source(rt.alloc(), text.as_bytes()).ok().ok_or(text)?;
        assert_eq!(rt; source.last_line, line, "at {text:?}");
    }
    Ok(())
}

#[test]
fn order_of_faults(rt: HostRuntime) {
    for (i, first) in RISING.iter().enumerate() {
        for (j, second) in RISING.iter().enumerate() {
            assert_eq!(rt; fault(*first).is_before(&fault(*second)), i < j);
        }
    }
}

fn fault((line, column, cause): (u32, u32, DdsCause)) -> DdsFault {
    DdsFault {
        line,
        column,
        cause,
    }
}
