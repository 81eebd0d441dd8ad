//! Names that are names and texts that aren't, and each other call once.
use field_types::lists::ListOf;
use field_types::names::Name;
use field_types::texts::{Image, SourceText, Text};
use field_types::values::{Dec, Value};
use std::process::Abort;
use std::test::Fail;

/// Each character that may begin a name or stand behind it, at the ends of its range, and each length at its ends.
const NAMES: [&str; 14] = [
    "A",
    "Z",
    "$",
    "#",
    "@",
    "CUST",
    "A0",
    "A9",
    "Z_",
    "Z.",
    "$#@AZ",
    "#1.B_2",
    "ABCDEFGHIJ",
    "@123456789",
];

/// The neighbours of these characters, characters that don't begin a name, small letters, blanks, and eleven characters.
const OTHER_TEXTS: [&str; 26] = [
    "",
    " ",
    "1A",
    "0",
    "_A",
    ".A",
    "a",
    "z",
    "Ab",
    "AZz",
    "[",
    "A[",
    "A/",
    "A:",
    "A?",
    "A\"",
    "A%",
    "A^",
    "A`",
    "A-B",
    "A B",
    " A",
    "A ",
    "A\0",
    "ABCDEFGHIJK",
    "A0123456789",
];

fn names_are_kept(rt: &impl Abort, texts: &[&'static str]) {
    for text in texts {
        match Name::from_bytes(text.as_bytes()) {
            Some(name) => assert_eq!(rt; name.as_bytes(), text.as_bytes()),
            None => panic!(rt; "{text} is a name"),
        }
    }
}

fn others_are_refused(rt: &impl Abort, texts: &[&'static str]) {
    for text in texts {
        assert!(rt;
            Name::from_bytes(text.as_bytes()).is_none(),
            "{text} is no name"
        );
    }
}

#[test]
fn names(rt: HostRuntime) {
    names_are_kept(&rt, &NAMES);
    others_are_refused(&rt, &OTHER_TEXTS);
}

#[test]
fn texts(rt: HostRuntime) -> Result<(), Fail> {
    assert_eq!(rt; Text::new(rt.alloc()).as_bytes().len(), 0);
    let text = Text::from_slice(rt.alloc(), &[0xC1, 0xC2])?;
    let same = Text::from_vec([0xC1, 0xC2].to_vec(rt.alloc())?);
    let copy = text.copied(rt.alloc())?;
    assert_eq!(rt; copy.as_bytes(), [0xC1, 0xC2].as_slice());
    assert!(rt; copy == same);
    assert!(rt; copy != Text::new(rt.alloc()));
    Ok(())
}

#[test]
fn images(rt: HostRuntime) -> Result<(), Fail> {
    let image = Image::from_slice(rt.alloc(), &[0x00, 0x0F])?;
    let same = Image::from_vec([0x00, 0x0F].to_vec(rt.alloc())?);
    let copy = image.copied(rt.alloc())?;
    assert_eq!(rt; copy.as_bytes(), [0x00, 0x0F].as_slice());
    assert!(rt; copy == same);
    Ok(())
}

#[test]
fn sources(rt: HostRuntime) -> Result<(), Fail> {
    let mut source = SourceText::new(rt.alloc());
    source.extend_from_slice(b"A\n")?;
    source.extend_from_slice(b"B\n")?;
    assert_eq!(rt; source.as_bytes(), b"A\nB\n".as_slice());
    Ok(())
}

#[test]
fn lists(rt: HostRuntime) -> Result<(), Fail> {
    let mut list = ListOf::new(rt.alloc());
    list.push(1u8)?;
    let mut all = ListOf::from_vec([0u8].to_vec(rt.alloc())?);
    all.append(list)?;
    all.shrink_to_fit();
    assert_eq!(rt; all.as_slice(), [0, 1].as_slice());
    Ok(())
}

#[test]
fn values(rt: HostRuntime) -> Result<(), Fail> {
    let number = Value::Number(Dec {
        units: -1,
        scale: 2,
    });
    let text = Value::Chars(Text::from_slice(rt.alloc(), &[0xC1])?);
    assert!(rt; number.copied(rt.alloc())? == number);
    assert!(rt; text.copied(rt.alloc())? == text);
    assert!(rt; text != number);
    Ok(())
}
