//! Positions of keys that differ between the formats of a file.
ghost use Rattle.std.specs.Prelude.{◌≡◌, ◌<◌, ◌≤◌, List, reverse, ◌+◌, ◌&&◌, ◌||◌, ◌∷◌, [], not, drop, length, if◌then◌else◌, OnOk};
ghost use Rattle.std.specs.List.{list_any};
ghost use Rattle.dds_physical.below.dds_source.specs.declared.specifications.Specification.{Specification};
ghost use Rattle.dds_physical.specs.Faults.{first_after};
ghost use Rattle.dds_logical.specs.Keys.{is_same_flag, parts_differ, first_part};
ghost use Rattle.dds_logical.specs.JudgedKeys.{positions_of};

use crate::fields::is_same_type;
use crate::first::{FirstFault, fault_at};
use crate::format_lines::{LineKind, is_of};
use crate::keys::{judged_part, named_or_none};
use crate::named_fields::NamedField;
use crate::names::name_of;
use dds_physical::dds_source::faults::DdsCause;
use dds_physical::dds_source::specifications::Specification;
use key_spec::{KeyPart, KeyParts};
use std::alloc::{AllocError, Global};
use std::marker::Model;

fn is_same_flag(a: bool, b: bool) -> bool
    ensures { result ≡ is_same_flag a b }
{
    if a { b } else { !b }
}

/// Whether both have the position, with other types, DESCEND or ABSVAL.
fn parts_differ(part: KeyPart, other: KeyPart) -> bool
    ensures { result ≡ parts_differ part other }
{
    match (part, other) {
        (
            KeyPart::Field {
                ty,
                descend,
                absval,
                ..
            },
            KeyPart::Field {
                ty: other_ty,
                descend: falling,
                absval: unsigned,
                ..
            },
        ) => {
            !(is_same_type(ty, other_ty)
                && is_same_flag(descend, falling)
                && is_same_flag(absval, unsigned))
        }
        _ => false,
    }
}

/// The position of this number; `Absent` where there are fewer.
fn part_at(parts: &[KeyPart], place: usize) -> KeyPart
    ensures { result ≡ first_part (drop place parts.now) }
{
    if place < parts.len() {
        parts[place]
    } else {
        KeyPart::Absent
    }
}

/// The positions of the formats before one, those of the last one first.
#[derive(Drop)]
pub(crate) struct EarlierKeys {
    items: Vec<KeyParts>,
}

impl Model for EarlierKeys {
    ghost use Rattle.std.specs.Prelude.{List, reverse};
    ghost use Rattle.key_spec.specs.declared.KeyPart.{KeyPart};

    ghost Value = { List (List KeyPart) };

    ghost view = { λ k. reverse k.items.items };
}

impl EarlierKeys {
    pub(crate) fn new(alloc: Global) -> EarlierKeys
        ensures { result ≡ [] }
    {
        EarlierKeys {
            items: Vec::new(alloc),
        }
    }

    pub(crate) fn push(&mut self, parts: KeyParts) -> Result<(), AllocError>
        ensures { OnOk result (self.new ≡ parts ∷ self.old) }
    {
        self.items.push(parts)?;
        Ok(())
    }

    /// Whether one of them differs at this place.
    fn differ_at(&self, place: usize, part: KeyPart) -> bool
        ensures { result ≡ list_any (λ others. parts_differ (first_part (drop place others)) part) self.now }
    {
        latest_differs(self.items.as_slice(), place, part)
    }
}

/// Whether one of these differs at this place, the last one first.
fn latest_differs(formats: &[KeyParts], place: usize, part: KeyPart) -> bool
    ensures { result ≡ list_any (λ others. parts_differ (first_part (drop place others)) part) (reverse formats.now) }
{
    one_differs(formats, place, part)
}

fn one_differs(formats: &[KeyParts], place: usize, part: KeyPart) -> bool
    ensures { result ≡ list_any (λ others. parts_differ (first_part (drop place others)) part) formats.now }
{
    formats.iter().any(|others| parts_differ(part_at(others.as_slice(), place), part))
}

/// Notes a line whose position differs from that of an earlier format, if it is a key field's; and tells whether it is.
#[tactic(auto, using(dds_physical::proofs::FaultLemmas::first_after_append))]
fn note_position(
    earlier: &EarlierKeys,
    named: &[NamedField],
    place: usize,
    line: &Specification,
    first: &mut FirstFault,
) -> usize
    requires { place < 18446744073709551615 }
    ensures bound { result ≤ place + 1 }
    ensures noted { (later : List Specification) → first_after first.new.fault (positions_of result earlier.now named.now later) ≡ first_after first.old.fault (positions_of place earlier.now named.now (line.now ∷ later)) }
{
    if !is_of(LineKind::Key, line) {
        return place;
    }
    let field = named_or_none(named, name_of(line.name));
    let part = judged_part(field, line.keywords.as_slice());
    first.note_if(
        earlier.differ_at(place, part),
        fault_at(line, 19, DdsCause::KeyMismatch),
    );
    place + 1
}

/// Notes the positions that differ from those of an earlier format.
pub(crate) fn note_positions(
    earlier: &EarlierKeys,
    named: &[NamedField],
    lines: &[Specification],
    first: &mut FirstFault,
)
    ensures { first.new.fault ≡ first_after first.old.fault (positions_of 0 earlier.now named.now lines.now) }
{
    let mut place = 0;
    for line in lines {
        place = note_position(earlier, named, place, line, first);
    }
}
