//! Parts of a field: what SST says.
ghost use Rattle.std.specs.Prelude.{◌≡◌, ◌+◌, ◌-◌, ◌&&◌, nat_le, if◌then◌else◌};
ghost use Rattle.dds_logical.specs.Origins.{part_to_end, part_of_size, part_said, lies_within, if_within};

use crate::arguments::whole_number;
use dds_physical::dds_source::arguments::Argument;

/// Where a part of a field begins, counted from 1, and how long it is.
#[derive(Clone, Copy)]
pub(crate) struct Part {
    pub(crate) start: u128,
    pub(crate) size: u128,
}

/// The part that the arguments of SST say, where it lies within a field of this length.
pub(crate) fn part_within(length: u16, arguments: &[Argument]) -> Option<Part>
    ensures { result ≡ if_within length (part_said length arguments.now) }
{
    match part_said(length, arguments) {
        Some(part) if lies_within(length, part) => Some(part),
        _ => None,
    }
}

fn part_said(length: u16, arguments: &[Argument]) -> Option<Part>
    ensures { result ≡ part_said length arguments.now }
{
    match arguments {
        [_, start] => part_to_end(length, whole_number(start)),
        [_, start, size, ..] => part_of_size(whole_number(start), whole_number(size)),
        _ => None,
    }
}

/// Without a length it goes to the end of the field.
fn part_to_end(length: u16, start: Option<u128>) -> Option<Part>
    ensures { result ≡ part_to_end length start }
{
    match start {
        Some(start) => Some(Part {
            start,
            size: (u128::from(length) + 1).saturating_sub(start),
        }),
        None => None,
    }
}

fn part_of_size(start: Option<u128>, size: Option<u128>) -> Option<Part>
    ensures { result ≡ part_of_size start size }
{
    match (start, size) {
        (Some(start), Some(size)) => Some(Part { start, size }),
        _ => None,
    }
}

/// Whether it has a character, and begins and ends within a field of this length.
#[tactic(auto, using(crate::proofs::OriginLemmas::ends_within))]
fn lies_within(length: u16, part: Part) -> bool
    ensures { result ≡ lies_within length part }
{
    let end = u128::from(length) + 1;
    1 <= part.start && 1 <= part.size && part.start <= end && part.size <= end - part.start
}
