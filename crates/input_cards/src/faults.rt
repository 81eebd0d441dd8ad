//! The least line at fault by the cards alone, rule by rule, by `specs/CardFaults.antt`.
ghost use Rattle.std.specs.Prelude.{◌≡◌, ◌≤◌, ℕ, List, false, [], IfOk, length, nat_le};
ghost use Rattle.std.specs.List.{list_any};
ghost use Rattle.library_model.specs.Named.{same_name};
ghost use Rattle.script_builder.specs.Least.{least, lesser};
ghost use Rattle.script_builder.specs.Faults.{noted};
ghost use Rattle.text_lines.specs.Lines.{lines_of};
ghost use Rattle.input_cards.specs.Sections.{parts_of};
ghost use Rattle.input_cards.specs.SectionTexts.{parts_in};
ghost use Rattle.input_cards.specs.CardFaults.{loose_line, bad_cards, after_schedule, after_end, is_end, missing_end, second_schedules};
ghost use Rattle.input_cards.specs.CardFaults.{repeated_cards, source_name, job_name, names_of, unknown_turns, plain_faults, card_faults};

use crate::kinds::{is_end, is_schedule, job_name, names_unknown, source_name};
use crate::limits::{MOST_INPUT, MOST_SOURCES};
use crate::names::NameList;
use crate::reading::is_card;
use crate::section::Section;
use crate::sections::line_count;
use field_types::names::Name;
use library_model::limits::MOST_JOBS;
use std::alloc::{AllocError, Global};
use text_lines::lines::split_line;

/// The less of two lines.
pub fn lesser(first: Option<u32>, second: Option<u32>) -> Option<u32>
    ensures { result ≡ lesser first second }
{
    match (first, second) {
        (None, second) => second,
        (Some(first), None) => Some(first),
        (Some(first), Some(second)) => Some(first.min(second)),
    }
}

/// The less of a line and another, where that one is at fault.
fn noting(first: Option<u32>, at_fault: bool, line: u32) -> Option<u32>
    ensures { result ≡ lesser first (least (noted at_fault line [])) }
{
    if at_fault {
        lesser(first, Some(line))
    } else {
        first
    }
}

/// A first line that is no card.
fn loose_line(bytes: &[u8]) -> Option<u32>
    ensures { result ≡ least (loose_line (lines_of bytes.now)) }
{
    match split_line(bytes) {
        Some((line, _)) => noting(None, !is_card(line), 1),
        None => None,
    }
}

/// A line that begins as cards do and is none.
fn bad_card(sections: &[Section]) -> Option<u32>
    ensures { (bytes : List ℕ) → result ≡ least (bad_cards (parts_in bytes sections.now)) }
{
    let mut first = None;
    for section in sections {
        first = noting(first, section.card.is_none(), section.line);
    }
    first
}

/// A line after //SCHED that is no card.
fn after_schedule(bytes: &[u8], sections: &[Section]) -> Option<u32>
    ensures { result ≡ least (after_schedule (parts_in bytes.now sections.now)) }
{
    let mut first = None;
    for section in sections {
        let followed = split_line(section.text(bytes)).is_some();
        first = noting(
            first,
            is_schedule(&section.card) && followed,
            section.line + 1,
        );
    }
    first
}

/// A line after //END.
fn after_end(total: u32, sections: &[Section]) -> Option<u32>
    ensures { (bytes : List ℕ) → result ≡ least (after_end total (parts_in bytes sections.now)) }
{
    let mut first = None;
    for section in sections {
        first = noting(
            first,
            is_end(&section.card) && section.line < total,
            section.line + 1,
        );
    }
    first
}

/// An input with lines that has no //END.
fn missing_end(total: u32, sections: &[Section]) -> Option<u32>
    requires { total ≤ MOST_INPUT }
    ensures { (bytes : List ℕ) → result ≡ least (missing_end total (parts_in bytes sections.now)) }
{
    noting(None, total > 0 && !has_end(sections), total + 1)
}

fn has_end(sections: &[Section]) -> bool
    ensures { (bytes : List ℕ) → result ≡ list_any (λ p. is_end p.card) (parts_in bytes sections.now) }
{
    for section in sections {
        if is_end(&section.card) {
            return true;
        }
    }
    false
}

/// A //SCHED after another.
fn second_schedule(sections: &[Section]) -> Option<u32>
    ensures { (bytes : List ℕ) → result ≡ least (second_schedules (parts_in bytes sections.now) false) }
{
    let mut first = None;
    let mut earlier = false;
    for section in sections {
        let schedules = is_schedule(&section.card);
        first = noting(first, schedules && earlier, section.line);
        earlier = earlier || schedules;
    }
    first
}

/// The less of a line and that of a card whose name an earlier one has, or that is one too many.
fn noting_name(
    first: Option<u32>,
    earlier: &NameList,
    name: &Name,
    most: usize,
    line: u32,
) -> Option<u32>
    ensures { (later : List ℕ) → lesser result (least later) ≡ lesser first (least (noted (list_any (same_name name.now) earlier.now) line (noted (nat_le most (length earlier.now)) line later))) }
{
    let repeated = noting(first, earlier.has(name), line);
    noting(repeated, earlier.len() >= most, line)
}

/// A source whose name an earlier one has, or one source too many.
fn repeated_source(alloc: Global, sections: &[Section]) -> Result<Option<u32>, AllocError>
    ensures { IfOk result (λ first. (bytes : List ℕ) → first ≡ least (repeated_cards source_name MOST_SOURCES (parts_in bytes sections.now) [])) }
{
    let mut first = None;
    let mut earlier = NameList::new(alloc);
    for section in sections {
        if let Some(name) = source_name(&section.card) {
            first = noting_name(first, &earlier, &name, MOST_SOURCES, section.line);
            earlier = earlier.with(name)?;
        }
    }
    Ok(first)
}

/// A job whose name an earlier one has, or one job too many.
fn repeated_job(alloc: Global, sections: &[Section]) -> Result<Option<u32>, AllocError>
    ensures { IfOk result (λ first. (bytes : List ℕ) → first ≡ least (repeated_cards job_name MOST_JOBS (parts_in bytes sections.now) [])) }
{
    let mut first = None;
    let mut earlier = NameList::new(alloc);
    for section in sections {
        if let Some(name) = job_name(&section.card) {
            first = noting_name(first, &earlier, &name, MOST_JOBS, section.line);
            earlier = earlier.with(name)?;
        }
    }
    Ok(first)
}

/// The names of the jobs in order.
pub fn job_names(alloc: Global, sections: &[Section]) -> Result<NameList, AllocError>
    ensures { IfOk result (λ names. (bytes : List ℕ) → names ≡ names_of job_name (parts_in bytes sections.now)) }
{
    let mut names = NameList::new(alloc);
    for section in sections {
        if let Some(name) = job_name(&section.card) {
            names = names.with(name)?;
        }
    }
    Ok(names)
}

/// A //SCHED with a name that no job has.
fn unknown_turn(jobs: &NameList, sections: &[Section]) -> Option<u32>
    ensures { (bytes : List ℕ) → result ≡ least (unknown_turns jobs.now (parts_in bytes sections.now)) }
{
    let mut first = None;
    for section in sections {
        first = noting(first, names_unknown(&section.card, jobs), section.line);
    }
    first
}

/// What is noticed without memory.
fn plain_fault(bytes: &[u8], sections: &[Section]) -> Option<u32>
    requires { length bytes.now ≤ MOST_INPUT }
    ensures { result ≡ least (plain_faults (lines_of bytes.now) (parts_in bytes.now sections.now)) }
{
    let total = line_count(bytes);
    let cards = lesser(loose_line(bytes), bad_card(sections));
    let schedules = lesser(cards, after_schedule(bytes, sections));
    let ended = lesser(schedules, after_end(total, sections));
    let ends = lesser(ended, missing_end(total, sections));
    lesser(ends, second_schedule(sections))
}

/// The least line at fault by the cards alone, of an input with these sections.
pub fn card_fault(
    alloc: Global,
    bytes: &[u8],
    sections: &[Section],
) -> Result<Option<u32>, AllocError>
    requires short { length bytes.now ≤ MOST_INPUT }
    requires sections { parts_in bytes.now sections.now ≡ parts_of (lines_of bytes.now) }
    ensures { IfOk result (λ first. first ≡ least (card_faults (lines_of bytes.now))) }
{
    let plain = plain_fault(bytes, sections);
    let sources = lesser(plain, repeated_source(alloc, sections)?);
    let repeated = lesser(sources, repeated_job(alloc, sections)?);
    let jobs = job_names(alloc, sections)?;
    Ok(lesser(repeated, unknown_turn(&jobs, sections)))
}
