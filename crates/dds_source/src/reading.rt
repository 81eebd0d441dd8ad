//! A whole source: its lines, its specifications, and its first fault.
ghost use Rattle.std.specs.Prelude.{◌≡◌, ◌<◌, ◌++◌, ◌∷◌, [], Bool, ◌&&◌, ◌||◌, ◌==◌, length, None, IfOk, OnOk, IfErr, flat_map};
ghost use Rattle.dds_source.specs.Faults.{first_after};
ghost use Rattle.dds_source.specs.Lines.{at, has_entries, counted_lines};
ghost use Rattle.dds_source.specs.Continuation.{joined};
ghost use Rattle.dds_source.specs.Entries.{kind_of, name_of_line, name_or_blank, columns_of, line_faults, letter};
ghost use Rattle.dds_source.specs.Reading.{joined_faults, has_record as has_record_in, is_record, is_condition, ends_in_condition, with_keywords, specification_of, extended, added, all_added, lacks_all, selection_faults, source_in, faults_in, source_of, Gives, ReportsFirst};

use crate::continuation::joined_len;
use crate::faults::{DdsCause, DdsFault, SourceError};
use crate::first::FirstFault;
use crate::keyword_reading::joined_keywords;
use crate::keywords::Keywords;
use crate::lines::{Line, counted_lines, last_line};
use crate::specifications::{Source, Specification, SpecificationKind, Specifications};
use std::alloc::{AllocError, Global};

/// Reads a source, a text of lines of 80 positions (DDS for Physical and Logical Files).
///
/// Time and memory grow with the length of the text.
pub fn read_source(alloc: Global, text: &[u8]) -> Result<Source, SourceError>
    // What is read is the source that the text is, and nothing is wrong with it.
    ensures found { IfOk result (λ source. (faults_in text.now ≡ []) × (source ≡ source_in text.now)) }
    // What is reported is one of the faults, and none of them is before it.
    ensures first { IfErr result (ReportsFirst (faults_in text.now)) }
    // Both in one: the source, or its first fault.
    ensures exact { Gives result (source_of text.now) }
{
    read(alloc, text)
}

#[tactic(auto, using(crate::proofs::FaultLemmas::first_after_append), unfolding(crate::specs::Reading::source_in, crate::specs::Reading::faults_in, crate::specs::Reading::source_of))]
fn read(alloc: Global, text: &[u8]) -> Result<Source, SourceError>
    ensures { Gives result (source_of text.now) }
{
    let lines = counted_lines(alloc, text)?;
    let mut first = FirstFault::none();
    note_lines(&lines, &mut first);
    let source = joined_source(alloc, &lines, last_line(text), &mut first)?;
    note_selections(source.specifications.as_slice(), &mut first);
    match first.fault {
        Some(fault) => Err(SourceError::Fault(fault)),
        None => Ok(source),
    }
}

fn note_lines(lines: &[Line], first: &mut FirstFault)
    ensures { first.new.fault ≡ first_after first.old.fault (flat_map line_faults lines.now) }
{
    for line in lines {
        line.note_faults(first);
    }
}

/// The source that lines are, in a text that ends with that line; what is wrong with its keywords is noted.
fn joined_source(
    alloc: Global,
    lines: &[Line],
    last_line: u32,
    first: &mut FirstFault,
) -> Result<Source, AllocError>
    ensures source { IfOk result (λ source. source ≡ all_added (record { file = []; specifications = []; last_line = last_line }) (joined lines.now)) }
    ensures faults { OnOk result (first.new.fault ≡ first_after first.old.fault (flat_map joined_faults (joined lines.now))) }
{
    let mut source = Source {
        file: Keywords::new(alloc),
        specifications: Specifications::new(alloc),
        last_line,
    };
    let mut has_record = false;
    let mut rest = lines;
    while !rest.is_empty() {
        let (together, after) = rest.split_at(joined_len(rest));
        let keywords = joined_keywords(alloc, together, first)?;
        extend(&mut source, has_record, &together[0], keywords)?;
        has_record = has_come(has_record, &together[0]);
        rest = after;
    }
    Ok(source)
}

/// Whether a record format has come with this line or before.
fn has_come(has_record: bool, line: &Line) -> bool
    ensures { result ≡ (has_record || (has_entries line.now && (at line.now 17 == 82))) }
{
    has_record || (line.has_entries() && line.at(17) == b'R')
}

/// Adds what a line and its keywords add, where a record format has come or not.
#[tactic(auto, unfolding(crate::specs::Reading::extended))]
fn extend(
    source: &mut Source,
    has_record: bool,
    line: &Line,
    keywords: Keywords,
) -> Result<(), AllocError>
    requires { has_record ≡ has_record_in source.old.specifications }
    ensures { OnOk result (source.new ≡ extended source.old line.now keywords) }
{
    if line.has_entries() {
        let is_behind_condition = ends_in_condition(source.specifications.as_slice());
        source
            .specifications
            .push(line.specification(is_behind_condition, keywords))
    } else if has_record {
        source.specifications.extend_last(keywords)
    } else {
        source.file.append(keywords)
    }
}

fn ends_in_condition(specifications: &[Specification]) -> bool
    ensures { result ≡ ends_in_condition specifications.now }
{
    match specifications {
        [.., last] => last.kind.is_condition(),
        [] => false,
    }
}

/// Notes each select or omit without a name and without the keyword ALL.
fn note_selections(specifications: &[Specification], first: &mut FirstFault)
    ensures { first.new.fault ≡ first_after first.old.fault (flat_map selection_faults specifications.now) }
{
    for specification in specifications {
        let fault = DdsFault {
            line: specification.line,
            column: 19,
            cause: DdsCause::BadName,
        };
        first.note_if(specification.lacks_all(), fault);
    }
}
