//! What is wrong with a source.
ghost use Rattle.std.specs.Prelude.{◌≡◌, ◌++◌, false, if◌then◌else◌, OnOk, None, IfOk};
ghost use Rattle.dds_physical.specs.Faults.{first_after};
ghost use Rattle.dds_logical.specs.FormatLines.{formats_in};
ghost use Rattle.dds_logical.specs.Logical.{faults_over, formats_at_fault, logical_faults};
ghost use Rattle.dds_physical.specs.WholeFile.{has_key};
ghost use Rattle.dds_logical.specs.Complete.{CompleteUnless, outline_faults};

use crate::bases::Bases;
use crate::fields::note_letters;
use crate::first::FirstFault;
use crate::format_faults::{note_mismatches, note_views};
use crate::format_lines::{LineKind, has_lines, is_join_file, is_multi_format};
use crate::join_faults::note_joins;
use crate::keyword_places::KeywordPlace;
use crate::keyword_rules::{note_conflicts, note_keywords};
use crate::line_order::note_order;
use crate::whole_file::{note_format_missing, note_formats};
use dds_physical::dds_source::faults::DdsFault;
use dds_physical::dds_source::keywords::Keyword;
use dds_physical::dds_source::specifications::{Source, Specification};
use std::alloc::{AllocError, Global};

/// Notes what is wrong with formats over one file each.
#[tactic(auto, using(dds_physical::proofs::FaultLemmas::first_after_append, crate::proofs::KeyLemmas::mismatches_are))]
fn note_views_at_fault<B: Bases>(
    alloc: Global,
    bases: &B,
    source: &Source,
    first: &mut FirstFault,
) -> Result<(), AllocError>
    ensures { OnOk result (first.new.fault ≡ first_after first.old.fault (formats_at_fault (B.bases bases.now) source.now false (formats_in source.now.specifications))) }
{
    let specifications = source.specifications.as_slice();
    let is_multi = is_multi_format(specifications);
    note_views(
        alloc,
        bases,
        source.last_line,
        is_multi,
        specifications,
        first,
    )?;
    note_mismatches(alloc, bases, specifications, first)
}

/// Notes what is wrong with the formats.
fn note_formats_at_fault<B: Bases>(
    alloc: Global,
    bases: &B,
    source: &Source,
    is_join: bool,
    first: &mut FirstFault,
) -> Result<(), AllocError>
    ensures { OnOk result (first.new.fault ≡ first_after first.old.fault (formats_at_fault (B.bases bases.now) source.now is_join (formats_in source.now.specifications))) }
{
    if is_join {
        let specifications = source.specifications.as_slice();
        note_joins(alloc, bases, source.last_line, specifications, first)
    } else {
        note_views_at_fault(alloc, bases, source, first)
    }
}

fn has_key(specifications: &[Specification]) -> bool
    ensures { result ≡ has_key specifications.now }
{
    has_lines(LineKind::Key, specifications)
}

/// Notes what is wrong with the keywords of the file, with letters in 35 and 38, and lines out of order.
#[tactic(auto, using(dds_physical::proofs::FaultLemmas::first_after_append))]
fn note_outlines(
    is_join: bool,
    keywords: &[Keyword],
    specifications: &[Specification],
    first: &mut FirstFault,
)
    ensures { first.new.fault ≡ first_after first.old.fault (outline_faults is_join keywords.now specifications.now) }
{
    let has_key = has_key(specifications);
    let is_multi = is_multi_format(specifications);
    note_keywords(is_join, KeywordPlace::File, keywords, first);
    note_conflicts(has_key, is_multi, keywords, first);
    note_letters(is_join, specifications, first);
    note_order(is_join, specifications, first);
}

/// Notes what is wrong with a source.
#[tactic(auto, using(dds_physical::proofs::FaultLemmas::first_after_append))]
fn note_source<B: Bases>(
    alloc: Global,
    bases: &B,
    source: &Source,
    is_join: bool,
    first: &mut FirstFault,
) -> Result<(), AllocError>
    ensures { OnOk result (first.new.fault ≡ first_after first.old.fault (faults_over (B.bases bases.now) source.now is_join (formats_in source.now.specifications))) }
{
    let specifications = source.specifications.as_slice();
    note_outlines(is_join, source.file.as_slice(), specifications, first);
    note_formats(alloc, specifications, first)?;
    note_formats_at_fault(alloc, bases, source, is_join, first)?;
    note_format_missing(source.last_line, is_join, specifications, first);
    Ok(())
}

/// The first fault of a source.
#[tactic(auto, using(crate::proofs::FileLemmas::faults_are))]
pub(crate) fn first_fault<B: Bases>(
    alloc: Global,
    bases: &B,
    source: &Source,
) -> Result<Option<DdsFault>, AllocError>
    ensures fault { IfOk result (λ f. f ≡ first_after None (logical_faults (B.bases bases.now) source.now)) }
    ensures complete { IfOk result (CompleteUnless (B.bases bases.now) (formats_in source.now.specifications)) }
{
    let is_join = is_join_file(source.specifications.as_slice());
    let mut first = FirstFault::none();
    note_source(alloc, bases, source, is_join, &mut first)?;
    Ok(first.fault)
}
