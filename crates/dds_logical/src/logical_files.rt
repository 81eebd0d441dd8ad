//! A logical file by its source, or the first fault of the source.
ghost use Rattle.std.specs.Prelude.{◌≡◌, ◌++◌, ◌∷◌, [], List, map, true, false, IfOk, OnOk};
ghost use Rattle.dds_logical.specs.FormatLines.{formats_in, is_join_file, is_multi_format};
ghost use Rattle.dds_logical.specs.Logical.{view_described, most_parts, one_or_several, described_by, join_described_by, logical_of};
ghost use Rattle.dds_logical.specs.Complete.{IsComplete, AreComplete, AreCompleteFrom, IsFileComplete, views_at, Gives};
ghost use Rattle.dds_logical.specs.JoinWhole.{IsFirstComplete};
ghost use Rattle.dds_logical.specs.Judged.{format_with};
ghost use Rattle.dds_logical.specs.declared.logical_files.LogicalFault.TheVariants.{NoMemory};

use crate::bases::Bases;
use crate::format_lines::{is_join_file, is_multi_format, is_record, lines_ahead};
use crate::format_views::{most_parts, view_described};
use crate::joins_described::join_described;
use crate::source_faults::first_fault;
use crate::views::{LogicalSpec, View, Views};
use dds_physical::dds_source::faults::DdsFault;
use dds_physical::dds_source::keywords::Keyword;
use dds_physical::dds_source::specifications::{Source, Specification};
use std::alloc::{AllocError, Global};

/// Why a source describes no logical file.
#[derive(Drop)]
pub enum LogicalFault {
    /// Memory ran out; the source may be fine.
    NoMemory,
    /// The source's first fault.
    Fault(DdsFault),
}

impl From<AllocError> for LogicalFault {
    ghost from_gives = { λ _ e. e ≡ NoMemory };

    fn from(_e: AllocError) -> LogicalFault {
        LogicalFault::NoMemory
    }
}

/// Adds a format.
fn push_view<B: Bases>(
    alloc: Global,
    bases: &B,
    keywords: &[Keyword],
    is_multi: bool,
    positions: usize,
    line: &Specification,
    body: &[Specification],
    views: &mut Vec<View>,
) -> Result<(), AllocError>
    requires { IsComplete (B.bases bases.now) (format_with line.now body.now) }
    ensures { OnOk result (views.new.items ≡ views.old.items ++ view_described (B.bases bases.now) keywords.now is_multi positions (format_with line.now body.now) ∷ []) }
{
    let view = view_described(alloc, bases, keywords, is_multi, positions, line, body)?;
    views.push(view)?;
    Ok(())
}

/// Adds the format that a line begins, if it begins one.
fn add_view<B: Bases>(
    alloc: Global,
    bases: &B,
    keywords: &[Keyword],
    is_multi: bool,
    positions: usize,
    line: &Specification,
    more: &[Specification],
    views: &mut Vec<View>,
) -> Result<(), AllocError>
    requires { AreCompleteFrom (B.bases bases.now) line.now more.now }
    ensures { OnOk result (views.new.items ≡ views.old.items ++ views_at (view_described (B.bases bases.now) keywords.now is_multi positions) line.now more.now) }
{
    if is_record(line.kind) {
        let body = lines_ahead(more);
        push_view(
            alloc, bases, keywords, is_multi, positions, line, body, views,
        )
    } else {
        Ok(())
    }
}

/// The formats of a file.
#[tactic(auto, using(crate::proofs::ListLemmas::joined, crate::proofs::FileLemmas::views_more, crate::proofs::FileLemmas::complete_rest))]
fn views_described<B: Bases>(
    alloc: Global,
    bases: &B,
    keywords: &[Keyword],
    is_multi: bool,
    positions: usize,
    specifications: &[Specification],
) -> Result<Vec<View>, AllocError>
    requires { AreComplete (B.bases bases.now) (formats_in specifications.now) }
    ensures { IfOk result (λ views. views.items ≡ map (view_described (B.bases bases.now) keywords.now is_multi positions) (formats_in specifications.now)) }
{
    let mut views = Vec::new(alloc);
    let mut rest = specifications;
    while let [line, more @ ..] = rest {
        add_view(
            alloc, bases, keywords, is_multi, positions, line, more, &mut views,
        )?;
        rest = more;
    }
    Ok(views)
}

/// One format makes a simple file.
fn one_or_several(views: Vec<View>) -> LogicalSpec
    ensures { result ≡ one_or_several views.items }
{
    let mut views = views;
    if views.len() == 1 {
        LogicalSpec::Simple(views.pop().unwrap())
    } else {
        LogicalSpec::Multi(Views::from_vec(views))
    }
}

/// The file of a source that isn't a join's.
fn views_file<B: Bases>(
    alloc: Global,
    bases: &B,
    source: &Source,
) -> Result<LogicalSpec, AllocError>
    requires single { is_join_file (formats_in source.now.specifications) ≡ false }
    requires complete { AreComplete (B.bases bases.now) (formats_in source.now.specifications) }
    ensures { IfOk result (λ spec. spec ≡ described_by (B.bases bases.now) source.now (formats_in source.now.specifications)) }
{
    let specifications = source.specifications.as_slice();
    let views = views_described(
        alloc,
        bases,
        source.file.as_slice(),
        is_multi_format(specifications),
        most_parts(specifications),
        specifications,
    )?;
    Ok(one_or_several(views))
}

/// The join that the first format is.
fn join_file<B: Bases>(
    alloc: Global,
    bases: &B,
    keywords: &[Keyword],
    specifications: &[Specification],
) -> Result<LogicalSpec, AllocError>
    requires { IsFirstComplete (B.bases bases.now) (formats_in specifications.now) }
    ensures { IfOk result (λ spec. spec ≡ join_described_by (B.bases bases.now) keywords.now (formats_in specifications.now)) }
{
    let mut rest = specifications;
    while let [line, more @ ..] = rest {
        if is_record(line.kind) {
            let join = join_described(alloc, bases, keywords, line, lines_ahead(more))?;
            return Ok(LogicalSpec::Join(join));
        }
        rest = more;
    }
    Ok(LogicalSpec::Multi(Views::new(alloc)))
}

/// The file of a source without faults.
fn described<B: Bases>(alloc: Global, bases: &B, source: &Source) -> Result<LogicalSpec, AllocError>
    requires { IsFileComplete (B.bases bases.now) (is_join_file (formats_in source.now.specifications)) (formats_in source.now.specifications) }
    ensures { IfOk result (λ spec. spec ≡ described_by (B.bases bases.now) source.now (formats_in source.now.specifications)) }
{
    let specifications = source.specifications.as_slice();
    if is_join_file(specifications) {
        join_file(alloc, bases, source.file.as_slice(), specifications)
    } else {
        views_file(alloc, bases, source)
    }
}

/// The logical file that a source describes, over the files of `bases`.
///
/// Fields, keys and names take memory as they are judged, so memory may run out before a fault is found.
#[tactic(auto, using(crate::proofs::FileLemmas::answered))]
pub fn logical<B: Bases>(
    alloc: Global,
    source: &Source,
    bases: &B,
) -> Result<LogicalSpec, LogicalFault>
    // What is described where nothing is wrong, or the first fault.
    ensures { Gives result (logical_of (B.bases bases.now) source.now) }
{
    match first_fault(alloc, bases, source)? {
        Some(fault) => Err(LogicalFault::Fault(fault)),
        None => Ok(described(alloc, bases, source)?),
    }
}
