//! What is wrong with formats over one file each.
ghost use Rattle.std.specs.Prelude.{◌≡◌, ◌++◌, ◌∷◌, List, [], flat_map, codes, Option, IfOk, OnOk};
ghost use Rattle.record_fmt.specs.Layout.{IsLaidOut};
ghost use Rattle.dds_physical.specs.Faults.{first_after};
ghost use Rattle.dds_logical.specs.Named.{AreShown};
ghost use Rattle.dds_physical.specs.Keywords.{first_named};
ghost use Rattle.dds_physical.specs.References.{file_of_keyword};
ghost use Rattle.dds_logical.specs.FormatLines.{FormatLines, formats_in};
ghost use Rattle.dds_logical.specs.Logical.{base_of, fields_named, view_faults};
ghost use Rattle.dds_logical.specs.Judged.{faults_at, format_with};
ghost use Rattle.dds_logical.specs.Mismatches.{faults_with, mismatches, mismatches_of, mismatches_from};

use crate::arguments::argument_name;
use crate::bases::{Bases, fields_of_name};
use crate::fields::note_field_lines;
use crate::first::FirstFault;
use crate::format_lines::{is_record, lines_ahead};
use crate::key_mismatches::{EarlierKeys, note_positions};
use crate::keys::{judged_parts, note_key_lines, note_sizes};
use crate::keyword_names::{arguments_of, first_named};
use crate::named_fields::{NamedField, NamedFields, named_fields};
use crate::selections::note_selections;
use crate::whole_file::note_head;
use dds_physical::dds_source::specifications::Specification;
use field_types::names::Name;
use record_fmt::formats::Field;
use std::alloc::{AllocError, Global};

/// The file that a format is over.
pub(crate) fn base_name(line: &Specification) -> Option<Name>
    ensures { result ≡ file_of_keyword (first_named (codes "PFILE") line.now.keywords) }
{
    match first_named(b"PFILE", line.keywords.as_slice()) {
        Some(keyword) => match arguments_of(keyword) {
            [file, ..] => argument_name(file),
            [] => None,
        },
        None => None,
    }
}

/// The fields of the file that a format is over.
pub(crate) fn base_of<'a, B: Bases>(bases: &'a B, line: &Specification) -> &'a [Field]
    ensures fields { result.now ≡ base_of (B.bases bases.now) (format_with line.now []) }
    ensures laid_out { IsLaidOut result.now }
{
    fields_of_name(bases, &base_name(line))
}

/// Notes what is wrong with the lines of a format with these fields, over these.
#[tactic(auto, using(dds_physical::proofs::FaultLemmas::first_after_append))]
fn note_lines<B: Bases>(
    alloc: Global,
    bases: &B,
    last_line: u32,
    is_multi: bool,
    base: &[Field],
    named: &[NamedField],
    line: &Specification,
    body: &[Specification],
    first: &mut FirstFault,
) -> Result<(), AllocError>
    requires base { IsLaidOut base.now }
    requires named { AreShown named.now }
    ensures { OnOk result (first.new.fault ≡ first_after first.old.fault (faults_with (B.bases bases.now) last_line is_multi (format_with line.now body.now) base.now named.now)) }
{
    let parts = judged_parts(alloc, named, body)?;
    note_head(bases, false, line, first);
    note_field_lines(alloc, base, body, first)?;
    note_key_lines(alloc, false, is_multi, named, body, first)?;
    note_selections(alloc, named, base, body, first)?;
    note_sizes(last_line, named, parts.as_slice(), body, first);
    Ok(())
}

/// Notes what is wrong with the lines of a format.
fn note_view<B: Bases>(
    alloc: Global,
    bases: &B,
    last_line: u32,
    is_multi: bool,
    line: &Specification,
    body: &[Specification],
    first: &mut FirstFault,
) -> Result<(), AllocError>
    ensures { OnOk result (first.new.fault ≡ first_after first.old.fault (view_faults (B.bases bases.now) last_line is_multi (format_with line.now body.now))) }
{
    let base = base_of(bases, line);
    let named = named_fields(alloc, base, body)?;
    let fields = named.as_slice();
    note_lines(
        alloc, bases, last_line, is_multi, base, fields, line, body, first,
    )?;
    Ok(())
}

/// Notes what is wrong with the format that a line begins, if it begins one.
#[tactic(auto, unfolding(crate::specs::Judged::faults_at))]
fn note_view_at<B: Bases>(
    alloc: Global,
    bases: &B,
    last_line: u32,
    is_multi: bool,
    line: &Specification,
    more: &[Specification],
    first: &mut FirstFault,
) -> Result<(), AllocError>
    ensures { OnOk result (first.new.fault ≡ first_after first.old.fault (faults_at (view_faults (B.bases bases.now) last_line is_multi) line.now more.now)) }
{
    if is_record(line.kind) {
        let body = lines_ahead(more);
        note_view(alloc, bases, last_line, is_multi, line, body, first)
    } else {
        Ok(())
    }
}

/// Notes what is wrong with the lines of each format.
#[tactic(auto, using(dds_physical::proofs::FaultLemmas::first_after_append, crate::proofs::FormatLemmas::faults_more))]
pub(crate) fn note_views<B: Bases>(
    alloc: Global,
    bases: &B,
    last_line: u32,
    is_multi: bool,
    specifications: &[Specification],
    first: &mut FirstFault,
) -> Result<(), AllocError>
    ensures { OnOk result (first.new.fault ≡ first_after first.old.fault (flat_map (view_faults (B.bases bases.now) last_line is_multi) (formats_in specifications.now))) }
{
    let mut rest = specifications;
    while !rest.is_empty() {
        let (here, more) = rest.split_at(1);
        note_view_at(alloc, bases, last_line, is_multi, &here[0], more, first)?;
        rest = more;
    }
    Ok(())
}

/// The fields of a format.
fn named_of_format<B: Bases>(
    alloc: Global,
    bases: &B,
    line: &Specification,
    body: &[Specification],
) -> Result<NamedFields, AllocError>
    ensures { IfOk result (λ named. named ≡ fields_named (B.bases bases.now) (format_with line.now body.now)) }
{
    let base = base_of(bases, line);
    let named = named_fields(alloc, base, body)?;
    Ok(named)
}

/// Notes the positions of a format that differ from those of an earlier one, and adds its own.
fn note_mismatch_of<B: Bases>(
    alloc: Global,
    bases: &B,
    line: &Specification,
    body: &[Specification],
    earlier: &mut EarlierKeys,
    first: &mut FirstFault,
) -> Result<(), AllocError>
    ensures { OnOk result ((later : List FormatLines) → first_after first.new.fault (mismatches_of (B.bases bases.now) earlier.new later) ≡ first_after first.old.fault (mismatches_of (B.bases bases.now) earlier.old (format_with line.now body.now ∷ later))) }
{
    let named = named_of_format(alloc, bases, line, body)?;
    let fields = named.as_slice();
    note_positions(earlier, fields, body, first);
    let parts = judged_parts(alloc, fields, body)?;
    earlier.push(parts)?;
    Ok(())
}

/// The same, if the line begins a format.
fn note_mismatch<B: Bases>(
    alloc: Global,
    bases: &B,
    line: &Specification,
    more: &[Specification],
    earlier: &mut EarlierKeys,
    first: &mut FirstFault,
) -> Result<(), AllocError>
    ensures { OnOk result (first_after first.new.fault (mismatches (B.bases bases.now) earlier.new more.now) ≡ first_after first.old.fault (mismatches_from (B.bases bases.now) earlier.old line.now more.now)) }
{
    if !is_record(line.kind) {
        return Ok(());
    }
    let body = lines_ahead(more);
    note_mismatch_of(alloc, bases, line, body, earlier, first)?;
    Ok(())
}

/// Notes positions of keys that differ between formats.
pub(crate) fn note_mismatches<B: Bases>(
    alloc: Global,
    bases: &B,
    specifications: &[Specification],
    first: &mut FirstFault,
) -> Result<(), AllocError>
    ensures { OnOk result (first.new.fault ≡ first_after first.old.fault (mismatches (B.bases bases.now) [] specifications.now)) }
{
    let mut earlier = EarlierKeys::new(alloc);
    let mut rest = specifications;
    while let [line, more @ ..] = rest {
        note_mismatch(alloc, bases, line, more, &mut earlier, first)?;
        rest = more;
    }
    Ok(())
}
