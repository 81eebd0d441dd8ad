//! Lines out of order.
ghost use Rattle.std.specs.Prelude.{◌≡◌, ◌≤◌, ◌++◌, ◌&&◌, ◌||◌, false, not, map, flat_map, if◌then◌else◌};
ghost use Rattle.dds_physical.specs.Faults.{first_after};
ghost use Rattle.dds_logical.specs.FormatLines.{lines_ahead, formats_in};
ghost use Rattle.dds_logical.specs.LineOrder.{out_of_order, stage, later_of, stage_faults, kind_faults, second_format_faults, order_faults};
ghost use Rattle.dds_logical.specs.Judged.{order_faults_of, faults_at, second_formats};

use crate::first::{FirstFault, fault_at};
use crate::format_lines::{is_field_kind, is_join_kind, is_record, is_selection, lines_ahead};
use dds_physical::dds_source::faults::{DdsCause, DdsFault};
use dds_physical::dds_source::specifications::{Specification, SpecificationKind};

fn out_of_order(line: &Specification) -> DdsFault
    ensures { result ≡ out_of_order line.now }
{
    let column = if is_field_kind(line.kind) { 19 } else { 17 };
    fault_at(line, column, DdsCause::OutOfOrder)
}

fn stage(kind: SpecificationKind) -> usize
    ensures { result ≡ stage kind }
{
    match kind {
        SpecificationKind::Record => 0,
        SpecificationKind::Join => 1,
        SpecificationKind::Field => 2,
        SpecificationKind::Key => 3,
        SpecificationKind::Select | SpecificationKind::Omit | SpecificationKind::And => 4,
    }
}

/// The greater of two.
pub(crate) fn later_of(a: usize, b: usize) -> usize
    ensures { result ≡ later_of a b }
{
    if a < b { b } else { a }
}

/// Notes the lines of a format that stand behind one of a later stage.
#[tactic(auto, using(dds_physical::proofs::FaultLemmas::first_after_append))]
fn note_stages(body: &[Specification], first: &mut FirstFault)
    ensures { first.new.fault ≡ first_after first.old.fault (stage_faults 0 body.now) }
{
    let mut reached = 0;
    for line in body {
        let stage = stage(line.kind);
        first.note_if(stage < reached, out_of_order(line));
        reached = later_of(reached, stage);
    }
}

/// Notes selects and omits in a join file, and joins in another one.
#[tactic(auto, using(dds_physical::proofs::FaultLemmas::first_after_append))]
fn note_kinds(is_join: bool, body: &[Specification], first: &mut FirstFault)
    ensures { first.new.fault ≡ first_after first.old.fault (flat_map (kind_faults is_join) body.now) }
{
    for line in body {
        let wrong = if is_join {
            is_selection(line.kind)
        } else {
            is_join_kind(line.kind)
        };
        first.note_if(wrong, out_of_order(line));
    }
}

/// Notes what stands out of order in a format, if the line begins one.
#[tactic(auto, using(dds_physical::proofs::FaultLemmas::first_after_append), unfolding(crate::specs::Judged::faults_at))]
fn note_format(is_join: bool, line: &Specification, more: &[Specification], first: &mut FirstFault)
    ensures { first.new.fault ≡ first_after first.old.fault (faults_at (order_faults_of is_join) line.now more.now) }
{
    if is_record(line.kind) {
        let body = lines_ahead(more);
        note_stages(body, first);
        note_kinds(is_join, body, first);
    }
}

fn note_formats(is_join: bool, specifications: &[Specification], first: &mut FirstFault)
    ensures { first.new.fault ≡ first_after first.old.fault (flat_map (order_faults_of is_join) (formats_in specifications.now)) }
{
    let mut rest = specifications;
    while !rest.is_empty() {
        let (here, more) = rest.split_at(1);
        note_format(is_join, &here[0], more, first);
        rest = more;
    }
}

/// Notes the lines before the first record format.
#[tactic(auto, using(dds_physical::proofs::FaultLemmas::first_after_append))]
fn note_ahead(specifications: &[Specification], first: &mut FirstFault)
    ensures { first.new.fault ≡ first_after first.old.fault (map out_of_order (lines_ahead specifications.now)) }
{
    for line in lines_ahead(specifications) {
        first.note(out_of_order(line));
    }
}

/// Notes a second record format, and each behind it.
#[tactic(auto, using(dds_physical::proofs::FaultLemmas::first_after_append))]
fn note_second_formats(specifications: &[Specification], first: &mut FirstFault)
    ensures { first.new.fault ≡ first_after first.old.fault (second_formats false (formats_in specifications.now)) }
{
    let mut is_there = false;
    for line in specifications {
        let begins = is_record(line.kind);
        first.note_if(begins && is_there, out_of_order(line));
        is_there = is_there || begins;
    }
}

fn note_join_formats(is_join: bool, specifications: &[Specification], first: &mut FirstFault)
    ensures { first.new.fault ≡ first_after first.old.fault (second_format_faults is_join (formats_in specifications.now)) }
{
    if is_join {
        note_second_formats(specifications, first);
    }
}

/// Notes what stands out of order.
#[tactic(auto, using(dds_physical::proofs::FaultLemmas::first_after_append))]
pub(crate) fn note_order(is_join: bool, specifications: &[Specification], first: &mut FirstFault)
    ensures { first.new.fault ≡ first_after first.old.fault (order_faults is_join specifications.now (formats_in specifications.now)) }
{
    note_ahead(specifications, first);
    note_formats(is_join, specifications, first);
    note_join_formats(is_join, specifications, first);
}
