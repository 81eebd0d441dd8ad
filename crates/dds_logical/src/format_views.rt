//! What the lines of a format over one file describe.
ghost use Rattle.std.specs.Prelude.{◌≡◌, ◌≤◌, ◌&&◌, ◌==◌, not, length, true, is_some, codes, if◌then◌else◌, IfOk};
ghost use Rattle.dds_physical.specs.Keywords.{first_named};
ghost use Rattle.dds_physical.specs.Names.{name_of};
ghost use Rattle.dds_physical.specs.Physical.{ties_of, name_or_none};
ghost use Rattle.dds_physical.specs.References.{file_of_keyword};
ghost use Rattle.dds_logical.specs.FormatLines.{formats_in};
ghost use Rattle.dds_logical.specs.Logical.{most_parts, ties_with, is_keyless, key_of, view_described};
ghost use Rattle.dds_logical.specs.Judged.{format_with, lines_of};
ghost use Rattle.dds_logical.specs.Keys.{parts_of_lines};
ghost use Rattle.dds_logical.specs.JudgedKeys.{bytes_of, parts_at};
ghost use Rattle.dds_logical.specs.declared.format_lines.LineKind.TheVariants as line_kinds;
ghost use Rattle.dds_logical.specs.Complete.{IsComplete, view_with};

use crate::bases::Bases;
use crate::format_faults::{base_name, base_of};
use crate::format_lines::{LineKind, count_lines, is_record, lines_ahead};
use crate::keyword_names::is_there;
use crate::layout::{laid_out, mapping_of, padded};
use crate::line_order::later_of;
use crate::named_fields::{NamedFields, named_fields};
use crate::names::name_of;
use crate::rules_said::rules_said;
use crate::views::View;
use dds_physical::dds_source::keywords::Keyword;
use dds_physical::dds_source::specifications::Specification;
use field_types::names::Name;
use key_spec::{KeySpec, Ties};
use record_fmt::formats::{Field, Format, MOST_BYTES, MOST_FIELDS};
use std::alloc::{AllocError, Global};

/// How records with equal keys are ordered.
pub(crate) fn ties_of(keywords: &[Keyword]) -> Ties
    ensures { result ≡ ties_of keywords.now }
{
    if is_there(b"LIFO", keywords) {
        Ties::Falling
    } else {
        Ties::Rising
    }
}

/// LIFO changes nothing in a file of one format without a key.
fn ties_with(is_keyless: bool, keywords: &[Keyword]) -> Ties
    ensures { result ≡ ties_with is_keyless keywords.now }
{
    if is_keyless {
        Ties::Rising
    } else {
        ties_of(keywords)
    }
}

/// How many key lines the format has that a line begins.
fn parts_at(line: &Specification, more: &[Specification]) -> usize
    ensures { result ≡ parts_at line.now more.now }
{
    if is_record(line.kind) {
        count_lines(LineKind::Key, lines_ahead(more))
    } else {
        0
    }
}

/// How many positions the key of a file has.
#[tactic(auto, using(crate::proofs::ViewLemmas::later_first, crate::proofs::ViewLemmas::later_none, crate::proofs::ViewLemmas::parts_more))]
pub(crate) fn most_parts(specifications: &[Specification]) -> usize
    ensures { result ≡ most_parts (formats_in specifications.now) }
{
    let mut most = 0;
    let mut rest = specifications;
    while let [line, more @ ..] = rest {
        most = later_of(most, parts_at(line, more));
        rest = more;
    }
    most
}

/// The key of a format with these fields.
fn key_of(
    alloc: Global,
    keywords: &[Keyword],
    is_multi: bool,
    positions: usize,
    fields: &[Field],
    lines: &[Specification],
) -> Result<KeySpec, AllocError>
    ensures { IfOk result (λ keys. keys ≡ key_of is_multi positions keywords.now (parts_of_lines fields.now (lines_of line_kinds.Key lines.now))) }
{
    let parts = padded(alloc, positions, fields, lines)?;
    let is_keyless = !is_multi && positions == 0;
    Ok(KeySpec {
        parts,
        unique: is_there(b"UNIQUE", keywords),
        ties: ties_with(is_keyless, keywords),
    })
}

pub(crate) fn name_given(name: Option<Name>) -> Name
    requires { is_some name ≡ true }
    ensures { result ≡ name_or_none name }
{
    name.unwrap()
}

/// What the lines of a format with these fields describe, over these.
fn view_with(
    alloc: Global,
    keywords: &[Keyword],
    is_multi: bool,
    positions: usize,
    base: &[Field],
    named: &NamedFields,
    line: &Specification,
    body: &[Specification],
) -> Result<View, AllocError>
    requires named { is_some (name_of line.now.name) ≡ true }
    requires based { is_some (file_of_keyword (first_named (codes "PFILE") line.now.keywords)) ≡ true }
    requires few { length named.now ≤ MOST_FIELDS }
    requires narrow { bytes_of named.now ≤ MOST_BYTES }
    ensures { IfOk result (λ view. view ≡ view_with keywords.now is_multi positions (format_with line.now body.now) base.now named.now) }
{
    let fields = laid_out(alloc, named)?;
    let keys = key_of(
        alloc,
        keywords,
        is_multi,
        positions,
        fields.as_slice(),
        body,
    )?;
    let mapping = mapping_of(alloc, named)?;
    let rules = rules_said(alloc, named.as_slice(), base, body)?;
    let file = name_given(base_name(line));
    let name = name_given(name_of(line.name));
    Ok(View {
        base: file,
        format: Format { name, fields },
        mapping,
        rules,
        keys,
    })
}

/// The format that a line begins, in a file with these keywords and so many positions of the key.
pub(crate) fn view_described<B: Bases>(
    alloc: Global,
    bases: &B,
    keywords: &[Keyword],
    is_multi: bool,
    positions: usize,
    line: &Specification,
    body: &[Specification],
) -> Result<View, AllocError>
    requires { IsComplete (B.bases bases.now) (format_with line.now body.now) }
    ensures { IfOk result (λ view. view ≡ view_described (B.bases bases.now) keywords.now is_multi positions (format_with line.now body.now)) }
{
    let base = base_of(bases, line);
    let named = named_fields(alloc, base, body)?;
    let view = view_with(
        alloc, keywords, is_multi, positions, base, &named, line, body,
    )?;
    Ok(view)
}
