//! The specification that a line is.
ghost use Rattle.std.specs.Prelude.{◌≡◌, Bool, nat_eq, codes, Option};
ghost use Rattle.std.specs.Cmp.Lexicographic.{pointwise};
ghost use Rattle.std.specs.List.{list_any};
ghost use Rattle.dds_source.specs.Entries.{kind_of, name_or_blank, columns_of, letter};
ghost use Rattle.dds_source.specs.Lines.{entry};
ghost use Rattle.dds_source.specs.Numbers.{unsigned_entry};
ghost use Rattle.dds_source.specs.Reading.{specification_of, is_condition, is_selection, is_blank_name, lacks_all};

use crate::keywords::Keywords;
use crate::lines::Line;
use crate::numbers::{signed_entry, unsigned_entry};
use crate::specifications::{Columns, NameEntry, Specification, SpecificationKind};
use text_lines::lines::is_blank;

impl Line {
    /// The specification that it begins, behind a condition or not.
    #[tactic(auto, unfolding(crate::specs::Reading::specification_of))]
    pub(crate) fn specification(
        &self,
        is_behind_condition: bool,
        keywords: Keywords,
    ) -> Specification
        ensures { result ≡ specification_of is_behind_condition self.now keywords }
    {
        Specification {
            line: self.number,
            kind: kind_of(is_behind_condition, self.at(17)),
            name: name_or_blank(self.name()),
            columns: self.columns(),
            keywords,
        }
    }

    #[tactic(auto, unfolding(crate::specs::Entries::columns_of))]
    fn columns(&self) -> Columns
        ensures { result ≡ columns_of self.now }
    {
        Columns {
            reference: self.is_reference(),
            length: signed_entry(self.is_reference(), self.entry(30, 34)),
            data_type: letter(self.at(35)),
            decimals: self.decimals(),
            usage: letter(self.at(38)),
        }
    }

    fn decimals(&self) -> Option<u8>
        ensures { result ≡ unsigned_entry (entry self.now 36 37) }
    {
        match unsigned_entry(self.entry(36, 37)) {
            Some(decimals) => Some(decimals as u8),
            None => None,
        }
    }
}

fn kind_of(is_behind_condition: bool, c: u8) -> SpecificationKind
    ensures { result ≡ kind_of is_behind_condition c }
{
    match c {
        b'R' => SpecificationKind::Record,
        b'K' => SpecificationKind::Key,
        b'S' => SpecificationKind::Select,
        b'O' => SpecificationKind::Omit,
        b'J' => SpecificationKind::Join,
        _ if is_behind_condition => SpecificationKind::And,
        _ => SpecificationKind::Field,
    }
}

fn name_or_blank(name: Option<NameEntry>) -> NameEntry
    ensures { result ≡ name_or_blank name }
{
    name.unwrap_or(NameEntry::Blank)
}

fn letter(c: u8) -> Option<u8>
    ensures { result ≡ letter c }
{
    if is_blank(c) { None } else { Some(c) }
}

impl SpecificationKind {
    /// Whether a further condition may follow.
    pub(crate) fn is_condition(self) -> bool
        ensures { result ≡ is_condition self }
    {
        matches!(
            self,
            SpecificationKind::Select | SpecificationKind::Omit | SpecificationKind::And
        )
    }

    fn is_selection(self) -> bool
        ensures { result ≡ is_selection self }
    {
        matches!(self, SpecificationKind::Select | SpecificationKind::Omit)
    }
}

impl NameEntry {
    fn is_blank(self) -> bool
        ensures { result ≡ is_blank_name self }
    {
        matches!(self, NameEntry::Blank)
    }
}

fn has_all(keywords: &Keywords) -> bool
    ensures { result ≡ list_any (λ k. pointwise nat_eq k.name (codes "ALL")) keywords.now }
{
    keywords
        .as_slice()
        .iter()
        .any(|keyword| keyword.name.as_bytes() == b"ALL".as_slice())
}

impl Specification {
    /// Whether it is a select or omit without a name that hasn't the keyword ALL.
    pub(crate) fn lacks_all(&self) -> bool
        ensures { result ≡ lacks_all self.now }
    {
        self.kind.is_selection() && self.name.is_blank() && !has_all(&self.keywords)
    }
}
