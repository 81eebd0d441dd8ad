//! The entries of a line, position by position, and what is wrong with them.
ghost use Rattle.std.specs.Prelude.{◌≡◌, ◌<◌, ◌==◌, Bool, length, ◌≤◌, position, nat_eq, codes};
ghost use Rattle.std.specs.List.{before_first};
ghost use Rattle.std.specs.Cmp.Lexicographic.{pointwise};
ghost use Rattle.text_lines.specs.Lines.{is_blank};
ghost use Rattle.dds_source.specs.Faults.{first_after};
ghost use Rattle.dds_source.specs.Entries.{stays_blank, is_kind, may_stand, column_faults, name_entry, name_of_line, wants_name, is_name_wrong, is_reference, is_length_wrong, are_decimals_wrong, line_faults, kind_of, letter, name_or_blank, columns_of};

use crate::faults::{DdsCause, DdsFault};
use crate::first::FirstFault;
use crate::lines::Line;
use crate::numbers::{signed_entry, unsigned_entry};
use crate::specifications::{Columns, NameEntry, SpecificationKind};
use text_lines::field_types::names::Name;
use text_lines::lines::{are_blanks, is_blank};

impl Line {
    /// Notes what is wrong with the entries.
    #[tactic(auto, using(crate::proofs::FaultLemmas::first_after_append), unfolding(crate::specs::Entries::line_faults))]
    pub(crate) fn note_faults(&self, first: &mut FirstFault)
        ensures { first.new.fault ≡ first_after first.old.fault (line_faults self.now) }
    {
        self.note_columns(first);
        first.note_if(self.is_name_wrong(), self.fault(19, DdsCause::BadName));
        first.note_if(self.is_length_wrong(), self.fault(30, DdsCause::BadNumber));
        first.note_if(
            self.are_decimals_wrong(),
            self.fault(36, DdsCause::BadNumber),
        );
    }

    fn fault(&self, column: u32, cause: DdsCause) -> DdsFault
        ensures { result ≡ record { line = self.now.number; column = column; cause = cause } }
    {
        DdsFault {
            line: self.number,
            column,
            cause,
        }
    }

    fn note_columns(&self, first: &mut FirstFault)
        ensures { first.new.fault ≡ first_after first.old.fault (column_faults self.now.number 1 self.now.entries) }
    {
        let mut column = 1;
        for &c in &self.entries {
            first.note_if(
                !may_stand(column, c),
                self.fault(column, DdsCause::BadColumn),
            );
            column += 1;
        }
    }

    pub(crate) fn name(&self) -> Option<NameEntry>
        ensures { result ≡ name_of_line self.now }
    {
        name_entry(self.at(17) == b'K', self.entry(19, 28))
    }

    fn wants_name(&self) -> bool
        ensures { result ≡ wants_name self.now }
    {
        self.at(17) == b'R' || self.at(17) == b'K' || !are_blanks(self.entry(29, 38))
    }

    fn is_name_wrong(&self) -> bool
        ensures { result ≡ is_name_wrong self.now }
    {
        let is_blank = are_blanks(self.entry(19, 28));
        self.name().is_none()
            || (is_blank && self.wants_name())
            || (!is_blank && self.at(17) == b'J')
    }

    pub(crate) fn is_reference(&self) -> bool
        ensures { result ≡ is_reference self.now }
    {
        self.at(29) == b'R'
    }

    fn is_length_wrong(&self) -> bool
        ensures { result ≡ is_length_wrong self.now }
    {
        let length = self.entry(30, 34);
        !are_blanks(length) && signed_entry(self.is_reference(), length).is_none()
    }

    fn are_decimals_wrong(&self) -> bool
        ensures { result ≡ are_decimals_wrong self.now }
    {
        let decimals = self.entry(36, 37);
        !are_blanks(decimals) && unsigned_entry(decimals).is_none()
    }
}

fn may_stand(column: u32, c: u8) -> bool
    ensures { result ≡ may_stand column c }
{
    is_blank(c)
        || match column {
            6 => c == b'A',
            17 => matches!(c, b'R' | b'K' | b'S' | b'O' | b'J'),
            29 => c == b'R',
            7..=16 | 18 | 39..=44 => false,
            _ => true,
        }
}

fn name_entry(is_key: bool, text: &[u8]) -> Option<NameEntry>
    ensures { result ≡ name_entry is_key text.now }
{
    if are_blanks(text) {
        return Some(NameEntry::Blank);
    }
    let word = first_word(text);
    if !are_blanks(&text[word.len()..]) {
        return None;
    }
    match Name::from_bytes(word) {
        Some(name) => Some(NameEntry::Named(name)),
        None if is_key && is_none_word(word) => Some(NameEntry::StarNone),
        None => None,
    }
}

fn is_none_word(word: &[u8]) -> bool
    ensures { result ≡ pointwise nat_eq word.now (codes "*NONE") }
{
    word == b"*NONE".as_slice()
}

fn first_word(text: &[u8]) -> &[u8]
    ensures shorter { length result.now ≤ length text.now }
    ensures value { result.now ≡ before_first is_blank text.now }
{
    match first_blank(text) {
        Some(end) => &text[..end],
        None => text,
    }
}

fn first_blank(text: &[u8]) -> Option<usize>
    ensures { result ≡ position is_blank text.now }
{
    text.iter().position(|&c| is_blank(c))
}
