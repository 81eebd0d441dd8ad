//! What is wrong with keywords: one that doesn't stand there, arguments that it doesn't take, one that stands twice.
ghost use Rattle.std.specs.Prelude.{◌≡◌, ◌++◌, ◌&&◌, nat_eq, not, is_some, is_none, codes};
ghost use Rattle.std.specs.Option.{option_copied};
ghost use Rattle.std.specs.List.{list_all};
ghost use Rattle.std.specs.Cmp.Lexicographic.{pointwise};
ghost use Rattle.dds_source.specs.Faults.{first_after};
ghost use Rattle.dds_source.specs.Entries.{when};
ghost use Rattle.ebc_text.specs.CodePage.{ebcdic_of};
ghost use Rattle.dds_physical.specs.Places.{at_keyword, fault_of_keyword};
ghost use Rattle.dds_physical.specs.Keywords.{is_known};
ghost use Rattle.dds_physical.specs.KeywordRules.{argument_name, is_special, is_literal, is_in_table, is_file_reference, is_field_reference, is_iso, is_one_literal, fit_keyword, takes_arguments, repeated, one_keyword_faults, keyword_faults};

use crate::first::{FirstFault, keyword_fault};
use crate::keyword_names::{
    Place, arguments_of, first_named, has_name, is_flag, is_known, is_moment_format,
};
use dds_source::arguments::Argument;
use dds_source::faults::DdsCause;
use dds_source::keywords::Keyword;
use ebc_text::to_ebcdic_byte;
use field_types::names::Name;

/// Notes what is wrong with the keywords of a place.
#[tactic(auto, using(crate::proofs::FaultLemmas::first_after_append))]
pub(crate) fn note_keywords(place: Place, keywords: &[Keyword], first: &mut FirstFault)
    ensures { first.new.fault ≡ first_after first.old.fault (keyword_faults place keywords.now) }
{
    let mut rest = keywords;
    while !rest.is_empty() {
        let (here, more) = rest.split_at(1);
        note_keyword(place, &here[0], more, first);
        rest = more;
    }
}

#[tactic(auto, using(crate::proofs::FaultLemmas::first_after_append))]
fn note_keyword(place: Place, keyword: &Keyword, more: &[Keyword], first: &mut FirstFault)
    ensures { first.new.fault ≡ first_after first.old.fault (one_keyword_faults place keyword.now more.now) }
{
    let is_known = is_known(place, keyword);
    first.note_if(!is_known, keyword_fault(keyword, DdsCause::UnknownKeyword));
    first.note_if(
        is_known && !takes_arguments(keyword),
        keyword_fault(keyword, DdsCause::BadArguments),
    );
    first.note_keyword(repeated(is_known, keyword, more), DdsCause::Conflict);
}

/// The next keyword of the same name.
fn repeated<'a>(is_known: bool, keyword: &Keyword, more: &'a [Keyword]) -> Option<&'a Keyword>
    ensures { option_copied result ≡ repeated is_known keyword.now more.now }
{
    if is_known {
        first_named(keyword.name.as_bytes(), more)
    } else {
        None
    }
}

/// Whether the keyword takes its arguments.
fn takes_arguments(keyword: &Keyword) -> bool
    ensures { result ≡ takes_arguments keyword.now }
{
    let arguments = arguments_of(keyword);
    are_in_table(arguments) && fit_keyword(keyword, arguments)
}

fn fit_keyword(keyword: &Keyword, arguments: &[Argument]) -> bool
    ensures { result ≡ fit_keyword keyword.now arguments.now }
{
    if is_flag(keyword) {
        keyword.arguments.is_none()
    } else if has_name(b"REF", keyword) {
        is_file_reference(arguments)
    } else if has_name(b"REFFLD", keyword) {
        is_field_reference(arguments)
    } else if is_moment_format(keyword) {
        is_iso(arguments)
    } else if has_name(b"DFT", keyword) {
        is_one_literal(arguments)
    } else {
        true
    }
}

fn is_file_reference(arguments: &[Argument]) -> bool
    ensures { result ≡ is_file_reference arguments.now }
{
    match arguments {
        [file] => argument_name(file).is_some(),
        [file, format] => argument_name(file).is_some() && argument_name(format).is_some(),
        _ => false,
    }
}

fn is_field_reference(arguments: &[Argument]) -> bool
    ensures { result ≡ is_field_reference arguments.now }
{
    match arguments {
        [field] => argument_name(field).is_some(),
        [field, place] => {
            argument_name(field).is_some()
                && (argument_name(place).is_some() || is_special(b"*SRC", place))
        }
        _ => false,
    }
}

fn is_iso(arguments: &[Argument]) -> bool
    ensures { result ≡ is_iso arguments.now }
{
    match arguments {
        [form] => is_special(b"*ISO", form),
        _ => false,
    }
}

fn is_one_literal(arguments: &[Argument]) -> bool
    ensures { result ≡ is_one_literal arguments.now }
{
    match arguments {
        [literal] => is_literal(literal),
        _ => false,
    }
}

/// The name that an argument is.
pub(crate) fn argument_name(argument: &Argument) -> Option<Name>
    ensures { result ≡ argument_name argument.now }
{
    match argument {
        Argument::Name(name) => Some(*name),
        Argument::Number(_)
        | Argument::Special(_)
        | Argument::Word(_)
        | Argument::Quoted(_)
        | Argument::Hexadecimal(_) => None,
    }
}

/// Whether an argument is this word, which begins with an asterisk.
pub(crate) fn is_special(word: &[u8], argument: &Argument) -> bool
    ensures { result ≡ is_special word.now argument.now }
{
    match argument {
        Argument::Special(characters) => characters.as_bytes() == word,
        Argument::Name(_)
        | Argument::Number(_)
        | Argument::Word(_)
        | Argument::Quoted(_)
        | Argument::Hexadecimal(_) => false,
    }
}

fn is_literal(argument: &Argument) -> bool
    ensures { result ≡ is_literal argument.now }
{
    match argument {
        Argument::Number(_) | Argument::Quoted(_) | Argument::Hexadecimal(_) => true,
        Argument::Name(_) | Argument::Special(_) | Argument::Word(_) => false,
    }
}

fn are_in_table(arguments: &[Argument]) -> bool
    ensures { result ≡ list_all is_in_table arguments.now }
{
    arguments.iter().all(|argument| is_in_table(argument))
}

/// Whether each character of a literal is in the table of characters.
fn is_in_table(argument: &Argument) -> bool
    ensures { result ≡ is_in_table argument.now }
{
    match argument {
        Argument::Quoted(characters) => all_in_table(characters.as_bytes()),
        Argument::Name(_)
        | Argument::Number(_)
        | Argument::Special(_)
        | Argument::Word(_)
        | Argument::Hexadecimal(_) => true,
    }
}

fn all_in_table(characters: &[u8]) -> bool
    ensures { result ≡ list_all (λ c. is_some (ebcdic_of c)) characters.now }
{
    characters.iter().all(|&c| to_ebcdic_byte(c).is_some())
}
