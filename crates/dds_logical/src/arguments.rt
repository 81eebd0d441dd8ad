//! What arguments are, and which of them each keyword takes.
ghost use Rattle.std.specs.Prelude.{◌≡◌, ◌≤◌, ◌<◌, ◌^◌, ◌&&◌, ◌||◌, ◌==◌, nat_le, length, codes, is_some, is_none, IfSome, Option};
ghost use Rattle.std.specs.List.{list_all};
ghost use Rattle.ebc_text.specs.CodePage.{ebcdic_of};
ghost use Rattle.dds_physical.specs.KeywordRules.{argument_name, is_special, is_literal, is_in_table};
ghost use Rattle.dds_logical.specs.KeywordArguments.{whole_of, whole_number, is_file_or_field, are_names, relation_named, relation_of, is_part, is_place_or_file, is_sequence, is_comparison, is_range, are_values, fit_join_keyword, fit_selection_keyword, fit_logical_keyword, takes_its_arguments};

use crate::keyword_names::{arguments_of, has_name, is_compare_keyword, is_logical_flag};
use crate::limits::MOST_JOINED;
use dds_physical::dds_source::arguments::Argument;
use dds_physical::dds_source::keywords::Keyword;
use ebc_text::to_ebcdic_byte;
use field_types::names::Name;
use field_types::values::Dec;
use file_model::rules::Relation;

/// The name that an argument is.
pub(crate) fn argument_name(argument: &Argument) -> Option<Name>
    ensures { result ≡ argument_name argument.now }
{
    match argument {
        Argument::Name(name) => Some(*name),
        Argument::Number(_)
        | Argument::Special(_)
        | Argument::Word(_)
        | Argument::Quoted(_)
        | Argument::Hexadecimal(_) => None,
    }
}

/// A number without a sign and without decimals.
fn whole_of(number: Dec) -> Option<u128>
    ensures value { result ≡ whole_of number }
    ensures bound { IfSome result (λ n. n < 2 ^ 127) }
{
    if number.scale == 0 {
        u128::try_from(number.units).ok()
    } else {
        None
    }
}

/// The number without a sign and without decimals that an argument is.
pub(crate) fn whole_number(argument: &Argument) -> Option<u128>
    ensures value { result ≡ whole_number argument.now }
    ensures bound { IfSome result (λ n. n < 2 ^ 127) }
{
    match argument {
        Argument::Number(number) => whole_of(*number),
        Argument::Name(_)
        | Argument::Special(_)
        | Argument::Word(_)
        | Argument::Quoted(_)
        | Argument::Hexadecimal(_) => None,
    }
}

fn is_whole(argument: &Argument) -> bool
    ensures { result ≡ is_some (whole_number argument.now) }
{
    whole_number(argument).is_some()
}

/// Whether an argument is this word, which begins with an asterisk.
pub(crate) fn is_special(word: &[u8], argument: &Argument) -> bool
    ensures { result ≡ is_special word.now argument.now }
{
    match argument {
        Argument::Special(characters) => characters.as_bytes() == word,
        Argument::Name(_)
        | Argument::Number(_)
        | Argument::Word(_)
        | Argument::Quoted(_)
        | Argument::Hexadecimal(_) => false,
    }
}

fn is_file_or_field(argument: &Argument) -> bool
    ensures { result ≡ is_file_or_field argument.now }
{
    argument_name(argument).is_some()
}

fn is_literal(argument: &Argument) -> bool
    ensures { result ≡ is_literal argument.now }
{
    match argument {
        Argument::Number(_) | Argument::Quoted(_) | Argument::Hexadecimal(_) => true,
        Argument::Name(_) | Argument::Special(_) | Argument::Word(_) => false,
    }
}

fn are_literals(arguments: &[Argument]) -> bool
    ensures { result ≡ list_all is_literal arguments.now }
{
    arguments.iter().all(|argument| is_literal(argument))
}

fn are_files_or_fields(arguments: &[Argument]) -> bool
    ensures { result ≡ list_all is_file_or_field arguments.now }
{
    arguments.iter().all(|argument| is_file_or_field(argument))
}

fn are_in_table(arguments: &[Argument]) -> bool
    ensures { result ≡ list_all is_in_table arguments.now }
{
    arguments.iter().all(|argument| is_in_table(argument))
}

/// Whether each character of a literal is in the table of characters.
fn is_in_table(argument: &Argument) -> bool
    ensures { result ≡ is_in_table argument.now }
{
    match argument {
        Argument::Quoted(characters) => all_in_table(characters.as_bytes()),
        Argument::Name(_)
        | Argument::Number(_)
        | Argument::Special(_)
        | Argument::Word(_)
        | Argument::Hexadecimal(_) => true,
    }
}

fn all_in_table(characters: &[u8]) -> bool
    ensures { result ≡ list_all (λ c. is_some (ebcdic_of c)) characters.now }
{
    characters.iter().all(|&c| to_ebcdic_byte(c).is_some())
}

/// As many names, at least and at most so many.
fn are_names(least: usize, most: usize, arguments: &[Argument]) -> bool
    ensures { result ≡ are_names least most arguments.now }
{
    are_files_or_fields(arguments) && least <= arguments.len() && arguments.len() <= most
}

fn relation_named(name: &[u8]) -> Option<Relation>
    ensures { result ≡ relation_named name.now }
{
    if name == b"EQ".as_slice() {
        Some(Relation::Equals)
    } else if name == b"NE".as_slice() {
        Some(Relation::Differs)
    } else if name == b"LT".as_slice() {
        Some(Relation::Below)
    } else if name == b"NL".as_slice() {
        Some(Relation::AtLeast)
    } else if name == b"GT".as_slice() {
        Some(Relation::Above)
    } else if name == b"NG".as_slice() {
        Some(Relation::AtMost)
    } else if name == b"LE".as_slice() {
        Some(Relation::AtMost)
    } else if name == b"GE".as_slice() {
        Some(Relation::AtLeast)
    } else {
        None
    }
}

/// The relation that an argument of COMP is.
pub(crate) fn relation_of(argument: &Argument) -> Option<Relation>
    ensures { result ≡ relation_of argument.now }
{
    match argument_name(argument) {
        Some(name) => relation_named(name.as_bytes()),
        None => None,
    }
}

fn is_part(arguments: &[Argument]) -> bool
    ensures { result ≡ is_part arguments.now }
{
    match arguments {
        [field, start] => is_file_or_field(field) && is_whole(start),
        [field, start, size] => is_file_or_field(field) && is_whole(start) && is_whole(size),
        _ => false,
    }
}

fn is_place_or_file(arguments: &[Argument]) -> bool
    ensures { result ≡ is_place_or_file arguments.now }
{
    match arguments {
        [file] => is_file_or_field(file) || is_whole(file),
        _ => false,
    }
}

fn is_sequence(arguments: &[Argument]) -> bool
    ensures { result ≡ is_sequence arguments.now }
{
    match arguments {
        [field] => is_file_or_field(field),
        [field, order] => is_file_or_field(field) && is_special(b"*DESCEND", order),
        _ => false,
    }
}

fn is_comparison(arguments: &[Argument]) -> bool
    ensures { result ≡ is_comparison arguments.now }
{
    match arguments {
        [relation, other] => {
            relation_of(relation).is_some() && (is_literal(other) || is_file_or_field(other))
        }
        _ => false,
    }
}

fn is_range(arguments: &[Argument]) -> bool
    ensures { result ≡ is_range arguments.now }
{
    are_literals(arguments) && arguments.len() == 2
}

fn are_values(arguments: &[Argument]) -> bool
    ensures { result ≡ are_values arguments.now }
{
    are_literals(arguments) && 1 <= arguments.len()
}

fn fit_join_keyword(keyword: &Keyword, arguments: &[Argument]) -> bool
    ensures { result ≡ fit_join_keyword keyword.now arguments.now }
{
    if has_name(b"JFILE", keyword) {
        are_names(2, MOST_JOINED, arguments)
    } else if has_name(b"JOIN", keyword) || has_name(b"JFLD", keyword) {
        are_names(2, 2, arguments)
    } else if has_name(b"JDUPSEQ", keyword) {
        is_sequence(arguments)
    } else if has_name(b"JREF", keyword) {
        is_place_or_file(arguments)
    } else {
        true
    }
}

fn fit_selection_keyword(keyword: &Keyword, arguments: &[Argument]) -> bool
    ensures { result ≡ fit_selection_keyword keyword.now arguments.now }
{
    if is_compare_keyword(keyword) {
        is_comparison(arguments)
    } else if has_name(b"RANGE", keyword) {
        is_range(arguments)
    } else if has_name(b"VALUES", keyword) {
        are_values(arguments)
    } else {
        fit_join_keyword(keyword, arguments)
    }
}

fn fit_keyword(keyword: &Keyword, arguments: &[Argument]) -> bool
    ensures { result ≡ fit_logical_keyword keyword.now arguments.now }
{
    if is_logical_flag(keyword) {
        keyword.arguments.is_none()
    } else if has_name(b"PFILE", keyword) || has_name(b"RENAME", keyword) {
        are_names(1, 1, arguments)
    } else if has_name(b"CONCAT", keyword) {
        are_names(1, arguments.len(), arguments)
    } else if has_name(b"SST", keyword) {
        is_part(arguments)
    } else {
        fit_selection_keyword(keyword, arguments)
    }
}

/// Whether the keyword takes its arguments.
pub(crate) fn takes_its_arguments(keyword: &Keyword) -> bool
    ensures { result ≡ takes_its_arguments keyword.now }
{
    let arguments = arguments_of(keyword);
    are_in_table(arguments) && fit_keyword(keyword, arguments)
}
