//! Keywords by their names and arguments, and which of them stand where.
ghost use Rattle.std.specs.Prelude.{◌≡◌, ◌||◌, true, false, if◌then◌else◌};
ghost use Rattle.dds_logical.specs.declared.keyword_places.KeywordPlace.TheVariants as places;
ghost use Rattle.std.specs.Option.{option_copied};
ghost use Rattle.dds_physical.specs.Keywords.{has_name, first_named, is_there, is_flag, is_heading, arguments_of};
ghost use Rattle.dds_logical.specs.KeywordArguments.{is_compare_keyword, is_logical_flag};
ghost use Rattle.dds_logical.specs.KeywordRules.{is_file_keyword, is_files_keyword, is_origin_keyword, is_logical_field_keyword, is_selection_keyword, stands_at};

use crate::keyword_places::KeywordPlace;
use dds_physical::dds_source::arguments::Argument;
use dds_physical::dds_source::keywords::Keyword;

/// Whether the keyword has this name.
pub(crate) fn has_name(name: &[u8], keyword: &Keyword) -> bool
    ensures { result ≡ has_name name.now keyword.now }
{
    keyword.name.as_bytes() == name
}

/// The first keyword of this name.
pub(crate) fn first_named<'a>(name: &[u8], keywords: &'a [Keyword]) -> Option<&'a Keyword>
    ensures { option_copied result ≡ first_named name.now keywords.now }
{
    let mut rest = keywords;
    while let [keyword, more @ ..] = rest {
        if has_name(name, keyword) {
            return Some(keyword);
        }
        rest = more;
    }
    None
}

/// Whether there is a keyword of this name.
pub(crate) fn is_there(name: &[u8], keywords: &[Keyword]) -> bool
    ensures { result ≡ is_there name.now keywords.now }
{
    first_named(name, keywords).is_some()
}

/// The arguments of a keyword; none where it has no parentheses.
pub(crate) fn arguments_of(keyword: &Keyword) -> &[Argument]
    ensures { result.now ≡ arguments_of keyword.now }
{
    match &keyword.arguments {
        Some(arguments) => arguments.as_slice(),
        None => &[],
    }
}

/// Whether it takes no arguments.
pub(crate) fn is_logical_flag(keyword: &Keyword) -> bool
    ensures { result ≡ is_logical_flag keyword.now }
{
    is_flag(keyword)
        || has_name(b"DYNSLT", keyword)
        || has_name(b"JDFTVAL", keyword)
        || has_name(b"ALL", keyword)
}

fn is_flag(keyword: &Keyword) -> bool
    ensures { result ≡ is_flag keyword.now }
{
    has_name(b"UNIQUE", keyword)
        || has_name(b"FIFO", keyword)
        || has_name(b"LIFO", keyword)
        || is_key_keyword(keyword)
}

fn is_key_keyword(keyword: &Keyword) -> bool
    ensures { result ≡ stands_at false places.Key keyword.now }
{
    has_name(b"DESCEND", keyword) || has_name(b"ABSVAL", keyword) || has_name(b"SIGNED", keyword)
}

/// Whether it is a text or a heading.
pub(crate) fn is_heading(keyword: &Keyword) -> bool
    ensures { result ≡ is_heading keyword.now }
{
    has_name(b"TEXT", keyword) || has_name(b"COLHDG", keyword)
}

/// Whether it is COMP, or CMP, which is the same.
pub(crate) fn is_compare_keyword(keyword: &Keyword) -> bool
    ensures { result ≡ is_compare_keyword keyword.now }
{
    has_name(b"COMP", keyword) || has_name(b"CMP", keyword)
}

fn is_file_keyword(keyword: &Keyword) -> bool
    ensures { result ≡ is_file_keyword keyword.now }
{
    has_name(b"UNIQUE", keyword)
        || has_name(b"FIFO", keyword)
        || has_name(b"LIFO", keyword)
        || has_name(b"DYNSLT", keyword)
        || has_name(b"JDFTVAL", keyword)
}

fn is_record_keyword(is_join: bool, keyword: &Keyword) -> bool
    ensures { result ≡ stands_at is_join places.Record keyword.now }
{
    is_files_keyword(is_join, keyword) || has_name(b"TEXT", keyword)
}

fn is_files_keyword(is_join: bool, keyword: &Keyword) -> bool
    ensures { result ≡ is_files_keyword is_join keyword.now }
{
    if is_join {
        has_name(b"JFILE", keyword)
    } else {
        has_name(b"PFILE", keyword)
    }
}

fn is_join_keyword(keyword: &Keyword) -> bool
    ensures { result ≡ stands_at true places.Join keyword.now }
{
    has_name(b"JOIN", keyword) || has_name(b"JFLD", keyword) || has_name(b"JDUPSEQ", keyword)
}

fn is_origin_keyword(keyword: &Keyword) -> bool
    ensures { result ≡ is_origin_keyword keyword.now }
{
    has_name(b"RENAME", keyword)
        || has_name(b"CONCAT", keyword)
        || has_name(b"SST", keyword)
        || has_name(b"JREF", keyword)
}

fn is_field_keyword(keyword: &Keyword) -> bool
    ensures { result ≡ is_logical_field_keyword keyword.now }
{
    is_origin_keyword(keyword)
        || is_heading(keyword)
        || has_name(b"EDTCDE", keyword)
        || has_name(b"EDTWRD", keyword)
}

fn is_selection_keyword(keyword: &Keyword) -> bool
    ensures { result ≡ is_selection_keyword keyword.now }
{
    is_compare_keyword(keyword)
        || has_name(b"RANGE", keyword)
        || has_name(b"VALUES", keyword)
        || has_name(b"ALL", keyword)
}

/// Whether the keyword may stand there.
pub(crate) fn stands_at(is_join: bool, place: KeywordPlace, keyword: &Keyword) -> bool
    ensures { result ≡ stands_at is_join place keyword.now }
{
    match place {
        KeywordPlace::File => is_file_keyword(keyword),
        KeywordPlace::Record => is_record_keyword(is_join, keyword),
        KeywordPlace::Join => is_join_keyword(keyword),
        KeywordPlace::Field => is_field_keyword(keyword),
        KeywordPlace::Key => is_key_keyword(keyword),
        KeywordPlace::Selection => is_selection_keyword(keyword),
    }
}
