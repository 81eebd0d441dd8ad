//! Keywords by their names, and which of them stand where.
ghost use Rattle.std.specs.Prelude.{◌≡◌, ◌||◌, drop};
ghost use Rattle.std.specs.Option.{option_copied};
ghost use Rattle.dds_physical.specs.Keywords.{has_name, first_named, is_flag, is_heading, is_edit, is_comparison, is_moment_format, is_field_keyword, is_known, arguments_of};

use dds_source::arguments::Argument;
use dds_source::keywords::Keyword;

/// Where a keyword stands.
#[derive(Clone, Copy)]
pub(crate) enum Place {
    File,
    Record,
    Field,
    Key,
}

/// Whether the keyword has this name.
pub(crate) fn has_name(name: &[u8], keyword: &Keyword) -> bool
    ensures { result ≡ has_name name.now keyword.now }
{
    keyword.name.as_bytes() == name
}

/// The first keyword of this name.
pub(crate) fn first_named<'a>(name: &[u8], keywords: &'a [Keyword]) -> Option<&'a Keyword>
    ensures { option_copied result ≡ first_named name.now keywords.now }
{
    let mut rest = keywords;
    while let [keyword, more @ ..] = rest {
        if has_name(name, keyword) {
            return Some(keyword);
        }
        rest = more;
    }
    None
}

/// The arguments of a keyword; none where it has no parentheses.
pub(crate) fn arguments_of(keyword: &Keyword) -> &[Argument]
    ensures { result.now ≡ arguments_of keyword.now }
{
    match &keyword.arguments {
        Some(arguments) => arguments.as_slice(),
        None => &[],
    }
}

/// Whether it takes no arguments.
pub(crate) fn is_flag(keyword: &Keyword) -> bool
    ensures { result ≡ is_flag keyword.now }
{
    has_name(b"UNIQUE", keyword)
        || has_name(b"FIFO", keyword)
        || has_name(b"LIFO", keyword)
        || is_key_keyword(keyword)
}

fn is_key_keyword(keyword: &Keyword) -> bool
    ensures { result ≡ is_known Place.Key keyword.now }
{
    has_name(b"DESCEND", keyword) || has_name(b"ABSVAL", keyword) || has_name(b"SIGNED", keyword)
}

/// Whether it is a text or a heading.
pub(crate) fn is_heading(keyword: &Keyword) -> bool
    ensures { result ≡ is_heading keyword.now }
{
    has_name(b"TEXT", keyword) || has_name(b"COLHDG", keyword)
}

fn is_edit(keyword: &Keyword) -> bool
    ensures { result ≡ is_edit keyword.now }
{
    has_name(b"EDTCDE", keyword) || has_name(b"EDTWRD", keyword) || has_name(b"CHECK", keyword)
}

fn is_comparison(keyword: &Keyword) -> bool
    ensures { result ≡ is_comparison keyword.now }
{
    has_name(b"COMP", keyword)
        || has_name(b"CMP", keyword)
        || has_name(b"RANGE", keyword)
        || has_name(b"VALUES", keyword)
}

/// Whether it is the form of a date or a time.
pub(crate) fn is_moment_format(keyword: &Keyword) -> bool
    ensures { result ≡ is_moment_format keyword.now }
{
    has_name(b"DATFMT", keyword) || has_name(b"TIMFMT", keyword)
}

fn is_field_keyword(keyword: &Keyword) -> bool
    ensures { result ≡ is_field_keyword keyword.now }
{
    is_heading(keyword)
        || is_edit(keyword)
        || is_comparison(keyword)
        || is_moment_format(keyword)
        || has_name(b"DFT", keyword)
        || has_name(b"REFFLD", keyword)
}

fn is_file_keyword(keyword: &Keyword) -> bool
    ensures { result ≡ is_known Place.File keyword.now }
{
    has_name(b"UNIQUE", keyword)
        || has_name(b"FIFO", keyword)
        || has_name(b"LIFO", keyword)
        || has_name(b"REF", keyword)
}

/// Whether the keyword may stand there.
pub(crate) fn is_known(place: Place, keyword: &Keyword) -> bool
    ensures { result ≡ is_known place keyword.now }
{
    match place {
        Place::File => is_file_keyword(keyword),
        Place::Record => has_name(b"TEXT", keyword),
        Place::Field => is_field_keyword(keyword),
        Place::Key => is_key_keyword(keyword),
    }
}
