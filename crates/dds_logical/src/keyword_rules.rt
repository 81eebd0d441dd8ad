//! What is wrong with the keywords of a place, and of the file.
ghost use Rattle.std.specs.Prelude.{◌≡◌, ◌++◌, ◌&&◌, not, codes, Option};
ghost use Rattle.std.specs.Option.{option_copied};
ghost use Rattle.dds_physical.specs.Faults.{first_after};
ghost use Rattle.dds_physical.specs.WholeFile.{other_order};
ghost use Rattle.dds_logical.specs.KeywordRules.{stands_at, stands_again, unknown_faults, argument_faults, twice_faults, logical_keyword_faults, refused_unique, file_conflicts};
ghost use Rattle.dds_logical.specs.Judged.{one_keyword_faults};

use crate::arguments::takes_its_arguments;
use crate::first::{FirstFault, keyword_fault};
use crate::keyword_names::{first_named, has_name, stands_at};
use crate::keyword_places::KeywordPlace;
use dds_physical::dds_source::faults::DdsCause;
use dds_physical::dds_source::keywords::Keyword;

/// Notes what is wrong with the keywords of a place.
pub(crate) fn note_keywords(
    is_join: bool,
    place: KeywordPlace,
    keywords: &[Keyword],
    first: &mut FirstFault,
)
    ensures { first.new.fault ≡ first_after first.old.fault (logical_keyword_faults is_join place keywords.now) }
{
    let mut rest = keywords;
    while !rest.is_empty() {
        let (here, more) = rest.split_at(1);
        note_keyword(is_join, place, &here[0], more, first);
        rest = more;
    }
}

#[tactic(auto, using(dds_physical::proofs::FaultLemmas::first_after_append), unfolding(crate::specs::Judged::one_keyword_faults))]
fn note_keyword(
    is_join: bool,
    place: KeywordPlace,
    keyword: &Keyword,
    more: &[Keyword],
    first: &mut FirstFault,
)
    ensures { first.new.fault ≡ first_after first.old.fault (one_keyword_faults (stands_at is_join place keyword.now) keyword.now more.now) }
{
    let is_known = stands_at(is_join, place, keyword);
    first.note_if(!is_known, keyword_fault(keyword, DdsCause::UnknownKeyword));
    first.note_if(
        is_known && !takes_its_arguments(keyword),
        keyword_fault(keyword, DdsCause::BadArguments),
    );
    note_twice(is_known, keyword, more, first);
}

/// Notes a known keyword that stands there again.
fn note_twice(is_known: bool, keyword: &Keyword, more: &[Keyword], first: &mut FirstFault)
    ensures { first.new.fault ≡ first_after first.old.fault (twice_faults is_known keyword.now more.now) }
{
    if is_known {
        first.note_keyword(stands_again(keyword, more), DdsCause::Conflict);
    }
}

/// The next keyword of the same name; JFLD may stand again.
fn stands_again<'a>(keyword: &Keyword, more: &'a [Keyword]) -> Option<&'a Keyword>
    ensures { option_copied result ≡ stands_again keyword.now more.now }
{
    if has_name(b"JFLD", keyword) {
        None
    } else {
        first_named(keyword.name.as_bytes(), more)
    }
}

/// Notes keywords of the file that exclude one another.
#[tactic(auto, using(dds_physical::proofs::FaultLemmas::first_after_append))]
pub(crate) fn note_conflicts(
    has_key: bool,
    is_multi: bool,
    keywords: &[Keyword],
    first: &mut FirstFault,
)
    ensures { first.new.fault ≡ first_after first.old.fault (file_conflicts has_key is_multi keywords.now) }
{
    first.note_keyword(other_order(keywords), DdsCause::Conflict);
    first.note_keyword(
        refused_unique(has_key, is_multi, keywords),
        DdsCause::Conflict,
    );
}

/// The first keyword that asks for the other order than one before it.
fn other_order(keywords: &[Keyword]) -> Option<&Keyword>
    ensures { option_copied result ≡ other_order keywords.now }
{
    let mut rest = keywords;
    while let [keyword, more @ ..] = rest {
        if has_name(b"FIFO", keyword) {
            return first_named(b"LIFO", more);
        }
        if has_name(b"LIFO", keyword) {
            return first_named(b"FIFO", more);
        }
        rest = more;
    }
    None
}

/// UNIQUE in a file without a key, or with several formats.
fn refused_unique(has_key: bool, is_multi: bool, keywords: &[Keyword]) -> Option<&Keyword>
    ensures { option_copied result ≡ refused_unique has_key is_multi keywords.now }
{
    if has_key && !is_multi {
        None
    } else {
        first_named(b"UNIQUE", keywords)
    }
}
