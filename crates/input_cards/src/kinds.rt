//! What a card says: a name, the order of the jobs' calls, or that the input ends.
ghost use Rattle.std.specs.Prelude.{◌≡◌, not};
ghost use Rattle.std.specs.List.{list_any};
ghost use Rattle.library_model.specs.Named.{same_name};
ghost use Rattle.input_cards.specs.CardFaults.{source_name, job_name, is_end, is_schedule, turns_in, names_unknown};

use crate::cards::{Card, Turns};
use crate::names::NameList;
use field_types::names::Name;

/// The name of a source.
pub fn source_name(card: &Option<Card>) -> Option<Name>
    ensures { result ≡ source_name card.now }
{
    match card {
        Some(Card::Source(name)) => Some(*name),
        Some(Card::Job(_) | Card::Schedule(_) | Card::End) | None => None,
    }
}

/// The name of a job.
pub fn job_name(card: &Option<Card>) -> Option<Name>
    ensures { result ≡ job_name card.now }
{
    match card {
        Some(Card::Job(name)) => Some(*name),
        Some(Card::Source(_) | Card::Schedule(_) | Card::End) | None => None,
    }
}

pub(crate) fn is_end(card: &Option<Card>) -> bool
    ensures { result ≡ is_end card.now }
{
    match card {
        Some(Card::End) => true,
        Some(Card::Source(_) | Card::Job(_) | Card::Schedule(_)) | None => false,
    }
}

pub(crate) fn is_schedule(card: &Option<Card>) -> bool
    ensures { result ≡ is_schedule card.now }
{
    match card {
        Some(Card::Schedule(_)) => true,
        Some(Card::Source(_) | Card::Job(_) | Card::End) | None => false,
    }
}

/// Whether the card asks for a call of a job that isn't among these.
pub(crate) fn names_unknown(card: &Option<Card>, jobs: &NameList) -> bool
    ensures { result ≡ names_unknown (turns_in card.now) jobs.now }
{
    match card {
        Some(Card::Schedule(turns)) => turns_unknown(turns, jobs),
        Some(Card::Source(_) | Card::Job(_) | Card::End) | None => false,
    }
}

fn turns_unknown(turns: &Turns, jobs: &NameList) -> bool
    ensures { result ≡ names_unknown (Some turns.now) jobs.now }
{
    match turns {
        Turns::Jobs(names) => any_unknown(names.as_slice(), jobs),
        Turns::RoundRobin => false,
    }
}

fn any_unknown(names: &[Name], jobs: &NameList) -> bool
    ensures { result ≡ list_any (λ name. not (list_any (same_name name) jobs.now)) names.now }
{
    names.iter().any(|name| !jobs.has(name))
}
