//! What the library's journal rests on, from the laws of the definitions. Nothing runs here: the function is empty, and its contract is the laws.
ghost use Rattle.library_core.specs.Laws.{DepositsBegin, DepositsStay, EntriesAreSpelled, EntriesMayWait, PlacesBegin, PlacesLast};

use block_places::places_suffice;
use journal_fronts::deposited_entries::{
    deposits_are_inside, deposits_are_numbered, deposits_fit_a_block, deposits_have_spellings,
    groups_stay_within, numbers_stay_counted, sequences_suffice,
};

/// What each call deposits may wait in the journal until it is forced, and there are block places for what is forced.
pub(crate) fn journal_lasts()
    ensures wait { EntriesMayWait }
    ensures spelled { EntriesAreSpelled }
    ensures begin { DepositsBegin }
    ensures stay { DepositsStay }
    ensures places { PlacesLast }
    ensures begin_places { PlacesBegin }
{
    deposits_are_numbered();
    deposits_are_inside();
    deposits_have_spellings();
    deposits_fit_a_block();
    sequences_suffice();
    numbers_stay_counted();
    groups_stay_within();
    places_suffice();
}
