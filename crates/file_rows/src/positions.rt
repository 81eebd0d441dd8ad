//! Where an open stands, and what each read finds from there.
ghost use Rattle.std.specs.Prelude.{◌≡◌, List, [], ◌∷◌, Some, None, true, false};
ghost use Rattle.std.specs.Option.{option_map};
ghost use Rattle.key_spec.specs.declared.Ties.TheVariants.{Rising};
ghost use Rattle.member_slots.specs.declared.slot.Slot.TheVariants.{Live, Deleted};
ghost use Rattle.file_model.specs.KeyOrder.{KeyValue, Ascending, Descending};
ghost use Rattle.file_model.specs.Positions.{Start, End, On, Before, Past, KeyBound, NumberBound, next_from, prior_from, next_equal, prior_equal, chain_key, chain_number, arrival_reading};
ghost use Rattle.file_rows.specs.Files.{tens, by_number, number, of_records, whole, member_with};
ghost use Rattle.file_rows.specs.Found.{reading_of, rrn_of, reads, reads_back, numbers};

/// SETLL and SETGT to a key of 20, over keys 10, 20 and 30.
pub fn around_a_key()
    ensures lower { option_map rrn_of (next_from (reading_of (by_number false false Rising) tens) (Before (KeyBound (Ascending (whole 20) ∷ [])))) ≡ Some 2 }
    ensures greater { option_map rrn_of (next_from (reading_of (by_number false false Rising) tens) (Past (KeyBound (Ascending (whole 20) ∷ [])))) ≡ Some 3 }
    ensures lower_back { option_map rrn_of (prior_from (reading_of (by_number false false Rising) tens) (Before (KeyBound (Ascending (whole 20) ∷ [])))) ≡ Some 1 }
    ensures greater_back { option_map rrn_of (prior_from (reading_of (by_number false false Rising) tens) (Past (KeyBound (Ascending (whole 20) ∷ [])))) ≡ Some 2 }
    // No record has the key.
    ensures between { option_map rrn_of (next_from (reading_of (by_number false false Rising) tens) (Before (KeyBound (Ascending (whole 15) ∷ [])))) ≡ Some 2 }
    ensures between_past { option_map rrn_of (next_from (reading_of (by_number false false Rising) tens) (Past (KeyBound (Ascending (whole 15) ∷ [])))) ≡ Some 2 }
    ensures above_all { option_map rrn_of (next_from (reading_of (by_number false false Rising) tens) (Before (KeyBound (Ascending (whole 31) ∷ [])))) ≡ None }
    // A key that descends.
    ensures descending { option_map rrn_of (next_from (reading_of (by_number true false Rising) tens) (Before (KeyBound (Descending (whole 25) ∷ [])))) ≡ Some 2 }
{}

/// *LOVAL and *HIVAL.
pub fn at_the_ends()
    ensures all { numbers (reads 4 (reading_of (by_number false false Rising) tens) Start) ≡ Some 1 ∷ Some 2 ∷ Some 3 ∷ None ∷ [] }
    ensures all_back { numbers (reads_back 4 (reading_of (by_number false false Rising) tens) End) ≡ Some 3 ∷ Some 2 ∷ Some 1 ∷ None ∷ [] }
    ensures none_after { option_map rrn_of (next_from (reading_of (by_number false false Rising) tens) End) ≡ None }
    ensures none_before { option_map rrn_of (prior_from (reading_of (by_number false false Rising) tens) Start) ≡ None }
{}

/// READE and READPE find the entry that READ and READP would find, where its key is equal, and no other one.
pub fn equal_keys()
    // On 30, no record is behind.
    ensures on_last { option_map rrn_of (next_equal (reading_of (by_number false false Rising) tens) (Ascending (whole 20) ∷ [])
        (On (record { key = Ascending (whole 30) ∷ []; format = 0; rrn = 3 }))) ≡ None }
    ensures back_from_last { option_map rrn_of (prior_from (reading_of (by_number false false Rising) tens)
        (On (record { key = Ascending (whole 30) ∷ []; format = 0; rrn = 3 }))) ≡ Some 2 }
    ensures not_the_next { option_map rrn_of (next_equal (reading_of (by_number false false Rising) tens) (Ascending (whole 20) ∷ []) Start) ≡ None }
    ensures the_next { option_map rrn_of (next_equal (reading_of (by_number false false Rising) tens) (Ascending (whole 20) ∷ []) (Before (KeyBound (Ascending (whole 20) ∷ [])))) ≡ Some 2 }
    ensures the_prior { option_map rrn_of (prior_equal (reading_of (by_number false false Rising) tens) (Ascending (whole 20) ∷ []) (Past (KeyBound (Ascending (whole 20) ∷ [])))) ≡ Some 2 }
    ensures chained { option_map rrn_of (chain_key (reading_of (by_number false false Rising) tens) (Ascending (whole 20) ∷ [])) ≡ Some 2 }
    ensures not_chained { option_map rrn_of (chain_key (reading_of (by_number false false Rising) tens) (Ascending (whole 25) ∷ [])) ≡ None }
{}

/// A position keeps the key that was read, though the record now has another one.
pub fn key_that_has_moved()
    ensures { let members = of_records 1 (number 40 ∷ number 20 ∷ number 30 ∷ []) ∷ [] in
        option_map rrn_of (next_from (reading_of (by_number false false Rising) members) (On (record { key = Ascending (whole 10) ∷ []; format = 0; rrn = 1 }))) ≡ Some 2 }
{}

/// Arrival order, with a deleted record.
pub fn arrival_order()
    ensures all { numbers (reads 3 (arrival_reading (member_with (Live (number 3) ∷ Deleted ∷ Live (number 1) ∷ []))) Start) ≡ Some 1 ∷ Some 3 ∷ None ∷ [] }
    ensures before { option_map rrn_of (next_from (arrival_reading (member_with (Live (number 3) ∷ Deleted ∷ Live (number 1) ∷ []))) (Before (NumberBound 2))) ≡ Some 3 }
    ensures past { option_map rrn_of (next_from (arrival_reading (member_with (Live (number 3) ∷ Deleted ∷ Live (number 1) ∷ []))) (Past (NumberBound 1))) ≡ Some 3 }
    ensures back { option_map rrn_of (prior_from (arrival_reading (member_with (Live (number 3) ∷ Deleted ∷ Live (number 1) ∷ []))) (Before (NumberBound 3))) ≡ Some 1 }
    ensures chained { option_map rrn_of (chain_number (arrival_reading (member_with (Live (number 3) ∷ Deleted ∷ Live (number 1) ∷ []))) 3) ≡ Some 3 }
    ensures not_chained { option_map rrn_of (chain_number (arrival_reading (member_with (Live (number 3) ∷ Deleted ∷ Live (number 1) ∷ []))) 2) ≡ None }
{}
