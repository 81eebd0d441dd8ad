//! Several formats in one order: headers and details.
ghost use Rattle.std.specs.Prelude.{◌≡◌, List, [], ◌∷◌, Some, None, ◌++◌};
ghost use Rattle.std.specs.Option.{option_map};
ghost use Rattle.key_spec.specs.declared.KeyPart.TheVariants.{Absent};
ghost use Rattle.key_spec.specs.declared.Ties.TheVariants.{Rising, Falling};
ghost use Rattle.file_model.specs.KeyOrder.{given_key, merged_parts};
ghost use Rattle.file_model.specs.Positions.{Start, Before, KeyBound, chain_key, next_from};
ghost use Rattle.file_rows.specs.Files.{two_formats, keyed, keyed_over, headers_and_details, orders_with_lines, number, of_records, whole, part_at, three_digits};
ghost use Rattle.file_rows.specs.Found.{places_of, place_of, reading_of};

/// Each header comes before its details, which have a line.
pub fn headers_before_details()
    ensures path { places_of (headers_and_details Rising) orders_with_lines ≡ (0, 1) ∷ (1, 2) ∷ (1, 1) ∷ (0, 2) ∷ (1, 3) ∷ [] }
    // Headers of one order, the last record first.
    ensures lifo { places_of (headers_and_details Falling) (of_records 1 (number 1 ∷ number 1 ∷ []) ∷ of_records 2 ((number 1 ++ number 1) ∷ (number 1 ++ number 1) ∷ []) ∷ [])
        ≡ (0, 2) ∷ (0, 1) ∷ (1, 2) ∷ (1, 1) ∷ [] }
{}

/// A key that a request gives: the file has a line at the second position, though headers lack it.
pub fn given_keys()
    ensures positions { merged_parts ((part_at three_digits 0 ∷ Absent ∷ []) ∷ (part_at three_digits 0 ∷ part_at three_digits 2 ∷ []) ∷ []) ≡ part_at three_digits 0 ∷ part_at three_digits 2 ∷ [] }
    ensures order { let key = given_key (part_at three_digits 0 ∷ part_at three_digits 2 ∷ []) (whole 2 ∷ []) in
        option_map place_of (chain_key (reading_of (headers_and_details Rising) orders_with_lines) key) ≡ Some (0, 2) }
    ensures line { let key = given_key (part_at three_digits 0 ∷ part_at three_digits 2 ∷ []) (whole 1 ∷ whole 1 ∷ []) in
        option_map place_of (chain_key (reading_of (headers_and_details Rising) orders_with_lines) key) ≡ Some (1, 2) }
    ensures before { let key = given_key (part_at three_digits 0 ∷ part_at three_digits 2 ∷ []) (whole 1 ∷ whole 2 ∷ []) in
        option_map place_of (next_from (reading_of (headers_and_details Rising) orders_with_lines) (Before (KeyBound key))) ≡ Some (1, 1) }
{}

/// Equal keys go by format before they go by relative record number.
pub fn equal_keys_of_two_formats()
    ensures first_in { places_of (two_formats keyed (keyed_over 2)) (of_records 1 (number 5 ∷ number 5 ∷ []) ∷ of_records 2 (number 5 ∷ []) ∷ []) ≡ (0, 1) ∷ (0, 2) ∷ (1, 1) ∷ [] }
    ensures last_first { places_of (record (two_formats keyed (keyed_over 2)) { ties = Falling }) (of_records 1 (number 5 ∷ []) ∷ of_records 2 (number 5 ∷ number 5 ∷ []) ∷ []) ≡ (0, 1) ∷ (1, 2) ∷ (1, 1) ∷ [] }
{}
