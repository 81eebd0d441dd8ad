//! The order of keys: FIFO and LIFO, DESCEND and ABSVAL; records without a key; equal keys.
ghost use Rattle.std.specs.Prelude.{◌≡◌, List, [], ◌∷◌, ◌++◌, Some, None, true, false, codes};
ghost use Rattle.key_spec.specs.declared.Ties.TheVariants.{Rising, Falling};
ghost use Rattle.key_spec.specs.declared.KeyPart.TheVariants.{Field};
ghost use Rattle.member_slots.specs.declared.slot.Slot.TheVariants.{Live, Deleted};
ghost use Rattle.file_model.specs.Paths.{repeated_in};
ghost use Rattle.file_model.specs.Positions.{Start};
ghost use Rattle.file_rows.specs.Files.{number, minus, of_records, of_slots, three_digits, characters, field_at, part_at, format_of, one_format, by_number, two_formats, keyed, unkeyed, all_records};
ghost use Rattle.file_rows.specs.Found.{rrns_of, places_of, reading_of, reads, numbers};

/// Records -5, 5 and -7 by a key with DESCEND and ABSVAL, with LIFO; the fourth READ finds no record.
pub fn last_in_first_out()
    ensures { let members = of_records 1 (minus 5 ∷ number 5 ∷ minus 7 ∷ []) ∷ [] in
        numbers (reads 4 (reading_of (by_number true true Falling) members) Start) ≡ Some 3 ∷ Some 2 ∷ Some 1 ∷ None ∷ [] }
{}

/// Each of DESCEND, ABSVAL and LIFO by itself, over -5, 5, -7 and 5.
pub fn one_keyword()
    ensures none { let members = of_records 1 (minus 5 ∷ number 5 ∷ minus 7 ∷ number 5 ∷ []) ∷ [] in rrns_of (by_number false false Rising) members ≡ 3 ∷ 1 ∷ 2 ∷ 4 ∷ [] }
    ensures descend { let members = of_records 1 (minus 5 ∷ number 5 ∷ minus 7 ∷ number 5 ∷ []) ∷ [] in rrns_of (by_number true false Rising) members ≡ 2 ∷ 4 ∷ 1 ∷ 3 ∷ [] }
    ensures absval { let members = of_records 1 (minus 5 ∷ number 5 ∷ minus 7 ∷ number 5 ∷ []) ∷ [] in rrns_of (by_number false true Rising) members ≡ 1 ∷ 2 ∷ 4 ∷ 3 ∷ [] }
    ensures lifo { let members = of_records 1 (minus 5 ∷ number 5 ∷ minus 7 ∷ number 5 ∷ []) ∷ [] in rrns_of (by_number false false Falling) members ≡ 3 ∷ 1 ∷ 4 ∷ 2 ∷ [] }
{}

/// Two positions, the second descending; a deleted record is not in the path.
pub fn two_positions()
    ensures { let spec = one_format false Rising (format_of 1 all_records (field_at (characters 1) 0 ∷ field_at three_digits 1 ∷ [])
        (part_at (characters 1) 0 ∷ Field three_digits 1 true false ∷ [])) in
        rrns_of spec (of_slots 1 (Live (codes "B" ++ number 1) ∷ Live (codes "A" ++ number 1) ∷ Deleted ∷ Live (codes "A" ++ number 2) ∷ []) ∷ []) ≡ 4 ∷ 2 ∷ 1 ∷ [] }
{}

/// Characters order by their bytes without signs, and numbers by value: minus zero is zero.
pub fn bytes_and_values()
    ensures bytes { let spec = one_format false Rising (format_of 1 all_records (field_at (characters 1) 0 ∷ []) (part_at (characters 1) 0 ∷ [])) in
        rrns_of spec (of_records 1 ((0xC1 ∷ []) ∷ (0x40 ∷ []) ∷ (0xFF ∷ []) ∷ (0x7F ∷ []) ∷ []) ∷ []) ≡ 2 ∷ 4 ∷ 1 ∷ 3 ∷ [] }
    ensures zero { rrns_of (by_number false false Rising) (of_records 1 (number 0 ∷ minus 0 ∷ minus 1 ∷ []) ∷ []) ≡ 3 ∷ 1 ∷ 2 ∷ [] }
{}

/// A path without a key is in the order of relative record numbers.
pub fn no_key()
    ensures { rrns_of (one_format false Rising (format_of 1 all_records [] [])) (of_slots 1 (Live (codes "B") ∷ Deleted ∷ Live (codes "A") ∷ []) ∷ []) ≡ 1 ∷ 3 ∷ [] }
{}

/// A deleted record comes back while another has its key: the least that has it again is named.
pub fn unique_key()
    ensures repeated { let spec = one_format true Rising (format_of 1 all_records (field_at (characters 1) 0 ∷ []) (part_at (characters 1) 0 ∷ [])) in
        repeated_in spec (of_records 1 (codes "A" ∷ codes "A" ∷ []) ∷ []) ≡ Some 1 }
    ensures later { let spec = one_format true Rising (format_of 1 all_records (field_at (characters 1) 0 ∷ []) (part_at (characters 1) 0 ∷ [])) in
        repeated_in spec (of_records 1 (codes "C" ∷ codes "B" ∷ codes "A" ∷ codes "B" ∷ codes "A" ∷ []) ∷ []) ≡ Some 2 }
    ensures free { let spec = one_format true Rising (format_of 1 all_records (field_at (characters 1) 0 ∷ []) (part_at (characters 1) 0 ∷ [])) in
        repeated_in spec (of_slots 1 (Deleted ∷ Live (codes "A") ∷ []) ∷ []) ≡ None }
{}

/// A position that a format lacks comes first where values descend, too.
pub fn missing_position()
    ensures behind { places_of (two_formats keyed unkeyed) (of_records 1 (number 1 ∷ number 2 ∷ []) ∷ of_records 2 (number 3 ∷ []) ∷ []) ≡ (1, 1) ∷ (0, 2) ∷ (0, 1) ∷ [] }
    ensures in_front { places_of (two_formats unkeyed keyed) (of_records 1 (number 1 ∷ number 2 ∷ []) ∷ of_records 2 (number 3 ∷ []) ∷ []) ≡ (0, 1) ∷ (1, 2) ∷ (1, 1) ∷ [] }
{}
