//! Select and omit statements, and a key that is unique among the selected records.
ghost use Rattle.std.specs.Prelude.{◌≡◌, List, [], ◌∷◌, Some, None, true, false, codes};
ghost use Rattle.key_spec.specs.declared.Ties.TheVariants.{Rising};
ghost use Rattle.file_model.specs.declared.rules.Relation.TheVariants.{Equals, Differs, Below, AtMost, Above, AtLeast};
ghost use Rattle.file_model.specs.declared.rules.Test.TheVariants.{Literal, Field, Range, Values};
ghost use Rattle.file_model.specs.declared.rules.Choice.TheVariants.{Select, Omit};
ghost use Rattle.file_model.specs.Paths.{clash, repeated_in};
ghost use Rattle.file_model.specs.Selection.{selects};
ghost use Rattle.file_rows.specs.Files.{three_digits, characters, field_at, part_at, format_of, one_format, number, minus, whole, text, of_records, all_records};
ghost use Rattle.file_rows.specs.Rules.{letter, amount, of_letter, condition, statement, rules, one_test, x_or_not_above_ten, lettered};
ghost use Rattle.file_rows.specs.Found.{rrns_of};

/// The first statement that holds decides, and the rest gets the opposite of the last one, or what ALL says.
pub fn select_then_omit()
    ensures no_all { rrns_of (one_format false Rising (format_of 1 (rules x_or_not_above_ten None) [] [])) lettered ≡ 1 ∷ 3 ∷ [] }
    ensures select_all { rrns_of (one_format false Rising (format_of 1 (rules x_or_not_above_ten (Some Select)) [] [])) lettered ≡ 1 ∷ 3 ∷ [] }
    ensures omit_all { rrns_of (one_format false Rising (format_of 1 (rules x_or_not_above_ten (Some Omit)) [] [])) lettered ≡ 1 ∷ [] }
    ensures no_statements { rrns_of (one_format false Rising (format_of 1 (rules [] None) [] [])) lettered ≡ 1 ∷ 2 ∷ 3 ∷ [] }
    ensures all_alone { rrns_of (one_format false Rising (format_of 1 (rules [] (Some Omit)) [] [])) lettered ≡ [] }
    // One select statement omits the rest.
    ensures select_alone { rrns_of (one_format false Rising (format_of 1 (one_test Select letter (Literal Equals (text (codes "X")))) [] [])) lettered ≡ 1 ∷ [] }
    ensures omit_alone { rrns_of (one_format false Rising (format_of 1 (one_test Omit letter (Literal Equals (text (codes "X")))) [] [])) lettered ≡ 2 ∷ 3 ∷ [] }
{}

/// The conditions of a statement hold together. A statement without any holds of each record.
pub fn conditions_together()
    ensures both { let both = statement Select (condition letter (Literal Equals (text (codes "Y"))) ∷ condition amount (Literal Above (whole 10)) ∷ []) ∷ [] in
        rrns_of (one_format false Rising (format_of 1 (rules both None) [] [])) lettered ≡ 2 ∷ [] }
    ensures none { rrns_of (one_format false Rising (format_of 1 (rules (statement Omit [] ∷ []) (Some Select)) [] [])) lettered ≡ [] }
{}

/// Each test, over the record ('Y', 5).
pub fn tests()
    ensures equals { selects (one_test Select amount (Literal Equals (whole 5))) (of_letter (codes "Y") 5) ≡ true }
    ensures differs { selects (one_test Select amount (Literal Differs (whole 5))) (of_letter (codes "Y") 5) ≡ false }
    ensures below { selects (one_test Select amount (Literal Below (whole 5))) (of_letter (codes "Y") 5) ≡ false }
    ensures at_most { selects (one_test Select amount (Literal AtMost (whole 5))) (of_letter (codes "Y") 5) ≡ true }
    ensures above { selects (one_test Select amount (Literal Above (whole 4))) (of_letter (codes "Y") 5) ≡ true }
    ensures at_least { selects (one_test Select amount (Literal AtLeast (whole 6))) (of_letter (codes "Y") 5) ≡ false }
    ensures range_low { selects (one_test Select amount (Range (whole 5) (whole 7))) (of_letter (codes "Y") 5) ≡ true }
    ensures range_high { selects (one_test Select amount (Range (whole 3) (whole 5))) (of_letter (codes "Y") 5) ≡ true }
    ensures range_outside { selects (one_test Select amount (Range (whole 6) (whole 7))) (of_letter (codes "Y") 5) ≡ false }
    ensures values { selects (one_test Select letter (Values (text (codes "X") ∷ text (codes "Y") ∷ []))) (of_letter (codes "Y") 5) ≡ true }
    ensures no_value { selects (one_test Select letter (Values (text (codes "X") ∷ text (codes "Z") ∷ []))) (of_letter (codes "Y") 5) ≡ false }
{}

/// A shorter text counts as followed by blanks; a field is compared with another one.
pub fn compared()
    ensures blanks { selects (one_test Select (field_at (characters 3) 0) (Literal Equals (text (0xC1 ∷ [])))) (0xC1 ∷ 0x40 ∷ 0x40 ∷ []) ≡ true }
    ensures below_blanks { selects (one_test Select (field_at (characters 2) 0) (Literal Below (text (0xC1 ∷ [])))) (0xC1 ∷ 0x3F ∷ []) ≡ true }
    ensures fields { selects (one_test Select (field_at three_digits 0) (Field Below (field_at three_digits 2))) (0x00 ∷ 0x5D ∷ 0x00 ∷ 0x4F ∷ []) ≡ true }
    ensures texts { selects (one_test Select (field_at (characters 1) 0) (Field Equals (field_at (characters 2) 1))) (0xC1 ∷ 0xC1 ∷ 0xC2 ∷ []) ≡ false }
{}

/// A logical file by number, UNIQUE, that omits 'D': records (1, 'A') and (1, 'D') may stand together, and a second
/// (1, 'A') may not.
pub fn unique_among_selected()
    ensures together { let omits_d = one_test Omit letter (Literal Equals (text (codes "D"))) in
        repeated_in (one_format true Rising (format_of 1 omits_d (amount ∷ []) (part_at three_digits 0 ∷ []))) (of_records 1 (of_letter (codes "A") 1 ∷ of_letter (codes "D") 1 ∷ []) ∷ []) ≡ None }
    ensures refused { let omits_d = one_test Omit letter (Literal Equals (text (codes "D"))) in
        clash (format_of 1 omits_d (amount ∷ []) (part_at three_digits 0 ∷ [])) (of_records 1 (of_letter (codes "A") 1 ∷ of_letter (codes "D") 1 ∷ []) ∷ []) (of_letter (codes "A") 1) 2 ≡ Some 1 }
    ensures omitted { let omits_d = one_test Omit letter (Literal Equals (text (codes "D"))) in
        clash (format_of 1 omits_d (amount ∷ []) (part_at three_digits 0 ∷ [])) (of_records 1 (of_letter (codes "A") 1 ∷ of_letter (codes "D") 1 ∷ []) ∷ []) (of_letter (codes "D") 1) 3 ≡ None }
    // The record itself doesn't count.
    ensures itself { let omits_d = one_test Omit letter (Literal Equals (text (codes "D"))) in
        clash (format_of 1 omits_d (amount ∷ []) (part_at three_digits 0 ∷ [])) (of_records 1 (of_letter (codes "A") 1 ∷ of_letter (codes "D") 1 ∷ []) ∷ []) (of_letter (codes "A") 1) 1 ≡ None }
    // Of several the first is named.
    ensures least { clash (format_of 1 all_records (amount ∷ []) (part_at three_digits 0 ∷ [])) (of_records 1 (of_letter (codes "B") 2 ∷ of_letter (codes "A") 1 ∷ of_letter (codes "D") 1 ∷ []) ∷ []) (of_letter (codes "A") 1) 4 ≡ Some 2 }
{}
