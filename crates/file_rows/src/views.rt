//! What logical files show of a record, and the records that they write.
ghost use Rattle.std.specs.Prelude.{◌≡◌, List, [], ◌∷◌, ◌++◌, Some, None, Ok, Err, pos, negsuc, codes};
ghost use Rattle.field_types.specs.declared.faults.RecordFault.TheVariants.{Count, BadField};
ghost use Rattle.field_types.specs.declared.faults.ValueFault.TheVariants.{WrongKind, TooManyDecimals, TooWide, ReadOnlyField};
ghost use Rattle.field_types.specs.declared.values.Value.TheVariants.{Number};
ghost use Rattle.file_model.specs.Views.{logical_image, base_image};
ghost use Rattle.file_rows.specs.Files.{number, minus, whole, text};
ghost use Rattle.file_rows.specs.LogicalFormats.{named_and_numbered, renamed, second_and_third, wider, concatenated, three_names};

/// A view has NAME alone, under another name: the number that it lacks is 0 in a new record, and stays in an old one.
pub fn renamed_field()
    ensures shown { logical_image renamed (codes "ABCDE" ++ number 7) ≡ codes "ABCDE" }
    ensures added { base_image named_and_numbered renamed (Some (text (0xE7 ∷ [])) ∷ []) None ≡ Ok ((0xE7 ∷ 0x40 ∷ 0x40 ∷ 0x40 ∷ 0x40 ∷ []) ++ number 0) }
    ensures changed { base_image named_and_numbered renamed (Some (text (codes "VWXYZ")) ∷ []) (Some (codes "ABCDE" ++ number 7)) ≡ Ok (codes "VWXYZ" ++ number 7) }
    ensures not_given { base_image named_and_numbered renamed (None ∷ []) (Some (codes "ABCDE" ++ number 7)) ≡ Ok (codes "ABCDE" ++ number 7) }
    ensures too_wide { base_image named_and_numbered renamed (Some (text (codes "ABCDEF")) ∷ []) None ≡ Err (BadField 1 TooWide) }
    ensures wrong_kind { base_image named_and_numbered renamed (Some (whole 1) ∷ []) None ≡ Err (BadField 1 WrongKind) }
    ensures too_many { base_image named_and_numbered renamed (Some (whole 1) ∷ Some (whole 1) ∷ []) None ≡ Err Count }
    ensures too_few { base_image named_and_numbered renamed [] None ≡ Err Count }
{}

/// Part of a field is shown and takes no value.
pub fn substring()
    ensures shown { logical_image second_and_third (codes "ABC  " ++ number 7) ≡ codes "BC" }
    ensures refused { base_image named_and_numbered second_and_third (Some (text (codes "ZZ")) ∷ []) (Some (codes "ABC  " ++ number 7)) ≡ Err (BadField 1 ReadOnlyField) }
    ensures not_given { base_image named_and_numbered second_and_third (None ∷ []) (Some (codes "ABC  " ++ number 7)) ≡ Ok (codes "ABC  " ++ number 7) }
{}

/// The same number with more digits, and a text with blanks after it. A value that fits the logical field may not fit the
/// field under it.
pub fn other_types()
    ensures shown { logical_image wider (codes "ABCDE" ++ minus 12) ≡ (0x00 ∷ 0x01 ∷ 0x20 ∷ 0x0D ∷ []) ++ codes "ABCDE" ++ (0x40 ∷ 0x40 ∷ 0x40 ∷ []) }
    ensures stored { base_image named_and_numbered wider (Some (Number (record { units = negsuc 1199; scale = 2 })) ∷ Some (text (codes "ABCDE")) ∷ []) None ≡ Ok (codes "ABCDE" ++ minus 12) }
    ensures too_wide { base_image named_and_numbered wider (Some (whole 1000) ∷ None ∷ []) None ≡ Err (BadField 1 TooWide) }
    ensures decimals { base_image named_and_numbered wider (Some (Number (record { units = pos 15; scale = 1 })) ∷ None ∷ []) None ≡ Err (BadField 1 TooManyDecimals) }
    ensures text_too_wide { base_image named_and_numbered wider (None ∷ Some (text (codes "ABCDEF")) ∷ []) None ≡ Err (BadField 2 TooWide) }
    // It fits neither: the logical field has its decimals, but not its digits.
    ensures logical_first { base_image named_and_numbered wider (Some (Number (record { units = pos 1000005; scale = 1 })) ∷ None ∷ []) None ≡ Err (BadField 1 TooWide) }
    // The first field at fault is told.
    ensures first { base_image named_and_numbered wider (Some (text []) ∷ Some (whole 1) ∷ []) None ≡ Err (BadField 1 WrongKind) }
{}

/// Fields in a row, shown as one and split again.
pub fn concatenation()
    ensures shown { logical_image concatenated (codes "ABCDEF") ≡ codes "FABCDE" }
    ensures split { base_image three_names concatenated (Some (text (codes "XYZ")) ∷ None ∷ []) (Some (codes "ABCDEF")) ≡ Ok (codes "YZCDEX") }
    ensures filled { base_image three_names concatenated (Some (text (codes "X")) ∷ None ∷ []) None ≡ Ok ((0x40 ∷ 0x40 ∷ []) ++ (0x42 ∷ 0x40 ∷ 0x40 ∷ []) ++ codes "X") }
{}

/// Two fields over one: the value that is given later counts.
pub fn one_over_another()
    ensures { base_image named_and_numbered (renamed ++ renamed) (Some (text (codes "AAAAA")) ∷ Some (text (codes "BBBBB")) ∷ []) None ≡ Ok (codes "BBBBB" ++ number 0) }
{}
