//! The rows of join files.
ghost use Rattle.std.specs.Prelude.{◌≡◌, List, [], ◌∷◌, ◌++◌, Some, None, true, false};
ghost use Rattle.std.specs.Option.{option_map};
ghost use Rattle.key_spec.specs.declared.KeyPart.TheVariants.{Absent};
ghost use Rattle.file_model.specs.KeyOrder.{Ascending, Missing};
ghost use Rattle.file_model.specs.Joins.{RecordAt, NoRecord, secondary_path};
ghost use Rattle.file_model.specs.Positions.{Start, End, On, Past, KeyBound, next_from, prior_from, chain_key};
ghost use Rattle.file_rows.specs.Files.{number, whole, of_records};
ghost use Rattle.file_rows.specs.Customers.{orders, with_orders, greatest_first, customers, with_equal_orders, chained, three_files};
ghost use Rattle.file_rows.specs.Found.{rrns_of, images_of, rows_to_read, reads, reads_back, row_numbers, row_rrns};

/// Customers with their orders, the greatest amount first; a customer without orders has a row by JDFTVAL alone.
pub fn customers_with_orders()
    ensures images { images_of (with_orders greatest_first true) customers ≡ (number 1 ++ number 30) ∷ (number 1 ++ number 10) ∷ (number 2 ++ number 0) ∷ [] }
    ensures reads { row_numbers (reads 4 (rows_to_read (with_orders greatest_first true) customers) Start) ≡ Some (1 ∷ 2 ∷ []) ∷ Some (1 ∷ 1 ∷ []) ∷ Some (2 ∷ 0 ∷ []) ∷ None ∷ [] }
    ensures back { row_numbers (reads_back 4 (rows_to_read (with_orders greatest_first true) customers) End) ≡ Some (2 ∷ 0 ∷ []) ∷ Some (1 ∷ 1 ∷ []) ∷ Some (1 ∷ 2 ∷ []) ∷ None ∷ [] }
    ensures without_defaults { images_of (with_orders greatest_first false) customers ≡ (number 1 ++ number 30) ∷ (number 1 ++ number 10) ∷ [] }
    ensures no_sequence { images_of (with_orders Absent false) customers ≡ (number 1 ++ number 10) ∷ (number 1 ++ number 30) ∷ [] }
{}

/// Rows come in the primary's order, and orders of one amount in arrival order.
pub fn equal_orders()
    ensures rows { row_numbers (reads 4 (rows_to_read (with_orders greatest_first false) with_equal_orders) Start) ≡ Some (2 ∷ 2 ∷ []) ∷ Some (2 ∷ 4 ∷ []) ∷ Some (1 ∷ 1 ∷ []) ∷ None ∷ [] }
    ensures chained { option_map row_rrns (chain_key (rows_to_read (with_orders greatest_first false) with_equal_orders) (Ascending (whole 2) ∷ [])) ≡ Some (1 ∷ 1 ∷ []) }
    ensures past { option_map row_rrns (next_from (rows_to_read (with_orders greatest_first false) with_equal_orders) (Past (KeyBound (Ascending (whole 1) ∷ [])))) ≡ Some (1 ∷ 1 ∷ []) }
    // The open stands on a row whose order is gone.
    ensures from_gone_row { option_map row_rrns (next_from (rows_to_read (with_orders Absent false) with_equal_orders)
        (On (record { primary = record { key = Ascending (whole 1) ∷ []; format = 0; rrn = 2 }; matches = RecordAt Missing 3 ∷ [] }))) ≡ Some (2 ∷ 4 ∷ []) }
    // It stands on the row of a customer without orders, who has one since.
    ensures from_missing_row { option_map row_rrns (next_from (rows_to_read (with_orders Absent true) with_equal_orders)
        (On (record { primary = record { key = Ascending (whole 1) ∷ []; format = 0; rrn = 2 }; matches = NoRecord ∷ [] }))) ≡ Some (2 ∷ 2 ∷ []) }
{}

/// The open stands on the row of an order that is gone, and its customer has no other: the row with defaults is before it.
pub fn last_order_is_gone()
    ensures next { option_map row_rrns (next_from (rows_to_read (with_orders Absent true) customers)
        (On (record { primary = record { key = Ascending (whole 2) ∷ []; format = 0; rrn = 2 }; matches = RecordAt Missing 7 ∷ [] }))) ≡ None }
    ensures prior { option_map row_rrns (prior_from (rows_to_read (with_orders Absent true) customers)
        (On (record { primary = record { key = Ascending (whole 2) ∷ []; format = 0; rrn = 2 }; matches = RecordAt Missing 7 ∷ [] }))) ≡ Some (2 ∷ 0 ∷ []) }
{}

/// A third file that is joined from the second.
pub fn three_in_a_chain()
    ensures none { images_of (chained false) (three_files []) ≡ [] }
    ensures defaults { images_of (chained true) (three_files []) ≡ (number 1 ++ 0xC1 ∷ number 0) ∷ [] }
    ensures primary { row_numbers (reads 2 (rows_to_read (chained true) (three_files [])) Start) ≡ Some (1 ∷ 1 ∷ 0 ∷ []) ∷ None ∷ [] }
    ensures found { images_of (chained false) (three_files ((0xC2 ∷ number 5) ∷ (0xC1 ∷ number 6) ∷ [])) ≡ (number 1 ++ 0xC1 ∷ number 6) ∷ [] }
    // The second has no record: the third is joined by the second's defaults.
    ensures by_defaults { images_of (chained true) (of_records 1 (number 1 ∷ []) ∷ of_records 3 ((0xC1 ∷ number 6) ∷ (0x40 ∷ number 7) ∷ []) ∷ []) ≡ (number 1 ++ 0x40 ∷ number 7) ∷ [] }
{}

/// The path of a secondary file has its records by the joined fields, and then by JDUPSEQ.
pub fn kept_paths()
    ensures secondary { rrns_of (secondary_path (orders greatest_first)) customers ≡ 2 ∷ 1 ∷ [] }
    ensures ties { rrns_of (secondary_path (orders greatest_first)) with_equal_orders ≡ 2 ∷ 4 ∷ 1 ∷ [] }
{}
