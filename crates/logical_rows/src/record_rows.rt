//! What files show of records, store in them, and read in which order.
ghost use Rattle.std.specs.Prelude.{◌≡◌, List, [], ◌∷◌, ◌++◌, Some, None, true, false, Ok, Err, codes, length};
ghost use Rattle.field_types.specs.declared.faults.RecordFault.TheVariants.{Count, BadField};
ghost use Rattle.field_types.specs.declared.faults.ValueFault.TheVariants.{ReadOnlyField};
ghost use Rattle.key_spec.specs.declared.KeyPart.TheVariants.{Field, Absent};
ghost use Rattle.key_spec.specs.declared.Ties.TheVariants.{Rising, Falling};
ghost use Rattle.file_model.specs.declared.views.FieldSource.TheVariants.{Copied, Converted, Substring};
ghost use Rattle.file_model.specs.declared.rules.Relation.TheVariants.{Equals, AtLeast};
ghost use Rattle.file_model.specs.declared.rules.Test.TheVariants as tests;
ghost use Rattle.file_model.specs.declared.rules.Choice.TheVariants.{Select, Omit};
ghost use Rattle.file_model.specs.KeyOrder.{Missing};
ghost use Rattle.file_model.specs.Joins.{NoRecord, RecordAt};
ghost use Rattle.dds_logical.specs.declared.views.LogicalSpec.TheVariants.{Simple, Multi, Join};
ghost use Rattle.logical_model.specs.Bases.{PhysicalFile, LogicalFile, base_members};
ghost use Rattle.logical_model.specs.FilePaths.{is_over, logical_paths};
ghost use Rattle.logical_model.specs.SamePaths.{count_paths, same_path};
ghost use Rattle.logical_model.specs.Formats.{format_number, given_in, has_key, shown_in};
ghost use Rattle.logical_model.specs.Readings.{has_numbers, logical_reading};
ghost use Rattle.logical_rows.specs.Sources.{characters, packed, whole, plain, text, cust, shown, read_only, rules, statement, all_records, keyless, keyed, view, view_path, all_of, all_of_cust, ordered, field_itself, pair, joined, unkeyed_join, seen, unseen};
ghost use Rattle.logical_rows.specs.Records.{bases, members, number, customer, letters, b_alone, order, places, at};

/// Two files whose key fields show the same have one path, under whatever names; LIFO, a rule or another base make it another.
pub fn shared_paths()
    ensures own { logical_paths bases (Simple (all_of_cust all_records (keyed false Rising (Field (characters 5) 0 false false ∷ []))))
        ≡ view_path 1 (all_of_cust all_records (keyed false Rising (Field (characters 5) 0 false false ∷ []))) ∷ [] }
    ensures renamed { count_paths (
        view_path 1 (all_of_cust all_records (keyed false Rising (Field (characters 5) 0 false false ∷ []))) ∷
        view_path 1 (view (codes "CUST") (plain (codes "NO") (packed 3 0) 0 ∷ plain (codes "NM") (characters 5) 2 ∷ []) (shown (packed 3 0) (Copied 5) ∷ shown (characters 5) (Copied 0) ∷ []) all_records (keyed false Rising (Field (characters 5) 2 false false ∷ []))) ∷
        []) ≡ 1 }
    ensures other_order { count_paths (
        view_path 1 (all_of_cust all_records (keyed false Rising (Field (characters 5) 0 false false ∷ []))) ∷
        view_path 1 (all_of_cust all_records (keyed false Falling (Field (characters 5) 0 false false ∷ []))) ∷
        view_path 1 (all_of_cust all_records (keyed false Rising (Field (characters 5) 0 true false ∷ []))) ∷
        view_path 2 (all_of_cust all_records (keyed false Rising (Field (characters 5) 0 false false ∷ []))) ∷
        view_path 1 (all_of_cust (rules (statement Select (field_itself (packed 3 0) 5) (tests.Literal AtLeast (whole 2) ∷ []) ∷ []) None) (keyed false Rising (Field (characters 5) 0 false false ∷ []))) ∷
        []) ≡ 5 }
{}

/// A file of several formats has one path over all its members; a join has one over each of its files.
pub fn members_of_paths()
    ensures several { base_members bases (Multi (ordered (codes "HEADERS") (codes "HEAD") [] ∷ ordered (codes "DETAILS") (codes "DETAIL") [] ∷ [])) ≡ 3 ∷ 4 ∷ [] }
    ensures merged { length (logical_paths bases (Multi (ordered (codes "HEADERS") (codes "HEAD") [] ∷ ordered (codes "DETAILS") (codes "DETAIL") [] ∷ []))) ≡ 1 }
    ensures join { length (logical_paths bases (Join (unkeyed_join (joined (codes "ORDERS") 0 (pair (packed 3 0) 5 (packed 3 0) 0 ∷ []) Absent ∷ []) [] []))) ≡ 2 }
    ensures join_members { base_members bases (Join (unkeyed_join (joined (codes "ORDERS") 0 (pair (packed 3 0) 5 (packed 3 0) 0 ∷ []) Absent ∷ []) [] [])) ≡ 1 ∷ 2 ∷ [] }
{}

/// Headers and lines by order number: an order's header comes before its lines. Without a key the formats follow each other.
#[tactic(auto, unfolding(field_values::specs::FieldBytes::held, field_values::specs::FieldBytes::written, field_values::specs::FieldBytes::fault_of, decimal_order::specs::DecimalOrder::compare_numbers, record_fmt::specs::Records::record_given, record_fmt::specs::Records::record_held))]
pub fn merged_order()
    ensures by_key { places (logical_reading bases (Multi (
        ordered (codes "HEADERS") (codes "HEAD") (Field (packed 3 0) 0 false false ∷ []) ∷
        ordered (codes "DETAILS") (codes "DETAIL") (Field (packed 3 0) 0 false false ∷ []) ∷
        [])) members) ≡ at 0 2 ∷ at 1 1 ∷ at 1 3 ∷ at 0 1 ∷ at 1 2 ∷ [] }
    ensures without_key { places (logical_reading bases (Multi (ordered (codes "HEADERS") (codes "HEAD") [] ∷ ordered (codes "DETAILS") (codes "DETAIL") [] ∷ [])) members)
        ≡ at 0 1 ∷ at 0 2 ∷ at 1 1 ∷ at 1 2 ∷ at 1 3 ∷ [] }
    ensures selected { places (logical_reading bases (Simple (all_of_cust (rules (statement Omit (field_itself (packed 3 0) 5) (tests.Literal Equals (whole 1) ∷ []) ∷ []) None) keyless)) members) ≡ at 0 2 ∷ [] }
    ensures numbers { has_numbers (LogicalFile (Multi [])) ≡ false }
    ensures key { has_key (LogicalFile (Simple (all_of_cust all_records keyless))) ≡ false }
{}

/// A format shows its own fields, under its own name.
#[tactic(auto, unfolding(field_values::specs::FieldBytes::held, field_values::specs::FieldBytes::written, field_values::specs::FieldBytes::fault_of, decimal_order::specs::DecimalOrder::compare_numbers, record_fmt::specs::Records::record_given, record_fmt::specs::Records::record_held))]
pub fn shown_records()
    ensures wider { shown_in bases members (LogicalFile (Simple (view (codes "CUST") (plain (codes "NUM") (packed 5 0) 0 ∷ plain (codes "N1") (characters 1) 3 ∷ []) (shown (packed 5 0) (Converted (packed 3 0) 5) ∷ read_only (characters 1) (Substring (record { offset = 0; length = 1 })) ∷ []) all_records keyless)))
        0 (customer letters 1) None ≡ record { format = codes "VIEWR"; values = whole 1 ∷ text (0xC1 ∷ []) ∷ [] } }
    ensures second_format { shown_in bases members (LogicalFile (Multi (ordered (codes "HEADERS") (codes "HEAD") [] ∷ ordered (codes "DETAILS") (codes "DETAIL") [] ∷ []))) 1 (number 5 ++ number 2) None
        ≡ record { format = codes "DETAIL"; values = whole 5 ∷ [] } }
    ensures physical { shown_in bases members (PhysicalFile cust) 0 (customer b_alone 2) None ≡ record { format = codes "CUSTR"; values = text b_alone ∷ whole 2 ∷ [] } }
    ensures format { format_number (codes "DETAIL") (LogicalFile (Multi (ordered (codes "HEADERS") (codes "HEAD") [] ∷ ordered (codes "DETAILS") (codes "DETAIL") [] ∷ []))) ≡ Some 1 }
{}

/// A row of a join shows its files' records, defaults for a missing one, and no field of usage N.
#[tactic(auto, unfolding(field_values::specs::FieldBytes::held, field_values::specs::FieldBytes::written, field_values::specs::FieldBytes::fault_of, decimal_order::specs::DecimalOrder::compare_numbers, record_fmt::specs::Records::record_given, record_fmt::specs::Records::record_held))]
pub fn shown_rows()
    ensures found { shown_in bases members (LogicalFile (Join (unkeyed_join (joined (codes "ORDERS") 0 (pair (packed 3 0) 5 (packed 3 0) 0 ∷ []) Absent ∷ [])
        (plain (codes "NAME") (characters 5) 0 ∷ plain (codes "NO") (packed 3 0) 5 ∷ plain (codes "AMT") (packed 3 0) 7 ∷ []) (seen 0 (characters 5) (Copied 0) ∷ unseen 0 (packed 3 0) (Copied 5) ∷ seen 1 (packed 3 0) (Copied 2) ∷ []))))
        0 [] (Some (record { primary = record { key = []; format = 0; rrn = 1 }; matches = RecordAt Missing 2 ∷ [] })) ≡ record { format = codes "JOINR"; values = text letters ∷ whole 10 ∷ [] } }
{}

/// Values go into the base file's record: what isn't given holds its default, or what it held.
#[tactic(auto, unfolding(field_values::specs::FieldBytes::held, field_values::specs::FieldBytes::written, field_values::specs::FieldBytes::fault_of, decimal_order::specs::DecimalOrder::compare_numbers, record_fmt::specs::Records::record_given, record_fmt::specs::Records::record_held))]
pub fn stored_records()
    ensures added { given_in bases (LogicalFile (Simple (view (codes "CUST") (plain (codes "NM") (characters 5) 0 ∷ []) (shown (characters 5) (Copied 0) ∷ []) all_records keyless))) 0 (Some (text letters) ∷ []) None
        ≡ Ok (customer letters 0) }
    ensures changed { given_in bases (LogicalFile (Simple (view (codes "CUST") (plain (codes "NM") (characters 5) 0 ∷ []) (shown (characters 5) (Copied 0) ∷ []) all_records keyless))) 0 (Some (text letters) ∷ []) (Some (customer b_alone 2))
        ≡ Ok (customer letters 2) }
    ensures refused { given_in bases (LogicalFile (Simple (view (codes "CUST") (plain (codes "N1") (characters 1) 0 ∷ []) (read_only (characters 1) (Substring (record { offset = 0; length = 1 })) ∷ []) all_records keyless))) 0 (Some (text (0xC1 ∷ [])) ∷ []) None
        ≡ Err (BadField 1 ReadOnlyField) }
    ensures second_format { given_in bases (LogicalFile (Multi (ordered (codes "HEADERS") (codes "HEAD") [] ∷ ordered (codes "DETAILS") (codes "DETAIL") [] ∷ []))) 1 (Some (whole 9) ∷ []) None ≡ Ok (number 9 ++ number 0) }
    ensures join { given_in bases (LogicalFile (Join (unkeyed_join [] [] []))) 0 [] None ≡ Err Count }
{}
