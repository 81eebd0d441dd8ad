//! What sources describe: join files.
ghost use Rattle.std.specs.Prelude.{◌≡◌, List, [], ◌∷◌, Some, None, true, false, Ok, Err, codes};
ghost use Rattle.key_spec.specs.declared.KeyPart.TheVariants.{Field, Absent};
ghost use Rattle.key_spec.specs.declared.Ties.TheVariants.{Rising, Falling};
ghost use Rattle.dds_source.specs.declared.specifications.NameEntry.TheVariants.{Blank, Named, StarNone};
ghost use Rattle.dds_source.specs.declared.specifications.SpecificationKind.TheVariants as kinds;
ghost use Rattle.file_model.specs.declared.views.FieldSource.TheVariants.{Copied, Converted, Concatenated, Substring};
ghost use Rattle.dds_logical.specs.declared.views.LogicalSpec.TheVariants.{Join};
ghost use Rattle.logical_rows.specs.Sources.{described, keyword, flag, word, number, quoted, special, blank, entries, line, characters, packed, plain, piece, field_itself, keyless, keyed, pair, joined, unkeyed_join, seen, unseen};

/// Customers with their orders, the greatest amount first; a customer without orders is kept.
pub fn customers_with_orders()
    //      A                                      JDFTVAL
    //      A          R JOINR                     JFILE(CUST ORDERS)
    //      A          J                           JOIN(CUST ORDERS) JFLD(NO NO)
    //      A            NO                        JREF(CUST)
    //      A            AMT
    //      A          K NO
    ensures described { described 6 (flag 1 45 (codes "JDFTVAL") ∷ []) (
        line 2 kinds.Record (Named (codes "JOINR")) blank (keyword 2 45 (codes "JFILE") (word (codes "CUST") ∷ word (codes "ORDERS") ∷ []) ∷ []) ∷
        line 3 kinds.Join Blank blank (keyword 3 45 (codes "JOIN") (word (codes "CUST") ∷ word (codes "ORDERS") ∷ []) ∷ keyword 3 63 (codes "JFLD") (word (codes "NO") ∷ word (codes "NO") ∷ []) ∷ []) ∷
        line 4 kinds.Field (Named (codes "NO")) blank (keyword 4 45 (codes "JREF") (word (codes "CUST") ∷ []) ∷ []) ∷
        line 5 kinds.Field (Named (codes "AMT")) blank [] ∷
        line 6 kinds.Key (Named (codes "NO")) blank [] ∷
        [])
        ≡ Ok (Join (record {
          primary = codes "CUST";
          secondaries = joined (codes "ORDERS") 0 (pair (packed 3 0) 5 (packed 3 0) 0 ∷ []) Absent ∷ [];
          format = record { name = codes "JOINR"; fields = plain (codes "NO") (packed 3 0) 0 ∷ plain (codes "AMT") (packed 3 0) 2 ∷ [] };
          fields = seen 0 (packed 3 0) (Copied 5) ∷ seen 1 (packed 3 0) (Copied 2) ∷ [];
          keys = keyed false Rising (Field (packed 3 0) 0 false false ∷ []);
          keeps_missing = true;
        })) }
    // Of two files the second is joined to the first without JOIN.
    //      A          R JOINR                     JFILE(CUST ORDERS)
    //      A          J                           JFLD(NO NO) JDUPSEQ(AMT *DESCEND)
    //      A            NAME
    ensures greatest_first { described 3 [] (
        line 1 kinds.Record (Named (codes "JOINR")) blank (keyword 1 45 (codes "JFILE") (word (codes "CUST") ∷ word (codes "ORDERS") ∷ []) ∷ []) ∷
        line 2 kinds.Join Blank blank (keyword 2 45 (codes "JFLD") (word (codes "NO") ∷ word (codes "NO") ∷ []) ∷ keyword 2 57 (codes "JDUPSEQ") (word (codes "AMT") ∷ special (codes "*DESCEND") ∷ []) ∷ []) ∷
        line 3 kinds.Field (Named (codes "NAME")) blank [] ∷
        [])
        ≡ Ok (Join (unkeyed_join (joined (codes "ORDERS") 0 (pair (packed 3 0) 5 (packed 3 0) 0 ∷ []) (Field (packed 3 0) 2 true false) ∷ [])
        (plain (codes "NAME") (characters 5) 0 ∷ []) (seen 0 (characters 5) (Copied 0) ∷ []))) }
{}

/// A third file is joined from the second. J lines may come in any order; secondaries stand in the order of JFILE.
pub fn chain_of_files()
    //      A          R JOINR                     JFILE(CUST ORDERS CHAINED)
    //      A          J                           JOIN(ORDERS CHAINED) JFLD(CODE CODE) JDUPSEQ(ID)
    //      A          J                           JOIN(CUST ORDERS) JFLD(NO NO) JFLD(NO AMT)
    //      A            ID
    ensures described { described 4 [] (
        line 1 kinds.Record (Named (codes "JOINR")) blank (keyword 1 45 (codes "JFILE") (word (codes "CUST") ∷ word (codes "ORDERS") ∷ word (codes "CHAINED") ∷ []) ∷ []) ∷
        line 2 kinds.Join Blank blank (keyword 2 45 (codes "JOIN") (word (codes "ORDERS") ∷ word (codes "CHAINED") ∷ []) ∷ keyword 2 66 (codes "JFLD") (word (codes "CODE") ∷ word (codes "CODE") ∷ []) ∷ keyword 2 82 (codes "JDUPSEQ") (word (codes "ID") ∷ []) ∷ []) ∷
        line 3 kinds.Join Blank blank (keyword 3 45 (codes "JOIN") (word (codes "CUST") ∷ word (codes "ORDERS") ∷ []) ∷ keyword 3 63 (codes "JFLD") (word (codes "NO") ∷ word (codes "NO") ∷ []) ∷ keyword 3 75 (codes "JFLD") (word (codes "NO") ∷ word (codes "AMT") ∷ []) ∷ []) ∷
        line 4 kinds.Field (Named (codes "ID")) blank [] ∷
        [])
        ≡ Ok (Join (unkeyed_join
        (joined (codes "ORDERS") 0 (pair (packed 3 0) 5 (packed 3 0) 0 ∷ pair (packed 3 0) 5 (packed 3 0) 2 ∷ []) Absent ∷
        joined (codes "CHAINED") 1 (pair (characters 1) 4 (characters 1) 2 ∷ []) (Field (packed 3 0) 0 false false) ∷ [])
        (plain (codes "ID") (packed 3 0) 0 ∷ []) (seen 2 (packed 3 0) (Copied 0) ∷ []))) }
    // A line without JFLD joins every record.
    //      A          R JOINR                     JFILE(CUST ORDERS)
    //      A          J
    //      A            AMT
    ensures no_fields { described 3 [] (
        line 1 kinds.Record (Named (codes "JOINR")) blank (keyword 1 45 (codes "JFILE") (word (codes "CUST") ∷ word (codes "ORDERS") ∷ []) ∷ []) ∷
        line 2 kinds.Join Blank blank [] ∷
        line 3 kinds.Field (Named (codes "AMT")) blank [] ∷
        [])
        ≡ Ok (Join (unkeyed_join (joined (codes "ORDERS") 0 [] Absent ∷ [])
        (plain (codes "AMT") (packed 3 0) 0 ∷ []) (seen 1 (packed 3 0) (Copied 2) ∷ []))) }
{}

/// JREF names a file or its number; a field of usage N isn't shown; fields may be made of others.
pub fn files_of_fields()
    //      A          R JOINR                     JFILE(CUST ORDERS CHAINED)
    //      A          J                           JOIN(CUST ORDERS)
    //      A          J                           JOIN(CUST CHAINED)
    //      A            CODE                      JREF(3)
    //      A            NUM            5   N      RENAME(NO) JREF(ORDERS)
    //      A            N1                 I      SST(NAME 1 1)
    ensures described { described 6 [] (
        line 1 kinds.Record (Named (codes "JOINR")) blank (keyword 1 45 (codes "JFILE") (word (codes "CUST") ∷ word (codes "ORDERS") ∷ word (codes "CHAINED") ∷ []) ∷ []) ∷
        line 2 kinds.Join Blank blank (keyword 2 45 (codes "JOIN") (word (codes "CUST") ∷ word (codes "ORDERS") ∷ []) ∷ []) ∷
        line 3 kinds.Join Blank blank (keyword 3 45 (codes "JOIN") (word (codes "CUST") ∷ word (codes "CHAINED") ∷ []) ∷ []) ∷
        line 4 kinds.Field (Named (codes "CODE")) blank (keyword 4 45 (codes "JREF") (number 3 ∷ []) ∷ []) ∷
        line 5 kinds.Field (Named (codes "NUM")) (entries (Some 5) None None (Some 78)) (keyword 5 45 (codes "RENAME") (word (codes "NO") ∷ []) ∷ keyword 5 56 (codes "JREF") (word (codes "ORDERS") ∷ []) ∷ []) ∷
        line 6 kinds.Field (Named (codes "N1")) (entries None None None (Some 73)) (keyword 6 45 (codes "SST") (word (codes "NAME") ∷ number 1 ∷ number 1 ∷ []) ∷ []) ∷
        [])
        ≡ Ok (Join (unkeyed_join (joined (codes "ORDERS") 0 [] Absent ∷ joined (codes "CHAINED") 0 [] Absent ∷ [])
        (plain (codes "CODE") (characters 1) 0 ∷ plain (codes "NUM") (packed 5 0) 1 ∷ plain (codes "N1") (characters 1) 4 ∷ [])
        (seen 2 (characters 1) (Copied 2) ∷ unseen 1 (packed 5 0) (Converted (packed 3 0) 0) ∷ seen 0 (characters 1) (Substring (piece 0 1)) ∷ []))) }
{}
