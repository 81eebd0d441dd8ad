//! What is wrong with sources, and where it stands: lines, formats and fields.
ghost use Rattle.std.specs.Prelude.{◌≡◌, List, [], ◌∷◌, Some, None, Ok, codes};
ghost use Rattle.key_spec.specs.declared.KeyPart.TheVariants.{Absent};
ghost use Rattle.dds_logical.specs.declared.views.LogicalSpec.TheVariants.{Multi};
ghost use Rattle.dds_source.specs.declared.faults.DdsCause.TheVariants as causes;
ghost use Rattle.dds_source.specs.declared.specifications.NameEntry.TheVariants.{Blank, Named, StarNone};
ghost use Rattle.dds_source.specs.declared.specifications.SpecificationKind.TheVariants as kinds;
ghost use Rattle.logical_rows.specs.Sources.{described, keyword, flag, word, number, quoted, special, blank, entries, referring, line, fault, ordered};
ghost use Rattle.dds_logical.specs.Fields.{too_many_faults};

/// Lines that stand out of order: at 17, a field at 19.
pub fn out_of_order()
    //      A            NAME
    //      A          R VIEWR                     PFILE(CUST)
    ensures field_first { described 2 [] (
        line 1 kinds.Field (Named (codes "NAME")) blank [] ∷
        line 2 kinds.Record (Named (codes "VIEWR")) blank (keyword 2 45 (codes "PFILE") (word (codes "CUST") ∷ []) ∷ []) ∷
        [])
        ≡ fault 1 19 causes.OutOfOrder }
    //      A          K NAME
    //      A          R VIEWR                     PFILE(CUST)
    ensures key_first { described 2 [] (
        line 1 kinds.Key (Named (codes "NAME")) blank [] ∷
        line 2 kinds.Record (Named (codes "VIEWR")) blank (keyword 2 45 (codes "PFILE") (word (codes "CUST") ∷ []) ∷ []) ∷
        [])
        ≡ fault 1 17 causes.OutOfOrder }
    //      A          R VIEWR                     PFILE(CUST)
    //      A          K NAME
    //      A            NAME
    ensures field_behind_key { described 3 [] (
        line 1 kinds.Record (Named (codes "VIEWR")) blank (keyword 1 45 (codes "PFILE") (word (codes "CUST") ∷ []) ∷ []) ∷
        line 2 kinds.Key (Named (codes "NAME")) blank [] ∷
        line 3 kinds.Field (Named (codes "NAME")) blank [] ∷
        [])
        ≡ fault 3 19 causes.OutOfOrder }
    //      A          R VIEWR                     PFILE(CUST)
    //      A          S NO                        COMP(EQ 1)
    //      A          K NO
    ensures key_behind_select { described 3 [] (
        line 1 kinds.Record (Named (codes "VIEWR")) blank (keyword 1 45 (codes "PFILE") (word (codes "CUST") ∷ []) ∷ []) ∷
        line 2 kinds.Select (Named (codes "NO")) blank (keyword 2 45 (codes "COMP") (word (codes "EQ") ∷ number 1 ∷ []) ∷ []) ∷
        line 3 kinds.Key (Named (codes "NO")) blank [] ∷
        [])
        ≡ fault 3 17 causes.OutOfOrder }
    //      A          R VIEWR                     PFILE(CUST)
    //      A          J                           JOIN(CUST ORDERS)
    //      A            NAME
    ensures join_outside { described 3 [] (
        line 1 kinds.Record (Named (codes "VIEWR")) blank (keyword 1 45 (codes "PFILE") (word (codes "CUST") ∷ []) ∷ []) ∷
        line 2 kinds.Join Blank blank (keyword 2 45 (codes "JOIN") (word (codes "CUST") ∷ word (codes "ORDERS") ∷ []) ∷ []) ∷
        line 3 kinds.Field (Named (codes "NAME")) blank [] ∷
        [])
        ≡ fault 2 17 causes.OutOfOrder }
    //      A          R JOINR                     JFILE(CUST ORDERS)
    //      A          J                           JFLD(NO NO)
    //      A            NAME
    //      A          S NAME                      COMP(EQ 'A')
    ensures select_in_join { described 4 [] (
        line 1 kinds.Record (Named (codes "JOINR")) blank (keyword 1 45 (codes "JFILE") (word (codes "CUST") ∷ word (codes "ORDERS") ∷ []) ∷ []) ∷
        line 2 kinds.Join Blank blank (keyword 2 45 (codes "JFLD") (word (codes "NO") ∷ word (codes "NO") ∷ []) ∷ []) ∷
        line 3 kinds.Field (Named (codes "NAME")) blank [] ∷
        line 4 kinds.Select (Named (codes "NAME")) blank (keyword 4 45 (codes "COMP") (word (codes "EQ") ∷ quoted (codes "A") ∷ []) ∷ []) ∷
        [])
        ≡ fault 4 17 causes.OutOfOrder }
    //      A          R JOINR                     JFILE(CUST ORDERS)
    //      A          J                           JFLD(NO NO)
    //      A            NAME
    //      A          R OTHER                     PFILE(CUST)
    //      A            NO
    ensures second_in_join { described 5 [] (
        line 1 kinds.Record (Named (codes "JOINR")) blank (keyword 1 45 (codes "JFILE") (word (codes "CUST") ∷ word (codes "ORDERS") ∷ []) ∷ []) ∷
        line 2 kinds.Join Blank blank (keyword 2 45 (codes "JFLD") (word (codes "NO") ∷ word (codes "NO") ∷ []) ∷ []) ∷
        line 3 kinds.Field (Named (codes "NAME")) blank [] ∷
        line 4 kinds.Record (Named (codes "OTHER")) blank (keyword 4 45 (codes "PFILE") (word (codes "CUST") ∷ []) ∷ []) ∷
        line 5 kinds.Field (Named (codes "NO")) blank [] ∷
        [])
        ≡ fault 4 17 causes.OutOfOrder }
    //      A          R JOINR                     JFILE(CUST ORDERS)
    //      A            NAME
    //      A          J                           JFLD(NO NO)
    ensures join_behind_field { described 3 [] (
        line 1 kinds.Record (Named (codes "JOINR")) blank (keyword 1 45 (codes "JFILE") (word (codes "CUST") ∷ word (codes "ORDERS") ∷ []) ∷ []) ∷
        line 2 kinds.Field (Named (codes "NAME")) blank [] ∷
        line 3 kinds.Join Blank blank (keyword 3 45 (codes "JFLD") (word (codes "NO") ∷ word (codes "NO") ∷ []) ∷ []) ∷
        [])
        ≡ fault 3 17 causes.OutOfOrder }
    //      A          R VIEWR                     PFILE(CUST)
    //      A          S                           ALL
    //      A          O NO
    ensures all_before { described 3 [] (
        line 1 kinds.Record (Named (codes "VIEWR")) blank (keyword 1 45 (codes "PFILE") (word (codes "CUST") ∷ []) ∷ []) ∷
        line 2 kinds.Select Blank blank (flag 2 45 (codes "ALL") ∷ []) ∷
        line 3 kinds.Omit (Named (codes "NO")) blank [] ∷
        [])
        ≡ fault 2 45 causes.OutOfOrder }
{}

/// At the later of the two.
pub fn duplicate_names()
    //      A          R A                         PFILE(CUST)
    //      A          R A                         PFILE(CUST)
    ensures formats { described 2 [] (
        line 1 kinds.Record (Named (codes "A")) blank (keyword 1 45 (codes "PFILE") (word (codes "CUST") ∷ []) ∷ []) ∷
        line 2 kinds.Record (Named (codes "A")) blank (keyword 2 45 (codes "PFILE") (word (codes "CUST") ∷ []) ∷ []) ∷
        [])
        ≡ fault 2 19 causes.DuplicateName }
    //      A          R VIEWR                     PFILE(CUST)
    //      A            NAME
    //      A            NAME
    ensures fields { described 3 [] (
        line 1 kinds.Record (Named (codes "VIEWR")) blank (keyword 1 45 (codes "PFILE") (word (codes "CUST") ∷ []) ∷ []) ∷
        line 2 kinds.Field (Named (codes "NAME")) blank [] ∷
        line 3 kinds.Field (Named (codes "NAME")) blank [] ∷
        [])
        ≡ fault 3 19 causes.DuplicateName }
    //      A          R VIEWR                     PFILE(CUST)
    //      A          K NO
    //      A          K NO
    ensures keys { described 3 [] (
        line 1 kinds.Record (Named (codes "VIEWR")) blank (keyword 1 45 (codes "PFILE") (word (codes "CUST") ∷ []) ∷ []) ∷
        line 2 kinds.Key (Named (codes "NO")) blank [] ∷
        line 3 kinds.Key (Named (codes "NO")) blank [] ∷
        [])
        ≡ fault 3 19 causes.DuplicateName }
    // *NONE may stand again, and another format may have the names.
    //      A          R A                         PFILE(HEADERS)
    //      A            ORD
    //      A          K *NONE
    //      A          K *NONE
    //      A          R B                         PFILE(DETAILS)
    //      A            ORD
    ensures elsewhere { described 6 [] (
        line 1 kinds.Record (Named (codes "A")) blank (keyword 1 45 (codes "PFILE") (word (codes "HEADERS") ∷ []) ∷ []) ∷
        line 2 kinds.Field (Named (codes "ORD")) blank [] ∷
        line 3 kinds.Key StarNone blank [] ∷
        line 4 kinds.Key StarNone blank [] ∷
        line 5 kinds.Record (Named (codes "B")) blank (keyword 5 45 (codes "PFILE") (word (codes "DETAILS") ∷ []) ∷ []) ∷
        line 6 kinds.Field (Named (codes "ORD")) blank [] ∷
        [])
        ≡ Ok (Multi (
        ordered (codes "HEADERS") (codes "A") (Absent ∷ Absent ∷ []) ∷
        ordered (codes "DETAILS") (codes "B") (Absent ∷ Absent ∷ []) ∷ [])) }
{}

/// Length, decimals, type and usage.
pub fn entries_of_fields()
    //      A          R VIEWR                     PFILE(CUST)
    //      A            NO            32
    ensures too_long { described 2 [] (
        line 1 kinds.Record (Named (codes "VIEWR")) blank (keyword 1 45 (codes "PFILE") (word (codes "CUST") ∷ []) ∷ []) ∷
        line 2 kinds.Field (Named (codes "NO")) (entries (Some 32) None None None) [] ∷
        [])
        ≡ fault 2 30 causes.BadLength }
    //      A          R VIEWR                     PFILE(CUST)
    //      A            NO             0
    ensures no_length { described 2 [] (
        line 1 kinds.Record (Named (codes "VIEWR")) blank (keyword 1 45 (codes "PFILE") (word (codes "CUST") ∷ []) ∷ []) ∷
        line 2 kinds.Field (Named (codes "NO")) (entries (Some 0) None None None) [] ∷
        [])
        ≡ fault 2 30 causes.BadLength }
    //      A          R VIEWR                     PFILE(CUST)
    //      A            NAME              2
    ensures decimals_of_text { described 2 [] (
        line 1 kinds.Record (Named (codes "VIEWR")) blank (keyword 1 45 (codes "PFILE") (word (codes "CUST") ∷ []) ∷ []) ∷
        line 2 kinds.Field (Named (codes "NAME")) (entries None None (Some 2) None) [] ∷
        [])
        ≡ fault 2 36 causes.BadDecimals }
    //      A          R VIEWR                     PFILE(CUST)
    //      A            NO             3  4
    ensures decimals_beyond { described 2 [] (
        line 1 kinds.Record (Named (codes "VIEWR")) blank (keyword 1 45 (codes "PFILE") (word (codes "CUST") ∷ []) ∷ []) ∷
        line 2 kinds.Field (Named (codes "NO")) (entries (Some 3) None (Some 4) None) [] ∷
        [])
        ≡ fault 2 36 causes.BadDecimals }
    //      A          R VIEWR                     PFILE(CUST)
    //      A            NO              Q
    ensures letter { described 2 [] (
        line 1 kinds.Record (Named (codes "VIEWR")) blank (keyword 1 45 (codes "PFILE") (word (codes "CUST") ∷ []) ∷ []) ∷
        line 2 kinds.Field (Named (codes "NO")) (entries None (Some 81) None None) [] ∷
        [])
        ≡ fault 2 35 causes.BadType }
    //      A          R VIEWR                     PFILE(CUST)
    //      A            NO                 N
    ensures usage_of_join { described 2 [] (
        line 1 kinds.Record (Named (codes "VIEWR")) blank (keyword 1 45 (codes "PFILE") (word (codes "CUST") ∷ []) ∷ []) ∷
        line 2 kinds.Field (Named (codes "NO")) (entries None None None (Some 78)) [] ∷
        [])
        ≡ fault 2 38 causes.BadType }
    //      A          R VIEWR                     PFILE(CUST)
    //      A            NO                 O
    ensures usage { described 2 [] (
        line 1 kinds.Record (Named (codes "VIEWR")) blank (keyword 1 45 (codes "PFILE") (word (codes "CUST") ∷ []) ∷ []) ∷
        line 2 kinds.Field (Named (codes "NO")) (entries None None None (Some 79)) [] ∷
        [])
        ≡ fault 2 38 causes.BadType }
    //      A          R VIEWR                     PFILE(CUST)
    //      A            NO        R
    ensures reference { described 2 [] (
        line 1 kinds.Record (Named (codes "VIEWR")) blank (keyword 1 45 (codes "PFILE") (word (codes "CUST") ∷ []) ∷ []) ∷
        line 2 kinds.Field (Named (codes "NO")) referring [] ∷
        [])
        ≡ fault 2 29 causes.UnknownReference }
    //      A          R VIEWR                     PFILE(CUST)
    //      A            N1                 B      SST(NAME 1 1)
    ensures read_only { described 2 [] (
        line 1 kinds.Record (Named (codes "VIEWR")) blank (keyword 1 45 (codes "PFILE") (word (codes "CUST") ∷ []) ∷ []) ∷
        line 2 kinds.Field (Named (codes "N1")) (entries None None None (Some 66)) (keyword 2 45 (codes "SST") (word (codes "NAME") ∷ number 1 ∷ number 1 ∷ []) ∷ []) ∷
        [])
        ≡ fault 2 38 causes.ReadOnlyMapping }
{}

/// A field that can't hold what it shows.
pub fn narrowing()
    //      A          R VIEWR                     PFILE(CUST)
    //      A            NO             5A
    ensures kind { described 2 [] (
        line 1 kinds.Record (Named (codes "VIEWR")) blank (keyword 1 45 (codes "PFILE") (word (codes "CUST") ∷ []) ∷ []) ∷
        line 2 kinds.Field (Named (codes "NO")) (entries (Some 5) (Some 65) None None) [] ∷
        [])
        ≡ fault 2 35 causes.Narrowing }
    //      A          R VIEWR                     PFILE(CUST)
    //      A            NAME           5S
    ensures number_of_text { described 2 [] (
        line 1 kinds.Record (Named (codes "VIEWR")) blank (keyword 1 45 (codes "PFILE") (word (codes "CUST") ∷ []) ∷ []) ∷
        line 2 kinds.Field (Named (codes "NAME")) (entries (Some 5) (Some 83) None None) [] ∷
        [])
        ≡ fault 2 35 causes.Narrowing }
    //      A          R VIEWR                     PFILE(CHAINED)
    //      A            DAY           10A
    ensures text_of_date { described 2 [] (
        line 1 kinds.Record (Named (codes "VIEWR")) blank (keyword 1 45 (codes "PFILE") (word (codes "CHAINED") ∷ []) ∷ []) ∷
        line 2 kinds.Field (Named (codes "DAY")) (entries (Some 10) (Some 65) None None) [] ∷
        [])
        ≡ fault 2 35 causes.Narrowing }
    //      A          R VIEWR                     PFILE(CUST)
    //      A            NAME           4
    ensures text { described 2 [] (
        line 1 kinds.Record (Named (codes "VIEWR")) blank (keyword 1 45 (codes "PFILE") (word (codes "CUST") ∷ []) ∷ []) ∷
        line 2 kinds.Field (Named (codes "NAME")) (entries (Some 4) None None None) [] ∷
        [])
        ≡ fault 2 30 causes.Narrowing }
    //      A          R VIEWR                     PFILE(CUST)
    //      A            NO             2
    ensures digits { described 2 [] (
        line 1 kinds.Record (Named (codes "VIEWR")) blank (keyword 1 45 (codes "PFILE") (word (codes "CUST") ∷ []) ∷ []) ∷
        line 2 kinds.Field (Named (codes "NO")) (entries (Some 2) None None None) [] ∷
        [])
        ≡ fault 2 30 causes.Narrowing }
    //      A          R VIEWR                     PFILE(CUST)
    //      A            NO                1
    ensures digits_by_decimals { described 2 [] (
        line 1 kinds.Record (Named (codes "VIEWR")) blank (keyword 1 45 (codes "PFILE") (word (codes "CUST") ∷ []) ∷ []) ∷
        line 2 kinds.Field (Named (codes "NO")) (entries None None (Some 1) None) [] ∷
        [])
        ≡ fault 2 36 causes.Narrowing }
    //      A          R VIEWR                     PFILE(CUST)
    //      A            NO             4  2
    ensures digits_by_both { described 2 [] (
        line 1 kinds.Record (Named (codes "VIEWR")) blank (keyword 1 45 (codes "PFILE") (word (codes "CUST") ∷ []) ∷ []) ∷
        line 2 kinds.Field (Named (codes "NO")) (entries (Some 4) None (Some 2) None) [] ∷
        [])
        ≡ fault 2 30 causes.Narrowing }
    //      A          R VIEWR                     PFILE(CUST)
    //      A            N1             1          SST(NAME 1 2)
    ensures part { described 2 [] (
        line 1 kinds.Record (Named (codes "VIEWR")) blank (keyword 1 45 (codes "PFILE") (word (codes "CUST") ∷ []) ∷ []) ∷
        line 2 kinds.Field (Named (codes "N1")) (entries (Some 1) None None None) (keyword 2 45 (codes "SST") (word (codes "NAME") ∷ number 1 ∷ number 2 ∷ []) ∷ []) ∷
        [])
        ≡ fault 2 30 causes.Narrowing }
{}

/// What the base hasn't.
pub fn base_files_and_fields()
    //      A          R VIEWR                     PFILE(CUSTOMER)
    ensures no_file { described 1 [] (
        line 1 kinds.Record (Named (codes "VIEWR")) blank (keyword 1 45 (codes "PFILE") (word (codes "CUSTOMER") ∷ []) ∷ []) ∷
        [])
        ≡ fault 1 45 causes.NoBase }
    //      A          R JOINR                     TEXT('J') JFILE(CUST OTHER)
    //      A          J                           JFLD(NO NO)
    //      A            NAME
    ensures no_joined_file { described 3 [] (
        line 1 kinds.Record (Named (codes "JOINR")) blank (keyword 1 45 (codes "TEXT") (quoted (codes "J") ∷ []) ∷ keyword 1 55 (codes "JFILE") (word (codes "CUST") ∷ word (codes "OTHER") ∷ []) ∷ []) ∷
        line 2 kinds.Join Blank blank (keyword 2 45 (codes "JFLD") (word (codes "NO") ∷ word (codes "NO") ∷ []) ∷ []) ∷
        line 3 kinds.Field (Named (codes "NAME")) blank [] ∷
        [])
        ≡ fault 1 55 causes.NoBase }
    //      A          R VIEWR                     PFILE(CUST)
    //      A            AMT
    ensures own { described 2 [] (
        line 1 kinds.Record (Named (codes "VIEWR")) blank (keyword 1 45 (codes "PFILE") (word (codes "CUST") ∷ []) ∷ []) ∷
        line 2 kinds.Field (Named (codes "AMT")) blank [] ∷
        [])
        ≡ fault 2 19 causes.NoBaseField }
    //      A          R VIEWR                     PFILE(CUST)
    //      A            NM                        RENAME(NAM)
    ensures renamed { described 2 [] (
        line 1 kinds.Record (Named (codes "VIEWR")) blank (keyword 1 45 (codes "PFILE") (word (codes "CUST") ∷ []) ∷ []) ∷
        line 2 kinds.Field (Named (codes "NM")) blank (keyword 2 45 (codes "RENAME") (word (codes "NAM") ∷ []) ∷ []) ∷
        [])
        ≡ fault 2 45 causes.NoBaseField }
    //      A          R VIEWR                     PFILE(CUST)
    //      A            NM                        CONCAT(NAME NAM)
    ensures concatenated { described 2 [] (
        line 1 kinds.Record (Named (codes "VIEWR")) blank (keyword 1 45 (codes "PFILE") (word (codes "CUST") ∷ []) ∷ []) ∷
        line 2 kinds.Field (Named (codes "NM")) blank (keyword 2 45 (codes "CONCAT") (word (codes "NAME") ∷ word (codes "NAM") ∷ []) ∷ []) ∷
        [])
        ≡ fault 2 45 causes.NoBaseField }
    //      A          R VIEWR                     PFILE(CUST)
    //      A            NM                        SST(NAM 1)
    ensures part { described 2 [] (
        line 1 kinds.Record (Named (codes "VIEWR")) blank (keyword 1 45 (codes "PFILE") (word (codes "CUST") ∷ []) ∷ []) ∷
        line 2 kinds.Field (Named (codes "NM")) blank (keyword 2 45 (codes "SST") (word (codes "NAM") ∷ number 1 ∷ []) ∷ []) ∷
        [])
        ≡ fault 2 45 causes.NoBaseField }
    //      A          R VIEWR                     PFILE(CUST)
    //      A            NM             3          CONCAT(NAME NAM)
    ensures type_not_judged { described 2 [] (
        line 1 kinds.Record (Named (codes "VIEWR")) blank (keyword 1 45 (codes "PFILE") (word (codes "CUST") ∷ []) ∷ []) ∷
        line 2 kinds.Field (Named (codes "NM")) (entries (Some 3) None None None) (keyword 2 45 (codes "CONCAT") (word (codes "NAME") ∷ word (codes "NAM") ∷ []) ∷ []) ∷
        [])
        ≡ fault 2 45 causes.NoBaseField }
    //      A          R JOINR                     JFILE(CUST ORDERS)
    //      A          J                           JFLD(NO NO)
    //      A            ID
    ensures joined { described 3 [] (
        line 1 kinds.Record (Named (codes "JOINR")) blank (keyword 1 45 (codes "JFILE") (word (codes "CUST") ∷ word (codes "ORDERS") ∷ []) ∷ []) ∷
        line 2 kinds.Join Blank blank (keyword 2 45 (codes "JFLD") (word (codes "NO") ∷ word (codes "NO") ∷ []) ∷ []) ∷
        line 3 kinds.Field (Named (codes "ID")) blank [] ∷
        [])
        ≡ fault 3 19 causes.NoBaseField }
    //      A          R JOINR                     JFILE(CUST ORDERS)
    //      A          J                           JFLD(NO NO)
    //      A            NAME                      JREF(2)
    ensures not_of_that_file { described 3 [] (
        line 1 kinds.Record (Named (codes "JOINR")) blank (keyword 1 45 (codes "JFILE") (word (codes "CUST") ∷ word (codes "ORDERS") ∷ []) ∷ []) ∷
        line 2 kinds.Join Blank blank (keyword 2 45 (codes "JFLD") (word (codes "NO") ∷ word (codes "NO") ∷ []) ∷ []) ∷
        line 3 kinds.Field (Named (codes "NAME")) blank (keyword 3 45 (codes "JREF") (number 2 ∷ []) ∷ []) ∷
        [])
        ≡ fault 3 19 causes.NoBaseField }
{}

/// On the last line, in its first column.
pub fn no_format()
    //      A                                      FIFO
    ensures empty { described 1 (flag 1 45 (codes "FIFO") ∷ []) (
        [])
        ≡ fault 1 1 causes.NoFormat }
    //      A          R VIEWR
    //      A            NAME
    ensures no_file { described 2 [] (
        line 1 kinds.Record (Named (codes "VIEWR")) blank [] ∷
        line 2 kinds.Field (Named (codes "NAME")) blank [] ∷
        [])
        ≡ fault 2 1 causes.NoFormat }
    //      A          R JOINR                     JFILE(CUST ORDERS)
    //      A          J                           JFLD(NO NO)
    ensures no_fields { described 2 [] (
        line 1 kinds.Record (Named (codes "JOINR")) blank (keyword 1 45 (codes "JFILE") (word (codes "CUST") ∷ word (codes "ORDERS") ∷ []) ∷ []) ∷
        line 2 kinds.Join Blank blank (keyword 2 45 (codes "JFLD") (word (codes "NO") ∷ word (codes "NO") ∷ []) ∷ []) ∷
        [])
        ≡ fault 2 1 causes.NoFormat }
{}

/// A record or a key, on the last line, in its first column.
pub fn too_large()
    //      A          R VIEWR                     PFILE(WIDE)
    //      A            W
    //      A            X                         RENAME(W)
    ensures record { described 3 [] (
        line 1 kinds.Record (Named (codes "VIEWR")) blank (keyword 1 45 (codes "PFILE") (word (codes "WIDE") ∷ []) ∷ []) ∷
        line 2 kinds.Field (Named (codes "W")) blank [] ∷
        line 3 kinds.Field (Named (codes "X")) blank (keyword 3 45 (codes "RENAME") (word (codes "W") ∷ []) ∷ []) ∷
        [])
        ≡ fault 3 1 causes.TooLarge }
    //      A          R VIEWR                     PFILE(WIDE)
    //      A          K W
    ensures key { described 2 [] (
        line 1 kinds.Record (Named (codes "VIEWR")) blank (keyword 1 45 (codes "PFILE") (word (codes "WIDE") ∷ []) ∷ []) ∷
        line 2 kinds.Key (Named (codes "W")) blank [] ∷
        [])
        ≡ fault 2 1 causes.TooLarge }
    // Formats, fields and key fields: at the name of the first that is too many.
    ensures lines { too_many_faults 1 (
        line 4 kinds.Field (Named (codes "A")) blank [] ∷
        line 5 kinds.Field (Named (codes "B")) blank [] ∷
        line 6 kinds.Field (Named (codes "C")) blank [] ∷
        [])
        ≡ record { line = 5; column = 19; cause = causes.TooLarge } ∷ [] }
{}

/// By line, then by column, then by cause.
pub fn the_first()
    //      A          R VIEWR                     PFILE(CUST)
    //      A            AMT
    //      A            NO              Q
    ensures line { described 3 [] (
        line 1 kinds.Record (Named (codes "VIEWR")) blank (keyword 1 45 (codes "PFILE") (word (codes "CUST") ∷ []) ∷ []) ∷
        line 2 kinds.Field (Named (codes "AMT")) blank [] ∷
        line 3 kinds.Field (Named (codes "NO")) (entries None (Some 81) None None) [] ∷
        [])
        ≡ fault 2 19 causes.NoBaseField }
    //      A          R VIEWR                     PFILE(CUST)
    //      A            NO            32   N
    ensures column { described 2 [] (
        line 1 kinds.Record (Named (codes "VIEWR")) blank (keyword 1 45 (codes "PFILE") (word (codes "CUST") ∷ []) ∷ []) ∷
        line 2 kinds.Field (Named (codes "NO")) (entries (Some 32) None None (Some 78)) [] ∷
        [])
        ≡ fault 2 30 causes.BadLength }
    // The second X is on a later line.
    //      A          R VIEWR                     PFILE(CUST)
    //      A            NAME
    //      A            X
    //      A            X
    ensures cause { described 4 [] (
        line 1 kinds.Record (Named (codes "VIEWR")) blank (keyword 1 45 (codes "PFILE") (word (codes "CUST") ∷ []) ∷ []) ∷
        line 2 kinds.Field (Named (codes "NAME")) blank [] ∷
        line 3 kinds.Field (Named (codes "X")) blank [] ∷
        line 4 kinds.Field (Named (codes "X")) blank [] ∷
        [])
        ≡ fault 3 19 causes.NoBaseField }
    // The base has no field of that name either.
    //      A          R VIEWR                     PFILE(CUST)
    //      A            NM                        RENAME(NAME)
    //      A            NM
    ensures at_one_place { described 3 [] (
        line 1 kinds.Record (Named (codes "VIEWR")) blank (keyword 1 45 (codes "PFILE") (word (codes "CUST") ∷ []) ∷ []) ∷
        line 2 kinds.Field (Named (codes "NM")) blank (keyword 2 45 (codes "RENAME") (word (codes "NAME") ∷ []) ∷ []) ∷
        line 3 kinds.Field (Named (codes "NM")) blank [] ∷
        [])
        ≡ fault 3 19 causes.DuplicateName }
    //      A          R A                         PFILE(CUST)
    //      A          K *NONE
    //      A          K NO
    //      A          R A                         PFILE(NONE)
    ensures same_place { described 4 [] (
        line 1 kinds.Record (Named (codes "A")) blank (keyword 1 45 (codes "PFILE") (word (codes "CUST") ∷ []) ∷ []) ∷
        line 2 kinds.Key StarNone blank [] ∷
        line 3 kinds.Key (Named (codes "NO")) blank [] ∷
        line 4 kinds.Record (Named (codes "A")) blank (keyword 4 45 (codes "PFILE") (word (codes "NONE") ∷ []) ∷ []) ∷
        [])
        ≡ fault 4 19 causes.DuplicateName }
{}
