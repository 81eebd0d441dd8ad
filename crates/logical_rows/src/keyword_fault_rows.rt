//! What is wrong with sources, and where it stands: keywords, keys, selects, omits and joins.
ghost use Rattle.std.specs.Prelude.{◌≡◌, List, [], ◌∷◌, Some, None, codes};
ghost use Rattle.dds_source.specs.declared.faults.DdsCause.TheVariants as causes;
ghost use Rattle.dds_source.specs.declared.specifications.NameEntry.TheVariants.{Blank, Named, StarNone};
ghost use Rattle.dds_source.specs.declared.specifications.SpecificationKind.TheVariants as kinds;
ghost use Rattle.logical_rows.specs.Sources.{described, keyword, flag, word, number, quoted, special, blank, entries, referring, line, fault};

/// Another place or another kind of file.
pub fn unknown_keywords()
    //      A                                      REF(CUST)
    //      A          R VIEWR                     PFILE(CUST)
    ensures file { described 2 (keyword 1 45 (codes "REF") (word (codes "CUST") ∷ []) ∷ []) (
        line 2 kinds.Record (Named (codes "VIEWR")) blank (keyword 2 45 (codes "PFILE") (word (codes "CUST") ∷ []) ∷ []) ∷
        [])
        ≡ fault 1 45 causes.UnknownKeyword }
    //      A          R VIEWR                     PFILE(CUST) UNIQUE
    ensures record { described 1 [] (
        line 1 kinds.Record (Named (codes "VIEWR")) blank (keyword 1 45 (codes "PFILE") (word (codes "CUST") ∷ []) ∷ flag 1 57 (codes "UNIQUE") ∷ []) ∷
        [])
        ≡ fault 1 57 causes.UnknownKeyword }
    //      A          R VIEWR                     PFILE(CUST)
    //      A            NAME                      CHECK(ME)
    ensures field { described 2 [] (
        line 1 kinds.Record (Named (codes "VIEWR")) blank (keyword 1 45 (codes "PFILE") (word (codes "CUST") ∷ []) ∷ []) ∷
        line 2 kinds.Field (Named (codes "NAME")) blank (keyword 2 45 (codes "CHECK") (word (codes "ME") ∷ []) ∷ []) ∷
        [])
        ≡ fault 2 45 causes.UnknownKeyword }
    //      A          R VIEWR                     PFILE(CUST)
    //      A          K NAME                      TEXT('K')
    ensures key { described 2 [] (
        line 1 kinds.Record (Named (codes "VIEWR")) blank (keyword 1 45 (codes "PFILE") (word (codes "CUST") ∷ []) ∷ []) ∷
        line 2 kinds.Key (Named (codes "NAME")) blank (keyword 2 45 (codes "TEXT") (quoted (codes "K") ∷ []) ∷ []) ∷
        [])
        ≡ fault 2 45 causes.UnknownKeyword }
    //      A          R VIEWR                     PFILE(CUST)
    //      A          S NAME                      CHECK(ME)
    ensures select { described 2 [] (
        line 1 kinds.Record (Named (codes "VIEWR")) blank (keyword 1 45 (codes "PFILE") (word (codes "CUST") ∷ []) ∷ []) ∷
        line 2 kinds.Select (Named (codes "NAME")) blank (keyword 2 45 (codes "CHECK") (word (codes "ME") ∷ []) ∷ []) ∷
        [])
        ≡ fault 2 45 causes.UnknownKeyword }
    //      A          R VIEWR                     PFILE(CUST) JFILE(CUST ORDERS)
    ensures both_files { described 1 [] (
        line 1 kinds.Record (Named (codes "VIEWR")) blank (keyword 1 45 (codes "PFILE") (word (codes "CUST") ∷ []) ∷ keyword 1 57 (codes "JFILE") (word (codes "CUST") ∷ word (codes "ORDERS") ∷ []) ∷ []) ∷
        [])
        ≡ fault 1 57 causes.UnknownKeyword }
    //      A          R JOINR                     JFILE(CUST ORDERS)
    //      A          J                           JFLD(NO NO) UNIQUE
    //      A            NAME
    ensures join { described 3 [] (
        line 1 kinds.Record (Named (codes "JOINR")) blank (keyword 1 45 (codes "JFILE") (word (codes "CUST") ∷ word (codes "ORDERS") ∷ []) ∷ []) ∷
        line 2 kinds.Join Blank blank (keyword 2 45 (codes "JFLD") (word (codes "NO") ∷ word (codes "NO") ∷ []) ∷ flag 2 57 (codes "UNIQUE") ∷ []) ∷
        line 3 kinds.Field (Named (codes "NAME")) blank [] ∷
        [])
        ≡ fault 2 57 causes.UnknownKeyword }
{}

/// Other arguments than the keyword takes.
pub fn bad_arguments()
    //      A          R VIEWR                     PFILE(CUST CUST)
    ensures two_files { described 1 [] (
        line 1 kinds.Record (Named (codes "VIEWR")) blank (keyword 1 45 (codes "PFILE") (word (codes "CUST") ∷ word (codes "CUST") ∷ []) ∷ []) ∷
        [])
        ≡ fault 1 45 causes.BadArguments }
    //      A          R JOINR                     JFILE(CUST)
    //      A            NAME
    ensures one_joined { described 2 [] (
        line 1 kinds.Record (Named (codes "JOINR")) blank (keyword 1 45 (codes "JFILE") (word (codes "CUST") ∷ []) ∷ []) ∷
        line 2 kinds.Field (Named (codes "NAME")) blank [] ∷
        [])
        ≡ fault 1 45 causes.BadArguments }
    //      A                                      DYNSLT(1)
    //      A          R VIEWR                     PFILE(CUST)
    ensures flag { described 2 (keyword 1 45 (codes "DYNSLT") (number 1 ∷ []) ∷ []) (
        line 2 kinds.Record (Named (codes "VIEWR")) blank (keyword 2 45 (codes "PFILE") (word (codes "CUST") ∷ []) ∷ []) ∷
        [])
        ≡ fault 1 45 causes.BadArguments }
    //      A          R VIEWR                     PFILE(CUST)
    //      A            NN                        SST(NO 1 1)
    ensures part_of_number { described 2 [] (
        line 1 kinds.Record (Named (codes "VIEWR")) blank (keyword 1 45 (codes "PFILE") (word (codes "CUST") ∷ []) ∷ []) ∷
        line 2 kinds.Field (Named (codes "NN")) blank (keyword 2 45 (codes "SST") (word (codes "NO") ∷ number 1 ∷ number 1 ∷ []) ∷ []) ∷
        [])
        ≡ fault 2 45 causes.BadArguments }
    //      A          R VIEWR                     PFILE(CUST)
    //      A            NN                        SST(NAME 0 1)
    ensures part_at_0 { described 2 [] (
        line 1 kinds.Record (Named (codes "VIEWR")) blank (keyword 1 45 (codes "PFILE") (word (codes "CUST") ∷ []) ∷ []) ∷
        line 2 kinds.Field (Named (codes "NN")) blank (keyword 2 45 (codes "SST") (word (codes "NAME") ∷ number 0 ∷ number 1 ∷ []) ∷ []) ∷
        [])
        ≡ fault 2 45 causes.BadArguments }
    //      A          R VIEWR                     PFILE(CUST)
    //      A            NN                        SST(NAME 6)
    ensures part_behind { described 2 [] (
        line 1 kinds.Record (Named (codes "VIEWR")) blank (keyword 1 45 (codes "PFILE") (word (codes "CUST") ∷ []) ∷ []) ∷
        line 2 kinds.Field (Named (codes "NN")) blank (keyword 2 45 (codes "SST") (word (codes "NAME") ∷ number 6 ∷ []) ∷ []) ∷
        [])
        ≡ fault 2 45 causes.BadArguments }
    //      A          R VIEWR                     PFILE(CUST)
    //      A            NN                        SST(NAME 4 3)
    ensures part_beyond { described 2 [] (
        line 1 kinds.Record (Named (codes "VIEWR")) blank (keyword 1 45 (codes "PFILE") (word (codes "CUST") ∷ []) ∷ []) ∷
        line 2 kinds.Field (Named (codes "NN")) blank (keyword 2 45 (codes "SST") (word (codes "NAME") ∷ number 4 ∷ number 3 ∷ []) ∷ []) ∷
        [])
        ≡ fault 2 45 causes.BadArguments }
    //      A          R VIEWR                     PFILE(CUST)
    //      A            NN                        CONCAT(NAME NO)
    ensures number_in_row { described 2 [] (
        line 1 kinds.Record (Named (codes "VIEWR")) blank (keyword 1 45 (codes "PFILE") (word (codes "CUST") ∷ []) ∷ []) ∷
        line 2 kinds.Field (Named (codes "NN")) blank (keyword 2 45 (codes "CONCAT") (word (codes "NAME") ∷ word (codes "NO") ∷ []) ∷ []) ∷
        [])
        ≡ fault 2 45 causes.BadArguments }
    //      A          R VIEWR                     PFILE(CUST)
    //      A            NO                        JREF(1)
    ensures file_number { described 2 [] (
        line 1 kinds.Record (Named (codes "VIEWR")) blank (keyword 1 45 (codes "PFILE") (word (codes "CUST") ∷ []) ∷ []) ∷
        line 2 kinds.Field (Named (codes "NO")) blank (keyword 2 45 (codes "JREF") (number 1 ∷ []) ∷ []) ∷
        [])
        ≡ fault 2 45 causes.BadArguments }
    //      A          R VIEWR                     PFILE(CUST)
    //      A          S NAME                      COMP(EQ 'ABCDEF')
    ensures literal_too_long { described 2 [] (
        line 1 kinds.Record (Named (codes "VIEWR")) blank (keyword 1 45 (codes "PFILE") (word (codes "CUST") ∷ []) ∷ []) ∷
        line 2 kinds.Select (Named (codes "NAME")) blank (keyword 2 45 (codes "COMP") (word (codes "EQ") ∷ quoted (codes "ABCDEF") ∷ []) ∷ []) ∷
        [])
        ≡ fault 2 45 causes.BadArguments }
    //      A          R VIEWR                     PFILE(CUST)
    //      A          S NO                        VALUES(1 'A')
    ensures literal_of_other_kind { described 2 [] (
        line 1 kinds.Record (Named (codes "VIEWR")) blank (keyword 1 45 (codes "PFILE") (word (codes "CUST") ∷ []) ∷ []) ∷
        line 2 kinds.Select (Named (codes "NO")) blank (keyword 2 45 (codes "VALUES") (number 1 ∷ quoted (codes "A") ∷ []) ∷ []) ∷
        [])
        ≡ fault 2 45 causes.BadArguments }
    //      A          R VIEWR                     PFILE(CUST)
    //      A          S NO                        COMP(IS 1)
    ensures relation { described 2 [] (
        line 1 kinds.Record (Named (codes "VIEWR")) blank (keyword 1 45 (codes "PFILE") (word (codes "CUST") ∷ []) ∷ []) ∷
        line 2 kinds.Select (Named (codes "NO")) blank (keyword 2 45 (codes "COMP") (word (codes "IS") ∷ number 1 ∷ []) ∷ []) ∷
        [])
        ≡ fault 2 45 causes.BadArguments }
    //      A          R VIEWR                     PFILE(CUST)
    //      A          S NO                        RANGE(1)
    ensures one_end { described 2 [] (
        line 1 kinds.Record (Named (codes "VIEWR")) blank (keyword 1 45 (codes "PFILE") (word (codes "CUST") ∷ []) ∷ []) ∷
        line 2 kinds.Select (Named (codes "NO")) blank (keyword 2 45 (codes "RANGE") (number 1 ∷ []) ∷ []) ∷
        [])
        ≡ fault 2 45 causes.BadArguments }
    //      A          R VIEWR                     PFILE(CUST)
    //      A          S NO                        COMP(EQ NAME)
    ensures other_kind { described 2 [] (
        line 1 kinds.Record (Named (codes "VIEWR")) blank (keyword 1 45 (codes "PFILE") (word (codes "CUST") ∷ []) ∷ []) ∷
        line 2 kinds.Select (Named (codes "NO")) blank (keyword 2 45 (codes "COMP") (word (codes "EQ") ∷ word (codes "NAME") ∷ []) ∷ []) ∷
        [])
        ≡ fault 2 45 causes.BadArguments }
    //      A          R VIEWR                     PFILE(CUST)
    //      A          S NO                        ALL
    ensures all_with_name { described 2 [] (
        line 1 kinds.Record (Named (codes "VIEWR")) blank (keyword 1 45 (codes "PFILE") (word (codes "CUST") ∷ []) ∷ []) ∷
        line 2 kinds.Select (Named (codes "NO")) blank (flag 2 45 (codes "ALL") ∷ []) ∷
        [])
        ≡ fault 2 45 causes.BadArguments }
    //      A          R VIEWR                     PFILE(CUST)
    //      A          O                           COMP(EQ 1) ALL
    ensures all_with_other { described 2 [] (
        line 1 kinds.Record (Named (codes "VIEWR")) blank (keyword 1 45 (codes "PFILE") (word (codes "CUST") ∷ []) ∷ []) ∷
        line 2 kinds.Omit Blank blank (keyword 2 45 (codes "COMP") (word (codes "EQ") ∷ number 1 ∷ []) ∷ flag 2 56 (codes "ALL") ∷ []) ∷
        [])
        ≡ fault 2 56 causes.BadArguments }
    //      A          R VIEWR                     PFILE(CUST)
    //      A          O                           ALL
    //      A            NO                        COMP(EQ 1)
    ensures all_with_further { described 3 [] (
        line 1 kinds.Record (Named (codes "VIEWR")) blank (keyword 1 45 (codes "PFILE") (word (codes "CUST") ∷ []) ∷ []) ∷
        line 2 kinds.Omit Blank blank (flag 2 45 (codes "ALL") ∷ []) ∷
        line 3 kinds.And (Named (codes "NO")) blank (keyword 3 45 (codes "COMP") (word (codes "EQ") ∷ number 1 ∷ []) ∷ []) ∷
        [])
        ≡ fault 2 45 causes.BadArguments }
{}

/// At the later of two keywords, or at UNIQUE.
pub fn conflicts()
    //      A                                      LIFO FIFO
    //      A          R VIEWR                     PFILE(CUST)
    ensures orders { described 2 (flag 1 45 (codes "LIFO") ∷ flag 1 50 (codes "FIFO") ∷ []) (
        line 2 kinds.Record (Named (codes "VIEWR")) blank (keyword 2 45 (codes "PFILE") (word (codes "CUST") ∷ []) ∷ []) ∷
        [])
        ≡ fault 1 50 causes.Conflict }
    //      A          R VIEWR                     PFILE(CUST)
    //      A            NM                        RENAME(NAME) RENAME(NAME)
    ensures twice { described 2 [] (
        line 1 kinds.Record (Named (codes "VIEWR")) blank (keyword 1 45 (codes "PFILE") (word (codes "CUST") ∷ []) ∷ []) ∷
        line 2 kinds.Field (Named (codes "NM")) blank (keyword 2 45 (codes "RENAME") (word (codes "NAME") ∷ []) ∷ keyword 2 58 (codes "RENAME") (word (codes "NAME") ∷ []) ∷ []) ∷
        [])
        ≡ fault 2 58 causes.Conflict }
    //      A                                      UNIQUE
    //      A          R VIEWR                     PFILE(CUST)
    ensures no_key { described 2 (flag 1 45 (codes "UNIQUE") ∷ []) (
        line 2 kinds.Record (Named (codes "VIEWR")) blank (keyword 2 45 (codes "PFILE") (word (codes "CUST") ∷ []) ∷ []) ∷
        [])
        ≡ fault 1 45 causes.Conflict }
    //      A                                      UNIQUE
    //      A          R A                         PFILE(CUST)
    //      A          K NO
    //      A          R B                         PFILE(CUST)
    //      A          K NO
    ensures several_formats { described 5 (flag 1 45 (codes "UNIQUE") ∷ []) (
        line 2 kinds.Record (Named (codes "A")) blank (keyword 2 45 (codes "PFILE") (word (codes "CUST") ∷ []) ∷ []) ∷
        line 3 kinds.Key (Named (codes "NO")) blank [] ∷
        line 4 kinds.Record (Named (codes "B")) blank (keyword 4 45 (codes "PFILE") (word (codes "CUST") ∷ []) ∷ []) ∷
        line 5 kinds.Key (Named (codes "NO")) blank [] ∷
        [])
        ≡ fault 1 45 causes.Conflict }
{}

/// A name that no field has there.
pub fn no_such_field()
    //      A          R VIEWR                     PFILE(CUST)
    //      A            NM                        RENAME(NAME)
    //      A          K NAME
    ensures key { described 3 [] (
        line 1 kinds.Record (Named (codes "VIEWR")) blank (keyword 1 45 (codes "PFILE") (word (codes "CUST") ∷ []) ∷ []) ∷
        line 2 kinds.Field (Named (codes "NM")) blank (keyword 2 45 (codes "RENAME") (word (codes "NAME") ∷ []) ∷ []) ∷
        line 3 kinds.Key (Named (codes "NAME")) blank [] ∷
        [])
        ≡ fault 3 19 causes.NoSuchField }
    //      A          R VIEWR                     PFILE(CUST)
    //      A          K *NONE
    ensures none { described 2 [] (
        line 1 kinds.Record (Named (codes "VIEWR")) blank (keyword 1 45 (codes "PFILE") (word (codes "CUST") ∷ []) ∷ []) ∷
        line 2 kinds.Key StarNone blank [] ∷
        [])
        ≡ fault 2 19 causes.NoSuchField }
    //      A          R VIEWR                     PFILE(CUST)
    //      A          S AMT
    ensures select { described 2 [] (
        line 1 kinds.Record (Named (codes "VIEWR")) blank (keyword 1 45 (codes "PFILE") (word (codes "CUST") ∷ []) ∷ []) ∷
        line 2 kinds.Select (Named (codes "AMT")) blank [] ∷
        [])
        ≡ fault 2 19 causes.NoSuchField }
    //      A          R VIEWR                     PFILE(CUST)
    //      A          S NO                        COMP(EQ AMT)
    ensures compared { described 2 [] (
        line 1 kinds.Record (Named (codes "VIEWR")) blank (keyword 1 45 (codes "PFILE") (word (codes "CUST") ∷ []) ∷ []) ∷
        line 2 kinds.Select (Named (codes "NO")) blank (keyword 2 45 (codes "COMP") (word (codes "EQ") ∷ word (codes "AMT") ∷ []) ∷ []) ∷
        [])
        ≡ fault 2 45 causes.NoSuchField }
    //      A          R JOINR                     JFILE(CUST ORDERS)
    //      A          J                           JFLD(NO NO) JFLD(AMT NO)
    //      A            NAME
    ensures joined { described 3 [] (
        line 1 kinds.Record (Named (codes "JOINR")) blank (keyword 1 45 (codes "JFILE") (word (codes "CUST") ∷ word (codes "ORDERS") ∷ []) ∷ []) ∷
        line 2 kinds.Join Blank blank (keyword 2 45 (codes "JFLD") (word (codes "NO") ∷ word (codes "NO") ∷ []) ∷ keyword 2 57 (codes "JFLD") (word (codes "AMT") ∷ word (codes "NO") ∷ []) ∷ []) ∷
        line 3 kinds.Field (Named (codes "NAME")) blank [] ∷
        [])
        ≡ fault 2 57 causes.NoSuchField }
    //      A          R JOINR                     JFILE(CUST ORDERS)
    //      A          J                           JDUPSEQ(NAME)
    //      A            NAME
    ensures sequence { described 3 [] (
        line 1 kinds.Record (Named (codes "JOINR")) blank (keyword 1 45 (codes "JFILE") (word (codes "CUST") ∷ word (codes "ORDERS") ∷ []) ∷ []) ∷
        line 2 kinds.Join Blank blank (keyword 2 45 (codes "JDUPSEQ") (word (codes "NAME") ∷ []) ∷ []) ∷
        line 3 kinds.Field (Named (codes "NAME")) blank [] ∷
        [])
        ≡ fault 2 45 causes.NoSuchField }
{}

/// A position that differs from an earlier format's, and joined fields of different kinds.
pub fn key_mismatches()
    //      A          R A                         PFILE(CUST)
    //      A          K NAME
    //      A          R B                         PFILE(ORDERS)
    //      A          K NO
    ensures types { described 4 [] (
        line 1 kinds.Record (Named (codes "A")) blank (keyword 1 45 (codes "PFILE") (word (codes "CUST") ∷ []) ∷ []) ∷
        line 2 kinds.Key (Named (codes "NAME")) blank [] ∷
        line 3 kinds.Record (Named (codes "B")) blank (keyword 3 45 (codes "PFILE") (word (codes "ORDERS") ∷ []) ∷ []) ∷
        line 4 kinds.Key (Named (codes "NO")) blank [] ∷
        [])
        ≡ fault 4 19 causes.KeyMismatch }
    //      A          R A                         PFILE(CUST)
    //      A          K NO
    //      A          R B                         PFILE(ORDERS)
    //      A            NO             5
    //      A          K NO
    ensures length { described 5 [] (
        line 1 kinds.Record (Named (codes "A")) blank (keyword 1 45 (codes "PFILE") (word (codes "CUST") ∷ []) ∷ []) ∷
        line 2 kinds.Key (Named (codes "NO")) blank [] ∷
        line 3 kinds.Record (Named (codes "B")) blank (keyword 3 45 (codes "PFILE") (word (codes "ORDERS") ∷ []) ∷ []) ∷
        line 4 kinds.Field (Named (codes "NO")) (entries (Some 5) None None None) [] ∷
        line 5 kinds.Key (Named (codes "NO")) blank [] ∷
        [])
        ≡ fault 5 19 causes.KeyMismatch }
    //      A          R A                         PFILE(CUST)
    //      A          K NO
    //      A          R B                         PFILE(ORDERS)
    //      A          K NO                        DESCEND
    ensures descend { described 4 [] (
        line 1 kinds.Record (Named (codes "A")) blank (keyword 1 45 (codes "PFILE") (word (codes "CUST") ∷ []) ∷ []) ∷
        line 2 kinds.Key (Named (codes "NO")) blank [] ∷
        line 3 kinds.Record (Named (codes "B")) blank (keyword 3 45 (codes "PFILE") (word (codes "ORDERS") ∷ []) ∷ []) ∷
        line 4 kinds.Key (Named (codes "NO")) blank (flag 4 45 (codes "DESCEND") ∷ []) ∷
        [])
        ≡ fault 4 19 causes.KeyMismatch }
    //      A          R A                         PFILE(CUST)
    //      A          K *NONE
    //      A          K NO
    //      A          R B                         PFILE(ORDERS)
    //      A          K NO
    //      A          K AMT                       ABSVAL
    ensures absval { described 6 [] (
        line 1 kinds.Record (Named (codes "A")) blank (keyword 1 45 (codes "PFILE") (word (codes "CUST") ∷ []) ∷ []) ∷
        line 2 kinds.Key StarNone blank [] ∷
        line 3 kinds.Key (Named (codes "NO")) blank [] ∷
        line 4 kinds.Record (Named (codes "B")) blank (keyword 4 45 (codes "PFILE") (word (codes "ORDERS") ∷ []) ∷ []) ∷
        line 5 kinds.Key (Named (codes "NO")) blank [] ∷
        line 6 kinds.Key (Named (codes "AMT")) blank (flag 6 45 (codes "ABSVAL") ∷ []) ∷
        [])
        ≡ fault 6 19 causes.KeyMismatch }
    //      A          R A                         PFILE(CUST)
    //      A          K NO
    //      A          R B                         PFILE(ORDERS)
    //      A          K *NONE
    //      A          R C                         PFILE(ORDERS)
    //      A          K CODE
    ensures with_the_first { described 6 [] (
        line 1 kinds.Record (Named (codes "A")) blank (keyword 1 45 (codes "PFILE") (word (codes "CUST") ∷ []) ∷ []) ∷
        line 2 kinds.Key (Named (codes "NO")) blank [] ∷
        line 3 kinds.Record (Named (codes "B")) blank (keyword 3 45 (codes "PFILE") (word (codes "ORDERS") ∷ []) ∷ []) ∷
        line 4 kinds.Key StarNone blank [] ∷
        line 5 kinds.Record (Named (codes "C")) blank (keyword 5 45 (codes "PFILE") (word (codes "ORDERS") ∷ []) ∷ []) ∷
        line 6 kinds.Key (Named (codes "CODE")) blank [] ∷
        [])
        ≡ fault 6 19 causes.KeyMismatch }
    //      A          R JOINR                     JFILE(CUST ORDERS)
    //      A          J                           JFLD(NAME NO)
    //      A            NAME
    ensures joined { described 3 [] (
        line 1 kinds.Record (Named (codes "JOINR")) blank (keyword 1 45 (codes "JFILE") (word (codes "CUST") ∷ word (codes "ORDERS") ∷ []) ∷ []) ∷
        line 2 kinds.Join Blank blank (keyword 2 45 (codes "JFLD") (word (codes "NAME") ∷ word (codes "NO") ∷ []) ∷ []) ∷
        line 3 kinds.Field (Named (codes "NAME")) blank [] ∷
        [])
        ≡ fault 2 45 causes.KeyMismatch }
{}

/// How files are reached stands at JFILE; keys are the primary's; fields are read only and of one file.
pub fn joins()
    //      A          R JOINR                     JFILE(CUST ORDERS)
    //      A            NAME
    ensures not_reached { described 2 [] (
        line 1 kinds.Record (Named (codes "JOINR")) blank (keyword 1 45 (codes "JFILE") (word (codes "CUST") ∷ word (codes "ORDERS") ∷ []) ∷ []) ∷
        line 2 kinds.Field (Named (codes "NAME")) blank [] ∷
        [])
        ≡ fault 1 45 causes.BadArguments }
    //      A          R JOINR                     JFILE(CUST ORDERS)
    //      A          J                           JFLD(NO NO)
    //      A          J                           JFLD(NO AMT)
    //      A            NAME
    ensures reached_twice { described 4 [] (
        line 1 kinds.Record (Named (codes "JOINR")) blank (keyword 1 45 (codes "JFILE") (word (codes "CUST") ∷ word (codes "ORDERS") ∷ []) ∷ []) ∷
        line 2 kinds.Join Blank blank (keyword 2 45 (codes "JFLD") (word (codes "NO") ∷ word (codes "NO") ∷ []) ∷ []) ∷
        line 3 kinds.Join Blank blank (keyword 3 45 (codes "JFLD") (word (codes "NO") ∷ word (codes "AMT") ∷ []) ∷ []) ∷
        line 4 kinds.Field (Named (codes "NAME")) blank [] ∷
        [])
        ≡ fault 1 45 causes.BadArguments }
    //      A          R JOINR                     JFILE(CUST ORDERS)
    //      A          J                           JOIN(ORDERS CUST)
    //      A            NAME
    ensures backwards { described 3 [] (
        line 1 kinds.Record (Named (codes "JOINR")) blank (keyword 1 45 (codes "JFILE") (word (codes "CUST") ∷ word (codes "ORDERS") ∷ []) ∷ []) ∷
        line 2 kinds.Join Blank blank (keyword 2 45 (codes "JOIN") (word (codes "ORDERS") ∷ word (codes "CUST") ∷ []) ∷ []) ∷
        line 3 kinds.Field (Named (codes "NAME")) blank [] ∷
        [])
        ≡ fault 1 45 causes.BadArguments }
    // Each file is reached once, and one from a later file.
    //      A          R JOINR                     JFILE(CUST ORDERS CHAINED)
    //      A          J                           JOIN(CUST CHAINED)
    //      A          J                           JOIN(CHAINED ORDERS)
    //      A            NAME
    ensures from_a_later { described 4 [] (
        line 1 kinds.Record (Named (codes "JOINR")) blank (keyword 1 45 (codes "JFILE") (word (codes "CUST") ∷ word (codes "ORDERS") ∷ word (codes "CHAINED") ∷ []) ∷ []) ∷
        line 2 kinds.Join Blank blank (keyword 2 45 (codes "JOIN") (word (codes "CUST") ∷ word (codes "CHAINED") ∷ []) ∷ []) ∷
        line 3 kinds.Join Blank blank (keyword 3 45 (codes "JOIN") (word (codes "CHAINED") ∷ word (codes "ORDERS") ∷ []) ∷ []) ∷
        line 4 kinds.Field (Named (codes "NAME")) blank [] ∷
        [])
        ≡ fault 1 45 causes.BadArguments }
    //      A          R JOINR                     JFILE(CUST ORDERS CHAINED)
    //      A          J                           JOIN(CUST ORDERS)
    //      A          J                           JFLD(NO ID)
    //      A            NAME
    ensures of_three { described 4 [] (
        line 1 kinds.Record (Named (codes "JOINR")) blank (keyword 1 45 (codes "JFILE") (word (codes "CUST") ∷ word (codes "ORDERS") ∷ word (codes "CHAINED") ∷ []) ∷ []) ∷
        line 2 kinds.Join Blank blank (keyword 2 45 (codes "JOIN") (word (codes "CUST") ∷ word (codes "ORDERS") ∷ []) ∷ []) ∷
        line 3 kinds.Join Blank blank (keyword 3 45 (codes "JFLD") (word (codes "NO") ∷ word (codes "ID") ∷ []) ∷ []) ∷
        line 4 kinds.Field (Named (codes "NAME")) blank [] ∷
        [])
        ≡ fault 1 45 causes.BadArguments }
    //      A          R JOINR                     JFILE(CUST ORDERS)
    //      A          J                           JOIN(CUST CHAINED)
    //      A            NAME
    ensures another_file { described 3 [] (
        line 1 kinds.Record (Named (codes "JOINR")) blank (keyword 1 45 (codes "JFILE") (word (codes "CUST") ∷ word (codes "ORDERS") ∷ []) ∷ []) ∷
        line 2 kinds.Join Blank blank (keyword 2 45 (codes "JOIN") (word (codes "CUST") ∷ word (codes "CHAINED") ∷ []) ∷ []) ∷
        line 3 kinds.Field (Named (codes "NAME")) blank [] ∷
        [])
        ≡ fault 1 45 causes.BadArguments }
    //      A          R JOINR                     JFILE(CUST ORDERS)
    //      A          J                           JFLD(NO NO)
    //      A            NO
    ensures two_have_it { described 3 [] (
        line 1 kinds.Record (Named (codes "JOINR")) blank (keyword 1 45 (codes "JFILE") (word (codes "CUST") ∷ word (codes "ORDERS") ∷ []) ∷ []) ∷
        line 2 kinds.Join Blank blank (keyword 2 45 (codes "JFLD") (word (codes "NO") ∷ word (codes "NO") ∷ []) ∷ []) ∷
        line 3 kinds.Field (Named (codes "NO")) blank [] ∷
        [])
        ≡ fault 3 19 causes.BadArguments }
    //      A          R JOINR                     JFILE(CUST ORDERS)
    //      A          J                           JFLD(NO NO)
    //      A            NO                        JREF(3)
    ensures no_such_file { described 3 [] (
        line 1 kinds.Record (Named (codes "JOINR")) blank (keyword 1 45 (codes "JFILE") (word (codes "CUST") ∷ word (codes "ORDERS") ∷ []) ∷ []) ∷
        line 2 kinds.Join Blank blank (keyword 2 45 (codes "JFLD") (word (codes "NO") ∷ word (codes "NO") ∷ []) ∷ []) ∷
        line 3 kinds.Field (Named (codes "NO")) blank (keyword 3 45 (codes "JREF") (number 3 ∷ []) ∷ []) ∷
        [])
        ≡ fault 3 45 causes.BadArguments }
    //      A          R JOINR                     JFILE(CUST ORDERS)
    //      A          J                           JFLD(NO NO)
    //      A            AMT
    //      A          K AMT
    ensures key { described 4 [] (
        line 1 kinds.Record (Named (codes "JOINR")) blank (keyword 1 45 (codes "JFILE") (word (codes "CUST") ∷ word (codes "ORDERS") ∷ []) ∷ []) ∷
        line 2 kinds.Join Blank blank (keyword 2 45 (codes "JFLD") (word (codes "NO") ∷ word (codes "NO") ∷ []) ∷ []) ∷
        line 3 kinds.Field (Named (codes "AMT")) blank [] ∷
        line 4 kinds.Key (Named (codes "AMT")) blank [] ∷
        [])
        ≡ fault 4 19 causes.JoinKeyNotPrimary }
    //      A          R JOINR                     JFILE(CUST ORDERS)
    //      A          J                           JFLD(NO NO)
    //      A            AMT                B
    ensures usage { described 3 [] (
        line 1 kinds.Record (Named (codes "JOINR")) blank (keyword 1 45 (codes "JFILE") (word (codes "CUST") ∷ word (codes "ORDERS") ∷ []) ∷ []) ∷
        line 2 kinds.Join Blank blank (keyword 2 45 (codes "JFLD") (word (codes "NO") ∷ word (codes "NO") ∷ []) ∷ []) ∷
        line 3 kinds.Field (Named (codes "AMT")) (entries None None None (Some 66)) [] ∷
        [])
        ≡ fault 3 38 causes.ReadOnlyMapping }
    //      A          R JOINR                     JFILE(CUST ORDERS)
    //      A          J                           JFLD(NO NO)
    //      A            AMT            2
    ensures narrow { described 3 [] (
        line 1 kinds.Record (Named (codes "JOINR")) blank (keyword 1 45 (codes "JFILE") (word (codes "CUST") ∷ word (codes "ORDERS") ∷ []) ∷ []) ∷
        line 2 kinds.Join Blank blank (keyword 2 45 (codes "JFLD") (word (codes "NO") ∷ word (codes "NO") ∷ []) ∷ []) ∷
        line 3 kinds.Field (Named (codes "AMT")) (entries (Some 2) None None None) [] ∷
        [])
        ≡ fault 3 30 causes.Narrowing }
{}
