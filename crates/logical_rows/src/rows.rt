//! What sources describe: formats over one file each.
ghost use Rattle.std.specs.Prelude.{◌≡◌, List, [], ◌∷◌, Some, None, true, false, Ok, Err, codes};
ghost use Rattle.key_spec.specs.declared.KeyPart.TheVariants.{Field, Absent};
ghost use Rattle.key_spec.specs.declared.Ties.TheVariants.{Rising, Falling};
ghost use Rattle.file_model.specs.declared.views.FieldSource.TheVariants.{Copied, Converted, Concatenated, Substring};
ghost use Rattle.file_model.specs.declared.rules.Relation.TheVariants.{Equals, Differs, Below, AtMost, Above, AtLeast};
ghost use Rattle.file_model.specs.declared.rules.Test.TheVariants as tests;
ghost use Rattle.file_model.specs.declared.rules.Choice.TheVariants.{Select, Omit};
ghost use Rattle.dds_logical.specs.declared.views.LogicalSpec.TheVariants.{Simple, Multi};
ghost use Rattle.dds_source.specs.declared.faults.DdsCause.TheVariants.{BadType};
ghost use Rattle.dds_source.specs.declared.specifications.NameEntry.TheVariants.{Blank, Named, StarNone};
ghost use Rattle.dds_source.specs.declared.specifications.SpecificationKind.TheVariants as kinds;
ghost use Rattle.logical_rows.specs.Sources.{path_described, described, described_by_text, keyword, flag, word, number, quoted, special, blank, entries, line, characters, packed, whole, text, plain, shown, read_only, keyless, keyed, view, all_records, rules, statement, piece, field_itself, all_of, all_of_cust, headers, details};

/// A view has NAME alone, under another name.
pub fn renamed_field()
    //      A          R VIEWR                     PFILE(CUST)
    //      A            NM                        RENAME(NAME)
    ensures described { described 2 [] (
        line 1 kinds.Record (Named (codes "VIEWR")) blank (keyword 1 45 (codes "PFILE") (word (codes "CUST") ∷ []) ∷ []) ∷
        line 2 kinds.Field (Named (codes "NM")) blank (keyword 2 45 (codes "RENAME") (word (codes "NAME") ∷ []) ∷ []) ∷
        [])
        ≡ Ok (Simple (view (codes "CUST") (plain (codes "NM") (characters 5) 0 ∷ []) (shown (characters 5) (Copied 0) ∷ []) all_records keyless)) }
{}

/// Part of a field takes no value, with usage I or blank. Without a length it goes to the end of the field.
pub fn substring()
    //      A          R VIEWR                     PFILE(CUST)
    //      A            N2                        SST(NAME 2 2)
    ensures two { described 2 [] (
        line 1 kinds.Record (Named (codes "VIEWR")) blank (keyword 1 45 (codes "PFILE") (word (codes "CUST") ∷ []) ∷ []) ∷
        line 2 kinds.Field (Named (codes "N2")) blank (keyword 2 45 (codes "SST") (word (codes "NAME") ∷ number 2 ∷ number 2 ∷ []) ∷ []) ∷
        [])
        ≡ Ok (Simple (view (codes "CUST") (plain (codes "N2") (characters 2) 0 ∷ []) (read_only (characters 2) (Substring (piece 1 2)) ∷ []) all_records keyless)) }
    //      A          R VIEWR                     PFILE(CUST)
    //      A            N2                 I      SST(NAME 4)
    ensures to_the_end { described 2 [] (
        line 1 kinds.Record (Named (codes "VIEWR")) blank (keyword 1 45 (codes "PFILE") (word (codes "CUST") ∷ []) ∷ []) ∷
        line 2 kinds.Field (Named (codes "N2")) (entries None None None (Some 73)) (keyword 2 45 (codes "SST") (word (codes "NAME") ∷ number 4 ∷ []) ∷ []) ∷
        [])
        ≡ Ok (Simple (view (codes "CUST") (plain (codes "N2") (characters 2) 0 ∷ []) (read_only (characters 2) (Substring (piece 3 2)) ∷ []) all_records keyless)) }
{}

/// Fields in a row are one, in the order of CONCAT. It counts before SST and RENAME.
pub fn concatenation()
    //      A          R VIEWR                     PFILE(ORDERS)
    //      A            BOTH                      CONCAT(CODE CODE)
    ensures two { described 2 [] (
        line 1 kinds.Record (Named (codes "VIEWR")) blank (keyword 1 45 (codes "PFILE") (word (codes "ORDERS") ∷ []) ∷ []) ∷
        line 2 kinds.Field (Named (codes "BOTH")) blank (keyword 2 45 (codes "CONCAT") (word (codes "CODE") ∷ word (codes "CODE") ∷ []) ∷ []) ∷
        [])
        ≡ Ok (Simple (view (codes "ORDERS") (plain (codes "BOTH") (characters 2) 0 ∷ []) (shown (characters 2) (Concatenated (piece 4 1 ∷ piece 4 1 ∷ [])) ∷ []) all_records keyless)) }
    //      A          R VIEWR                     PFILE(CUST)
    //      A            N                         SST(NAME 1 2) CONCAT(NAME)
    ensures before_others { described 2 [] (
        line 1 kinds.Record (Named (codes "VIEWR")) blank (keyword 1 45 (codes "PFILE") (word (codes "CUST") ∷ []) ∷ []) ∷
        line 2 kinds.Field (Named (codes "N")) blank (keyword 2 45 (codes "SST") (word (codes "NAME") ∷ number 1 ∷ number 2 ∷ []) ∷ keyword 2 59 (codes "CONCAT") (word (codes "NAME") ∷ []) ∷ []) ∷
        [])
        ≡ Ok (Simple (view (codes "CUST") (plain (codes "N") (characters 5) 0 ∷ []) (shown (characters 5) (Concatenated (piece 0 5 ∷ [])) ∷ []) all_records keyless)) }
{}

/// Blank entries are those of the base field; wider ones show the same value at the field's own type.
pub fn other_types()
    //      A          R VIEWR                     PFILE(CUST)
    //      A            NO
    ensures as_it_is { described 2 [] (
        line 1 kinds.Record (Named (codes "VIEWR")) blank (keyword 1 45 (codes "PFILE") (word (codes "CUST") ∷ []) ∷ []) ∷
        line 2 kinds.Field (Named (codes "NO")) blank [] ∷
        [])
        ≡ Ok (Simple (view (codes "CUST") (plain (codes "NO") (packed 3 0) 0 ∷ []) (shown (packed 3 0) (Copied 5) ∷ []) all_records keyless)) }
    //      A          R VIEWR                     PFILE(CUST)
    //      A            NO             7  2B
    //      A            NAME           8A  I
    ensures wider { described 3 [] (
        line 1 kinds.Record (Named (codes "VIEWR")) blank (keyword 1 45 (codes "PFILE") (word (codes "CUST") ∷ []) ∷ []) ∷
        line 2 kinds.Field (Named (codes "NO")) (entries (Some 7) None (Some 2) (Some 66)) [] ∷
        line 3 kinds.Field (Named (codes "NAME")) (entries (Some 8) (Some 65) None (Some 73)) [] ∷
        [])
        ≡ Ok (Simple (view (codes "CUST") (plain (codes "NO") (packed 7 2) 0 ∷ plain (codes "NAME") (characters 8) 4 ∷ [])
        (shown (packed 7 2) (Converted (packed 3 0) 5) ∷ read_only (characters 8) (Converted (characters 5) 0) ∷ []) all_records keyless)) }
{}

/// A format without field lines has all fields of its base. A key may be one of them.
pub fn all_fields()
    //      A                                      UNIQUE
    //      A          R VIEWR                     PFILE(CUST)
    //      A          K NO
    //      A          K NAME                      DESCEND ABSVAL
    ensures described { described 4 (flag 1 45 (codes "UNIQUE") ∷ []) (
        line 2 kinds.Record (Named (codes "VIEWR")) blank (keyword 2 45 (codes "PFILE") (word (codes "CUST") ∷ []) ∷ []) ∷
        line 3 kinds.Key (Named (codes "NO")) blank [] ∷
        line 4 kinds.Key (Named (codes "NAME")) blank (flag 4 45 (codes "DESCEND") ∷ flag 4 53 (codes "ABSVAL") ∷ []) ∷
        [])
        ≡ Ok (Simple (all_of_cust all_records
        (keyed true Rising (Field (packed 3 0) 5 false false ∷ Field (characters 5) 0 true true ∷ [])))) }
    // Without a key LIFO changes nothing.
    //      A                                      LIFO
    //      A          R VIEWR                     PFILE(CUST)
    ensures no_key { described 2 (flag 1 45 (codes "LIFO") ∷ []) (
        line 2 kinds.Record (Named (codes "VIEWR")) blank (keyword 2 45 (codes "PFILE") (word (codes "CUST") ∷ []) ∷ []) ∷
        [])
        ≡ Ok (Simple (all_of_cust all_records keyless)) }
    //      A                                      LIFO DYNSLT JDFTVAL
    //      A          R VIEWR                     PFILE(CUST)
    //      A          K NO                        SIGNED
    ensures last_first { described 3 (flag 1 45 (codes "LIFO") ∷ flag 1 50 (codes "DYNSLT") ∷ flag 1 57 (codes "JDFTVAL") ∷ []) (
        line 2 kinds.Record (Named (codes "VIEWR")) blank (keyword 2 45 (codes "PFILE") (word (codes "CUST") ∷ []) ∷ []) ∷
        line 3 kinds.Key (Named (codes "NO")) blank (flag 3 45 (codes "SIGNED") ∷ []) ∷
        [])
        ≡ Ok (Simple (all_of_cust all_records (keyed false Falling (Field (packed 3 0) 5 false false ∷ [])))) }
{}

/// The position of a key lies in the record of the logical format.
pub fn keys_are_in_the_format()
    //      A          R VIEWR                     PFILE(CUST)
    //      A            NO
    //      A            NM                        RENAME(NAME)
    //      A          K NM
    ensures described { described 4 [] (
        line 1 kinds.Record (Named (codes "VIEWR")) blank (keyword 1 45 (codes "PFILE") (word (codes "CUST") ∷ []) ∷ []) ∷
        line 2 kinds.Field (Named (codes "NO")) blank [] ∷
        line 3 kinds.Field (Named (codes "NM")) blank (keyword 3 45 (codes "RENAME") (word (codes "NAME") ∷ []) ∷ []) ∷
        line 4 kinds.Key (Named (codes "NM")) blank [] ∷
        [])
        ≡ Ok (Simple (view (codes "CUST") (plain (codes "NO") (packed 3 0) 0 ∷ plain (codes "NM") (characters 5) 2 ∷ [])
        (shown (packed 3 0) (Copied 5) ∷ shown (characters 5) (Copied 0) ∷ []) all_records
        (keyed false Rising (Field (characters 5) 2 false false ∷ [])))) }
{}

/// Select and omit statements, in order.
pub fn selects_and_omits()
    //      A          R VIEWR                     PFILE(CUST)
    //      A          S NAME                      COMP(EQ 'X')
    //      A          O NO                        COMP(GT 10)
    ensures select_then_omit { described 3 [] (
        line 1 kinds.Record (Named (codes "VIEWR")) blank (keyword 1 45 (codes "PFILE") (word (codes "CUST") ∷ []) ∷ []) ∷
        line 2 kinds.Select (Named (codes "NAME")) blank (keyword 2 45 (codes "COMP") (word (codes "EQ") ∷ quoted (codes "X") ∷ []) ∷ []) ∷
        line 3 kinds.Omit (Named (codes "NO")) blank (keyword 3 45 (codes "COMP") (word (codes "GT") ∷ number 10 ∷ []) ∷ []) ∷
        [])
        ≡ Ok (Simple (all_of_cust (rules (statement Select (field_itself (characters 5) 0) (tests.Literal Equals (text (0xE7 ∷ [])) ∷ []) ∷
        statement Omit (field_itself (packed 3 0) 5) (tests.Literal Above (whole 10) ∷ []) ∷ []) None) keyless)) }
    //      A                                      UNIQUE
    //      A          R VIEWR                     PFILE(CUST)
    //      A          K NO
    //      A          O NAME                      COMP(EQ 'D')
    ensures omit_alone { described 4 (flag 1 45 (codes "UNIQUE") ∷ []) (
        line 2 kinds.Record (Named (codes "VIEWR")) blank (keyword 2 45 (codes "PFILE") (word (codes "CUST") ∷ []) ∷ []) ∷
        line 3 kinds.Key (Named (codes "NO")) blank [] ∷
        line 4 kinds.Omit (Named (codes "NAME")) blank (keyword 4 45 (codes "COMP") (word (codes "EQ") ∷ quoted (codes "D") ∷ []) ∷ []) ∷
        [])
        ≡ Ok (Simple (all_of_cust (rules (statement Omit (field_itself (characters 5) 0) (tests.Literal Equals (text (0xC4 ∷ [])) ∷ []) ∷ []) None)
        (keyed true Rising (Field (packed 3 0) 5 false false ∷ [])))) }
    //      A          R VIEWR                     PFILE(CUST)
    //      A          S NO                        RANGE(1 5) CMP(NE 3)
    //      A            NAME                      VALUES('A' 'B')
    //      A          O                           ALL
    ensures together { described 4 [] (
        line 1 kinds.Record (Named (codes "VIEWR")) blank (keyword 1 45 (codes "PFILE") (word (codes "CUST") ∷ []) ∷ []) ∷
        line 2 kinds.Select (Named (codes "NO")) blank (keyword 2 45 (codes "RANGE") (number 1 ∷ number 5 ∷ []) ∷ keyword 2 56 (codes "CMP") (word (codes "NE") ∷ number 3 ∷ []) ∷ []) ∷
        line 3 kinds.And (Named (codes "NAME")) blank (keyword 3 45 (codes "VALUES") (quoted (codes "A") ∷ quoted (codes "B") ∷ []) ∷ []) ∷
        line 4 kinds.Omit Blank blank (flag 4 45 (codes "ALL") ∷ []) ∷
        [])
        ≡ Ok (Simple (all_of_cust (rules (record {
          choice = Select;
          conditions =
              record { field = field_itself (packed 3 0) 5; test = tests.Range (whole 1) (whole 5) } ∷
              record { field = field_itself (packed 3 0) 5; test = tests.Literal Differs (whole 3) } ∷
              record { field = field_itself (characters 5) 0; test = tests.Values (text (0xC1 ∷ []) ∷ text (0xC2 ∷ []) ∷ []) } ∷ [];
        } ∷ []) (Some Omit)) keyless)) }
    // The base has a field that the format lacks.
    //      A          R VIEWR                     PFILE(CUST)
    //      A            NM                        RENAME(NAME)
    //      A          S NO                        COMP(NL 1)
    //      A          O NM                        COMP(NG NAME)
    ensures of_the_base { described 4 [] (
        line 1 kinds.Record (Named (codes "VIEWR")) blank (keyword 1 45 (codes "PFILE") (word (codes "CUST") ∷ []) ∷ []) ∷
        line 2 kinds.Field (Named (codes "NM")) blank (keyword 2 45 (codes "RENAME") (word (codes "NAME") ∷ []) ∷ []) ∷
        line 3 kinds.Select (Named (codes "NO")) blank (keyword 3 45 (codes "COMP") (word (codes "NL") ∷ number 1 ∷ []) ∷ []) ∷
        line 4 kinds.Omit (Named (codes "NM")) blank (keyword 4 45 (codes "COMP") (word (codes "NG") ∷ word (codes "NAME") ∷ []) ∷ []) ∷
        [])
        ≡ Ok (Simple (view (codes "CUST") (plain (codes "NM") (characters 5) 0 ∷ []) (shown (characters 5) (Copied 0) ∷ [])
        (rules (statement Select (field_itself (packed 3 0) 5) (tests.Literal AtLeast (whole 1) ∷ []) ∷
        statement Omit (field_itself (characters 5) 0) (tests.Field AtMost (field_itself (characters 5) 0) ∷ []) ∷ []) None) keyless)) }
    //      A          R VIEWR                     PFILE(CUST)
    //      A          O NO
    ensures always { described 2 [] (
        line 1 kinds.Record (Named (codes "VIEWR")) blank (keyword 1 45 (codes "PFILE") (word (codes "CUST") ∷ []) ∷ []) ∷
        line 2 kinds.Omit (Named (codes "NO")) blank [] ∷
        [])
        ≡ Ok (Simple (all_of_cust (rules (statement Omit (field_itself (packed 3 0) 5) [] ∷ []) None) keyless)) }
{}

/// Two formats in one order: a position that a format lacks is Absent, by *NONE or where it has fewer key fields.
pub fn headers_and_details()
    //      A          R HDR                       PFILE(HEADERS)
    //      A          K ORD
    //      A          K *NONE
    //      A          R DTL                       PFILE(DETAILS)
    //      A          K ORD
    //      A          K LINE
    ensures none { described 6 [] (
        line 1 kinds.Record (Named (codes "HDR")) blank (keyword 1 45 (codes "PFILE") (word (codes "HEADERS") ∷ []) ∷ []) ∷
        line 2 kinds.Key (Named (codes "ORD")) blank [] ∷
        line 3 kinds.Key StarNone blank [] ∷
        line 4 kinds.Record (Named (codes "DTL")) blank (keyword 4 45 (codes "PFILE") (word (codes "DETAILS") ∷ []) ∷ []) ∷
        line 5 kinds.Key (Named (codes "ORD")) blank [] ∷
        line 6 kinds.Key (Named (codes "LINE")) blank [] ∷
        [])
        ≡ Ok (Multi (
        all_of (codes "HEADERS") (codes "HDR") headers (keyed false Rising (Field (packed 3 0) 0 false false ∷ Absent ∷ [])) ∷
        all_of (codes "DETAILS") (codes "DTL") details (keyed false Rising (Field (packed 3 0) 0 false false ∷ Field (packed 3 0) 2 false false ∷ [])) ∷ [])) }
    //      A                                      LIFO
    //      A          R DTL                       PFILE(DETAILS)
    //      A          K ORD
    //      A          K LINE
    //      A          R HDR                       PFILE(HEADERS)
    //      A          K ORD
    ensures fewer { described 6 (flag 1 45 (codes "LIFO") ∷ []) (
        line 2 kinds.Record (Named (codes "DTL")) blank (keyword 2 45 (codes "PFILE") (word (codes "DETAILS") ∷ []) ∷ []) ∷
        line 3 kinds.Key (Named (codes "ORD")) blank [] ∷
        line 4 kinds.Key (Named (codes "LINE")) blank [] ∷
        line 5 kinds.Record (Named (codes "HDR")) blank (keyword 5 45 (codes "PFILE") (word (codes "HEADERS") ∷ []) ∷ []) ∷
        line 6 kinds.Key (Named (codes "ORD")) blank [] ∷
        [])
        ≡ Ok (Multi (
        all_of (codes "DETAILS") (codes "DTL") details (keyed false Falling (Field (packed 3 0) 0 false false ∷ Field (packed 3 0) 2 false false ∷ [])) ∷
        all_of (codes "HEADERS") (codes "HDR") headers (keyed false Falling (Field (packed 3 0) 0 false false ∷ Absent ∷ [])) ∷ [])) }
{}

/// Two logical files with the same key under another field name have one path.
pub fn shared_path()
    //      A          R VIEWR                     PFILE(CUST)
    //      A          K NO
    ensures all_fields { path_described (described 2 [] (
        line 1 kinds.Record (Named (codes "VIEWR")) blank (keyword 1 45 (codes "PFILE") (word (codes "CUST") ∷ []) ∷ []) ∷
        line 2 kinds.Key (Named (codes "NO")) blank [] ∷
        []))
        ≡ Some (record {
          formats = record { member = 1; rules = all_records; fields = field_itself (packed 3 0) 5 ∷ []; key = Field (packed 3 0) 0 false false ∷ [] } ∷ [];
          unique = false;
          ties = Rising;
        }) }
    //      A          R VIEWR                     PFILE(CUST)
    //      A            NUMBER                    RENAME(NO)
    //      A            NAME
    //      A          K NUMBER
    ensures renamed { path_described (described 4 [] (
        line 1 kinds.Record (Named (codes "VIEWR")) blank (keyword 1 45 (codes "PFILE") (word (codes "CUST") ∷ []) ∷ []) ∷
        line 2 kinds.Field (Named (codes "NUMBER")) blank (keyword 2 45 (codes "RENAME") (word (codes "NO") ∷ []) ∷ []) ∷
        line 3 kinds.Field (Named (codes "NAME")) blank [] ∷
        line 4 kinds.Key (Named (codes "NUMBER")) blank [] ∷
        []))
        ≡ Some (record {
          formats = record { member = 1; rules = all_records; fields = field_itself (packed 3 0) 5 ∷ []; key = Field (packed 3 0) 0 false false ∷ [] } ∷ [];
          unique = false;
          ties = Rising;
        }) }
{}

/// Several formats without a key, the last record first.
pub fn formats_without_a_key()
    //      A                                      LIFO
    //      A          R A                         PFILE(HEADERS)
    //      A          R B                         PFILE(DETAILS)
    ensures described { described 3 (flag 1 45 (codes "LIFO") ∷ []) (
        line 2 kinds.Record (Named (codes "A")) blank (keyword 2 45 (codes "PFILE") (word (codes "HEADERS") ∷ []) ∷ []) ∷
        line 3 kinds.Record (Named (codes "B")) blank (keyword 3 45 (codes "PFILE") (word (codes "DETAILS") ∷ []) ∷ []) ∷
        [])
        ≡ Ok (Multi (
        all_of (codes "HEADERS") (codes "A") headers (keyed false Falling []) ∷
        all_of (codes "DETAILS") (codes "B") details (keyed false Falling []) ∷ [])) }
{}

/// The same from the text of a source.
pub fn read_from_text()
    ensures renamed { described_by_text (
        codes "     A          R VIEWR                     PFILE(CUST)" ∷
        codes "     A            NM                        RENAME(NAME)" ∷
        [])
        ≡ Ok (Simple (view (codes "CUST") (plain (codes "NM") (characters 5) 0 ∷ []) (shown (characters 5) (Copied 0) ∷ []) all_records keyless)) }
    ensures select_then_omit { described_by_text (
        codes "     A          R VIEWR                     PFILE(CUST)" ∷
        codes "     A          S NAME                      COMP(EQ 'X')" ∷
        codes "     A          O NO                        COMP(GT 10)" ∷
        [])
        ≡ Ok (Simple (all_of_cust (rules (statement Select (field_itself (characters 5) 0) (tests.Literal Equals (text (0xE7 ∷ [])) ∷ []) ∷
        statement Omit (field_itself (packed 3 0) 5) (tests.Literal Above (whole 10) ∷ []) ∷ []) None) keyless)) }
    ensures at_fault { described_by_text (
        codes "     A          R VIEWR                     PFILE(CUST)" ∷
        codes "     A            NO              Q" ∷
        [])
        ≡ Err (record { line = 2; column = 35; cause = BadType }) }
{}
