//! Sources with what they say, and a faulty one, worked out by hand from the form of DDS.
use dds_source::faults::DdsCause;

/// What is read, and what it says.
pub(super) const READ: [(&str, &str, &str); 17] = [
    ("nothing", "", "|"),
    (
        "comments and empty lines",
        "XXXXXX* comment\n     Z\n\n     A* R\n  \t  \t   \t\n",
        "|",
    ),
    (
        "a record format and a field",
        "     A          R CUSTR\n     A            NAME           5A\n",
        "|1 R CUSTR - - - - -;2 F NAME - 5 65 - -;",
    ),
    (
        "names from another file",
        "     A                                      REF(CUST)\n     A* long names\n     A          R LONGR\n     A            LNAME     R   +2          REFFLD(NAME) TEXT('Long +\n     A                                          name')\n     A            CUSNO     R               COLHDG('Cust'-\n     A                                       'No')\n",
        " 1/45 REF(n:CUST )|3 R LONGR - - - - -;4 F LNAME R +2 - - - 4/45 REFFLD(n:NAME ) 4/58 TEXT(q:Long name );6 F CUSNO R - - - - 6/45 COLHDG(q:Cust q:No );",
    ),
    (
        "the same with a file keyword that is unknown",
        "     A                                      VARLEN\n     A* long names\n     A          R LONGR\n     A            LNAME     R   +2          REFFLD(NAME) TEXT('Long +\n     A                                          name')\n     A            CUSNO     R               COLHDG('Cust'-\n     A                                       'No')\n",
        " 1/45 VARLEN|3 R LONGR - - - - -;4 F LNAME R +2 - - - 4/45 REFFLD(n:NAME ) 4/58 TEXT(q:Long name );6 F CUSNO R - - - - 6/45 COLHDG(q:Cust q:No );",
    ),
    (
        "carriage returns, characters past 80, no form type",
        "                R REC\r\n                  FLD            5P 2B                                          9'(X\r\n     A                                      TEXT(A)\r",
        "|1 R REC - - - - -;2 F FLD - 5 80 2 66 3/45 TEXT(n:A );",
    ),
    (
        "lower case outside apostrophes",
        "     a          r rec\n     A            fld       r  -10s 0b      text('a''b' c x'c1Af')\n",
        "|1 R REC - - - - -;2 F FLD R -10 83 0 66 2/45 TEXT(q:a'b n:C x:193,175, );",
    ),
    (
        "tabs for blanks",
        "     A\t         R\tREC\t      \n     A                                      TEXT(A\t'\t')\tDFT(1)\n",
        "|1 R REC - - - - - 2/45 TEXT(n:A q:\t ) 2/57 DFT(d:1/0 );",
    ),
    (
        "a length in the middle of its positions",
        "     A          R REC\n     A            FLD       R+  12\n     A            FLE        00012  0\n",
        "|1 R REC - - - - -;2 F FLD R +12 - - -;3 F FLE - 12 - 0 -;",
    ),
    (
        "keys, selects, omits and joins",
        "     A          J                           JOIN(A B)\n     A          R REC\n     A          K *NONE\n     A          K FLD                       DESCEND\n     A          S FLD                       COMP(EQ 'X')\n     A            FLE                       RANGE(1 2)\n     A            FLF\n     A          O\n     A                                      ALL\n     A          K FLD\n     A            FLD\n",
        "|1 J  - - - - - 1/45 JOIN(n:A n:B );2 R REC - - - - -;3 K *NONE - - - - -;4 K FLD - - - - - 4/45 DESCEND;5 S FLD - - - - - 5/45 COMP(n:EQ q:X );6 A FLE - - - - - 6/45 RANGE(d:1/0 d:2/0 );7 A FLF - - - - -;8 O  - - - - - 9/45 ALL;10 K FLD - - - - -;11 F FLD - - - - -;",
    ),
    (
        "where keywords go",
        "     A                                      UNIQUE\n     A                                      LIFO\n     A            FLD                       TEXT(A)\n     A                                      FIFO\n     A          R REC\n     A                                      TEXT(B)\n     A                                      TEXT(C)\n",
        " 1/45 UNIQUE 2/45 LIFO 4/45 FIFO|3 F FLD - - - - - 3/45 TEXT(n:A );5 R REC - - - - - 6/45 TEXT(n:B ) 7/45 TEXT(n:C );",
    ),
    (
        "continuation",
        "     A          R REC\n     A            FLD                       TEXT('AB  +\n     A* comment +\n\n     A                                         CD -\n     A                                         EF') +\n     A                                        +\n     A                                      COLHD-\n     A                                      G(A) DF+\n     A                                         T(1)\n",
        "|1 R REC - - - - -;2 F FLD - - - - - 2/45 TEXT(q:AB  CD    EF ) 8/45 COLHDG(n:A ) 9/50 DFT(d:1/0 );",
    ),
    (
        "a sign in position 80, tabs around signs, apostrophes and digits on two lines",
        "     A          R REC\n     A            FLD                       TEXT('abcdefghijklmnopqrstuvwxyz02'+-\n     A                                      \t 's') DFT(X'C1-\t \n     A                                      c2') TEXT(A)\n",
        "|1 R REC - - - - -;2 F FLD - - - - - 2/45 TEXT(q:abcdefghijklmnopqrstuvwxyz02's ) 3/52 DFT(x:193,194, ) 4/50 TEXT(n:A );",
    ),
    (
        "no blank between keywords",
        "     A          R REC\n     A            FLD                       TEXT(A)COLHDG('B')DFT(1)\n",
        "|1 R REC - - - - -;2 F FLD - - - - - 2/45 TEXT(n:A ) 2/52 COLHDG(q:B ) 2/63 DFT(d:1/0 );",
    ),
    (
        "a sign within",
        "     A          R REC\n     A            FLD                       TEXT('A+') DFT(-1)\n",
        "|1 R REC - - - - -;2 F FLD - - - - - 2/45 TEXT(q:A+ ) 2/56 DFT(d:-1/0 );",
    ),
    (
        "arguments",
        "     A          R REC\n     A            FLD                       COMP(EQ -1.50 'it''s' X'C1c2' +\n     A                                      *SRC A+B ABCDEFGHIJK 1. .5 -+\n     A                                      5 00012 '' X'' A(B C)) A() B\n",
        "|1 R REC - - - - -;2 F FLD - - - - - 2/45 COMP(n:EQ d:-150/2 q:it's x:193,194, s:*SRC w:A+B w:ABCDEFGHIJK w:1. w:.5 d:-5/0 d:12/0 q: x: w:A(B w:C) ) 4/68 A() 4/72 B;",
    ),
    (
        "the longest number",
        "     A          R REC\n     A            FLD                       A(1234567890123456789012345678901)\n     A                                      A(12345678901234567890123456789012)\n",
        "|1 R REC - - - - -;2 F FLD - - - - - 2/45 A(d:1234567890123456789012345678901/0 ) 3/45 A(w:12345678901234567890123456789012 );",
    ),
];

/// What is wrong, where, and why. In an input the last line of a source has its line feed, so this source can't stand there.
pub(super) const FAULTS: [(&str, &str, u32, u32, DdsCause); 1] = [(
    "a last line that ends in a plus without a line feed",
    "     A          R REC\n     A            FLD                       +",
    2,
    45,
    DdsCause::UnfinishedText,
)];

/// A text, and the number of its last line.
pub(super) const LAST_LINES: [(&str, u32); 6] = [
    ("", 1),
    ("     A          R REC", 1),
    ("     A          R REC\n", 1),
    ("     A          R REC\n ", 2),
    ("\n\n", 2),
    (
        "     A          R REC\n     A            FLD             A\n\n     A* the end\n",
        4,
    ),
];

/// Lines, columns and causes of faults, each before all that follow.
pub(super) const RISING: [(u32, u32, DdsCause); 6] = [
    (1, 80, DdsCause::Narrowing),
    (2, 6, DdsCause::BadColumn),
    (3, 19, DdsCause::BadName),
    (3, 29, DdsCause::BadColumn),
    (3, 45, DdsCause::BadNumber),
    (3, 45, DdsCause::UnfinishedText),
];
