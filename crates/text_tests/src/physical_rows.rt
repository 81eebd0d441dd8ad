//! Sources of physical files with what they describe, worked out by hand from the keywords and entries of DDS.

/// The file that the others refer to.
pub(super) const CUST: &str =
    "     A          R CUSTR\n     A            NAME          20A\n     A            CUSNO          5P 0\n     A            BAL            7P 2\n     A            DAY             L\n";

/// What is described: the format, each field with its type, place, default and texts, the bytes of a record, the key, and its order.
pub(super) const DESCRIBED: [(&str, &str, &str); 12] = [
    (
        "names from another file",
        "     A                                      REF(CUST)\n     A* long names\n     A          R LONGR\n     A            LNAME     R   +2          REFFLD(NAME) TEXT('Long +\n     A                                         name')\n     A            CUSNO     R               COLHDG('Cust'-\n     A                                       'No')\n",
        "LONGR|LNAME A22,0 @0 '' 'Long name';CUSNO P5,0 @22 0/0 'Cust/No';25||rising",
    ),
    (
        "each type by its letter and without one",
        "     A          R REC\n     A            A1             5A\n     A            A2            32\n     A            S1            31S31\n     A            P1             4P 0\n     A            P2             7  2\n     A            B1            18B 9\n     A            L1              L\n     A            T1              T\n     A            Z1              Z\n     A            L2            10L\n     A            T2             8T\n     A            Z2            26Z\n     A            S2             1S  B\n",
        "REC|A1 A5,0 @0 '' '';A2 A32,0 @5 '' '';S1 S31,31 @37 0/0 '';P1 P4,0 @68 0/0 '';P2 P7,2 @71 0/0 '';B1 B18,9 @75 0/0 '';L1 L10,0 @83 '0001-01-01' '';T1 T8,0 @93 '00.00.00' '';Z1 Z26,0 @101 '0001-01-01-00.00.00.000000' '';L2 L10,0 @127 '0001-01-01' '';T2 T8,0 @137 '00.00.00' '';Z2 Z26,0 @145 '0001-01-01-00.00.00.000000' '';S2 S1,0 @171 0/0 '';172||rising",
    ),
    (
        "defaults",
        "     A          R REC\n     A            A1             5A         DFT('ab')\n     A            A2             2A         DFT(X'00C1')\n     A            P1             5P 2       DFT(-1.50)\n     A            L1              L         DFT('2024-02-29')\n     A            T1              T         DATFMT(*ISO) DFT('23.59.59')\n     A            A3             3A         DFT('')\n",
        "REC|A1 A5,0 @0 'ab' '';A2 A2,0 @5 '?A' '';P1 P5,2 @7 -150/2 '';L1 L10,0 @10 '2024-02-29' '';T1 T8,0 @20 '23.59.59' '';A3 A3,0 @28 '' '';31||rising",
    ),
    (
        "what a reference copies and a line replaces",
        "     A                                      REF(CUST)\n     A          R REC\n     A            NAME      R\n     A            BAL       R\n     A            N1        R   -3          REFFLD(BAL)\n     A            N2        R    9  4       REFFLD(BAL CUST)\n     A            N3        R     S         REFFLD(BAL)\n     A            N4        R     A         REFFLD(BAL)\n     A            N5        R     L         REFFLD(NAME)\n     A            N6        R   +1          REFFLD(N1 *SRC)\n     A            N7        R     A         REFFLD(DAY)\n     A            N8        R   +0          REFFLD(N6 *SRC)\n",
        "REC|NAME A20,0 @0 '' '';BAL P7,2 @20 0/0 '';N1 P4,2 @24 0/0 '';N2 P9,4 @27 0/0 '';N3 S7,2 @32 0/0 '';N4 A7,0 @39 '' '';N5 L10,0 @46 '0001-01-01' '';N6 P5,2 @56 0/0 '';N7 A10,0 @59 '' '';N8 P5,2 @69 0/0 '';72||rising",
    ),
    (
        "REFFLD without R copies nothing",
        "     A                                      REF(CUST)\n     A          R REC\n     A            FLD            3          REFFLD(BAL)\n     A            FLE            4          REFFLD(FLD *SRC)\n",
        "REC|FLD A3,0 @0 '' '';FLE A4,0 @3 '' '';7||rising",
    ),
    (
        "REF with the format of the file",
        "     A                                      REF(CUST CUSTR)\n     A          R REC\n     A            DAY       R\n",
        "REC|DAY L10,0 @0 '0001-01-01' '';10||rising",
    ),
    (
        "keywords that change nothing",
        "     A          R REC                       TEXT('Record')\n     A            FLD            5          TEXT('A''b') COLHDG('C' 'D')\n     A                                      EDTCDE(J) EDTWRD(3) CHECK(ME)\n     A                                      COMP(EQ 'X') CMP(GT 1)\n     A                                      RANGE(1 2) VALUES(1 2 3)\n     A                                      TIMFMT(*ISO)\n     A            FLE            5          TEXT()\n     A                                      COLHDG\n     A                                      CHECK\n",
        "REC|FLD A5,0 @0 '' 'A'b/C/D';FLE A5,0 @5 '' '';10||rising",
    ),
    (
        "a key",
        "     A                                      UNIQUE LIFO\n     A          R REC\n     A            A1             5\n     A            P1             5P 2\n     A          K P1                        DESCEND ABSVAL\n     A          K A1                        ABSVAL SIGNED\n",
        "REC|A1 A5,0 @0 '' '';P1 P5,2 @5 0/0 '';8|P5,2 @5 descend absval;A5,0 @0 absval;|unique falling",
    ),
    (
        "a key in the order of its records",
        "     A                                      FIFO\n     A          R REC\n     A            A1             5\n     A          K A1\n",
        "REC|A1 A5,0 @0 '' '';5|A5,0 @0;|rising",
    ),
    (
        "a key of 120 bytes",
        "     A          R REC\n     A            A1           119\n     A            A2             1\n     A          K A2\n     A          K A1\n",
        "REC|A1 A119,0 @0 '' '';A2 A1,0 @119 '' '';120|A1,0 @119;A119,0 @0;|rising",
    ),
    (
        "a record of 32,766 bytes",
        "     A          R REC\n     A            A1         32765\n     A            A2             1\n",
        "REC|A1 A32765,0 @0 '' '';A2 A1,0 @32765 '' '';32766||rising",
    ),
    (
        "a field of 32,766 bytes",
        "     A          R REC\n     A            A1         32766\n",
        "REC|A1 A32766,0 @0 '' '';32766||rising",
    ),
];
