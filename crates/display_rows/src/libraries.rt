//! A library with two files and three entries, an empty one, and a logical file.
ghost use Rattle.std.specs.Prelude.{◌≡◌, [], ◌∷◌, codes};
ghost use Rattle.dds_physical.specs.declared.physical_files.PhysicalSpec.{PhysicalSpec};
ghost use Rattle.dds_logical.specs.declared.views.LogicalSpec.{LogicalSpec};
ghost use Rattle.text_lines.specs.Lines.{text_of_lines};
ghost use Rattle.library_steps.specs.State.{empty_library};
ghost use Rattle.display.specs.Display.{display, file_text};
ghost use Rattle.display_rows.specs.Libraries.{library, logical_file};

/// Two files with their sources, their members and records, and three entries.
pub fn library_is_shown()
    ensures { (spec : PhysicalSpec) → display (library spec) ≡ text_of_lines (
        codes "LIBRARY SEQ(5) RCV(2)"
        ∷ codes "FILE CUST *PHY"
        ∷ codes "SRC      A          R CUSTR"
        ∷ codes "SRC      A            NAME           5A"
        ∷ codes "MBR CUST NBR(1) SLOTS(3) LIVE(2) JRN(*BOTH)"
        ∷ codes "RCD 1 'AB''  '"
        ∷ codes "RCD 3 X'C3000AFF40'"
        ∷ codes "FILE ITEM *PHY"
        ∷ codes "SRC      A          R ITEMR"
        ∷ codes "MBR ITEM NBR(2) SLOTS(0) LIVE(0) JRN(*NONE)"
        ∷ codes "MBR OLD NBR(14) SLOTS(1) LIVE(1) JRN(*AFTER)"
        ∷ codes "RCD 1 'A'"
        ∷ codes "ENT 3 F JM JOB(J1) AT(17) GRP(0) MBR(1) RRN(0) IMAGES(*BOTH) SLOTS(2)"
        ∷ codes "ENT 4 R PT JOB(J1) AT(17) GRP(0) MBR(1) RRN(3) IMG(1 X'C3000AFF40')"
        ∷ codes "ENT 5 R DL JOB(J2) AT(17) GRP(0) MBR(1) RRN(2) IMG(1 'AB''  ')"
        ∷ codes "END"
        ∷ []) }
{}

/// A library in which nothing was done.
pub fn empty_library_is_shown()
    ensures { display empty_library ≡ text_of_lines (codes "LIBRARY SEQ(0) RCV(1)" ∷ codes "END" ∷ []) }
{}

/// A logical file, whose source has an empty line. It has no members of its own.
pub fn logical_file_is_shown()
    ensures { (spec : LogicalSpec) → file_text [] (codes "VIEW", logical_file spec) ≡
        text_of_lines (codes "FILE VIEW *LGL" ∷ codes "SRC A" ∷ codes "SRC " ∷ codes "SRC B" ∷ []) }
{}
