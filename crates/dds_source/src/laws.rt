//! What holds of the definitions: what is written out is read as what was written.
ghost use Rattle.std.specs.Prelude.{◌≡◌, ℕ, List, [], Some, Ok};
ghost use Rattle.dds_source.specs.ArgumentTexts.{quoted_text};
ghost use Rattle.dds_source.specs.Reading.{source_of};
ghost use Rattle.dds_source.specs.Written.{literal, Written, AllFit, text_written, said, last_said};

/// Any text, written in apostrophes with each apostrophe within it twice, is read as that text.
pub fn literals_are_read_back()
    ensures { (text : List ℕ) → quoted_text (literal text) ≡ Some text }
{}

/// Record formats, fields and keys without keywords, written out in their columns, are read as they were written.
pub fn columns_are_read_back()
    ensures { (ws : List Written) → AllFit ws → source_of (text_written ws) ≡ Ok (record { file = []; specifications = said 1 ws; last_line = last_said 1 ws }) }
{}
