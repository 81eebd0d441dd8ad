//! A law of inputs. The function does nothing, and its contract says it.
ghost use Rattle.std.specs.Prelude.{ℕ, ◌+◌, ◌≤◌, List, length};
ghost use Rattle.std.specs.List.{AllByRecursion};
ghost use Rattle.text_lines.specs.Lines.{lines_of};
ghost use Rattle.input_reader.specs.Input.{input_of};

/// No source is longer than the input that has it, and a line feed that its last line may lack.
pub fn sources_are_no_longer_than_their_input()
    ensures { (bytes : List ℕ) → AllByRecursion (λ source. length source.text ≤ length bytes + 1) (input_of (lines_of bytes)).sources }
{}
