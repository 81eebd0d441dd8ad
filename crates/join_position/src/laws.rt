//! Laws of the rows that are found, as contracts of functions that do nothing.
ghost use Rattle.std.specs.Prelude.{◌≡◌, List, Some};
ghost use Rattle.std.specs.List.{find};
ghost use Rattle.std.specs.Ordering.{is_eq};
ghost use Rattle.key_spec.specs.declared.KeyPart.{KeyPart};
ghost use Rattle.member_slots.specs.Members.{NumberedMembers};
ghost use Rattle.file_model.specs.declared.joins.JoinSpec.{JoinSpec};
ghost use Rattle.file_model.specs.Joins.{RowPlace, JoinRow, compare_places, rows_of};
ghost use Rattle.file_model.specs.Positions.{Position};
ghost use Rattle.open_position.specs.declared.reads.ReadBy.{ReadBy};
ghost use Rattle.join_position.specs.RowReads.{asked_row};

use join_rows::laws::rows_are_in_order;

/// The row that a read finds is the one that stands at its place, so its records are those that are shown there.
pub fn found_rows_are_at_their_places()
    ensures { (by : ReadBy) (parts : List KeyPart) (spec : JoinSpec) (members : NumberedMembers) (position : Position RowPlace) (row : JoinRow)
        → asked_row by parts spec members position ≡ Some row
        → find (λ other. is_eq (compare_places spec.primary.ties other.place row.place)) (rows_of spec members) ≡ Some row }
{
    rows_are_in_order();
}
