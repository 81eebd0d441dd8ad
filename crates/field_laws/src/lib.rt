//! Laws of the bytes of values: what is written for a value stands for it, and what stands there can be put again.
#![tactic(auto)]

ghost use Rattle.std.specs.Prelude.{◌≡◌, ℕ, ◌*◌, ◌^◌, List, None, IsTrue, unsigned_abs};
ghost use Rattle.field_types.specs.declared.kinds.FieldType.{FieldType};
ghost use Rattle.field_types.specs.declared.values.Dec.{Dec};
ghost use Rattle.field_types.specs.declared.values.Value.{Value};
ghost use Rattle.field_types.specs.declared.values.Value.TheVariants.{Number};
ghost use Rattle.field_values.specs.FieldTypes.{IsFieldType};
ghost use Rattle.field_values.specs.FieldBytes.{fault_of, stands, written, as_held, units_at};
ghost use Rattle.field_laws.specs.WrittenForm.{has_written_form};

/// What is written for a value that its field doesn't refuse stands for that value as the field holds it:
/// a text in the field's whole width, a number with the field's decimals.
pub fn written_stands()
    ensures stands { (t : FieldType) (v : Value) → IsFieldType t → fault_of t v ≡ None → stands t (as_held t v) (written t v) }
    ensures form { (t : FieldType) (v : Value) → IsFieldType t → fault_of t v ≡ None → IsTrue (has_written_form t.kind (written t v)) }
{}

/// Of the images that stand for a value, the written one alone has the sign that is written and no minus zero.
pub fn one_written_image()
    ensures { (t : FieldType) (v : Value) (image : List ℕ) → IsFieldType t → stands t v image → IsTrue (has_written_form t.kind image) → image ≡ written t v }
{}

/// A number that its field doesn't refuse is held as the same number.
pub fn held_number_is_the_same()
    ensures { (t : FieldType) (n : Dec) → fault_of t (Number n) ≡ None → unsigned_abs (units_at t.decimals n) * 10 ^ n.scale ≡ unsigned_abs n.units * 10 ^ t.decimals }
{}

/// A value that stands in a field isn't refused there, and the field holds it as it is.
pub fn held_is_accepted()
    ensures accepted { (t : FieldType) (v : Value) (image : List ℕ) → stands t v image → fault_of t v ≡ None }
    ensures same { (t : FieldType) (v : Value) (image : List ℕ) → stands t v image → as_held t v ≡ v }
{}

pub use field_values;
