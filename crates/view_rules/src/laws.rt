//! Laws of records that values make which are given through a logical format. Nothing runs here.
ghost use Rattle.std.specs.Prelude.{◌≡◌, ℕ, List, Option, Some, true};
ghost use Rattle.field_types.specs.declared.values.Value.{Value};
ghost use Rattle.field_values.specs.FieldBytes.{as_held};
ghost use Rattle.file_model.below.record_fmt.specs.declared.formats.Field.{Field};
ghost use Rattle.file_model.specs.declared.rules.Relation.TheVariants.{Equals};
ghost use Rattle.file_model.specs.declared.views.LogicalField.{LogicalField};
ghost use Rattle.file_model.specs.Selection.{is_related};
ghost use Rattle.file_model.specs.Views.{field_value, stored_type};
ghost use Rattle.view_rules.specs.Apart.{IsGiven};

/// A value that is given through a field is what the record shows in it, as the field under it and then the field itself
/// hold it, where the field names no byte twice and no later value is given over its bytes. So what is shown is equal to it.
pub fn given_value_is_shown()
    ensures shown { (base : List Field) (before after : List LogicalField) (f : LogicalField) (first rest : List (Option Value)) (v : Value) (old : Option (List ℕ)) (image : List ℕ)
        → IsGiven base before after f first rest v old image → field_value image f.field ≡ Some (as_held f.field.ty (as_held (stored_type f.field.ty f.field.source) v)) }
    ensures equal { (base : List Field) (before after : List LogicalField) (f : LogicalField) (first rest : List (Option Value)) (v : Value) (old : Option (List ℕ)) (image : List ℕ)
        → IsGiven base before after f first rest v old image → is_related Equals (field_value image f.field) (Some v) ≡ true }
{}
