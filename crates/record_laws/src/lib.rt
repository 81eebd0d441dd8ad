//! Laws of the bytes of records: which values a packed record holds.
#![tactic(auto)]

ghost use Rattle.std.specs.Prelude.{◌≡◌, ℕ, List, Option, None, Some};
ghost use Rattle.field_types.specs.declared.values.Value.{Value};
ghost use Rattle.record_fmt.specs.declared.formats.Field.{Field};
ghost use Rattle.record_fmt.specs.Layout.{IsLaidOut};
ghost use Rattle.record_fmt.specs.Records.{record_given, record_held};
ghost use Rattle.record_laws.specs.HeldValues.{new_values, changed_values};

/// A record that is packed from given values alone holds these, and the default values of the fields whose values aren't given.
pub fn new_record_holds()
    ensures { (fields : List Field) (given : List (Option Value)) (image : List ℕ) → IsLaidOut fields → record_given fields given None ≡ Ok image → record_held fields image ≡ Some (new_values fields given) }
{}

/// A record that is packed over an old one holds the given values, and the old values of the fields whose values aren't given.
pub fn changed_record_holds()
    ensures { (fields : List Field) (given : List (Option Value)) (old image : List ℕ) (values : List Value) → IsLaidOut fields → record_held fields old ≡ Some values → record_given fields given (Some old) ≡ Ok image → record_held fields image ≡ Some (changed_values fields given values) }
{}
