//! Laws of keys that are read back, as contracts of functions that do nothing.
ghost use Rattle.std.specs.Prelude.{◌≡◌, ◌≤◌, ℕ, List, None, All, AllPairs, length};
ghost use Rattle.field_types.specs.declared.values.Value.{Value};
ghost use Rattle.key_spec.specs.declared.KeyPart.{KeyPart};
ghost use Rattle.key_order.specs.KeyOrder.{key_of, given_key, merged_parts};
ghost use Rattle.key_order.specs.KeyBytes.{encoded, encoded_values};
ghost use Rattle.key_order.specs.KeyFields.{AreBytes, ArePositions, HasKey, Matches, key_width};
ghost use Rattle.key_order.specs.GivenValues.{IsOfBytes, key_fault};
ghost use Rattle.key_values.specs.KeyValues.{values_in, AreAmong};

/// The bytes of the key of an image stand for its values, by the positions of its format and by those of the file. They are
/// no more than those positions can have.
pub fn keys_are_read_back()
    ensures values { (own file : List KeyPart) (image : List ℕ) → AreAmong own file → AreBytes image → HasKey own image → values_in file (encoded own image) ≡ key_of own image }
    ensures short { (own file : List KeyPart) (image : List ℕ) → AreAmong own file → AreBytes image → HasKey own image → length (encoded own image) ≤ key_width file }
{}

/// The bytes of given values stand for these, as their fields would hold them.
pub fn given_keys_are_read_back()
    ensures values { (parts : List KeyPart) (values : List Value) → ArePositions parts → key_fault parts values ≡ None → All IsOfBytes values → values_in parts (encoded_values parts values) ≡ given_key parts values }
    ensures short { (parts : List KeyPart) (values : List Value) → ArePositions parts → key_fault parts values ≡ None → length (encoded_values parts values) ≤ key_width parts }
{}

/// The positions of a format are among themselves, and where the formats of a file match, those of each among the file's.
pub fn positions_are_among()
    ensures itself { (parts : List KeyPart) → AreAmong parts parts }
    ensures merged { (formats : List (List KeyPart)) → AllPairs Matches formats → All (λ own. AreAmong own (merged_parts formats)) formats }
{}
