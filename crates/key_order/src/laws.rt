//! Laws of the bytes of keys, as contracts of functions that do nothing.
ghost use Rattle.std.specs.Prelude.{◌≡◌, ℕ, pos, negsuc, List, [], ◌∷◌, None, All, AllPairs, length, take};
ghost use Rattle.std.specs.Ordering.{is_lt};
ghost use Rattle.key_spec.specs.declared.KeyPart.{KeyPart};
ghost use Rattle.field_types.specs.declared.values.Value.{Value};
ghost use Rattle.file_model.specs.KeyOrder.{Missing, Ascending, Descending, compare_keys, compare_with, begins_with, key_of, given_key, merged_parts};
ghost use Rattle.file_model.specs.declared.views.ViewField.{ViewField};
ghost use Rattle.file_model.specs.Views.{view_of};
ghost use Rattle.key_pages.specs.Order.{key_cmp};
ghost use Rattle.key_pages.specs.Position as position;
ghost use Rattle.field_types.specs.declared.values.Value.TheVariants.{Chars};
ghost use Rattle.key_order.specs.KeyBytes.{encoded, encoded_values, position_bytes, number_bytes};
ghost use Rattle.key_order.specs.KeyFields.{AreBytes, Matches};
ghost use Rattle.key_order.specs.GivenValues.{IsOfBytes, key_fault};

/// The bytes of the keys of two images stand in the order of their keys.
pub fn bytes_order_keys()
    ensures one_format { (parts : List KeyPart) (a b : List ℕ) → AreBytes a → AreBytes b
        → key_cmp (encoded parts a) (encoded parts b) ≡ compare_keys (key_of parts a) (key_of parts b) }
    ensures two_formats { (parts others : List KeyPart) (a b : List ℕ) → Matches parts others → AreBytes a → AreBytes b
        → key_cmp (encoded parts a) (encoded others b) ≡ compare_keys (key_of parts a) (key_of others b) }
{}

/// The bytes of given values stand to those of a key as the values to the key: the key's begin with them where the key
/// begins with the values. The values may be given for the positions of several formats together.
pub fn given_bytes_begin_keys()
    ensures order { (parts others : List KeyPart) (image : List ℕ) (values : List Value) → Matches parts others → AreBytes image → key_fault others values ≡ None → All IsOfBytes values
        → key_cmp (take (length (encoded_values others values)) (encoded parts image)) (encoded_values others values) ≡ compare_with (given_key others values) (key_of parts image) }
    ensures less { (parts others : List KeyPart) (image : List ℕ) (values : List Value) → Matches parts others → AreBytes image → key_fault others values ≡ None → All IsOfBytes values
        → position.is_less (encoded parts image) (encoded_values others values) ≡ is_lt (compare_with (given_key others values) (key_of parts image)) }
    ensures begins { (parts others : List KeyPart) (image : List ℕ) (values : List Value) → Matches parts others → AreBytes image → key_fault others values ≡ None → All IsOfBytes values
        → position.begins_with (encoded parts image) (encoded_values others values) ≡ begins_with (given_key others values) (key_of parts image) }
{}

/// The positions of a format match themselves, it doesn't matter which of two formats is named first, and where the
/// formats of a file match, each matches the positions of the file.
pub fn formats_match()
    ensures itself { (parts : List KeyPart) → Matches parts parts }
    ensures merged { (formats : List (List KeyPart)) → AllPairs Matches formats → All (λ format. Matches format (merged_parts formats)) formats }
    ensures back { (parts others : List KeyPart) → Matches parts others → Matches others parts }
{}

/// The bytes of some positions.
#[tactic(auto, unfolding(crate::specs::KeyBytes::number_bytes))]
pub fn bytes_of_positions()
    ensures missing { position_bytes 3 Missing ≡ 0x00 ∷ [] }
    ensures text { position_bytes 2 (Ascending (Chars (0xC1 ∷ 0x40 ∷ []))) ≡ 0x01 ∷ 0xC1 ∷ 0x40 ∷ [] }
    ensures falling_text { position_bytes 2 (Descending (Chars (0xC1 ∷ 0x40 ∷ []))) ≡ 0x01 ∷ 0x3E ∷ 0xBF ∷ [] }
    ensures zero { number_bytes 3 (pos 0) ≡ 0x80 ∷ 0x00 ∷ [] }
    ensures above { number_bytes 3 (pos 999) ≡ 0x83 ∷ 0xE7 ∷ [] }
    ensures below { number_bytes 3 (negsuc 0) ≡ 0x7F ∷ 0xFF ∷ [] }
    ensures least { number_bytes 4 (negsuc 9998) ≡ 0x7F ∷ 0xD8 ∷ 0xF1 ∷ [] }
{}

/// What a logical file shows of an image of bytes is bytes, so that its keys can be compared by theirs.
pub fn views_show_bytes()
    ensures { (fields : List ViewField) (image : List ℕ) → AreBytes image → AreBytes (view_of fields image) }
{}
