//! What fields of bits have to do with each other and with their word.
ghost use Rattle.std.specs.Prelude.{◌≡◌, ℕ, ◌+◌, ◌<◌, ◌≤◌, ◌^◌, List};
ghost use Rattle.bit_words.specs.Bits.{bits_of, with_bits, word_of, FieldsFit, widths_of, total_width, fields_from};

/// A field has the number that was set, and a field apart from it has what it had before.
pub fn set_and_get()
    ensures same { (word at width value : ℕ) → value < 2 ^ width
        → bits_of (with_bits word at width value) at width ≡ value }
    ensures below { (word at width value i n : ℕ) → value < 2 ^ width → i + n ≤ at
        → bits_of (with_bits word at width value) i n ≡ bits_of word i n }
    ensures above { (word at width value i n : ℕ) → value < 2 ^ width → at + width ≤ i
        → bits_of (with_bits word at width value) i n ≡ bits_of word i n }
{}

/// A word and its fields determine each other.
pub fn word_and_fields()
    ensures back { (fields : List (ℕ × ℕ)) → FieldsFit fields
        → fields_from 0 (widths_of fields) (word_of fields) ≡ fields }
    ensures whole { (widths : List ℕ) (word : ℕ) → word < 2 ^ total_width widths
        → word_of (fields_from 0 widths word) ≡ word }
    ensures below { (fields : List (ℕ × ℕ)) → FieldsFit fields
        → word_of fields < 2 ^ total_width (widths_of fields) }
    ensures fit { (widths : List ℕ) (word : ℕ) → FieldsFit (fields_from 0 widths word) }
{}
