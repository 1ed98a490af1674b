//! What holds of the definitions that the contracts of this crate cite.

ghost use Rattle.std.specs.Prelude.{◌≡◌, ◌≢◌, ◌<◌, ◌∷◌, ◌++◌, [], ℕ, List, All, length, true};
ghost use Rattle.std.specs.Char.{to_ascii_lowercase};
ghost use Rattle.std.specs.Str.{str_to_ascii_lowercase};
ghost use Rattle.bech32_long.specs.Checksum.{IsRemainder, generator, multiple, one, remainder_behind_one};
ghost use Rattle.bech32_long.specs.Groups.{groups, leftover, leftover_count, number_of, whole_bytes};
ghost use Rattle.bech32_long.specs.Part.{IsLowered};
ghost use Rattle.bech32_long.specs.Text.{alphabet, character, data_values, encoding, is_character, reading, value_of, Read};

/// There are 32 characters. The value of each is its place, and a character in either case is that of its
/// value in lower case (BIP 173, section "Bech32").
pub fn characters()
    ensures count { length alphabet ≡ 32 }
    ensures values { (v : ℕ) → v < 32 → value_of (character v) ≡ v }
    ensures back { (c : ℕ) → is_character c ≡ true → character (value_of c) ≡ to_ascii_lowercase c }
{}

/// The generator times 1, 2, 4, 8 and 16, but for its highest coefficient, are the five constants that
/// BIP 173, section "Checksum", has: five bits a coefficient.
pub fn generator_constants()
    ensures times_1 { number_of 32 (multiple 1 generator) ≡ 0x3b6a57b2 }
    ensures times_2 { number_of 32 (multiple 2 generator) ≡ 0x26508e6d }
    ensures times_4 { number_of 32 (multiple 4 generator) ≡ 0x1ea119fa }
    ensures times_8 { number_of 32 (multiple 8 generator) ≡ 0x3d4233dd }
    ensures times_16 { number_of 32 (multiple 16 generator) ≡ 0x2a1462b3 }
{}

/// What long division leaves is the remainder by the generator: the polynomial is a multiple of the
/// generator and these six coefficients, and no other six leave a multiple.
pub fn remainders()
    ensures remainder { (values : List ℕ) → All (λ v. v < 32) values → IsRemainder (one ++ values) (remainder_behind_one values) }
    ensures only { (p r s : List ℕ) → IsRemainder p r → IsRemainder p s → r ≡ s }
{}

/// Bytes in groups of five bits are these bytes again.
pub fn bytes_of_groups()
    ensures { (bytes : List ℕ) → All (λ b. b < 256) bytes → whole_bytes (groups bytes) ≡ bytes }
{}

/// The text of a part and bytes is read as them.
pub fn reads_what_was_written()
    ensures { (part bytes : List ℕ) → IsLowered part → All (λ b. b < 256) bytes → reading (encoding part bytes) ≡ Read part bytes }
{}

/// A text that is read is, in lower case, the text of what it is read as, where fewer than five bits are left
/// over behind the last whole byte and none of them is set.
pub fn writes_what_was_read()
    ensures { (text part bytes : List ℕ) → reading text ≡ Read part bytes
        → leftover_count (data_values text) < 5 → leftover (data_values text) ≡ 0
        → encoding part bytes ≡ str_to_ascii_lowercase text }
{}

/// Where a text is read, it is refused once one character behind the last separator is another one: a
/// character `c` with `d` in its place, which has another value and is no separator.
pub fn refuses_a_changed_character()
    ensures { (before front behind : List ℕ) (c d : ℕ) (part bytes : List ℕ)
        → All (λ b. b ≢ 49) front → All (λ b. b ≢ 49) behind → c ≢ 49 → d ≢ 49 → value_of c ≢ value_of d
        → reading (before ++ 49 ∷ (front ++ c ∷ behind)) ≡ Read part bytes
        → (other more : List ℕ) → reading (before ++ 49 ∷ (front ++ d ∷ behind)) ≢ Read other more }
{}
