//! What holds of the definitions that the contracts of this crate cite.

ghost use Rattle.std.specs.Prelude.{◌≡◌, ◌↔◌, ◌+◌, ◌^◌, ◌<◌, ◌∷◌, ◌++◌, [], ℕ, List, Some, bit_xor, length, map, replicate};
ghost use Rattle.std.specs.List.{range_with_len};
ghost use Rattle.gcm_core.specs.Aes.{s_box};
ghost use Rattle.gcm_core.specs.Gcm.{inc32, open_of, seal_of};
ghost use Rattle.gcm_core.specs.Ghash.{block_product};

use crate::aes::S_BOX;

/// A sealed text opens to a text exactly where the text seals to it.
pub fn opens_what_was_sealed()
    ensures { (key nonce aad text sealed : List ℕ)
        → (open_of key nonce aad sealed ≡ Some text) ↔ (seal_of key nonce aad text ≡ Some sealed) }
{}

/// A sealed text is 16 bytes longer than the text: its tag.
pub fn sealed_len()
    ensures { (key nonce aad text sealed : List ℕ) → seal_of key nonce aad text ≡ Some sealed
        → length sealed ≡ length text + 16 }
{}

/// The product of GF(2^128) stays in the field, is commutative and associative, is additive, and has
/// 1 (NIST SP 800-38D, section 6.3).
pub fn block_products()
    ensures closed { (a b : ℕ) → b < 2 ^ 128 → block_product a b < 2 ^ 128 }
    ensures commutative { (a b : ℕ) → a < 2 ^ 128 → b < 2 ^ 128
        → block_product a b ≡ block_product b a }
    ensures associative { (a b c : ℕ) → b < 2 ^ 128 → c < 2 ^ 128
        → block_product (block_product a b) c ≡ block_product a (block_product b c) }
    ensures additive { (a b c : ℕ) → b < 2 ^ 128 → c < 2 ^ 128
        → block_product a (bit_xor b c) ≡ bit_xor (block_product a b) (block_product a c) }
    ensures one { (b : ℕ) → block_product 1 b ≡ b }
{}

/// The count in the last four bytes of a counter block goes from 2^32 - 1 to 0, and the other bytes
/// stay (NIST SP 800-38D, section 6.2).
pub fn counter_wraps()
    ensures { inc32 (replicate 12 7 ++ 255 ∷ 255 ∷ 255 ∷ 255 ∷ []) ≡ replicate 12 7 ++ 0 ∷ 0 ∷ 0 ∷ 0 ∷ [] }
{}

/// The S-box as a table (FIPS 197, table 4), whose place `b` holds the affine map at the inverse of
/// `b`.
pub fn s_box_table() -> [u8; 256]
    ensures { result ≡ map s_box (range_with_len 0 256) }
{
    S_BOX
}
