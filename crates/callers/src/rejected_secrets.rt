//! A caller of `kem_hash`.

ghost use Rattle.std.specs.Prelude.{◌≡◌, ◌++◌};

use kem_hash::KemHash;

/// The secret that a text gives where it is refused: J of a key and the text, whatever the family.
pub fn rejection<H: KemHash>(key: &[u8; 32], text: &[u8]) -> [u8; 32]
    ensures { result ≡ H.family.j_of (key.now ++ text.now) }
{
    H::j(key, text)
}
