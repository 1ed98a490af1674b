//! What holds of the definitions that the contracts of this crate cite.

ghost use Rattle.std.specs.Prelude.{◌≡◌, ◌≢◌, ◌++◌, ℕ, [], ◌∷◌, List, Result, Err, None, Some, length};
ghost use Rattle.kem_hash.specs.Family.{Family};
ghost use Rattle.ml_kem.specs.Expanded.{SecretKey};
ghost use Rattle.ml_kem.specs.Parameters.{IsSet, Parameters, ml_kem_512, ml_kem_768, ml_kem_1024};
ghost use Rattle.key_der.specs.Der.{encoding, length_octets, subidentifier};
ghost use Rattle.key_der.specs.Keys.{oid, one_asymmetric_key, private_header, public_header, subject_public_key_info};
ghost use Rattle.key_der.specs.Reading.{ReadsPrivateKey, ReadsPublicKey, mismatch};
ghost use Rattle.key_der.specs.declared.error.DerError.{DerError};
ghost use Rattle.key_der.specs.declared.error.DerError.TheVariants.{NoMemory};

/// The examples of X.690: length octets (section 8.1.3), and a first subidentifier of two bytes (8.19.5).
/// And the least and the greatest length of each form.
pub fn worked_encodings()
    ensures short { length_octets 38 ≡ 0x26 ∷ [] }
    ensures long { length_octets 201 ≡ 0x81 ∷ 0xc9 ∷ [] }
    ensures last_short { length_octets 127 ≡ 0x7f ∷ [] }
    ensures first_of_one { length_octets 128 ≡ 0x81 ∷ 0x80 ∷ [] }
    ensures last_of_one { length_octets 255 ≡ 0x81 ∷ 0xff ∷ [] }
    ensures first_of_two { length_octets 256 ≡ 0x82 ∷ 0x01 ∷ 0x00 ∷ [] }
    ensures last_of_two { length_octets 65535 ≡ 0x82 ∷ 0xff ∷ 0xff ∷ [] }
    ensures subidentifier { subidentifier 180 ≡ 0x81 ∷ 0x34 ∷ [] }
    ensures octet_string { encoding 0x04 (0x03 ∷ 0x02 ∷ []) ≡ 0x04 ∷ 0x02 ∷ 0x03 ∷ 0x02 ∷ [] }
{}

/// The object identifiers, byte by byte.
pub fn object_identifiers()
    ensures oid_512 { oid ml_kem_512 ≡ 0x60 ∷ 0x86 ∷ 0x48 ∷ 0x01 ∷ 0x65 ∷ 0x03 ∷ 0x04 ∷ 0x04 ∷ 0x01 ∷ [] }
    ensures oid_768 { oid ml_kem_768 ≡ 0x60 ∷ 0x86 ∷ 0x48 ∷ 0x01 ∷ 0x65 ∷ 0x03 ∷ 0x04 ∷ 0x04 ∷ 0x02 ∷ [] }
    ensures oid_1024 { oid ml_kem_1024 ≡ 0x60 ∷ 0x86 ∷ 0x48 ∷ 0x01 ∷ 0x65 ∷ 0x03 ∷ 0x04 ∷ 0x04 ∷ 0x03 ∷ [] }
{}

/// The headers, byte by byte: 22 bytes each, that of a private key and that of a public one.
pub fn headers()
    ensures private_512 { private_header ml_kem_512 ≡ 0x30 ∷ 0x54 ∷ 0x02 ∷ 0x01 ∷ 0x00 ∷ 0x30 ∷ 0x0b ∷ 0x06 ∷ 0x09 ∷ oid ml_kem_512 ++ 0x04 ∷ 0x42 ∷ 0x80 ∷ 0x40 ∷ [] }
    ensures private_768 { private_header ml_kem_768 ≡ 0x30 ∷ 0x54 ∷ 0x02 ∷ 0x01 ∷ 0x00 ∷ 0x30 ∷ 0x0b ∷ 0x06 ∷ 0x09 ∷ oid ml_kem_768 ++ 0x04 ∷ 0x42 ∷ 0x80 ∷ 0x40 ∷ [] }
    ensures private_1024 { private_header ml_kem_1024 ≡ 0x30 ∷ 0x54 ∷ 0x02 ∷ 0x01 ∷ 0x00 ∷ 0x30 ∷ 0x0b ∷ 0x06 ∷ 0x09 ∷ oid ml_kem_1024 ++ 0x04 ∷ 0x42 ∷ 0x80 ∷ 0x40 ∷ [] }
    ensures public_512 { public_header ml_kem_512 ≡ 0x30 ∷ 0x82 ∷ 0x03 ∷ 0x32 ∷ 0x30 ∷ 0x0b ∷ 0x06 ∷ 0x09 ∷ oid ml_kem_512 ++ 0x03 ∷ 0x82 ∷ 0x03 ∷ 0x21 ∷ 0x00 ∷ [] }
    ensures public_768 { public_header ml_kem_768 ≡ 0x30 ∷ 0x82 ∷ 0x04 ∷ 0xb2 ∷ 0x30 ∷ 0x0b ∷ 0x06 ∷ 0x09 ∷ oid ml_kem_768 ++ 0x03 ∷ 0x82 ∷ 0x04 ∷ 0xa1 ∷ 0x00 ∷ [] }
    ensures public_1024 { public_header ml_kem_1024 ≡ 0x30 ∷ 0x82 ∷ 0x06 ∷ 0x32 ∷ 0x30 ∷ 0x0b ∷ 0x06 ∷ 0x09 ∷ oid ml_kem_1024 ++ 0x03 ∷ 0x82 ∷ 0x06 ∷ 0x21 ∷ 0x00 ∷ [] }
{}

/// A text is a header and a key behind it, and both have these lengths.
pub fn texts()
    ensures private { (set : Parameters) (seed : List ℕ) → IsSet set → length seed ≡ 64 → one_asymmetric_key set seed ≡ private_header set ++ seed }
    ensures public { (set : Parameters) (ek : List ℕ) → IsSet set → length ek ≡ set.ek_size → subject_public_key_info set ek ≡ public_header set ++ ek }
    ensures private_size { (set : Parameters) → IsSet set → length (private_header set) ≡ 22 }
    ensures public_size { (set : Parameters) → IsSet set → length (public_header set) ≡ 22 }
{}

/// Where a text leaves a shape: nowhere exactly where it is the header and a key of the right length; else
/// at a place that is a byte of the header and of the text, or the smaller of two lengths that differ.
pub fn mismatches()
    ensures fits { (header key : List ℕ) → mismatch header (length key) (header ++ key) ≡ None }
    ensures whole { (header text : List ℕ) (size : ℕ) → mismatch header size text ≡ None → (key : List ℕ) × (text ≡ header ++ key) × (length key ≡ size) }
    ensures first { mismatch (1 ∷ 2 ∷ 3 ∷ []) 1 (9 ∷ 2 ∷ 9 ∷ []) ≡ Some 0 }
    ensures last { mismatch (1 ∷ 2 ∷ 3 ∷ []) 1 (1 ∷ 2 ∷ 9 ∷ 4 ∷ 5 ∷ []) ≡ Some 2 }
    ensures empty { mismatch (1 ∷ 2 ∷ 3 ∷ []) 1 [] ≡ Some 0 }
    ensures within { mismatch (1 ∷ 2 ∷ 3 ∷ []) 1 (1 ∷ 2 ∷ []) ≡ Some 2 }
    ensures no_key { mismatch (1 ∷ 2 ∷ 3 ∷ []) 1 (1 ∷ 2 ∷ 3 ∷ []) ≡ Some 3 }
    ensures longer { mismatch (1 ∷ 2 ∷ 3 ∷ []) 1 (1 ∷ 2 ∷ 3 ∷ 4 ∷ 5 ∷ 6 ∷ []) ≡ Some 4 }
    ensures same { mismatch (1 ∷ 2 ∷ 3 ∷ []) 1 (1 ∷ 2 ∷ 3 ∷ 9 ∷ []) ≡ None }
{}

/// No text has two answers, besides want of memory.
pub fn one_answer()
    ensures private { (set : Parameters) (family : Family) (text : List ℕ) (a b : Result SecretKey DerError) → IsSet set
        → ReadsPrivateKey (λ key. key) set family text a → ReadsPrivateKey (λ key. key) set family text b
        → a ≢ Err NoMemory → b ≢ Err NoMemory → a ≡ b }
    ensures public { (set : Parameters) (text : List ℕ) (a b : Result (List ℕ) DerError) → IsSet set
        → ReadsPublicKey (λ key. key) set text a → ReadsPublicKey (λ key. key) set text b
        → a ≢ Err NoMemory → b ≢ Err NoMemory → a ≡ b }
{}

/// And each text has one: of a public key, it can't be that there is none.
pub fn some_answer()
    ensures private { (set : Parameters) (family : Family) (text : List ℕ) → IsSet set
        → (answer : Result SecretKey DerError) × ReadsPrivateKey (λ key. key) set family text answer × (answer ≢ Err NoMemory) }
    ensures public { (set : Parameters) (text : List ℕ) → IsSet set
        → ((answer : Result (List ℕ) DerError) → ReadsPublicKey (λ key. key) set text answer → answer ≡ Err NoMemory) → ⊥ }
{}
