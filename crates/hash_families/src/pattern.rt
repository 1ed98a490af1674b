//! Three bytes, as types. Each three bytes b0 b1 b2 of an XOF hold two numbers: b0 and the low half of
//! b1, and the high half of b1 and b2 (FIPS 203, algorithm 7).

ghost use Rattle.std.specs.Prelude.{◌≡◌, List, ℕ};
ghost use Rattle.kem_hash.specs.Family.{AreBytes};

/// Three bytes.
pub trait Pattern {
    // The bytes.
    ghost bytes: { List ℕ };

    /// The bytes.
    fn bytes() -> [u8; 3]
        ensures { result ≡ bytes };

    ghost are_bytes: { AreBytes 3 bytes };
}

/// Zeros: each number that is drawn is 0.
pub struct Zeros;

impl Pattern for Zeros {
    ghost use Rattle.std.specs.Prelude.{[], ◌∷◌};
    ghost use Rattle.std.proofs.Common.{lit<};
    ghost use Rattle.hash_families.specs.private.RepeatingLaws.{three_bytes};

    ghost bytes = { 0 ∷ 0 ∷ 0 ∷ [] };

    fn bytes() -> [u8; 3] {
        [0x00, 0x00, 0x00]
    }

    ghost are_bytes = { three_bytes 0 0 0 (lit< tt) (lit< tt) (lit< tt) };
}

/// FF three times: each number that is drawn is 4095, so no sample of the lattice KEM is there.
pub struct Ones;

impl Pattern for Ones {
    ghost use Rattle.std.specs.Prelude.{[], ◌∷◌};
    ghost use Rattle.std.proofs.Common.{lit<};
    ghost use Rattle.hash_families.specs.private.RepeatingLaws.{three_bytes};

    ghost bytes = { 255 ∷ 255 ∷ 255 ∷ [] };

    fn bytes() -> [u8; 3] {
        [0xff, 0xff, 0xff]
    }

    ghost are_bytes = { three_bytes 255 255 255 (lit< tt) (lit< tt) (lit< tt) };
}

/// 01 20 03: the numbers that are drawn are 1 and 50 in turn.
pub struct SmallAndFifty;

impl Pattern for SmallAndFifty {
    ghost use Rattle.std.specs.Prelude.{[], ◌∷◌};
    ghost use Rattle.std.proofs.Common.{lit<};
    ghost use Rattle.hash_families.specs.private.RepeatingLaws.{three_bytes};

    ghost bytes = { 1 ∷ 32 ∷ 3 ∷ [] };

    fn bytes() -> [u8; 3] {
        [0x01, 0x20, 0x03]
    }

    ghost are_bytes = { three_bytes 1 32 3 (lit< tt) (lit< tt) (lit< tt) };
}

/// 01 0d d0: the numbers that are drawn are 3329, which no sample takes, and 3328 in turn.
pub struct AboutModulus;

impl Pattern for AboutModulus {
    ghost use Rattle.std.specs.Prelude.{[], ◌∷◌};
    ghost use Rattle.std.proofs.Common.{lit<};
    ghost use Rattle.hash_families.specs.private.RepeatingLaws.{three_bytes};

    ghost bytes = { 1 ∷ 13 ∷ 208 ∷ [] };

    fn bytes() -> [u8; 3] {
        [0x01, 0x0d, 0xd0]
    }

    ghost are_bytes = { three_bytes 1 13 208 (lit< tt) (lit< tt) (lit< tt) };
}
