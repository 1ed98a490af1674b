//! High and low parts of a number modulo 8380417 (FIPS 204, section 7.4).

ghost use Rattle.std.specs.Prelude.{◌≡◌, ◌+◌, ◌*◌, ◌<◌, ◌≤◌};
ghost use Rattle.dsa_ring.specs.Rounding.{gamma2, high_bits, high_count, low_bits, power2round_high, power2round_low};

/// The two gamma2 of ML-DSA (FIPS 204, section 4, table 1).
#[derive(Clone, Copy, Debug, PartialEq, Eq)]
pub enum Gamma2 {
    /// 95232, which is (8380417 - 1)/88. There are 44 high parts.
    Q88,
    /// 261888, which is (8380417 - 1)/32. There are 16 high parts.
    Q32,
}

impl Gamma2 {
    /// gamma2.
    pub fn value(self) -> u32
        ensures { result ≡ gamma2 self }
    {
        match self {
            Gamma2::Q88 => 95232,
            Gamma2::Q32 => 261888,
        }
    }

    /// How many high parts there are: 44 or 16.
    pub fn high_count(self) -> u32
        ensures { result ≡ high_count self }
    {
        match self {
            Gamma2::Q88 => 44,
            Gamma2::Q32 => 16,
        }
    }
}

// The multiples of 2^13 are what Power2Round rounds to.
const STEP: u32 = 8192;

/// Power2Round (algorithm 35): r1 and r0 with r = r1·2^13 + r0, where r0 is from -4095 to 4096, for an
/// `r` below 8380417.
pub fn power2round(r: u32) -> (u32, i32)
    requires { r < 8380417 }
    ensures high { result.0 ≡ power2round_high r }
    ensures low { result.1 ≡ power2round_low r }
{
    let high = (r + (STEP / 2 - 1)) / STEP;
    (high, r as i32 - (high * STEP) as i32)
}

/// Decompose (algorithm 36): r1 and r0 with r = r1·(2·gamma2) + r0, where r0 is from 1 - gamma2 to
/// gamma2, for an `r` below 8380417. Where r1 would be the number of high parts, it is 0 and r0 is one
/// less, which is the same modulo 8380417.
pub fn decompose(r: u32, gamma: Gamma2) -> (u32, i32)
    requires { r < 8380417 }
    ensures high { result.0 ≡ high_bits gamma r }
    ensures low { result.1 ≡ low_bits gamma r }
{
    match gamma {
        Gamma2::Q88 => {
            let near = (r + 95231) / 190464;
            let last = near / 44;
            (near % 44, r as i32 - (near * 190464 + last) as i32)
        }
        Gamma2::Q32 => {
            let near = (r + 261887) / 523776;
            let last = near / 16;
            (near % 16, r as i32 - (near * 523776 + last) as i32)
        }
    }
}

/// HighBits (algorithm 37): the first part of `decompose`, from 0 to 43 or to 15.
pub fn high_bits(r: u32, gamma: Gamma2) -> u32
    requires { r < 8380417 }
    ensures { result ≡ high_bits gamma r }
{
    decompose(r, gamma).0
}

/// LowBits (algorithm 38): the second part of `decompose`.
pub fn low_bits(r: u32, gamma: Gamma2) -> i32
    requires { r < 8380417 }
    ensures { result ≡ low_bits gamma r }
{
    decompose(r, gamma).1
}
