//! The checksum by a register of 30 bits (BIP 173, section "Checksum").

ghost use Rattle.std.specs.Prelude.{◌≡◌, ◌<◌, ◌^◌, ◌%◌, ◌/◌, ℕ, All, map, replicate};
ghost use Rattle.bech32_long.specs.Checksum.{checksum, expanded, is_checked};
ghost use Rattle.bech32_long.specs.Groups.{digits_of};
ghost use Rattle.bech32_long.specs.private.Register.{next_register, register_after};

/// How many values a checksum has.
pub(crate) const CHECKSUM_LEN: usize = 6;

/// The generator times each value, but for its highest coefficient, as numbers of six groups of five bits.
/// Places 1, 2, 4, 8 and 16 hold the five constants of BIP 173.
pub(crate) const MULTIPLES: [u32; 32] = [
    0x00000000, 0x3b6a57b2, 0x26508e6d, 0x1d3ad9df, 0x1ea119fa, 0x25cb4e48, 0x38f19797, 0x039bc025,
    0x3d4233dd, 0x0628646f, 0x1b12bdb0, 0x2078ea02, 0x23e32a27, 0x18897d95, 0x05b3a44a, 0x3ed9f3f8,
    0x2a1462b3, 0x117e3501, 0x0c44ecde, 0x372ebb6c, 0x34b57b49, 0x0fdf2cfb, 0x12e5f524, 0x298fa296,
    0x1756516e, 0x2c3c06dc, 0x3106df03, 0x0a6c88b1, 0x09f74894, 0x329d1f26, 0x2fa7c6f9, 0x14cd914b,
];

// The register after one more value.
fn next_register(register: u32, value: u8) -> u32
    requires register { register < 2 ^ 30 }
    requires value { value < 32 }
    ensures value { result ≡ next_register register value }
    ensures bound { result < 2 ^ 30 }
{
    (register % (1 << 25) * 32 + value as u32) ^ MULTIPLES[(register >> 25) as usize]
}

// The register after these values.
fn after_values(mut register: u32, values: &[u8]) -> u32
    requires register { register < 2 ^ 30 }
    requires values { All (λ v. v < 32) values.now }
    ensures value { result ≡ register_after register values.now }
    ensures bound { result < 2 ^ 30 }
{
    for value in values {
        register = next_register(register, *value);
    }
    register
}

// The register after the high three bits of each byte.
fn after_high_bits(mut register: u32, part: &[u8]) -> u32
    requires { register < 2 ^ 30 }
    ensures value { result ≡ register_after register (map (λ b. b / 32) part.now) }
    ensures bound { result < 2 ^ 30 }
{
    for b in part {
        register = next_register(register, *b >> 5);
    }
    register
}

// The register after the low five bits of each byte.
fn after_low_bits(mut register: u32, part: &[u8]) -> u32
    requires { register < 2 ^ 30 }
    ensures value { result ≡ register_after register (map (λ b. b % 32) part.now) }
    ensures bound { result < 2 ^ 30 }
{
    for b in part {
        register = next_register(register, *b % 32);
    }
    register
}

// The register after a human-readable part, from 1 on.
fn after_part(part: &[u8]) -> u32
    ensures value { result ≡ register_after 1 (expanded part.now) }
    ensures bound { result < 2 ^ 30 }
{
    let register = next_register(after_high_bits(1, part), 0);
    after_low_bits(register, part)
}

// The six values of the register, the highest first.
fn values_of(register: u32) -> [u8; CHECKSUM_LEN]
    requires { register < 2 ^ 30 }
    ensures { result ≡ digits_of 32 6 register }
{
    [
        (register >> 25) as u8,
        ((register >> 20) % 32) as u8,
        ((register >> 15) % 32) as u8,
        ((register >> 10) % 32) as u8,
        ((register >> 5) % 32) as u8,
        (register % 32) as u8,
    ]
}

/// The checksum of a part in lower case and of values below 32.
pub(crate) fn checksum(part: &[u8], values: &[u8]) -> [u8; CHECKSUM_LEN]
    requires { All (λ v. v < 32) values.now }
    ensures value { result ≡ checksum part.now values.now }
    ensures bound { All (λ v. v < 32) result }
{
    let register = after_values(after_part(part), values);
    values_of(after_values(register, &[0; CHECKSUM_LEN]) ^ 1)
}

/// Whether the last six of the values are the checksum of the part in lower case and of the values before.
pub(crate) fn is_checked(part: &[u8], values: &[u8]) -> bool
    requires { All (λ v. v < 32) values.now }
    ensures { result ≡ is_checked part.now values.now }
{
    after_values(after_part(part), values) == 1
}
