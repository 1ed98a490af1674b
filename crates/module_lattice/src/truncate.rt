//! The low bits of a number.

ghost use Rattle.std.specs.Prelude.{◌≡◌, ◌%◌, ◌^◌};

/// Numbers that hold the low bits of a `T`.
pub trait Truncate<T> {
    // A number modulo 2 to the number of bits of this type.
    ghost truncated: { T → Self };

    /// `x` modulo 2 to the number of bits of this type.
    fn truncate(x: T) -> Self
        ensures { result ≡ truncated x };
}

impl Truncate<u32> for u16 {
    ghost truncated = { λ x. x % 2 ^ 16 };

    fn truncate(x: u32) -> u16 {
        (x & u32::from(u16::MAX)) as u16
    }
}

impl Truncate<u64> for u16 {
    ghost truncated = { λ x. x % 2 ^ 16 };

    fn truncate(x: u64) -> u16 {
        (x & u64::from(u16::MAX)) as u16
    }
}

impl Truncate<u64> for u32 {
    ghost truncated = { λ x. x % 2 ^ 32 };

    fn truncate(x: u64) -> u32 {
        (x & u64::from(u32::MAX)) as u32
    }
}

impl Truncate<u128> for u8 {
    ghost truncated = { λ x. x % 2 ^ 8 };

    fn truncate(x: u128) -> u8 {
        (x & u128::from(u8::MAX)) as u8
    }
}

impl Truncate<u128> for u16 {
    ghost truncated = { λ x. x % 2 ^ 16 };

    fn truncate(x: u128) -> u16 {
        (x & u128::from(u16::MAX)) as u16
    }
}

impl Truncate<u128> for u32 {
    ghost truncated = { λ x. x % 2 ^ 32 };

    fn truncate(x: u128) -> u32 {
        (x & u128::from(u32::MAX)) as u32
    }
}

impl Truncate<usize> for u8 {
    ghost truncated = { λ x. x % 2 ^ 8 };

    fn truncate(x: usize) -> u8 {
        (x & usize::from(u8::MAX)) as u8
    }
}

impl Truncate<usize> for u16 {
    ghost truncated = { λ x. x % 2 ^ 16 };

    fn truncate(x: usize) -> u16 {
        (x & usize::from(u16::MAX)) as u16
    }
}
