//! The trait of a family of hash functions.

ghost use Rattle.std.specs.Prelude.{◌≡◌, ◌*◌, ◌%◌, ◌<◌, ◌≤◌, ◌++◌, length, take};
ghost use Rattle.kem_hash.specs.Family.{Family, IsLawful, xof_block, xof_size};

/// The bytes that [`KemHash::xof_block`] gives at a time.
pub const XOF_BLOCK_SIZE: usize = 168;

/// The hash functions G, H, J, PRF and XOF of ML-KEM (FIPS 203, section 4.1). The meaning of each
/// stands in `family`, which is lawful: its outputs have the lengths that the standard asks for.
pub trait KemHash {
    // What each function gives.
    ghost family: { Family };

    /// G of `a` and `b` joined: 64 bytes.
    fn g(a: &[u8], b: &[u8]) -> [u8; 64]
        ensures { result ≡ family.g_of (a.now ++ b.now) };

    /// H of `x`: 32 bytes.
    fn h(x: &[u8]) -> [u8; 32]
        ensures { result ≡ family.h_of x.now };

    /// J of `a` and `b` joined: 32 bytes.
    fn j(a: &[u8], b: &[u8]) -> [u8; 32]
        ensures { result ≡ family.j_of (a.now ++ b.now) };

    /// PRF with eta 2 of a secret and a byte: 128 bytes.
    fn prf2(s: &[u8; 32], b: u8) -> [u8; 128]
        ensures { result ≡ family.prf_of 2 s.now b };

    /// PRF with eta 3 of a secret and a byte: 192 bytes.
    fn prf3(s: &[u8; 32], b: u8) -> [u8; 192]
        ensures { result ≡ family.prf_of 3 s.now b };

    /// Block `n` of the 16 blocks, of 168 bytes each, that XOF gives for a seed and two bytes. `n` is
    /// below 16.
    fn xof_block(rho: &[u8; 32], a: u8, b: u8, n: u8) -> [u8; XOF_BLOCK_SIZE]
        requires { n < 16 }
        ensures { result ≡ xof_block (family.xof_of rho.now a b) n };

    /// The first blocks of XOF for a seed and two bytes, one behind another: as many bytes of its output
    /// as `out` has, which are whole blocks, 16 at most. The body here makes each by
    /// [`KemHash::xof_block`]; a family whose XOF goes on where it stopped makes all in one go.
    fn xof_blocks(rho: &[u8; 32], a: u8, b: u8, out: &mut [u8])
        requires whole { length out.old % 168 ≡ 0 }
        requires within { length out.old ≤ xof_size }
        ensures { out.new ≡ take (length out.old) (family.xof_of rho.now a b) }
    {
        for n in 0..out.len() / XOF_BLOCK_SIZE {
            let start = XOF_BLOCK_SIZE * n;
            let block = Self::xof_block(rho, a, b, n as u8);
            out[start..start + XOF_BLOCK_SIZE].copy_from_slice(&block);
        }
    }

    ghost is_lawful: { IsLawful family };
}
