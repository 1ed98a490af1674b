//! A caller of `hpke` over the lattice KEM, and of a law of `kem_mail`.

ghost use Rattle.std.specs.Prelude.{◌≡◌, IfOk, Some};
ghost use Rattle.rand_core.specs.Stream.{fill_bytes};
ghost use Rattle.kem_hash.specs.Family.{AreBytes};
ghost use Rattle.ml_kem.specs.Keys.{Key, key_of};
ghost use Rattle.decryption_noise.specs.Noise.{AllInside, honest_coins, noise_of};

use hpke::laws::set_up_both;
use hpke::{
    Aead, AeadCtxR, AeadCtxS, HpkeError, Kdf, LatticeKem, LatticePrivateKey, LatticePublicKey,
    OpModeR, OpModeS,
};
use kem_hash::KemHash;
use kem_mail::laws;
use ml_kem::ParameterSet;
use rand_core::Rng;
use std::alloc::Global;

/// Sets up a sender and a recipient of the key of a seed, in mode Base: both have one context where all of
/// the noise that the drawn bytes bring is inside.
pub fn set_up_lattice<A: Aead, D: Kdf, P: ParameterSet, H: KemHash, R: Rng>(
    alloc: Global,
    pk: &LatticePublicKey<P, H>,
    sk: &LatticePrivateKey<P, H>,
    info: &[u8],
    rng: &mut R,
) -> Result<
    (
        AeadCtxS<A, D, LatticeKem<P, H>>,
        AeadCtxR<A, D, LatticeKem<P, H>>,
    ),
    HpkeError,
>
    requires { let m = (fill_bytes 32 (R.stream rng.old)).0 in (key : Key) × (key_of P.set H.family sk.now ≡ Some key) × (pk.now ≡ key.ek)
        × AreBytes 32 m × AllInside m (noise_of P.set H.family key m (honest_coins H.family key.ek m)) }
    ensures { IfOk result (λ sides. sides.0 ≡ sides.1) }
{
    laws::honest_sides_agree();
    set_up_both::<A, D, LatticeKem<P, H>, R>(
        alloc,
        &OpModeS::Base,
        &OpModeR::Base,
        pk,
        sk,
        info,
        rng,
    )
}
