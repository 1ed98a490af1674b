//! A caller of `hash_families`.

ghost use Rattle.std.specs.Prelude.{◌≡◌};
ghost use Rattle.std.specs.List.{flat_map, range_with_len};
ghost use Rattle.ml_kem.specs.Samples.{sample};

use hash_families::{Pattern, RepeatingHash};
use ml_kem::{B32, sample_ntt};
use module_lattice::{BaseField, NttPolynomial};

/// The sample of an entry where the XOF repeats three bytes: it depends on no seed.
pub fn repeated_sample<P: Pattern>(rho: &B32) -> Option<NttPolynomial<BaseField>>
    ensures { result ≡ sample (flat_map (λ i. P.bytes) (range_with_len 0 896)) }
{
    sample_ntt::<RepeatingHash<P>>(rho, 0, 0)
}
