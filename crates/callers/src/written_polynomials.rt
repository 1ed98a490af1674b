//! A caller of `module_lattice`.

ghost use Rattle.std.specs.Prelude.{◌≡◌, ◌*◌, ◌^◌, ◌<◌, ◌≤◌, All, IfOk, length};

use module_lattice::{Encode, laws};
use std::alloc::{AllocError, Global};

/// Writes polynomials of 12 bits for each coefficient to `out`, and reads them back: the same
/// polynomials, whether the value is one polynomial or a vector of them.
pub fn write_and_read<E: Encode>(
    alloc: Global,
    value: &E,
    count: usize,
    out: &mut [u8],
) -> Result<E, AllocError>
    requires width { 4096 ≤ 2 * E.Q }
    requires count { E.has_count count }
    requires polynomials { length (E.polynomials value.now) ≡ count }
    requires in_width { All (λ f. All (λ x. x < 2 ^ 12) f) (E.polynomials value.now) }
    requires room { length out.old ≡ 384 * count }
    ensures { IfOk result (λ back. E.polynomials back ≡ E.polynomials value.now) }
{
    value.encode(12, out);
    laws::decodes_what_was_encoded();
    E::decode(alloc, 12, count, out)
}
