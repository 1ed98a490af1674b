//! The transform by layers of butterflies (FIPS 203, section 4.3, algorithm 9).

ghost use Rattle.std.specs.Prelude.{◌≡◌, ◌+◌, ◌*◌, ◌/◌, ◌<◌, ◌≤◌};
ghost use Rattle.module_lattice.specs.Ring.{IsPolynomial};
ghost use Rattle.lattice_transform.specs.Layers.{layer};
ghost use Rattle.lattice_transform.specs.Transform.{transform};

use crate::zetas::zeta;
use module_lattice::{BaseField, Butterflies, Steps};
use std::sync::ledger::Ledger;

/// The butterflies of a layer.
const BUTTERFLIES: usize = 128;

/// The transform of any values that butterflies can change, in seven layers of 128 butterflies.
///
/// The values become their transform, and the counter rises by 896. Since this body can change the
/// values by butterflies alone, and has no other counter of the ledger, it makes the transform by at
/// most 896 butterflies.
pub fn ntt_counted<B: Butterflies<BaseField, L>, L: Ledger>(values: &mut B, steps: &mut Steps<L>)
    ensures value { B.values values.new ≡ transform (B.values values.old) }
    ensures counted { steps.new ≡ steps.old + 896 }
{
    layer_counted(values, 128, steps);
    layer_counted(values, 64, steps);
    layer_counted(values, 32, steps);
    layer_counted(values, 16, steps);
    layer_counted(values, 8, steps);
    layer_counted(values, 4, steps);
    layer_counted(values, 2, steps);
}

// One layer, whose butterflies join places `half` apart.
fn layer_counted<B: Butterflies<BaseField, L>, L: Ledger>(
    values: &mut B,
    half: usize,
    steps: &mut Steps<L>,
)
    requires low { 2 ≤ half }
    requires whole { half * (128 / half) ≡ 128 }
    ensures value { B.values values.new ≡ layer half (B.values values.old) }
    ensures before { IsPolynomial 3329 (B.values values.old) }
    ensures counted { steps.new ≡ steps.old + 128 }
{
    for k in 0..BUTTERFLIES {
        let group = k / half;
        let place = k + half * group;
        values.butterfly(place, place + half, zeta(BUTTERFLIES / half + group), steps);
    }
}
