//! Each law is called once, and each call that keys don't run.

mod decapsulation;
mod encapsulation;
mod zero_draw;

ghost use Rattle.std.specs.Prelude.{◌<◌};

use hash_families::{Ones, RepeatingHash, SmallAndFifty};
use kem_hash::KemHash;
use ml_kem::{compress, decompress, laws, sample_ntt, sample_poly_cbd};

#[test]
fn laws_are_called(_rt: HostRuntime) {
    laws::parameter_sets();
    laws::worked_transforms();
    laws::worked_roundings();
    laws::compresses_what_was_decompressed();
    laws::worked_samples();
    laws::reads_its_own_expanded_form();
    laws::lengths();
}

#[test]
fn roundings(rt: HostRuntime) {
    assert!(rt; compress(10, 1665) == 512 && decompress(10, 512) == 1665);
}

// The first and the last number of a sample, where there is one.
fn sampled_ends<H: KemHash>() -> Option<(u32, u32)> {
    let values = sample_ntt::<H>(&[7; 32], 1, 2)?.into_array();
    Some((values[0], values[255]))
}

#[test]
fn samples(rt: HostRuntime) {
    assert!(rt; sampled_ends::<RepeatingHash<SmallAndFifty>>() == Some((1, 50)));
    assert!(rt; sampled_ends::<RepeatingHash<Ones>>().is_none());
}

#[test]
fn noise(rt: HostRuntime) {
    let narrow = sample_poly_cbd(2, &[0x3c; 128]).into_array();
    assert!(rt; narrow[254] == 3327 && narrow[255] == 2);
    let wide = sample_poly_cbd(3, &[0x07; 192]).into_array();
    assert!(rt; wide[0] == 3 && wide[1] == 3328);
}
