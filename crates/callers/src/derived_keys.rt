//! A caller of `sha3`.

ghost use Rattle.std.specs.Prelude.{◌≡◌, ◌++◌};
ghost use Rattle.sha3.specs.Sha3.{shake256};

use sha3::{ExtendableOutput, Shake256, XofReader, laws};

/// Two keys of one secret and a label: the first 64 bytes of SHAKE256 of both, by halves.
pub fn derived_keys(secret: &[u8], label: &[u8]) -> ([u8; 32], [u8; 32])
    ensures { result.0 ++ result.1 ≡ shake256 (secret.now ++ label.now) 64 }
{
    laws::lengths();
    let mut function = Shake256::new();
    function.update(secret);
    function.update(label);
    let mut output = function.finalize_xof();
    let (mut first, mut second) = ([0; 32], [0; 32]);
    output.read(&mut first);
    output.read(&mut second);
    (first, second)
}
