//! The object identifiers of ML-KEM.

ghost use Rattle.std.specs.Prelude.{◌≡◌};
ghost use Rattle.key_der.specs.Keys.{oid};

use ml_kem::ParameterSet;

/// The contents octets of an object identifier.
pub(crate) const OID_SIZE: usize = 9;

/// The object identifier of a parameter set, by its contents octets (X.690, section 8.19):
/// 2.16.840.1.101.3.4.4 and 1 for ML-KEM-512, 2 for ML-KEM-768 and 3 for ML-KEM-1024. It takes no memory.
pub fn oid<P: ParameterSet>() -> [u8; OID_SIZE]
    ensures { result ≡ oid P.set }
{
    [
        0x60,
        0x86,
        0x48,
        0x01,
        0x65,
        0x03,
        0x04,
        0x04,
        (P::K - 1) as u8,
    ]
}
