//! Ciphertexts.

ghost use Rattle.std.specs.Prelude.{◌≡◌, ◌≢◌, Err, IfErr, IfOk, length};
ghost use Rattle.ml_kem.specs.declared.error.CiphertextError.TheVariants.{NoMemory, WrongLength};

use crate::error::CiphertextError;
use crate::parameters::ParameterSet;
use std::alloc::{AllocError, Global};
use std::marker::{Model, PhantomData};

/// A ciphertext: CT_SIZE bytes, which contracts see.
#[derive(Drop)]
pub struct Ciphertext<P: ParameterSet> {
    bytes: Vec<u8>,
    set: PhantomData<P>,
}

impl<P: ParameterSet> Model for Ciphertext<P> {
    ghost use Rattle.std.specs.Prelude.{◌≡◌, ℕ, List, length};

    ghost Value = { List ℕ };

    ghost view = { λ c. c.bytes.items };

    ghost invariant = { λ c. length c.bytes.items ≡ P.CT_SIZE };
}

impl<P: ParameterSet> Ciphertext<P> {
    /// The ciphertext of these bytes. `WrongLength`, with CT_SIZE and the length that was given, comes
    /// exactly for another length, and `NoMemory` at want of memory.
    pub fn from_slice(alloc: Global, bytes: &[u8]) -> Result<Ciphertext<P>, CiphertextError>
        ensures value { IfOk result (λ c. c ≡ bytes.now) }
        ensures size { IfOk result (λ _. length bytes.now ≡ P.CT_SIZE) }
        ensures wrong { length bytes.now ≢ P.CT_SIZE → result ≡ Err (WrongLength P.CT_SIZE (length bytes.now)) }
        ensures right { length bytes.now ≡ P.CT_SIZE → IfErr result (λ e. e ≡ NoMemory) }
    {
        if bytes.len() != P::CT_SIZE {
            return Err(CiphertextError::WrongLength(P::CT_SIZE, bytes.len()));
        }
        let bytes = bytes.to_vec(alloc)?;
        Ok(Ciphertext::from_vec(bytes))
    }

    /// The bytes.
    pub fn as_slice(&self) -> &[u8]
        ensures value { result.now ≡ self.now }
        ensures size { length self.now ≡ P.CT_SIZE }
    {
        self.bytes.as_slice()
    }

    /// A ciphertext of the same bytes. It is refused at want of memory alone.
    pub fn try_clone(&self) -> Result<Ciphertext<P>, AllocError>
        ensures { IfOk result (λ c. c ≡ self.now) }
    {
        let bytes = self.bytes.clone()?;
        Ok(Ciphertext {
            bytes,
            set: PhantomData,
        })
    }

    /// The ciphertext of CT_SIZE bytes.
    pub(crate) fn from_vec(bytes: Vec<u8>) -> Ciphertext<P>
        requires { length bytes.items ≡ P.CT_SIZE }
        ensures { result ≡ bytes.items }
    {
        Ciphertext {
            bytes,
            set: PhantomData,
        }
    }
}
