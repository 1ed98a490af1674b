//! Hybrid public key encryption (RFC 9180) over any KEM, KDF and AEAD.
#![tactic(auto)]

mod aead;
mod aes_gcm;
mod context;
mod error;
mod export_only;
mod kdf;
mod kem;
mod lattice;
pub mod laws;
mod mask;
mod mode;
mod secret;
mod serial;
mod setup;
mod short;
mod single_shot;
mod tag;

pub use aead::{Aead, BaseAead};
pub use aes_gcm::{AesGcm128, AesGcm256};
pub use context::{AeadCtxR, AeadCtxS};
pub use error::HpkeError;
pub use export_only::{EmptyAeadImpl, ExportOnlyAead};
pub use kdf::{
    HkdfSha256, HkdfSha384, HkdfSha512, Kdf, LabeledExpand, extract_and_expand, labeled_extract,
};
pub use kem::Kem;
pub use lattice::{LatticeKem, LatticePrivateKey, LatticePublicKey};
pub use mask::{MaskKem, MaskKey};
pub use mode::{OpModeR, OpModeS, PskBundle};
pub use secret::{SecretSize, SharedSecret};
pub use serial::{Deserializable, Serializable};
pub use setup::{setup_receiver, setup_sender};
pub use single_shot::{
    single_shot_open, single_shot_open_in_place_detached, single_shot_seal,
    single_shot_seal_in_place_detached,
};
pub use tag::AeadTag;
