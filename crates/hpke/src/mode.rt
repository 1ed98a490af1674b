//! The modes of a setup (RFC 9180, section 5).

ghost use Rattle.std.specs.Prelude.{◌≡◌, is_some};
ghost use Rattle.std.specs.Option.{option_map};

use crate::kem::Kem;
use crate::serial::Serializable;

/// The number of mode Base (RFC 9180, table 1).
const MODE_BASE: u8 = 0x00;

/// The number of mode PSK.
const MODE_PSK: u8 = 0x01;

/// The number of mode Auth.
const MODE_AUTH: u8 = 0x02;

/// The number of mode AuthPSK.
const MODE_AUTH_PSK: u8 = 0x03;

/// A pre-shared key and its identity, of any bytes: nothing is asked of either. RFC 9180 asks for a
/// key of at least 32 bytes of entropy, and for both or neither (sections 5.1 and 9.5).
#[derive(Clone, Copy)]
pub struct PskBundle<'a> {
    /// The pre-shared key.
    pub psk: &'a [u8],
    /// What both sides know the key by.
    pub psk_id: &'a [u8],
}

/// How a recipient sets up a context: what it knows of the sender.
#[derive(Drop)]
pub enum OpModeR<'a, K: Kem> {
    /// Without a pre-shared key and without a sender's identity.
    Base,
    /// With a pre-shared key.
    Psk(PskBundle<'a>),
    /// With the sender's public key.
    Auth(K::PublicKey),
    /// With the sender's public key and a pre-shared key.
    AuthPsk(K::PublicKey, PskBundle<'a>),
}

/// How a sender sets up a context: what it shows of itself.
#[derive(Drop)]
pub enum OpModeS<'a, K: Kem> {
    /// Without a pre-shared key and without a sender's identity.
    Base,
    /// With a pre-shared key.
    Psk(PskBundle<'a>),
    /// With the sender's pair of keys.
    Auth(K::PrivateKey, K::PublicKey),
    /// With the sender's pair of keys and a pre-shared key.
    AuthPsk(K::PrivateKey, K::PublicKey, PskBundle<'a>),
}

impl<'a, K: Kem> OpModeR<'a, K> {
    ghost use Rattle.hpke.specs.RecipientMode.{recipient_mode, recipient_sender};

    /// The number of the mode (RFC 9180, table 1).
    pub fn mode_id(&self) -> u8
        ensures { result ≡ (recipient_mode self.now).number }
    {
        match self {
            OpModeR::Base => MODE_BASE,
            OpModeR::Psk(_) => MODE_PSK,
            OpModeR::Auth(_) => MODE_AUTH,
            OpModeR::AuthPsk(_, _) => MODE_AUTH_PSK,
        }
    }

    /// The pre-shared key and its identity, both empty where there is none.
    pub(crate) fn psk_bundle(&self) -> PskBundle<'_>
        ensures psk { result.psk.now ≡ (recipient_mode self.now).psk }
        ensures psk_id { result.psk_id.now ≡ (recipient_mode self.now).psk_id }
    {
        match self {
            OpModeR::Psk(bundle) => *bundle,
            OpModeR::AuthPsk(_, bundle) => *bundle,
            _ => PskBundle {
                psk: &[],
                psk_id: &[],
            },
        }
    }

    /// The sender's public key, where the mode has one.
    pub(crate) fn pk_sender_id(&self) -> Option<&K::PublicKey>
        ensures { option_map (λ pk. K.PublicKey.bytes pk.now) result ≡ recipient_sender K.PublicKey.bytes self.now }
    {
        match self {
            OpModeR::Auth(pk) => Some(pk),
            OpModeR::AuthPsk(pk, _) => Some(pk),
            _ => None,
        }
    }
}

impl<'a, K: Kem> OpModeS<'a, K> {
    ghost use Rattle.hpke.specs.Answers.{both};
    ghost use Rattle.hpke.specs.SenderMode.{sender_mode, sender_identity};

    /// The number of the mode (RFC 9180, table 1).
    pub fn mode_id(&self) -> u8
        ensures { result ≡ (sender_mode self.now).number }
    {
        match self {
            OpModeS::Base => MODE_BASE,
            OpModeS::Psk(_) => MODE_PSK,
            OpModeS::Auth(_, _) => MODE_AUTH,
            OpModeS::AuthPsk(_, _, _) => MODE_AUTH_PSK,
        }
    }

    /// The pre-shared key and its identity, both empty where there is none.
    pub(crate) fn psk_bundle(&self) -> PskBundle<'_>
        ensures psk { result.psk.now ≡ (sender_mode self.now).psk }
        ensures psk_id { result.psk_id.now ≡ (sender_mode self.now).psk_id }
    {
        match self {
            OpModeS::Psk(bundle) => *bundle,
            OpModeS::AuthPsk(_, _, bundle) => *bundle,
            _ => PskBundle {
                psk: &[],
                psk_id: &[],
            },
        }
    }

    /// The sender's pair of keys, where the mode has one.
    pub(crate) fn sender_id_keypair(&self) -> (Option<&K::PrivateKey>, Option<&K::PublicKey>)
        ensures pair { both (option_map (λ sk. K.PrivateKey.bytes sk.now) result.0) (option_map (λ pk. K.PublicKey.bytes pk.now) result.1)
            ≡ sender_identity K.PrivateKey.bytes K.PublicKey.bytes self.now }
        ensures together { is_some result.0 ≡ is_some result.1 }
    {
        match self {
            OpModeS::Auth(sk, pk) => (Some(sk), Some(pk)),
            OpModeS::AuthPsk(sk, pk, _) => (Some(sk), Some(pk)),
            _ => (None, None),
        }
    }
}
