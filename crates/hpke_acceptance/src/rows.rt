//! Key schedules of an independent model in each mode, with what their contexts export, in hex.

/// A key derivation function by its name.
#[derive(Clone, Copy)]
pub enum KdfName {
    Sha256,
    Sha384,
    Sha512,
}

/// An AEAD by its name.
#[derive(Clone, Copy)]
pub enum AeadName {
    Aes128,
    Aes256,
    ExportOnly,
}

/// One key schedule: what goes in, and what the context holds and exports. A context that only
/// exports shows neither key nor base nonce.
#[derive(Clone, Copy)]
pub struct Row {
    pub mode: u8,
    pub kem_id: u16,
    pub kdf: KdfName,
    pub aead: AeadName,
    pub secret: &'static str,
    pub info: &'static str,
    pub psk: &'static str,
    pub psk_id: &'static str,
    pub key: &'static str,
    pub base_nonce: &'static str,
    pub exporter_context: &'static str,
    pub exported: &'static str,
}

// A key schedule with a sender's key.
const WITH_A_SENDER: Row = Row {
    mode: 2,
    kem_id: 0x0041,
    kdf: KdfName::Sha512,
    aead: AeadName::Aes256,
    secret: "9de038dd2fc84aa509ea0ecac407ce73ff732ec9297e7ae1c9f8f04a10dbae58",
    info: "814c6fe8e9",
    psk: "",
    psk_id: "",
    key: "c5419d011d3744fbac64f7d04f90de2a6bf1d93e4981a9f836782ccc6b3d6242",
    base_nonce: "e6d2288e0eb24e696f207c71",
    exporter_context: "ab88d2",
    exported: "ca",
};

/// The key schedule of 0x0041, SHA-512 and AES-256 with a sender's key.
pub fn row_with_a_sender() -> &'static Row {
    &WITH_A_SENDER
}

/// Each key schedule.
pub fn rows() -> &'static [Row] {
    &[
        Row {
            mode: 0,
            kem_id: 0xff00,
            kdf: KdfName::Sha256,
            aead: AeadName::Aes128,
            secret: "29f916c3ef8af481b4528e11e2a94cbafb256b3be873f005e35f1e050e2835b2",
            info: "b003bc60fdea197f3bed5e5e8921a86a5282f072125abff0b40c0720e45c81a3ee68a2076c6683fb289e2fdecc3a85f3cbf22afc16975ae910c6d4870ba4f1385c4b32c38557",
            psk: "",
            psk_id: "",
            key: "68f81510cb701c7f3b9a3c7fa47b9e22",
            base_nonce: "66dfea29e52b8f6075b1f9eb",
            exporter_context: "24b975a755b9d9c45411c2e746b8676b45f39becc08a510456794e0de1365a4b094145d17566c8be",
            exported: "",
        },
        Row {
            mode: 0,
            kem_id: 0x0041,
            kdf: KdfName::Sha384,
            aead: AeadName::Aes256,
            secret: "b5811f6e45af241de6affde3b74e23e7a78fd9d280be352b3fca06957d9ca40a",
            info: "",
            psk: "",
            psk_id: "",
            key: "d0256d5ac09d9ad0e943e55dedd747d334e402271eb214b1937f6884756b3b7c",
            base_nonce: "19d9f016c939cff8298d6ed3",
            exporter_context: "ff5019740352262349f9e2e1cb32530b571cabd6f0c6a6f32d67df398b99a5f93500bf9f7d9f529d",
            exported: "",
        },
        Row {
            mode: 0,
            kem_id: 0x0041,
            kdf: KdfName::Sha512,
            aead: AeadName::ExportOnly,
            secret: "0b15671fa0af9a5802b3adf472a8c054c48650305bb1014cc78ff1c798ae22e4",
            info: "7b7890b7d8",
            psk: "",
            psk_id: "",
            key: "",
            base_nonce: "",
            exporter_context: "",
            exported: "2088232dfc4e51315dc720b4bf5ebf05686636302afe2a4d79769d9cc97eeecf4aaddc1bfbb5b661f4a30e922270f801a55d92bcc511d6440b02b12225f60b270d",
        },
        Row {
            mode: 1,
            kem_id: 0x0042,
            kdf: KdfName::Sha256,
            aead: AeadName::Aes256,
            secret: "a7d156d27815fe31ec7e65819b58d71faf8398a1b42081dd7cb650bb346b391e",
            info: "3f9f944cc5",
            psk: "5f0208862b7f2eb0125874ecd4781cd590273c7d2bc2a24f0c3abbd8295d1dfa",
            psk_id: "6fa8d29976ef12d27a",
            key: "47f35f3915803bf240eb27f3e218f94cff24ac868d4fad8f73267b01a6eeb7af",
            base_nonce: "da9a9a86da1322c219ea729f",
            exporter_context: "13287f",
            exported: "a4f6f3fd50c8260651b407332a38fca780da8a70a792af963a11cc0d1a211f18",
        },
        Row {
            mode: 1,
            kem_id: 0x0040,
            kdf: KdfName::Sha384,
            aead: AeadName::ExportOnly,
            secret: "a73354c2b57ab508a7c490e2de728cee6caca53bb771c2a1f77bb94a12f72e1c",
            info: "d9b860be34",
            psk: "86e531c34d3fe298bfef7b5bf3329f8e897f9e200e72b6f3462229a2e69a3ec7",
            psk_id: "51618f3f9747eb9c40",
            key: "",
            base_nonce: "",
            exporter_context: "dd0f77",
            exported: "",
        },
        Row {
            mode: 1,
            kem_id: 0xff00,
            kdf: KdfName::Sha512,
            aead: AeadName::Aes128,
            secret: "38ba6c991275c9e552a44305f667a5f7f1b9a81d97fcaa7c5a4944c26c7725b1",
            info: "",
            psk: "05b68c0cecff185d0cbcd46a80e06bf92d8316b9d240bc0a7285783bc2670ce9",
            psk_id: "aa34cfa9d8d9386680",
            key: "f3be3f4269dd044222dae3f4046989cf",
            base_nonce: "df692e1a9849b4cb8c72a93f",
            exporter_context: "2083c1",
            exported: "34e9d5835ef98985352fda06255ffc6fa884bada763e16b6c3f944f8ae5e18ff",
        },
        Row {
            mode: 2,
            kem_id: 0x0042,
            kdf: KdfName::Sha256,
            aead: AeadName::ExportOnly,
            secret: "b23e68c25d49d4fa91f931c3583c70561a87b8d36477625fae80e50d6e5a4080",
            info: "60832779127e073738338d1d919e417c4a3f748d5726f7bfdb302de59ed4358e6c8c58529e40644ce43fc73108b57906d899e8ca71e07ccf1f1ea1b6f8ae405b0e1da54a0c3d",
            psk: "",
            psk_id: "",
            key: "",
            base_nonce: "",
            exporter_context: "",
            exported: "954ce0a205ce29e5887fa65cfa90abaf61b0227549d5423a53f40bf849efca35f3",
        },
        Row {
            mode: 2,
            kem_id: 0x0040,
            kdf: KdfName::Sha384,
            aead: AeadName::Aes128,
            secret: "2c3ba161381f8955cf7dd738aa43a312d6b988c5eb38eb9d3bde6eda1aa6424c",
            info: "",
            psk: "",
            psk_id: "",
            key: "f59067b81bb0da34693163fa83612f1b",
            base_nonce: "712ea418c8f841497824eb64",
            exporter_context: "39fdcf",
            exported: "",
        },
        WITH_A_SENDER,
        Row {
            mode: 3,
            kem_id: 0x0042,
            kdf: KdfName::Sha256,
            aead: AeadName::Aes256,
            secret: "8604d6aefd24888b6ef250cd597c753bf7137113c8d111818287a27488df9152",
            info: "dcc3be43b2",
            psk: "09f72b35577399081998c0739a8ba961ed631a640c175c7529670a73aeefe361",
            psk_id: "e78a7fca8cc6639afe",
            key: "5a95d4f29afc540edf083532c2ec8d88a8383bb989be0319ac0fdef6a8f27783",
            base_nonce: "891c4bf9d9d3ab02121defbd",
            exporter_context: "e0eb05",
            exported: "",
        },
        Row {
            mode: 3,
            kem_id: 0xff00,
            kdf: KdfName::Sha384,
            aead: AeadName::Aes128,
            secret: "f0783086d523e2e308c8fe441a44fe6789ba227f8d1248aec59344e2ee5460fb",
            info: "6c59c6c515",
            psk: "fd7d56b76875958da70318351af30ceffb81a148c4e51424256d25777ef8354a",
            psk_id: "a476dabb8c8291bac7",
            key: "e4bed26a0eb5d9f2aafecdfe5525653f",
            base_nonce: "56ae5c6ce760cc66159faf55",
            exporter_context: "d295640d9c67ee9b5b0458139650df483febd7ae50487ba566809c75fd2bbea32091d4c6da7215c5",
            exported: "c7f3ed72ebfbe16dc1e4f9bc4ee713dc945318efbb2598c3e168d8165785fa00",
        },
        Row {
            mode: 3,
            kem_id: 0x0041,
            kdf: KdfName::Sha512,
            aead: AeadName::Aes256,
            secret: "8d468b637041416657d4785952e9bbfbcc83dfc74b3910f1e41549f826c0004a",
            info: "c181e953dda540c390d387294bfec96cc60009767b71f864e1862cf31840cc87966bb522d8d3f63fc3dce379c4779c29c3bbad2f1489b438917876201c6d966c7742fbae2b23",
            psk: "43f186d67b60f0817d3fa7ec4b6ff64fff283976f8e3563ff69904938c0203f2",
            psk_id: "d5fc4b924ceeec83e0",
            key: "509960a20618dc371514b22880e89f03b9c286f4ffebae09f0dd780a1a831e43",
            base_nonce: "e3cd0a462b1c606bf095a6da",
            exporter_context: "c089ee",
            exported: "b1145b1acaf6390e44211f49d4a824498b0455be77150530f0539b6da1db7ff906a0612dd74b49d1f1ce219b17fa79c5a00de1560589d890ff966dc885d4c4d8b6",
        },
    ]
}
