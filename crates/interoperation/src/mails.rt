//! Mails whose encapsulated key and message others made (the HPKE of OpenSSL 4.0, mode Base). Seeds, infos
//! and messages are in hex.

use age_core::outside::CleanSource;
use hex::FromHex;
use hpke::{Aead, AesGcm128, AesGcm256, HkdfSha256, HkdfSha512, Kdf};
use kem_mail::open_mail;
use ml_kem::{MlKem768, MlKem1024, ParameterSet};
use sha3_family::Sha3Hash;
use std::alloc::Global;
use std::test::Fail;

/// A recipient's seed, a mail, and its one message.
struct Mail {
    seed: &'static str,
    info: &'static str,
    text: &'static str,
    message: &'static str,
}

const MAIL_768: Mail = Mail {
    seed: "0f7da708413af329f3bb27d93ba3820033d0b43cc6e5e6f1187fcb02d72d990f56923acebe6ef990817f0d521cf7aefddf1a7dea935786257a0d69d4678ceb53",
    info: "6f6620373638",
    text: "-> kem\nplifnn5tag6XMnXYlUcCDUoiSC5pCfWfG4QtUCFlSA8NA3Y+F78NrXO4sO9WXItC\nLDygSo3e6py2x7W1egt0HqUdjV+/eNKqyNASNR9KS86aHNMUuKHIO29WSzedzTd6\naNA4IMn3p/q5ApZzQ+nE2Tgss0IZz5aewgvzof+U2bLWK/Y7QJwVgAEv+d7pG6/4\nPkNz1a0bciyMxYXJxcS6EbeYbxTFnQLjqw0pRRTP05NDCtIkUy0/FwcKtWZsHnNt\n3ft+3nRhFi6J3jrhvF+TQRMaqG2mmEYdadyAzwaXUvgMrYr92Ugz3YF37FnsWgCV\nK8FCnuV5CKoJQkIIKotjPYsnI4VDqRsWSI7zNrmcr/sNDxL5VDL5tpJjoeSgZUQr\nK+yX0rwfEOlr5+GV9WsK77dVujFMXf5BqW7aCNcfQOtnGf5vN8eRrPqoQbSPHtEY\nJ5UM/UZCLSumBo/iFQE5jgkGKnAd6YheJogpBTPP1dsr4m1EzrH5Wf5EZIBpGIvZ\nNwV+1VfSEldARXvngGPgDE4hiaicUWgrw7OCva81gc+avrf39IE58v6AXRoE0gKW\n0lHUSzVqYGxRwXWnRDoAgnB5plvf39guILbak0mN/F+3kEQAJ5BYu/Q7d2hVa+qm\n+6o6bpxPoF5loiAlHF9nkINr2RRtCoUfNrdNz6vmgqmIIVlGe16KERrb36pxHoRG\nVCYUMTQKpSLGhcFGTSk/KRT433IhWQQ+7CGIRtVCZnoOpGMK7iHCv09Dr4/ugNpn\nul/UlqRzU0m/zFjtDmaIJU5ieqZyQdgiNFO+FJn3tgA9n9wkgS4P47w/xylWpgMY\nDJbgbTiBnFeGaF5e2nkWsaxx2DdTOdSvTSO6ue8ApAME5J9iqHtMW0qpEneb15he\ntS2p/6E82A+oU6GB67HRJrBm6eGVYNoXBoLqUTqy6WEDS/dLxo+EdwR2x1YWDoTq\nV4GNAcGExTLHz1PS+FpPqzBMEQB5BfLx5bsW+j7UVsx3WQwkvLhnlsfWoXYFpghS\nhB6TocwEjAJnhV+ivNC8nua35x9WChK5SakebMWDWRkzp8PmBdhKBcEj71TeaXNM\n4AcuKz8NrYx1C5ufSZwJ/aqz8aym0ptJXCFLPvPEBV+CPcFDWOGdaiREe0dUsi0u\njghoXJA+Qj4jPvKq3bI9bPKp8bKj7Jm4HmKTXUkv+ZVcOC1b31vkLIvOlG9mAR2f\nDA9zeApPX83oMU1ZTUIaWsbfo4c5gQSLJn2shsFCcRZzVF63aJ21AYDK1Yfeq8u+\n0HYKq8ypX9rZ4s99m11kz5dJi1V+vRYZF0nMbuZm/2QOqg33qCWS+mnVoSGLmjba\naC3APYCcakI5un5pwX3cHFZ+00hWcnnkV82YI3GQuUHs7I3aUZZe3kvUWgwCtQIl\nXgiSsFJ2bfhEzyPDGSEuOwRqL1xUZdnwuS/R6p8PQOg\n-> msg\n+vQVnVgW2XUmwW8VyDccmSJN2F+tOIYkcqmXBCpozn568XaNSlRBD2539zK/Xb3f\nlQ\n-> done\n\n",
    message: "6d61646520656c736577686572652c203736382073686132353620616573313238",
};

const MAIL_1024: Mail = Mail {
    seed: "4ea93a77cb75d8252e6765add03eaa44d280af1d372c2b2219eab10fe6bbbec83a4d485de4c1add8cb22ee6ca9a512eef6fe062d9477b79d59712355d9de0e25",
    info: "6f662031303234",
    text: "-> kem\n+FkL8KkwDuxkIdcmLyOxiM/898JX9TSsX3+kBZM5w8jOuUXkpPvg7h9F03STJX+M\n93AFpU7nOAypH4v83/IQlOAvkSyhLRNIIyM+gK+GHbSCP/KVeXZlhoKNRq6NQJ+e\n9K1UcQY3bcuY5pbydpQbf348SXiMaYENfqP0DTOJS6IbBt+zwt/sznq9mmTxNiYO\nx1i4FbPo7aajgKkeqcgcbI7ru0K7Lqj5XEPtLW/QfLFLpvsGFq2lVzAnm0aUddPg\naLp25W9+P2PtSCzpc1NqellVJXUFC/W2MswWl2WsotoIXBfkMAFwmHHMIDkr7j9Q\nwbClBKExMBErp6gRwVuskN5MnNxI5plGjRokNmuUDvnfQGf30v6ndR1v9dTSA5dY\nJVgNUE1UVo5vi6vpmB2ngc8U6iYvQg3lw5iI8Zm+8kmo5KLXRpqsMAjFdVSk8oVr\n0uxUzpgQ2Nny/nN7nJzcrLrIm1UEVkeHm5tUBwSNcUOijqawNjhTJ5buAMPtcFbH\nYXfPIwyZOVdRN0ufYf61D8qDMkhex4VBDQEePrTNB5vr2+zxOeo4ERpdaZvBmM0/\nCgU1ykFqAoGYsK86jpkK5tq4N7LDBl1T2QoLN8+RDdEZKB+iomtF6+lf/OClplzn\nOCeL6T/B5c/OYo3bJ2UjMs0+N7ac/IVLasnJrJUhJWKmrrUolOvihIdww2I/XWKR\nlZQSJx8Dx5CdpkA2Hb1EWUB28XALji6IOsnPCd0i8nvNmDaQq/8/T8eQ9c0PqAT2\nmTQmtbV0NoLar3Lm1RLnu9229b27Q6f0BTR7etGmvpmcZDTSFM/quua0XhAaO/id\nXWC1lKDcf96h9KGNXpeB+PTlaLKnmt8OZivetqDf1VFPIfbFoe7T5NRXF4lz2RMU\n0MjOaV8fYN28l9THF83cILTyPONicvLkx9R2sJ2TeVSkmq9GNyQcLyjFhLIqF+q/\nfl8ykCHerxNcECZhuULUIKrQ9Z7qP/GVBOCWB0DLaHmyJp6VGOhfDKFOvGNIJ/UH\nvBQutIPhOJmLB26morJICiIbJwr9vijU+cfuMWA17p5muBIULIRUJXHMe3HzHEkP\nMXly1frRNIjIWAqaFZov0MrDqqc4PctE4t44zPh2ky6llFSf0AbMP5FBiy1mWvFg\nD+TM89QzExHGeybdoYSie1qOnqj8QBp6kP+zjUSWg1qoNic4/Tlk4mWVcJlvp0KU\ntbCDUOSePRwbz1lDZg3/gvbqhJp1vKXx4DHPxDGjEJ/33XqMtFoMp9bHYGniUg0I\njTUKk1nHL0H43OMVhuDQTW1wt+klI7fsjcKu8MCH2oF5rLh9yRRpZh8qA+x/quVL\n80mKQ/qU0HD7euaxfOKBhJYZr19IX7dFtSt/oj10ZvogWBft+Tl1CIiuMc/GXfnq\nlw8/EW0SjGMzIX2asouVJ4q721gOhyHjUkFLXUzRA+uHh/kbmKJ63RN1MSltYXKK\nSdr9lm4j+U6EkV+DoP20CITPh98bqta76g02Y5gzddvW8jdagU3UGi+BvczeGmLL\nW35w/OjZd25NnlYyeCKduq1aeJAQt6ZzMysfl435Tpeaz3pZC1phAFRuIPQH3apm\nV8mecmBj5dwcNN7JNHEmN2iGBxoEmstL6BcVeyFQhA16O7+gyuNNaDIG2bLlvK/t\nJjzVnHqU9eS0zpIPNBrjSjoJtUyHYdfudkIKAC62qqGUSJUvky3I+NtJm+H3m0UC\nH5LPinbRsCXxH7ykqWmejbt9wPwtV2fzrjzLGb6qojJllNTefaMxVUkTO6zR/+bF\nnZJusMjMnQ2g9Fb7wfPDlQr8tDurwZdDfpCEj41StMn+mvYMDJoijDGp9Ul+/Lse\nfl8XYaO7Wyofayt43nB51+0XbKgg6Pl5VSvBuLS88wHBy0qqCWxXeXtvdmIzW06C\nuxXsc6uvm71PgPdUWpYz2nCq1pT8D8ECFPfuFAjWCc+L6L4mEYigmWDAUwUUSf7e\nFf/47r4hAAE7PxBYSlj8X6brEKOSDXLbXYmlzSQkBmQDwsp9rJv4MFks8TxERHHo\nHoD/k5T0OjNcQqAEpuDIUaczF9H98rNzaI3W/P0lHJA\n-> msg\n0JKhTwOox6FDhVNeqXvL2eOVp723dBDkwMusFTPpEuz+XEgb76jsVAg6LfA1WAJP\nZOk\n-> done\n\n",
    message: "6d61646520656c736577686572652c20313032342073686135313220616573323536",
};

// The one message of a mail.
fn opened<P: ParameterSet, D: Kdf, A: Aead>(alloc: Global, mail: &Mail) -> Result<String, Fail> {
    let seed = <[u8; 64] as FromHex>::from_hex(mail.seed)?;
    let info = hex::decode(alloc, mail.info)?;
    let text = mail.text.as_bytes();
    let mut src = CleanSource::new(Vec::from_slice(alloc, text)?);
    let messages = open_mail::<P, Sha3Hash, D, A, CleanSource>(
        alloc,
        &seed,
        info.as_slice(),
        &mut src,
        text.len() as u64,
    )?;
    if messages.len() > 1 {
        return Err("another message".into());
    }
    Ok(hex::encode(alloc, messages.get(0).ok_or("no message")?)?)
}

#[test]
fn opens_a_mail_at_768(rt: HostRuntime) -> Result<(), Fail> {
    let message = opened::<MlKem768, HkdfSha256, AesGcm128>(rt.alloc(), &MAIL_768)?;
    assert!(rt; message.as_str() == MAIL_768.message);
    Ok(())
}

#[test]
fn opens_a_mail_at_1024(rt: HostRuntime) -> Result<(), Fail> {
    let message = opened::<MlKem1024, HkdfSha512, AesGcm256>(rt.alloc(), &MAIL_1024)?;
    assert!(rt; message.as_str() == MAIL_1024.message);
    Ok(())
}
