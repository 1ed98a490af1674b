//! What age 1.1.1 and a plugin said to each other, recorded from real runs: in each, age sends a phase of
//! commands to the plugin, and then the plugin sends one to age, which replies to each of its commands.

/// What age sent, and what it comes to by command: the bodies of its stanzas.
pub struct Told {
    pub text: &'static [u8],
    pub commands: (&'static str, &'static str, Option<&'static str>),
    pub a: &'static [&'static [u8]],
    pub b: &'static [&'static [u8]],
    /// None where there are but two commands.
    pub c: &'static [&'static [u8]],
}

/// What the plugin sent and what age replied.
pub struct Asked {
    pub text: &'static [u8],
    pub replies: &'static [u8],
    /// The bodies of the commands that age knows, in order.
    pub bodies: &'static [&'static [u8]],
    /// Whether the plugin ended the phase by `done`.
    pub is_done: bool,
}

/// The commands of a plugin that age 1.1.1 knows among those of the runs.
pub const KNOWN: [&str; 5] = ["recipient-stanza", "file-key", "msg", "confirm", "error"];

/// The one of these that age replied `fail` to, since it had no terminal to ask at.
pub const FAILED: &str = "confirm";

const TOLD: &[Told] = &[
    // Encrypt.
    Told {
        text: b"-> add-recipient age1peers1qpzry9x8gf2tvdw0s3jn54khce6mua7lgpqk6k\n\n-> wrap-file-key\n4rO6a4KE5Vc5YOd2XS6ePA\n-> done\n\n",
        commands: ("add-recipient", "add-identity", Some("wrap-file-key")),
        a: &[b""],
        b: &[],
        c: &[b"\xe2\xb3\xba\x6b\x82\x84\xe5\x57\x39\x60\xe7\x76\x5d\x2e\x9e\x3c"],
    },
    // Decrypt.
    Told {
        text: b"-> add-identity AGE-PLUGIN-PEERS-1QYPQGQFF5W\n\n-> recipient-stanza 0 peers arg1 arg2\nuOngMdjevw1jOr0sB3TEZg\n-> done\n\n",
        commands: ("add-identity", "recipient-stanza", None),
        a: &[b""],
        b: &[b"\xb8\xe9\xe0\x31\xd8\xde\xbf\x0d\x63\x3a\xbd\x2c\x07\x74\xc4\x66"],
        c: &[],
    },
    // Encrypt to an identity.
    Told {
        text: b"-> add-identity AGE-PLUGIN-PEERS-1QYPQGQFF5W\n\n-> wrap-file-key\n6Y2+48EX/ZOwPxOE+MjarQ\n-> done\n\n",
        commands: ("add-recipient", "add-identity", Some("wrap-file-key")),
        a: &[],
        b: &[b""],
        c: &[b"\xe9\x8d\xbe\xe3\xc1\x17\xfd\x93\xb0\x3f\x13\x84\xf8\xc8\xda\xad"],
    },
    // The plugin sends grease.
    Told {
        text: b"-> add-recipient age1peers1qpzry9x8gf2tvdw0s3jn54khce6mua7lgpqk6k\n\n-> wrap-file-key\nhy483GB0GumXFdBEoI9NYg\n-> done\n\n",
        commands: ("add-recipient", "add-identity", Some("wrap-file-key")),
        a: &[b""],
        b: &[],
        c: &[b"\x87\x2e\x3c\xdc\x60\x74\x1a\xe9\x97\x15\xd0\x44\xa0\x8f\x4d\x62"],
    },
    // A body of 48 bytes.
    Told {
        text: b"-> add-recipient age1peers1qpzry9x8gf2tvdw0s3jn54khce6mua7lgpqk6k\n\n-> wrap-file-key\nyvpdDbm5GuQcjuJlWnJ59w\n-> done\n\n",
        commands: ("add-recipient", "add-identity", Some("wrap-file-key")),
        a: &[b""],
        b: &[],
        c: &[b"\xca\xfa\x5d\x0d\xb9\xb9\x1a\xe4\x1c\x8e\xe2\x65\x5a\x72\x79\xf7"],
    },
    // Decrypt among three recipients.
    Told {
        text: b"-> add-identity AGE-PLUGIN-PEERS-1QYPQGQFF5W\n\n-> recipient-stanza 0 peers arg1 arg2\nP2KhH2gW4vUDhYse/NdkVQ\n-> recipient-stanza 0 peers arg1 arg2\nP2KhH2gW4vUDhYse/NdkVQ\n-> recipient-stanza 0 X25519 EDYem90Pj4ZpYENmZ158THRJTBRs1WTV7eX2QOhxhUA\nAHU+i4IjKFHcgtgFPlt7/qI4PhG90l+0cguimvBvbqI\n-> done\n\n",
        commands: ("add-identity", "recipient-stanza", None),
        a: &[b""],
        b: &[
            b"\x3f\x62\xa1\x1f\x68\x16\xe2\xf5\x03\x85\x8b\x1e\xfc\xd7\x64\x55",
            b"\x3f\x62\xa1\x1f\x68\x16\xe2\xf5\x03\x85\x8b\x1e\xfc\xd7\x64\x55",
            b"\x00\x75\x3e\x8b\x82\x23\x28\x51\xdc\x82\xd8\x05\x3e\x5b\x7b\xfe\xa2\x38\x3e\x11\xbd\xd2\x5f\xb4\x72\x0b\xa2\x9a\xf0\x6f\x6e\xa2",
        ],
        c: &[],
    },
    // A message to the user.
    Told {
        text: b"-> add-recipient age1peers1qpzry9x8gf2tvdw0s3jn54khce6mua7lgpqk6k\n\n-> wrap-file-key\nWkerVYRcO16+SWRBy6hNOg\n-> done\n\n",
        commands: ("add-recipient", "add-identity", Some("wrap-file-key")),
        a: &[b""],
        b: &[],
        c: &[b"\x5a\x47\xab\x55\x84\x5c\x3b\x5e\xbe\x49\x64\x41\xcb\xa8\x4d\x3a"],
    },
    // A question without a terminal.
    Told {
        text: b"-> add-recipient age1peers1qpzry9x8gf2tvdw0s3jn54khce6mua7lgpqk6k\n\n-> wrap-file-key\nmnuxWwVKriu74X446AMP8w\n-> done\n\n",
        commands: ("add-recipient", "add-identity", Some("wrap-file-key")),
        a: &[b""],
        b: &[],
        c: &[b"\x9a\x7b\xb1\x5b\x05\x4a\xae\x2b\xbb\xe1\x7e\x38\xe8\x03\x0f\xf3"],
    },
    // The plugin gives up.
    Told {
        text: b"-> add-recipient age1peers1qpzry9x8gf2tvdw0s3jn54khce6mua7lgpqk6k\n\n-> wrap-file-key\nIgSTJmYUdewM/40KLusnIQ\n-> done\n\n",
        commands: ("add-recipient", "add-identity", Some("wrap-file-key")),
        a: &[b""],
        b: &[],
        c: &[b"\x22\x04\x93\x26\x66\x14\x75\xec\x0c\xff\x8d\x0a\x2e\xeb\x27\x21"],
    },
];

const ASKED: &[Asked] = &[
    // Encrypt.
    Asked {
        text: b"-> recipient-stanza 0 peers arg1 arg2\nuOngMdjevw1jOr0sB3TEZg\n-> done\n\n",
        replies: b"-> ok\n\n",
        bodies: &[b"\xb8\xe9\xe0\x31\xd8\xde\xbf\x0d\x63\x3a\xbd\x2c\x07\x74\xc4\x66"],
        is_done: true,
    },
    // Decrypt.
    Asked {
        text: b"-> file-key 0\n4rO6a4KE5Vc5YOd2XS6ePA\n-> done\n\n",
        replies: b"-> ok\n\n",
        bodies: &[b"\xe2\xb3\xba\x6b\x82\x84\xe5\x57\x39\x60\xe7\x76\x5d\x2e\x9e\x3c"],
        is_done: true,
    },
    // Encrypt to an identity.
    Asked {
        text: b"-> recipient-stanza 0 peers arg1 arg2\ns9fkuZtNp8nqZUneopKA9w\n-> done\n\n",
        replies: b"-> ok\n\n",
        bodies: &[b"\xb3\xd7\xe4\xb9\x9b\x4d\xa7\xc9\xea\x65\x49\xde\xa2\x92\x80\xf7"],
        is_done: true,
    },
    // The plugin sends grease.
    Asked {
        text: b"-> x7K!-grease ~ a|b\nAAECAwQFBgcICQoLDA0ODxAREhMUFRYXGBkaGxwdHh8gISIjJCUmJygpKissLS4v\n\n-> !-grease\n\n-> recipient-stanza 0 peers arg1 arg2\n3XRmhjouQLPNT4oe+tUXOA\n-> done\n\n",
        replies: b"-> unsupported\n\n-> unsupported\n\n-> ok\n\n",
        bodies: &[b"\xdd\x74\x66\x86\x3a\x2e\x40\xb3\xcd\x4f\x8a\x1e\xfa\xd5\x17\x38"],
        is_done: true,
    },
    // A body of 48 bytes.
    Asked {
        text: b"-> recipient-stanza 0 peers full\nkKAHV+PjQL5G1Lg/ACgjrQAAAAAAAAAAAAAAAAAAAAAAAAAAAAAAAAAAAAAAAAAA\n\n-> done\n\n",
        replies: b"-> ok\n\n",
        bodies: &[
            b"\x90\xa0\x07\x57\xe3\xe3\x40\xbe\x46\xd4\xb8\x3f\x00\x28\x23\xad\x00\x00\x00\x00\x00\x00\x00\x00\x00\x00\x00\x00\x00\x00\x00\x00\x00\x00\x00\x00\x00\x00\x00\x00\x00\x00\x00\x00\x00\x00\x00\x00",
        ],
        is_done: true,
    },
    // Decrypt among three recipients.
    Asked {
        text: b"-> file-key 0\nZTj7RTJMuK9Z39FEpo0+Dw\n-> done\n\n",
        replies: b"-> ok\n\n",
        bodies: &[b"\x65\x38\xfb\x45\x32\x4c\xb8\xaf\x59\xdf\xd1\x44\xa6\x8d\x3e\x0f"],
        is_done: true,
    },
    // A message to the user.
    Asked {
        text: b"-> msg\naGVsbG8gZnJvbSB0aGUgcGx1Z2lu\n-> recipient-stanza 0 peers arg1 arg2\nAB3xD94GYQTkEz4bkfIXYA\n-> done\n\n",
        replies: b"-> ok\n\n-> ok\n\n",
        bodies: &[
            b"\x68\x65\x6c\x6c\x6f\x20\x66\x72\x6f\x6d\x20\x74\x68\x65\x20\x70\x6c\x75\x67\x69\x6e",
            b"\x00\x1d\xf1\x0f\xde\x06\x61\x04\xe4\x13\x3e\x1b\x91\xf2\x17\x60",
        ],
        is_done: true,
    },
    // A question without a terminal.
    Asked {
        text: b"-> confirm eWVz\nZ28gb24/\n-> recipient-stanza 0 peers arg1 arg2\nwCHrAV8Q9HHhuyRisllVqQ\n-> done\n\n",
        replies: b"-> fail\n\n-> ok\n\n",
        bodies: &[
            b"\x67\x6f\x20\x6f\x6e\x3f",
            b"\xc0\x21\xeb\x01\x5f\x10\xf4\x71\xe1\xbb\x24\x62\xb2\x59\x55\xa9",
        ],
        is_done: true,
    },
    // The plugin gives up.
    Asked {
        text: b"-> error internal\ndGhlIHBsdWdpbiBnaXZlcyB1cA\n",
        replies: b"-> ok\n\n",
        bodies: &[b"\x74\x68\x65\x20\x70\x6c\x75\x67\x69\x6e\x20\x67\x69\x76\x65\x73\x20\x75\x70"],
        is_done: false,
    },
];

/// Each phase that age sent.
pub fn phases_of_age() -> &'static [Told] {
    TOLD
}

/// Each phase that the plugin sent.
pub fn phases_of_the_plugin() -> &'static [Asked] {
    ASKED
}
