//! Texts for the strict reader, of an independent model.

/// A text that is read as a stanza, and the bytes that follow it.
pub struct Read {
    pub text: &'static [u8],
    pub tag: &'static str,
    pub args: &'static [&'static str],
    pub body: &'static [u8],
    pub rest: &'static [u8],
}

/// A text that is read as a string, and the bytes that follow it.
pub struct ReadString {
    pub text: &'static [u8],
    pub string: &'static str,
    pub rest: &'static [u8],
}

const STANZAS: &[Read] = &[
    Read {
        text: b"-> empty-body some arguments\n\n",
        tag: "empty-body",
        args: &["some", "arguments"],
        body: b"",
        rest: b"",
    },
    Read {
        text: b"-> test foo\nYmFy\n-> done\n\n",
        tag: "test",
        args: &["foo"],
        body: b"\x62\x61\x72",
        rest: b"-> done\n\n",
    },
    Read {
        text: b"-> a\nAA\n",
        tag: "a",
        args: &[],
        body: b"\x00",
        rest: b"",
    },
    Read {
        text: b"-> a\nAAA\n",
        tag: "a",
        args: &[],
        body: b"\x00\x00",
        rest: b"",
    },
    Read {
        text: b"-> a\nAAAA\n",
        tag: "a",
        args: &[],
        body: b"\x00\x00\x00",
        rest: b"",
    },
    Read {
        text: b"-> a\nAAECAwQFBgcICQoLDA0ODxAREhMUFRYXGBkaGxwdHh8gISIjJCUmJygpKissLS4v\n\n",
        tag: "a",
        args: &[],
        body: b"\x00\x01\x02\x03\x04\x05\x06\x07\x08\x09\x0a\x0b\x0c\x0d\x0e\x0f\x10\x11\x12\x13\x14\x15\x16\x17\x18\x19\x1a\x1b\x1c\x1d\x1e\x1f\x20\x21\x22\x23\x24\x25\x26\x27\x28\x29\x2a\x2b\x2c\x2d\x2e\x2f",
        rest: b"",
    },
    Read {
        text: b"-> a\nAAECAwQFBgcICQoLDA0ODxAREhMUFRYXGBkaGxwdHh8gISIjJCUmJygpKissLS4v\nAAECAwQFBgcICQoLDA0ODxAREhMUFRYXGBkaGxwdHh8gISIjJCUmJygpKissLS4v\nAQI\nmore",
        tag: "a",
        args: &[],
        body: b"\x00\x01\x02\x03\x04\x05\x06\x07\x08\x09\x0a\x0b\x0c\x0d\x0e\x0f\x10\x11\x12\x13\x14\x15\x16\x17\x18\x19\x1a\x1b\x1c\x1d\x1e\x1f\x20\x21\x22\x23\x24\x25\x26\x27\x28\x29\x2a\x2b\x2c\x2d\x2e\x2f\x00\x01\x02\x03\x04\x05\x06\x07\x08\x09\x0a\x0b\x0c\x0d\x0e\x0f\x10\x11\x12\x13\x14\x15\x16\x17\x18\x19\x1a\x1b\x1c\x1d\x1e\x1f\x20\x21\x22\x23\x24\x25\x26\x27\x28\x29\x2a\x2b\x2c\x2d\x2e\x2f\x01\x02",
        rest: b"more",
    },
    Read {
        text: b"-> ! ~\n\n-> ",
        tag: "!",
        args: &["~"],
        body: b"",
        rest: b"-> ",
    },
    Read {
        text: b"-> -> done\n\n",
        tag: "->",
        args: &["done"],
        body: b"",
        rest: b"",
    },
    Read {
        text: b"-> a b c d e f\n+/+/\n",
        tag: "a",
        args: &["b", "c", "d", "e", "f"],
        body: b"\xfb\xff\xbf",
        rest: b"",
    },
    Read {
        text: b"-> a\nAAECAwQFBgcICQoLDA0ODxAREhMUFRYXGBkaGxwdHh8gISIjJCUmJygpKissLS8\n",
        tag: "a",
        args: &[],
        body: b"\x00\x01\x02\x03\x04\x05\x06\x07\x08\x09\x0a\x0b\x0c\x0d\x0e\x0f\x10\x11\x12\x13\x14\x15\x16\x17\x18\x19\x1a\x1b\x1c\x1d\x1e\x1f\x20\x21\x22\x23\x24\x25\x26\x27\x28\x29\x2a\x2b\x2c\x2d\x2f",
        rest: b"",
    },
    Read {
        text: b"-> a\nAAECAwQFBgcICQoLDA0ODxAREhMUFRYXGBkaGxwdHh8gISIjJCUmJygpKiss\n",
        tag: "a",
        args: &[],
        body: b"\x00\x01\x02\x03\x04\x05\x06\x07\x08\x09\x0a\x0b\x0c\x0d\x0e\x0f\x10\x11\x12\x13\x14\x15\x16\x17\x18\x19\x1a\x1b\x1c\x1d\x1e\x1f\x20\x21\x22\x23\x24\x25\x26\x27\x28\x29\x2a\x2b\x2c",
        rest: b"",
    },
    Read {
        text: b"-> a\n\n\n\n",
        tag: "a",
        args: &[],
        body: b"",
        rest: b"\n\n",
    },
    Read {
        text: b"-> a\n\nAAAA\n",
        tag: "a",
        args: &[],
        body: b"",
        rest: b"AAAA\n",
    },
    Read {
        text: b"-> tttttttttttttttttttttttttttttttttttttttttttttttttttttttttttttttttttttttttttttttttttttttttttttttttttttttttttttttttttttttttttttttttttttttttttttttttttttttttttttttttttttttttttttttttttttttttttttttttttttttt uuuuuuuuuuuuuuuuuuuuuuuuuuuuuuuuuuuuuuuuuuuuuuuuuuuuuuuuuuuuuuuuuuuuuuuuuuuuuuuuuuuuuuuuuuuuuuuuuuuuuuuuuuuuuuuuuuuuuuuuuuuuuuuuuuuuuuuuuuuuuuuuuuuuuuuuuuuuuuuuuuuuuuuuuuuuuuuuuuuuuuuuuuuuuuuuuuuuuuuu\n\n",
        tag: "tttttttttttttttttttttttttttttttttttttttttttttttttttttttttttttttttttttttttttttttttttttttttttttttttttttttttttttttttttttttttttttttttttttttttttttttttttttttttttttttttttttttttttttttttttttttttttttttttttttttt",
        args: &[
            "uuuuuuuuuuuuuuuuuuuuuuuuuuuuuuuuuuuuuuuuuuuuuuuuuuuuuuuuuuuuuuuuuuuuuuuuuuuuuuuuuuuuuuuuuuuuuuuuuuuuuuuuuuuuuuuuuuuuuuuuuuuuuuuuuuuuuuuuuuuuuuuuuuuuuuuuuuuuuuuuuuuuuuuuuuuuuuuuuuuuuuuuuuuuuuuuuuuuuuuu",
        ],
        body: b"",
        rest: b"",
    },
];

/// Texts that begin with a stanza.
pub fn stanzas() -> &'static [Read] {
    STANZAS
}

const INCOMPLETE_STANZAS: &[&'static [u8]] = &[
    b"",
    b"-",
    b"->",
    b"-> ",
    b"-> a",
    b"-> a ",
    b"-> a b ",
    b"-> a\n",
    b"-> a\nA",
    b"-> a\nAAAAA",
    b"-> a\nAAECAwQFBgcICQoLDA0ODxAREhMUFRYXGBkaGxwdHh8gISIjJCUmJygpKissLS4v",
    b"-> a\nAAECAwQFBgcICQoLDA0ODxAREhMUFRYXGBkaGxwdHh8gISIjJCUmJygpKissLS4v\n",
    b"-> a\nAAECAwQFBgcICQoLDA0ODxAREhMUFRYXGBkaGxwdHh8gISIjJCUmJygpKissLS4v\nA",
    b"-> a\nAAECAwQFBgcICQoLDA0ODxAREhMUFRYXGBkaGxwdHh8gISIjJCUmJygpKissL",
];

/// Proper prefixes of spellings.
pub fn incomplete_stanzas() -> &'static [&'static [u8]] {
    INCOMPLETE_STANZAS
}

const NO_STANZAS: &[&'static [u8]] = &[
    b"x",
    b"\n",
    b"--",
    b"->x",
    b"->  a\n\n",
    b"-> \n\n",
    b"-> a  b\n\n",
    b"-> a \n\n",
    b"-> a\tb\n\n",
    b"-> a\r\n\n",
    b"-> a\x7f\n\n",
    b"-> a\x80\n\n",
    b"-> a\x00\n\n",
    b"-> a\nA\n",
    b"-> a\nAAAAA\n",
    b"-> a\nAB\n",
    b"-> a\nAAB\n",
    b"-> a\nAA==\n",
    b"-> a\nA=",
    b"-> a\nA-_A\n",
    b"-> a\nAA\r\n",
    b"-> a\n AA\n",
    b"-> a\nAAECAwQFBgcICQoLDA0ODxAREhMUFRYXGBkaGxwdHh8gISIjJCUmJygpKissLS4vA\n",
    b"-> a\nAAECAwQFBgcICQoLDA0ODxAREhMUFRYXGBkaGxwdHh8gISIjJCUmJygpKissLS4=\n",
    b"-> a\nAAECAwQFBgcICQoLDA0ODxAREhMUFRYXGBkaGxwdHh8gISIjJCUmJygpKissLS4v\n-> b\n\n",
    b"-> a\nAAECAwQFBgcICQoLDA0ODxAREhMUFRYXGBkaGxwdHh8gISIjJCUmJygpKissL\n",
    b"-> a\nAAECAwQFBgcICQoLDA0ODxAREhMUFRYXGBkaGxwdHh8gISIjJCUmJygpKissLS4v\nAB\n",
];

/// Texts that no stanza begins.
pub fn no_stanzas() -> &'static [&'static [u8]] {
    NO_STANZAS
}

const STRINGS: &[ReadString] = &[
    ReadString {
        text: b"a ",
        string: "a",
        rest: b" ",
    },
    ReadString {
        text: b"a b",
        string: "a",
        rest: b" b",
    },
    ReadString {
        text: b"ab\ncd",
        string: "ab",
        rest: b"\ncd",
    },
    ReadString {
        text: b"~\x7f",
        string: "~",
        rest: b"\x7f",
    },
    ReadString {
        text: b"! ",
        string: "!",
        rest: b" ",
    },
    ReadString {
        text: b"a\x80",
        string: "a",
        rest: b"\x80",
    },
    ReadString {
        text: b"a\x00b",
        string: "a",
        rest: b"\x00b",
    },
    ReadString {
        text: b"-> x",
        string: "->",
        rest: b" x",
    },
];

/// Texts that begin with a string.
pub fn strings() -> &'static [ReadString] {
    STRINGS
}

const INCOMPLETE_STRINGS: &[&'static [u8]] = &[b"", b"a", b"abc", b"!~", b"->"];

/// Texts of visible characters alone.
pub fn incomplete_strings() -> &'static [&'static [u8]] {
    INCOMPLETE_STRINGS
}

const NO_STRINGS: &[&'static [u8]] = &[b" a", b"\n", b"\x7f", b" ", b"\x80"];

/// Texts that begin with another byte.
pub fn no_strings() -> &'static [&'static [u8]] {
    NO_STRINGS
}

const ARBITRARY_STRINGS: &[&'static str] = &[
    "a",
    "!",
    "~",
    "!~",
    "->",
    "\"#$%&'()*+,-./:;<=>?@[\\]^_`{|}",
];

/// What a tag or an argument may be.
pub fn arbitrary_strings() -> &'static [&'static str] {
    ARBITRARY_STRINGS
}

const OTHER_STRINGS: &[&'static str] = &["", " ", "a b", "a\n", "\x7f", "a\x7f", "\x1f", "é", "aé"];

/// What it may not be.
pub fn other_strings() -> &'static [&'static str] {
    OTHER_STRINGS
}
