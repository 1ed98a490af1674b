//! Runs of the program, as tables. The answers are those of worked examples and of an independent model
//! of the program, whose 80 runs of all suites and faults were compared with the built program by hand.

use crate::mails::{
    ARGUED, FIRST, KEM, MAIL_512, MAIL_1024, OPENED, OTHERS, SECOND, SEED, UPPER_CASE,
};

/// So many times a text.
pub type Part = (usize, &'static str);

/// A run: its words and input, and what it answers and writes.
pub struct Run {
    pub name: &'static str,
    pub command: &'static str,
    pub input: &'static [Part],
    pub status: u8,
    pub output: &'static str,
}

/// The digits of the zero seed.
pub const ZERO_SEED: Part = (128, "0");

/// The end of a seed's line, and an empty info.
const NO_INFO: Part = (1, "\n\n");

const INFO: Part = (1, "00ff\n");

const KEM_TAG: Part = (1, "-> kem\n");

/// The body of an encapsulated key of zeros: its whole lines, and the last one.
const ZERO_LINES: Part = (
    22,
    "AAAAAAAAAAAAAAAAAAAAAAAAAAAAAAAAAAAAAAAAAAAAAAAAAAAAAAAAAAAAAAAA\n",
);

const LAST_ZEROS: Part = (1, "AAAAAAAAAAAAAAAAAAAAAAAAAAAAAAAAAAAAAAAAAAA\n");

const DONE: Part = (1, "-> done\n\n");

/// The stanza of the second message with its first byte changed.
const CHANGED: Part = (1, "-> msg\nAZD5eGpFj8e4LyeXM7nd7p0\n");

/// A mail with an encapsulated key of zeros and no messages: 1490 bytes.
pub const ZERO_MAIL: &[Part] = &[KEM_TAG, ZERO_LINES, LAST_ZEROS, DONE];

/// The same behind a head of zeros.
pub const ZERO_INPUT: &[Part] = &[ZERO_SEED, NO_INFO, KEM_TAG, ZERO_LINES, LAST_ZEROS, DONE];

/// A mail without a key behind a head of zeros.
pub const DONE_INPUT: &[Part] = &[ZERO_SEED, NO_INFO, DONE];

/// A mail of five messages behind its head.
pub const MESSAGES_INPUT: &[Part] = &[SEED, INFO, KEM, FIRST, SECOND, OTHERS, DONE];

/// Mails that are refused before a message is opened.
const REFUSALS: &[Run] = &[
    Run {
        name: "no key",
        command: "open 768 sha256 aes256 65536",
        input: &[ZERO_SEED, NO_INFO, DONE],
        status: 3,
        output: "! NotOneKem 0\n",
    },
    Run {
        name: "no key, budget 9",
        command: "open 768 sha256 aes256 9",
        input: &[ZERO_SEED, NO_INFO, DONE],
        status: 3,
        output: "! NotOneKem 0\n",
    },
    Run {
        name: "no key, budget 8",
        command: "open 768 sha256 aes256 8",
        input: &[ZERO_SEED, NO_INFO, DONE],
        status: 3,
        output: "! TooMuch\n",
    },
    Run {
        name: "cut, budget 9",
        command: "open 768 sha256 aes256 9",
        input: &[ZERO_SEED, NO_INFO, (1, "-> done\n")],
        status: 3,
        output: "! UnexpectedEof\n",
    },
    Run {
        name: "malformed",
        command: "open 768 sha256 aes256 100",
        input: &[ZERO_SEED, NO_INFO, (1, "-> x\n/\n")],
        status: 3,
        output: "! InvalidData\n",
    },
    Run {
        name: "malformed behind done",
        command: "open 768 sha256 aes256 100",
        input: &[ZERO_SEED, NO_INFO, DONE, (1, "-> x\n/\n")],
        status: 3,
        output: "! NotOneKem 0\n",
    },
    Run {
        name: "malformed at the budget",
        command: "open 768 sha256 aes256 8",
        input: &[ZERO_SEED, NO_INFO, (1, "-> x\nA\n\n")],
        status: 3,
        output: "! InvalidData\n",
    },
    Run {
        name: "malformed past the budget",
        command: "open 768 sha256 aes256 5",
        input: &[ZERO_SEED, NO_INFO, (1, "-> x\nAAAA\n\n")],
        status: 3,
        output: "! TooMuch\n",
    },
    Run {
        name: "padding",
        command: "open 768 sha256 aes256 100",
        input: &[ZERO_SEED, NO_INFO, (1, "-> a\nA=\n-> done\n\n")],
        status: 3,
        output: "! InvalidData\n",
    },
    Run {
        name: "space at the end",
        command: "open 768 sha256 aes256 100",
        input: &[ZERO_SEED, NO_INFO, (1, "-> a \n\n-> done\n\n")],
        status: 3,
        output: "! InvalidData\n",
    },
    Run {
        name: "two keys",
        command: "open 768 sha256 aes256 65536",
        input: &[ZERO_SEED, NO_INFO, (2, "-> kem\n\n"), DONE],
        status: 3,
        output: "! NotOneKem 2\n",
    },
    Run {
        name: "key of 1087 bytes",
        command: "open 768 sha256 aes256 65536",
        input: &[
            ZERO_SEED,
            NO_INFO,
            KEM_TAG,
            ZERO_LINES,
            (1, "AAAAAAAAAAAAAAAAAAAAAAAAAAAAAAAAAAAAAAAAAA\n"),
            DONE,
        ],
        status: 3,
        output: "! IncorrectInputLength 1088 1087\n",
    },
    Run {
        name: "key of zeros, budget 1489",
        command: "open 768 sha256 aes256 1489",
        input: &[ZERO_SEED, NO_INFO, KEM_TAG, ZERO_LINES, LAST_ZEROS, DONE],
        status: 3,
        output: "! TooMuch\n",
    },
];

/// Mails whose key is read.
const MAILS: &[Run] = &[
    Run {
        name: "key of zeros, budget 1490",
        command: "open 768 sha256 aes256 1490",
        input: &[ZERO_SEED, NO_INFO, KEM_TAG, ZERO_LINES, LAST_ZEROS, DONE],
        status: 0,
        output: "",
    },
    Run {
        name: "greatest budget",
        command: "open 768 sha256 aes256 16777216",
        input: &[ZERO_SEED, NO_INFO, KEM_TAG, ZERO_LINES, LAST_ZEROS, DONE],
        status: 0,
        output: "",
    },
    Run {
        name: "messages",
        command: "open 768 sha256 aes256 65536",
        input: &[SEED, INFO, KEM, FIRST, SECOND, OTHERS, DONE],
        status: 0,
        output: OPENED,
    },
    Run {
        name: "arguments and other stanzas",
        command: "open 768 sha256 aes256 65536",
        input: &[SEED, INFO, KEM, ARGUED, DONE],
        status: 0,
        output: OPENED,
    },
    Run {
        name: "second message changed",
        command: "open 768 sha256 aes256 65536",
        input: &[SEED, INFO, KEM, FIRST, CHANGED, OTHERS, DONE],
        status: 3,
        output: "! OpenError 1\n",
    },
    Run {
        name: "two keys and a changed message",
        command: "open 768 sha256 aes256 65536",
        input: &[SEED, INFO, KEM, FIRST, CHANGED, OTHERS, KEM, DONE],
        status: 3,
        output: "! NotOneKem 2\n",
    },
    Run {
        name: "message of 15 bytes",
        command: "open 768 sha256 aes256 65536",
        input: &[
            SEED,
            INFO,
            KEM,
            FIRST,
            SECOND,
            OTHERS,
            (1, "-> msg\nTZp0w1Vdm6L4TzWVtsiZ\n"),
            DONE,
        ],
        status: 3,
        output: "! OpenError 5\n",
    },
    Run {
        name: "other info",
        command: "open 768 sha256 aes256 65536",
        input: &[SEED, (1, "00fe\n"), KEM, FIRST, SECOND, OTHERS, DONE],
        status: 3,
        output: "! OpenError 0\n",
    },
    Run {
        name: "512, SHA-384, AES-128",
        command: "open 512 sha384 aes128 65536",
        input: &[MAIL_512],
        status: 0,
        output: "\n49528e4376e64172d493794c391ba95c0a5a3fb8\n",
    },
    Run {
        name: "1024, SHA-512, AES-256",
        command: "open 1024 sha512 aes256 65536",
        input: &[MAIL_1024],
        status: 0,
        output: "\n599103ea35ebd52ad3cf69e2c0cafd7d6c9ba9eb\n",
    },
];

/// Heads of mails, and inputs of keys.
const HEADS: &[Run] = &[
    Run {
        name: "no head",
        command: "open 768 sha256 aes256 65536",
        input: &[],
        status: 3,
        output: "! head ended\n",
    },
    Run {
        name: "head ended in its info",
        command: "open 768 sha256 aes256 65536",
        input: &[ZERO_SEED, (1, "\nab")],
        status: 3,
        output: "! head ended\n",
    },
    Run {
        name: "no digit",
        command: "open 768 sha256 aes256 65536",
        input: &[(1, "0g")],
        status: 3,
        output: "! head 1\n",
    },
    Run {
        name: "129 digits",
        command: "open 768 sha256 aes256 65536",
        input: &[(129, "0"), NO_INFO],
        status: 3,
        output: "! head 128\n",
    },
    Run {
        name: "odd info",
        command: "open 768 sha256 aes256 65536",
        input: &[ZERO_SEED, (1, "\n0\n")],
        status: 3,
        output: "! head 130\n",
    },
    Run {
        name: "info of 8193 digits",
        command: "open 768 sha256 aes256 65536",
        input: &[ZERO_SEED, (1, "\n"), (8193, "0"), (1, "\n")],
        status: 3,
        output: "! head 8321\n",
    },
    Run {
        name: "info of 8192 digits",
        command: "open 768 sha256 aes256 65536",
        input: &[
            ZERO_SEED,
            (1, "\n"),
            (8192, "0"),
            (1, "\n"),
            KEM_TAG,
            ZERO_LINES,
            LAST_ZEROS,
            DONE,
        ],
        status: 0,
        output: "",
    },
    Run {
        name: "upper and lower case",
        command: "open 768 sha256 aes256 65536",
        input: &[
            UPPER_CASE,
            (1, "aB\n"),
            KEM_TAG,
            ZERO_LINES,
            LAST_ZEROS,
            DONE,
        ],
        status: 0,
        output: "",
    },
    Run {
        name: "seed ended",
        command: "key 768",
        input: &[ZERO_SEED],
        status: 3,
        output: "! head ended\n",
    },
    Run {
        name: "no digit in a seed",
        command: "key 768",
        input: &[(77, "0"), (1, " ")],
        status: 3,
        output: "! head 77\n",
    },
];

/// The tables, each by a call of its own.
pub fn refusals() -> &'static [Run] {
    REFUSALS
}

pub fn opened_mails() -> &'static [Run] {
    MAILS
}

pub fn heads() -> &'static [Run] {
    HEADS
}

/// `gen` for small numbers of messages, as an independent model told them. The input is not read.
const GENERATED: &[Run] = &[
    Run {
        name: "no message made",
        command: "gen 0",
        input: &[ZERO_SEED],
        status: 0,
        output: "messages 0\nbytes 0\nmail 1490\ndigest 1671800b2edbed1942a38eaaba8de9cbcf81e7408ccd4b1caeb95e6b227b4e10\n",
    },
    Run {
        name: "an empty message made",
        command: "gen 1",
        input: &[ZERO_SEED],
        status: 0,
        output: "messages 1\nbytes 0\nmail 1520\ndigest ecfe14527cbdd266f4065a86626d00e1f1f4c4baa6f4e7d9b9377e5c5a5f29c1\n",
    },
    Run {
        name: "two messages made",
        command: "gen 2",
        input: &[ZERO_SEED],
        status: 0,
        output: "messages 2\nbytes 1\nmail 1598\ndigest 1c7510aff11a4ee35421b0e6b98fdc597effe598eff118f0907cdc327c5a47a7\n",
    },
    Run {
        name: "ten messages made",
        command: "gen 10",
        input: &[ZERO_SEED],
        status: 0,
        output: "messages 10\nbytes 45\nmail 1893\ndigest e72162d0c7c4fb6c488d28c1b9c26ff63b6ee1f998da4079fbca2964448ea957\n",
    },
];

pub fn generated() -> &'static [Run] {
    GENERATED
}

/// Words that spell no command.
const NO_COMMANDS: &[&str] = &[
    "",
    "open 768 sha256 aes256 065536",
    "open 768 sha256 aes256 0",
    "open 768 sha256 aes256 +1",
    "open 768 sha256 aes256 1x",
    "open 768 sha256 aes256 ",
    "open 768 sha256 aes256 16777217",
    "open 769 sha256 aes256 1",
    "key mask",
    "gen",
    "gen 00",
    "gen 07",
    "gen -0",
    "gen +7",
    "gen 2001",
    "gen 18446744073709551623",
    "gen 7 7",
    "gen 7 ",
    "gen 7\t",
];

pub fn no_commands() -> &'static [&'static str] {
    NO_COMMANDS
}

/// Commands, and the SHA-256 of what their runs write of the zero seed.
const KEYS: &[(&str, &str)] = &[
    (
        "key 512",
        "5ecdda4fa0e6f4891fece22876d228774ec224230aac7c60d7ae1d893e3033ff",
    ),
    (
        "key 768",
        "4612ac11639f42a3aa671da51cd39eeb739cb1ee8bee36b82d1f2eab266cbf0f",
    ),
    (
        "key 1024",
        "e513bb707647a4be585fac20160251d43f31dec24c166b806dbaedf0697bbc11",
    ),
];

pub fn keys() -> &'static [(&'static str, &'static str)] {
    KEYS
}

/// A run whose reads and writes of these numbers fail.
pub struct FaultyRun {
    pub name: &'static str,
    pub reads: &'static [u64],
    pub writes: &'static [u64],
    pub input: &'static [Part],
    pub status: u8,
    pub output: &'static str,
}

/// A head of zeros is read in 130 calls, and a mail whole in the next.
const FAULTY_RUNS: &[FaultyRun] = &[
    FaultyRun {
        name: "mail unread",
        reads: &[130],
        writes: &[],
        input: ZERO_INPUT,
        status: 4,
        output: "",
    },
    FaultyRun {
        name: "fault behind done",
        reads: &[131],
        writes: &[],
        input: DONE_INPUT,
        status: 3,
        output: "! NotOneKem 0\n",
    },
    FaultyRun {
        name: "line unwritten",
        reads: &[],
        writes: &[0],
        input: DONE_INPUT,
        status: 5,
        output: "",
    },
    FaultyRun {
        name: "nothing to write",
        reads: &[],
        writes: &[0],
        input: ZERO_INPUT,
        status: 0,
        output: "",
    },
];

pub fn faulty_runs() -> &'static [FaultyRun] {
    FAULTY_RUNS
}

/// A run whose reads of these numbers fail, and how many reads it makes.
pub struct CountedRun {
    pub name: &'static str,
    pub command: &'static str,
    pub input: &'static [Part],
    pub fail_at: &'static [u64],
    pub status: u8,
    pub reads: u64,
}

/// A byte of a head a read, and one more at its end; and of a mail as much as the budget allows at once.
const COUNTED_RUNS: &[CountedRun] = &[
    CountedRun {
        name: "no head",
        command: "open 768 sha256 aes256 65536",
        input: &[],
        fail_at: &[],
        status: 3,
        reads: 1,
    },
    CountedRun {
        name: "seed ended",
        command: "key 768",
        input: &[ZERO_SEED],
        fail_at: &[],
        status: 3,
        reads: 129,
    },
    CountedRun {
        name: "info ended",
        command: "open 768 sha256 aes256 65536",
        input: &[ZERO_SEED, (1, "\nab")],
        fail_at: &[],
        status: 3,
        reads: 132,
    },
    CountedRun {
        name: "seed unread",
        command: "key 768",
        input: &[ZERO_SEED],
        fail_at: &[5],
        status: 4,
        reads: 6,
    },
    CountedRun {
        name: "mail unread",
        command: "open 768 sha256 aes256 65536",
        input: ZERO_INPUT,
        fail_at: &[130],
        status: 4,
        reads: 131,
    },
    CountedRun {
        name: "mail ended",
        command: "open 768 sha256 aes256 65536",
        input: &[ZERO_SEED, NO_INFO, (1, "-> done\n")],
        fail_at: &[],
        status: 3,
        reads: 132,
    },
    CountedRun {
        name: "budget of 8",
        command: "open 768 sha256 aes256 8",
        input: DONE_INPUT,
        fail_at: &[],
        status: 3,
        reads: 131,
    },
];

pub fn counted_runs() -> &'static [CountedRun] {
    COUNTED_RUNS
}
