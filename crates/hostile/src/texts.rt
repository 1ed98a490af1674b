//! Texts of mails: a worked example of zeros, and what an independent model of the program seals from zero
//! seeds.

/// So many times a text.
pub type Part = (usize, &'static str);

/// The digits of the zero seed, and the end of their line.
pub const SEED: Part = (128, "0");

const END: Part = (1, "\n");

const INFO: Part = (1, "00ff\n");

const NO_INFO: Part = (1, "\n");

const DONE: Part = (1, "-> done\n\n");

/// The body of an encapsulated key of zeros: its whole lines, and the last one.
const ZERO_LINES: Part = (
    22,
    "AAAAAAAAAAAAAAAAAAAAAAAAAAAAAAAAAAAAAAAAAAAAAAAAAAAAAAAAAAAAAAAA\n",
);

const LAST_ZEROS: Part = (1, "AAAAAAAAAAAAAAAAAAAAAAAAAAAAAAAAAAAAAAAAAAA\n");

/// A mail with an encapsulated key of zeros and no messages: 1490 bytes.
pub const ZERO_MAIL: &[Part] = &[(1, "-> kem\n"), ZERO_LINES, LAST_ZEROS, DONE];

/// A head of zeros without an info: 130 bytes.
pub const ZERO_HEAD: &[Part] = &[SEED, END, NO_INFO];

/// That mail behind this head.
pub const ZERO_INPUT: &[Part] = &[
    SEED,
    END,
    NO_INFO,
    (1, "-> kem\n"),
    ZERO_LINES,
    LAST_ZEROS,
    DONE,
];

/// What stands behind the key in the input of `seal`: an info, the seed of the random source, and three
/// messages.
pub const LETTER: &[Part] = &[INFO, (64, "0"), (1, "\n\n00\n68656c6c6f\n")];

/// The grease that the model sends first.
const GREASE: Part = (1, "-> U#\"n9$ne-grease U]+^\n1XEzsHTYOdUx7R8oUQr7RQ\n");

/// The stanza of its encapsulated key.
const KEM: Part = (
    1,
    "-> kem\ntx52RF57bY9HRSqDfDBcdOlesQDW+cEVoliIUPGIQ4nYAgSDg7aJqWHdFd389V/H\nmxuQfS1nOmMuThkTZi5h0jKSrC7mAdAt+5wC3cOOxmXnnlHk3cbWHfa/lReG0ant\n5kC8QhzxVnYNA4IxaKwkvsbvU/yJIpJ2hVCG8PpBBdkF70NPG2XgSfXtj2bqIAe+\n/EJ1zzzLFgUd2LehrTVd6IJV9B8TKnw5TiAqvaX5DYXMAKncc1Vza/MplEfDaber\n79pJmZFDhDQLXhhCmxzSqn7mRZWL4kOxzdVZqmxPGmzSBWQ11WR51wDguAkHYbe/\n3Bz73TYpXYwh0GV5bhXvMvrAklsJcuyU06/Lmt7U0FiwPyYVcB9xah53d9pirwbE\nQ+R7i46e+QuPkX6o/sLS7argFO01tOAnczHRTNOmrOXvD4SoNFYrPny10GHUaLh0\nAvnd1tuwII3owiOZfMkvBoblYTLwqdiJQ9C+sY/oOXNWomNhlpBXkBUYYy1i4rNC\nTRP9D/HLd1RfUcNGFOhTZbaEo1jzhSnc0oCNLyJ4DC+IovnmtwM3LW7tZEqRAGeY\n2AJ+e70TJaosKCNNflEthCGBWXHWYYsLDMid4vpR//G6R/e4+ZKigD8zqS/G8GvU\n2WywbbtE8ShHL4GtELMRsMWn89R5LWjBCybCiIa8gEYa1s9Z2bARyAaIeTdipU4E\nqsKcMU+HlUsPMO+UpzjRHFbgBL3HGavW0pmosE+p+ENy2KBUiHETeYhhUmn4lJPn\nnH9scWFqDYRTulgkGXwAy3nGDieCjQ7qN6oB2bgjVsyQhViyTiqLgt9t1SewGfoq\nOMnPMA3smmGm+YrtUDwyt17OaaViVFCgDSUBtTJNQI6IjV5u8UI+xR2ml5yMIIKD\nevPkKHQFpBXeYsVFYrVQIweQQ7nr+zZcK6V1Qk47eXuGy8XeDUMZIgQtdBsvb4kI\nC9tNAMuLSu2lI2f+gUNnXR5iPaSSv5S2VJ2OhKrX505Wz3dsersf19A0N6nuJa0T\n+XO3woJ2e1dBtjZ7JvDlZ42JZR+8dmPC3jAFHE6zuPYH4FJlARYnDpwbOTH5kNrU\nOdE/88F5cdJL5Pb0QMsT0MxyKTA38yZpvzcLzfbEi15Ew5NdWyQ2fmuPB9X0cSUW\nnATRnz8n3hylchWb6L69KA0a12xlxsgRXHQe+eM+TIH5qv3LwXtXuRGu7I5iRvpq\nX4DjJ1k+vkxWapYgr+L3rdKJTxt+GMQDjDYqnon2pBX5tbKnfiofVqJKG0drhvXu\nysqknU7TwNWpZV6eMx6dUtmLtoIeE5OvD0FwRPAZ/xQlV3rLhdUKJDRUUvaZjAQc\nfRAvAehkqgZoupBX8I3URStzScymJlk6J3583WVXhvdmJgKzTkbN+1pfl0IPC4Fu\ntycTjdpmADkOcy+KAf6qSk+x9WE0ThMCxEiYhiMS6XA\n",
);

const MESSAGE: Part = (1, "-> msg\n");

/// The bodies of the messages.
const FIRST: Part = (1, "UTvFUJPEL9rF25LUCioF8w\n");

const SECOND: Part = (1, "+VbQZbxqwRQk32c7xyMEVyo\n");

const THIRD: Part = (1, "VdgB39AMUh6SRZHswKf/6xmmv92D\n");

/// The model's mail.
pub const MAIL: &[Part] = &[
    GREASE, KEM, MESSAGE, FIRST, MESSAGE, SECOND, MESSAGE, THIRD, DONE,
];

const ODD: Part = (1, "-> x-grease a b\nAAAA\n");

const ARGUED: Part = (1, "-> msg 1\n");

/// That mail behind a head, with a stanza of another tag in front, and an argument at each message.
pub const MAIL_INPUT: &[Part] = &[
    SEED, END, INFO, ODD, GREASE, KEM, ARGUED, FIRST, ARGUED, SECOND, ARGUED, THIRD, DONE,
];

/// The body of the second message with its first character changed.
const CHANGED: Part = (1, "UVbQZbxqwRQk32c7xyMEVyo\n");

/// The same input with this body.
pub const CHANGED_INPUT: &[Part] = &[
    SEED, END, INFO, ODD, GREASE, KEM, ARGUED, FIRST, ARGUED, CHANGED, ARGUED, THIRD, DONE,
];

/// What a run writes of the messages.
pub const OPENED: &str = "\n00\n68656c6c6f\n";
