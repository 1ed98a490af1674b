//! The commands and the words that spell them.

ghost use Rattle.std.specs.Prelude.{◌≡◌, ◌↔◌, ◌≤◌, ◌<◌, ◌^◌, ℕ, List, [], ◌∷◌, map, codes, decimal, IfNone, IfSome, IsTrue};
ghost use Rattle.std.specs.String.{string_bytes};
ghost use Rattle.mail_commands.specs.Command.{Spells, set_word, kdf_word, aead_word, greatest_budget};

use itoa::Buffer;

// The most bytes of a mail that a command may ask to be read.
const GREATEST_BUDGET: u64 = 16_777_216;

// The most messages that a command may ask to be made.
const GREATEST_COUNT: u64 = 2000;

/// A parameter set of the lattice KEM.
#[derive(Clone, Copy, Debug, PartialEq, Eq)]
pub enum SetName {
    Set512,
    Set768,
    Set1024,
}

/// A KDF: HKDF over a hash function.
#[derive(Clone, Copy, Debug, PartialEq, Eq)]
pub enum KdfName {
    Sha256,
    Sha384,
    Sha512,
}

/// An AEAD: AES-GCM with keys of a size.
#[derive(Clone, Copy, Debug, PartialEq, Eq)]
pub enum AeadName {
    Aes128,
    Aes256,
}

/// The algorithms of a mail.
#[derive(Clone, Copy, Debug, PartialEq, Eq)]
pub struct SuiteName {
    pub set: SetName,
    pub kdf: KdfName,
    pub aead: AeadName,
}

/// A command.
#[derive(Clone, Copy, Debug, PartialEq, Eq)]
pub enum Command {
    /// Opens a mail of a suite, of which so many bytes are read at most.
    Open(SuiteName, u64),
    /// Writes the encapsulation key of a seed.
    Key(SetName),
    /// Seals a mail of a suite.
    Seal(SuiteName),
    /// Makes a mail of so many messages, and opens it.
    Gen(u64),
}

// The parameter set of a word.
fn set_named(word: &str) -> Option<SetName>
    ensures found { IfSome result (λ set. word.now ≡ set_word set) }
    ensures none { IfNone result ((set : SetName) → word.now ≡ set_word set → ⊥) }
{
    match word {
        "512" => Some(SetName::Set512),
        "768" => Some(SetName::Set768),
        "1024" => Some(SetName::Set1024),
        _ => None,
    }
}

// The KDF of a word.
fn kdf_named(word: &str) -> Option<KdfName>
    ensures found { IfSome result (λ kdf. word.now ≡ kdf_word kdf) }
    ensures none { IfNone result ((kdf : KdfName) → word.now ≡ kdf_word kdf → ⊥) }
{
    match word {
        "sha256" => Some(KdfName::Sha256),
        "sha384" => Some(KdfName::Sha384),
        "sha512" => Some(KdfName::Sha512),
        _ => None,
    }
}

// The AEAD of a word.
fn aead_named(word: &str) -> Option<AeadName>
    ensures found { IfSome result (λ aead. word.now ≡ aead_word aead) }
    ensures none { IfNone result ((aead : AeadName) → word.now ≡ aead_word aead → ⊥) }
{
    match word {
        "aes128" => Some(AeadName::Aes128),
        "aes256" => Some(AeadName::Aes256),
        _ => None,
    }
}

// The number in a range that a word spells: in decimal, without a leading zero.
fn number_between(word: &str, least: u64, greatest: u64) -> Option<u64>
    requires { greatest < 2 ^ 32 }
    ensures found { IfSome result (λ n. (word.now ≡ decimal n) × (least ≤ n) × (n ≤ greatest)) }
    ensures none { IfNone result ((n : ℕ) → word.now ≡ decimal n → least ≤ n → n ≤ greatest → ⊥) }
{
    let Ok(number) = word.parse::<u64>() else {
        return None;
    };
    if number < least || number > greatest {
        return None;
    }
    // A sign and leading zeros are parsed too, but not written again.
    let mut buffer = Buffer::new();
    if buffer.format(number) == word {
        Some(number)
    } else {
        None
    }
}

// The command that makes a mail, with this word behind its own.
fn gen_command(count: &str) -> Option<Command>
    ensures found { IfSome result (λ command. Spells (codes "gen" ∷ count.now ∷ []) command) }
    ensures none { IfNone result ((command : Command) → Spells (codes "gen" ∷ count.now ∷ []) command → ⊥) }
{
    let count = number_between(count, 0, GREATEST_COUNT)?;
    Some(Command::Gen(count))
}

// The command that makes a key, with this word behind its own.
fn key_command(set: &str) -> Option<Command>
    ensures found { IfSome result (λ command. Spells (codes "key" ∷ set.now ∷ []) command) }
    ensures none { IfNone result ((command : Command) → Spells (codes "key" ∷ set.now ∷ []) command → ⊥) }
{
    let set = set_named(set)?;
    Some(Command::Key(set))
}

// The suite of a set, a KDF and an AEAD.
fn suite_named(set: &str, kdf: &str, aead: &str) -> Option<SuiteName>
    ensures found { IfSome result (λ suite. (set.now ≡ set_word suite.set) × (kdf.now ≡ kdf_word suite.kdf) × (aead.now ≡ aead_word suite.aead)) }
    ensures none { IfNone result ((suite : SuiteName) → set.now ≡ set_word suite.set → kdf.now ≡ kdf_word suite.kdf → aead.now ≡ aead_word suite.aead → ⊥) }
{
    let set = set_named(set)?;
    let kdf = kdf_named(kdf)?;
    let aead = aead_named(aead)?;
    Some(SuiteName { set, kdf, aead })
}

// The command that seals a mail, with these words behind its own.
fn seal_command(set: &str, kdf: &str, aead: &str) -> Option<Command>
    ensures found { IfSome result (λ command. Spells (codes "seal" ∷ set.now ∷ kdf.now ∷ aead.now ∷ []) command) }
    ensures none { IfNone result ((command : Command) → Spells (codes "seal" ∷ set.now ∷ kdf.now ∷ aead.now ∷ []) command → ⊥) }
{
    let suite = suite_named(set, kdf, aead)?;
    Some(Command::Seal(suite))
}

// The command that opens a mail, with these words behind its own.
fn open_command(set: &str, kdf: &str, aead: &str, budget: &str) -> Option<Command>
    ensures found { IfSome result (λ command. Spells (codes "open" ∷ set.now ∷ kdf.now ∷ aead.now ∷ budget.now ∷ []) command) }
    ensures none { IfNone result ((command : Command)
        → Spells (codes "open" ∷ set.now ∷ kdf.now ∷ aead.now ∷ budget.now ∷ []) command → ⊥) }
{
    let suite = suite_named(set, kdf, aead)?;
    let budget = number_between(budget, 1, GREATEST_BUDGET)?;
    Some(Command::Open(suite, budget))
}

/// The command that words spell.
pub fn command_of(words: &[String]) -> Option<Command>
    ensures found { IfSome result (λ command. Spells (map string_bytes words.now) command) }
    ensures none { IfNone result ((command : Command) → Spells (map string_bytes words.now) command → ⊥) }
{
    match words {
        [name, set] if name.as_str() == "key" => key_command(set.as_str()),
        [name, count] if name.as_str() == "gen" => gen_command(count.as_str()),
        [name, set, kdf, aead] if name.as_str() == "seal" => {
            seal_command(set.as_str(), kdf.as_str(), aead.as_str())
        }
        [name, set, kdf, aead, budget] if name.as_str() == "open" => open_command(
            set.as_str(),
            kdf.as_str(),
            aead.as_str(),
            budget.as_str(),
        ),
        _ => None,
    }
}
