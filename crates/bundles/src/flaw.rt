//! What is wrong with a line that is no message or no answer.

ghost use Rattle.std.specs.Prelude.{◌≡◌};
ghost use Rattle.bundles.specs.Keys.{key_text, AreMessageKeys, AreAnswerKeys};

use texts::ReadError;

/// The keys of the words KEY=VALUE.
#[derive(Clone, Copy, Debug, PartialEq, Eq)]
pub enum Key {
    Form,
    Address,
    Code,
    Out,
    Holds,
    Refuse,
    Value,
    Bytes,
    Took,
    Alerts,
    Contender,
    ContenderHolds,
}

const MESSAGE_KEYS: [Key; 8] = [
    Key::Form,
    Key::Address,
    Key::Code,
    Key::Out,
    Key::Holds,
    Key::Refuse,
    Key::Value,
    Key::Bytes,
];

const ANSWER_KEYS: [Key; 8] = [
    Key::Holds,
    Key::Refuse,
    Key::Value,
    Key::Bytes,
    Key::Took,
    Key::Alerts,
    Key::Contender,
    Key::ContenderHolds,
];

impl Key {
    /// The key with its `=`, as a word begins.
    pub fn text(self) -> &'static str
        ensures { result.now ≡ key_text self }
    {
        match self {
            Key::Form => "form=",
            Key::Address => "address=",
            Key::Code => "code=",
            Key::Out => "out=",
            Key::Holds => "holds=",
            Key::Refuse => "refuse=",
            Key::Value => "value=",
            Key::Bytes => "bytes=",
            Key::Took => "took=",
            Key::Alerts => "alerts=",
            Key::Contender => "contender=",
            Key::ContenderHolds => "cholds=",
        }
    }

    /// The keys that a message line may have, in their order.
    pub fn of_messages() -> &'static [Key]
        ensures { AreMessageKeys result.now }
    {
        &MESSAGE_KEYS
    }

    /// The keys that an answer line may have, in their order.
    pub fn of_answers() -> &'static [Key]
        ensures { AreAnswerKeys result.now }
    {
        &ANSWER_KEYS
    }
}

/// Why a line is no message, or no answer. A word is told by how many words the line has from it
/// on.
#[derive(Clone, Copy, Debug, PartialEq, Eq)]
pub enum Flaw {
    /// No line says it.
    NoLine,
    /// It is a line too many.
    Second,
    /// The line isn't `start PAGES PROTECTS`, or no seed.
    Whole,
    /// Here the field of this key is missing, or its value can't stand.
    Field(Key, usize),
    /// No field takes this word here.
    Word(usize),
}

impl Flaw {
    /// The flaw as a reader's error.
    pub(crate) fn error(self) -> ReadError<Flaw>
        ensures { result ≡ ReadError.Fault self }
    {
        ReadError::Fault(self)
    }
}
