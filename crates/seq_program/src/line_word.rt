//! The first words of lines, and how many words stand behind them.

ghost use Rattle.std.specs.Prelude.{◌≡◌};
ghost use Rattle.seq_program.specs.Lines.{message_word, jump_word, plain_word};
ghost use Rattle.seq_program.specs.WordCounts.{miscounted, message_count, jump_count};

use crate::fault::{Misfit, ProgramFault};

/// The first word of a line that sends a message.
#[derive(Clone, Copy)]
pub(crate) enum MessageWord {
    Quick,
    Send,
    Receive,
    Write,
    Read,
    Call,
    BlockWrite,
    BlockRead,
    BlockCall,
    Alert,
}

/// The first word of a line that jumps and sends nothing.
#[derive(Clone, Copy)]
pub(crate) enum JumpWord {
    IfAlert,
    If,
    Above,
    Again,
    Goto,
}

/// The first word of another line.
#[derive(Clone, Copy)]
pub(crate) enum PlainWord {
    Set,
    Add,
    Count,
    Wait,
    End,
    Fail,
}

/// The fault of a line that is to have so many words behind its first.
pub(crate) fn miscounted(line: usize, count: usize) -> ProgramFault
    ensures { result ≡ miscounted line count }
{
    ProgramFault::BadOperand(line, Misfit::Count(count))
}

impl MessageWord {
    /// How many words stand behind it.
    pub(crate) fn count(self) -> usize
        ensures { result ≡ message_count self }
    {
        match self {
            MessageWord::Alert => 3,
            MessageWord::Quick | MessageWord::Send | MessageWord::Receive => 4,
            MessageWord::Write
            | MessageWord::Read
            | MessageWord::BlockWrite
            | MessageWord::BlockRead => 5,
            MessageWord::Call | MessageWord::BlockCall => 6,
        }
    }

    /// The fault of a line with another number of them.
    pub(crate) fn miscounted(self, line: usize) -> ProgramFault
        ensures { result ≡ miscounted line (message_count self) }
    {
        miscounted(line, self.count())
    }
}

impl JumpWord {
    /// How many words stand behind it.
    pub(crate) fn count(self) -> usize
        ensures { result ≡ jump_count self }
    {
        match self {
            JumpWord::IfAlert | JumpWord::Goto => 1,
            JumpWord::Again => 2,
            JumpWord::Above => 3,
            JumpWord::If => 4,
        }
    }

    /// The fault of a line with another number of them.
    pub(crate) fn miscounted(self, line: usize) -> ProgramFault
        ensures { result ≡ miscounted line (jump_count self) }
    {
        miscounted(line, self.count())
    }
}

pub(crate) fn message_word(word: &str) -> Option<MessageWord>
    ensures { result ≡ message_word word.now }
{
    Some(match word {
        "quick" => MessageWord::Quick,
        "send" => MessageWord::Send,
        "receive" => MessageWord::Receive,
        "write" => MessageWord::Write,
        "read" => MessageWord::Read,
        "call" => MessageWord::Call,
        "blockwrite" => MessageWord::BlockWrite,
        "blockread" => MessageWord::BlockRead,
        "blockcall" => MessageWord::BlockCall,
        "alert" => MessageWord::Alert,
        _ => return None,
    })
}

pub(crate) fn jump_word(word: &str) -> Option<JumpWord>
    ensures { result ≡ jump_word word.now }
{
    Some(match word {
        "ifalert" => JumpWord::IfAlert,
        "if" => JumpWord::If,
        "above" => JumpWord::Above,
        "again" => JumpWord::Again,
        "goto" => JumpWord::Goto,
        _ => return None,
    })
}

pub(crate) fn plain_word(word: &str) -> Option<PlainWord>
    ensures { result ≡ plain_word word.now }
{
    Some(match word {
        "set" => PlainWord::Set,
        "add" => PlainWord::Add,
        "count" => PlainWord::Count,
        "wait" => PlainWord::Wait,
        "end" => PlainWord::End,
        "fail" => PlainWord::Fail,
        _ => return None,
    })
}
