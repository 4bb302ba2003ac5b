//! What an instruction sends.

ghost use Rattle.std.specs.Prelude.{◌≡◌};
ghost use Rattle.seq_program.specs.Requests.{form_of, read_form, code_in};
ghost use Rattle.seq_program.specs.RequestViews.{transaction_view};

use crate::instr::{Block, Instr, Register, Width, Written};
use pmbus_table::Command;
use smbus::Form;

/// What is written behind the command.
#[derive(Clone, Copy)]
pub enum Content<'a> {
    Nothing,
    Value(Written),
    Block(&'a Block),
}

/// A transaction but for its address and the words that registers hold (SMBus 3.2, 6.5).
#[derive(Clone, Copy)]
pub struct Transaction<'a> {
    pub form: Form,
    /// None for a Quick Command and a Receive Byte.
    pub command: Option<Command>,
    pub content: Content<'a>,
    /// The register that what is read goes to.
    pub register: Option<Register>,
}

/// A transaction with a target.
#[derive(Clone, Copy)]
pub struct Request<'a> {
    /// Numbered as on the board.
    pub target: usize,
    pub transaction: Transaction<'a>,
    /// The place where it leads if it isn't done.
    pub otherwise: usize,
}

fn form_of(value: Written) -> Form
    ensures { result ≡ form_of value }
{
    match value {
        Written::Byte(_) => Form::WriteByte,
        Written::Word(_) | Written::Register(_) => Form::WriteWord,
    }
}

fn read_form(width: Width) -> Form
    ensures { result ≡ read_form width }
{
    match width {
        Width::Byte => Form::ReadByte,
        Width::Word => Form::ReadWord,
    }
}

impl Transaction<'_> {
    /// The code of its command, 0 where it has none.
    pub fn code(&self) -> u8
        ensures { result ≡ code_in (transaction_view self.now) }
    {
        match self.command {
            Some(command) => command.code(),
            None => 0,
        }
    }
}

impl Instr {
    ghost use Rattle.std.specs.Prelude.{◌≡◌, ◌≢◌, option_map, option_and_then, IfSome, None};
    ghost use Rattle.std.specs.Prelude.{false};
    ghost use Rattle.std.specs.Option.{option_map_or};
    ghost use Rattle.smbus.specs.FormWords.{carries_code};
    ghost use Rattle.smbus.specs.declared.message.Form.TheVariants.{Alert};
    ghost use Rattle.seq_program.specs.Requests.{Request as AnyRequest, Nothing};
    ghost use Rattle.seq_program.specs.Requests.{request_in, target_in, else_in};
    ghost use Rattle.seq_program.specs.RequestViews.{content_view, request_view};

    /// The form of its transaction.
    fn form(&self) -> Option<Form>
        ensures { result
            ≡ option_map (λ (r : AnyRequest). r.transaction.form) (request_in self.now) }
    {
        match self {
            Instr::Quick { read, .. } => Some(Form::Quick(*read)),
            Instr::Send { .. } => Some(Form::SendByte),
            Instr::Receive { .. } => Some(Form::ReceiveByte),
            Instr::Write { value, .. } => Some(form_of(*value)),
            Instr::Read { width, .. } => Some(read_form(*width)),
            Instr::Call { .. } => Some(Form::ProcessCall),
            Instr::BlockWrite { .. } => Some(Form::BlockWrite),
            Instr::BlockRead { .. } => Some(Form::BlockRead),
            Instr::BlockCall { .. } => Some(Form::BlockProcessCall),
            _ => None,
        }
    }

    /// The command of its transaction.
    fn command(&self) -> Option<Command>
        ensures { result
            ≡ option_and_then (λ (r : AnyRequest). r.transaction.command) (request_in self.now) }
    {
        match self {
            Instr::Send { command, .. }
            | Instr::Write { command, .. }
            | Instr::Read { command, .. }
            | Instr::Call { command, .. }
            | Instr::BlockWrite { command, .. }
            | Instr::BlockRead { command, .. }
            | Instr::BlockCall { command, .. } => Some(*command),
            _ => None,
        }
    }

    /// What its transaction writes.
    fn content(&self) -> Content<'_>
        ensures { content_view result ≡ option_map_or (λ (r : AnyRequest). r.transaction.content)
            (request_in self.now) Nothing }
    {
        match self {
            Instr::Write { value, .. } => Content::Value(*value),
            Instr::Call { value, .. } => Content::Value(Written::Word(*value)),
            Instr::BlockWrite { bytes, .. } | Instr::BlockCall { bytes, .. } => {
                Content::Block(bytes)
            }
            _ => Content::Nothing,
        }
    }

    /// The register that what its transaction reads goes to.
    fn register(&self) -> Option<Register>
        ensures { result
            ≡ option_and_then (λ (r : AnyRequest). r.transaction.register) (request_in self.now) }
    {
        match self {
            Instr::Receive { register, .. }
            | Instr::Read { register, .. }
            | Instr::Call { register, .. }
            | Instr::BlockRead { register, .. }
            | Instr::BlockCall { register, .. } => Some(*register),
            _ => None,
        }
    }

    /// The target that it sends to.
    fn target(&self) -> Option<usize>
        ensures { result ≡ target_in self.now }
    {
        match self {
            Instr::Quick { target, .. }
            | Instr::Send { target, .. }
            | Instr::Receive { target, .. }
            | Instr::Write { target, .. }
            | Instr::Read { target, .. }
            | Instr::Call { target, .. }
            | Instr::BlockWrite { target, .. }
            | Instr::BlockRead { target, .. }
            | Instr::BlockCall { target, .. } => Some(*target),
            _ => None,
        }
    }

    /// The place where it leads if its message isn't done; none where it sends no message.
    pub fn otherwise(&self) -> Option<usize>
        ensures { result ≡ else_in self.now }
    {
        match self {
            Instr::Quick { otherwise, .. }
            | Instr::Send { otherwise, .. }
            | Instr::Receive { otherwise, .. }
            | Instr::Write { otherwise, .. }
            | Instr::Read { otherwise, .. }
            | Instr::Call { otherwise, .. }
            | Instr::BlockWrite { otherwise, .. }
            | Instr::BlockRead { otherwise, .. }
            | Instr::BlockCall { otherwise, .. }
            | Instr::Alert { otherwise, .. } => Some(*otherwise),
            _ => None,
        }
    }

    /// What it sends to a target, if it does: to which, in which form, with which command, what is
    /// written, where what is read goes, and where it leads if it isn't done.
    pub fn request(&self) -> Option<Request<'_>>
        ensures value { option_map request_view result ≡ request_in self.now }
        ensures target { IfSome result (λ r. r.transaction.form ≢ Alert) }
        // Where there is no command, the form carries none.
        ensures bare { IfSome result
            (λ r. r.transaction.command ≡ None → carries_code r.transaction.form ≡ false) }
    {
        Some(Request {
            target: self.target()?,
            transaction: Transaction {
                form: self.form()?,
                command: self.command(),
                content: self.content(),
                register: self.register(),
            },
            otherwise: self.otherwise()?,
        })
    }
}
