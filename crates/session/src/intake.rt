ghost use Rattle.std.specs.Prelude.{◌≡◌, ◌++◌, List, ℕ, IfOk, OnOk, IfSome, vec_len, ◌<◌, length};
ghost use Rattle.std.specs.Prelude.{option_copied, MatchResult, Ok, Err};
ghost use Rattle.std.specs.Io.KnownBytes.{IsAtEnd};
ghost use Rattle.std.specs.Str.{is_utf8};
ghost use Rattle.session.specs.declared.intake.ReadFault.TheVariants.{Memory};
ghost use Rattle.session.specs.Intake.{IsFrontOf, IsKeptOfAll};
ghost use Rattle.session.specs.Sessions.{text_if, kept_text};

use bundles::BundleFault;
use std::alloc::{AllocError, Global};
use std::io::Read;

/// The most bytes that are kept.
const KEPT_LIMIT: usize = 16_777_216;

/// The most calls of `read`.
const READ_CALLS: u32 = 1_048_576;

/// The most bytes of one call.
const PIECE_SIZE: usize = 65_536;

/// Why a reader wasn't read to its end.
#[derive(Clone, Copy, Debug, PartialEq, Eq)]
pub enum ReadFault {
    Memory,
    Reader,
}

impl From<AllocError> for ReadFault {
    ghost from_gives = { λ _ e. e ≡ Memory };

    fn from(_e: AllocError) -> ReadFault {
        ReadFault::Memory
    }
}

/// What is kept of an input: its bytes up to 16 MiB, and whether there were more.
#[derive(Debug, Drop)]
pub struct Input {
    pub bytes: Vec<u8>,
    pub too_large: bool,
}

/// The bytes as a text, if they are UTF-8.
fn utf8_of(bytes: &[u8]) -> Option<&str>
    ensures { option_copied result ≡ text_if (is_utf8 bytes.now) bytes.now }
{
    match str::from_utf8(bytes) {
        Ok(text) => Some(text),
        Err(_) => None,
    }
}

/// The text of an input, or why it has none: it is over 16 MiB, empty, or not UTF-8.
#[tactic(auto, unfolding(crate::specs::Sessions::kept_text))]
pub fn text_of(input: &Input) -> Result<&str, BundleFault>
    ensures { MatchResult result
        (λ text. kept_text input.now.bytes.items input.now.too_large ≡ Ok text.now)
        (λ fault. kept_text input.now.bytes.items input.now.too_large ≡ Err fault) }
{
    if input.too_large {
        return Err(BundleFault::TooLarge);
    }
    if input.bytes.is_empty() {
        return Err(BundleFault::NoCommand);
    }
    match utf8_of(&input.bytes) {
        Some(text) => Ok(text),
        None => Err(BundleFault::NotText),
    }
}

/// Takes one more piece of the bytes. Of those past the limit only the fact is kept.
fn keep(input: &mut Input, piece: &[u8]) -> Result<(), AllocError>
    ensures { OnOk result ((all : List ℕ) → IsFrontOf input.old.bytes.items input.old.too_large all
        → IsFrontOf input.new.bytes.items input.new.too_large (all ++ piece.now)) }
{
    let room = KEPT_LIMIT.saturating_sub(input.bytes.len());
    let count = piece.len().min(room);
    input.bytes.extend_from_slice(&piece[..count])?;
    if count < piece.len() {
        input.too_large = true;
    }
    Ok(())
}

/// Reads to the end of a reader, with room for the bytes of one call.
fn gather<R: Read>(alloc: Global, reader: &mut R, buffer: &mut [u8]) -> Result<Input, ReadFault>
    requires { 0 < length buffer.old }
    ensures kept { IfOk result (λ input. IfSome (R.remaining reader.old)
        (IsFrontOf input.bytes.items input.too_large)) }
    ensures ended { OnOk result (IsAtEnd (R.remaining reader.new)) }
    // It is the front of what the reader gave, be that known before or not.
    ensures all { IfOk result
        (λ input. IsKeptOfAll (R.remaining reader.old) (R.remaining reader.new)
        input.bytes.items input.too_large) }
{
    let mut input = Input {
        bytes: Vec::new(alloc),
        too_large: false,
    };
    for _ in 0..READ_CALLS {
        match reader.read(buffer) {
            Ok(0) => return Ok(input),
            Ok(count) => keep(&mut input, &buffer[..count])?,
            Err(_) => return Err(ReadFault::Reader),
        }
    }
    Err(ReadFault::Reader)
}

/// A buffer for one call.
fn empty_buffer(alloc: Global) -> Result<Vec<u8>, AllocError>
    ensures { IfOk result (λ buffer. vec_len buffer ≡ PIECE_SIZE) }
{
    vec![in alloc; 0u8; PIECE_SIZE]
}

/// Reads to the end of a reader.
pub fn read_input<R: Read>(alloc: Global, reader: &mut R) -> Result<Input, ReadFault>
    ensures kept { IfOk result (λ input. IfSome (R.remaining reader.old)
        (IsFrontOf input.bytes.items input.too_large)) }
    ensures ended { OnOk result (IsAtEnd (R.remaining reader.new)) }
    // It is the front of what the reader gave, be that known before or not.
    ensures all { IfOk result
        (λ input. IsKeptOfAll (R.remaining reader.old) (R.remaining reader.new)
        input.bytes.items input.too_large) }
{
    let mut buffer = empty_buffer(alloc)?;
    gather(alloc, reader, &mut buffer)
}
