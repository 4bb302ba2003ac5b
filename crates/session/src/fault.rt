ghost use Rattle.std.specs.Prelude.{◌≡◌, IfOk, string_bytes};
ghost use Rattle.session.specs.Faults.{detail_of, counted_text, fault_text, line_text};

use board::BoardFault;
use bundles::BundleFault;
use seq_program::ProgramFault;
use simulator::RunFault;
use smbus::SmbusFault;
use std::alloc::{AllocError, Global};
use table_check::TableFault;
use texts::ReadError;
use thiserror::Error;

/// What is wrong with an input: the first fault of a bundle, or of what its sections hold.
#[derive(Clone, Copy, Debug, PartialEq, Eq, Error)]
pub enum InputFault {
    #[error("{0}")]
    Bundle(BundleFault),
    #[error("{0}")]
    Frame(SmbusFault),
    #[error("{0}")]
    Board(BoardFault),
    #[error("{0}")]
    Program(ProgramFault),
    #[error("{0}")]
    Run(RunFault),
    #[error("{0}")]
    Table(TableFault),
}

/// What stands behind the name of a fault: its line, or the header that is missing.
fn detail_of(alloc: Global, fault: BundleFault) -> Result<String, AllocError>
    ensures { IfOk result (λ text. string_bytes text ≡ detail_of fault) }
{
    match fault {
        BundleFault::Unexpected(line)
        | BundleFault::BadMessage(line, _)
        | BundleFault::BadAnswer(line, _)
        | BundleFault::BadSeed(line, _) => { format!(in alloc; " {line}") }
        BundleFault::MissingSection(header) => {
            let text = header.text();
            format!(in alloc; " {text}")
        }
        _ => Ok(String::new(alloc)),
    }
}

/// The line or the index of a fault, where it has one.
fn counted_text(alloc: Global, number: Option<usize>) -> Result<String, AllocError>
    ensures { IfOk result (λ text. string_bytes text ≡ counted_text number) }
{
    match number {
        Some(number) => { format!(in alloc; " {number}") }
        None => Ok(String::new(alloc)),
    }
}

/// The line of a fault with this number and name in a part of an input.
fn line_of(
    alloc: Global,
    place: &str,
    number: u8,
    name: &str,
    detail: &str,
) -> Result<String, AllocError>
    ensures { IfOk result
        (λ text. string_bytes text ≡ line_text place.now number name.now detail.now) }
{
    format!(in alloc; "fault {place} {number} {name}{detail}\n")
}

/// The line that is printed for a fault.
pub fn fault_line(alloc: Global, fault: InputFault) -> Result<String, AllocError>
    ensures { IfOk result (λ text. string_bytes text ≡ fault_text fault) }
{
    match fault {
        InputFault::Bundle(fault) => {
            let detail = detail_of(alloc, fault)?;
            line_of(alloc, "bundle", fault.number(), fault.name(), &detail)
        }
        InputFault::Frame(fault) => line_of(alloc, "frame", fault.number(), fault.name(), ""),
        InputFault::Board(fault) => line_of(alloc, "board", fault.number(), fault.name(), ""),
        InputFault::Program(fault) => {
            let line = counted_text(alloc, fault.line())?;
            line_of(alloc, "program", fault.number(), fault.name(), &line)
        }
        InputFault::Run(fault) => {
            let index = counted_text(alloc, fault.index())?;
            line_of(alloc, "run", fault.number(), fault.name(), &index)
        }
        InputFault::Table(fault) => {
            let line = counted_text(alloc, fault.line())?;
            line_of(alloc, "table", fault.number(), fault.name(), &line)
        }
    }
}
