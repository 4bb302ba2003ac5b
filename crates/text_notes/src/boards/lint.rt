//! What is said of a lint.

use crate::Result;
use board::{Board, Place};
use board_lints::{Lack, Lint};
use pmbus_table::mantissas_in_volt;
use sentences::Figure::{Command, Hex, Number, Voltage};
use sentences::Word::Text;
use sentences::{Advice, Remark, Word, say};
use std::alloc::Global;

const UNPROTECT: &str =
    "the program has to write WRITE_PROTECT before, or the target doesn't start so";

const SELECT: &str = "the program has to write PAGE before, or the target doesn't start so";

const NONE_GOOD: &str = "none of them can ever be turned on, since each waits for another";

const NO_ENTRY: &str =
    "to turn it on, `allow` needs {form = \"writebyte\", command = \"OPERATION\"} with 0x80, or \
     one of 0x94, 0x98, 0xA4 and 0xA8 for a margin, within its `values`";

const NO_VALUE: &str =
    "to turn it on, the `values` of its target's entry for OPERATION need 0x80, or one of 0x94, \
     0x98, 0xA4 and 0xA8 for a margin, within them";

const NO_PAGE: &str =
    "neither `start_pages` nor an entry {form = \"writebyte\", command = \"PAGE\"} has its page, \
     or 255 for all pages";

const LOWER: &str =
    "the lower address wins: an address that is under one of the board's targets', or under 0x0C, \
     the alert response's";

const NO_ONE_WINS: &str = "`foreign` says to which addresses other controllers send";

const NONE_WINS: &str = "`contentions` says how often others may win in a run, and is 0";

const SAFE: &str =
    "set the highest voltage that is safe, in microvolts, or widen the entry's `values` up to it";

/// The table of a board file that a lint is about, and its key.
pub(crate) fn site_of(lint: &Lint) -> (Place, &'static str) {
    match lint {
        Lint::AllPages { target, .. } => (Place::Target(*target), "start_pages"),
        Lint::Protected { target, .. } => (Place::Target(*target), "start_protects"),
        Lint::Circle(rails) => (Place::Rail(rails.first().copied().unwrap_or(0)), "needs"),
        Lint::IdleRail { rail, .. } => (Place::Rail(*rail), "name"),
        Lint::LooseLimit { rail, .. } => (Place::Rail(*rail), "limit_uv"),
        Lint::NoForeign { .. } => (Place::Board, "contentions"),
        Lint::NeverWins { .. } | Lint::NoContentions => (Place::Board, "foreign"),
    }
}

fn of_pages(board: &Board, target: usize, read: u8) -> Advice<'_> {
    let message = say![
        "PAGE of " {Word::target(board, target)}
        " may be 255 at the start, all pages, and the program reads " (Command(read))
        ", which needs one"
    ];
    message.with_text(SELECT)
}

fn of_protect(board: &Board, target: usize, protect: u8, written: u8) -> Advice<'_> {
    let message = say![
        "WRITE_PROTECT of " {Word::target(board, target)} " may be 0x" (Hex(u16::from(protect), 2))
        " at the start, which forbids " (Command(written)) ", and the program writes that"
    ];
    message.with_text(UNPROTECT)
}

/// Needs in a circle, from its first rail to that again.
fn of_circle(alloc: Global, board: &Board, circle: &[usize]) -> Result<Remark> {
    let first = circle.iter().take(1);
    let names: Vec<String> = circle
        .iter()
        .chain(first)
        .map(|rail| format!(in alloc; "\"{}\"", board.rail_name(*rail).unwrap_or("")))
        .try_collect(alloc)?;
    let names = names.join(alloc, " needs ")?;
    say!["needs in a circle: " {Text(&names)}]
        .with_text(NONE_GOOD)
        .told(alloc)
}

/// The target of a rail in a sentence.
fn target_of(board: &Board, rail: usize) -> Word<'_> {
    match board.rail(rail) {
        Some(rail) => Word::target(board, rail.target()),
        None => Word::Nothing,
    }
}

fn of_idle(board: &Board, rail: usize, lacks: Lack) -> Advice<'_> {
    let (target, name) = (target_of(board, rail), Word::rail(board, rail));
    let message = say!["no entry of " {target} " can turn on rail " {name}];
    let help = match lacks {
        Lack::Entry => NO_ENTRY,
        Lack::Value => NO_VALUE,
        Lack::Page => NO_PAGE,
    };
    message.with_text(help)
}

/// A voltage in microvolts, rounded down.
fn microvolts(mantissa: u16, exponent: i8) -> u64 {
    let in_volt = mantissas_in_volt(exponent).unwrap_or(1);
    let scaled = u64::from(mantissa) * 1_000_000;
    scaled.checked_div(in_volt).unwrap_or(0)
}

/// The limit of a rail, and the exponent of its target's voltages.
pub(crate) fn limit_of(board: &Board, rail: usize) -> Option<(u32, i8)> {
    let rail = board.rail(rail)?;
    let device = board.target(rail.target())?;
    Some((rail.limit_uv(), device.exponent()))
}

fn of_limit(board: &Board, rail: usize, greatest: u16) -> Advice<'_> {
    let (limit, exponent) = limit_of(board, rail).unwrap_or((0, 0));
    let message = say![
        "no voltage that " {target_of(board, rail)} " takes is over the limit of rail "
        {Word::rail(board, rail)} ", " (Number(u64::from(limit))) " uV: it takes up to "
        (Voltage(u64::from(greatest), microvolts(greatest, exponent)))
    ];
    message.with_text(SAFE)
}

fn of_address(address: u8) -> Advice<'static> {
    let message = say![
        "another controller's frame to 0x" (Hex(u16::from(address), 2))
        " never wins over one of the program's"
    ];
    message.with_text(LOWER)
}

fn of_contentions(contentions: u16) -> Advice<'static> {
    let message = say![
        "other controllers may win " (Number(u64::from(contentions)))
        " times, and the board has no `foreign`"
    ];
    message.with_text(NO_ONE_WINS)
}

fn of_no_contentions() -> Advice<'static> {
    let message = say!["other controllers share the bus, and none of them may win"];
    message.with_text(NONE_WINS)
}

/// What is said of a lint of a board.
pub(crate) fn remark_of(alloc: Global, board: &Board, lint: &Lint) -> Result<Remark> {
    match lint {
        Lint::AllPages { target, read } => of_pages(board, *target, *read).told(alloc),
        Lint::Protected {
            target,
            protect,
            written,
        } => of_protect(board, *target, *protect, *written).told(alloc),
        Lint::Circle(circle) => of_circle(alloc, board, circle),
        Lint::IdleRail { rail, lacks } => of_idle(board, *rail, *lacks).told(alloc),
        Lint::LooseLimit { rail, greatest } => of_limit(board, *rail, *greatest).told(alloc),
        Lint::NeverWins { address } => of_address(*address).told(alloc),
        Lint::NoForeign { contentions } => of_contentions(*contentions).told(alloc),
        Lint::NoContentions => of_no_contentions().told(alloc),
    }
}
