//! Where on a way that came in what a rule forbids at its end.

use crate::Result;
use crate::facts_here::has_rail;
use crate::kept::may_keep;
use crate::roads::Judged;
use crate::widened::written_register;
use board::{Board, Rail};
use facts::{PageSet, Row, Violation, violation};
use notes::Quoted;
use pmbus_table::code::{ALL_PAGES, STATUS_WORD};
use sentences::Figure::{Count, Hex};
use sentences::Word::Pages;
use sentences::{Kept, Word, say};
use seq_program::Instr;
use smbus::Form;
use std::alloc::Global;
use ways::Step;

/// What is to blame in what is known at a place.
#[derive(Clone, Copy)]
enum Blamed {
    /// A target may keep this value.
    Kept(Kept, usize, u8),
    /// A register may be as great as this.
    Value(usize, u16),
    /// A rail isn't known to be good.
    NotGood(usize),
}

impl Blamed {
    /// Whether it is so where this is known.
    fn is_in(self, row: &Row) -> bool {
        match self {
            Blamed::Kept(kept, target, value) => may_keep(row, kept, target, value),
            Blamed::Value(register, value) => {
                row.regs.get(register).is_some_and(|span| span.hi >= value)
            }
            Blamed::NotGood(rail) => !has_rail(row.good, rail),
        }
    }
}

/// The last step of a way before which it wasn't so: its instruction brings it in. None where it is
/// so from the start.
fn brought_in(way: &[Step], blamed: Blamed) -> Option<&Step> {
    way.iter().rev().find(|step| !blamed.is_in(&step.row))
}

/// A way to a place where a rule fails.
#[derive(Clone, Copy)]
pub(crate) struct BadWay<'a> {
    pub judged: Judged<'a>,
    pub way: &'a [Step],
}

impl<'a> BadWay<'a> {
    /// From where on it is so.
    fn since(self, alloc: Global, blamed: Blamed) -> Result<String> {
        match brought_in(self.way, blamed) {
            Some(step) => {
                let line = self.judged.line(step.place);
                format!(in alloc; "since line {line}")
            }
            None => String::from_str(alloc, "since the start"),
        }
    }

    /// From where on a target may keep a value.
    fn kept_text(self, alloc: Global, kept: Kept, target: usize, value: u8) -> Result<String> {
        let name = Quoted(self.judged.board.target_name(target).unwrap_or(""));
        let since = self.since(alloc, Blamed::Kept(kept, target, value))?;
        let command = kept.command();
        format!(in alloc; "{command} of {name} may be {value:02X} {since}")
    }

    /// From where on a register may be as great as a value.
    fn value_text(self, alloc: Global, register: usize, most: u16) -> Result<String> {
        let since = self.since(alloc, Blamed::Value(register, most))?;
        format!(in alloc; "r{register} may be {most} {since}")
    }

    /// The last step whose instruction reads STATUS_WORD of a target.
    fn last_report(self, target: usize) -> Option<&'a Step> {
        let program = self.judged.program;
        self.way.iter().rev().find(|step| {
            program
                .at(step.place)
                .is_some_and(|instr| reads_status(instr, target))
        })
    }

    /// What a report was read at, of a rail that it doesn't show good.
    fn report_text(self, alloc: Global, step: &'a Step, need: &Rail) -> Result<String> {
        let line = Count(self.judged.line(step.place));
        let report = match step.row.pages.get(need.target()) {
            Some(pages) if !is_only(pages, need.page()) => say![
                "line " (line) " reads STATUS_WORD of "
                {Word::target(self.judged.board, need.target())} " where PAGE may be "
                {Pages(pages)} ", and this rail is page " (Hex(u16::from(need.page()), 2))
            ],
            _ => say![
                "line " (line) " reads its STATUS_WORD, and no test of that word on this way shows \
                 it good"
            ],
        };
        report.told(alloc)
    }

    /// How a rail loses at a step's place that it is known to be good.
    fn loss_at(self, step: &Step, rail: &Rail) -> &'static str {
        match self.judged.program.at(step.place) {
            Some(instr) if reads_status(instr, rail.target()) => "reads its STATUS_WORD anew",
            Some(_) => "may turn it off",
            None => "may end that",
        }
    }

    /// Why a rail isn't known to be good.
    fn need_text(self, alloc: Global, rail: usize, need: &Rail) -> Result<String> {
        let board = self.judged.board;
        let name = Quoted(board.rail_name(rail).unwrap_or(""));
        if let Some(step) = brought_in(self.way, Blamed::NotGood(rail)) {
            let (line, loss) = (self.judged.line(step.place), self.loss_at(step, need));
            return format!(in alloc; "{name} was known to be good up to line {line}, which {loss}");
        }
        if let Some(step) = self.last_report(need.target()) {
            let report = self.report_text(alloc, step, need)?;
            return format!(in alloc; "{name} was never known to be good: {report}");
        }
        let target = Quoted(board.target_name(need.target()).unwrap_or(""));
        format!(in alloc;
            "{name} was never known to be good: no line of this way reads STATUS_WORD of {target}"
        )
    }

    /// The register that a voltage comes from, and from where on it may be so great, or from where
    /// on PAGE may select the rail.
    fn voltage_text(
        self,
        alloc: Global,
        row: &Row,
        instr: &Instr,
        rail: usize,
        most: u16,
    ) -> Result<Option<String>> {
        if let Some(register) = written_register(instr) {
            return Ok(Some(self.value_text(alloc, register, most)?));
        }
        match self.judged.board.rail(rail) {
            Some(rail) if has_pages(self.judged.board, rail.target()) => {
                let page = selecting(row, rail);
                Ok(Some(self.kept_text(alloc, Kept::Page, rail.target(), page)?))
            }
            _ => Ok(None),
        }
    }

    /// Where what breaks a rule came in, by what is known at the end of the way.
    fn origin_of(
        self,
        alloc: Global,
        row: &Row,
        instr: &Instr,
        violation: Violation,
    ) -> Result<Option<String>> {
        let Some(target) = target_of(instr) else {
            return Ok(None);
        };
        match violation {
            Violation::AllPages => {
                Ok(Some(self.kept_text(alloc, Kept::Page, target, ALL_PAGES)?))
            }
            Violation::Protected(value) => {
                Ok(Some(self.kept_text(alloc, Kept::Protect, target, value)?))
            }
            Violation::OverLimit { rail, most } => {
                self.voltage_text(alloc, row, instr, rail, most)
            }
            Violation::NotGood { need, .. } => match self.judged.board.rail(need) {
                Some(rail) => Ok(Some(self.need_text(alloc, need, rail)?)),
                None => Ok(None),
            },
            _ => Ok(None),
        }
    }

    /// Where on the way that came in what breaks a rule at its end: the protection, the value or
    /// the page, or where it was lost that a rail is good, or why that was never known.
    pub(crate) fn origin(self, alloc: Global) -> Result<Option<String>> {
        let Some(last) = self.way.last() else {
            return Ok(None);
        };
        let Some(instr) = self.judged.program.at(last.place) else {
            return Ok(None);
        };
        match violation(self.judged.board, instr, &last.row) {
            Some(violation) => self.origin_of(alloc, &last.row, instr, violation),
            None => Ok(None),
        }
    }
}

/// The target that an instruction sends to.
fn target_of(instr: &Instr) -> Option<usize> {
    match instr.request() {
        Some(request) => Some(request.target),
        None => None,
    }
}

/// Whether an instruction reads STATUS_WORD of a target (PMBus 1.3 Part II, 17.2).
fn reads_status(instr: &Instr, target: usize) -> bool {
    match instr.request() {
        Some(request) => {
            let transaction = request.transaction;
            request.target == target
                && transaction.form == Form::ReadWord
                && transaction.code() == STATUS_WORD
        }
        None => false,
    }
}

/// Whether a target has more than one page.
fn has_pages(board: &Board, target: usize) -> bool {
    board
        .target(target)
        .is_some_and(|target| target.pages() > 1)
}

/// The value of PAGE that selects a rail where this is known.
fn selecting(row: &Row, rail: &Rail) -> u8 {
    match row.pages.get(rail.target()) {
        Some(pages) if !pages.contains(rail.page()) => ALL_PAGES,
        _ => rail.page(),
    }
}

/// Whether a set has this page and no other.
fn is_only(pages: &PageSet, page: u8) -> bool {
    (0..=u8::MAX).all(|other| pages.contains(other) == (other == page))
}
