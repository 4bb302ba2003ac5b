//! Warnings of accepted programs.

ghost use Rattle.std.specs.Prelude.{◌≡◌, codes, option_copied, slice_get, unwrap_or};
ghost use Rattle.std.specs.Prelude.{IfOk, IsSomeAnd, MatchOption, None};
ghost use Rattle.diagnostics.specs.ProgramWarnings.{AreToldOf, WarnsOfJudgement, warned_number};
ghost use Rattle.notes.specs.Notes.{IsQuoting};
ghost use Rattle.session.specs.Parts.{sections_view};
ghost use Rattle.table_check.specs.Tables.{table_view};
ghost use Rattle.texts.specs.Words.{lines_by_feed};

use crate::Result;
use crate::input::program_text;
use crate::warning::allowed::is_allowed;
use crate::warning::program_lint::lint_remark;
use board::Board;
use bundles::Section;
use notes::{Level, LineFinder, Note};
use program_lints::{ProgramLint, program_lints};
use sentences::note_on;
use seq_program::{Program, place_lines};
use session::Judged;
use std::alloc::Global;
use table_check::Judgement;

/// The warning of a lint on this line, if no comment there allows it.
fn lint_warning(
    alloc: Global,
    board: &Board,
    program: &Program,
    number: usize,
    line: Option<&str>,
    lint: &ProgramLint,
) -> Result<Option<Note>>
    ensures { IfOk result (λ note. MatchOption
        (warned_number number (option_copied line.entry) lint.now) (note ≡ None)
        (λ n. IsSomeAnd note
        (IsQuoting Level.Warning (codes "%program") n (option_copied line.entry)))) }
{
    if is_allowed(alloc, line.unwrap_or(""), lint.name())? {
        return Ok(None);
    }
    let remark = lint_remark(alloc, board, program, lint)?;
    Ok(Some(note_on(alloc, Level::Warning, "%program", number, line, remark)?))
}

/// The number of a place's line, or 1 where that isn't known.
fn number_of(numbers: &[usize], place: usize) -> usize
    ensures { result ≡ unwrap_or (slice_get numbers.now place) 1 }
{
    numbers.get(place).copied().unwrap_or(1)
}

/// The warnings of lints, each on the line of its place, where no comment allows it.
fn lint_warnings(
    alloc: Global,
    board: &Board,
    program: &Program,
    text: &str,
    lints: &[ProgramLint],
) -> Result<Vec<Note>>
    ensures { IfOk result (λ warnings.
        AreToldOf (lines_by_feed text.now) lints.now warnings.items) }
{
    let numbers = place_lines(alloc, text)?;
    let mut lines = LineFinder::of(text);
    let mut warnings = Vec::new(alloc);
    for lint in lints {
        let number = number_of(&numbers, lint.place());
        let line = lines.line_at(number);
        if let Some(note) = lint_warning(alloc, board, program, number, line, lint)? {
            warnings.push(note)?;
        }
    }
    Ok(warnings)
}

/// What is warned of a program with a judged table: of one that is accepted.
pub(crate) fn program_warnings(
    alloc: Global,
    sections: &[Section<'_>],
    board: &Board,
    program: &Program,
    judged: &Judged,
) -> Result<Vec<Note>>
    ensures { IfOk result (λ warnings. WarnsOfJudgement (sections_view sections.now) board.now
        program.now (table_view judged.now.table) judged.now.judgement warnings.items) }
{
    let Judgement::Accepted { .. } = judged.judgement else {
        return Ok(Vec::new(alloc));
    };
    let lints = program_lints(alloc, board, program, &judged.table)?;
    let text = program_text(alloc, sections)?;
    lint_warnings(alloc, board, program, &text, &lints)
}
