//! Tables, from their texts.

ghost use Rattle.std.specs.Prelude.{◌≡◌, map, IfOk, IfErr};
ghost use Rattle.texts.specs.Words.{lines_by_feed};
ghost use Rattle.table_check.specs.text.Faults.{Gives};
ghost use Rattle.table_check.specs.Tables.{table_view};
ghost use Rattle.table_check.specs.text.Texts.{IsTextOf, FindsTable, CarriesFirst};
ghost use Rattle.table_check.specs.text.Passes.{pass_view, after_lines, no_pass, parted};
ghost use Rattle.table_check.specs.text.Passes.{version_of, first_number, table_in};

use crate::table::Table;
use crate::text::fault::TableFault;
use crate::text::pass::RowsSoFar;
use crate::text::shape::is_board;
use crate::text::version::Version;
use board::Board;
use std::alloc::{AllocError, Global};
use texts::{cut_at_space, first_by_feed, numbers_are_spelled, numbers_read_back};

/// Takes the words of a line, between single spaces, in place of those before.
fn take_words<'a>(words: &mut Vec<&'a str>, line: &'a str) -> Result<(), AllocError>
    ensures { IfOk result (λ _. map (λ w. w.now) words.new.items ≡ parted line.now) }
{
    words.clear();
    let mut rest = line;
    while let Some((word, behind)) = cut_at_space(rest) {
        words.push(word)?;
        rest = behind;
    }
    words.push(rest)?;
    Ok(())
}

/// The first line of a text of the second form.
const VERSION_LINE: &str = "version 2";

/// The form of a text, and what stands below the line that says it.
fn version_of(text: &str) -> (Version, &str)
    ensures version { result.0 ≡ (version_of (lines_by_feed text.now)).0 }
    ensures below { lines_by_feed result.1.now ≡ (version_of (lines_by_feed text.now)).1 }
{
    match first_by_feed(text) {
        Some((line, below)) if line == VERSION_LINE => (Version::Second, below),
        _ => (Version::First, text),
    }
}

/// The number of the first line that says something of a place.
fn first_number(version: Version) -> usize
    ensures { result ≡ first_number version }
{
    match version {
        Version::First => 1,
        Version::Second => 2,
    }
}

/// All lines that say something of places.
#[tactic(auto, unfolding(crate::specs::text::Passes::after_line))]
fn pass_of(
    alloc: Global,
    board: &Board,
    version: Version,
    text: &str,
) -> Result<RowsSoFar, TableFault>
    ensures { Gives pass_view result
        (after_lines board.now (first_number version) (no_pass version)
        (lines_by_feed text.now)) }
{
    let mut pass = RowsSoFar::new(alloc, version);
    let mut words = Vec::new(alloc);
    let mut number = first_number(version);
    let mut rest = text;
    while let Some((line, below)) = first_by_feed(rest) {
        take_words(&mut words, line)?;
        pass.add_line(alloc, board, number, &words)?;
        number += 1;
        rest = below;
    }
    Ok(pass)
}

#[tactic(auto, unfolding(crate::specs::text::Passes::table_in))]
fn table_in(alloc: Global, board: &Board, text: &str) -> Result<Table, TableFault>
    ensures { Gives table_view result (table_in board.now (lines_by_feed text.now)) }
{
    let (version, places) = version_of(text);
    let pass = pass_of(alloc, board, version, places)?;
    pass.whole(text)
}

/// The table of a text for a board: the one whose lines the text has, if there is one.
///
/// A table's lines say for each place of a program, in order, what is known there. Where the text
/// is that of no table, `BadLine` carries the first line with which no table's lines go on so,
/// counted from 1, or the number after the last line's where the text ends too early. `Memory` is
/// answered where a growth was refused.
pub fn read_table(alloc: Global, board: &Board, text: &str) -> Result<Table, TableFault>
    ensures ok { IfOk result (λ t. IsTextOf board.now (table_view t) text.now) }
    ensures all { FindsTable board.now (lines_by_feed text.now) result }
    ensures bad { IfErr result (λ e. CarriesFirst board.now (lines_by_feed text.now) e) }
{
    is_board(board);
    numbers_read_back();
    numbers_are_spelled();
    table_in(alloc, board, text)
}
