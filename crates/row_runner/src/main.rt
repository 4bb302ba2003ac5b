//! Runs rows and cases, which come on standard input, and prints those that come out otherwise.
//! `bench/rows` makes that input of the files of `examples`.
#![tactic(auto)]

mod board_file_rows;
mod bundle_rows;
mod case;
mod cells;
mod check_rows;
mod command_rows;
mod fact_rows;
mod frame_rows;
mod item;
mod layers;
mod lint_rows;
mod named_texts;
mod note_rows;
mod plan_rows;
mod program_rows;
mod report;
mod row;
mod row_file;
mod run;
mod step_cells;
mod table_rows;
mod target_rows;
mod text_rows;

use report::Report;
use run::run_items;
use std::alloc::Global;
use std::io::{Read, Write};
use std::process::ExitCode;

/// Runs all that a reader gives.
fn run_input<R: Read>(alloc: Global, reader: &mut R) -> Option<Report> {
    let mut input = Vec::new(alloc);
    let _count = reader.read_to_end(&mut input).ok()?;
    run_items(alloc, &input).ok()
}

fn main(rt: HostRuntime) -> ExitCode {
    let Some(report) = run_input(rt.alloc(), &mut rt.stdin()) else {
        let _told = eprintln!(rt; "rows: the input couldn't be read, or memory ran out");
        return ExitCode::from(3);
    };
    let written = rt.stdout().write_all(report.text.as_bytes());
    let counted = println!(rt; "{} passed, {} failed", report.passed, report.failed);
    let all_right = report.failed == 0 && report.passed > 0 && written.is_ok() && counted.is_ok();
    ExitCode::from(if all_right { 0 } else { 1 })
}
