//! Which layer's rows are meant.

use crate::row::{Flaw, Outcome, Row};
use crate::{
    board_file_rows, bundle_rows, check_rows, command_rows, fact_rows, frame_rows, lint_rows,
    note_rows, plan_rows, program_rows, target_rows, text_rows,
};
use std::alloc::Global;

/// What a row of a layer and a kind comes out as.
pub(crate) fn outcome(alloc: Global, (layer, kind): (&str, &str), row: &Row) -> Outcome {
    match layer {
        "texts" => text_rows::outcome(alloc, kind, row),
        "wires" | "bit_bus" | "smbus" => frame_rows::outcome(alloc, kind, row),
        "pmbus_table" => command_rows::outcome(alloc, kind, row),
        "board" | "board_lints" => board_file_rows::outcome(alloc, kind, row),
        "targets" => target_rows::outcome(alloc, kind, row),
        "seq_program" => program_rows::outcome(alloc, kind, row),
        "plans" | "drafts" => plan_rows::outcome(alloc, kind, row),
        "bundles" => bundle_rows::outcome(alloc, kind, row),
        "facts" => fact_rows::outcome(alloc, kind, row),
        "table_check" => check_rows::outcome(alloc, kind, row),
        "program_lints" => lint_rows::outcome(alloc, kind, row),
        "text_notes" | "diagnostics" => note_rows::outcome(alloc, kind, row),
        _ => Err(Flaw::Kind.error()),
    }
}
