//! Which rails may be on, and which had a voltage written to them.

ghost use Rattle.std.specs.Prelude.{◌≡◌, IfOk};
ghost use Rattle.facts.specs.domain.Sets.{rails_in};
ghost use Rattle.table_check.specs.Tables.{table_view};
ghost use Rattle.table_check.specs.checker.Obligations.{IsInductive};
ghost use Rattle.program_lints.specs.PowerStates.{may_be_on, has_voltage, IsWide, IsSure};

use crate::arrows::arrows;
use crate::closing::sure_sets;
use crate::flow::{set_at, with_rail};
use crate::flowing::{off_flows, voltage_flows};
use crate::law::closed_sets_are_sure;
use crate::settling::all_rails;
use board::{Board, board_is_valid};
use facts::GoodSet;
use seq_program::{Program, program_is_valid};
use std::alloc::{AllocError, Global};
use table_check::{Table, tables_are_judged_by_place};

/// Which rails may be on, and which had a voltage written to them, at each place of a program.
#[derive(Debug, Drop)]
pub struct PowerStates {
    /// The rails that are surely off at each place.
    off: Vec<GoodSet>,
    /// The rails that surely had a voltage written to them.
    voltages: Vec<GoodSet>,
}

impl PowerStates {
    /// The rails that are on in some run which stands at a place, and maybe more.
    pub fn may_be_on(&self, place: usize) -> GoodSet
        ensures { rails_in result ≡ may_be_on self.now place }
    {
        let off = set_at(&self.off, place);
        let mut on = GoodSet::empty();
        for rail in 0..64 {
            let is_in = !off.contains(rail);
            on = with_rail(on, rail, is_in);
        }
        on
    }

    /// The rails to which a voltage was written in every run that stands at a place.
    pub fn has_voltage(&self, place: usize) -> GoodSet
        ensures { rails_in result ≡ has_voltage self.now place }
    {
        set_at(&self.voltages, place)
    }
}

/// Which rails may be on, and which had a voltage written to them, at each place of a program,
/// told from its table of facts. Where the table isn't accepted, nothing is said. Fails only for
/// want of memory.
pub fn power_states(
    alloc: Global,
    board: &Board,
    program: &Program,
    table: &Table,
) -> Result<PowerStates, AllocError>
    ensures on { IfOk result (λ s. IsInductive board.now program.now (table_view table.now)
        → IsWide board.now program.now (may_be_on s)) }
    ensures voltages { IfOk result (λ s. IsInductive board.now program.now (table_view table.now)
        → IsSure board.now program.now (has_voltage s)) }
{
    board_is_valid(board);
    program_is_valid(program);
    tables_are_judged_by_place();
    closed_sets_are_sure();
    let arrows = arrows(alloc, board, program, table)?;
    let off_flows = off_flows(alloc, board, program, table, &arrows)?;
    let voltage_flows = voltage_flows(alloc, board, program, table, &arrows)?;
    let places = program.places();
    let off = sure_sets(alloc, &off_flows, places, all_rails())?;
    let voltages = sure_sets(alloc, &voltage_flows, places, GoodSet::empty())?;
    Ok(PowerStates { off, voltages })
}
