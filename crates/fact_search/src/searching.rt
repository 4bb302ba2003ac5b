//! The search, an abstract interpretation: edges' rows are joined until nothing changes (Kildall,
//! 1973; Cousot and Cousot, 1977).

ghost use Rattle.std.specs.Prelude.{◌≡◌, IfErr, IfOk};
ghost use Rattle.table_check.specs.Tables.{rows_view};
ghost use Rattle.fact_search.specs.Forward.{IsForward};
ghost use Rattle.fact_search.specs.Leading.{IsLedTable, leads_view};
ghost use Rattle.fact_search.specs.Searching.{IsFollowedTable};
ghost use Rattle.fact_search.specs.declared.fault.FindFault.TheVariants.{Memory};

use crate::fault::FindFault;
use crate::known::{Known, first_known, next_changed, visit};
use crate::widening::Stops;
use board::Board;
use seq_program::Program;
use std::alloc::Global;

/// A place is visited so often at most.
const MOST_VISITS: u16 = 4096;

/// All visits of 1024 places.
const ALL_VISITS: u32 = 4_194_304;

/// What is known at each place, where all edges are followed, and where each place leads.
pub(crate) fn search(alloc: Global, board: &Board, program: &Program) -> Result<Known, FindFault>
    ensures done { IfOk result
        (λ known. IsFollowedTable board.now program.now (rows_view known.rows.items)) }
    ensures led { IfOk result (λ known. IsLedTable board.now program.now
        (rows_view known.rows.items) (leads_view known.leads.items)) }
    ensures gave_up { IsForward program.now → IfErr result (λ e. e ≡ Memory) }
{
    let stops = Stops::new(alloc, program)?;
    let mut known = first_known(alloc, board, program)?;
    let mut visits = vec![in alloc; 0u16; program.places()]?;
    let mut cursor = 0;
    for _visit in 0..ALL_VISITS {
        let Some(place) = next_changed(&known.changed, cursor) else {
            return Ok(known);
        };
        if visits[place] == MOST_VISITS {
            return Err(FindFault::GaveUp(place));
        }
        visits[place] += 1;
        cursor = visit(alloc, board, program, &stops, &mut known, place)?;
    }
    Err(FindFault::GaveUp(cursor))
}
