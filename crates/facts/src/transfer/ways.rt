//! Where an instruction may lead.

ghost use Rattle.std.specs.Prelude.{◌≡◌, ◌∷◌, []};
ghost use Rattle.facts.specs.domain.Rows.{row_view};
ghost use Rattle.facts.specs.transfer.Edges.{edge};
ghost use Rattle.facts.specs.transfer.Ways.{ways_list};

use crate::domain::row::Row;

/// A place, and what is known there.
#[derive(Drop)]
pub(crate) struct Way {
    pub to: usize,
    pub row: Row,
}

/// At most two ways, in order.
#[derive(Drop)]
pub(crate) struct Ways {
    pub first: Option<Way>,
    pub second: Option<Way>,
}

pub(crate) fn one_way(to: usize, row: Row) -> Ways
    ensures { ways_list result ≡ edge to (row_view row) ∷ [] }
{
    Ways {
        first: Some(Way { to, row }),
        second: None,
    }
}

pub(crate) fn two_ways(to: usize, row: Row, other: usize, other_row: Row) -> Ways
    ensures { ways_list result
        ≡ edge to (row_view row) ∷ edge other (row_view other_row) ∷ [] }
{
    Ways {
        first: Some(Way { to, row }),
        second: Some(Way {
            to: other,
            row: other_row,
        }),
    }
}
