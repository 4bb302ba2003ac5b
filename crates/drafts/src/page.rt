//! Where the page of a rail has to be selected.

ghost use Rattle.std.specs.Prelude.{◌≡◌, ◌==◌, not};
ghost use Rattle.std.specs.List.{list_any};
ghost use Rattle.drafts.specs.Opening.{needs_page};

use board::{Board, Rail, Target};

fn starts_elsewhere(target: &Target, page: u8) -> bool
    ensures { result ≡ list_any (λ start. not (start == page)) target.now.start_pages }
{
    target.start_pages().iter().any(|start| *start != page)
}

/// Whether PAGE has to be written before a rail's target is sent anything about it: the target has
/// several pages, or may start at another value.
pub(crate) fn needs_page(board: &Board, output: &Rail) -> bool
    ensures { result ≡ needs_page board.now output.now }
{
    match board.target(output.target()) {
        Some(target) => target.pages() > 1 || starts_elsewhere(target, output.page()),
        None => false,
    }
}
