//! Whether a program only leads on.

ghost use Rattle.std.specs.Prelude.{◌≡◌, ◌<◌, ◌↔◌, IsTrue, IfSome};
ghost use Rattle.fact_search.specs.Forward.{IsForward};
ghost use Rattle.fact_search.specs.Searching.{jump_at};

use seq_program::Program;

/// Where the instruction of a place may jump to.
fn jump_at(program: &Program, place: usize) -> Option<usize>
    ensures { result ≡ jump_at program.now place }
{
    match program.at(place) {
        Some(instr) => instr.jump(),
        None => None,
    }
}

/// Whether a jump, if there is one, lands after its own place.
fn lands_after(jump: Option<usize>, place: usize) -> bool
    ensures { IsTrue result ↔ IfSome jump (λ to. place < to) }
{
    match jump {
        Some(to) => place < to,
        None => true,
    }
}

/// Whether each jump of a program lands after its own place.
pub(crate) fn is_forward(program: &Program) -> bool
    ensures { IsTrue result ↔ IsForward program.now }
{
    for place in 0..program.places() {
        if !lands_after(jump_at(program, place), place) {
            return false;
        }
    }
    true
}
