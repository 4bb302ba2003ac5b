//! Notes on refusals of each kind, by the place of a program.

use super::expected::{begins, made, notes};
use facts::Rule;
use refusal_notes::{RefusalKind, refusal_note};
use std::test::*;

const PROGRAM: &str = "# two rails
again:
write va OPERATION 0x80 else again

write vb OPERATION 0x80 else again   # too early
end
";

/// A refusal of that program, its place, and the first lines of the note.
static REFUSALS: [(RefusalKind, usize, &str); 4] = [
    (
        RefusalKind::Breaks(Rule::K5),
        1,
        "%program:5: error: K5: this may turn on a rail while a rail that it needs isn't known to \
         be good\n    write vb OPERATION 0x80 else again   # too early\nhelp: ",
    ),
    (
        RefusalKind::GaveUp,
        0,
        "%program:3: error: no facts are found: no counter bounds a loop through this line\n    \
         write va OPERATION 0x80 else again\nhelp: ",
    ),
    (
        RefusalKind::Breaks(Rule::K9),
        0,
        "%program:3: error: K9: the table doesn't belong to this program on this board\n    write \
         va",
    ),
    (
        RefusalKind::Breaks(Rule::K7),
        2,
        "%program:6: error: K7: this may take more ticks than the rows leave from here to where it \
         leads\n    end\n",
    ),
];

/// The place counts instructions, and its note has the line. There is none past the end.
#[test]
fn refusals(rt: HostRuntime) {
    let alloc = rt.alloc();
    for (refusal, place, want) in &REFUSALS {
        let note = made(&rt, refusal_note(alloc, PROGRAM, *place, *refusal));
        begins(&rt, alloc, note, want);
    }
    let past = made(&rt, refusal_note(alloc, PROGRAM, 3, RefusalKind::GaveUp));
    notes(&rt, alloc, past, None);
}
