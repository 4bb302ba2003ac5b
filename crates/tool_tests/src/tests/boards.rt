//! Boards of two targets with a rail each, of which the second needs the first.

use super::expected::made;
use board::{Board, BoardFault, read_board};
use std::alloc::{AllocError, Global};
use std::process::Abort;

const TARGET: &str = r#"[[target]]
name = "a"
address = 0x40
pages = 1
exponent = -12
stretch = 0
start_pages = [0]
start_protects = [0]
allow = [
  {form = "writebyte", command = "PAGE"}, {form = "readbyte", command = "PAGE"},
  {form = "writebyte", command = "OPERATION"}, {form = "writebyte", command = "WRITE_PROTECT"},
  {form = "writeword", command = "VOUT_COMMAND"}, {form = "readword", command = "STATUS_WORD"},
]
"#;

const RAILS: &str = r#"[[rail]]
name = "va"
target = "a"
page = 0
limit_uv = 1100000
[[rail]]
name = "vb"
target = "b"
page = 0
limit_uv = 3300000
needs = ["va"]
"#;

/// What other controllers may do on a bus.
const OTHERS: &str =
    "foreign = [0x10, 0x50, 0x0A]\nforeign_bytes = 1\nforeign_stretch = 3\ncontentions = 2\n";

/// The board file, with some lines in front.
pub(super) fn two_text(alloc: Global, front: &str) -> Result<String, AllocError> {
    let second = TARGET.replace(alloc, "\"a\"", "\"b\"")?;
    let second = second.replace(alloc, "0x40", "0x41")?;
    format!(in alloc; "{front}{TARGET}{second}{RAILS}")
}

/// A board on the heap. What owns it so is proved more cheaply than what owns all its parts.
pub(super) fn boxed(
    rt: &impl Abort,
    alloc: Global,
    tried: Result<Board, BoardFault>,
) -> Box<Board> {
    made(rt, Box::new(alloc, made(rt, tried)))
}

pub(super) fn two_board(rt: &impl Abort, alloc: Global) -> Box<Board> {
    let text = made(rt, two_text(alloc, ""));
    boxed(rt, alloc, read_board(alloc, &text))
}

/// The same with other controllers on the bus.
pub(super) fn shared_board(rt: &impl Abort, alloc: Global) -> Box<Board> {
    let text = made(rt, two_text(alloc, OTHERS));
    boxed(rt, alloc, read_board(alloc, &text))
}
