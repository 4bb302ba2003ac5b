//! Boards of two targets with a rail each, of which the second needs the first.

use board::{Board, BoardFault, read_board};
use std::alloc::{AllocError, Global};

const TARGET: &str = r#"[[target]]
name = "a"
address = 0x40
pages = 1
exponent = -12
stretch = 0
start_pages = [0]
start_protects = [0]
allow = [
  {form = "writebyte", command = "PAGE"}, {form = "readbyte", command = "PAGE"},
  {form = "writebyte", command = "OPERATION"}, {form = "writebyte", command = "WRITE_PROTECT"},
  {form = "writeword", command = "VOUT_COMMAND"}, {form = "readword", command = "STATUS_WORD"},
]
"#;

const RAILS: &str = r#"[[rail]]
name = "va"
target = "a"
page = 0
limit_uv = 1100000
[[rail]]
name = "vb"
target = "b"
page = 0
limit_uv = 3300000
needs = ["va"]
"#;

/// What other controllers may do on a bus.
const OTHERS: &str =
    "foreign = [0x10, 0x50, 0x0A]\nforeign_bytes = 1\nforeign_stretch = 3\ncontentions = 2\n";

/// The board file, with some lines in front.
fn two_text(alloc: Global, front: &str) -> Result<String, AllocError> {
    let second = TARGET.replace(alloc, "\"a\"", "\"b\"")?;
    let second = second.replace(alloc, "0x40", "0x41")?;
    format!(in alloc; "{front}{TARGET}{second}{RAILS}")
}

pub(super) fn two_board(alloc: Global) -> Result<Board, BoardFault> {
    read_board(alloc, &two_text(alloc, "")?)
}

/// The same with other controllers on the bus.
pub(super) fn shared_board(alloc: Global) -> Result<Board, BoardFault> {
    read_board(alloc, &two_text(alloc, OTHERS)?)
}

/// The same where both targets alert, and b has the lower address.
pub(super) fn alert_board(alloc: Global) -> Result<Board, BoardFault> {
    let text = two_text(alloc, "")?.replace(alloc, "0x41", "0x21")?;
    let text = text.replace(alloc, "stretch = 0", "stretch = 0\nalerts = true")?;
    read_board(alloc, &text)
}
