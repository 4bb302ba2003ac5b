//! A board of two targets with a rail each, of which the second needs the first.

use super::expected::made;
use board::{Board, read_board};
use std::alloc::Global;
use std::process::Abort;

const TARGET: &str = r#"[[target]]
name = "a"
address = 0x40
pages = 1
exponent = -12
stretch = 0
start_pages = [0]
start_protects = [0]
allow = [
  {form = "writebyte", command = "PAGE"}, {form = "readbyte", command = "PAGE"},
  {form = "writebyte", command = "OPERATION"}, {form = "writebyte", command = "WRITE_PROTECT"},
  {form = "writeword", command = "VOUT_COMMAND"}, {form = "readword", command = "STATUS_WORD"},
]
"#;

const RAILS: &str = r#"[[rail]]
name = "va"
target = "a"
page = 0
limit_uv = 1100000
[[rail]]
name = "vb"
target = "b"
page = 0
limit_uv = 3300000
needs = ["va"]
"#;

/// A board whose targets both alert, and b has the lower address.
pub(super) fn alert_board(rt: &impl Abort, alloc: Global) -> Box<Board> {
    let second = made(rt, TARGET.replace(alloc, "\"a\"", "\"b\""));
    let second = made(rt, second.replace(alloc, "0x40", "0x21"));
    let text = made(rt, format!(in alloc; "{TARGET}{second}{RAILS}"));
    let text = made(
        rt,
        text.replace(alloc, "stretch = 0", "stretch = 0\nalerts = true"),
    );
    made(rt, Box::new(alloc, made(rt, read_board(alloc, &text))))
}
