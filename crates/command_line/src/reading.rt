//! Reading a file to its end, or past the most bytes that are taken and no further.

ghost use Rattle.std.specs.Prelude.{◌≡◌, take, IfOk, IfSome};
ghost use Rattle.bundles.specs.Composed.{ended};

use bundles::end_last_line;
use std::alloc::Global;
use std::io::{Read, Result};
use std::{fs, io};

/// The most bytes that are taken of a file, and one more, by which a longer one is known.
const MOST_READ: u64 = 16_777_217;

/// All bytes of a reader, or its first 16 MiB and one byte. Fails where the reader does or memory
/// is short.
fn read_front<R: Read + Drop>(alloc: Global, reader: R) -> Result<Vec<u8>>
    ensures { IfOk result (λ bytes. IfSome (R.remaining reader)
        (λ all. bytes.items ≡ take MOST_READ all)) }
{
    let mut bytes = Vec::new(alloc);
    reader.take(MOST_READ).read_to_end(&mut bytes)?;
    Ok(bytes)
}

/// The same, with the last line ended.
fn read_lines<R: Read + Drop>(alloc: Global, reader: R) -> Result<Vec<u8>>
    ensures { IfOk result (λ bytes. IfSome (R.remaining reader)
        (λ all. bytes.items ≡ ended (take MOST_READ all))) }
{
    let mut bytes = read_front(alloc, reader)?;
    end_last_line(&mut bytes)?;
    Ok(bytes)
}

/// The bytes of the file with a name, or of standard input, which is called `-`, its last line
/// ended.
pub(crate) fn read_file(rt: &HostRuntime, name: &str) -> io::Result<Vec<u8>> {
    if name == "-" {
        read_lines(rt.alloc(), rt.stdin())
    } else {
        read_lines(rt.alloc(), fs::open(rt, name)?)
    }
}
