ghost use Rattle.std.specs.Prelude.{OnOk, OnErr};
ghost use Rattle.std.specs.Io.KnownBytes.{Appends};
ghost use Rattle.texts.specs.Sending.{AppendsBeginning};

use std::io::Write;

/// The writer failed, or took nothing of a nonempty rest.
#[derive(Clone, Copy, Debug, PartialEq, Eq)]
pub struct CutShort;

/// Sends all of a text, in as many calls as the writer wants, or a beginning of it where the writer
/// fails or takes nothing of a nonempty rest.
pub fn send<W: Write>(writer: &mut W, text: &[u8]) -> Result<(), CutShort>
    ensures ok { OnOk result (Appends (W.contents writer.old) (W.contents writer.new) text.now) }
    ensures err { OnErr result
        (AppendsBeginning (W.contents writer.old) (W.contents writer.new) text.now) }
{
    let mut rest = text;
    while !rest.is_empty() {
        match writer.write(rest) {
            Ok(0) | Err(_) => return Err(CutShort),
            Ok(count) => rest = &rest[count..],
        }
    }
    Ok(())
}
