//! Bundles made of a command and files.

ghost use Rattle.std.specs.Prelude.{◌≡◌, ◌++◌, map, IfOk, OnOk, OnErr};
ghost use Rattle.bundles.specs.Composed.{is_ended, ended, section_text, sections_text, composed};

use crate::command::{Command, Header};
use std::alloc::{AllocError, Global};

/// Whether the last line of a file, if it has one, ends with a line feed.
fn is_ended(file: &[u8]) -> bool
    ensures { result ≡ is_ended file.now }
{
    match file.last() {
        Some(byte) => *byte == b'\n',
        None => true,
    }
}

/// Ends the last line of a file by a line feed, where it lacks one. Fails only for want of memory,
/// and then leaves the file as it was.
pub fn end_last_line(file: &mut Vec<u8>) -> Result<(), AllocError>
    ensures ends { OnOk result (file.new.items ≡ ended file.old.items) }
    ensures unchanged { OnErr result (file.new.items ≡ file.old.items) }
{
    if is_ended(file) {
        Ok(())
    } else {
        file.push(b'\n')?;
        Ok(())
    }
}

/// Adds a section: its header, and the bytes of its file.
fn push_section(bundle: &mut Vec<u8>, header: Header, file: &[u8]) -> Result<(), AllocError>
    ensures { OnOk result
        (bundle.new.items ≡ bundle.old.items ++ section_text header file.now) }
{
    bundle.extend_from_slice(header.text().as_bytes())?;
    bundle.push(b'\n')?;
    bundle.extend_from_slice(file)
}

/// Adds the sections of these headers, each with its file.
fn push_sections(
    bundle: &mut Vec<u8>,
    headers: &[Header],
    files: &[Vec<u8>],
) -> Result<(), AllocError>
    ensures { OnOk result (bundle.new.items
        ≡ bundle.old.items ++ sections_text headers.now (map (λ f. f.items) files.now)) }
{
    let mut rest = files;
    for header in headers {
        match rest.split_first() {
            Some((file, later)) => {
                push_section(bundle, *header, file)?;
                rest = later;
            }
            None => return Ok(()),
        }
    }
    Ok(())
}

/// The bundle that asks for a command on files, one for each of its sections: the command's line,
/// and each header with the bytes of its file. Fails only for want of memory.
pub fn compose(alloc: Global, command: Command, files: &[Vec<u8>]) -> Result<Vec<u8>, AllocError>
    ensures { IfOk result
        (λ bundle. bundle.items ≡ composed command (map (λ f. f.items) files.now)) }
{
    let mut bundle = Vec::new(alloc);
    bundle.extend_from_slice(command.text().as_bytes())?;
    bundle.push(b'\n')?;
    push_sections(&mut bundle, command.headers(), files)?;
    Ok(bundle)
}
