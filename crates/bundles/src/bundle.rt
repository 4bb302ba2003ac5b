ghost use Rattle.std.specs.Prelude.{◌≡◌, ◌≤◌, ◌<◌, ◌+◌, ◌==◌, length, map, option_map, take};
ghost use Rattle.std.specs.Prelude.{option_copied};
ghost use Rattle.std.specs.Prelude.{slice_get, IfSome, ◌∷◌, vec_len, MatchResult};
ghost use Rattle.std.specs.Prelude.{IfOk, IfErr, count_by, Some, None};
ghost use Rattle.std.specs.List.{list_all, slice_split};
ghost use Rattle.texts.specs.Reading.{Gives};
ghost use Rattle.bundles.specs.Bundles.{is_blank, starts_section, is_header, belongs, parts_below};
ghost use Rattle.bundles.specs.Bundles.{first_unexpected, sections_of, headers_of, bundle_below};
ghost use Rattle.bundles.specs.Bundles.{bundle_of};
ghost use Rattle.std.specs.Str.Lines.{lines};
ghost use Rattle.bundles.specs.Views.{section_view, bundle_view};

use crate::command::{Command, Header};
use crate::fault::BundleFault;
use crate::lines::next_line;
use crate::section::Section;
use std::alloc::{AllocError, Global};
use texts::ReadError;

/// A command and its sections.
#[derive(Debug, Drop)]
pub struct Bundle<'a> {
    pub command: Command,
    pub sections: Vec<Section<'a>>,
}

fn all_spaces(line: &[u8]) -> bool
    ensures { result ≡ list_all (λ b. b == 32) line.now }
{
    line.iter().all(|b| *b == b' ')
}

/// Whether a line is nothing but spaces.
pub fn is_blank(line: &str) -> bool
    ensures { result ≡ is_blank line.now }
{
    all_spaces(line.as_bytes())
}

/// Whether a line is a header, of whatever kind.
fn starts_section(line: &str) -> bool
    ensures { result ≡ starts_section line.now }
{
    line.as_bytes().first() == Some(&b'%')
}

/// Whether a line is the next header below so many.
fn is_next(headers: &[Header], above: usize, line: &str) -> bool
    ensures { result ≡ is_header (slice_get headers.now above) line.now }
{
    match headers.get(above) {
        Some(header) => line == header.text(),
        None => false,
    }
}

/// Whether a line belongs below so many headers.
fn belongs(headers: &[Header], above: usize, line: &str) -> bool
    ensures { result ≡ belongs headers.now above line.now }
{
    if starts_section(line) {
        is_next(headers, above, line)
    } else {
        above > 0 || is_blank(line)
    }
}

/// The number of headers among the lines, or the place of the first line that doesn't belong there.
fn headers_among(headers: &[Header], text: &str) -> Result<usize, usize>
    ensures placed { MatchResult result
        (λ above. first_unexpected headers.now (lines text.now) ≡ None)
        (λ place.
        option_map (λ p. p.0) (first_unexpected headers.now (lines text.now)) ≡ Some place) }
    ensures count { IfOk result (λ above. above ≡ count_by starts_section (lines text.now)) }
    ensures most { IfOk result (λ above. above ≤ length headers.now) }
    ensures within { IfErr result (λ place. place < length text.now) }
{
    let mut above = 0;
    let mut place = 0;
    let mut rest = text;
    while let Some((line, below)) = next_line(rest) {
        if !belongs(headers, above, line) {
            return Err(place);
        }
        if starts_section(line) {
            above += 1;
        }
        place += 1;
        rest = below;
    }
    Ok(above)
}

/// The lines above the next header: how many they are, and the text below the header.
#[derive(Drop)]
struct Part<'a> {
    count: usize,
    below: Option<&'a str>,
}

/// The lines of a text up to its first header.
fn first_part(text: &str) -> Part<'_>
    ensures parts { slice_split starts_section (lines text.now)
        ≡ take result.count (lines text.now) ∷ parts_below (option_copied result.below) }
    ensures within { result.count ≤ length (lines text.now) }
    ensures few { result.count ≤ length text.now }
    ensures shorter { IfSome result.below
        (λ below. result.count + length below.now < length text.now) }
{
    let mut count = 0;
    let mut rest = text;
    while let Some((line, below)) = next_line(rest) {
        if starts_section(line) {
            return Part {
                count,
                below: Some(below),
            };
        }
        count += 1;
        rest = below;
    }
    Part { count, below: None }
}

/// The sections below the lines that stand above the first header.
fn sections_of<'a>(alloc: Global, text: &'a str) -> Result<Vec<Section<'a>>, AllocError>
    ensures { IfOk result
        (λ sections. map section_view sections.items ≡ sections_of (lines text.now)) }
{
    let mut sections = Vec::new(alloc);
    let top = first_part(text);
    let mut first_line = top.count + 3;
    let mut next = top.below;
    while let Some(text) = next {
        let part = first_part(text);
        sections.push(Section {
            first_line,
            count: part.count,
            text,
        })?;
        first_line += part.count + 1;
        next = part.below;
    }
    Ok(sections)
}

/// A command with the sections below its line.
#[tactic(auto, unfolding(crate::specs::Bundles::bundle_below))]
pub fn bundle_below<'a>(
    alloc: Global,
    command: Command,
    text: &'a str,
) -> Result<Bundle<'a>, ReadError<BundleFault>>
    ensures value { Gives bundle_view result (bundle_below command (lines text.now)) }
    ensures whole { IfOk result
        (λ bundle. vec_len bundle.sections ≡ length (headers_of bundle.command)) }
{
    let headers = command.headers();
    let above = match headers_among(headers, text) {
        Ok(above) => above,
        Err(place) => return Err(BundleFault::Unexpected(place + 2).error()),
    };
    if let Some(header) = headers.get(above) {
        return Err(BundleFault::MissingSection(*header).error());
    }
    let sections = sections_of(alloc, text)?;
    Ok(Bundle { command, sections })
}

/// The command of a bundle and its sections, one for each of the command's headers. NoCommand is
/// answered for no line, then UnknownCommand, then Unexpected with the first line that doesn't
/// belong where it stands, then MissingSection. Memory is answered where a growth was refused.
#[tactic(auto, unfolding(crate::specs::Bundles::bundle_of))]
pub fn read_bundle<'a>(alloc: Global, text: &'a str) -> Result<Bundle<'a>, ReadError<BundleFault>>
    ensures value { Gives bundle_view result (bundle_of (lines text.now)) }
    ensures whole { IfOk result
        (λ bundle. vec_len bundle.sections ≡ length (headers_of bundle.command)) }
{
    let Some((first, below)) = next_line(text) else {
        return Err(BundleFault::NoCommand.error());
    };
    let Some(command) = Command::of_line(first) else {
        return Err(BundleFault::UnknownCommand.error());
    };
    bundle_below(alloc, command, below)
}
