ghost use Rattle.std.specs.Prelude.{◌≡◌, ◌≤◌, ◌++◌, IfOk, OnOk, string_bytes};
ghost use Rattle.wires.specs.Marks.{Stamp, Place, Level, wire_code, level_digit, mark_text};
ghost use Rattle.wires.specs.Marks.{marks_text, header};
ghost use Rattle.wires.specs.Drawing.{change, changes};
ghost use Rattle.wires.specs.Runs.{most_samples};

use crate::lines::Sample;
use std::alloc::{AllocError, Global};

const HEADER: &str = "$timescale 1 us $end
$scope module bus $end
$var wire 1 ! SCL $end
$var wire 1 \" SDA $end
$var wire 1 # SMBALERT $end
$var real 64 $ place $end
$upscope $end
$enddefinitions $end
#0
$dumpvars
1!
1\"
1#
$end
";

/// The length of a tick in the header's unit of time.
const TICK_IN_MICROSECONDS: u64 = 5;

/// A line of the bus.
#[derive(Clone, Copy)]
pub(crate) enum Wire {
    Scl,
    Sda,
    Smbalert,
}

/// The lines before the first step: what is declared, and that the wires are high at first.
pub(crate) fn header(alloc: Global) -> Result<String, AllocError>
    ensures { IfOk result (λ text. string_bytes text ≡ header) }
{
    String::from_str(alloc, HEADER)
}

/// Appends the line of the time after a number of ticks.
pub(crate) fn push_stamp(alloc: Global, text: &mut String, ticks: u64) -> Result<(), AllocError>
    requires { ticks ≤ most_samples }
    ensures { OnOk result
        (string_bytes text.new ≡ string_bytes text.old ++ mark_text (Stamp ticks)) }
{
    let time = ticks * TICK_IN_MICROSECONDS;
    let line = format!(in alloc; "#{time}\n")?;
    text.push_str(&line)
}

/// The line of a step's place.
pub(crate) fn place_line(alloc: Global, place: usize) -> Result<String, AllocError>
    ensures { IfOk result (λ line. string_bytes line ≡ mark_text (Place place)) }
{
    format!(in alloc; "r{place} $\n")
}

/// The identifier code of a wire (IEEE 1364-2005, 18.2).
fn wire_code(wire: Wire) -> &'static str
    ensures { result.now ≡ wire_code wire }
{
    match wire {
        Wire::Scl => "!",
        Wire::Sda => "\"",
        Wire::Smbalert => "#",
    }
}

fn level_digit(level: bool) -> &'static str
    ensures { result.now ≡ level_digit level }
{
    if level { "1" } else { "0" }
}

fn push_level(text: &mut String, wire: Wire, level: bool) -> Result<(), AllocError>
    ensures { OnOk result
        (string_bytes text.new ≡ string_bytes text.old ++ mark_text (Level wire level)) }
{
    text.push_str(level_digit(level))?;
    text.push_str(wire_code(wire))?;
    text.push_str("\n")
}

/// Appends the line of a wire's new level where it differs from the one before.
fn push_change(text: &mut String, wire: Wire, before: bool, after: bool) -> Result<(), AllocError>
    ensures { OnOk result
        (string_bytes text.new ≡ string_bytes text.old ++ marks_text (change wire before after)) }
{
    match (before, after) {
        (true, false) => push_level(text, wire, false),
        (false, true) => push_level(text, wire, true),
        _ => Ok(()),
    }
}

/// Appends a line for each wire whose level changes.
pub(crate) fn push_changes(
    text: &mut String,
    before: Sample,
    after: Sample,
) -> Result<(), AllocError>
    ensures { OnOk result
        (string_bytes text.new ≡ string_bytes text.old ++ marks_text (changes before after)) }
{
    push_change(text, Wire::Scl, before.scl, after.scl)?;
    push_change(text, Wire::Sda, before.sda, after.sda)?;
    push_change(text, Wire::Smbalert, before.alert, after.alert)
}
