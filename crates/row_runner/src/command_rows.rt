//! Rows of commands: names and forms, what may be written, and what values of registers mean.

use crate::cells::{byte, or_dash, shown, word};
use crate::row::{Flaw, Outcome, Row};
use pmbus_table::{
    PROTECTIONS, by_code, by_name, carries_voltage, enables, is_exponent, is_protection,
    mantissas_in_volt, manufacturer_named, name_of, permits, reported_good, within,
};
use smbus::{Form, form_named};
use std::alloc::Global;

/// The code of the command of a name, the forms that write and read it, and whether it is paged.
fn facts_of(name: &str) -> Option<(u8, Option<Form>, Option<Form>, bool)> {
    let command = by_name(name)?;
    let (written, read) = (command.form_written(), command.form_read());
    Some((command.code(), written, read, command.paged()))
}

/// `CODE | NAME FACTS`: a code's name, and the facts of the command that has this name.
fn command_row(alloc: Global, code: &str) -> Outcome {
    let Some(command) = by_code(byte(code)?) else {
        return Ok("-".to_string(alloc)?);
    };
    let name = name_of(alloc, command)?;
    let facts = or_dash(alloc, facts_of(&name))?;
    Ok(format!(in alloc; "{name} {facts}")?)
}

/// The code of the manufacturer command that two digits name, and whether it is one by its code.
fn manufacturer_facts(digits: &str) -> Option<(u8, bool)> {
    let command = manufacturer_named(digits)?;
    Some((command.code(), command.is_manufacturer()))
}

/// Whether the command of a name is a manufacturer's.
fn is_own(name: &str) -> Option<bool> {
    Some(by_name(name)?.is_manufacturer())
}

/// Whether a command takes a form, and whether that counts as a write.
fn taken(name: &str, word: &str) -> Option<(bool, bool)> {
    let command = by_name(name)?;
    let form = match word {
        "alert" => Form::Alert,
        _ => form_named(word)?,
    };
    Some((command.takes(form), command.counts_as_write(form)))
}

fn exponent(cell: &str) -> Outcome<i8> {
    let exponent = cell.parse::<i8>();
    exponent.ok().ok_or(Flaw::Cell("exponent").error())
}

/// `MANTISSA | EXPONENT | LIMIT | IS_WITHIN`: whether a voltage is at most a limit.
fn voltage_row(alloc: Global, given: &Row) -> Outcome {
    let (mantissa, power, limit) = given.three()?;
    let Ok(limit) = limit.parse::<u32>() else {
        return Err(Flaw::Cell("limit").error());
    };
    shown(alloc, within(word(mantissa)?, exponent(power)?, limit))
}

/// What a row of two cells comes out as.
fn of_two(alloc: Global, kind: &str, (first, second): (&str, &str)) -> Outcome {
    match kind {
        "form" => or_dash(alloc, taken(first, second)),
        _ => or_dash(alloc, permits(byte(first)?, byte(second)?)),
    }
}

/// What a row of one cell comes out as.
fn of_one(alloc: Global, kind: &str, cell: &str) -> Outcome {
    match kind {
        "command" => command_row(alloc, cell),
        "manufacturer" => or_dash(alloc, manufacturer_facts(cell)),
        "name" => or_dash(alloc, is_own(cell)),
        "protection" => shown(alloc, is_protection(byte(cell)?)),
        "operation" => shown(alloc, enables(byte(cell)?)),
        "carrier" => shown(alloc, carries_voltage(byte(cell)?)),
        "status" => shown(alloc, reported_good(word(cell)?)),
        "exponent" => {
            let number = exponent(cell)?;
            let is_one = is_exponent(i64::from(number));
            shown(alloc, (mantissas_in_volt(number), is_one))
        }
        _ => Err(Flaw::Kind.error()),
    }
}

/// What a row of some kind comes out as.
pub(crate) fn outcome(alloc: Global, kind: &str, given: &Row) -> Outcome {
    match kind {
        "protections" => shown(alloc, PROTECTIONS),
        "voltage" => voltage_row(alloc, given),
        "form" | "permitted" => of_two(alloc, kind, given.two()?),
        _ => of_one(alloc, kind, given.one()?),
    }
}
