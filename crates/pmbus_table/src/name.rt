ghost use Rattle.std.specs.Prelude.{◌≡◌, ℕ, IsTrue, IfSome, IfOk, Some, string_bytes};
ghost use Rattle.texts.specs.Hex.{pair_text};
ghost use Rattle.pmbus_table.specs.Commands.{is_manufacturer, is_command, manufacturer_named};
ghost use Rattle.pmbus_table.specs.Commands.{command_named, name_text};

use crate::command::{Command, by_code, is_manufacturer};
use crate::table::{row_named, row_of};
use std::alloc::{AllocError, Global};
use texts::{pair_of, push_pair};

/// The manufacturer command of two upper case hexadecimal digits.
pub fn manufacturer_named(name: &str) -> Option<Command>
    ensures value { result ≡ manufacturer_named name.now }
    ensures spelled { IfSome result (λ c. IsTrue (is_manufacturer c) × (name.now ≡ pair_text c)) }
    ensures only { (c : ℕ) → IsTrue (is_manufacturer c) → name.now ≡ pair_text c →
        result ≡ Some c }
{
    let code = pair_of(name)?;
    if is_manufacturer(code) {
        by_code(code)
    } else {
        None
    }
}

/// The command of a name: one of the table's, or two upper case hexadecimal digits for a
/// manufacturer command. It is the command for which `name_of` gives this name.
pub fn by_name(name: &str) -> Option<Command>
    ensures value { result ≡ command_named name.now }
    ensures spelled { IfSome result (λ c. name.now ≡ name_text c) }
    ensures only { (c : ℕ) → IsTrue (is_command c) → name.now ≡ name_text c → result ≡ Some c }
{
    match row_named(name) {
        Some((_, row)) => by_code(row.code),
        None => manufacturer_named(name),
    }
}

/// The name of a command: the table's, or a manufacturer command's code as two upper case
/// hexadecimal digits. Fails only for want of memory.
pub fn name_of(alloc: Global, command: Command) -> Result<String, AllocError>
    ensures { IfOk result (λ s. string_bytes s ≡ name_text command) }
{
    if let Some((name, _)) = row_of(command.code()) {
        return String::from_str(alloc, name);
    }
    let mut text = String::new(alloc);
    push_pair(&mut text, command.code())?;
    Ok(text)
}
