ghost use Rattle.pmbus_table.specs.NameLaws.{NamesReadBack, ManufacturersAreDigits};

use texts::numbers_read_back;

/// The name of a command names it, and that of a manufacturer command are the two digits of its
/// code.
pub fn names_read_back()
    ensures read { NamesReadBack }
    ensures digits { ManufacturersAreDigits }
{
    numbers_read_back();
}
