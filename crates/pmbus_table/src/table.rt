ghost use Rattle.std.specs.Prelude.{◌≡◌, option_map};
ghost use Rattle.pmbus_table.specs.Table.{row_of, row_named};
ghost use Rattle.pmbus_table.specs.Rows.{row_view, find_code, find_name};

use smbus::Form;
use smbus::Form::{
    BlockProcessCall, BlockRead, ReadByte, ReadWord, SendByte, WriteByte, WriteWord,
};

/// How a command goes over the bus, and whether PAGE selects what it is about.
#[derive(Clone, Copy)]
pub(crate) struct Row {
    pub code: u8,
    pub written: Option<Form>,
    pub read: Option<Form>,
    pub is_paged: bool,
}

/// A command of the table and its name.
type Named = (&'static str, Row);

/// Rows of the table, one a line.
macro_rules! rows {
    ($($name:literal, $code:literal, $written:expr, $read:expr, $is_paged:literal;)*) => {
        [$((
            $name,
            Row {
                code: $code,
                written: $written,
                read: $read,
                is_paged: $is_paged,
            },
        )),*]
    };
}

const TABLE: [Named; 25] = rows! {
    // name, code, the form that writes it, the form that reads it, whether it is paged
    "PAGE", 0x00, Some(WriteByte), Some(ReadByte), false;
    "OPERATION", 0x01, Some(WriteByte), Some(ReadByte), true;
    "CLEAR_FAULTS", 0x03, Some(SendByte), None, true;
    "WRITE_PROTECT", 0x10, Some(WriteByte), Some(ReadByte), false;
    "CAPABILITY", 0x19, None, Some(ReadByte), false;
    "QUERY", 0x1A, None, Some(BlockProcessCall), false;
    "VOUT_MODE", 0x20, None, Some(ReadByte), true;
    "VOUT_COMMAND", 0x21, Some(WriteWord), Some(ReadWord), true;
    "VOUT_MAX", 0x24, Some(WriteWord), Some(ReadWord), true;
    "VOUT_MARGIN_HIGH", 0x25, Some(WriteWord), Some(ReadWord), true;
    "VOUT_MARGIN_LOW", 0x26, Some(WriteWord), Some(ReadWord), true;
    "VOUT_OV_FAULT_LIMIT", 0x40, Some(WriteWord), Some(ReadWord), true;
    "VOUT_OV_WARN_LIMIT", 0x42, Some(WriteWord), Some(ReadWord), true;
    "VOUT_UV_WARN_LIMIT", 0x43, Some(WriteWord), Some(ReadWord), true;
    "VOUT_UV_FAULT_LIMIT", 0x44, Some(WriteWord), Some(ReadWord), true;
    "STATUS_BYTE", 0x78, None, Some(ReadByte), true;
    "STATUS_WORD", 0x79, None, Some(ReadWord), true;
    "STATUS_VOUT", 0x7A, None, Some(ReadByte), true;
    "STATUS_CML", 0x7E, None, Some(ReadByte), true;
    "READ_VIN", 0x88, None, Some(ReadWord), false;
    "READ_VOUT", 0x8B, None, Some(ReadWord), true;
    "READ_IOUT", 0x8C, None, Some(ReadWord), true;
    "READ_TEMPERATURE_1", 0x8D, None, Some(ReadWord), true;
    "PMBUS_REVISION", 0x98, None, Some(ReadByte), false;
    "MFR_ID", 0x99, None, Some(BlockRead), false;
};

#[tactic(auto, unfolding(crate::specs::Rows::find_code))]
fn find_code(rows: &[Named], code: u8) -> Option<&Named>
    ensures { option_map (λ r. r.now) result ≡ find_code rows.now code }
{
    rows.iter().find(|(_, row)| row.code == code)
}

#[tactic(auto, unfolding(crate::specs::Rows::find_name))]
fn find_name<'a>(rows: &'a [Named], name: &str) -> Option<&'a Named>
    ensures { option_map (λ r. r.now) result ≡ find_name rows.now name.now }
{
    rows.iter().find(|(it, _)| *it == name)
}

/// The row of a command code, with the command's name.
pub(crate) fn row_of(code: u8) -> Option<&'static Named>
    ensures { option_map (λ r. row_view r.now) result ≡ row_of code }
{
    find_code(&TABLE, code)
}

/// The row of a command's name.
pub(crate) fn row_named(name: &str) -> Option<&'static Named>
    ensures { option_map (λ r. row_view r.now) result ≡ row_named name.now }
{
    find_name(&TABLE, name)
}
