// The place and the value of a field, as `scene-fields` prints them: the numbers of a line, before the name.
#![tactic(auto)]

ghost use Rattle.std.specs.Prelude.{◌≡◌};
ghost use Rattle.text.specs.Text.{ascii};
ghost use Rattle.text.specs.Writer.{Fits, Wrote};
ghost use Rattle.field_text.specs.FieldText.{unit, place_text, value_text};

use rules::{Field, FieldValue};
use text::Writer;

// Puts the bit offset and the bit length of a field.
pub fn put_place(writer: &mut Writer<'_>, field: Field)
    requires { Fits (place_text field) writer.old }
    ensures { Wrote (place_text field) writer.old writer.new }
{
    writer.put_decimal(field.bit_offset as u64);
    writer.put_number(b" ", field.bit_length as u64);
}

// What stands after a value: the unit of a payload or a label, and a blank of any other value.
fn unit(value: FieldValue) -> &'static [u8]
    ensures { result.now ≡ ascii (unit value) }
{
    match value {
        FieldValue::Flag(_) | FieldValue::Number(_) => b" ",
        FieldValue::Bits(_) => b" bits ",
        FieldValue::Bytes(_) => b" bytes ",
    }
}

// Puts a value: its number, and the unit.
pub fn put_value(writer: &mut Writer<'_>, value: FieldValue)
    requires { Fits (value_text value) writer.old }
    ensures { Wrote (value_text value) writer.old writer.new }
{
    writer.put_number(b" ", value.word());
    writer.put(unit(value));
}
