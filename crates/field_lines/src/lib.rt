// The line that `scene-fields` prints of a field: its place, its value and its name.
#![tactic(auto)]

ghost use Rattle.std.specs.Prelude.{[]};
ghost use Rattle.rules.specs.Rule.{pick};
ghost use Rattle.text.specs.Text.{Lined};
ghost use Rattle.text.specs.Writer.{Fits, Wrote};
ghost use Rattle.name_words.specs.NameText.{known};
ghost use Rattle.field_lines.specs.FieldLine.{field_line, line_at};

use rules::Field;
use text::Writer;

// Puts the line of a field: its place, its value and its name.
fn put_field(writer: &mut Writer<'_>, field: Field)
    requires { Fits (field_line field) writer.old }
    ensures { Wrote (field_line field) writer.old writer.new }
{
    field_text::put_place(writer, field);
    field_text::put_value(writer, field.value);
    name_words::put_name(writer, field.name);
    writer.put_byte(b'\n');
}

// Puts the line of a field whose name is known.
fn known_line(field: Field, line: &mut [u8; text::LINE]) -> usize
    ensures { Lined line.old (pick (known field.name) (field_line field) []) result line.new }
{
    let mut writer = Writer::new(line);
    if name_words::known(field.name) {
        put_field(&mut writer, field);
    }
    writer.length()
}

// Puts the line of field `i` of recorded words at the beginning of the lent bytes, and gives its length. The bytes after it
// stay as they are; all of them do where the words hold no field, or one that no reading records.
pub fn field_line(words: &[u64], i: usize, line: &mut [u8; text::LINE]) -> usize
    ensures { Lined line.old (line_at words.now i) result line.new }
{
    match Field::at(words, i) {
        Some(field) => known_line(field, line),
        None => 0,
    }
}
