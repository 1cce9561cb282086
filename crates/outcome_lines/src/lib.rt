// The line that `scene-fields` prints of a reading's outcome.
#![tactic(auto)]

ghost use Rattle.text.specs.Text.{Lined};
ghost use Rattle.text.specs.Writer.{Fits, Wrote};
ghost use Rattle.outcome_lines.specs.OutcomeLine.{ended_text, outcome_line};

use rules::{Answer, Outcome};
use text::Writer;

// Puts the line of a reading that was refused or stopped: its number, its bit position, and what the number means.
fn put_ended(writer: &mut Writer<'_>, word: &[u8], number: u16, position: u64)
    requires { Fits (ended_text word.now number position) writer.old }
    ensures { Wrote (ended_text word.now number position) writer.old writer.new }
{
    writer.put_number(word, number as u64);
    writer.put_number(b" at ", position);
    writer.put(b": ");
    numbers::put_meaning(writer, number);
    writer.put_byte(b'\n');
}

// Puts the line of an outcome.
fn put_outcome(writer: &mut Writer<'_>, answer: Answer)
    requires { Fits (outcome_line answer) writer.old }
    ensures { Wrote (outcome_line answer) writer.old writer.new }
{
    let position = answer.position as u64;
    match answer.outcome {
        Outcome::Read => writer.put_two(b"read ", position, b" fields ", answer.fields as u64),
        Outcome::Refused(number) => put_ended(writer, b"refused ", number, position),
        Outcome::Stopped(number) => put_ended(writer, b"stopped ", number, position),
    }
}

// Puts the line of a reading's outcome at the beginning of the lent bytes, and gives its length. The bytes after it stay as
// they are.
pub fn outcome_line(answer: Answer, line: &mut [u8; text::LINE]) -> usize
    ensures { Lined line.old (outcome_line answer) result line.new }
{
    let mut writer = Writer::new(line);
    put_outcome(&mut writer, answer);
    writer.length()
}
