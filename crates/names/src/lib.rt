// The text of a name word, written to bytes that the caller lends (docs/FIELDS.md).
#![tactic(auto)]

ghost use Rattle.std.specs.Prelude.{length};
ghost use Rattle.text.specs.Text.{Put};
ghost use Rattle.name_words.specs.NameText.{name_text};
ghost use Rattle.names.specs.NameAnswer.{room_question, name_question, text_answer, NameAnswered};

use rules::{Outcome, Reason};
use text::{TextAnswer, Writer};

// Puts the text of a word at the beginning of bytes that are enough for every text, and gives its length.
fn put_text(word: u64, text: &mut [u8; 128]) -> usize
    ensures { Put text.old 0 (name_text word) result text.new }
{
    let mut writer = Writer::new(text);
    name_words::put_name(&mut writer, word);
    writer.length()
}

// Writes the text of a word, if the bytes are enough for it, and gives its length.
fn write_text(word: u64, bytes: &mut [u8]) -> Result<usize, Reason>
    ensures { NameAnswered word (room_question word (length bytes.old)) bytes.old (text_answer result) bytes.new }
{
    let mut text = [0u8; 128];
    let length = put_text(word, &mut text);
    if bytes.len() < length {
        return Err(Reason::TextTooLong);
    }
    bytes[..length].copy_from_slice(&text[..length]);
    Ok(length)
}

// The same of a word that must be known.
fn known_text(word: u64, bytes: &mut [u8]) -> Result<usize, Reason>
    ensures { NameAnswered word (name_question word (length bytes.old)) bytes.old (text_answer result) bytes.new }
{
    if name_words::known(word) {
        return write_text(word, bytes);
    }
    Err(Reason::NameUnknown)
}

// Writes the text of a name word to the beginning of the lent bytes, and gives its length. The bytes after it stay as they
// are; if the word is unknown (25) or the bytes are too few (26), all of them do.
pub fn name_text(word: u64, bytes: &mut [u8]) -> TextAnswer
    ensures { NameAnswered word (name_question word (length bytes.old)) bytes.old result bytes.new }
{
    match known_text(word, bytes) {
        Ok(length) => TextAnswer {
            outcome: Outcome::Read,
            position: 0,
            length,
        },
        Err(reason) => TextAnswer {
            outcome: Outcome::from(reason),
            position: 0,
            length: 0,
        },
    }
}
