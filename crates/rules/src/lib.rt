// What a reading comes to: its fields, its answer, and why it ended before it was done.
//
// A rule (specs/Rule.antt) says what is asked of the bits next, and what comes after. One function, `reading`
// (specs/Reading.antt), says what a rule means for given bytes: read, refused or stopped, where, and with which fields. So what
// holds of every reading is shown once, by induction over rules (crate `laws`), and whatever reads promises one thing, that it
// goes as its rule says (`Met`, crate `parser`).
//
// A field is five words: where it begins, how long it is, the kind of its value, the value, and its name. A name is a word too
// (docs/FIELDS.md): what reads a structure is handed the `Names` that its fields begin with, and adds a leaf to them.
#![tactic(auto)]

ghost use Rattle.std.specs.Prelude.{◌≡◌};
ghost use Rattle.rules.specs.Reading.{is_read};
ghost use Rattle.rules.specs.Words.{kind_of, word_of, value_at, field_at};

pub mod block;
pub mod leaf;
pub mod names;
pub mod reason;

pub use names::Names;
pub use reason::Reason;

// How a reading ended, as it is told, with its number. Callers meet numbers: the papers give them, and they cross to C.
#[derive(Clone, Copy)]
pub enum Outcome {
    Read,
    Refused(u16),
    Stopped(u16),
}

impl Outcome {
    pub fn is_read(self) -> bool
        ensures { result ≡ is_read self }
    {
        match self {
            Outcome::Read => true,
            Outcome::Refused(_) => false,
            Outcome::Stopped(_) => false,
        }
    }
}

// What every reading answers: the outcome with its number, the bit position, and the fields counted.
#[derive(Clone, Copy)]
pub struct Answer {
    pub outcome: Outcome,
    pub position: usize,
    pub fields: usize,
}

// What a field holds: a flag, a number, or a payload of so many bits or bytes.
#[derive(Clone, Copy)]
pub enum FieldValue {
    Flag(bool),
    Number(u64),
    Bits(u64),
    Bytes(u64),
}

// `ConfigField`: a recorded field, with its name word.
#[derive(Clone, Copy)]
pub struct Field {
    pub bit_offset: usize,
    pub bit_length: usize,
    pub value: FieldValue,
    pub name: u64,
}

impl FieldValue {
    // The word that tells the kind of a value.
    pub fn kind(self) -> u64
        ensures { result ≡ kind_of self }
    {
        match self {
            FieldValue::Flag(_) => 0,
            FieldValue::Number(_) => 1,
            FieldValue::Bits(_) => 2,
            FieldValue::Bytes(_) => 3,
        }
    }

    // The value itself as a word: 1 for a flag that is set, and of a payload its length.
    pub fn word(self) -> u64
        ensures { result ≡ word_of self }
    {
        match self {
            FieldValue::Flag(b) => { if b { 1 } else { 0 } }
            FieldValue::Number(n) => n,
            FieldValue::Bits(n) => n,
            FieldValue::Bytes(n) => n,
        }
    }

    // The value of a kind and a number, if they make one: a flag is 0 or 1.
    fn from_words(kind: u64, number: u64) -> Option<FieldValue>
        ensures { result ≡ value_at kind number }
    {
        match kind {
            0 if number <= 1 => Some(FieldValue::Flag(number == 1)),
            1 => Some(FieldValue::Number(number)),
            2 => Some(FieldValue::Bits(number)),
            3 => Some(FieldValue::Bytes(number)),
            _ => None,
        }
    }
}

impl Field {
    // The field of that index in recorded words, if they hold one.
    pub fn at(words: &[u64], index: usize) -> Option<Field>
        ensures { result ≡ field_at words.now index }
    {
        if words.len() / 5 <= index {
            return None;
        }
        let k = 5 * index;
        match FieldValue::from_words(words[k + 2], words[k + 3]) {
            Some(value) => Some(Field {
                bit_offset: words[k] as usize,
                bit_length: words[k + 1] as usize,
                value,
                name: words[k + 4],
            }),
            None => None,
        }
    }
}
