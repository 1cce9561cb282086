// A record of the oracle, as replay reads it from its input: its head, and what the input has after it, shapes, numbers and
// bytes. `oracle/README.md` says how a record is laid out.
#![tactic(auto)]

ghost use Rattle.std.specs.Prelude.{◌≡◌, ◌≤◌, ◌==◌, ℕ, IfOk, length, take, slice_index};
ghost use Rattle.std.specs.Io.KnownBytes.{Consumes};
ghost use Rattle.record.specs.Record.{big_endian, Decodes, field_of, outcome_from, answer_in};
ghost use Rattle.record.specs.Record.{bytes_of, BeginsWithNext, NextIs, shape_of};

use position::PositionSyntax;
use rules::{Answer, Outcome};
use std::io::Read;

// What follows in the input is no record.
#[derive(Clone, Copy)]
pub struct NoRecord;

// What a record asks for: a reading, a text, or a packet of new parents.
#[derive(Clone, Copy)]
pub enum Kind {
    Reading(Reading),
    Name,
    Show,
    Parents,
}

// What is read.
#[derive(Clone, Copy)]
pub enum Reading {
    Fields,
    Scene,
    Update,
    Position,
    Validation,
    Metadata,
}

impl TryFrom<u64> for Kind {
    type Error = NoRecord;

    ghost try_from_gives = { Decodes };

    fn try_from(code: u64) -> Result<Kind, NoRecord> {
        match code {
            0 => Ok(Kind::Reading(Reading::Fields)),
            1 => Ok(Kind::Reading(Reading::Scene)),
            2 => Ok(Kind::Reading(Reading::Update)),
            3 => Ok(Kind::Reading(Reading::Position)),
            4 => Ok(Kind::Reading(Reading::Validation)),
            5 => Ok(Kind::Reading(Reading::Metadata)),
            6 => Ok(Kind::Name),
            7 => Ok(Kind::Show),
            8 => Ok(Kind::Parents),
            _ => Err(NoRecord),
        }
    }
}

// The number that bytes hold, the highest first.
#[tactic(auto, using(crate::proofs::Record::number_more), unfolding(crate::specs::Record::big_endian))]
pub fn number(bytes: &[u8]) -> u64
    ensures { result ≡ big_endian bytes.now }
{
    let mut number = 0;
    for &byte in bytes {
        number = number << 8 | u64::from(byte);
    }
    number
}

// Reads the next bytes of the input, and gives how many there are: a read that fails ends it.
pub fn read_bytes<R: Read>(input: &mut R, bytes: &mut [u8]) -> usize
    ensures in_bounds { result ≤ length bytes.new }
    ensures read { Consumes (R.remaining input.old) (R.remaining input.new) (take result bytes.new) }
{
    match input::read_input(input, bytes) {
        Ok(length) => length,
        Err(failed) => failed.length,
    }
}

// The next bytes of the input. Those that are not there are 0, and show as a wrong answer.
pub fn next_bytes<const N: usize, R: Read>(input: &mut R) -> [u8; N]
    ensures { BeginsWithNext (R.remaining input.old) (R.remaining input.new) result }
{
    let mut bytes = [0; N];
    read_bytes(input, &mut bytes);
    bytes
}

// The head of a record.
#[derive(Clone, Copy)]
pub struct Head([u8; 34]);

impl Head {
    // The next head of the input, if it does not end before it.
    pub fn next<R: Read>(input: &mut R) -> Result<Option<Head>, NoRecord>
        ensures { IfOk result (λ head. Consumes (R.remaining input.old) (R.remaining input.new) (bytes_of head)) }
    {
        let mut bytes = [0; 34];
        match read_bytes(input, &mut bytes) {
            0 => Ok(None),
            34 => Ok(Some(Head(bytes))),
            _ => Err(NoRecord),
        }
    }

    // The number of the bytes from one to another.
    fn number(&self, from: usize, to: usize) -> u64
        requires order { from ≤ to }
        requires inside { to ≤ 34 }
        ensures { result ≡ field_of self.now.0 from to }
    {
        number(&self.0[from..to])
    }

    pub fn kind(&self) -> Result<Kind, NoRecord>
        ensures { Decodes (slice_index self.now.0 0) result }
    {
        Kind::try_from(u64::from(self.0[0]))
    }

    pub fn recording(&self) -> bool
        ensures { result ≡ slice_index self.now.0 1 == 1 }
    {
        self.0[1] == 1
    }

    // How many words are lent for fields, or bytes for a name or a packet.
    pub fn room(&self) -> usize
        ensures { result ≡ field_of self.now.0 2 6 }
    {
        self.number(2, 6) as usize
    }

    // The bit that a reading begins at, or the position that a validation is handed.
    pub fn offset(&self) -> usize
        ensures { result ≡ field_of self.now.0 6 14 }
    {
        self.word() as usize
    }

    // A name's word, which stands in the place of the offset.
    pub fn word(&self) -> u64
        ensures { result ≡ field_of self.now.0 6 14 }
    {
        self.number(6, 14)
    }

    // How many new parents there are, which stands in the place of the offset too.
    pub fn parents(&self) -> usize
        ensures { result ≡ field_of self.now.0 6 14 }
    {
        self.offset()
    }

    // How many bytes the input has.
    pub fn size(&self) -> usize
        ensures { result ≡ field_of self.now.0 14 18 }
    {
        self.number(14, 18) as usize
    }

    // How many operations or shapes are handed in, or whether a position is full.
    pub fn count(&self) -> usize
        ensures { result ≡ field_of self.now.0 18 20 }
    {
        self.number(18, 20) as usize
    }

    // How many fields are counted, how long a text is in bytes, or a packet in bits.
    pub fn fields(&self) -> usize
        ensures { result ≡ field_of self.now.0 30 34 }
    {
        self.number(30, 34) as usize
    }

    // How the call ended, if a call can end so.
    fn outcome(&self) -> Option<Outcome>
        ensures { result ≡ outcome_from (slice_index self.now.0 20) (slice_index self.now.0 21) }
    {
        let number = u16::from(self.0[21]);
        match (self.0[20], number) {
            (0, 0) => Some(Outcome::Read),
            (1, _) => Some(Outcome::Refused(number)),
            (2, _) => Some(Outcome::Stopped(number)),
            _ => None,
        }
    }

    // The recorded answer, if it can be one.
    pub fn answer(&self) -> Option<Answer>
        ensures { result ≡ answer_in self.now.0 }
    {
        Some(Answer {
            outcome: self.outcome()?,
            position: self.number(22, 30) as usize,
            fields: self.fields(),
        })
    }
}

// The next word, of 8 bytes.
pub fn next_word<R: Read>(input: &mut R) -> u64
    ensures { NextIs 8 big_endian (R.remaining input.old) (R.remaining input.new) result }
{
    number(&next_bytes::<8, R>(input))
}

// The next count, of 2 bytes.
pub fn next_count<R: Read>(input: &mut R) -> usize
    ensures { NextIs 2 big_endian (R.remaining input.old) (R.remaining input.new) result }
{
    number(&next_bytes::<2, R>(input)) as usize
}

// The next largest rank, of 1 byte.
pub fn next_rank<R: Read>(input: &mut R) -> usize
    ensures { NextIs 1 big_endian (R.remaining input.old) (R.remaining input.new) result }
{
    number(&next_bytes::<1, R>(input)) as usize
}

// The next shape: flags (1 byte: parent dynamic, range dynamic, polar from the lowest bit), three bytes of 0, the
// precisions (4 each) and the parent (8).
pub fn next_shape<R: Read>(input: &mut R) -> PositionSyntax
    ensures { NextIs 20 shape_of (R.remaining input.old) (R.remaining input.new) result }
{
    let bytes = next_bytes::<20, R>(input);
    let flags = bytes[0];
    PositionSyntax {
        parent_dynamic: flags & 1 != 0,
        range_dynamic: flags & 2 != 0,
        position_precision: number(&bytes[4..8]) as usize,
        rotation_precision: number(&bytes[8..12]) as usize,
        parent: number(&bytes[12..]) as usize,
        polar: flags & 4 != 0,
    }
}

// A shape beyond the declared ones, which no reading may look at: its precisions and its parent would be refused.
const UNDECLARED: PositionSyntax = PositionSyntax {
    parent_dynamic: true,
    range_dynamic: true,
    position_precision: 100,
    rotation_precision: 200,
    parent: 300,
    polar: true,
};

// The next `n` shapes, and undeclared ones after them.
pub fn next_shapes<const N: usize, R: Read>(input: &mut R, n: usize) -> [PositionSyntax; N] {
    let mut shapes = [UNDECLARED; N];
    for shape in shapes.iter_mut().take(n) {
        *shape = next_shape(input);
    }
    shapes
}

// The next `n` new parents, of 8 bytes each, and zeros after them.
pub fn next_parents<const N: usize, R: Read>(input: &mut R, n: usize) -> [usize; N] {
    let mut parents = [0; N];
    for parent in parents.iter_mut().take(n) {
        *parent = next_word(input) as usize;
    }
    parents
}
