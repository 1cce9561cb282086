// Whether what a call answered and left is what a record of the oracle says: its answer, its shapes, and all that was lent to it,
// the words of fields or the bytes of a text or a packet.
#![tactic(auto)]

ghost use Rattle.std.specs.Prelude.{◌≡◌, ◌↔◌, ℕ, nat_eq, Some, IsTrue, List, length, slice_index};
ghost use Rattle.bit_writer.specs.Bits.{bytes_for};
ghost use Rattle.record.specs.Record.{big_endian, field_of, answer_in, NextIs};
ghost use Rattle.recorded.specs.Recorded.{blanks, blank_word, are_blank, text_answer};

use position::PositionSyntax;
use record::Head;
use rules::{Answer, Outcome};
use std::io::Read;
use text::TextAnswer;

// A derived `==` of answers and of shapes would call functions of the kit in crates of which `linked` needs every link.
fn same_answer(one: Answer, other: Answer) -> bool
    ensures { IsTrue result ↔ (one ≡ other) }
{
    let same = match (one.outcome, other.outcome) {
        (Outcome::Read, Outcome::Read) => true,
        (Outcome::Refused(number), Outcome::Refused(recorded)) => number == recorded,
        (Outcome::Stopped(number), Outcome::Stopped(recorded)) => number == recorded,
        _ => false,
    };
    same && one.position == other.position && one.fields == other.fields
}

// Whether an answer is the recorded one.
pub fn answer_agrees(head: &Head, answer: Answer) -> bool
    ensures { IsTrue result ↔ (answer_in head.now.0 ≡ Some answer) }
{
    match head.answer() {
        Some(recorded) => same_answer(recorded, answer),
        None => false,
    }
}

pub fn same_shape(one: PositionSyntax, other: PositionSyntax) -> bool
    ensures { IsTrue result ↔ (one ≡ other) }
{
    one.parent_dynamic == other.parent_dynamic
        && one.range_dynamic == other.range_dynamic
        && one.position_precision == other.position_precision
        && one.rotation_precision == other.rotation_precision
        && one.parent == other.parent
        && one.polar == other.polar
}

// What stands at one place of what is lent to a call: a word of fields, or a byte of a text or a packet.
pub trait Place: Copy + PartialEq {
    ghost blank_of: { ℕ → Self };

    // What stands at a place before the call.
    fn blank(place: usize) -> Self
        ensures { result ≡ blank_of place };

    ghost value_of: { List ℕ → Self };

    ghost size: { ℕ };

    // What the input has next.
    fn next<R: Read>(input: &mut R) -> Self
        ensures { NextIs size value_of (R.remaining input.old) (R.remaining input.new) result };
}

impl Place for u64 {
    ghost blank_of = { blank_word };

    ghost value_of = { big_endian };

    ghost size = { 8 };

    fn blank(place: usize) -> u64 {
        0xA5A5A5A500000000 | (place % 65536) as u64
    }

    fn next<R: Read>(input: &mut R) -> u64 {
        record::next_word(input)
    }
}

// No text has such a byte. Its last bit is 1, which a packet's is not where it is left over.
impl Place for u8 {
    ghost blank_of = { λ _. 165 };

    ghost value_of = { λ bytes. slice_index bytes 0 };

    ghost size = { 1 };

    fn blank(_place: usize) -> u8 {
        0xA5
    }

    fn next<R: Read>(input: &mut R) -> u8 {
        record::next_bytes::<1, R>(input)[0]
    }
}

// Blanks what is lent, before the call.
#[tactic(auto, using(crate::proofs::Recorded::blank_more))]
pub fn clear<T: Place>(lent: &mut [T])
    ensures { lent.new ≡ blanks T.blank_of (length lent.old) }
{
    for (i, place) in lent.iter_mut().enumerate() {
        *place = T::blank(i);
    }
}

// Whether the places from `n` on hold what they held before the call.
fn are_blank<T: Place>(lent: &[T], n: usize) -> bool
    ensures { result ≡ are_blank T.eq T.blank_of n lent.now }
{
    lent.iter()
        .enumerate()
        .skip(n)
        .all(|(i, place)| *place == T::blank(i))
}

// Whether the first `n` places that were lent hold what the input has next, and those after them what they held.
pub fn is_recorded<T: Place, R: Read>(input: &mut R, lent: &[T], n: usize) -> bool
    ensures { IsTrue result → IsTrue (are_blank T.eq T.blank_of n lent.now) }
{
    let mut same = true;
    for place in lent.iter().take(n) {
        if *place != T::next(input) {
            same = false;
        }
    }
    same && are_blank(lent, n)
}

// Whether the first `n` shapes are the next of the input, and the others those of `others`.
pub fn same_shapes<R: Read>(
    input: &mut R,
    shapes: [PositionSyntax; 63],
    n: usize,
    others: [PositionSyntax; 63],
) -> bool {
    let mut same = true;
    for (i, (shape, other)) in shapes.into_iter().zip(others).enumerate() {
        let expected = if i < n {
            record::next_shape(input)
        } else {
            other
        };
        if !same_shape(shape, expected) {
            same = false;
        }
    }
    same
}

// Whether an answer is as recorded, and the first `n` bytes that were lent blank hold what the input has next.
fn bytes_agree<R: Read>(input: &mut R, head: &Head, answer: Answer, bytes: &[u8], n: usize) -> bool
    ensures answer { IsTrue result → (answer_in head.now.0 ≡ Some answer) }
    ensures others { IsTrue result → IsTrue (are_blank nat_eq (λ _. 165) n bytes.now) }
{
    let same = is_recorded(input, bytes, n);
    same && answer_agrees(head, answer)
}

// Whether a text, put into bytes that were blank, and its answer are as recorded. The record has the text's length in the
// place of the fields.
pub fn text_agrees<R: Read>(input: &mut R, head: &Head, answer: TextAnswer, bytes: &[u8]) -> bool
    ensures answer { IsTrue result → (answer_in head.now.0 ≡ Some (text_answer answer)) }
    ensures others { let n = field_of head.now.0 30 34 in IsTrue result → IsTrue (are_blank nat_eq (λ _. 165) n bytes.now) }
{
    let answer = Answer {
        outcome: answer.outcome,
        position: answer.position,
        fields: answer.length,
    };
    bytes_agree(input, head, answer, bytes, head.fields())
}

// Whether a packet, put into bytes that were blank, and its answer are as recorded. Both have the packet's length in bits in the
// place of the fields.
pub fn packet_agrees<R: Read>(input: &mut R, head: &Head, answer: Answer, bytes: &[u8]) -> bool
    ensures answer { IsTrue result → (answer_in head.now.0 ≡ Some answer) }
    ensures others { let n = bytes_for (field_of head.now.0 30 34) in IsTrue result → IsTrue (are_blank nat_eq (λ _. 165) n bytes.now) }
{
    let n = bit_writer::bytes_for(head.fields());
    bytes_agree(input, head, answer, bytes, n)
}
