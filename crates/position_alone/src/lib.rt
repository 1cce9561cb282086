// A position read by itself: document 01 has it called alone, with the entry questions of an update and the names of the first
// position of a scene. If it is refused, the shape is as it came.
#![tactic(auto)]

ghost use Rattle.std.specs.Prelude.{◌≡◌, length};
ghost use Rattle.rules.specs.Block.{positions};
ghost use Rattle.rules.specs.Answer.{input_of, entry_then, Answered};
ghost use Rattle.parser.specs.Met.{Met};
ghost use Rattle.rules.specs.Reason.{IsRefusal, asked};
ghost use Rattle.position.specs.Position.{position};
ghost use Rattle.position_alone.specs.Entry.{shape_question, position_reading};

use parser::{Parser, tri};
use position::PositionSyntax;
use rules::{Answer, Names, Reason, block};

// What a position reading called alone answers: the shape is as it came unless it was read.
#[derive(Clone, Copy)]
pub struct PositionAnswer {
    pub answer: Answer,
    pub shape: PositionSyntax,
}

// Question 2 of an update, asked of one shape: whether it is met.
fn shape_question(shape: PositionSyntax) -> Result<(), Reason>
    ensures refusal { IsRefusal result }
    ensures number { asked result ≡ shape_question shape }
{
    if shape.is_shaped() {
        Ok(())
    } else {
        Err(Reason::BadShapes)
    }
}

// The questions of an entry, and a position with the names of the first one of a scene.
fn entered(
    parser: &mut Parser<'_>,
    offset: usize,
    shape: PositionSyntax,
    full: bool,
) -> Result<PositionSyntax, Reason>
    ensures { Met
        (entry_then (length parser.old.bytes.now) (shape_question shape) offset (position (positions 0) shape full))
        parser.old result parser.new }
{
    tri!(parser.entry(shape_question(shape), offset));
    let first = Names {
        word: block::POSITIONS,
    };
    position::position(parser, first, shape, full)
}

// A position from the bit `offset` on, full or of an update.
pub fn read_position(
    bytes: &[u8],
    offset: usize,
    recording: bool,
    words: &mut [u64],
    shape: PositionSyntax,
    full: bool,
) -> PositionAnswer
    ensures { Answered
        (position_reading (input_of bytes.now recording words.old) offset shape full)
        shape recording words.old result.answer result.shape words.new }
{
    let mut parser = Parser::new(bytes, words, recording, 0);
    match entered(&mut parser, offset, shape, full) {
        Ok(next) => PositionAnswer {
            answer: parser.answer(Ok(())),
            shape: next,
        },
        Err(reason) => PositionAnswer {
            answer: parser.answer(Err(reason)),
            shape,
        },
    }
}
