// The reading of an update before it is decided whether it counts, for `graph_update` here and for the crates `lent` and `show_parts`
// alone. Unless the update was read, the first `count` shapes that `read_update` leaves are free: nothing is promised of them. Whether
// they count is decided by its callers. Question 2 is asked elsewhere too, of shapes for which an update is written.
ghost use Rattle.std.specs.Prelude.{◌≡◌, ℕ, ◌≤◌, ◌<◌, length, get_or, take, IfOk};
ghost use Rattle.rules.specs.Answer.{input_of, entry_then};
ghost use Rattle.parser.specs.Met.{Met, giving};
ghost use Rattle.rules.specs.Reason.{IsRefusal, asked};
ghost use Rattle.position.specs.Shape.{default};
ghost use Rattle.position.specs.Formed.{Shaped};
ghost use Rattle.validation.specs.Validation.{largest_rank};
ghost use Rattle.update.specs.Update.{all_shaped, graph_update, shapes_question, update_reading, Entered, UpdateGiven};

use parser::{Parser, tri};
use position::PositionSyntax;
use rules::Reason;
use validation::GraphAnswer;

// Whether no shape has a precision above 24.
fn all_shaped(shapes: &[PositionSyntax]) -> bool
    ensures { result ≡ all_shaped shapes.now }
{
    for shape in shapes {
        if !shape.is_shaped() {
            return false;
        }
    }
    true
}

// Question 2: at most 63 shapes, no precision above 24.
pub fn shapes_question(shapes: &[PositionSyntax]) -> Result<(), Reason>
    ensures number { asked result ≡ shapes_question (length shapes.now) shapes.now }
    ensures refuses { IsRefusal result }
{
    if shapes.len() > Parser::POSITIONS {
        return Err(Reason::BadShapes);
    }
    if all_shaped(shapes) {
        return Ok(());
    }
    Err(Reason::BadShapes)
}

// The same of the first `count` shapes.
fn question(shapes: &[PositionSyntax; 63], count: usize) -> Result<(), Reason>
    ensures number { asked result ≡ shapes_question count (take count shapes.now) }
    ensures refuses { IsRefusal result }
{
    if count > Parser::POSITIONS {
        return Err(Reason::BadShapes);
    }
    shapes_question(&shapes[..count])
}

// The positions of an update, whose parents are validated after the last of them; it gives their largest rank.
fn updated(parser: &mut Parser<'_>, shapes: &mut [PositionSyntax]) -> Result<usize, Reason>
    requires shapes_bound { length shapes.old ≤ 63 }
    requires by_index { (i : ℕ) → i < length shapes.old → Shaped (get_or shapes.old i default) }
    ensures met { Met (graph_update shapes.old) parser.old (giving shapes.new result) parser.new }
    ensures deepest { IfOk result (λ d. d ≡ largest_rank shapes.new) }
{
    tri!(positions::positions(parser, shapes, false));
    validation::validated(shapes)
}

// The questions of an entry, and an update.
fn entered(
    parser: &mut Parser<'_>,
    offset: usize,
    shapes: &mut [PositionSyntax; 63],
    count: usize,
) -> Result<usize, Reason>
    ensures { Entered
        (entry_then (length parser.old.bytes.now) (shapes_question count (take count shapes.old)) offset
        (graph_update (take count shapes.old)))
        count shapes.old parser.old result shapes.new parser.new }
{
    let own = question(shapes, count);
    tri!(parser.entry(own, offset));
    updated(parser, &mut shapes[..count])
}

// The reading of an update of the first `count` shapes, from the bit `offset` on. If it was read they are those of the update.
pub fn read_update(
    bytes: &[u8],
    offset: usize,
    recording: bool,
    words: &mut [u64],
    shapes: &mut [PositionSyntax; 63],
    count: usize,
) -> GraphAnswer
    ensures { UpdateGiven
        (update_reading (input_of bytes.now recording words.old) offset count (take count shapes.old))
        count shapes.old recording words.old result shapes.new words.new }
{
    let mut parser = Parser::new(bytes, words, recording, 0);
    let ended = entered(&mut parser, offset, shapes, count);
    validation::graph_ended(&parser, ended)
}
