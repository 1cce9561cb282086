// Shapes that a caller lends: the readings over `&mut PositionSyntax` and `&mut [PositionSyntax]`.
//
// A reading can be refused at its last bit, and for its parents after that, when all shapes are read. So an update is read into
// a copy, and the lent shapes are written once it is accepted: until then no part of it can be seen in them. Each call promises
// what the reading by value does (`Answered`, `GraphAnswered`), with what it leaves in the lent shapes as its value: those of the
// rule if it was read, and otherwise, in every place, what was there before.
#![tactic(auto)]

ghost use Rattle.std.specs.Prelude.{◌≡◌, ◌≤◌, length, take};
ghost use Rattle.rules.specs.Answer.{input_of, Answered};
ghost use Rattle.position_alone.specs.Entry.{position_reading};
ghost use Rattle.validation.specs.Validation.{validation_reading, graph_answer, GraphAnswered};
ghost use Rattle.update.specs.Update.{update_reading};

use parser::Parser;
use position::PositionSyntax;
use rules::Answer;
use validation::GraphAnswer;

// At most 63 lent shapes as an array, with the default after the last. More are not copied: they are refused whatever they are.
fn array_of(shapes: &[PositionSyntax]) -> [PositionSyntax; 63]
    ensures { length shapes.now ≤ 63 → take (length shapes.now) result ≡ shapes.now }
{
    let mut array = [PositionSyntax::default(); 63];
    if shapes.len() > Parser::POSITIONS {
        return array;
    }
    for (i, shape) in shapes.iter().enumerate() {
        array[i] = *shape;
    }
    array
}

// Every lent shape becomes that of the array.
fn write_back(shapes: &mut [PositionSyntax], array: &[PositionSyntax; 63])
    requires { length shapes.old ≤ 63 }
    ensures { shapes.new ≡ take (length shapes.old) array.now }
{
    for (i, shape) in shapes.iter_mut().enumerate() {
        *shape = array[i];
    }
}

// `position_alone::read_position`, of a lent shape.
pub fn read_position(
    bytes: &[u8],
    offset: usize,
    recording: bool,
    words: &mut [u64],
    shape: &mut PositionSyntax,
    full: bool,
) -> Answer
    ensures { Answered
        (position_reading (input_of bytes.now recording words.old) offset shape.old full)
        shape.old recording words.old result shape.new words.new }
{
    let read = position_alone::read_position(bytes, offset, recording, words, *shape, full);
    *shape = read.shape;
    read.answer
}

// `update::graph_update`, of all the lent shapes, which are themselves those from before.
pub fn graph_update(
    bytes: &[u8],
    offset: usize,
    recording: bool,
    words: &mut [u64],
    shapes: &mut [PositionSyntax],
) -> GraphAnswer
    ensures { GraphAnswered
        (update_reading (input_of bytes.now recording words.old) offset (length shapes.old) shapes.old)
        shapes.old recording words.old result shapes.new words.new }
{
    let mut next = array_of(shapes);
    let count = shapes.len();
    let graph = update::undecided::read_update(bytes, offset, recording, words, &mut next, count);
    if graph.answer.outcome.is_read() {
        write_back(shapes, &next);
    }
    graph
}

// `validation::validate`: nothing is changed.
pub fn validate_graph(shapes: &[PositionSyntax], at: usize) -> GraphAnswer
    ensures { result ≡ graph_answer (validation_reading (length shapes.now) shapes.now at) }
{
    validation::validate(shapes, at)
}
