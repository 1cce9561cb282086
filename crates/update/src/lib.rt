// An update of a scene: passive.rs, `graph_update`.
#![tactic(auto)]

pub mod undecided;

ghost use Rattle.std.specs.Prelude.{take};
ghost use Rattle.rules.specs.Answer.{input_of};
ghost use Rattle.update.specs.Update.{update_reading, UpdateAnswered};

use position::PositionSyntax;
use validation::GraphAnswer;

// What an update answers: the shapes, which are as they came unless it was read.
#[derive(Clone, Copy)]
pub struct UpdateAnswer {
    pub graph: GraphAnswer,
    pub shapes: [PositionSyntax; 63],
}

// An update of the first `count` shapes, from the bit `offset` on: it counts from its acceptance, or never.
pub fn graph_update(
    bytes: &[u8],
    offset: usize,
    recording: bool,
    words: &mut [u64],
    shapes: [PositionSyntax; 63],
    count: usize,
) -> UpdateAnswer
    ensures { UpdateAnswered
        (update_reading (input_of bytes.now recording words.old) offset count (take count shapes))
        count shapes recording words.old result words.new }
{
    let mut next = shapes;
    let graph = undecided::read_update(bytes, offset, recording, words, &mut next, count);
    if graph.answer.outcome.is_read() {
        return UpdateAnswer {
            graph,
            shapes: next,
        };
    }
    UpdateAnswer { graph, shapes }
}
