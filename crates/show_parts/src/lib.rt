// The parts of a show file, each read in its place in the file: part 0 as a scene, any other as an update. The show reads
// them without their fields, and whoever lists a part reads it with them.
//
// A part may have fewer than eight bits after the end of its reading, all of them 0 (question 39). The library's readings do not ask
// this, so it is asked here of what they answer. An update is read into a copy of the shapes, and counts once that question is met.
#![tactic(auto)]

ghost use Rattle.std.specs.Prelude.{◌≡◌, ◌*◌, ◌≤◌, ◌<◌, [], false, length, take, drop};
ghost use Rattle.validation.specs.Validation.{GraphAnswered};
ghost use Rattle.scene.specs.Scene.{SceneAnswered};
ghost use Rattle.book.specs.Spare.{spare, part_graph};
ghost use Rattle.book.specs.Book.{packet_of, scene_part, update_part};
ghost use Rattle.show_header.specs.Header.{part_count, part_of};
ghost use Rattle.show_parts.specs.Parts.{packet};

use position::PositionSyntax;
use rules::{Answer, Outcome, Reason};
use scene::SceneAnswer;
use show_header::ShowFile;
use validation::GraphAnswer;

// Whether fewer than eight bits follow a part's end, all of them 0.
fn spare(part: &[u8], end: usize) -> bool
    requires few { length part.now ≤ 65536 }
    requires inside { end ≤ 8 * length part.now }
    ensures { result ≡ spare part.now end }
{
    let left = 8 * part.len() - end;
    left < 8 && bits::read(part, end, left) == 0
}

// Question 39, asked of what a reading answered: it is refused where it ended, if it was read and the question is not met.
fn part_graph(part: &[u8], graph: GraphAnswer) -> GraphAnswer
    requires few { length part.now ≤ 65536 }
    requires inside { graph.answer.position ≤ 8 * length part.now }
    ensures { result ≡ part_graph part.now graph }
{
    if !graph.answer.outcome.is_read() {
        return graph;
    }
    if spare(part, graph.answer.position) {
        return graph;
    }
    GraphAnswer {
        answer: Answer {
            outcome: Outcome::from(Reason::BitsFollow),
            position: graph.answer.position,
            fields: graph.answer.fields,
        },
        deepest: 0,
    }
}

// Part 0, a scene, from its bit `offset` on.
pub fn scene_part(
    file: &ShowFile<'_>,
    offset: usize,
    recording: bool,
    words: &mut [u64],
) -> SceneAnswer
    ensures { SceneAnswered
        (scene_part (packet_of (part_of file.now.bytes.now 0) offset recording words.old))
        recording words.old result words.new }
{
    let part = file.part(0);
    let scene = scene::read_scene(part, offset, recording, words);
    let graph = part_graph(part, scene.graph);
    if graph.answer.outcome.is_read() {
        return scene;
    }
    SceneAnswer {
        graph,
        count: 0,
        shapes: [PositionSyntax::default(); 63],
    }
}

// Part `k`, an update of the first `count` shapes, from its bit `offset` on. The others stay as they are.
pub fn update_part(
    file: &ShowFile<'_>,
    k: usize,
    offset: usize,
    recording: bool,
    words: &mut [u64],
    shapes: &mut [PositionSyntax; 63],
    count: usize,
) -> GraphAnswer
    requires part { k < part_count file.now.bytes.now }
    requires few { count ≤ 63 }
    ensures others { drop count shapes.new ≡ drop count shapes.old }
    ensures answered { GraphAnswered
        (update_part (packet_of (part_of file.now.bytes.now k) offset recording words.old) (take count shapes.old))
        (take count shapes.old) recording words.old result (take count shapes.new) words.new }
{
    let part = file.part(k);
    let mut next = *shapes;
    let read = update::undecided::read_update(part, offset, recording, words, &mut next, count);
    let graph = part_graph(part, read);
    if graph.answer.outcome.is_read() {
        *shapes = next;
    }
    graph
}

// Part 0 as the show reads it.
pub fn show_scene(file: &ShowFile<'_>) -> SceneAnswer
    ensures { SceneAnswered (scene_part (packet file.now.bytes.now 0)) false [] result [] }
{
    scene_part(file, 0, false, &mut [])
}

// Part `k`, an update of the first `count` shapes, as the show reads it.
pub fn show_update(
    file: &ShowFile<'_>,
    k: usize,
    shapes: &mut [PositionSyntax; 63],
    count: usize,
) -> GraphAnswer
    requires part { k < part_count file.now.bytes.now }
    requires few { count ≤ 63 }
    ensures others { drop count shapes.new ≡ drop count shapes.old }
    ensures answered { GraphAnswered
        (update_part (packet file.now.bytes.now k) (take count shapes.old))
        (take count shapes.old) false [] result (take count shapes.new) [] }
{
    update_part(file, k, 0, false, &mut [], shapes, count)
}
