// A scene: passive.rs, `scene_graph`.
#![tactic(auto)]

ghost use Rattle.std.specs.Prelude.{◌≡◌, length};
ghost use Rattle.rules.specs.Answer.{input_of, entry_then};
ghost use Rattle.scene.specs.Scene.{defaults, scene_fields, scene_graph, scene_reading, SceneAnswered, TookScene, TookGraph};

use parser::{Parser, tri};
use position::PositionSyntax;
use rules::{Reason, block, leaf};
use validation::GraphAnswer;

// What a scene answers: the number of its positions, and their shapes, of which those beyond it are the default. Unless
// it was read there are none.
#[derive(Clone, Copy)]
pub struct SceneAnswer {
    pub graph: GraphAnswer,
    pub count: usize,
    pub shapes: [PositionSyntax; 63],
}

// How many positions a scene declares, and the largest rank of them.
#[derive(Clone, Copy)]
struct SceneGraph {
    count: usize,
    deepest: usize,
}

// The shapes of 63 positions before anything is read.
fn defaults() -> [PositionSyntax; 63]
    ensures { result ≡ defaults }
{
    [PositionSyntax::default(); 63]
}

// The fields of a scene: the number of its positions, and all of them, full, each in the place of a default shape.
fn scene_fields(parser: &mut Parser<'_>, shapes: &mut [PositionSyntax; 63]) -> Result<usize, Reason>
    requires { shapes.old ≡ defaults }
    ensures { TookScene scene_fields parser.old result shapes.new parser.new }
{
    let count = tri!(parser.drc_count(block::SCENE_GRAPH + leaf::COUNT, 6, 18)) as usize;
    tri!(positions::positions(parser, &mut shapes[..count], true));
    Ok(count)
}

// A scene, whose parents are validated after its last position.
fn scene_graph(
    parser: &mut Parser<'_>,
    shapes: &mut [PositionSyntax; 63],
) -> Result<SceneGraph, Reason>
    requires { shapes.old ≡ defaults }
    ensures { TookGraph scene_graph parser.old result shapes.new parser.new }
{
    let count = tri!(scene_fields(parser, shapes));
    let deepest = tri!(validation::validated(&shapes[..count]));
    Ok(SceneGraph { count, deepest })
}

// The questions of an entry, and a scene.
fn entered(
    parser: &mut Parser<'_>,
    offset: usize,
    shapes: &mut [PositionSyntax; 63],
) -> Result<SceneGraph, Reason>
    requires { shapes.old ≡ defaults }
    ensures { TookGraph (entry_then (length parser.old.bytes.now) 0 offset scene_graph) parser.old result shapes.new parser.new }
{
    tri!(parser.entry(Ok(()), offset));
    scene_graph(parser, shapes)
}

// A scene from the bit `offset` on.
pub fn read_scene(bytes: &[u8], offset: usize, recording: bool, words: &mut [u64]) -> SceneAnswer
    ensures { SceneAnswered (scene_reading (input_of bytes.now recording words.old) offset) recording words.old result words.new }
{
    let mut parser = Parser::new(bytes, words, recording, 0);
    let mut shapes = defaults();
    match entered(&mut parser, offset, &mut shapes) {
        Ok(scene) => SceneAnswer {
            graph: validation::graph_ended(&parser, Ok(scene.deepest)),
            count: scene.count,
            shapes,
        },
        Err(reason) => SceneAnswer {
            graph: validation::graph_ended(&parser, Err(reason)),
            count: 0,
            shapes: defaults(),
        },
    }
}
