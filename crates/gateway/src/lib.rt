// What a gateway calls from C or Rust: functions over numbers, slices and plain structs. None asks anything of its caller.
// include/gateway.h says what they do; the crate gateway_c exports them.
#![tactic(auto)]

ghost use Rattle.std.specs.Prelude.{◌≡◌, length};
ghost use Rattle.rules.specs.Answer.{input_of};
ghost use Rattle.position_alone.specs.Entry.{position_reading};
ghost use Rattle.validation.specs.Validation.{validation_reading, graph_answer};
ghost use Rattle.scene.specs.Scene.{scene_reading};
ghost use Rattle.update.specs.Update.{update_reading};
ghost use Rattle.metadata.specs.Entry.{metadata_reading};
ghost use Rattle.names.specs.NameAnswer.{name_question};
ghost use Rattle.exported.specs.Exported.{exported_graph, Exported, GraphExported};
ghost use Rattle.gateway.specs.Exported.{SceneExported, NameExported, ParentsExported};

use exported::{GatewayAnswer, GatewayGraphAnswer};
use position::PositionSyntax;

// A scene: its answer, the number of its positions and their shapes.
#[repr(C)]
#[derive(Clone, Copy)]
pub struct GatewayScene {
    pub answer: GatewayGraphAnswer,
    pub count: usize,
    pub shapes: [PositionSyntax; 63],
}

// `scene::read_scene`
pub fn gateway_scene(
    bytes: &[u8],
    offset: usize,
    recording: bool,
    words: &mut [u64],
) -> GatewayScene
    ensures { SceneExported (scene_reading (input_of bytes.now recording words.old) offset) recording words.old result words.new }
{
    let a = scene::read_scene(bytes, offset, recording, words);
    let answer = exported::exported_graph(a.graph);
    let shapes = a.shapes;
    GatewayScene {
        answer,
        count: a.count,
        shapes,
    }
}

// `lent::graph_update`
pub fn gateway_update(
    bytes: &[u8],
    offset: usize,
    recording: bool,
    words: &mut [u64],
    shapes: &mut [PositionSyntax],
) -> GatewayGraphAnswer
    ensures { GraphExported
        (update_reading (input_of bytes.now recording words.old) offset (length shapes.old) shapes.old)
        shapes.old recording words.old result shapes.new words.new }
{
    let a = lent::graph_update(bytes, offset, recording, &mut words[..], &mut shapes[..]);
    exported::exported_graph(a)
}

// `lent::read_position`
pub fn gateway_position(
    bytes: &[u8],
    offset: usize,
    recording: bool,
    words: &mut [u64],
    shape: &mut PositionSyntax,
    full: bool,
) -> GatewayAnswer
    ensures { Exported
        (position_reading (input_of bytes.now recording words.old) offset shape.old full)
        shape.old recording words.old result shape.new words.new }
{
    let a = lent::read_position(bytes, offset, recording, &mut words[..], &mut *shape, full);
    exported::exported(a)
}

// `lent::validate_graph`
pub fn gateway_validation(shapes: &[PositionSyntax], at: usize) -> GatewayGraphAnswer
    ensures { result ≡ exported_graph (graph_answer (validation_reading (length shapes.now) shapes.now at)) }
{
    let a = lent::validate_graph(&shapes[..], at);
    exported::exported_graph(a)
}

// `parent_writer::write_parents`
pub fn gateway_parents(
    shapes: &[PositionSyntax],
    parents: &[usize],
    packet: &mut [u8],
) -> GatewayAnswer
    ensures { ParentsExported shapes.now parents.now packet.old result packet.new }
{
    let written = parent_writer::write_parents(shapes, parents, packet);
    let outcome = written.outcome;
    exported::gateway_answer(outcome, written.position, written.length)
}

// `metadata::read_metadata`
pub fn gateway_metadata(
    bytes: &[u8],
    offset: usize,
    recording: bool,
    words: &mut [u64],
) -> GatewayAnswer
    ensures { Exported (metadata_reading (input_of bytes.now recording words.old) offset) tt recording words.old result tt words.new }
{
    let a = metadata::read_metadata(bytes, offset, recording, words);
    exported::exported(a)
}

// `names::name_text`
pub fn gateway_name(word: u64, bytes: &mut [u8]) -> GatewayAnswer
    ensures { NameExported word (name_question word (length bytes.old)) bytes.old result bytes.new }
{
    let a = names::name_text(word, bytes);
    let outcome = a.outcome;
    exported::gateway_answer(outcome, a.position, a.length)
}
