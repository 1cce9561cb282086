// What a gateway calls from C or Rust: the functions of the crate gateway, exported from a static library, each with the
// clauses of the function that it calls. None asks anything of its caller. include/gateway.h says what they do.
#![tactic(auto)]

ghost use Rattle.std.specs.Prelude.{◌≡◌, length};
ghost use Rattle.rules.specs.Answer.{input_of};
ghost use Rattle.position_alone.specs.Entry.{position_reading};
ghost use Rattle.validation.specs.Validation.{validation_reading, graph_answer};
ghost use Rattle.scene.specs.Scene.{scene_reading};
ghost use Rattle.update.specs.Update.{update_reading};
ghost use Rattle.metadata.specs.Entry.{metadata_reading};
ghost use Rattle.names.specs.NameAnswer.{name_question};
ghost use Rattle.exported.specs.Exported.{exported_graph, Exported, GraphExported};
ghost use Rattle.gateway.specs.Exported.{SceneExported, NameExported, ParentsExported};

use exported::{GatewayAnswer, GatewayGraphAnswer};
use gateway::GatewayScene;
use position::PositionSyntax;

// `gateway::gateway_scene`
#[unsafe(no_mangle)]
pub extern "C" fn gateway_scene(
    bytes: &[u8],
    offset: usize,
    recording: bool,
    words: &mut [u64],
) -> GatewayScene
    ensures { SceneExported (scene_reading (input_of bytes.now recording words.old) offset) recording words.old result words.new }
{
    gateway::gateway_scene(bytes, offset, recording, words)
}

// `gateway::gateway_update`
#[unsafe(no_mangle)]
pub extern "C" fn gateway_update(
    bytes: &[u8],
    offset: usize,
    recording: bool,
    words: &mut [u64],
    shapes: &mut [PositionSyntax],
) -> GatewayGraphAnswer
    ensures { GraphExported
        (update_reading (input_of bytes.now recording words.old) offset (length shapes.old) shapes.old)
        shapes.old recording words.old result shapes.new words.new }
{
    gateway::gateway_update(bytes, offset, recording, words, shapes)
}

// `gateway::gateway_position`
#[unsafe(no_mangle)]
pub extern "C" fn gateway_position(
    bytes: &[u8],
    offset: usize,
    recording: bool,
    words: &mut [u64],
    shape: &mut PositionSyntax,
    full: bool,
) -> GatewayAnswer
    ensures { Exported
        (position_reading (input_of bytes.now recording words.old) offset shape.old full)
        shape.old recording words.old result shape.new words.new }
{
    gateway::gateway_position(bytes, offset, recording, words, shape, full)
}

// `gateway::gateway_validation`
#[unsafe(no_mangle)]
pub extern "C" fn gateway_validation(shapes: &[PositionSyntax], at: usize) -> GatewayGraphAnswer
    ensures { result ≡ exported_graph (graph_answer (validation_reading (length shapes.now) shapes.now at)) }
{
    gateway::gateway_validation(shapes, at)
}

// `gateway::gateway_parents`
#[unsafe(no_mangle)]
pub extern "C" fn gateway_parents(
    shapes: &[PositionSyntax],
    parents: &[usize],
    packet: &mut [u8],
) -> GatewayAnswer
    ensures { ParentsExported shapes.now parents.now packet.old result packet.new }
{
    gateway::gateway_parents(shapes, parents, packet)
}

// `gateway::gateway_metadata`
#[unsafe(no_mangle)]
pub extern "C" fn gateway_metadata(
    bytes: &[u8],
    offset: usize,
    recording: bool,
    words: &mut [u64],
) -> GatewayAnswer
    ensures { Exported (metadata_reading (input_of bytes.now recording words.old) offset) tt recording words.old result tt words.new }
{
    gateway::gateway_metadata(bytes, offset, recording, words)
}

// `gateway::gateway_name`
#[unsafe(no_mangle)]
pub extern "C" fn gateway_name(word: u64, bytes: &mut [u8]) -> GatewayAnswer
    ensures { NameExported word (name_question word (length bytes.old)) bytes.old result bytes.new }
{
    gateway::gateway_name(word, bytes)
}
