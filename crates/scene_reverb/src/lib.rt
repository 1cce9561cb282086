// A scene reverb, kind 9 of renderer data: passive_renderer.rs. The names begin with the word `q`.
#![tactic(auto)]

ghost use Rattle.parser.specs.Met.{Met};
ghost use Rattle.scene_reverb.specs.SceneReverb.{index_and_reverb, resource_and_reverb, room_geometry, scene_reverb};

use parser::{Parser, tri};
use rules::{Names, Reason, leaf};

// Kind 9, type 1: an index and a reverb.
fn index_and_reverb(parser: &mut Parser<'_>, q: Names<38>) -> Result<(), Reason>
    ensures { Met (index_and_reverb q.word) parser.old result parser.new }
{
    tri!(parser.take(q.word + leaf::INDEX, 10));
    common_resources::metadata_reverb(parser, q)
}

// Kind 9, type 2: a resource, an index and a reverb.
fn resource_and_reverb(parser: &mut Parser<'_>, q: Names<38>) -> Result<(), Reason>
    ensures { Met (resource_and_reverb q.word) parser.old result parser.new }
{
    let resource = Names {
        word: q.word + leaf::RESOURCE,
    };
    tri!(common_resources::metadata_resource(parser, resource));
    index_and_reverb(parser, q)
}

// Kind 9, type 3: a fallback other than 0 stops the reading.
fn room_geometry(parser: &mut Parser<'_>, q: Names<38>) -> Result<(), Reason>
    ensures { Met (room_geometry q.word) parser.old result parser.new }
{
    let resource = Names {
        word: q.word + leaf::RESOURCE,
    };
    tri!(common_resources::metadata_resource(parser, resource));
    let fallback = tri!(parser.take(q.word + leaf::FALLBACK_TYPE, 3));
    if fallback == 0 {
        let widths: [usize; 32] = [32; 32];
        return common_resources::values(parser, q.word + leaf::RENDERER_VALUES, &widths);
    }
    Err(Reason::RoomGeometryFallback)
}

// Kind 9: a scene reverb. A type is used by its arm alone, and an enum would only name each number twice.
pub fn scene_reverb(parser: &mut Parser<'_>, q: Names<38>) -> Result<(), Reason>
    ensures { Met (scene_reverb q.word) parser.old result parser.new }
{
    let kind = tri!(parser.take(q.word + leaf::TYPE, 3));
    match kind {
        0 => Ok(()),
        1 => index_and_reverb(parser, q),
        2 => resource_and_reverb(parser, q),
        3 => room_geometry(parser, q),
        _ => Err(Reason::ReverbType),
    }
}
