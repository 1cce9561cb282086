// Renderer data of a group: passive_renderer.rs, `renderer_data`. The names of a parameter begin with the word `q`.
#![tactic(auto)]

ghost use Rattle.std.specs.Prelude.{◌<◌};
ghost use Rattle.rules.specs.Block.{data_parameters};
ghost use Rattle.parser.specs.Met.{Met};
ghost use Rattle.renderer.specs.Renderer.{renderer_parameter, parameter, renderer_data};

use parser::{Parser, tri};
use rules::{Names, Reason, block, leaf};

// The `match` on the kind of a parameter. A kind is used by its arm alone, and an enum would only name each number twice.
fn renderer_parameter(parser: &mut Parser<'_>, q: Names<38>, kind: u64) -> Result<(), Reason>
    ensures { Met (renderer_parameter q.word kind) parser.old result parser.new }
{
    match kind {
        0 | 18 | 20 => default_position::default_position(parser, q),
        1 => renderer_kinds::spread(parser, q),
        2 => common_resources::number(parser, q.word + leaf::ENCODED, 7),
        3 => common_resources::number(parser, q.word + leaf::ENCODED, 8),
        4 => common_resources::number_if(parser, q.word + leaf::PRESENT, q.word + leaf::ENCODED, 7),
        5 => renderer_kinds::three_values(parser, q, [8, 1, 8]),
        6 | 14 | 21 => renderer_kinds::encoded_flag(parser, q),
        7 => renderer_kinds::regions_unless_all(parser, q),
        8 | 15 => common_resources::number(parser, q.word + leaf::ENCODED, 3),
        9 => scene_reverb::scene_reverb(parser, q),
        10 => renderer_kinds::encoded_if_one(parser, q),
        11 => radiation::renderer_radiation(parser, q),
        12 => renderer_kinds::flag_and_encoded(parser, q),
        13 => renderer_kinds::three_values(parser, q, [1, 1, 3]),
        16 => common_resources::number(parser, q.word + leaf::ENCODED, 9),
        17 => renderer_kinds::single_region_if_present(parser, q),
        19 => renderer_kinds::order_and_encoded(parser, q),
        22 => matrix::matrix(parser, q),
        23 => common_resources::number(parser, q.word + leaf::ENCODED, 16),
        24 => renderer_kinds::encoded_unless_zero(parser, q),
        _ => common_resources::payload(parser, q),
    }
}

// Parameter `i` of group `g`: its kind, and what follows.
fn parameter(parser: &mut Parser<'_>, g: u64, i: u64) -> Result<(), Reason>
    requires g_bound { g < 8192 }
    requires i_bound { i < 128 }
    ensures { Met (parameter (data_parameters g i)) parser.old result parser.new }
{
    let q = Names {
        word: block::DATA_PARAMETERS + block::FIRST * g + block::SECOND * i,
    };
    let kind = tri!(parser.escaped(q.word + leaf::ID, [4, 7, 10]));
    renderer_parameter(parser, q, kind)
}

// `renderer_data` of group `g`.
pub fn renderer_data(parser: &mut Parser<'_>, g: u64) -> Result<(), Reason>
    requires { g < 8192 }
    ensures { Met (renderer_data g) parser.old result parser.new }
{
    let count = tri!(parser.escaped(
        block::GROUP_DATA + block::FIRST * g + leaf::PARAMETER_COUNT,
        [4, 7, 10],
    ));
    if Parser::PARAMETERS < count {
        return Err(Reason::TooManyRendererParameters);
    }
    parser.each(count, |parser, i| parameter(parser, g, i))
}
