// What a metadata configuration that is there holds: a compression, parameters, and groups with their renderer data:
// passive_metadata.rs, `metadata_configuration`.
#![tactic(auto)]

ghost use Rattle.std.specs.Prelude.{◌<◌};
ghost use Rattle.parser.specs.Met.{Met};
ghost use Rattle.configuration.specs.Configuration.{compression, compression_if_present, parameter, parameters};
ghost use Rattle.configuration.specs.Configuration.{parameters_if_present, data_if_present, group, groups};
ghost use Rattle.configuration.specs.Configuration.{parameters_and_groups};

use parser::{Parser, tri};
use rules::{Names, Reason, block, leaf};

// A compression: its type, its bytes and what they hold.
fn compression(parser: &mut Parser<'_>) -> Result<(), Reason>
    ensures { Met compression parser.old result parser.new }
{
    let kind = tri!(parser.take(block::COMPRESSION + leaf::TYPE, 3));
    let size = tri!(parser.escaped(block::COMPRESSION + leaf::BYTES, [4, 8, 16]));
    compression::metadata_compression(parser, kind, size as usize)
}

// A compression, if there is one.
pub fn compression_if_present(parser: &mut Parser<'_>) -> Result<(), Reason>
    ensures { Met compression_if_present parser.old result parser.new }
{
    parser.if_flag(
        block::METADATA + leaf::COMPRESSION_PRESENT,
        |parser| compression(parser),
    )
}

// Parameter `i` of the whole configuration.
fn parameter(parser: &mut Parser<'_>, i: u64) -> Result<(), Reason>
    requires { i < 128 }
    ensures { Met (parameter i) parser.old result parser.new }
{
    let p = Names {
        word: block::PARAMETERS + block::FIRST * i,
    };
    let kind = tri!(component::metadata_esc(parser, p.word + leaf::ID));
    global::metadata_global_parameter(parser, p, kind)
}

// The parameters of the whole configuration, at most 128.
fn parameters(parser: &mut Parser<'_>) -> Result<(), Reason>
    ensures { Met parameters parser.old result parser.new }
{
    let n = tri!(component::metadata_esc(parser, block::METADATA + leaf::PARAMETER_COUNT));
    if Parser::PARAMETERS < n {
        return Err(Reason::TooManyParameters);
    }
    parser.each(n, |parser, i| parameter(parser, i))
}

// The parameters, if there are any.
fn parameters_if_present(parser: &mut Parser<'_>) -> Result<(), Reason>
    ensures { Met parameters_if_present parser.old result parser.new }
{
    parser.if_flag(
        block::METADATA + leaf::PARAMETERS_PRESENT,
        |parser| parameters(parser),
    )
}

// The renderer data of group `i`, if there is any.
fn data_if_present(parser: &mut Parser<'_>, i: u64) -> Result<(), Reason>
    requires { i < 4097 }
    ensures { Met (data_if_present i) parser.old result parser.new }
{
    let present = block::GROUPS + block::FIRST * i + leaf::DATA_PRESENT;
    parser.if_flag(present, |parser| renderer::renderer_data(parser, i))
}

// Group `i`.
fn group(parser: &mut Parser<'_>, i: u64) -> Result<(), Reason>
    requires { i < 4097 }
    ensures { Met (group i) parser.old result parser.new }
{
    let q = Names {
        word: block::GROUPS + block::FIRST * i,
    };
    tri!(component::metadata_number(parser, q.word + leaf::ID));
    tri!(component::component_unless_default(parser, q));
    data_if_present(parser, i)
}

// The groups, if there may be so many.
fn groups(parser: &mut Parser<'_>) -> Result<(), Reason>
    ensures { Met groups parser.old result parser.new }
{
    let n = tri!(component::metadata_esc(parser, block::METADATA + leaf::GROUP_COUNT));
    let n = tri!(parser.count(n, 6));
    parser.each(n, |parser, i| group(parser, i))
}

// What follows where the configuration is there.
pub fn parameters_and_groups(parser: &mut Parser<'_>) -> Result<(), Reason>
    ensures { Met parameters_and_groups parser.old result parser.new }
{
    tri!(parameters_if_present(parser));
    groups(parser)
}
