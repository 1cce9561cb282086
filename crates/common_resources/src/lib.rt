// What global parameters and renderer data have in common: passive_metadata.rs, `metadata_resource` and `metadata_reverb`, and
// the lines that both repeat. The names of each begin with the word `p`.
#![tactic(auto)]

ghost use Rattle.std.specs.Prelude.{◌≤◌, ◌<◌, ◌^◌, length};
ghost use Rattle.parser.specs.Met.{Met};
ghost use Rattle.parser.specs.Widths.{Narrow};
ghost use Rattle.common_resources.specs.Common.{number, number_if, number_unless, values};
ghost use Rattle.common_resources.specs.Common.{payload, resource_parameters, metadata_resource, reverb_parameter};
ghost use Rattle.common_resources.specs.Common.{reverb_parameters, metadata_reverb};

use parser::{Parser, tri};
use rules::{Names, Reason, leaf};

// A number on which nothing depends.
pub fn number(parser: &mut Parser<'_>, name: u64, width: usize) -> Result<(), Reason>
    requires { width ≤ 64 }
    ensures { Met (number name width) parser.old result parser.new }
{
    tri!(parser.take(name, width));
    Ok(())
}

// A number, if the flag `test` is set.
pub fn number_if(parser: &mut Parser<'_>, test: u64, name: u64, width: usize) -> Result<(), Reason>
    requires { width ≤ 64 }
    ensures { Met (number_if test name width) parser.old result parser.new }
{
    parser.if_flag(test, |parser| number(parser, name, width))
}

// A number, unless the flag `test` is set.
pub fn number_unless(
    parser: &mut Parser<'_>,
    test: u64,
    name: u64,
    width: usize,
) -> Result<(), Reason>
    requires { width ≤ 64 }
    ensures { Met (number_unless test name width) parser.old result parser.new }
{
    parser.unless_flag(test, |parser| number(parser, name, width))
}

// Numbers of these widths: `passive_values`, with the name of the first.
pub fn values(parser: &mut Parser<'_>, name: u64, widths: &[usize]) -> Result<(), Reason>
    requires name_bound { name < 2 ^ 39 }
    requires narrow { Narrow widths.now }
    requires widths_len_bound { length widths.now ≤ 64 }
    ensures { Met (values name widths.now) parser.old result parser.new }
{
    parser.passive_values(name, leaf::THIRD, widths)
}

// A payload of as many bytes as it says.
pub fn payload(parser: &mut Parser<'_>, p: Names<38>) -> Result<(), Reason>
    ensures { Met (payload p.word) parser.old result parser.new }
{
    let n = tri!(parser.escaped(p.word + leaf::BYTES_MINUS_ONE, [4, 8, 16]));
    parser.passive_bits(p.word + leaf::PAYLOAD, (n as usize + 1) * 8)
}

// The two parameters of a resource and of a matrix.
pub fn resource_parameters(parser: &mut Parser<'_>, p: Names<39>) -> Result<(), Reason>
    ensures { Met (resource_parameters p.word) parser.old result parser.new }
{
    tri!(parser.escaped(p.word + leaf::PARAMETER_0, [1, 3, 8]));
    tri!(parser.escaped(p.word + leaf::PARAMETER_1, [1, 3, 8]));
    Ok(())
}

// `metadata_resource`. A resource under a name of its own has its leaves `leaf::RESOURCE` further.
pub fn metadata_resource(parser: &mut Parser<'_>, p: Names<39>) -> Result<(), Reason>
    ensures { Met (metadata_resource p.word) parser.old result parser.new }
{
    tri!(parser.take(p.word + leaf::TYPE, 2));
    resource_parameters(parser, p)
}

// Parameter `i` of a reverb.
fn reverb_parameter(parser: &mut Parser<'_>, p: Names<38>, i: u64) -> Result<(), Reason>
    requires { i < 8 }
    ensures { Met (reverb_parameter p.word i) parser.old result parser.new }
{
    let widths: [usize; 8] = [10, 10, 8, 9, 12, 7, 7, 7];
    let width = widths[i as usize];
    number_if(
        parser,
        p.word + leaf::REVERB_PRESENT + leaf::THIRD * i,
        p.word + leaf::REVERB_ENCODED + leaf::THIRD * i,
        width,
    )
}

// The parameters of a reverb from one number up to another.
fn reverb_parameters(
    parser: &mut Parser<'_>,
    p: Names<38>,
    from: u64,
    to: u64,
) -> Result<(), Reason>
    requires from_le_to { from ≤ to }
    requires to_bound { to ≤ 8 }
    ensures { Met (reverb_parameters p.word from to) parser.old result parser.new }
{
    for i in from..to {
        tri!(reverb_parameter(parser, p, i));
    }
    Ok(())
}

// `metadata_reverb`: five parameters, a flag, and three more.
pub fn metadata_reverb(parser: &mut Parser<'_>, p: Names<38>) -> Result<(), Reason>
    ensures { Met (metadata_reverb p.word) parser.old result parser.new }
{
    tri!(reverb_parameters(parser, p, 0, 5));
    tri!(parser.flag(p.word + leaf::REVERB_FLAG));
    reverb_parameters(parser, p, 5, 8)
}
