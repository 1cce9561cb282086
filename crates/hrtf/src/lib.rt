// A head-related transfer function, kind 7 of the parameters of a whole configuration: passive_metadata.rs. The names begin with
// the word `p`.
#![tactic(auto)]

ghost use Rattle.parser.specs.Met.{Met};
ghost use Rattle.hrtf.specs.Hrtf.{hrtf_resource, hrtf_type, hrtf};

use parser::{Parser, tri};
use rules::{Names, Reason, leaf};

// Kind 7, type 2: a resource, which is stopped after its mode.
fn hrtf_resource(parser: &mut Parser<'_>, p: Names<38>) -> Result<(), Reason>
    ensures { Met (hrtf_resource p.word) parser.old result parser.new }
{
    let resource = Names {
        word: p.word + leaf::RESOURCE,
    };
    tri!(common_resources::metadata_resource(parser, resource));
    tri!(parser.take(p.word + leaf::MODE, 3));
    Err(Reason::HrtfType2)
}

// What follows the type, which is asked here alone: an enum of the three types that are read would be matched at once.
fn hrtf_type(parser: &mut Parser<'_>, p: Names<38>, kind: u64) -> Result<(), Reason>
    ensures { Met (hrtf_type p.word kind) parser.old result parser.new }
{
    match kind {
        0 => Ok(()),
        1 => common_resources::number(parser, p.word + leaf::INDEX, 8),
        2 => hrtf_resource(parser, p),
        _ => Err(Reason::HrtfType),
    }
}

// A head-related transfer function.
pub fn hrtf(parser: &mut Parser<'_>, p: Names<38>) -> Result<(), Reason>
    ensures { Met (hrtf p.word) parser.old result parser.new }
{
    tri!(common_resources::number_if(
        parser,
        p.word + leaf::VALUE_PRESENT,
        p.word + leaf::VALUE_ENCODED,
        32
    ));
    let kind = tri!(parser.take(p.word + leaf::TYPE, 3));
    hrtf_type(parser, p, kind)
}
