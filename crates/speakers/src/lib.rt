// A layout of speakers, kind 9 of the parameters of a whole configuration: passive_metadata.rs. The names begin with the word `p`,
// those of a speaker with `q`.
#![tactic(auto)]

ghost use Rattle.std.specs.Prelude.{◌+◌, ◌*◌, ◌<◌, ◌^◌};
ghost use Rattle.rules.specs.Name.{third};
ghost use Rattle.parser.specs.Met.{Met};
ghost use Rattle.speakers.specs.Speakers.{speaker_type, speaker, layout, labelled_layout};

use parser::{Parser, tri};
use rules::{Names, Reason, leaf};

// Kind 9: the value and type of a speaker.
fn speaker_type(parser: &mut Parser<'_>, q: Names<51>) -> Result<(), Reason>
    ensures { Met (speaker_type q.word) parser.old result parser.new }
{
    tri!(common_resources::number(parser, q.word + leaf::SPEAKER_VALUE_ENCODED, 7));
    common_resources::number(parser, q.word + leaf::SPEAKER_TYPE, 3)
}

// Speaker `i`.
fn speaker(parser: &mut Parser<'_>, p: Names<38>, i: u64) -> Result<(), Reason>
    requires { i < 2 ^ 8 }
    ensures { Met (speaker (p.word + third * i)) parser.old result parser.new }
{
    let q = Names {
        word: p.word + leaf::THIRD * i,
    };
    let widths: [usize; 3] = [4, 9, 8];
    tri!(parser.passive_values(q.word + leaf::SPEAKER_ENCODED, leaf::FOURTH, &widths));
    tri!(common_resources::number_unless(
        parser,
        q.word + leaf::SPEAKER_DEFAULT_DISTANCE,
        q.word + leaf::SPEAKER_DISTANCE_ENCODED,
        4
    ));
    speaker_type(parser, q)
}

// A layout of speakers.
fn layout(parser: &mut Parser<'_>, p: Names<38>) -> Result<(), Reason>
    ensures { Met (layout p.word) parser.old result parser.new }
{
    tri!(parser.take(p.word + leaf::LAYOUT_ENCODED, 4));
    let n = tri!(parser.drc_count(p.word + leaf::SPEAKER_COUNT, 8, 33));
    parser.each(n, |parser, i| speaker(parser, p, i))
}

// A resource, a label and a layout.
pub fn labelled_layout(parser: &mut Parser<'_>, p: Names<38>) -> Result<(), Reason>
    ensures { Met (labelled_layout p.word) parser.old result parser.new }
{
    let resource = Names {
        word: p.word + leaf::RESOURCE,
    };
    tri!(common_resources::metadata_resource(parser, resource));
    tri!(parser.label(p.word + leaf::LABEL));
    layout(parser, p)
}
