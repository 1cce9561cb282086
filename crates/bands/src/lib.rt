// The bands of radiation patterns 1 and 2, and numbers of a declared precision: passive_renderer.rs, `renderer_precision` and in
// `renderer_radiation`. The names of a pattern begin with the word `p`, those of a band with `q`.
#![tactic(auto)]

ghost use Rattle.std.specs.Prelude.{◌+◌, ◌*◌, ◌≤◌, ◌<◌, IfOk};
ghost use Rattle.rules.specs.Name.{third};
ghost use Rattle.parser.specs.Met.{Met};
ghost use Rattle.bands.specs.Bands.{code_of, renderer_precision, compact_or_precise, angles_and_gain};
ghost use Rattle.bands.specs.Bands.{band_values, band, count_plus_one, bands};

use parser::{Parser, tri};
use rules::{Names, Reason, leaf};

// What a band holds beside its frequency: the patterns 1 and 2.
#[derive(Clone, Copy)]
pub enum Kind {
    CompactOrPrecise,
    AnglesAndGain,
}

// A number of 8, 16 or 32 bits; one of 64 bits stops the reading before it is read.
pub fn renderer_precision(parser: &mut Parser<'_>, name: u64, width: usize) -> Result<(), Reason>
    requires { width ≤ 64 }
    ensures { Met (renderer_precision name width) parser.old result parser.new }
{
    if width == 64 {
        return Err(Reason::DoublePrecision);
    }
    common_resources::number(parser, name, width)
}

// A band of pattern 1: two numbers, compact or of the precision.
fn compact_or_precise(parser: &mut Parser<'_>, q: Names<51>, width: usize) -> Result<(), Reason>
    requires { width ≤ 64 }
    ensures { Met (compact_or_precise q.word width) parser.old result parser.new }
{
    let compact = tri!(parser.flag(q.word + leaf::BAND_COMPACT));
    if compact {
        let widths: [usize; 2] = [3, 8];
        return parser.passive_values(q.word + leaf::BAND_ENCODED, leaf::FOURTH, &widths);
    }
    tri!(renderer_precision(parser, q.word + leaf::BAND_ENCODED, width));
    renderer_precision(parser, q.word + leaf::BAND_ENCODED + leaf::FOURTH, width)
}

// A band of pattern 2: two numbers of 9 bits, and a gain.
fn angles_and_gain(parser: &mut Parser<'_>, q: Names<51>, width: usize) -> Result<(), Reason>
    requires { width ≤ 64 }
    ensures { Met (angles_and_gain q.word width) parser.old result parser.new }
{
    let widths: [usize; 2] = [9, 9];
    tri!(parser.passive_values(q.word + leaf::BAND_ENCODED, leaf::FOURTH, &widths));
    renderer_precision(parser, q.word + leaf::BAND_GAIN_ENCODED, width)
}

// What follows the frequency of a band.
fn band_values(
    parser: &mut Parser<'_>,
    q: Names<51>,
    kind: Kind,
    width: usize,
) -> Result<(), Reason>
    requires { width ≤ 64 }
    ensures { Met (band_values q.word (code_of kind) width) parser.old result parser.new }
{
    match kind {
        Kind::CompactOrPrecise => compact_or_precise(parser, q, width),
        Kind::AnglesAndGain => angles_and_gain(parser, q, width),
    }
}

// Band `i` of pattern 1 or 2.
fn band(
    parser: &mut Parser<'_>,
    p: Names<38>,
    i: u64,
    kind: Kind,
    width: usize,
) -> Result<(), Reason>
    requires i_bound { i < 4097 }
    requires width_bound { width ≤ 64 }
    ensures { Met (band (p.word + third * i) (code_of kind) width) parser.old result parser.new }
{
    let q = Names {
        word: p.word + leaf::THIRD * i,
    };
    // It decides what follows the frequency, and stands before it.
    let unity = tri!(parser.flag(q.word + leaf::BAND_UNITY));
    tri!(parser.escaped(q.word + leaf::BAND_FREQUENCY_MINUS_ONE, [10, 13, 17]));
    if unity {
        return Ok(());
    }
    band_values(parser, q, kind, width)
}

// The count of bands or of sizes: `count_minus_one`, and question 6.
pub fn count_plus_one(parser: &mut Parser<'_>, p: Names<38>, least: u64) -> Result<u64, Reason>
    requires { least ≤ 4096 }
    ensures met { Met (count_plus_one p.word least) parser.old result parser.new }
    ensures small { IfOk result (λ v. v < 4097) }
{
    let count_minus_one = tri!(parser.escaped(p.word + leaf::COUNT_MINUS_ONE, [3, 6, 9]));
    parser.count(count_minus_one + 1, least)
}

// Patterns 1 and 2.
pub fn bands(parser: &mut Parser<'_>, p: Names<38>, kind: Kind, width: usize) -> Result<(), Reason>
    requires { width ≤ 64 }
    ensures { Met (bands p.word (code_of kind) width) parser.old result parser.new }
{
    let count = tri!(count_plus_one(parser, p, 11));
    parser.each(count, |parser, i| band(parser, p, i, kind, width))
}
