// Radiation patterns of renderer data: passive_renderer.rs, `renderer_radiation`. The names of each begin with the word `p`.
#![tactic(auto)]

ghost use Rattle.std.specs.Prelude.{◌+◌, ◌≤◌, ◌<◌, ◌^◌, IfOk};
ghost use Rattle.parser.specs.Met.{Met};
ghost use Rattle.radiation.specs.Radiation.{gain_and_angle, pattern, size, sizes, precision_width};
ghost use Rattle.radiation.specs.Radiation.{pattern_of_precision, coefficients, resource_index, renderer_radiation};

use bands::Kind;
use parser::{Parser, tri};
use rules::{Names, Reason, leaf};

// Pattern 3.
fn gain_and_angle(parser: &mut Parser<'_>, p: Names<38>, width: usize) -> Result<(), Reason>
    requires { width ≤ 64 }
    ensures { Met (gain_and_angle p.word width) parser.old result parser.new }
{
    let unity = tri!(parser.flag(p.word + leaf::UNITY));
    if unity {
        return Ok(());
    }
    tri!(bands::renderer_precision(parser, p.word + leaf::GAIN_ENCODED, width));
    common_resources::number(parser, p.word + leaf::ANGLE_ENCODED, 9)
}

// The `match` on the pattern: two of its numbers are kinds of bands, and each of the others is used by its arm alone.
fn pattern(parser: &mut Parser<'_>, p: Names<38>, kind: u64, width: usize) -> Result<(), Reason>
    requires { width ≤ 64 }
    ensures { Met (pattern p.word kind width) parser.old result parser.new }
{
    match kind {
        0 => Ok(()),
        1 => bands::bands(parser, p, Kind::CompactOrPrecise, width),
        2 => bands::bands(parser, p, Kind::AnglesAndGain, width),
        3 => gain_and_angle(parser, p, width),
        _ => common_resources::payload(parser, p),
    }
}

// How many bits each number of the pattern has.
fn precision_width(parser: &mut Parser<'_>, p: Names<38>) -> Result<usize, Reason>
    ensures met { Met (precision_width p.word) parser.old result parser.new }
    ensures small { IfOk result (λ v. v < 65) }
{
    let widths: [usize; 4] = [8, 16, 32, 64];
    let precision = tri!(parser.take(p.word + leaf::PRECISION, 2));
    Ok(widths[precision as usize])
}

// Type 3: the precision and the pattern.
fn pattern_of_precision(parser: &mut Parser<'_>, p: Names<38>) -> Result<(), Reason>
    ensures { Met (pattern_of_precision p.word) parser.old result parser.new }
{
    let width = tri!(precision_width(parser, p));
    let kind = tri!(parser.take(p.word + leaf::PATTERN, 5));
    pattern(parser, p, kind, width)
}

// Size `i`, added to the entries before it.
fn size(parser: &mut Parser<'_>, p: Names<38>, i: u64, entries: u64) -> Result<u64, Reason>
    requires i_bound { i < 4096 }
    requires entries_bound { entries < 2 ^ 40 }
    ensures met { Met (size p.word i entries) parser.old result parser.new }
    ensures small { IfOk result (λ v. v < entries + 2 ^ 22 + 1) }
{
    let size_minus_one = tri!(parser.escaped(
        p.word + leaf::SIZES_MINUS_ONE + leaf::THIRD * i,
        [6, 9, 12]
    ));
    Ok(entries + (size_minus_one + 1))
}

// The loop over the sizes: the entries of all of them.
fn sizes(parser: &mut Parser<'_>, p: Names<38>, count: u64) -> Result<u64, Reason>
    requires { count < 4097 }
    ensures met { Met (sizes p.word count) parser.old result parser.new }
    ensures small { IfOk result (λ v. v < 2 ^ 40) }
{
    let mut entries = 0;
    for i in 0..count {
        entries = tri!(size(parser, p, i, entries));
    }
    Ok(entries)
}

// Type 4: sizes, and a payload of as many entries of 32 bits.
fn coefficients(parser: &mut Parser<'_>, p: Names<38>) -> Result<(), Reason>
    ensures { Met (coefficients p.word) parser.old result parser.new }
{
    let count = tri!(bands::count_plus_one(parser, p, 6));
    let entries = tri!(sizes(parser, p, count));
    parser.passive_bits(p.word + leaf::COEFFICIENT_BITS, entries as usize * 32)
}

// Type 2: a resource and an index.
fn resource_index(parser: &mut Parser<'_>, p: Names<38>) -> Result<(), Reason>
    ensures { Met (resource_index p.word) parser.old result parser.new }
{
    let resource = Names {
        word: p.word + leaf::RESOURCE,
    };
    tri!(common_resources::metadata_resource(parser, resource));
    common_resources::number(parser, p.word + leaf::INDEX, 10)
}

// `renderer_radiation`. A type is used by its arm alone, and an enum would only name each number twice.
pub fn renderer_radiation(parser: &mut Parser<'_>, p: Names<38>) -> Result<(), Reason>
    ensures { Met (renderer_radiation p.word) parser.old result parser.new }
{
    let kind = tri!(parser.take(p.word + leaf::TYPE, 3));
    match kind {
        0 => Ok(()),
        1 => common_resources::number(parser, p.word + leaf::INDEX, 10),
        2 => resource_index(parser, p),
        3 => pattern_of_precision(parser, p),
        4 => coefficients(parser, p),
        _ => Err(Reason::RadiationType),
    }
}
