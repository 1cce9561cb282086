// The kinds of renderer parameters that are a few numbers and flags each: passive_renderer.rs, the arms of `renderer_data`. The
// names of a parameter begin with the word `q`.
#![tactic(auto)]

ghost use Rattle.std.specs.Prelude.{◌+◌, ◌*◌, ◌≤◌, ◌<◌, IfOk};
ghost use Rattle.rules.specs.Name.{third};
ghost use Rattle.parser.specs.Each.{unless};
ghost use Rattle.rules.specs.Leaf.{all, renderer_values};
ghost use Rattle.parser.specs.Met.{Met};
ghost use Rattle.parser.specs.Widths.{Narrow};
ghost use Rattle.common_resources.specs.Common.{values};
ghost use Rattle.renderer_kinds.specs.Kinds.{legacy_spread, spread_width, spread_values, spread, encoded_flag};
ghost use Rattle.renderer_kinds.specs.Kinds.{region, regions, regions_unless_all, encoded_if_one, flag_and_encoded};
ghost use Rattle.renderer_kinds.specs.Kinds.{single_region, single_region_if_present, order_and_encoded, encoded_unless_zero};

use parser::{Parser, tri};
use rules::{Names, Reason, leaf};

// Three numbers: kinds 5 and 13.
pub fn three_values(parser: &mut Parser<'_>, q: Names<38>, widths: [usize; 3]) -> Result<(), Reason>
    requires { Narrow widths }
    ensures { Met (values (q.word + renderer_values) widths) parser.old result parser.new }
{
    common_resources::values(parser, q.word + leaf::RENDERER_VALUES, &widths)
}

// Kind 1, with `legacy_spread`.
fn legacy_spread(parser: &mut Parser<'_>, q: Names<38>) -> Result<(), Reason>
    ensures { Met (legacy_spread q.word) parser.old result parser.new }
{
    let height_present = tri!(parser.flag(q.word + leaf::HEIGHT_PRESENT));
    let widths: [usize; 2] = [9, 8];
    tri!(common_resources::values(parser, q.word + leaf::RENDERER_VALUES, &widths));
    if height_present {
        return common_resources::number(parser, q.word + leaf::HEIGHT_ENCODED, 6);
    }
    Ok(())
}

// Kind 1, without `legacy_spread`: the width of its numbers.
fn spread_width(parser: &mut Parser<'_>, q: Names<38>) -> Result<usize, Reason>
    ensures met { Met (spread_width q.word) parser.old result parser.new }
    ensures small { IfOk result (λ v. v < 37) }
{
    tri!(parser.flag(q.word + leaf::RANGE_DYNAMIC));
    let precision = tri!(parser.take(q.word + leaf::PRECISION_ENCODED, 4));
    Ok(precision as usize * 2 + 6)
}

// Kind 1, without `legacy_spread`: its numbers, two or three.
fn spread_values(parser: &mut Parser<'_>, q: Names<38>, width: usize) -> Result<(), Reason>
    requires { width ≤ 64 }
    ensures { Met (spread_values q.word width) parser.old result parser.new }
{
    let third_dimension = tri!(parser.flag(q.word + leaf::THIRD_DIMENSION));
    tri!(parser.take(q.word + leaf::RANGE_ENCODED, 4));
    if third_dimension {
        let widths = [width; 3];
        return common_resources::values(parser, q.word + leaf::RENDERER_VALUES, &widths);
    }
    let widths = [width; 2];
    common_resources::values(parser, q.word + leaf::RENDERER_VALUES, &widths)
}

// Kind 1: a spread, legacy or not.
pub fn spread(parser: &mut Parser<'_>, q: Names<38>) -> Result<(), Reason>
    ensures { Met (spread q.word) parser.old result parser.new }
{
    let legacy = tri!(parser.flag(q.word + leaf::LEGACY_SPREAD));
    if legacy {
        return legacy_spread(parser, q);
    }
    let width = tri!(spread_width(parser, q));
    spread_values(parser, q, width)
}

// Kinds 6, 14 and 21: a flag.
pub fn encoded_flag(parser: &mut Parser<'_>, q: Names<38>) -> Result<(), Reason>
    ensures { Met (encoded_flag q.word) parser.old result parser.new }
{
    tri!(parser.flag(q.word + leaf::ENCODED));
    Ok(())
}

// Region `j` of kind 7, whose names begin with `r`.
fn region(parser: &mut Parser<'_>, q: Names<38>, j: u64, cartesian: bool) -> Result<(), Reason>
    requires { j < 4097 }
    ensures { Met (region (q.word + third * j) cartesian) parser.old result parser.new }
{
    let r: Names<51> = Names {
        word: q.word + leaf::THIRD * j,
    };
    let predefined = tri!(parser.flag(r.word + leaf::REGION_PREDEFINED));
    if predefined {
        return common_resources::number(parser, r.word + leaf::REGION_INDEX, 4);
    }
    if cartesian {
        let widths: [usize; 6] = [8; 6];
        return parser.passive_values(r.word + leaf::REGION_ENCODED, leaf::FOURTH, &widths);
    }
    let widths: [usize; 4] = [9, 9, 8, 8];
    parser.passive_values(r.word + leaf::REGION_ENCODED, leaf::FOURTH, &widths)
}

// Kind 7, present and not `all`: the regions.
fn regions(parser: &mut Parser<'_>, q: Names<38>) -> Result<(), Reason>
    ensures { Met (regions q.word) parser.old result parser.new }
{
    let cartesian = tri!(parser.flag(q.word + leaf::CARTESIAN));
    let count = tri!(parser.drc_count(q.word + leaf::COUNT, 4, 5));
    parser.each(count, |parser, j| region(parser, q, j, cartesian))
}

// Kind 7, present: its regions, unless all are meant.
fn present_regions(parser: &mut Parser<'_>, q: Names<38>) -> Result<(), Reason>
    ensures { Met (unless (q.word + all) (regions q.word)) parser.old result parser.new }
{
    parser.unless_flag(q.word + leaf::ALL, |parser| regions(parser, q))
}

// Kind 7: regions.
pub fn regions_unless_all(parser: &mut Parser<'_>, q: Names<38>) -> Result<(), Reason>
    ensures { Met (regions_unless_all q.word) parser.old result parser.new }
{
    parser.if_flag(q.word + leaf::PRESENT, |parser| present_regions(parser, q))
}

// Kind 10: a number, which may be present only if its type is 1. The type is asked nothing else, and is no enum.
pub fn encoded_if_one(parser: &mut Parser<'_>, q: Names<38>) -> Result<(), Reason>
    ensures { Met (encoded_if_one q.word) parser.old result parser.new }
{
    let kind = tri!(parser.take(q.word + leaf::TYPE, 3));
    if kind == 1 {
        return common_resources::number_if(
            parser,
            q.word + leaf::PRESENT,
            q.word + leaf::ENCODED,
            7,
        );
    }
    Ok(())
}

// Kind 12: a flag, and a number if it is present.
pub fn flag_and_encoded(parser: &mut Parser<'_>, q: Names<38>) -> Result<(), Reason>
    ensures { Met (flag_and_encoded q.word) parser.old result parser.new }
{
    tri!(parser.flag(q.word + leaf::FLAG));
    common_resources::number_if(parser, q.word + leaf::PRESENT, q.word + leaf::ENCODED, 9)
}

// Kind 17, where it is present: an index or six numbers.
fn single_region(parser: &mut Parser<'_>, q: Names<38>) -> Result<(), Reason>
    ensures { Met (single_region q.word) parser.old result parser.new }
{
    let predefined = tri!(parser.flag(q.word + leaf::PREDEFINED));
    if predefined {
        return common_resources::number(parser, q.word + leaf::INDEX, 4);
    }
    let cartesian = tri!(parser.flag(q.word + leaf::CARTESIAN));
    let widths: [usize; 6] = if cartesian {
        [8; 6]
    } else {
        [9, 9, 8, 8, 8, 8]
    };
    common_resources::values(parser, q.word + leaf::RENDERER_VALUES, &widths)
}

// Kind 17: a region, if it is present.
pub fn single_region_if_present(parser: &mut Parser<'_>, q: Names<38>) -> Result<(), Reason>
    ensures { Met (single_region_if_present q.word) parser.old result parser.new }
{
    parser.if_flag(q.word + leaf::PRESENT, |parser| single_region(parser, q))
}

// Kind 19: an order and a number.
pub fn order_and_encoded(parser: &mut Parser<'_>, q: Names<38>) -> Result<(), Reason>
    ensures { Met (order_and_encoded q.word) parser.old result parser.new }
{
    tri!(common_resources::number_unless(parser, q.word + leaf::DEFAULT, q.word + leaf::ORDER, 4));
    common_resources::number(parser, q.word + leaf::ENCODED, 8)
}

// Kind 24: a number, which may be present unless its type is 0. The type is asked nothing else, and is no enum.
pub fn encoded_unless_zero(parser: &mut Parser<'_>, q: Names<38>) -> Result<(), Reason>
    ensures { Met (encoded_unless_zero q.word) parser.old result parser.new }
{
    let kind = tri!(parser.take(q.word + leaf::TYPE, 2));
    if kind == 0 {
        return Ok(());
    }
    common_resources::number_if(parser, q.word + leaf::PRESENT, q.word + leaf::ENCODED, 16)
}
