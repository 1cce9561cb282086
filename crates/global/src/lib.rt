// The parameters of a whole configuration: passive_metadata.rs, `metadata_global_parameter`. The names of each begin with the
// word `p`.
#![tactic(auto)]

ghost use Rattle.std.specs.Prelude.{◌<◌};
ghost use Rattle.parser.specs.Met.{Met};
ghost use Rattle.global.specs.Global.{gain_values, gain, item, items, mask, masked_items};
ghost use Rattle.global.specs.Global.{predefined_index, resource_reference, predefined, metadata_global_parameter};

use parser::{Parser, tri};
use rules::{Names, Reason, leaf};

// Kind 5: the four values of a gain, Cartesian or not.
fn gain_values(parser: &mut Parser<'_>, p: Names<38>) -> Result<(), Reason>
    ensures { Met (gain_values p.word) parser.old result parser.new }
{
    let cartesian = tri!(parser.flag(p.word + leaf::CARTESIAN));
    if cartesian {
        let widths: [usize; 4] = [8, 8, 8, 7];
        return common_resources::values(parser, p.word + leaf::GLOBAL_VALUES, &widths);
    }
    let widths: [usize; 4] = [9, 8, 7, 8];
    common_resources::values(parser, p.word + leaf::GLOBAL_VALUES, &widths)
}

// A gain, its range and four values.
fn gain(parser: &mut Parser<'_>, p: Names<38>) -> Result<(), Reason>
    ensures { Met (gain p.word) parser.old result parser.new }
{
    tri!(parser.take(p.word + leaf::GAIN_ENCODED, 8));
    tri!(common_resources::number_unless(
        parser,
        p.word + leaf::UNIT_RANGE,
        p.word + leaf::RANGE_ENCODED,
        4
    ));
    gain_values(parser, p)
}

// Kind 6: item `i`.
fn item(parser: &mut Parser<'_>, p: Names<38>, i: u64) -> Result<(), Reason>
    requires { i < 9 }
    ensures { Met (item p.word i) parser.old result parser.new }
{
    let default = p.word + leaf::ITEM_DEFAULT + leaf::THIRD * i;
    let encoded = p.word + leaf::ITEM_ENCODED + leaf::THIRD * i;
    parser.unless_flag(
        default,
        |parser| parser.passive_values(encoded, leaf::FOURTH, &[7; 5]),
    )
}

// Nine items.
fn items(parser: &mut Parser<'_>, p: Names<38>) -> Result<(), Reason>
    ensures { Met (items p.word) parser.old result parser.new }
{
    parser.each(9, |parser, i| item(parser, p, i))
}

// A mask of as many bits as it says.
fn mask(parser: &mut Parser<'_>, p: Names<38>) -> Result<(), Reason>
    ensures { Met (mask p.word) parser.old result parser.new }
{
    let n = tri!(parser.take(p.word + leaf::MASK_BITS_MINUS_ONE, 7));
    parser.passive_bits(p.word + leaf::MASK, n as usize + 1)
}

// Three values, nine items and a mask.
fn masked_items(parser: &mut Parser<'_>, p: Names<38>) -> Result<(), Reason>
    ensures { Met (masked_items p.word) parser.old result parser.new }
{
    let widths: [usize; 3] = [2, 2, 3];
    tri!(common_resources::values(parser, p.word + leaf::GLOBAL_VALUES, &widths));
    tri!(items(parser, p));
    mask(parser, p)
}

// Kind 12: the index of something predefined.
fn predefined_index(parser: &mut Parser<'_>, p: Names<38>) -> Result<(), Reason>
    ensures { Met (predefined_index p.word) parser.old result parser.new }
{
    tri!(parser.escaped(p.word + leaf::INDEX, [3, 6, 10]));
    Ok(())
}

// A resource with two parameters.
fn resource_reference(parser: &mut Parser<'_>, p: Names<38>) -> Result<(), Reason>
    ensures { Met (resource_reference p.word) parser.old result parser.new }
{
    let resource = Names {
        word: p.word + leaf::RESOURCE,
    };
    tri!(common_resources::metadata_resource(parser, resource));
    tri!(parser.escaped(p.word + leaf::PARAMETER_0, [3, 6, 10]));
    tri!(parser.escaped(p.word + leaf::PARAMETER_1, [4, 8, 16]));
    Ok(())
}

// Something predefined, or a resource.
fn predefined(parser: &mut Parser<'_>, p: Names<38>) -> Result<(), Reason>
    ensures { Met (predefined p.word) parser.old result parser.new }
{
    let predefined = tri!(parser.flag(p.word + leaf::PREDEFINED));
    if predefined {
        return predefined_index(parser, p);
    }
    resource_reference(parser, p)
}

// `metadata_global_parameter`. The kind is asked here alone, and every arm reads its kind whole: an enum would be matched at once.
pub fn metadata_global_parameter(
    parser: &mut Parser<'_>,
    p: Names<38>,
    kind: u64,
) -> Result<(), Reason>
    ensures { Met (metadata_global_parameter p.word kind) parser.old result parser.new }
{
    match kind {
        0 | 1 | 2 => common_resources::number(parser, p.word + leaf::ENCODED, 1),
        3 => common_resources::number(parser, p.word + leaf::ENCODED, 5),
        4 => {
            let widths: [usize; 8] = [3, 8, 8, 8, 3, 8, 8, 8];
            common_resources::values(parser, p.word + leaf::GLOBAL_VALUES, &widths)
        }
        5 => gain(parser, p),
        6 => masked_items(parser, p),
        7 => hrtf::hrtf(parser, p),
        8 => common_resources::metadata_resource(parser, Names { word: p.word }),
        9 => speakers::labelled_layout(parser, p),
        10 => {
            let widths: [usize; 5] = [3, 32, 32, 32, 1];
            common_resources::values(parser, p.word + leaf::GLOBAL_VALUES, &widths)
        }
        11 => default_position::default_position(parser, p),
        12 => predefined(parser, p),
        13 => common_resources::number(parser, p.word + leaf::ENCODED, 6),
        14 => {
            let widths: [usize; 2] = [4, 8];
            common_resources::values(parser, p.word + leaf::GLOBAL_VALUES, &widths)
        }
        15 => headphones::headphones(parser, p),
        _ => common_resources::payload(parser, p),
    }
}
