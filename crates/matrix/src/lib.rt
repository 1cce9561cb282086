// A rendering matrix, kind 22 of renderer data: passive_renderer.rs. It has as many coefficients as its layout and its order
// say. The names begin with the word `q`.
#![tactic(auto)]

ghost use Rattle.std.specs.Prelude.{◌%◌, ◌<◌, ◌^◌};
ghost use Rattle.parser.specs.Met.{Met};
ghost use Rattle.matrix.specs.Matrix.{coefficient_count, Within, coefficient_bits, matrix_coefficients, matrix};

use parser::{Parser, tri};
use rules::{Names, Reason, leaf};

// The low half of a layout.
fn low_half(layout: u64) -> usize
    ensures { Within result (layout % 65536) (2 ^ 16) }
{
    layout as usize & 65535
}

// How many coefficients a matrix has.
fn coefficient_count(layout: u64, order: u64) -> usize
    requires { order < 16 }
    ensures { Within result (coefficient_count layout order) (2 ^ 25) }
{
    let low = low_half(layout);
    low * (order as usize + 1) * (order as usize + 1)
}

// Kind 22: `count` coefficients of 32 bits, or of 16 and a scale.
fn coefficient_bits(parser: &mut Parser<'_>, q: Names<38>, count: usize) -> Result<(), Reason>
    requires { count < 2 ^ 25 }
    ensures { Met (coefficient_bits q.word count) parser.old result parser.new }
{
    let float = tri!(parser.flag(q.word + leaf::FLOAT_COEFFICIENTS));
    if float {
        return parser.passive_bits(q.word + leaf::COEFFICIENT_BITS, count * 32);
    }
    tri!(parser.take(q.word + leaf::SCALE_BITS, 32));
    parser.passive_bits(q.word + leaf::COEFFICIENT_BITS, count * 16)
}

// As many coefficients as the layout and the order say.
fn coefficients(
    parser: &mut Parser<'_>,
    q: Names<38>,
    layout: u64,
    order: u64,
) -> Result<(), Reason>
    requires { order < 16 }
    ensures { Met (coefficient_bits q.word (coefficient_count layout order)) parser.old result parser.new }
{
    let count = coefficient_count(layout, order);
    coefficient_bits(parser, q, count)
}

// Kind 22, location 1: coefficients.
fn matrix_coefficients(parser: &mut Parser<'_>, q: Names<38>) -> Result<(), Reason>
    ensures { Met (matrix_coefficients q.word) parser.old result parser.new }
{
    let order = tri!(parser.take(q.word + leaf::ORDER, 4));
    let layout = tri!(parser.take(q.word + leaf::LAYOUT_TAG, 32));
    coefficients(parser, q, layout, order)
}

// Kind 22: a rendering matrix. A location is used by its arm alone, and an enum would only name each number twice.
pub fn matrix(parser: &mut Parser<'_>, q: Names<38>) -> Result<(), Reason>
    ensures { Met (matrix q.word) parser.old result parser.new }
{
    let location = tri!(parser.take(q.word + leaf::LOCATION, 2));
    match location {
        0 | 2 => common_resources::resource_parameters(parser, Names { word: q.word }),
        1 => matrix_coefficients(parser, q),
        _ => Err(Reason::MatrixLocation),
    }
}
