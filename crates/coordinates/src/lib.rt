// The coordinates of a position: passive.rs, in `position`. How many bits each has, how many there are, and their fields.
#![tactic(auto)]

ghost use Rattle.std.specs.Prelude.{◌≡◌, ◌≤◌};
ghost use Rattle.parser.specs.Met.{Met};
ghost use Rattle.coordinates.specs.Coordinates.{width_of, bases, how_many, widths_of, coordinate_values};

use parser::Parser;
use rules::{Names, Reason, leaf};

// A width: four bits narrower in a delta.
pub fn width(base: usize, precision: usize, delta: bool) -> usize
    requires le_base { (4 ≤ base) × (base ≤ 8) }
    requires precision_bound { precision ≤ 24 }
    ensures { result ≡ width_of base precision delta }
{
    if delta {
        return base + precision - 4;
    }
    base + precision
}

// The widths of three coordinates.
fn widths(polar: bool, precision: usize, delta: bool) -> [usize; 3]
    requires { precision ≤ 24 }
    ensures { result ≡ widths_of (bases polar) precision delta }
{
    if polar {
        return [
            width(7, precision, delta),
            width(6, precision, delta),
            width(5, precision, delta),
        ];
    }
    [width(6, precision, delta); 3]
}

// How many of them are read. The radius of a polar delta has no bits for its size at precision 0, and its sign alone, which
// would say nothing, is left out.
fn how_many(polar: bool, precision: usize, delta: bool) -> usize
    ensures { result ≡ how_many polar precision delta }
{
    if delta && polar && precision == 0 {
        return 2;
    }
    3
}

// As many of the three as are there.
pub fn coordinate_values(
    parser: &mut Parser<'_>,
    p: Names<38>,
    polar: bool,
    precision: usize,
    delta: bool,
) -> Result<(), Reason>
    requires { precision ≤ 24 }
    ensures { Met (coordinate_values p.word polar precision delta) parser.old result parser.new }
{
    let all = widths(polar, precision, delta);
    let count = how_many(polar, precision, delta);
    parser.passive_values(p.word + leaf::POSITION_ENCODED, leaf::THIRD, &all[..count])
}
