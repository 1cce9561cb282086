// The positions of a scene or of an update, one after another: passive.rs, the loops of `scene_graph` and of `graph_update`.
// In a scene all of them are there and full; in an update each has a flag first, and keeps its shape if it is not set. Both
// are one loop here, over the shapes that come in: those of a scene are the default.
#![tactic(auto)]

ghost use Rattle.std.specs.Prelude.{ℕ, ◌≤◌, ◌<◌, length, get_or};
ghost use Rattle.parser.specs.Met.{Met, giving};
ghost use Rattle.position.specs.Shape.{default};
ghost use Rattle.position.specs.Formed.{Shaped};
ghost use Rattle.positions.specs.Positions.{updated_position, position_at, positions};

use parser::{Parser, tri};
use position::PositionSyntax;
use rules::{Names, Reason, block, leaf};

// A position of an update: its flag, and the position if it is set.
fn updated_position(
    parser: &mut Parser<'_>,
    p: Names<38>,
    shape: PositionSyntax,
) -> Result<PositionSyntax, Reason>
    requires { Shaped shape }
    ensures { Met (updated_position p.word shape) parser.old result parser.new }
{
    let updated = tri!(parser.flag(p.word + leaf::UPDATED));
    if updated {
        return position::position(parser, p, shape, false);
    }
    Ok(shape)
}

// Position `i`, counted from 0.
fn position_at(
    parser: &mut Parser<'_>,
    i: u64,
    shape: PositionSyntax,
    full: bool,
) -> Result<PositionSyntax, Reason>
    requires shaped { Shaped shape }
    requires i_bound { i < 63 }
    ensures { Met (position_at full i shape) parser.old result parser.new }
{
    let p = Names {
        word: block::POSITIONS + block::FIRST * i,
    };
    if full {
        return position::position(parser, p, shape, true);
    }
    updated_position(parser, p, shape)
}

// The positions, one after another, of a scene (`full`) or of an update: each takes the place of its shape. If the reading ends,
// those before its end stand in their places.
pub fn positions(
    parser: &mut Parser<'_>,
    shapes: &mut [PositionSyntax],
    full: bool,
) -> Result<(), Reason>
    requires shapes_bound { length shapes.old ≤ 63 }
    requires by_index { (i : ℕ) → i < length shapes.old → Shaped (get_or shapes.old i default) }
    ensures { Met (positions full shapes.old) parser.old (giving shapes.new result) parser.new }
{
    for (i, shape) in shapes.iter_mut().enumerate() {
        *shape = tri!(position_at(parser, i as u64, *shape, full));
    }
    Ok(())
}
