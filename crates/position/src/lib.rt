// The passive syntax of one scene position: passive.rs, `position`. Coordinates stay encoded.
#![tactic(auto)]

ghost use Rattle.std.specs.Prelude.{◌≡◌, ◌≤◌, IfOk};
ghost use Rattle.parser.specs.Met.{Met};
ghost use Rattle.position.specs.Shape.{default, with_dynamics, with_precisions, with_parent, with_polar};
ghost use Rattle.position.specs.Position.{precision_of, dynamics, precisions, header, changed, new_parent};
ghost use Rattle.position.specs.Position.{parent, range, flag_unless, coordinates, coordinates_if_present, rotation_values};
ghost use Rattle.position.specs.Position.{rotation, before_range, after_range, position};
ghost use Rattle.position.specs.Formed.{Shaped, is_shaped, Remade};

use parser::{Parser, tri};
use rules::{Names, Reason, leaf};

// The encoding shape of one scene position, which crosses to C as it is.
#[repr(C)]
#[derive(Clone, Copy)]
pub struct PositionSyntax {
    pub parent_dynamic: bool,
    pub range_dynamic: bool,
    pub position_precision: usize,
    pub rotation_precision: usize,
    pub parent: usize,
    pub polar: bool,
}

impl PositionSyntax {
    // The shape before anything is read.
    pub fn default() -> PositionSyntax
        ensures { result ≡ default }
    {
        PositionSyntax {
            parent_dynamic: false,
            range_dynamic: false,
            position_precision: 0,
            rotation_precision: 0,
            parent: 0,
            polar: false,
        }
    }

    // Whether no precision is above 24.
    pub fn is_shaped(self) -> bool
        ensures { result ≡ is_shaped self }
    {
        self.position_precision <= 24 && self.rotation_precision <= 24
    }

    fn with_dynamics(self, parent_dynamic: bool, range_dynamic: bool) -> PositionSyntax
        ensures { result ≡ with_dynamics self parent_dynamic range_dynamic }
    {
        PositionSyntax {
            parent_dynamic,
            range_dynamic,
            ..self
        }
    }

    // The precisions of two encoded ones.
    fn with_precisions(self, position: u64, rotation: u64) -> PositionSyntax
        ensures { Remade result (with_precisions self (precision_of position) (precision_of rotation)) }
    {
        PositionSyntax {
            position_precision: precision(position),
            rotation_precision: precision(rotation),
            ..self
        }
    }

    fn with_parent(self, parent: usize) -> PositionSyntax
        requires { Shaped self }
        ensures { Remade result (with_parent self parent) }
    {
        PositionSyntax { parent, ..self }
    }

    fn with_polar(self, polar: bool) -> PositionSyntax
        requires { Shaped self }
        ensures { Remade result (with_polar self polar) }
    {
        PositionSyntax { polar, ..self }
    }
}

// Twice the encoded precision, at most 24.
fn precision(encoded: u64) -> usize
    ensures { result ≡ precision_of encoded }
{
    if 12 < encoded {
        return 24;
    }
    encoded as usize * 2
}

// The two flags of a full position.
fn dynamics(
    parser: &mut Parser<'_>,
    p: Names<38>,
    shape: PositionSyntax,
) -> Result<PositionSyntax, Reason>
    ensures { Met (dynamics p.word shape) parser.old result parser.new }
{
    let parent = tri!(parser.flag(p.word + leaf::PARENT_DYNAMIC));
    let range = tri!(parser.flag(p.word + leaf::RANGE_DYNAMIC));
    Ok(shape.with_dynamics(parent, range))
}

// The two precisions of a full position.
fn precisions(
    parser: &mut Parser<'_>,
    p: Names<38>,
    shape: PositionSyntax,
) -> Result<PositionSyntax, Reason>
    ensures met { Met (precisions p.word shape) parser.old result parser.new }
    ensures shaped { IfOk result Shaped }
{
    let position = tri!(parser.take(p.word + leaf::POSITION_PRECISION_ENCODED, 4));
    let rotation = tri!(parser.take(p.word + leaf::ROTATION_PRECISION_ENCODED, 4));
    Ok(shape.with_precisions(position, rotation))
}

// What only a full position has.
fn header(
    parser: &mut Parser<'_>,
    p: Names<38>,
    shape: PositionSyntax,
    full: bool,
) -> Result<PositionSyntax, Reason>
    requires { Shaped shape }
    ensures met { Met (header p.word shape full) parser.old result parser.new }
    ensures shaped { IfOk result Shaped }
{
    if full {
        let shape = tri!(dynamics(parser, p, shape));
        return precisions(parser, p, shape);
    }
    Ok(shape)
}

// Whether a part that may change is there: always in a full position, else by its flag if the shape has it dynamic.
fn changed(parser: &mut Parser<'_>, name: u64, dynamic: bool, full: bool) -> Result<bool, Reason>
    ensures { Met (changed name dynamic full) parser.old result parser.new }
{
    if full {
        return Ok(true);
    }
    if dynamic {
        return parser.flag(name);
    }
    Ok(false)
}

// The parent: none if it is absolute, or an index, of which 0 is none too.
fn new_parent(
    parser: &mut Parser<'_>,
    p: Names<38>,
    shape: PositionSyntax,
) -> Result<PositionSyntax, Reason>
    requires { Shaped shape }
    ensures met { Met (new_parent p.word shape) parser.old result parser.new }
    ensures shaped { IfOk result Shaped }
{
    let absolute = tri!(parser.flag(p.word + leaf::ABSOLUTE_PARENT));
    if absolute {
        return Ok(shape.with_parent(0));
    }
    let index = tri!(parser.take(p.word + leaf::PARENT_INDEX, 6));
    Ok(shape.with_parent(index as usize))
}

// The parent, if it is there.
fn parent(
    parser: &mut Parser<'_>,
    p: Names<38>,
    shape: PositionSyntax,
    full: bool,
) -> Result<PositionSyntax, Reason>
    requires { Shaped shape }
    ensures met { Met (parent p.word shape full) parser.old result parser.new }
    ensures shaped { IfOk result Shaped }
{
    let present = tri!(changed(
        parser,
        p.word + leaf::PARENT_UPDATE,
        shape.parent_dynamic,
        full
    ));
    if present {
        return new_parent(parser, p, shape);
    }
    Ok(shape)
}

// The range, which no shape holds.
fn range(parser: &mut Parser<'_>, p: Names<38>, dynamic: bool, full: bool) -> Result<(), Reason>
    ensures { Met (range p.word dynamic full) parser.old result parser.new }
{
    let present = tri!(changed(parser, p.word + leaf::RANGE_UPDATE, dynamic, full));
    if present {
        tri!(parser.take(p.word + leaf::RANGE_ENCODED, 4));
    }
    Ok(())
}

// A flag, unless it is known already.
fn flag_unless(parser: &mut Parser<'_>, name: u64, known: bool, value: bool) -> Result<bool, Reason>
    ensures { Met (flag_unless name known value) parser.old result parser.new }
{
    if known {
        return Ok(value);
    }
    parser.flag(name)
}

// Where a position is present: whether it is a delta, whether it is polar, which a delta keeps, and its coordinates.
fn coordinates(
    parser: &mut Parser<'_>,
    p: Names<38>,
    shape: PositionSyntax,
    full: bool,
) -> Result<PositionSyntax, Reason>
    requires { Shaped shape }
    ensures met { Met (coordinates p.word shape full) parser.old result parser.new }
    ensures shaped { IfOk result Shaped }
{
    let delta = tri!(flag_unless(parser, p.word + leaf::POSITION_DELTA, full, false));
    let polar = tri!(flag_unless(parser, p.word + leaf::POLAR, delta, shape.polar));
    tri!(coordinates::coordinate_values(parser, p, polar, shape.position_precision, delta));
    Ok(shape.with_polar(polar))
}

// The coordinates, if they are there; the shape may become polar or not by them.
fn coordinates_if_present(
    parser: &mut Parser<'_>,
    p: Names<38>,
    shape: PositionSyntax,
    full: bool,
) -> Result<PositionSyntax, Reason>
    requires { Shaped shape }
    ensures met { Met (coordinates_if_present p.word shape full) parser.old result parser.new }
    ensures shaped { IfOk result Shaped }
{
    let present = tri!(parser.flag(p.word + leaf::POSITION_PRESENT));
    if present {
        return coordinates(parser, p, shape, full);
    }
    Ok(shape)
}

// The four numbers of a rotation.
fn rotation_values(
    parser: &mut Parser<'_>,
    p: Names<38>,
    precision: usize,
    delta: bool,
) -> Result<(), Reason>
    requires { precision ≤ 24 }
    ensures { Met (rotation_values p.word precision delta) parser.old result parser.new }
{
    let widths = [coordinates::width(8, precision, delta); 4];
    parser.passive_values(p.word + leaf::ROTATION_ENCODED, leaf::THIRD, &widths)
}

// The rotation, if it is there.
fn rotation(
    parser: &mut Parser<'_>,
    p: Names<38>,
    precision: usize,
    full: bool,
) -> Result<(), Reason>
    requires { precision ≤ 24 }
    ensures { Met (rotation p.word precision full) parser.old result parser.new }
{
    let present = tri!(parser.flag(p.word + leaf::ROTATION_PRESENT));
    if present {
        let delta = tri!(flag_unless(parser, p.word + leaf::ROTATION_DELTA, full, false));
        return rotation_values(parser, p, precision, delta);
    }
    Ok(())
}

// The shape as far as the range.
fn before_range(
    parser: &mut Parser<'_>,
    p: Names<38>,
    shape: PositionSyntax,
    full: bool,
) -> Result<PositionSyntax, Reason>
    requires { Shaped shape }
    ensures met { Met (before_range p.word shape full) parser.old result parser.new }
    ensures shaped { IfOk result Shaped }
{
    let shape = tri!(header(parser, p, shape, full));
    parent(parser, p, shape, full)
}

// What follows the range.
fn after_range(
    parser: &mut Parser<'_>,
    p: Names<38>,
    shape: PositionSyntax,
    full: bool,
) -> Result<PositionSyntax, Reason>
    requires { Shaped shape }
    ensures met { Met (after_range p.word shape full) parser.old result parser.new }
    ensures shaped { IfOk result Shaped }
{
    let shape = tri!(coordinates_if_present(parser, p, shape, full));
    tri!(rotation(parser, p, shape.rotation_precision, full));
    tri!(extensions::extensions_if_present(parser, p));
    Ok(shape)
}

// One position, full or of an update, whose names begin with the word `p`.
pub fn position(
    parser: &mut Parser<'_>,
    p: Names<38>,
    shape: PositionSyntax,
    full: bool,
) -> Result<PositionSyntax, Reason>
    requires { Shaped shape }
    ensures met { Met (position p.word shape full) parser.old result parser.new }
    ensures shaped { IfOk result Shaped }
{
    let shape = tri!(before_range(parser, p, shape, full));
    tri!(range(parser, p, shape.range_dynamic, full));
    after_range(parser, p, shape, full)
}
