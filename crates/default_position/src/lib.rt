// A position of default shape, read in full: `position` as passive_metadata.rs and passive_renderer.rs call it. It stands apart
// from what else both call, so that only these kinds of parameters wait for positions.
#![tactic(auto)]

ghost use Rattle.parser.specs.Met.{Met};
ghost use Rattle.default_position.specs.DefaultPosition.{default_position};

use parser::{Parser, tri};
use position::PositionSyntax;
use rules::{Names, Reason};

// A full position, whose shape is of no use here.
pub fn default_position(parser: &mut Parser<'_>, p: Names<38>) -> Result<(), Reason>
    ensures { Met (default_position p.word) parser.old result parser.new }
{
    let shape = PositionSyntax::default();
    tri!(position::position(parser, p, shape, true));
    Ok(())
}
