// The extensions of a position: passive.rs, in `position`. At most 32 of them, the last of type 0, and all passed over.
#![tactic(auto)]

ghost use Rattle.parser.specs.Met.{Met};
ghost use Rattle.extensions.specs.Extensions.{extension_body, extension, extensions, extensions_if_present};

use parser::{Parser, tri};
use rules::{Names, Reason, leaf};

// What follows the type of an extension: a payload, passed over.
fn extension_body(parser: &mut Parser<'_>, q: Names<44>) -> Result<(), Reason>
    ensures { Met (extension_body q.word) parser.old result parser.new }
{
    let width = tri!(parser.take(q.word + leaf::LENGTH_WIDTH_MINUS_FOUR, 4));
    let bits = tri!(parser.take(q.word + leaf::BITS_MINUS_ONE, width as usize + 4));
    parser.passive_bits(q.word + leaf::EXTENSION_PAYLOAD, bits as usize + 1)
}

// One extension, and whether more may follow: type 0 is the last.
fn extension(parser: &mut Parser<'_>, q: Names<44>) -> Result<bool, Reason>
    ensures { Met (extension q.word) parser.old result parser.new }
{
    let kind = tri!(parser.take(q.word + leaf::EXTENSION_TYPE, 4));
    if kind == 0 {
        return Ok(false);
    }
    tri!(extension_body(parser, q));
    Ok(true)
}

// At most 32 extensions, the last of type 0. After the thirty-second no type is read: 7.
fn extensions(parser: &mut Parser<'_>, p: Names<38>) -> Result<(), Reason>
    ensures { Met (extensions 32 p.word) parser.old result parser.new }
{
    for i in 0..32 {
        let more = tri!(extension(
            parser,
            Names {
                word: p.word + leaf::THIRD * i
            }
        ));
        if !more {
            return Ok(());
        }
    }
    Err(Reason::ExtensionsUnended)
}

// The extensions, if there are any.
pub fn extensions_if_present(parser: &mut Parser<'_>, p: Names<38>) -> Result<(), Reason>
    ensures { Met (extensions_if_present p.word) parser.old result parser.new }
{
    parser.if_flag(
        p.word + leaf::EXTENSIONS_PRESENT,
        |parser| extensions(parser, p),
    )
}
