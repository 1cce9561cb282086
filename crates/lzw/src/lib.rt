// A compression of type 0: passive_compression.rs, `metadata_compression`, its arm for LZW.
#![tactic(auto)]

ghost use Rattle.parser.specs.Met.{Met};
ghost use Rattle.lzw.specs.Lzw.{lzw_widths, lzw};

use parser::{Parser, tri};
use rules::{Reason, block, leaf};

// Stopped by 35 unless the widths of LZW are at most 15 and 16.
fn lzw_widths(parser: &Parser<'_>, initial: u64, maximum: u64) -> Result<(), Reason>
    ensures { Met (lzw_widths initial maximum) parser.now result parser.now }
{
    if 15 < initial || 16 < maximum {
        return Err(Reason::LzwWidth);
    }
    Ok(())
}

// Type 0: the widths of LZW.
pub fn lzw(parser: &mut Parser<'_>) -> Result<(), Reason>
    ensures { Met lzw parser.old result parser.new }
{
    let initial = tri!(parser.escaped(
        block::COMPRESSION + leaf::INITIAL_WIDTH_MINUS_ONE,
        [5, 8, 16]
    ));
    let delta = tri!(parser.escaped(block::COMPRESSION + leaf::MAXIMUM_WIDTH_DELTA, [3, 8, 16]));
    lzw_widths(parser, initial + 1, initial + 1 + delta)
}
