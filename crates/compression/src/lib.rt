// The configuration of a metadata compression: passive_compression.rs, `metadata_compression`. What it declares is not decoded.
#![tactic(auto)]

ghost use Rattle.std.specs.Prelude.{◌≤◌, ◌<◌, ◌^◌};
ghost use Rattle.parser.specs.Met.{Met};
ghost use Rattle.code_tables.specs.Kind.{code_of};
ghost use Rattle.compression.specs.Compression.{parameter, parameter_if_present, padding};
ghost use Rattle.compression.specs.Compression.{padded_tables, contents, metadata_compression};

use code_tables::TableKind;
use parser::{Parser, tri};
use rules::{Reason, block, leaf};

// The parameter, which is finite.
fn parameter(parser: &mut Parser<'_>) -> Result<(), Reason>
    ensures { Met parameter parser.old result parser.new }
{
    let raw = tri!(parser.take(block::COMPRESSION + leaf::PARAMETER_BITS, 32)) as u32;
    if probability::is_finite(raw) {
        return Ok(());
    }
    Err(Reason::BadProbabilities)
}

// The parameter, if it is there: codewords have none.
fn parameter_if_present(parser: &mut Parser<'_>, kind: TableKind) -> Result<(), Reason>
    ensures { Met (parameter_if_present (code_of kind)) parser.old result parser.new }
{
    if let TableKind::Codewords = kind {
        return Ok(());
    }
    parser.if_flag(
        block::COMPRESSION + leaf::PARAMETER_PRESENT,
        |parser| parameter(parser),
    )
}

// Padding up to a whole byte, counted from `start`.
fn padding(parser: &mut Parser<'_>, start: usize) -> Result<(), Reason>
    requires { start ≤ parser.old.position }
    ensures { Met (padding start) parser.old result parser.new }
{
    let width = (8 - (parser.position() - start) % 8) % 8;
    parser.passive_bits(block::COMPRESSION + leaf::PADDING, width)
}

// Types 1 to 3: tables, a parameter, and padding.
fn padded_tables(parser: &mut Parser<'_>, kind: TableKind, start: usize) -> Result<(), Reason>
    requires { start ≤ parser.old.position }
    ensures { Met (padded_tables (code_of kind) start) parser.old result parser.new }
{
    tri!(code_tables::tables(parser, kind));
    tri!(parameter_if_present(parser, kind));
    padding(parser, start)
}

// What stands in the window, by type: `width` bits from `start` on.
fn contents(parser: &mut Parser<'_>, kind: u64, start: usize, width: usize) -> Result<(), Reason>
    requires { start ≤ parser.old.position }
    ensures { Met (contents kind start width) parser.old result parser.new }
{
    match kind {
        0 => lzw::lzw(parser),
        1 => padded_tables(parser, TableKind::FirstProbabilities, start),
        2 => padded_tables(parser, TableKind::SecondProbabilities, start),
        3 => padded_tables(parser, TableKind::Codewords, start),
        _ => parser.passive_bits(block::COMPRESSION + leaf::PAYLOAD, width),
    }
}

// A compression configuration of `size` bytes: they are there, types 0 to 3 use them up, and the window is then as before.
pub fn metadata_compression(parser: &mut Parser<'_>, kind: u64, size: usize) -> Result<(), Reason>
    requires { size < 2 ^ 22 }
    ensures { Met (metadata_compression kind size) parser.old result parser.new }
{
    let start = parser.position();
    let previous = parser.end();
    let width = size * 8;
    if previous - start < width {
        return Err(Reason::CompressionBytes);
    }
    let end = start + width;
    tri!(parser.set_end(end));
    tri!(contents(parser, kind, start, width));
    if parser.position() != end {
        return Err(Reason::CompressionBytes);
    }
    parser.set_end(previous)
}
