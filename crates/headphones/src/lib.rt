// Headphone channels, kind 15 of the parameters of a whole configuration: passive_metadata.rs. They fill the bytes that are
// declared for them. The names begin with the word `p`.
#![tactic(auto)]

ghost use Rattle.std.specs.Prelude.{◌≤◌};
ghost use Rattle.parser.specs.Met.{Met};
ghost use Rattle.headphones.specs.Headphones.{channels, padding, padded_channels, headphone_channels, headphones};

use parser::{Parser, tri};
use rules::{Names, Reason, leaf};

// Kind 15: so many headphone channels.
fn channels(parser: &mut Parser<'_>, p: Names<38>, n: u64) -> Result<(), Reason>
    requires { n ≤ 256 }
    ensures { Met (channels p.word n) parser.old result parser.new }
{
    parser.each(n, |parser, i| {
        common_resources::number(parser, p.word + leaf::CHANNELS + leaf::THIRD * i, 3)
    })
}

// Padding up to bit `end`.
fn padding(parser: &mut Parser<'_>, p: Names<38>, end: usize) -> Result<(), Reason>
    ensures { Met (padding p.word end) parser.old result parser.new }
{
    let position = parser.position();
    if end <= position {
        return Ok(());
    }
    parser.passive_bits(p.word + leaf::PADDING, end - position)
}

// Channels, and padding up to bit `end`.
fn padded_channels(parser: &mut Parser<'_>, p: Names<38>, n: u64, end: usize) -> Result<(), Reason>
    requires { n ≤ 256 }
    ensures { Met (padded_channels p.word n end) parser.old result parser.new }
{
    tri!(channels(parser, p, n));
    padding(parser, p, end)
}

// Channels that have `bits` bits, of which the first are their count.
fn headphone_channels(parser: &mut Parser<'_>, p: Names<38>, bits: usize) -> Result<(), Reason>
    requires { bits ≤ 128 }
    ensures { Met (headphone_channels p.word bits) parser.old result parser.new }
{
    let start = parser.position();
    let n = tri!(parser.take(p.word + leaf::CHANNELS_MINUS_ONE, 8)) + 1;
    if bits < n as usize * 3 + 8 {
        return Err(Reason::HeadphoneBytes);
    }
    padded_channels(parser, p, n, start + bits)
}

// Headphone channels in as many bytes as it says.
pub fn headphones(parser: &mut Parser<'_>, p: Names<38>) -> Result<(), Reason>
    ensures { Met (headphones p.word) parser.old result parser.new }
{
    let n = tri!(parser.take(p.word + leaf::BYTES_MINUS_ONE, 4));
    headphone_channels(parser, p, (n as usize + 1) * 8)
}
