// A metadata configuration: passive_metadata.rs, `metadata_configuration`, as a call from any bit on.
#![tactic(auto)]

ghost use Rattle.std.specs.Prelude.{length};
ghost use Rattle.rules.specs.Answer.{input_of, entry_then, Answered};
ghost use Rattle.parser.specs.Met.{Met};
ghost use Rattle.metadata.specs.Metadata.{configuration_present, metadata_configuration};
ghost use Rattle.metadata.specs.Entry.{metadata_reading};

use parser::{Parser, tri};
use rules::{Answer, Reason, block, leaf};

// Refused by 10 unless the configuration is there.
fn configuration_present(parser: &mut Parser<'_>) -> Result<(), Reason>
    ensures { Met configuration_present parser.old result parser.new }
{
    let present = tri!(parser.flag(block::METADATA + leaf::CONFIGURATION_PRESENT));
    if present {
        return Ok(());
    }
    Err(Reason::NoConfiguration)
}

// `metadata_configuration`.
fn metadata_configuration(parser: &mut Parser<'_>) -> Result<(), Reason>
    ensures { Met metadata_configuration parser.old result parser.new }
{
    tri!(configuration::compression_if_present(parser));
    tri!(configuration_present(parser));
    configuration::parameters_and_groups(parser)
}

// The questions of an entry, and a metadata configuration.
fn entered(parser: &mut Parser<'_>, offset: usize) -> Result<(), Reason>
    ensures { Met (entry_then (length parser.old.bytes.now) 0 offset metadata_configuration) parser.old result parser.new }
{
    tri!(parser.entry(Ok(()), offset));
    metadata_configuration(parser)
}

// A metadata configuration from the bit `offset` on.
pub fn read_metadata(bytes: &[u8], offset: usize, recording: bool, words: &mut [u64]) -> Answer
    ensures { Answered (metadata_reading (input_of bytes.now recording words.old) offset) tt recording words.old result tt words.new }
{
    let mut parser = Parser::new(bytes, words, recording, 0);
    let ended = entered(&mut parser, offset);
    parser.answer(ended)
}
