// The component of a group: passive_metadata.rs, in `metadata_configuration`. `q` is the word that the names of a group begin with.
#![tactic(auto)]

ghost use Rattle.std.specs.Prelude.{◌<◌, ◌^◌, IfOk};
ghost use Rattle.parser.specs.Met.{Met};
ghost use Rattle.component.specs.Component.{metadata_esc, metadata_number, second_parameter};
ghost use Rattle.component.specs.Component.{both_parameters, component_parameters};
ghost use Rattle.component.specs.Component.{component_reference, channel_indices, channels, component};
ghost use Rattle.component.specs.Component.{component_unless_default};

use parser::{Parser, tri};
use rules::{Names, Reason, leaf};

// `metadata_esc`: an escaped number of the widths that metadata has most often.
pub fn metadata_esc(parser: &mut Parser<'_>, name: u64) -> Result<u64, Reason>
    ensures met { Met (metadata_esc name) parser.old result parser.new }
    ensures small { IfOk result (λ v. v < 2 ^ 22) }
{
    parser.escaped(name, [4, 7, 10])
}

// The same, where nothing depends on the number.
pub fn metadata_number(parser: &mut Parser<'_>, name: u64) -> Result<(), Reason>
    ensures { Met (metadata_number name) parser.old result parser.new }
{
    tri!(metadata_esc(parser, name));
    Ok(())
}

// The second parameter of a component, if it is there.
fn second_parameter(parser: &mut Parser<'_>, q: Names<38>) -> Result<(), Reason>
    ensures { Met (second_parameter q.word) parser.old result parser.new }
{
    parser.if_flag(q.word + leaf::PARAMETER_1_PRESENT, |parser| {
        metadata_number(parser, q.word + leaf::PARAMETER_1)
    })
}

// Both parameters of a component.
fn both_parameters(parser: &mut Parser<'_>, q: Names<38>) -> Result<(), Reason>
    ensures { Met (both_parameters q.word) parser.old result parser.new }
{
    tri!(metadata_number(parser, q.word + leaf::PARAMETER_0));
    second_parameter(parser, q)
}

// The parameters of a component of this type, which is asked here alone: an enum would have names for numbers that none explains.
fn component_parameters(parser: &mut Parser<'_>, q: Names<38>, kind: u64) -> Result<(), Reason>
    ensures { Met (component_parameters q.word kind) parser.old result parser.new }
{
    match kind {
        0 | 2 | 3 => metadata_number(parser, q.word + leaf::PARAMETER_0),
        1 | 4 => both_parameters(parser, q),
        _ => Err(Reason::ComponentType),
    }
}

// A component by its index.
fn component_reference(parser: &mut Parser<'_>, q: Names<38>) -> Result<(), Reason>
    ensures { Met (component_reference q.word) parser.old result parser.new }
{
    tri!(metadata_number(parser, q.word + leaf::COMPONENT_INDEX));
    let kind = tri!(parser.take(q.word + leaf::COMPONENT_TYPE, 3));
    component_parameters(parser, q, kind)
}

// Channels by their indices, if there may be so many.
fn channel_indices(parser: &mut Parser<'_>, q: Names<38>, n: u64) -> Result<(), Reason>
    ensures { Met (channel_indices q.word n) parser.old result parser.new }
{
    let n = tri!(parser.count(n, 4));
    parser.each(n, |parser, i| {
        metadata_number(parser, q.word + leaf::CHANNEL_INDICES + leaf::THIRD * i)
    })
}

// The channels of a group.
fn channels(parser: &mut Parser<'_>, q: Names<38>) -> Result<(), Reason>
    ensures { Met (channels q.word) parser.old result parser.new }
{
    let n = tri!(metadata_esc(parser, q.word + leaf::CHANNEL_COUNT_MINUS_ONE));
    let contiguous = tri!(parser.flag(q.word + leaf::CONTIGUOUS_CHANNELS));
    if contiguous {
        return metadata_number(parser, q.word + leaf::FIRST_CHANNEL);
    }
    channel_indices(parser, q, n + 1)
}

// A component: a reference, or channels.
fn component(parser: &mut Parser<'_>, q: Names<38>) -> Result<(), Reason>
    ensures { Met (component q.word) parser.old result parser.new }
{
    let reference = tri!(parser.flag(q.word + leaf::COMPONENT_REFERENCE));
    if reference {
        return component_reference(parser, q);
    }
    channels(parser, q)
}

// A component, unless the group is the default.
pub fn component_unless_default(parser: &mut Parser<'_>, q: Names<38>) -> Result<(), Reason>
    ensures { Met (component_unless_default q.word) parser.old result parser.new }
{
    parser.unless_flag(q.word + leaf::DEFAULT, |parser| component(parser, q))
}
