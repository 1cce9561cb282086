// What each number means, in words (docs/NUMBERS.md).
#![tactic(auto)]

ghost use Rattle.std.specs.Prelude.{◌≡◌};
ghost use Rattle.text.specs.Writer.{Fits, Wrote};
ghost use Rattle.numbers.specs.Meaning.{meaning};

use text::Writer;

// The words for each number from 0 on. Numbers that the papers do not have, 0 and 27 to 30 among them, have those of 0.
const MEANINGS: [&[u8]; 40] = [
    b"a number without a meaning",
    b"the input has more than 8,388,608 bytes",
    b"more than 63 shapes, or a precision above 24",
    b"the bits asked for are not there",
    b"16,384 fields are counted already",
    b"no five words remain for the field",
    b"count above 4,096, or above what the bits left can hold",
    b"no type 0 among 32 position extensions",
    b"a chain of parents leaves the declared positions",
    b"a chain of parents closes a circle",
    b"no configuration is present",
    b"more than 128 global parameters",
    b"more than 128 renderer parameters",
    b"reverb type above 3",
    b"matrix location above 2",
    b"radiation type above 4",
    b"component type above 4",
    b"label not ended within 4,097 bytes",
    b"too few headphone bytes for the channels",
    b"compression bytes not inside the input, or not used up",
    b"symbol width above 12",
    b"codeword above 64 bits",
    b"probability rules not kept, or parameter not finite",
    b"show file of more than 65,536 bytes",
    b"header of the show file not sound",
    b"name word not known",
    b"buffer too short for the text",
    b"a number without a meaning",
    b"a number without a meaning",
    b"a number without a meaning",
    b"a number without a meaning",
    b"room-geometry fallback not 0",
    b"64-bit radiation value",
    b"HRTF type 2",
    b"HRTF type above 2",
    b"LZW initial width above 15, or greatest width above 16",
    b"not as many new parents as shapes",
    b"the parent that changes is not dynamic",
    b"buffer too short for the packet",
    b"eight or more bits follow, or one of them is 1",
];

// What a number means.
fn meaning(number: u16) -> &'static [u8]
    ensures { result.now ≡ meaning number }
{
    text::table::row_or_first(&MEANINGS, number as usize)
}

// Puts what a number means.
pub fn put_meaning(writer: &mut Writer<'_>, number: u16)
    requires { Fits (meaning number) writer.old }
    ensures { Wrote (meaning number) writer.old writer.new }
{
    writer.put(meaning(number));
}
