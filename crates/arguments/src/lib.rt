// What the arguments of `scene-fields` ask for.
#![tactic(auto)]

ghost use Rattle.std.specs.Prelude.{◌≡◌};
ghost use Rattle.digits.specs.Digits.{number_in};
ghost use Rattle.arguments.specs.Request.{texts_of, bit_in, part_in, request_of};

// The bit at which a scene or a metadata configuration begins; or a part of a show, and the bit of it.
#[derive(Clone, Copy)]
pub enum Request {
    Scene(usize),
    Metadata(usize),
    Part(usize, usize),
}

// The number that an argument is.
fn number(argument: &[u8]) -> Option<usize>
    ensures { result ≡ number_in argument.now }
{
    Some(digits::number_in(argument)? as usize)
}

// The bit that the last argument is, or 0 where it is left out.
#[tactic(auto, unfolding(crate::specs::Request::bit_in))]
fn bit(arguments: &[&[u8]]) -> Option<usize>
    ensures { result ≡ bit_in (texts_of arguments.now) }
{
    match *arguments {
        [] => Some(0),
        [bit] => number(bit),
        _ => None,
    }
}

// A part of a show, and the bit of it.
#[tactic(auto, unfolding(crate::specs::Request::part_in))]
fn part(arguments: &[&[u8]]) -> Option<Request>
    ensures { result ≡ part_in (texts_of arguments.now) }
{
    let (part, rest) = arguments.split_first()?;
    Some(Request::Part(number(part)?, bit(rest)?))
}

// What the arguments ask for, if it is anything.
#[tactic(auto, unfolding(crate::specs::Request::request_of))]
pub fn request_of(arguments: &[&[u8]]) -> Option<Request>
    ensures { result ≡ request_of (texts_of arguments.now) }
{
    let (word, rest) = arguments.split_first()?;
    if *word == b"scene".as_slice() {
        Some(Request::Scene(bit(rest)?))
    } else if *word == b"metadata".as_slice() {
        Some(Request::Metadata(bit(rest)?))
    } else if *word == b"part".as_slice() {
        part(rest)
    } else {
        None
    }
}
