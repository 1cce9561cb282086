// scene-fields: reads a scene, a metadata configuration or a show file from standard input, and prints the fields of what is
// asked for, a line each, and then the outcome. What goes wrong is reported on standard error: the exit status is 2 if the
// program was called in another way, and else 1.
#![tactic(auto)]

use arguments::Request;
use part_fields::NotRead;
use rules::Answer;
use std::alloc::AllocError;
use std::env::{Env, FillError};
use std::process::ExitCode;
use std::{fmt, io};

// The most bytes of an input.
const MOST: u64 = 4_194_304;

// Five words for each of 16,384 fields, the most that a reading counts.
const WORDS: usize = 81920;

// The most bytes of an argument that is a word or a number.
const MOST_OF_ARGUMENT: usize = 32;

// Why nothing, or not all, was listed.
#[derive(Clone, Copy)]
enum Failure {
    Usage,
    Input(io::Error),
    TooLong,
    NoPart,
    NoScene,
    Output(io::Error),
    Memory,
}

impl fmt::Display for Failure {
    fn fmt<W: fmt::Write>(&self, f: &mut fmt::Formatter<W>) -> fmt::Result {
        match self {
            Failure::Usage => write!(f, "usage: scene-fields scene|metadata|part K [BIT] < FILE"),
            Failure::Input(error) => write!(f, "scene-fields: standard input: {error}"),
            Failure::TooLong => write!(
                f,
                "scene-fields: standard input: more than 4,194,304 bytes"
            ),
            Failure::NoPart => write!(f, "scene-fields: no such part in the show"),
            Failure::NoScene => write!(
                f,
                "scene-fields: part 0 of the show is not read, so no update is"
            ),
            Failure::Output(error) => write!(f, "scene-fields: standard output: {error}"),
            Failure::Memory => write!(f, "scene-fields: out of memory"),
        }
    }
}

impl From<AllocError> for Failure {
    fn from(_error: AllocError) -> Failure {
        Failure::Memory
    }
}

impl From<NotRead> for Failure {
    fn from(why: NotRead) -> Failure {
        match why {
            NotRead::NoPart => Failure::NoPart,
            NotRead::NoScene => Failure::NoScene,
        }
    }
}

impl From<Failure> for ExitCode {
    fn from(failure: Failure) -> ExitCode {
        match failure {
            Failure::Usage => ExitCode::from(2),
            _ => ExitCode::FAILURE,
        }
    }
}

// Prints the line of field `i`.
fn print_field(rt: &impl Print, words: &[u64], i: usize) -> io::Result<()> {
    let mut line = [0u8; text::LINE];
    let length = field_lines::field_line(words, i, &mut line);
    rt.write_all(&line[..length])
}

fn print_outcome(rt: &impl Print, answer: Answer) -> io::Result<()> {
    let mut line = [0u8; text::LINE];
    let length = outcome_lines::outcome_line(answer, &mut line);
    rt.write_all(&line[..length])
}

// Prints the lines of all fields and of the outcome, as long as they can be written.
fn print(rt: &impl Print, answer: Answer, words: &[u64]) -> io::Result<()> {
    for i in 0..answer.fields {
        print_field(rt, words, i)?;
    }
    print_outcome(rt, answer)
}

// Reads what is asked for.
fn read(request: Request, file: &[u8], words: &mut [u64]) -> Result<Answer, Failure> {
    match request {
        Request::Scene(bit) => Ok(scene::read_scene(file, bit, true, words).graph.answer),
        Request::Metadata(bit) => Ok(metadata::read_metadata(file, bit, true, words)),
        Request::Part(k, bit) => Ok(part_fields::read_part(file, k, bit, words)?),
    }
}

// The arguments after the program's name. One that is too long for a word or a number is empty, and so is neither.
fn arguments<R: Env + AllocGlobal>(rt: &R) -> Result<Vec<Vec<u8>>, AllocError> {
    let mut all = Vec::new(rt.alloc());
    for i in 1..usize::MAX {
        let mut room = [0u8; MOST_OF_ARGUMENT];
        match rt.arg(i, &mut room) {
            Ok(length) => all.push(room[..length].to_vec(rt.alloc())?)?,
            Err(FillError::TooLong) => all.push(Vec::new(rt.alloc()))?,
            Err(FillError::NotPresent) => break,
        }
    }
    Ok(all)
}

// What the arguments ask for, if it is anything.
fn asked<R: Env + AllocGlobal>(rt: &R) -> Result<Option<Request>, AllocError> {
    let arguments = arguments(rt)?;
    let texts: Vec<&[u8]> = arguments
        .iter()
        .map(|text| text.as_slice())
        .collect(rt.alloc())?;
    Ok(arguments::request_of(&texts))
}

// Lists what is asked for.
fn run<R: Env + Input + Print + AllocGlobal>(rt: &R) -> Result<(), Failure> {
    let request = asked(rt)?.ok_or(Failure::Usage)?;
    // One byte more, so that a longer input is seen to be longer.
    let file = input::reserved_bytes(rt.alloc(), rt.reader(), MOST + 1).map_err(Failure::Input)?;
    if MOST < file.len() as u64 {
        return Err(Failure::TooLong);
    }
    let mut words = vec![in rt.alloc(); 0; WORDS]?;
    let answer = read(request, &file, &mut words)?;
    print(rt, answer, &words).map_err(Failure::Output)
}

fn main(rt: HostRuntime) -> ExitCode {
    input::exit_code(&rt, run(&rt))
}
