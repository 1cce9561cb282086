// scene-show: reads a show file from standard input, and prints its text. Its exit status is 1 if that could not be read or
// printed, and 2 if it was called with arguments, which is reported on standard error.
#![tactic(auto)]

use std::env::{Env, FillError};
use std::process::ExitCode;
use std::{fmt, io};

// The most bytes of a file.
const MOST: u64 = 65536;

// Why no text, or not all of it, was printed.
#[derive(Clone, Copy)]
enum Failure {
    Usage,
    Input(io::Error),
    Output(io::Error),
}

impl fmt::Display for Failure {
    fn fmt<W: fmt::Write>(&self, f: &mut fmt::Formatter<W>) -> fmt::Result {
        match self {
            Failure::Usage => write!(f, "usage: scene-show < FILE"),
            Failure::Input(error) => write!(f, "scene-show: standard input: {error}"),
            Failure::Output(error) => write!(f, "scene-show: standard output: {error}"),
        }
    }
}

impl From<Failure> for ExitCode {
    fn from(failure: Failure) -> ExitCode {
        match failure {
            Failure::Usage => ExitCode::from(2),
            Failure::Input(_) | Failure::Output(_) => ExitCode::FAILURE,
        }
    }
}

// Prints the text of a file.
fn print(rt: &impl Print, file: &[u8]) -> io::Result<()> {
    let mut text = [0u8; show::TEXT];
    let answer = show::show(file, &mut text);
    let length = answer.length;
    rt.write_all(&text[..length])
}

// Whether there is an argument after the program's name.
fn has_argument(rt: &impl Env) -> bool {
    !matches!(rt.arg(1, &mut []), Err(FillError::NotPresent))
}

// Prints the text of the file that is read.
fn run<R: Env + Input + Print + AllocGlobal>(rt: &R) -> Result<(), Failure> {
    if has_argument(rt) {
        return Err(Failure::Usage);
    }
    // One byte more, so that a longer file is seen to be longer.
    let file = input::reserved_bytes(rt.alloc(), rt.reader(), MOST + 1).map_err(Failure::Input)?;
    print(rt, &file).map_err(Failure::Output)
}

fn main(rt: HostRuntime) -> ExitCode {
    input::exit_code(&rt, run(&rt))
}
