// The answer of a reading as it crosses to C and Rust: its outcome as two numbers, and everything else as it is.
#![tactic(auto)]

ghost use Rattle.std.specs.Prelude.{◌≡◌};
ghost use Rattle.rules.specs.Answer.{outcome_number};
ghost use Rattle.exported.specs.Exported.{outcome_code, gateway_answer, exported, exported_graph};

use rules::{Answer, Outcome};
use validation::GraphAnswer;

// An answer: the outcome is 0 if read, 1 if refused and 2 if stopped, and the number 0 if read. Counted are the fields of a
// reading, the bytes of a name's text, or the bits of a packet.
#[repr(C)]
#[derive(Clone, Copy)]
pub struct GatewayAnswer {
    pub outcome: u64,
    pub number: u64,
    pub position: usize,
    pub counted: usize,
}

// An answer with the largest rank of the shapes, 0 unless they were read.
#[repr(C)]
#[derive(Clone, Copy)]
pub struct GatewayGraphAnswer {
    pub outcome: u64,
    pub number: u64,
    pub position: usize,
    pub counted: usize,
    pub deepest: usize,
}

// The outcome as a number, and the papers' number with it.
fn outcome_code(outcome: Outcome) -> u64
    ensures { result ≡ outcome_code outcome }
{
    match outcome {
        Outcome::Read => 0,
        Outcome::Refused(_) => 1,
        Outcome::Stopped(_) => 2,
    }
}

fn outcome_number(outcome: Outcome) -> u64
    ensures { result ≡ outcome_number outcome }
{
    match outcome {
        Outcome::Read => 0,
        Outcome::Refused(number) => number as u64,
        Outcome::Stopped(number) => number as u64,
    }
}

// An answer as it crosses.
pub fn gateway_answer(outcome: Outcome, position: usize, counted: usize) -> GatewayAnswer
    ensures { result ≡ gateway_answer outcome position counted }
{
    let code = outcome_code(outcome);
    let number = outcome_number(outcome);
    GatewayAnswer {
        outcome: code,
        number,
        position,
        counted,
    }
}

pub fn exported(a: Answer) -> GatewayAnswer
    ensures { result ≡ exported a }
{
    let outcome = a.outcome;
    gateway_answer(outcome, a.position, a.fields)
}

pub fn exported_graph(g: GraphAnswer) -> GatewayGraphAnswer
    ensures { result ≡ exported_graph g }
{
    let a = exported(g.answer);
    GatewayGraphAnswer {
        outcome: a.outcome,
        number: a.number,
        position: a.position,
        counted: a.counted,
        deepest: g.deepest,
    }
}
