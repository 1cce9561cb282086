// A script of fields: operations of a reading, one after another, as a record of the oracle holds them. Each asks the method of
// the parser that it names.
//
// A script may refuse or stop by any number of 16 bits, also by one that no reading has, and so it comes to an outcome. What comes
// after the operation that ended it is read, and asks nothing.
#![tactic(auto)]

ghost use Rattle.std.specs.Prelude.{◌≡◌, ◌≤◌, IfErr};
ghost use Rattle.rules.specs.Answer.{ended_as};

use parser::Parser;
use rules::{Outcome, Reason};
use std::io::Read;

// The last bit at which a window can end. An end past every input is as good as this one.
const LAST_END: usize = 67108864;

// A code that no operation has.
#[derive(Clone, Copy)]
struct UnknownCode;

// What an operation asks for.
#[derive(Clone, Copy)]
enum Code {
    Take,
    Flag,
    Escaped,
    Payload,
    Label,
    Count,
    SetEnd,
    Refuse,
    Stop,
}

impl TryFrom<u64> for Code {
    type Error = UnknownCode;

    fn try_from(code: u64) -> Result<Code, UnknownCode> {
        match code {
            0 => Ok(Code::Take),
            1 => Ok(Code::Flag),
            2 => Ok(Code::Escaped),
            3 => Ok(Code::Payload),
            4 => Ok(Code::Label),
            5 => Ok(Code::Count),
            6 => Ok(Code::SetEnd),
            7 => Ok(Code::Refuse),
            8 => Ok(Code::Stop),
            _ => Err(UnknownCode),
        }
    }
}

// An operation: its code (1 byte), how often it is repeated (2), three numbers (4 each) and a name word (8).
#[derive(Clone, Copy)]
struct Operation {
    code: Code,
    times: u64,
    numbers: [usize; 3],
    name: u64,
}

// A number of 16 bits, which all numbers of refusals and stops have.
fn short(number: usize) -> u16 {
    number.min(65535) as u16
}

impl Operation {
    // The next one of the input.
    fn next<R: Read>(input: &mut R) -> Result<Operation, UnknownCode> {
        let bytes = record::next_bytes::<23, R>(input);
        let code = Code::try_from(record::number(&bytes[..1]))?;
        Ok(Operation {
            code,
            times: record::number(&bytes[1..3]),
            numbers: [
                record::number(&bytes[3..7]) as usize,
                record::number(&bytes[7..11]) as usize,
                record::number(&bytes[11..15]) as usize,
            ],
            name: record::number(&bytes[15..]),
        })
    }

    // Asks the parser once. What no reading asks for is passed over, and shows as a wrong answer.
    fn step(&self, parser: &mut Parser<'_>) -> Result<(), Outcome>
        ensures { parser.old.fields ≤ 16384 → parser.new.fields ≤ 16384 }
    {
        let name = self.name;
        let [first, second, third] = self.numbers;
        match self.code {
            Code::Take => {
                if first <= 64 {
                    parser.take(name, first)?;
                }
            }
            Code::Flag => {
                parser.flag(name)?;
            }
            Code::Escaped => {
                if first <= 20 && second <= 20 && third <= 20 {
                    parser.escaped(name, [first, second, third])?;
                }
            }
            Code::Payload => parser.passive_bits(name, first)?,
            Code::Label => parser.label(name)?,
            Code::Count => {
                if second <= 4096 {
                    parser.count(first as u64, second as u64)?;
                }
            }
            Code::SetEnd => parser.set_end(first.min(LAST_END))?,
            Code::Refuse => return Err(Outcome::Refused(short(first))),
            Code::Stop => return Err(Outcome::Stopped(short(first))),
        }
        Ok(())
    }

    // Asks as often as it says.
    fn run(&self, parser: &mut Parser<'_>) -> Result<(), Outcome>
        ensures { parser.old.fields ≤ 16384 → parser.new.fields ≤ 16384 }
    {
        for _ in 0..self.times {
            self.step(parser)?;
        }
        Ok(())
    }
}

// The operations of a record, of which there are `n`, on a reading that has begun so, and what it has come to. A reading that has
// ended stays as it is.
pub fn operations<R: Read>(
    input: &mut R,
    parser: &mut Parser<'_>,
    begun: Result<(), Reason>,
    n: usize,
) -> Outcome
    ensures ended { IfErr begun (λ _. parser.new ≡ parser.old) }
    ensures told { IfErr begun (λ _. result ≡ ended_as begun) }
    ensures few { parser.old.fields ≤ 16384 → parser.new.fields ≤ 16384 }
{
    let mut reading = Outcome::from(begun);
    for _ in 0..n {
        if let (Ok(operation), Outcome::Read) = (Operation::next(input), reading) {
            if let Err(outcome) = operation.run(parser) {
                reading = outcome;
            }
        }
    }
    reading
}
