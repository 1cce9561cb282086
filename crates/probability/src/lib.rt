// The probabilities of a table whose names begin with the word `q`: passive_compression.rs, the tables of types 1 and 2.
#![tactic(auto)]

ghost use Rattle.std.specs.Prelude.{◌≡◌, ◌+◌, ◌*◌, ◌≤◌, ◌<◌, ◌^◌, IfOk};
ghost use Rattle.std.specs.Float.Ieee.Scale.{finite};
ghost use Rattle.rules.specs.Derived.{fold};
ghost use Rattle.parser.specs.Met.{Met};
ghost use Rattle.probability.specs.Probability.{from_bits, is_probability, add_float, floats};
ghost use Rattle.probability.specs.Probability.{add_integer, integers, probabilities};

use parser::{Parser, tri};
use rules::{Names, Reason, leaf};

// `f32::is_finite`, asked of the pattern.
pub fn is_finite(raw: u32) -> bool
    ensures { result ≡ finite (from_bits raw) }
{
    raw & 0x7FFF_FFFF < 0x7F80_0000
}

// Whether a pattern is finite and not below zero: -0 is.
fn is_probability(raw: u32) -> bool
    ensures { result ≡ is_probability (from_bits raw) }
{
    is_finite(raw) && !(f32::from_bits(raw) < 0.0)
}

// Value `j` at precision 32, added to those before it.
fn add_float(parser: &mut Parser<'_>, q: Names<38>, j: u64, sum: f32) -> Result<f32, Reason>
    requires { j < 4096 }
    ensures { Met (add_float q.word j sum) parser.old result parser.new }
{
    let raw = tri!(parser.take(q.word + leaf::VALUES_ENCODED + leaf::THIRD * j, 32)) as u32;
    if is_probability(raw) {
        return Ok(sum + f32::from_bits(raw));
    }
    Err(Reason::BadProbabilities)
}

// The sum of `n` values at precision 32, in order.
fn sum_floats(parser: &mut Parser<'_>, q: Names<38>, n: u64) -> Result<f32, Reason>
    requires { n ≤ 4096 }
    ensures { Met (fold (add_float q.word) 0 n (from_bits 0)) parser.old result parser.new }
{
    let mut sum: f32 = 0.0;
    for j in 0..n {
        sum = tri!(add_float(parser, q, j, sum));
    }
    Ok(sum)
}

// The values at precision 32, which come to exactly 1.
fn floats(parser: &mut Parser<'_>, q: Names<38>, n: u64) -> Result<(), Reason>
    requires { n ≤ 4096 }
    ensures { Met (floats q.word n) parser.old result parser.new }
{
    let sum = tri!(sum_floats(parser, q, n));
    if sum == 1.0 {
        return Ok(());
    }
    Err(Reason::BadProbabilities)
}

// Value `j` at another precision, added to those before it.
fn add_integer(
    parser: &mut Parser<'_>,
    q: Names<38>,
    width: usize,
    j: u64,
    sum: u64,
) -> Result<u64, Reason>
    requires width_bound { width ≤ 32 }
    requires j_bound { j < 4096 }
    requires sum_bound { sum ≤ 2 ^ 32 * j }
    ensures met { Met (add_integer q.word width j sum) parser.old result parser.new }
    ensures small { IfOk result (λ v. v < 2 ^ 32 * (j + 1) + 1) }
{
    let raw = tri!(parser.take(q.word + leaf::VALUES_ENCODED + leaf::THIRD * j, width));
    Ok(sum + raw)
}

// The sum of `n` values at another precision.
fn sum_integers(parser: &mut Parser<'_>, q: Names<38>, width: usize, n: u64) -> Result<u64, Reason>
    requires width_bound { width ≤ 32 }
    requires n_bound { n ≤ 4096 }
    ensures { Met (fold (add_integer q.word width) 0 n 0) parser.old result parser.new }
{
    let mut sum: u64 = 0;
    for j in 0..n {
        sum = tri!(add_integer(parser, q, width, j, sum));
    }
    Ok(sum)
}

// The values at another precision, which do not come to 0.
fn integers(parser: &mut Parser<'_>, q: Names<38>, width: usize, n: u64) -> Result<(), Reason>
    requires width_bound { width ≤ 32 }
    requires n_bound { n ≤ 4096 }
    ensures { Met (integers q.word width n) parser.old result parser.new }
{
    let sum = tri!(sum_integers(parser, q, width, n));
    if sum == 0 {
        return Err(Reason::BadProbabilities);
    }
    Ok(())
}

// The `n` values of a table.
pub fn probabilities(parser: &mut Parser<'_>, q: Names<38>, n: u64) -> Result<(), Reason>
    requires { n ≤ 4096 }
    ensures { Met (probabilities q.word n) parser.old result parser.new }
{
    let width = tri!(parser.take(q.word + leaf::VALUE_WIDTH_MINUS_ONE, 5)) as usize + 1;
    if width == 32 {
        return floats(parser, q, n);
    }
    integers(parser, q, width, n)
}
