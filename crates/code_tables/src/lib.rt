// The tables of a compression configuration: codewords or probabilities for each symbol: passive_compression.rs. The names of a
// table begin with the word `q`.
#![tactic(auto)]

ghost use Rattle.std.specs.Prelude.{◌≡◌, ◌≤◌, ◌<◌, ◌^◌, IfOk};
ghost use Rattle.parser.specs.Met.{Met};
ghost use Rattle.code_tables.specs.Kind.{code_of};
ghost use Rattle.code_tables.specs.Tables.{codeword, entries, table, table_count, tables};

use parser::{Parser, tri};
use rules::{Names, Reason, block, leaf};

// The types of compression that have tables, 1 to 3: of probabilities, the first two, which are read alike, or of codewords.
#[derive(Clone, Copy)]
pub enum TableKind {
    FirstProbabilities,
    SecondProbabilities,
    Codewords,
}

// Codeword `j` of the table whose names begin with `q`.
fn codeword(parser: &mut Parser<'_>, q: Names<38>, j: u64) -> Result<(), Reason>
    requires { j < 4096 }
    ensures { Met (codeword q.word j) parser.old result parser.new }
{
    let width = tri!(parser.escaped(
        q.word + leaf::CODE_WIDTH_MINUS_ONE + leaf::THIRD * j,
        [5, 8, 16]
    )) as usize
        + 1;
    if 64 < width {
        return Err(Reason::CodewordWidth);
    }
    tri!(parser.take(q.word + leaf::CODE + leaf::THIRD * j, width));
    Ok(())
}

// How many symbols have `width` bits.
fn symbols(width: u64) -> u64
    requires { width ≤ 12 }
    ensures { (result ≡ 2 ^ width) × (result ≤ 4096) }
{
    1 << width
}

// The entries of a table for symbols of `width` bits.
fn entries(parser: &mut Parser<'_>, kind: TableKind, q: Names<38>, width: u64) -> Result<(), Reason>
    requires { width ≤ 12 }
    ensures { Met (entries (code_of kind) q.word width) parser.old result parser.new }
{
    let n = symbols(width);
    match kind {
        TableKind::FirstProbabilities | TableKind::SecondProbabilities => {
            probability::probabilities(parser, q, n)
        }
        TableKind::Codewords => parser.each(n, |parser, j| codeword(parser, q, j)),
    }
}

// Table `i`.
fn table(parser: &mut Parser<'_>, kind: TableKind, i: u64) -> Result<(), Reason>
    requires { i < 4096 }
    ensures { Met (table (code_of kind) i) parser.old result parser.new }
{
    let q = Names {
        word: block::TABLES + block::FIRST * i,
    };
    let width = tri!(parser.escaped(q.word + leaf::SYMBOL_WIDTH_MINUS_ONE, [5, 8, 16])) + 1;
    if 12 < width {
        return Err(Reason::SymbolWidth);
    }
    entries(parser, kind, q, width)
}

// How many tables there are.
fn table_count(parser: &mut Parser<'_>) -> Result<u64, Reason>
    ensures met { Met table_count parser.old result parser.new }
    ensures small { IfOk result (λ v. v < 4097) }
{
    let n = tri!(parser.escaped(block::COMPRESSION + leaf::TABLE_COUNT_MINUS_ONE, [3, 8, 16]));
    parser.count(n + 1, 5)
}

// So many of one kind, one after another.
pub fn tables(parser: &mut Parser<'_>, kind: TableKind) -> Result<(), Reason>
    ensures { Met (tables (code_of kind)) parser.old result parser.new }
{
    let n = tri!(table_count(parser));
    parser.each(n, |parser, i| table(parser, kind, i))
}
