// One row of the table of docs/FIELDS.md (`name_table` has its columns): whether indices are in its ranges, whether it stands in a
// block, and its text with the indices in their places.
#![tactic(auto)]

ghost use Rattle.std.specs.Prelude.{◌≡◌, ◌+◌, ◌≤◌, length};
ghost use Rattle.text.specs.Writer.{Fits, Wrote};
ghost use Rattle.name_row.specs.Row.{number_at, in_range, stands_in, character, indexed};

use text::Writer;

// The four digits in the columns from `k` on; a blank counts as 0.
fn number_at(row: &[u8], k: usize) -> u64
    requires { k + 4 ≤ length row.now }
    ensures { result ≡ number_at row.now k }
{
    let thousands = (row[k] % 16) as u64;
    let hundreds = (row[k + 1] % 16) as u64;
    let tens = (row[k + 2] % 16) as u64;
    let ones = (row[k + 3] % 16) as u64;
    1000 * thousands + 100 * hundreds + 10 * tens + ones
}

// Whether two indices are in the ranges of a row.
pub fn in_range(row: &[u8], i: u64, j: u64) -> bool
    requires { length row.now ≡ 59 }
    ensures { result ≡ in_range row.now i j }
{
    let first = number_at(row, 46);
    let second = number_at(row, 51);
    (i <= first) & (j <= second)
}

// Whether a leaf stands in a block.
pub fn stands_in(row: &[u8], block: u8) -> bool
    requires row_len { length row.now ≡ 59 }
    requires block_bound { block ≤ 15 }
    ensures { result ≡ stands_in row.now block }
{
    let digit = 48 + block;
    (row[56] == digit) | ((row[57] == digit) | (row[58] == digit))
}

// Puts a character of a row, and after `[` an index.
fn put_character(writer: &mut Writer<'_>, c: u8, i: u64)
    requires { Fits (character c i) writer.old }
    ensures { Wrote (character c i) writer.old writer.new }
{
    writer.put_byte(c);
    if c == b'[' {
        writer.put_decimal(i);
    }
}

// Puts the text of a row, which ends at a blank: `i` is its first index, and `j` the next.
pub fn put_row(writer: &mut Writer<'_>, row: &[u8], i: u64, j: u64)
    requires { Fits (indexed row.now i j) writer.old }
    ensures { Wrote (indexed row.now i j) writer.old writer.new }
{
    let mut index = i;
    for c in row {
        if *c == b' ' {
            return;
        }
        put_character(writer, *c, index);
        if *c == b'[' {
            index = j;
        }
    }
}
