// Tables of texts: a row for each number from 0 on.
ghost use Rattle.std.specs.Prelude.{◌≡◌, ◌<◌, [], length, get_or};
ghost use Rattle.text.specs.Table.{texts};

// The row of a number, row 0 if the table has none.
pub fn row_or_first<'a>(table: &[&'a [u8]], n: usize) -> &'a [u8]
    requires { 0 < length table.now }
    ensures { result.now ≡ get_or (texts table.now) n (get_or (texts table.now) 0 []) }
{
    if n < table.len() {
        return table[n];
    }
    table[0]
}
