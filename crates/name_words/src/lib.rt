// Name words (docs/FIELDS.md): whether one is known, and its text, that of its block, a dot, and that of its leaf.
#![tactic(auto)]

ghost use Rattle.std.specs.Prelude.{◌≡◌, ◌&&◌};
ghost use Rattle.text.specs.Writer.{Fits, Wrote};
ghost use Rattle.name_table.specs.Table.{first_of, second_of, third_of, fourth_of, block_row, leaf_row};
ghost use Rattle.name_row.specs.Row.{in_range};
ghost use Rattle.name_words.specs.NameText.{known, name_text};

use rules::{block, leaf};
use text::Writer;

// How many values a word has room for in each index.
const INDICES: u64 = 8192;

// Whether all indices of a word are in the ranges of its rows.
fn in_ranges(word: u64) -> bool
    ensures { result ≡
        (in_range (block_row word) (first_of word) (second_of word) &&
        in_range (leaf_row word) (third_of word) (fourth_of word)) }
{
    let block = name_table::block_row(word);
    let leaf = name_table::leaf_row(word);
    let block_fits = name_row::in_range(
        block,
        word / block::FIRST % INDICES,
        word / block::SECOND % INDICES,
    );
    let leaf_fits = name_row::in_range(leaf, word / leaf::THIRD % INDICES, word / leaf::FOURTH);
    block_fits & leaf_fits
}

// Whether a word is known: its leaf stands in its block, and all indices are in range. Most words that are not known are told by
// their block alone, so the ranges come after it.
pub fn known(word: u64) -> bool
    ensures { result ≡ known word }
{
    let stands = name_row::stands_in(name_table::leaf_row(word), (word / 256 % 16) as u8);
    stands && in_ranges(word)
}

// Puts the text of a word: that of its block, a dot, and that of its leaf.
pub fn put_name(writer: &mut Writer<'_>, word: u64)
    requires { Fits (name_text word) writer.old }
    ensures { Wrote (name_text word) writer.old writer.new }
{
    name_row::put_row(
        writer,
        name_table::block_row(word),
        word / block::FIRST % INDICES,
        word / block::SECOND % INDICES,
    );
    writer.put_byte(b'.');
    name_row::put_row(
        writer,
        name_table::leaf_row(word),
        word / leaf::THIRD % INDICES,
        word / leaf::FOURTH,
    );
}
