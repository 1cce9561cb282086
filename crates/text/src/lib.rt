// Text put into bytes that the caller lends, in which there is room for it. No function of the kit is called: the crate `linked` needs
// the link of every function that is, and the kit keeps those of its own to itself.
#![tactic(auto)]

pub mod table;

ghost use Rattle.std.specs.Prelude.{◌≡◌, ◌+◌, ◌≤◌, [], ◌∷◌, ◌++◌, length};
ghost use Rattle.text.specs.Text.{decimal, newline, Put};

use rules::Outcome;

// What writing a text answers: the outcome with its number, the position 0, and the length of the text.
#[derive(Clone, Copy)]
pub struct TextAnswer {
    pub outcome: Outcome,
    pub position: usize,
    pub length: usize,
}

// The bytes that are lent for a line of a listing: enough for every field and every outcome.
pub const LINE: usize = 256;

// Bytes that a caller lends for a text, and how many of them are written.
#[derive(Drop)]
pub struct Writer<'a> {
    out: &'a mut [u8],
    written: usize,
    ghost written_in: { written ≤ length out.now },
}

impl<'a> Writer<'a> {
    ghost use Rattle.text.specs.Writer.{Fits, Wrote, Lent};

    // At the beginning of the bytes.
    pub fn new(out: &'a mut [u8]) -> Writer<'a>
        ensures { Lent out.entry result }
    {
        Writer { out, written: 0 }
    }

    // How long the text is so far.
    pub fn length(&self) -> usize
        ensures { result ≡ self.now.written }
    {
        self.written
    }

    pub fn put_byte(&mut self, byte: u8)
        requires { Fits (byte ∷ []) self.old }
        ensures { Wrote (byte ∷ []) self.old self.new }
    {
        self.out[self.written] = byte;
        self.written += 1;
    }

    // Puts a text.
    pub fn put(&mut self, text: &[u8])
        requires { Fits text.now self.old }
        ensures { Wrote text.now self.old self.new }
    {
        for byte in text {
            self.put_byte(*byte);
        }
    }

    // Puts a number in decimal.
    pub fn put_decimal(&mut self, n: u64)
        requires { Fits (decimal n) self.old }
        ensures { Wrote (decimal n) self.old self.new }
    {
        self.written = put_digits(self.out, self.written, n);
    }

    // Puts a word and the number after it.
    pub fn put_number(&mut self, word: &[u8], n: u64)
        requires { Fits (word.now ++ decimal n) self.old }
        ensures { Wrote (word.now ++ decimal n) self.old self.new }
    {
        self.put(word);
        self.put_decimal(n);
    }

    // Puts the last word of a line, with the number after it, and ends the line.
    pub fn put_last(&mut self, word: &[u8], n: u64)
        requires { Fits ((word.now ++ decimal n) ++ newline) self.old }
        ensures { Wrote ((word.now ++ decimal n) ++ newline) self.old self.new }
    {
        self.put_number(word, n);
        self.put_byte(b'\n');
    }

    // Puts the last two.
    pub fn put_two(&mut self, first: &[u8], m: u64, last: &[u8], n: u64)
        requires { Fits ((first.now ++ decimal m) ++ ((last.now ++ decimal n) ++ newline)) self.old }
        ensures { Wrote ((first.now ++ decimal m) ++ ((last.now ++ decimal n) ++ newline)) self.old self.new }
    {
        self.put_number(first, m);
        self.put_last(last, n);
    }
}

// The digits of a number, from a place on, and the place after them. It is lent the bytes alone, so that a writer can stay in registers.
fn put_digits(out: &mut [u8], at: usize, n: u64) -> usize
    requires { at + length (decimal n) ≤ length out.old }
    ensures { Put out.old at (decimal n) result out.new }
{
    let mut last = at;
    if n >= 10 {
        last = put_digits(out, at, n / 10);
    }
    out[last] = b'0' + (n % 10) as u8;
    last + 1
}
