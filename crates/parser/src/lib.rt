// The Rust's `Parser`, and the `BitReader` in it: the bytes, the window that is read of them, the fields counted, and the lent
// words that they are written into. Each method that reads or counts is the Rust's of that name, but for `label` and `entry`, which
// the Rust has within others.
//
// What a method promises is `Met` of its rule (specs/Met.antt): the parser goes from where it stands as `reading` says, to the
// same value or end, position, end of the window and count, with every lent word as it should be, over the same bytes and words.
// After an `Err` the parser tells where the reading ended and after how many fields; nothing here reads on.
//
// `each`, `if_flag` and `unless_flag` are handed what is to be read as a closure, and promise the rule of the whole to whoever
// shows the rule of one call (specs/Each.antt). The ghost fields keep position and end small enough to be added to, so that no
// reading asks its caller for that.
#![tactic(auto)]

ghost use Rattle.std.specs.Prelude.{◌≡◌, ◌≤◌, ◌<◌, ◌+◌, ◌*◌, ◌^◌, IfOk, ◌&&◌, leb, length};
ghost use Rattle.std.proofs.lemmas.List.Edits.{sets};
ghost use Rattle.rules.specs.Words.{words_of};
ghost use Rattle.rules.specs.Derived.{is_full};
ghost use Rattle.parser.specs.Widths.{Narrow, Widths};

use rules::{Answer, Field, FieldValue, Outcome, Reason};

// Rust's `?` without a conversion. `?` itself calls functions of the kit, and the crate `linked` needs the link of every function
// that is called, which the kit keeps to itself.
#[macro_export]
macro_rules! tri {
    ($result:expr) => {
        match $result {
            Ok(value) => value,
            Err(reason) => return Err(reason),
        }
    };
}

// A parser stands at the bit `position` of the bytes, and reads up to the bit `end`.
#[derive(Drop)]
pub struct Parser<'a> {
    bytes: &'a [u8],
    words: &'a mut [u64],
    position: usize,
    end: usize,
    fields: usize,
    recording: bool,
    ghost position_in: { position ≤ end },
    ghost end_in: { end ≤ 67108864 },
}

// A field in the five words from `k`.
fn put(words: &mut [u64], k: usize, field: Field)
    requires { k + 5 ≤ length words.old }
    ensures { words.new ≡ sets words.old k (words_of field) }
{
    words[k] = field.bit_offset as u64;
    words[k + 1] = field.bit_length as u64;
    words[k + 2] = field.value.kind();
    words[k + 3] = field.value.word();
    words[k + 4] = field.name;
}

// Whether `v` is all ones in `width` bits.
fn is_full(v: u64, width: usize) -> bool
    requires { width < 64 }
    ensures { result ≡ is_full v width }
{
    v == (1 << width) - 1
}

// Whether `n` things of at least `least` bits are in the limit and in the bits left.
fn fits(n: u64, least: u64, left: u64) -> bool
    requires { least ≤ 4096 }
    ensures { result ≡ (leb n 4096 && leb (n * least) left) }
{
    n <= Parser::COUNT && n * least <= left
}

impl<'a> Parser<'a> {
    ghost use Rattle.rules.specs.Rule.{bits, skip, set_end, field};
    ghost use Rattle.rules.specs.Derived.{take, flag, parts, escaped, passive_bits};
    ghost use Rattle.rules.specs.Derived.{passive_values, label_bytes, label, count, drc_count};
    ghost use Rattle.parser.specs.Met.{Met};
    ghost use Rattle.parser.specs.Begun.{Begun, entered};
    ghost use Rattle.rules.specs.Answer.{ended_as};
    ghost use Rattle.std.specs.Prelude.{ℕ};
    ghost use Rattle.rules.specs.Rule.{Rule};
    ghost use Rattle.rules.specs.Derived.{repeat};
    ghost use Rattle.parser.specs.Each.{EachMet, CallMet, optional, unless};

    // The greatest number of fields counted.
    pub const FIELDS: usize = 16384;

    // The greatest number of bytes of an input: `MAX_COOKIE_BYTES`.
    pub const BYTES: usize = 8388608;

    // The greatest number of positions.
    pub const POSITIONS: usize = 63;

    // The greatest count of things declared.
    pub const COUNT: u64 = 4096;

    // The greatest number of parameters, of a whole configuration and of a group's data.
    pub const PARAMETERS: u64 = 128;

    // The greatest number of bytes of a label, its zero byte included.
    pub const LABEL: u64 = 4097;

    // A reading of nothing yet, with `fields` counted before it.
    pub fn new(bytes: &'a [u8], words: &'a mut [u64], recording: bool, fields: usize) -> Parser<'a>
        ensures { Begun bytes.entry words.entry recording fields result }
    {
        Parser {
            bytes,
            words,
            position: 0,
            end: 0,
            fields,
            recording,
        }
    }

    pub fn position(&self) -> usize
        ensures { result ≡ self.now.position }
    {
        self.position
    }

    // The end of the window.
    pub fn end(&self) -> usize
        ensures { result ≡ self.now.end }
    {
        self.end
    }

    // What a reading that ended so has come to.
    pub fn answer(&self, ended: Result<(), Reason>) -> Answer
        ensures { result ≡ record { outcome = ended_as ended; position = self.now.position; fields = self.now.fields } }
    {
        Answer {
            outcome: Outcome::from(ended),
            position: self.position,
            fields: self.fields,
        }
    }

    // `BitReader::read`: `width` bits, of which no field is made yet.
    pub fn read(&mut self, width: usize) -> Result<u64, Reason>
        requires { width ≤ 64 }
        ensures met { Met (bits width) self.old result self.new }
        ensures small { IfOk result (λ v. v < 2 ^ width) }
    {
        if self.end - self.position < width {
            return Err(Reason::BitsMissing);
        }
        let value = bits::read(self.bytes, self.position, width);
        self.position += width;
        Ok(value)
    }

    // `BitReader::skip`.
    pub fn skip(&mut self, width: usize) -> Result<(), Reason>
        ensures { Met (skip width) self.old result self.new }
    {
        if self.end - self.position < width {
            return Err(Reason::BitsMissing);
        }
        self.position += width;
        Ok(())
    }

    // `BitReader::set_end`: the window ends at bit `x` from here on.
    pub fn set_end(&mut self, x: usize) -> Result<(), Reason>
        requires { x ≤ 67108864 }
        ensures { Met (set_end x) self.old result self.new }
    {
        if x < self.position {
            return Err(Reason::BitsMissing);
        }
        if self.bytes.len() < (x + 7) / 8 {
            return Err(Reason::BitsMissing);
        }
        self.end = x;
        Ok(())
    }

    // A field from `start` up to the position, counted and, when recording, written.
    pub fn record(&mut self, name: u64, start: usize, value: FieldValue) -> Result<(), Reason>
        requires { start ≤ self.old.position }
        ensures { Met (field name start value) self.old result self.new }
    {
        let n = self.fields;
        if Self::FIELDS <= n {
            return Err(Reason::TooManyFields);
        }
        if self.recording {
            let k = 5 * n;
            if self.words.len() < k + 5 {
                return Err(Reason::NoRoom);
            }
            let bit_length = self.position - start;
            put(
                self.words,
                k,
                Field {
                    bit_offset: start,
                    bit_length,
                    value,
                    name,
                },
            );
        }
        self.fields = n + 1;
        Ok(())
    }

    // A number of `width` bits.
    pub fn take(&mut self, name: u64, width: usize) -> Result<u64, Reason>
        requires { width ≤ 64 }
        ensures met { Met (take name width) self.old result self.new }
        ensures small { IfOk result (λ v. v < 2 ^ width) }
    {
        let start = self.position;
        let value = tri!(self.read(width));
        tri!(self.record(name, start, FieldValue::Number(value)));
        Ok(value)
    }

    // A field of one bit.
    pub fn flag(&mut self, name: u64) -> Result<bool, Reason>
        ensures { Met (flag name) self.old result self.new }
    {
        let start = self.position;
        let value = tri!(self.read(1)) != 0;
        tri!(self.record(name, start, FieldValue::Flag(value)));
        Ok(value)
    }

    // Numbers of these widths, their names `step` apart.
    pub fn passive_values(&mut self, name: u64, step: u64, widths: &[usize]) -> Result<(), Reason>
        requires narrow { Narrow widths.now }
        requires names { name + step * length widths.now < 2 ^ 64 }
        ensures { Met (passive_values name step widths.now) self.old result self.new }
    {
        let mut at = name;
        for width in widths {
            tri!(self.take(at, *width));
            at += step;
        }
        Ok(())
    }

    // `n`, of things of at least `least` bits, if there may be as many.
    pub fn count(&self, n: u64, least: u64) -> Result<u64, Reason>
        requires { least ≤ 4096 }
        ensures met { Met (count n least) self.now result self.now }
        ensures small { IfOk result (λ a. (a < 4097) × (a ≤ n)) }
    {
        if fits(n, least, (self.end - self.position) as u64) {
            return Ok(n);
        }
        Err(Reason::BadCount)
    }

    // A count of `width` bits.
    pub fn drc_count(&mut self, name: u64, width: usize, least: u64) -> Result<u64, Reason>
        requires width_bound { width ≤ 64 }
        requires least_bound { least ≤ 4096 }
        ensures met { Met (drc_count name width least) self.old result self.new }
        ensures small { IfOk result (λ a. a < 2 ^ width) }
    {
        let n = tri!(self.take(name, width));
        self.count(n, least)
    }

    // The parts of an escaped number, added up.
    fn parts(&mut self, widths: [usize; 3]) -> Result<u64, Reason>
        requires { Widths widths }
        ensures met { Met (parts 0 widths) self.old result self.new }
        ensures small { IfOk result (λ v. v < 2 ^ 22) }
    {
        let mut value = 0;
        for width in widths {
            let part = tri!(self.read(width));
            value += part;
            if !is_full(part, width) {
                return Ok(value);
            }
        }
        Ok(value)
    }

    // `esc`: an escaped number of three widths.
    pub fn escaped(&mut self, name: u64, widths: [usize; 3]) -> Result<u64, Reason>
        requires { Widths widths }
        ensures met { Met (escaped name widths) self.old result self.new }
        ensures small { IfOk result (λ v. v < 2 ^ 22) }
    {
        let start = self.position;
        let value = tri!(self.parts(widths));
        tri!(self.record(name, start, FieldValue::Number(value)));
        Ok(value)
    }

    // A payload of `width` bits, passed over at once.
    pub fn passive_bits(&mut self, name: u64, width: usize) -> Result<(), Reason>
        ensures { Met (passive_bits name width) self.old result self.new }
    {
        if width == 0 {
            return Ok(());
        }
        let start = self.position;
        tri!(self.skip(width));
        self.record(name, start, FieldValue::Bits(width as u64))
    }

    // `f` at each number below `n`, in order, until one ends the reading.
    pub fn each<F: Fn(&mut Parser<'_>, u64) -> Result<(), Reason>>(
        &mut self,
        n: u64,
        f: F,
    ) -> Result<(), Reason>
        requires { (i : ℕ) → i < n → (p : _) → F.pre f p i }
        ensures { (rule : ℕ → Rule (Unit {0})) → EachMet (F.post f) rule n → Met (repeat rule n) self.old result self.new }
    {
        for i in 0..n {
            tri!(f(self, i));
        }
        Ok(())
    }

    // `f`, if the flag is set.
    pub fn if_flag<F: FnOnce(&mut Parser<'_>) -> Result<(), Reason>>(
        &mut self,
        name: u64,
        f: F,
    ) -> Result<(), Reason>
        requires { (p : _) → F.pre f p }
        ensures { (rule : Rule (Unit {0})) → CallMet (F.post f) rule → Met (optional name rule) self.old result self.new }
    {
        if tri!(self.flag(name)) {
            return f(self);
        }
        Ok(())
    }

    // `f`, unless the flag is set.
    pub fn unless_flag<F: FnOnce(&mut Parser<'_>) -> Result<(), Reason>>(
        &mut self,
        name: u64,
        f: F,
    ) -> Result<(), Reason>
        requires { (p : _) → F.pre f p }
        ensures { (rule : Rule (Unit {0})) → CallMet (F.post f) rule → Met (unless name rule) self.old result self.new }
    {
        let absent = tri!(self.flag(name));
        if absent {
            return Ok(());
        }
        f(self)
    }

    // The bytes of a label up to its zero byte, at most 4,097: how many there are with it.
    fn label_bytes(&mut self) -> Result<u64, Reason>
        ensures { Met (label_bytes 4097 0) self.old result self.new }
    {
        for n in 0..Self::LABEL {
            if tri!(self.read(8)) == 0 {
                return Ok(n + 1);
            }
        }
        Err(Reason::LabelUnended)
    }

    // A label: bytes up to a zero byte, which is counted.
    pub fn label(&mut self, name: u64) -> Result<(), Reason>
        ensures { Met (label name) self.old result self.new }
    {
        let start = self.position;
        let n = tri!(self.label_bytes());
        self.record(name, start, FieldValue::Bytes(n))
    }

    // What every entry asks: 1; its own questions, of which `own` says the first that is not met; and 3. The reading is then at
    // bit `offset` of the input.
    pub fn entry(&mut self, own: Result<(), Reason>, offset: usize) -> Result<(), Reason>
        ensures { Met (entered (length self.old.bytes.now) own offset) self.old result self.new }
    {
        let n = self.bytes.len();
        if Self::BYTES < n {
            return Err(Reason::InputTooLong);
        }
        tri!(own);
        tri!(self.set_end(8 * n));
        self.skip(offset)
    }
}
