// Bits written into bytes that the caller lends, the most significant bit of each byte first: as `BitReader` reads them.
//
// Bits wait until eight of them make a byte. So a byte is written once, when all its bits are known, and one that is not reached
// stays as it was.
#![tactic(auto)]

ghost use Rattle.std.specs.Prelude.{◌≡◌, ◌≤◌, ◌<◌, ◌^◌, length};
ghost use Rattle.bit_writer.specs.Bits.{bytes_for};

// How many bytes so many bits take, the last of which may be filled in part.
pub fn bytes_for(bits: usize) -> usize
    ensures { result ≡ bytes_for bits }
{
    bits / 8 + if bits % 8 == 0 { 0 } else { 1 }
}

// Bytes that a caller lends, of which `full` are written, and the bits that wait for the next: the low `held` bits of a word.
#[derive(Drop)]
pub struct BitWriter<'a> {
    bytes: &'a mut [u8],
    full: usize,
    waiting: u64,
    held: usize,
    ghost held_few: { held < 8 },
    ghost waiting_small: { waiting < 2 ^ held },
    ghost full_in: { full ≤ length bytes.now },
}

impl<'a> BitWriter<'a> {
    ghost use Rattle.bit_writer.specs.Bits.{bits_of};
    ghost use Rattle.bit_writer.specs.Writer.{Lent, Fits, Wrote, Finished};

    // At the first bit of the bytes.
    pub fn new(bytes: &'a mut [u8]) -> BitWriter<'a>
        ensures { Lent bytes.entry result }
    {
        BitWriter {
            bytes,
            full: 0,
            waiting: 0,
            held: 0,
        }
    }

    // Writes a number of `width` bits.
    pub fn write(&mut self, value: u64, width: usize)
        requires narrow { width ≤ 56 }
        requires small { value < 2 ^ width }
        requires fits { Fits width self.old }
        ensures { Wrote (bits_of width value) self.old self.new }
    {
        let mut waiting = self.waiting << width | value;
        let mut held = self.held + width;
        while 8 <= held {
            held -= 8;
            self.bytes[self.full] = (waiting >> held) as u8;
            self.full += 1;
            waiting &= (1 << held) - 1;
        }
        self.waiting = waiting;
        self.held = held;
    }

    // Makes a byte of the bits that wait, if any, with zeros after them.
    pub fn finish(&mut self)
        requires { Fits 0 self.old }
        ensures { Finished self.old self.new }
    {
        if self.held > 0 {
            self.bytes[self.full] = (self.waiting << (8 - self.held)) as u8;
        }
    }
}
