// Bits of a slice of bytes, most significant bit first: bits.rs, `BitReader::read`.
//
// Where nine bytes are there, eight are loaded as one word and the wanted bits cut out of it; of a read that reaches the word's last
// bit, those of the ninth byte are first put behind. So one test alone asks where the bytes end. One bit is cut out of its byte.
// Otherwise the bytes of a read are gathered one by one.
#![tactic(auto)]

ghost use Rattle.std.specs.Prelude.{◌≡◌, ◌+◌, ◌-◌, ◌*◌, ◌%◌, ◌≤◌, ◌<◌, ◌^◌, length};
ghost use Rattle.bits.specs.Bits.{bits_at};
ghost use Rattle.bits.specs.Words.{lowest_first, swapped};

fn wide(x: u8) -> u64
    ensures { (result ≡ x) × (result < 256) }
{
    x as u64
}

// Byte `k`.
fn byte(bytes: &[u8], k: usize) -> u64
    requires { k < length bytes.now }
    ensures { result ≡ bits_at bytes.now (8 * k) 8 }
{
    wide(bytes[k])
}

// Byte `k`; 0 past the end.
fn byte_or_0(bytes: &[u8], k: usize) -> u64
    ensures { result ≡ bits_at bytes.now (8 * k) 8 }
{
    if bytes.len() <= k {
        return 0;
    }
    byte(bytes, k)
}

// Eight bytes from byte `q` on, the first of them lowest. LLVM makes this loop one load; with the first byte highest it keeps
// eight.
fn lowest_first(bytes: &[u8], q: usize) -> u64
    requires { q + 8 ≤ length bytes.now }
    ensures { result ≡ lowest_first bytes.now q 8 }
{
    let mut word = 0;
    for n in 0..8 {
        word |= byte(bytes, q + n) << (8 * n);
    }
    word
}

// The bytes of a word in the other order, which is one instruction.
fn swapped(word: u64) -> u64
    ensures { result ≡ swapped 8 word }
{
    let mut rest = word;
    let mut swapped = 0;
    for _ in 0..8usize {
        swapped = swapped << 8 | rest & 255;
        rest >>= 8;
    }
    swapped
}

// The 64 bits of the eight bytes from byte `q` on.
fn word(bytes: &[u8], q: usize) -> u64
    requires { q + 8 ≤ length bytes.now }
    ensures { result ≡ bits_at bytes.now (8 * q) 64 }
{
    swapped(lowest_first(bytes, q))
}

// `n` bits from bit `position` on, all of one byte.
fn bits_of_byte(bytes: &[u8], position: usize, n: usize) -> u64
    requires { position % 8 + n ≤ 8 }
    ensures { result ≡ bits_at bytes.now position n }
{
    let k = position / 8;
    if k < bytes.len() {
        return byte(bytes, k) >> (8 - position % 8 - n) & ((1 << n) - 1);
    }
    0
}

// As `read`, of few bits that the bytes may end before: their bytes are gathered one by one.
fn few_bits(bytes: &[u8], position: usize, width: usize) -> u64
    requires width_bound { width ≤ 56 }
    requires width_bound_2 { position + width < 2 ^ 64 }
    ensures { result ≡ bits_at bytes.now position width }
{
    let q = position / 8;
    let end = position % 8 + width;
    let n = (end + 7) / 8;
    let mut word = 0;
    for i in 0..n {
        word = word << 8 | byte_or_0(bytes, q + i);
    }
    word >> (8 * n - end) & ((1 << width) - 1)
}

// As `read`, of bits that the bytes may end before: more than 56, which may touch nine bytes, are read in two parts. It calls
// itself, so that LLVM leaves it out of line.
fn near_end(bytes: &[u8], position: usize, width: usize) -> u64
    requires width_bound { width ≤ 64 }
    requires width_bound_2 { position + width < 2 ^ 64 }
    ensures { result ≡ bits_at bytes.now position width }
{
    if position % 8 + width <= 8 {
        return bits_of_byte(bytes, position, width);
    }
    if 56 < width {
        let front = width - 8;
        let last = few_bits(bytes, position + front, 8);
        return near_end(bytes, position, front) << 8 | last;
    }
    few_bits(bytes, position, width)
}

// The value of `width` bits from bit `position` on.
pub fn read(bytes: &[u8], position: usize, width: usize) -> u64
    requires width_bound { width ≤ 64 }
    requires width_bound_2 { position + width < 2 ^ 64 }
    ensures { result ≡ bits_at bytes.now position width }
{
    if width == 1 {
        return bits_of_byte(bytes, position, 1);
    }
    let q = position / 8;
    let r = position % 8;
    if q + 8 < bytes.len() {
        let front = word(bytes, q) << r;
        if r + width < 64 {
            return front >> 1 >> (63 - width);
        }
        return (front | byte(bytes, q + 8) >> (8 - r)) >> (64 - width);
    }
    near_end(bytes, position, width)
}
