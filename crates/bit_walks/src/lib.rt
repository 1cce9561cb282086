// Walks over bytes in reads of 64 bits from bit 1 on, by `bits::read` and by the plain reader, exported from a static library of
// their own: oracle/bench times one against the other.
#![tactic(auto)]

ghost use Rattle.std.specs.Prelude.{ℕ, ◌≡◌, ◌+◌, ◌*◌, ◌<◌, ◌^◌};
ghost use Rattle.bits.specs.Bits.{bits_at};
ghost use Rattle.bit_walks.specs.Walk.{reads_in, sum_of_reads};

// How many such reads `len` bytes have whole.
fn reads_in(len: usize) -> usize
    ensures counted { result ≡ reads_in len }
    ensures small { 1 + 64 * result < 2 ^ 64 }
{
    len.saturating_mul(8).saturating_sub(1) / 64
}

// The sum of the values that `read` gives from each position, modulo 2^64.
fn walk<F: Fn(&[u8], usize) -> u64>(bytes: &[u8], read: F) -> u64
    requires called { (p : ℕ) → p + 64 < 2 ^ 64 → (b : _) → F.pre read b p }
    requires value { (p : ℕ) → (b : _) → (v : _) → F.post read b p v → v ≡ bits_at b.now p 64 }
    ensures { result ≡ sum_of_reads bytes.now }
{
    let mut sum: u64 = 0;
    for i in 0..reads_in(bytes.len()) {
        sum = sum.wrapping_add(read(bytes, 1 + 64 * i));
    }
    sum
}

#[unsafe(no_mangle)]
pub extern "C" fn walk_by_words(bytes: &[u8]) -> u64
    ensures { result ≡ sum_of_reads bytes.now }
{
    walk(bytes, |bytes, position| bits::read(bytes, position, 64))
}

#[unsafe(no_mangle)]
pub extern "C" fn walk_by_bits(bytes: &[u8]) -> u64
    ensures { result ≡ sum_of_reads bytes.now }
{
    walk(
        bytes,
        |bytes, position| plain_bits::read(bytes, position, 64),
    )
}
