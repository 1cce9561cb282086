// Bits of a slice of bytes, one bit a turn: the plain reader that the time of `bits::read` is held to. Nothing of the library
// calls it.
#![tactic(auto)]

ghost use Rattle.std.specs.Prelude.{◌≡◌, ◌+◌, ◌≤◌, ◌<◌, ◌^◌};
ghost use Rattle.bits.specs.Bits.{bit_at, bits_at};

// The bit at `position`; 0 past the end.
fn bit(bytes: &[u8], position: usize) -> u64
    ensures { result ≡ bit_at bytes.now position }
{
    let k = position / 8;
    if k < bytes.len() {
        return ((bytes[k] >> (7 - position % 8)) & 1) as u64;
    }
    0
}

// The value of `width` bits from bit `position` on, shifted left once for each bit.
pub fn read(bytes: &[u8], position: usize, width: usize) -> u64
    requires width_bound { width ≤ 64 }
    requires width_bound_2 { position + width < 2 ^ 64 }
    ensures { result ≡ bits_at bytes.now position width }
{
    let mut value: u64 = 0;
    for i in 0..width {
        value = (value << 1) | bit(bytes, position + i);
    }
    value
}
