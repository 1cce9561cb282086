// A number read back from its decimal digits.
#![tactic(auto)]

ghost use Rattle.std.specs.Prelude.{◌≡◌, ◌≤◌, length};
ghost use Rattle.digits.specs.Digits.{digits_number, number_in};

// The most digits of a number.
const MOST_DIGITS: usize = 18;

// The number that digits are, if nothing else is among them.
#[tactic(auto, using(crate::proofs::Digits::below, crate::proofs::Digits::above, crate::proofs::Digits::all_digits_lem))]
fn digits_number(text: &[u8]) -> Option<u64>
    requires { length text.now ≤ 18 }
    ensures { result ≡ digits_number text.now }
{
    let mut value = 0;
    for &c in text {
        match c {
            b'0'..=b'9' => value = 10 * value + u64::from(c - b'0'),
            _ => return None,
        }
    }
    Some(value)
}

// The number that a text is, if it has 1 to 18 digits and nothing else.
#[tactic(auto, unfolding(crate::specs::Digits::number_in))]
pub fn number_in(text: &[u8]) -> Option<u64>
    ensures { result ≡ number_in text.now }
{
    match text.len() {
        1..=MOST_DIGITS => digits_number(text),
        _ => None,
    }
}
