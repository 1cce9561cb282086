// The header of a show file: how many parts it has and where each begins and ends, and questions 23 and 24, which are
// asked of the file before any part is read.
#![tactic(auto)]

ghost use Rattle.std.specs.Prelude.{◌≡◌, ◌≤◌, ◌<◌, IfOk, IfErr, length};
ghost use Rattle.show_header.specs.Header.{HeaderSound, part_count, offset_of, end_of};
ghost use Rattle.show_header.specs.Header.{part_of, in_order, is_sound, file_question};
ghost use Rattle.rules.specs.Reason.{asked, Refuses};

use rules::Reason;

// The most bytes of a file, and the most parts.
const BYTES: usize = 65536;

const PARTS: usize = 256;

// A show file: it has a sound header, and not too many bytes.
#[derive(Clone, Copy)]
pub struct ShowFile<'a> {
    pub bytes: &'a [u8],
    ghost sound: { HeaderSound bytes.now },
    ghost few: { length bytes.now ≤ 65536 },
}

pub fn part_count(file: &[u8]) -> usize
    ensures { result ≡ part_count file.now }
{
    bits::read(file, 0, 16) as usize
}

// The offset of part `k`.
pub fn offset_of(file: &[u8], k: usize) -> usize
    requires { k ≤ 256 }
    ensures { result ≡ offset_of file.now k }
{
    bits::read(file, 16 + 32 * k, 32) as usize
}

// Where part `k` ends: at the next offset or the file's end.
pub fn end_of(file: &[u8], k: usize) -> usize
    requires { k ≤ 255 }
    ensures { result ≡ end_of file.now k }
{
    if k + 1 < part_count(file) {
        return offset_of(file, k + 1);
    }
    file.len()
}

// Whether none of `count` parts ends before it begins.
fn in_order(file: &[u8], count: usize) -> bool
    requires { count ≤ 256 }
    ensures { result ≡ in_order file.now count 0 }
{
    for k in 0..count {
        if end_of(file, k) < offset_of(file, k) {
            return false;
        }
    }
    true
}

fn is_sound(file: &[u8]) -> bool
    ensures { result ≡ is_sound file.now }
{
    let count = part_count(file);
    if count < 1 {
        return false;
    }
    if PARTS < count {
        return false;
    }
    if offset_of(file, 0) != 2 + 4 * count {
        return false;
    }
    in_order(file, count)
}

impl<'a> ShowFile<'a> {
    // Asks questions 23 and 24: a file that meets both is a show, and any other is refused for the first that it does not meet.
    pub fn new(bytes: &'a [u8]) -> Result<ShowFile<'a>, Reason>
        ensures number { asked result ≡ file_question bytes.now }
        ensures refuses { IfErr result Refuses }
        ensures opened { IfOk result (λ f. f.bytes ≡ bytes.entry) }
    {
        if BYTES < bytes.len() {
            return Err(Reason::FileTooLong);
        }
        if is_sound(bytes) {
            return Ok(ShowFile { bytes });
        }
        Err(Reason::HeaderUnsound)
    }

    pub fn part_count(&self) -> usize
        ensures { result ≡ part_count self.now.bytes.now }
    {
        part_count(self.bytes)
    }

    // The bytes of part `k`.
    pub fn part(&self, k: usize) -> &'a [u8]
        requires { k < part_count self.now.bytes.now }
        ensures bytes { result.now ≡ part_of self.now.bytes.now k }
        ensures few { length result.now ≤ 65536 }
    {
        let start = offset_of(self.bytes, k);
        let end = end_of(self.bytes, k);
        &self.bytes[start..end]
    }
}
