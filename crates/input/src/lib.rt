// Standard input, or what any reader gives, read into lent bytes or into a list; and a failure told on standard error.
#![tactic(auto)]

ghost use Rattle.std.specs.Prelude.{◌≡◌, ◌≤◌, ◌<◌, length, take, IfOk, IfErr, IfSome, OnOk};
ghost use Rattle.std.specs.Io.KnownBytes.{Consumes, IsAtEnd};

use std::alloc::Global;
use std::fmt::Display;
use std::io::{self, Read};
use std::process::ExitCode;

// How many bytes were read before a read failed, and why it failed.
#[derive(Clone, Copy)]
pub struct FailedRead {
    pub length: usize,
    pub error: io::Error,
}

// Reads until the input ends, the bytes are full or a read fails, and gives how many were read.
pub fn read_input<R: Read>(reader: &mut R, bytes: &mut [u8]) -> Result<usize, FailedRead>
    ensures in_bounds { IfOk result (λ n. n ≤ length bytes.new) }
    ensures prefix { IfOk result (λ n. n ≡ length (take n bytes.new)) }
    ensures read { IfOk result (λ n. Consumes (R.remaining reader.old) (R.remaining reader.new) (take n bytes.new)) }
    ensures ended { IfOk result (λ n. n < length bytes.new → IsAtEnd (R.remaining reader.new)) }
    ensures failed_in_bounds { IfErr result (λ failed. failed.length ≤ length bytes.new) }
    ensures failed_prefix { IfErr result (λ failed. failed.length ≡ length (take failed.length bytes.new)) }
    ensures failed_read { IfErr result
        (λ failed. Consumes (R.remaining reader.old) (R.remaining reader.new) (take failed.length bytes.new)) }
{
    let mut length = 0;
    while length < bytes.len() {
        match reader.read(&mut bytes[length..]) {
            Ok(0) => break,
            Ok(more) => length += more,
            Err(error) => return Err(FailedRead { length, error }),
        }
    }
    Ok(length)
}

// What the reader gives up to its end, or the first `most` bytes of it, in a list that grows as it is read into: a short input is read
// whole, however great `most` is.
pub fn first_bytes<R: Read + Drop>(alloc: Global, reader: R, most: u64) -> io::Result<Vec<u8>>
    ensures { IfOk result (λ v. IfSome (R.remaining reader) (λ bytes. v.items ≡ take most bytes)) }
{
    let mut list = Vec::new(alloc);
    reader.take(most).read_to_end(&mut list)?;
    Ok(list)
}

// The same, with room for `most` bytes and one more asked for at once, and an error where there is none: a list that grew would need
// twice as much for a long input.
pub fn reserved_bytes<R: Read + Drop>(alloc: Global, reader: R, most: u64) -> io::Result<Vec<u8>>
    ensures { IfOk result (λ v. IfSome (R.remaining reader) (λ bytes. v.items ≡ take most bytes)) }
{
    let mut bytes = Vec::new(alloc);
    bytes.reserve_exact((most as usize).saturating_add(1))?;
    reader.take(most).read_to_end(&mut bytes)?;
    Ok(bytes)
}

// Reports on standard error what failed, where the system tells it in its words alone, without its number.
fn report<R: Eprint + AllocGlobal>(rt: &R, failure: impl Display + Drop) -> io::Result<()> {
    let line = format!(in rt.alloc(); "{failure}")?;
    match line.as_str().split_once(" (os error ") {
        Some((words, _)) => eprintln!(rt; "{words}"),
        None => eprintln!(rt; "{line}"),
    }
}

// The exit status of a program that ended so, which reports what failed.
pub fn exit_code<R, F>(rt: &R, ended: Result<(), F>) -> ExitCode
where
    R: Eprint + AllocGlobal,
    F: Display + Drop + Copy + Into<ExitCode>,
    ensures ok { OnOk ended (result ≡ ExitCode.SUCCESS) }
    ensures err { IfErr ended (λ failure. F.converts failure result) }
{
    match ended {
        Ok(()) => ExitCode::SUCCESS,
        Err(failure) => {
            let _ = report(rt, failure);
            failure.into()
        }
    }
}

#[cfg(test)]
mod tests {
    use super::*;
    use std::test::Fail;

    #[test]
    fn reads_what_there_is(rt: HostRuntime) -> Result<(), Fail> {
        let bytes = first_bytes(rt.alloc(), b"short".as_slice(), 6)?;
        assert_eq!(rt; bytes.as_slice(), b"short".as_slice());
        Ok(())
    }

    #[test]
    fn reads_no_more_than_asked_for(rt: HostRuntime) -> Result<(), Fail> {
        let bytes = first_bytes(rt.alloc(), b"longer".as_slice(), 4)?;
        assert_eq!(rt; bytes.as_slice(), b"long".as_slice());
        Ok(())
    }

    #[test]
    fn reads_what_there_is_below_any_most(rt: HostRuntime) -> Result<(), Fail> {
        let bytes = first_bytes(rt.alloc(), b"short".as_slice(), u64::MAX)?;
        assert_eq!(rt; bytes.as_slice(), b"short".as_slice());
        Ok(())
    }

    #[test]
    fn reserves_for_what_there_is(rt: HostRuntime) -> Result<(), Fail> {
        let bytes = reserved_bytes(rt.alloc(), b"short".as_slice(), 6)?;
        assert_eq!(rt; bytes.as_slice(), b"short".as_slice());
        Ok(())
    }

    #[test]
    fn reserves_for_no_more_than_asked_for(rt: HostRuntime) -> Result<(), Fail> {
        let bytes = reserved_bytes(rt.alloc(), b"longer".as_slice(), 4)?;
        assert_eq!(rt; bytes.as_slice(), b"long".as_slice());
        Ok(())
    }

    #[test]
    fn reports(rt: HostRuntime) -> Result<(), Fail> {
        report(&rt, io::Error::from_raw_os_error(21))?;
        Ok(())
    }
}
