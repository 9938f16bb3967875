// Standard input as bytes, or that it could not be read; whether an argument is there; what is said of a read or a write that failed.
#![tactic(auto)]

ghost use Rattle.std.specs.Prelude.{◌≡◌, ◌<◌, ◌≤◌, length, take, IfOk};
ghost use Rattle.std.specs.Io.KnownBytes.{Consumes, IsAtEnd};
ghost use Rattle.input.specs.Inputs.{IsPrefixLen, Inside};

use arrayvec::ArrayString;
use std::env::{Env, FillError};
use std::fmt::Write;
use std::io::{self, Input as Source, Read};

// Room for what an error displays: at most 256 bytes of words and 23 with its number.
const ROOM: usize = 300;

// Reads until the buffer is full or the input ends, and answers how many bytes stand at the buffer's front. An error at any read, also
// after some bytes, is the answer.
pub fn fill<R: Read>(reader: &mut R, buf: &mut [u8]) -> io::Result<usize>
    ensures front { IfOk result (λ n. IsPrefixLen n buf.new) }
    ensures same_length { length buf.new ≡ length buf.old }
    ensures bytes { IfOk result (λ n. Consumes (R.remaining reader.old) (R.remaining reader.new) (take n buf.new)) }
    ensures end { IfOk result (λ n. n < length buf.new → IsAtEnd (R.remaining reader.new)) }
{
    let mut done = 0;
    while done < buf.len() {
        let more = reader.read(&mut buf[done..])?;
        if more == 0 {
            return Ok(done);
        }
        done += more;
    }
    Ok(done)
}

// Says on standard error that a stream failed and why. Of what an error of the system displays these are the words without the number.
pub fn say_failed(rt: &impl Eprint, stream: &str, error: io::Error) {
    let mut words = ArrayString::<ROOM>::new();
    let _ = write!(words, "{error}");
    let whole = words.as_str();
    let (text, _) = whole.split_once(" (os error ").unwrap_or((whole, ""));
    let _ = eprintln!(rt; "{stream}: {text}");
}

// Reads standard input until the buffer is full or the input ends, and answers how many bytes stand at the buffer's front. After an error at any
// read, also after some bytes, there is no answer, and why has been said.
pub fn read_input(rt: &(impl Source + Eprint), buf: &mut [u8]) -> Option<usize>
    ensures { Inside result buf.new × (length buf.new ≡ length buf.old) }
{
    fill(&mut rt.reader(), buf)
        .map_err(|error| say_failed(rt, "standard input", error))
        .ok()
}

// Whether there is an argument i; the program's name is argument 0.
pub fn has_argument(rt: &impl Env, i: usize) -> bool {
    let mut start = [0u8; 1];
    !matches!(rt.arg(i, &mut start), Err(FillError::NotPresent))
}
