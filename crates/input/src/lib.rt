// What a program reads of its input.
#![tactic(auto)]

ghost use Rattle.std.specs.Prelude.{◌<◌, ◌≤◌, IfOk, IfSome, IsNone, length, take};
ghost use Rattle.std.specs.Io.KnownBytes.{Consumes, IsAtEnd};

use std::io;
use std::io::Read;

// Reads until the buffer is full or the input ends, and returns how many bytes it has put into it.
// `read_exact` of std does not tell how many came, where they were too few.
pub fn read_full<R: Read>(input: &mut R, buf: &mut [u8]) -> io::Result<usize>
    ensures within { IfOk result (λ n. n ≤ length buf.new) }
    ensures read { IfOk result (λ n. Consumes (R.remaining input.old) (R.remaining input.new) (take n buf.new)) }
    ensures end { IfOk result (λ n. n < length buf.new → IsAtEnd (R.remaining input.new)) }
{
    let mut done = 0;
    while done < buf.len() {
        match input.read(&mut buf[done..])? {
            0 => break,
            n => done += n,
        }
    }
    Ok(done)
}

// The next N bytes, or nothing where the input ends before them.
pub fn read_array<R: Read, const N: usize>(input: &mut R) -> io::Result<Option<[u8; N]>>
    ensures read { IfOk result (λ r. IfSome r (λ bytes. Consumes (R.remaining input.old) (R.remaining input.new) bytes)) }
    ensures short { IfOk result (λ r. IsNone r → IfSome (R.remaining input.old) (λ bytes. length bytes < N)) }
    ensures end { IfOk result (λ r. IsNone r → IsAtEnd (R.remaining input.new)) }
{
    let mut bytes = [0u8; N];
    let got = read_full(input, &mut bytes)?;
    Ok((got == N).then_some(bytes))
}
