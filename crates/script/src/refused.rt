// The line of a refusal: `refused`, a space, its number and a newline. (rule 9.6)
ghost use Rattle.std.specs.Prelude.{◌≡◌, ◌≤◌, ◌<◌, length};
ghost use Rattle.std.proofs.Math.Seq.{paste};
ghost use Rattle.script.specs.Refused.{decimal_digit, refused_number, refused_line, has_put, refused_put};

// The bytes of the longest line, that of a number with three digits.
pub const LONGEST_REFUSED: usize = 12;

// The character of a decimal digit; that of `events` goes on behind nine.
fn digit(d: u8) -> u8
    requires { d < 10 }
    ensures { result ≡ decimal_digit d }
{
    b'0' + d
}

// The digits, without leading zeros, and the newline, behind the eight bytes of the word.
fn put_number(out: &mut [u8], n: u8)
    requires { length (refused_line n) ≤ length out.old }
    ensures { out.new ≡ paste out.old 8 (refused_number n) (length (refused_number n)) }
{
    match n {
        0..=9 => out[8..10].copy_from_slice(&[digit(n), b'\n']),
        10..=99 => out[8..11].copy_from_slice(&[digit(n / 10), digit(n % 10), b'\n']),
        _ => out[8..12].copy_from_slice(&[
            digit(n / 100),
            digit(n / 10 % 10),
            digit(n % 10),
            b'\n',
        ]),
    }
}

// Eight bytes for the word, one for each digit, one for the newline.
fn line_size(n: u8) -> usize
    ensures { result ≡ length (refused_line n) }
{
    match n {
        0..=9 => 10,
        10..=99 => 11,
        _ => LONGEST_REFUSED,
    }
}

// How many bytes the line of n has, any number, as `refused_put` says; an output that is too short stays as it is. (rule 9.6)
#[tactic(auto, using(crate::proofs::RefusedLaws::put_short, crate::proofs::RefusedLaws::put_whole))]
pub fn put_refused(out: &mut [u8], n: u8) -> Option<usize>
    ensures { has_put result out.new ≡ refused_put n out.old }
{
    let size = line_size(n);
    if out.len() < size {
        return None;
    }
    out[..8].copy_from_slice(b"refused ");
    put_number(out, n);
    Some(size)
}
