// Where sections may lie, and what stands in them. (rule 9.2)
ghost use Rattle.std.specs.Prelude.{◌≡◌, ◌*◌, true, length};
ghost use Rattle.script.specs.Sections.{inside_of, apart_of, sections_of, section_of};

use crate::header::Header;

// Whether size bytes from at on lie behind the header and in the file.
fn inside(at: u16, size: u32, length: usize) -> bool
    ensures { result ≡ inside_of at size length }
{
    (8 <= at) & (at as usize + size as usize <= length)
}

// Whether n bytes from a on and m bytes from b on have no byte in common.
fn apart(a: u16, n: u32, b: u16, m: u32) -> bool
    ensures { result ≡ apart_of a n b m }
{
    let first = a as u64;
    let second = b as u64;
    (n == 0) | (first + n as u64 <= second) | (second + m as u64 <= first)
}

// Whether the header's two sections may stand in a file of this length. (rule 9.2)
#[tactic(auto, unfolding(crate::specs::Sections::sections_of))]
pub(crate) fn sections(h: Header, length: usize) -> bool
    ensures { result ≡ sections_of h length }
{
    let size = h.count as u32 * 4;
    (h.starts == 19)
        & inside(h.start, 19, length)
        & inside(h.events, size, length)
        & apart(h.events, size, h.start, 19)
}

// What stands in the two: the start bytes and the events. (rule 9.2)
#[tactic(auto, using(crate::proofs::PartLaws::ends))]
pub(crate) fn parts(file: &[u8], h: Header) -> (&[u8], &[u8])
    requires { sections_of h (length file.now) ≡ true }
    ensures starts { result.0.now ≡ section_of file.now h.start 19 }
    ensures events { result.1.now ≡ section_of file.now h.events (h.count * 4) }
{
    let start = h.start as usize;
    let events = h.events as usize;
    (
        &file[start..start + 19],
        &file[events..events + h.count as usize * 4],
    )
}
