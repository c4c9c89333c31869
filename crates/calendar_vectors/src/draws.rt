// Random numbers, the same ones in every run.

// The number drawn after x.
pub(crate) fn draw(x: u32) -> u32 {
    ((x as u64 * 1664525 + 1013904223) % 4294967296) as u32
}
