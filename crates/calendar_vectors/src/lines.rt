// The lines that are printed.
use std::io;

// Lines one after the other; each draws on from the number that the one before it has drawn last.
pub(crate) fn print_lines<F: Fn(u8, u32) -> io::Result<u32>>(
    lines: u8,
    drawn: u32,
    print_line: F,
) -> io::Result<()>
    requires { F.IsAlwaysCallable print_line }
{
    let mut drawn = drawn;
    for line in 0..lines {
        drawn = print_line(line, drawn)?;
    }
    Ok(())
}

// A line's beginning: what it is about, from the first to the last.
pub(crate) fn print_range(rt: &impl Print, what: &str, first: u32, last: u32) -> io::Result<()> {
    print_figure(rt, what, first)?;
    print_figure(rt, " to ", last)
}

// A line's end.
pub(crate) fn print_digest(rt: &impl Print, d: u32) -> io::Result<()> {
    println!(rt; " digest {d}")
}

pub(crate) fn print_figure(rt: &impl Print, name: &str, n: u32) -> io::Result<()> {
    print!(rt; "{name}{n}")
}
