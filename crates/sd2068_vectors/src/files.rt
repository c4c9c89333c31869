// A script file, run with the room that its output is lent. (rules 9.4 and 9.5)
ghost use Rattle.std.specs.Prelude.{◌+◌, ◌≤◌, length};

use crate::lines::print_ran;
use input::{read_array, read_full};
use script::run;
use std::io;
use std::io::Read;
use std::ops::ControlFlow::{self, Break, Continue};

// The room, the file's length and the file; a break where not all of it is there.
pub(crate) fn from_file(rt: &impl Print, input: &mut impl Read) -> io::Result<ControlFlow<()>> {
    let Some(sizes) = read_array::<_, 4>(input)? else {
        return Ok(Break(()));
    };
    let [room_low, room_high, size_low, size_high] = sizes;
    let room = u16::from_le_bytes([room_low, room_high]) as usize;
    let size = u16::from_le_bytes([size_low, size_high]) as usize;
    // Every length of two bytes fits, and behind every room of two bytes another eight.
    let mut file = [0u8; 65535];
    let mut out = [b'.'; 65543];
    if read_full(input, &mut file[..size])? < size {
        return Ok(Break(()));
    }
    run_file(rt, &file[..size], &mut out, room)?;
    Ok(Continue(()))
}

// The bytes that are not written stay dots, and so must the eight behind the room.
fn run_file(rt: &impl Print, file: &[u8], out: &mut [u8], room: usize) -> io::Result<()>
    requires { room + 8 ≤ length out.old }
{
    let ran = run(file, &mut out[..room]);
    print_ran(rt, ran)?;
    rt.write_all(&out[..room + 8])?;
    rt.write_all(b"\n")
}
