// The lines that are printed. (rules 8.1 and 8.3)
use events::{Answer, Refusal};
use script::{LONGEST_REFUSED, Ran, Refused, put_refused};
use sd2068::{Clock, Stepped};
use state_bytes::bytes_of;
use std::io;

// A refusal's line by `put_refused`, as the script program's, but with another end; nothing for no refusal.
pub(crate) fn print_refusal(
    rt: &impl Print,
    refusal: Option<Refusal>,
    end: &str,
) -> io::Result<()> {
    let Some(refusal) = refusal else {
        return Ok(());
    };
    let mut line = [0u8; LONGEST_REFUSED];
    let size = put_refused(&mut line, refusal.number()).unwrap();
    rt.write_all(&line[..size - 1])?;
    print!(rt; "{end}")
}

// A step's answer and pin, behind its refusal.
pub(crate) fn print_step(rt: &impl Print, r: Stepped) -> io::Result<()> {
    print_refusal(rt, r.refusal, " ")?;
    rt.write_all(&r.answer.text())?;
    println!(rt; " {}", r.pin.letter() as char)
}

// Bytes as reads answer them, each by its answer's text: by a format a run took a third longer.
fn print_bytes(rt: &impl Print, bytes: &[u8]) -> io::Result<()> {
    for b in bytes {
        rt.write_all(&Answer::Byte(*b).text())?;
    }
    Ok(())
}

// All of a state: the registers as the chip shows them, then the bytes that stand behind them.
pub(crate) fn print_state(rt: &impl Print, c: Clock) -> io::Result<()> {
    print_bytes(rt, &c.registers())?;
    print_bytes(rt, &bytes_of(c)[32..])?;
    println!(rt)
}

// What the run of a file hands back, but for its lines.
pub(crate) fn print_ran(rt: &impl Print, ran: Result<Ran, Refused>) -> io::Result<()> {
    match ran {
        Ok(ran) => {
            println!(rt; "refusal 0 index 0 count {}", ran.count)?;
            print_state(rt, ran.clock)
        }
        Err(refused) => {
            let n = refused.refusal.number();
            println!(rt; "refusal {n} index {} count 0", refused.index)?;
            print_state(rt, refused.clock)
        }
    }
}
