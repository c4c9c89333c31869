// A whole file: refused, or run from its start bytes to its last event. (rules 9.4 and 9.5)
ghost use Rattle.std.specs.Prelude.{◌≡◌, ◌/◌, length};
ghost use Rattle.state_bytes.specs.Decoded.{clock_of};
ghost use Rattle.script.specs.Header.{header_of};
ghost use Rattle.script.specs.Event.{events_in};
ghost use Rattle.script.specs.Checks.{checked_of};
ghost use Rattle.script.specs.File.{can_run, EventsRun, good_of, ran, run_of};

use crate::checks::{Fault, checked};
use crate::event::event_in;
use crate::header::header_of;
use crate::lines::line;
use crate::sections::parts;
use events::Refusal;
use sd2068::{Clock, power_on};
use state_bytes::{bytes_of, clock_of};
use state_events::tell;

// What a run hands back.
#[derive(Clone, Copy)]
pub struct Ran {
    pub count: usize,
    pub clock: Clock,
}

// What a refused run hands back; its state is always `zero_start`, which `run_of` tells.
#[derive(Clone, Copy)]
pub struct Refused {
    pub refusal: Refusal,
    pub index: usize,
    pub clock: Clock,
}

// The state is what 19 zero bytes give. (rule 8.4)
impl From<Fault> for Refused {
    ghost use Rattle.std.specs.Prelude.{◌≡◌};
    ghost use Rattle.sd2068.specs.Power.{zero_start};

    ghost from_gives = { λ fault refused. refused ≡ record { refusal = fault.refusal; index = fault.index; clock = zero_start } };

    #[tactic(auto, using(crate::proofs::FileLaws::zeros_on))]
    fn from(fault: Fault) -> Refused {
        Refused {
            refusal: fault.refusal,
            index: fault.index,
            clock: power_on(&[0; 19]).clock,
        }
    }
}

// The events one after the other on a state's bytes, a line for each: the checks have seen them all. (rule 9.5)
#[tactic(auto, using(crate::proofs::TurnLaws::turn_steps))]
fn run_events(state: &mut [u8], events: &[u8], out: &mut [u8])
    requires { can_run state.old (events_in events.now) (length events.now / 4) (length out.old) }
    ensures { EventsRun (clock_of state.old) (events_in events.now) out.old (clock_of state.new) out.new }
{
    let (chunks, _) = events.as_chunks::<4>();
    for (index, chunk) in chunks.iter().enumerate() {
        let told = tell(state, 0, event_in(*chunk));
        // By its place, since of mutable chunks std says only how long they are.
        let at = 5 * index;
        out[at..at + 5].copy_from_slice(&line(told));
    }
}

// A file that is not refused. (rule 9.5)
#[tactic(auto, using(crate::proofs::FileLaws::good_by))]
fn run_good(file: &[u8], out: &mut [u8]) -> Ran
    requires { (checked_of file.now (length out.old)).refusal ≡ 0 }
    ensures { ran (Ok result) out.new ≡ good_of file.now (header_of file.now) out.old }
{
    let h = header_of(file);
    let (starts, events) = parts(file, h);
    let clock = power_on(starts).clock;
    let mut state = bytes_of(clock);
    run_events(&mut state, events, out);
    Ran {
        count: h.count as usize,
        clock: clock_of(&state),
    }
}

// Any file and any output. (rules 9.4 and 9.5)
#[tactic(auto, using(crate::proofs::FileLaws::run_steps))]
pub fn run(file: &[u8], out: &mut [u8]) -> Result<Ran, Refused>
    ensures { ran result out.new ≡ run_of file.now out.old }
{
    checked(file, out.len())?;
    Ok(run_good(file, out))
}
