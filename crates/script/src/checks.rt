// The refusals of a file. (rules 9.3 and 9.4)
ghost use Rattle.std.specs.Prelude.{◌≡◌, true, length};
ghost use Rattle.script.specs.Sections.{sections_of};
ghost use Rattle.script.specs.Event.{events_in};
ghost use Rattle.script.specs.Checks.{first_of, placed_of, checked_of, found};

use crate::event::event_in;
use crate::header::{Header, header_of};
use crate::sections::{parts, sections};
use events::{Refusal, fault};
use sd2068::power_on;

// A refusal, and the event's index where an event is refused.
#[derive(Clone, Copy)]
pub struct Fault {
    pub refusal: Refusal,
    pub index: usize,
}

// With any refusal but an event's the index is 0. (rule 9.4)
impl From<Refusal> for Fault {
    ghost use Rattle.std.specs.Prelude.{◌≡◌};

    ghost from_gives = { λ refusal fault. fault ≡ record { refusal = refusal; index = 0 } };

    fn from(refusal: Refusal) -> Fault {
        Fault { refusal, index: 0 }
    }
}

// The first event at fault. (rule 9.4)
#[tactic(auto, using(crate::proofs::SearchLaws::search_steps))]
fn first_fault(events: &[u8]) -> Result<(), Fault>
    ensures { found result ≡ first_of (events_in events.now) 0 }
{
    let (chunks, _) = events.as_chunks::<4>();
    for (index, chunk) in chunks.iter().enumerate() {
        if let Err(refusal) = fault(event_in(*chunk)) {
            return Err(Fault { refusal, index });
        }
    }
    Ok(())
}

// What comes after the sections: the start bytes, the events, the room. (rule 9.4)
#[tactic(auto, using(crate::proofs::FileLaws::placed_steps))]
fn placed(file: &[u8], h: Header, room: usize) -> Result<(), Fault>
    requires { sections_of h (length file.now) ≡ true }
    ensures { found result ≡ placed_of file.now h room }
{
    let (starts, events) = parts(file, h);
    if let Some(refusal) = power_on(starts).refusal {
        return Err(Fault::from(refusal));
    }
    first_fault(events)?;
    if room < h.count as usize * 5 {
        return Err(Fault::from(Refusal::Output));
    }
    Ok(())
}

// The refusals in their order, for an output of room bytes. (rule 9.4)
#[tactic(auto, unfolding(crate::specs::Checks::checked_of))]
pub(crate) fn checked(file: &[u8], room: usize) -> Result<(), Fault>
    ensures { found result ≡ checked_of file.now room }
{
    let length = file.len();
    if 16384 < length {
        return Err(Fault::from(Refusal::Long));
    }
    if length < 8 {
        return Err(Fault::from(Refusal::Short));
    }
    let h = header_of(file);
    if !sections(h, length) {
        return Err(Fault::from(Refusal::Section));
    }
    placed(file, h, room)
}
