// What a file's bytes list, one by one, whether it would be refused or not. (rules 9.1 to 9.3)
ghost use Rattle.std.specs.Prelude.{◌≡◌};
ghost use Rattle.sd2068.specs.Power.{power_on_of};
ghost use Rattle.sd2068.specs.Step as step;
ghost use Rattle.script.specs.Rows.{listed_at, starts_of};

use crate::event::event_in;
use crate::header::word_at;
use events::Event;
use sd2068::{Started, power_on};
use state_bytes::at;

// Event i. (rule 9.3)
pub fn listed(file: &[u8], i: u16) -> Event
    ensures { result ≡ listed_at file.now i }
{
    let place = word_at(file, 2) as usize + 4 * i as usize;
    event_in([
        at(file, place),
        at(file, place + 1),
        at(file, place + 2),
        at(file, place + 3),
    ])
}

// What the start bytes give, as far as the file has them. (rules 2.9 and 8.4)
#[tactic(auto, using(crate::proofs::PartLaws::part_there))]
pub fn start(file: &[u8]) -> Started
    ensures { step.started result ≡ power_on_of (starts_of file.now) }
{
    let section = word_at(file, 6) as usize;
    let from = section.min(file.len());
    let to = (section + 19).min(file.len());
    power_on(&file[from..to])
}
