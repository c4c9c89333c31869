// Power-on and power loss. (rules 2.9 to 2.11 and 8.4)
ghost use Rattle.std.specs.Prelude.{◌≡◌, ◌↔◌, length, IsSome, IfSome, IfOk};
ghost use Rattle.events.specs.Refusal.{result_number};
ghost use Rattle.sd2068.specs.Power.{powered_of, lost_of, start_time, start_ram, start_of, zero_start, power_on_of};
ghost use Rattle.sd2068.specs.Step.{started};

use crate::answers::Started;
use crate::clock::Clock;
use alarm::Alarm;
use bus::Bus;
use calendar::Time;
use control::{Control, Lock};
use countdown::Countdown;
use events::Refusal;
use hand::Hand;
use registers::clear_time;

// What power leaves beside the time and the RAM. (rule 2.10)
#[tactic(auto, unfolding(crate::specs::Power::powered_of))]
fn powered(time: Time, ram: [u8; 12]) -> Clock
    ensures { result ≡ powered_of time ram }
{
    Clock {
        ram,
        latched: [0; 7],
        hand: Hand {
            time,
            ..Hand::default()
        },
        alarm: Alarm::default(),
        countdown: Countdown::default(),
        lock: Lock::default(),
        control: Control::default(),
        rtcf: true,
        divider: 0,
        bus: Bus::default(),
    }
}

impl Clock {
    // A power loss keeps time and RAM. (rule 2.11)
    pub(crate) fn lost(self) -> Clock
        ensures { result ≡ lost_of self }
    {
        powered(self.hand.time, self.ram)
    }
}

// What 19 zero bytes give: a refusal hands it back. (rule 8.4)
fn zero_start() -> Clock
    ensures { result ≡ zero_start }
{
    powered(Time::default(), [0; 12])
}

// The time and the RAM, of 19 start bytes. (rule 2.9)
#[tactic(auto, using(crate::proofs::StartLaws::time_cut, crate::proofs::StartLaws::ram_left))]
fn start_parts(bytes: &[u8]) -> Option<(Time, [u8; 12])>
    ensures count { IsSome result ↔ (length bytes.now ≡ 19) }
    ensures parts { IfSome result (λ p. (p.0 ≡ start_time bytes.now) × (p.1 ≡ start_ram bytes.now)) }
{
    let (time, ram) = bytes.split_first_chunk::<7>()?;
    let ram = <[u8; 12]>::try_from(ram).ok()?;
    Some((Time::from(*time), ram))
}

// The state that start bytes give, or what they are refused for. (rules 2.9 and 8.4)
#[tactic(auto, unfolding(crate::specs::Power::power_on_of))]
fn start(bytes: &[u8]) -> Result<Clock, Refusal>
    ensures refusal { result_number result ≡ (power_on_of bytes.now).refusal }
    ensures state { IfOk result (λ c. c ≡ start_of bytes.now) }
{
    let (time, ram) = start_parts(bytes).ok_or(Refusal::Section)?;
    if clear_time(time) {
        Ok(powered(time, ram))
    } else {
        Err(Refusal::Start)
    }
}

// Power-on from the time and the RAM; a refusal hands back what 19 zero bytes give. (rules 2.9 and 8.4)
#[tactic(auto, unfolding(crate::specs::Power::power_on_of))]
pub fn power_on(bytes: &[u8]) -> Started
    ensures { started result ≡ power_on_of bytes.now }
{
    match start(bytes) {
        Ok(clock) => Started {
            refusal: None,
            clock,
        },
        Err(refusal) => Started {
            refusal: Some(refusal),
            clock: zero_start(),
        },
    }
}
