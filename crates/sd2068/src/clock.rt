// The state: groups that a stage owns, and what stands beside them. (rule 1.3)
use alarm::Alarm;
use bus::Bus;
use control::{Control, Lock};
use countdown::Countdown;
use hand::Hand;

// The arrays first: pulses took longer with them among the groups.
#[derive(Clone, Copy)]
pub struct Clock {
    pub ram: [u8; 12],
    pub latched: [u8; 7],
    pub hand: Hand,
    pub alarm: Alarm,
    pub countdown: Countdown,
    pub lock: Lock,
    pub control: Control,
    pub rtcf: bool,
    pub divider: u32,
    pub bus: Bus,
}
