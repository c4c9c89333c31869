// The single step. (rules 8.1 and 8.3)
ghost use Rattle.std.specs.Prelude.{◌≡◌, IfOk};
ghost use Rattle.events.specs.Kind as kinds;
ghost use Rattle.events.specs.Refusal.{option_number, result_number};
ghost use Rattle.sd2068.specs.Step.{quiet_of, event_of, refusal_of, told_of, stepped, step_of};

use crate::answers::{Answered, Stepped};
use crate::clock::Clock;
use events::{Answer, Event, Kind, Refusal};

// An event that is not answered.
fn quiet(clock: Clock) -> Answered
    ensures { result ≡ quiet_of clock }
{
    Answered {
        clock,
        answer: Answer::Quiet,
    }
}

impl Clock {
    // What an event is, unless the state or the event itself is refused. (rule 8.3)
    #[tactic(auto, using(events::proofs::TriedLaws::tried_number, events::proofs::TriedLaws::tried_kind), unfolding(crate::specs::Step::refusal_of))]
    fn admitted(self, event: Event) -> Result<Kind, Refusal>
        ensures refusal { result_number result ≡ refusal_of self event.kind event.byte event.count }
        ensures kind { IfOk result (λ k. kinds.event_of k ≡ event) }
    {
        if !self.well_formed() {
            return Err(Refusal::State);
        }
        Kind::try_from(event)
    }

    // What comes of an event. (rule 8.1)
    #[tactic(auto, unfolding(crate::specs::Step::event_of))]
    fn event(self, kind: Kind) -> Answered
        ensures { let e = kinds.event_of kind in result ≡ event_of self e.kind e.byte e.count }
    {
        match kind {
            Kind::Start => quiet(self.started()),
            Kind::Stop => quiet(self.stopped()),
            Kind::Byte(b) => self.byte(b),
            Kind::ReadAck => self.read(true),
            Kind::ReadNak => self.read(false),
            Kind::Pulses(n) => quiet(self.pulses(n)),
            Kind::PowerLoss => quiet(self.lost()),
        }
    }

    // Any event on any state: refused, the same state comes back. (rule 8.3)
    #[tactic(auto, unfolding(crate::specs::Step::step_of))]
    pub fn step(self, event: Event) -> Stepped
        ensures { stepped result ≡ step_of self event.kind event.byte event.count }
    {
        match self.admitted(event) {
            Ok(kind) => told(None, self.event(kind)),
            Err(refusal) => told(Some(refusal), quiet(self)),
        }
    }
}

// An event's answer with the pin that it leaves. (rule 8.1)
fn told(refusal: Option<Refusal>, e: Answered) -> Stepped
    ensures { stepped result ≡ told_of (option_number refusal) e }
{
    Stepped {
        refusal,
        clock: e.clock,
        answer: e.answer,
        pin: e.clock.pin(),
    }
}
