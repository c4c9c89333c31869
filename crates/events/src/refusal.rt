// The refusals. (rule 8.3)
ghost use Rattle.std.specs.Prelude.{◌≡◌};
ghost use Rattle.events.specs.Refusal.{number_of};

// The rows of the refusals' table; State to Field are a step's, Section and Start a power-on's, the rest a file's alone.
#[derive(Clone, Copy, PartialEq, Eq)]
pub enum Refusal {
    State = 1,
    Kind,
    Field,
    Short,
    Section,
    Start,
    Output,
    Long,
}

impl Refusal {
    // The number of the row.
    pub fn number(self) -> u8
        ensures { result ≡ number_of self }
    {
        self as u8
    }
}
