// A field of two BCD digits. (rules 3.1 to 3.3)
ghost use Rattle.std.specs.Prelude.{◌≡◌, cond};
ghost use Rattle.fields.specs.Digits.{legal_of, step_of, value_of, byte_of};

// The number that the digits say. (rule 3.1)
pub fn value(x: u8) -> u8
    ensures { result ≡ value_of x }
{
    x / 16 * 10 + x % 16
}

// The byte whose digits say n; of a longer number the last two digits. (rule 3.1)
pub fn byte(n: u8) -> u8
    ensures { result ≡ byte_of n }
{
    n / 10 % 10 * 16 + n % 10
}

// A field's values run from its first to its last. (rule 3.2)
#[derive(Clone, Copy)]
pub struct Field {
    pub first: u8,
    pub last: u8,
}

impl Field {
    // Whether x holds one of its values. (rule 3.2)
    pub fn legal(self, x: u8) -> bool
        ensures { result ≡ legal_of self.first self.last x }
    {
        (x % 16 < 10) & (x / 16 < 10) & (self.first <= x) & (x <= self.last)
    }

    // One step on from x: after its last value, or from an illegal one, its first. (rule 3.3)
    #[tactic(auto, unfolding(crate::specs::Digits::step_of))]
    pub fn step(self, x: u8) -> u8
        ensures { result ≡ step_of self.first self.last x }
    {
        pick(
            self.legal(x) & (x < self.last),
            byte(value(x) + 1),
            self.first,
        )
    }
}

// x where b holds, else y: a field that a carry may reach is one such choice.
pub fn pick<T: Copy>(b: bool, x: T, y: T) -> T
    ensures { result ≡ cond b x y }
{
    if b { x } else { y }
}
