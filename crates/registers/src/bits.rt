// The bits of a byte by their numbers. (rule 2.3)
ghost use Rattle.std.specs.Prelude.{◌≡◌};
ghost use Rattle.registers.specs.Bits.{bit_at_of};

// Whether bit n is 1; past bit 7 there is none.
#[tactic(auto, using(crate::proofs::ByteLaws::none_past))]
pub fn bit_at(b: u8, n: u8) -> bool
    ensures { result ≡ bit_at_of b n }
{
    n < 8 && b >> n & 1 == 1
}
