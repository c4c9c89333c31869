// What a run tells in one number. (rule 10.8)
ghost use Rattle.std.specs.Prelude.{◌≡◌};
ghost use Rattle.sd2068_abi.specs.Abi.{ran_of};

// Refusal, index and count of a run, as C is told them. (rule 10.8)
pub(crate) fn ran(refusal: u8, index: usize, count: usize) -> u64
    ensures { result ≡ ran_of refusal index count }
{
    refusal as u64 + 65536 * (index as u64 % 65536) + 4294967296 * (count as u64 % 65536)
}
