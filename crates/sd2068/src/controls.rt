// The numbers that stand in the control registers. (rules 2.5 and 2.6)
ghost use Rattle.std.specs.Prelude.{◌≡◌};
ghost use Rattle.sd2068.specs.Controls.{arst_of, tds_of, fs_of};

use registers::bit_at;

// ARST: flags clear at STOP once 0Fh was read.
pub(crate) fn arst(ctr3: u8) -> bool
    ensures { result ≡ arst_of ctr3 }
{
    bit_at(ctr3, 7)
}

// TDS, 0 to 3.
pub(crate) fn tds(ctr3: u8) -> u8
    ensures { result ≡ tds_of ctr3 }
{
    ctr3 / 0x10 % 4
}

// FS, 0 to 15.
pub(crate) fn fs(ctr3: u8) -> u8
    ensures { result ≡ fs_of ctr3 }
{
    ctr3 % 0x10
}
