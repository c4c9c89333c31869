// What C and Rust link: the functions of sd2068_abi under their names for C, as include/tallowreed.h has them. Each
// calls the function of that crate and says what it says. (rules 10.1 to 10.8)
#![tactic(auto)]

ghost use Rattle.std.specs.Prelude.{◌≡◌};
ghost use Rattle.state_events.specs.Event.{lent};
ghost use Rattle.sd2068_abi.specs.Abi.{lent_run, power_of, step_of, pin_of, register_of, run_of};

// The length of a state. (rule 10.1)
#[unsafe(no_mangle)]
pub extern "C" fn tallowreed_state_size() -> usize
    ensures { result ≡ 61 }
{
    sd2068_abi::tallowreed_state_size()
}

// Power-on from start bytes. (rule 10.4)
#[unsafe(no_mangle)]
pub extern "C" fn tallowreed_power_on(start: &[u8], state: &mut [u8]) -> u8
    ensures { lent result state.new ≡ power_of start.now state.old }
{
    sd2068_abi::tallowreed_power_on(start, state)
}

// One event, in the numbers that C has. (rule 10.5)
#[unsafe(no_mangle)]
pub extern "C" fn tallowreed_step(state: &mut [u8], kind: u8, byte: u8, count: u16) -> u32
    ensures { lent result state.new ≡ step_of state.old kind byte count }
{
    sd2068_abi::tallowreed_step(state, kind, byte, count)
}

// The pin. (rule 10.6)
#[unsafe(no_mangle)]
pub extern "C" fn tallowreed_pin(state: &[u8]) -> u32
    ensures { result ≡ pin_of state.now }
{
    sd2068_abi::tallowreed_pin(state)
}

// A register as it stands. (rule 10.7)
#[unsafe(no_mangle)]
pub extern "C" fn tallowreed_register(state: &[u8], address: u8) -> u32
    ensures { result ≡ register_of state.now address }
{
    sd2068_abi::tallowreed_register(state, address)
}

// A whole script file. (rule 10.8)
#[unsafe(no_mangle)]
pub extern "C" fn tallowreed_run(file: &[u8], output: &mut [u8], state: &mut [u8]) -> u64
    ensures { lent_run result output.new state.new ≡ run_of file.now output.old state.old }
{
    sd2068_abi::tallowreed_run(file, output, state)
}
