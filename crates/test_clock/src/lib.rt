// The processor time that the running program has used, for programs that tell how long a call takes, and whether they
// are asked to.
// std's clock of the process counts nanoseconds, and answers an error where it has no time to tell.
#![tactic(auto)]

ghost use Rattle.std.specs.Prelude.{◌<◌};

use std::rt::Env;
use std::time::CpuClock;

// The processor time used so far in microseconds, or 0 where the clock fails.
pub fn micros(rt: &impl CpuClock) -> u64
    ensures { result < 0x8000_0000_0000_0000 }
{
    match rt.process_cpu_time() {
        Ok(time) => told(time.as_micros()),
        Err(_) => 0,
    }
}

// A time of so many microseconds; one of 2^63 or more counts as none.
fn told(micros: u128) -> u64
    ensures { result < 0x8000_0000_0000_0000 }
{
    if micros < 0x8000_0000_0000_0000 {
        micros as u64
    } else {
        0
    }
}

// Whether times are asked for: whether there is an argument behind the program's name.
pub fn is_timed(rt: &impl Env) -> bool {
    test_args::is_given(rt, 1)
}
