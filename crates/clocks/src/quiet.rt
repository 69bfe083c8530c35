// Clocks that open nothing, and change the counter and the prescaler alone (01, 'Timer').
ghost use Rattle.std.specs.Prelude.{◌≡◌};
ghost use Rattle.clocks.specs.Quiet.{quiet_clocks, passed_clocks};

use crate::counts::lowers;
use crate::steps::{TURN, counts_in, scaled_after};
use timer::Timer;
use timer::control::clock_steps;

// n clocks make fewer counts than lower the counter to zero, or none from a prescaler past 31; or they are no source steps, and take no
// held rise.
#[tactic(auto, unfolding(crate::specs::Quiet::quiet_clocks))]
pub fn quiet(timer: Timer, tin: bool, n: u32) -> bool
    ensures { result ≡ quiet_clocks tin n timer }
{
    if clock_steps(timer.tcr, tin) {
        return n as u64 + (Timer::FULL as u64)
            < timer.phase.prescaler.0 as u64 + TURN * (lowers(timer) as u64);
    }
    !timer.takes_rise(tin)
}

// The timer after n such clocks: its counter lower by their counts, where they are source steps.
#[tactic(auto, unfolding(crate::specs::Quiet::passed_clocks))]
pub fn passed(mut timer: Timer, tin: bool, n: u32) -> Timer
    ensures { result ≡ passed_clocks tin n timer }
{
    if !clock_steps(timer.tcr, tin) {
        return timer;
    }
    let counts = counts_in(timer.phase.prescaler, n as u64);
    timer.phase.prescaler = scaled_after(timer.phase.prescaler, n as u64);
    timer.count.0 = (timer.count.0 as u64).saturating_sub(counts) as u32;
    timer
}
