// Openings that come at regular clocks (01, 'Timer': at zero the counter is reloaded or rolls, and later counts lower it again).
ghost use Rattle.std.specs.Prelude.{◌+◌, ◌*◌, ◌<◌, ◌^◌, map, ◌≡◌};
ghost use Rattle.std.proofs.lemmas.List.Edits.{sets};
ghost use Rattle.clocks.specs.Clocks.{clock_number};
ghost use Rattle.clocks.specs.Regular.{regular_of, counts_between, counts_before, clocks_to, period_of, opened_in, spaced, moments_of, gone_on};

use crate::jumps::over;
use crate::number_of;
use crate::steps::TURN;
use timer::control::rolls;
use timer::{ClockNumber, Timer};

// The counts of a roll: one to FFFFFF, and as many as lower that to zero.
const ROLL: u64 = 0x1000000;

// Openings come at regular clocks: a load that is due is not one of zero, and a count at zero leads on to more than zero.
#[tactic(auto, unfolding(crate::specs::Regular::regular_of))]
pub fn regular(timer: Timer) -> bool
    ensures { result ≡ regular_of timer }
{
    if timer.phase.due & (timer.preload.0 == 0) {
        return false;
    }
    rolls(timer.tcr) | (timer.preload.0 != 0)
}

// The counts from one opening to the next: one that reloads or rolls, and as many as then lower the counter to zero.
#[tactic(auto, unfolding(crate::specs::Regular::counts_between))]
fn counts_between(timer: Timer) -> u64
    ensures { result ≡ counts_between timer }
{
    if rolls(timer.tcr) {
        ROLL
    } else {
        timer.preload.0 as u64 + 1
    }
}

// The counts before the first that opens.
#[tactic(auto, unfolding(crate::specs::Regular::counts_before), using(crate::proofs::Sizes::some_between))]
fn counts_before(timer: Timer) -> u64
    ensures { result ≡ counts_before timer }
{
    if timer.phase.due {
        timer.preload.0 as u64
    } else if timer.count.0 == 0 {
        counts_between(timer) - 1
    } else {
        timer.count.0 as u64 - 1
    }
}

// The clocks to the first opening, its own among them.
#[tactic(auto, unfolding(crate::specs::Regular::clocks_to, crate::specs::Steps::steps_to), using(crate::proofs::Sizes::most_before))]
fn clocks_to(timer: Timer) -> u64
    ensures { result ≡ clocks_to timer }
{
    timer.phase.prescaler.0 as u64 + 1 + TURN * counts_before(timer)
}

// The clocks from one opening to the next.
#[tactic(auto, unfolding(crate::specs::Regular::period_of), using(crate::proofs::Sizes::most_between))]
fn period(timer: Timer) -> u64
    ensures { result ≡ period_of timer }
{
    TURN * counts_between(timer)
}

// How many of n clocks open.
#[tactic(auto, unfolding(crate::specs::Regular::opened_in), using(crate::proofs::Sizes::some_period))]
pub fn opened(timer: Timer, n: u32) -> usize
    ensures { result ≡ opened_in timer n }
{
    let first = clocks_to(timer);
    if (n as u64) < first {
        return 0;
    }
    ((n as u64 - first) / period(timer)) as usize + 1
}

// The timer after n clocks: before the first opening, or so many turns and a rest after it.
#[tactic(auto, unfolding(crate::specs::Regular::gone_on, crate::specs::Regular::since_of, crate::specs::Regular::square_after), using(crate::proofs::Sizes::most_before, crate::proofs::Sizes::most_between, crate::proofs::Sizes::some_period, crate::proofs::Sizes::past_less))]
pub fn gone_on(mut timer: Timer, n: u32) -> Timer
    ensures { result ≡ gone_on timer n }
{
    let first = clocks_to(timer);
    if (n as u64) < first {
        return over(timer, counts_before(timer) as u32, n as u64).timer;
    }
    let left = n as u64 - first;
    let between = counts_between(timer);
    let period = period(timer);
    let turns = left / period;
    let rest = left % period;
    let past = rest / TURN;
    timer.phase.due = false;
    timer.phase.zds = true;
    timer.phase.square = timer.phase.square == (turns % 2 == 1);
    timer.phase.prescaler.0 = Timer::FULL - (rest % TURN) as u8;
    timer.count.0 = if past == 0 {
        0
    } else {
        (between - past) as u32
    };
    timer
}

// Lists so many clock numbers from one on, a period apart, as far as the row has room.
#[tactic(auto, using(crate::proofs::Listing::fits_on, crate::proofs::Listing::noted, crate::proofs::Listing::ends))]
fn listed(first: u64, period: u64, many: usize, row: &mut [u32], at: usize)
    requires { first + many * period < 2 ^ 64 }
    ensures { row.new ≡ sets row.old at (map clock_number (spaced period first many)) }
{
    let mut number = first;
    for place in at..row.len().min(at.saturating_add(many)) {
        row[place] = number_of(number);
        number += period;
    }
}

// The numbers of those of n clocks that open go into the row from place `at` on, as far as the row has room.
#[tactic(auto, using(crate::proofs::Sizes::most_first, crate::proofs::Sizes::most_period, crate::proofs::Sizes::opened_span))]
pub fn list(timer: Timer, n: u32, passed: ClockNumber, row: &mut [u32], at: usize)
    ensures { row.new ≡ sets row.old at (map clock_number (moments_of timer n passed.0)) }
{
    listed(
        passed.0 as u64 + clocks_to(timer),
        period(timer),
        opened(timer, n),
        row,
        at,
    );
}
