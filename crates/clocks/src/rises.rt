// Clocks that are no source steps, and the first of which takes a held rise (02, R-2).
ghost use Rattle.std.specs.Prelude.{map, ◌≡◌};
ghost use Rattle.std.proofs.lemmas.List.Edits.{sets};
ghost use Rattle.clocks.specs.Clocks.{clock_number};
ghost use Rattle.clocks.specs.Rises.{rises_first, risen_first, risen_moments};

use crate::note;
use timer::control::clock_steps;
use timer::{ClockNumber, Run, Timer};

// n clocks, at least one, are no source steps, and the first takes a held rise.
#[tactic(auto, unfolding(crate::specs::Rises::rises_first))]
pub fn rises(timer: Timer, tin: bool, n: u32) -> bool
    ensures { result ≡ rises_first tin n timer }
{
    (n != 0) & (!clock_steps(timer.tcr, tin) & timer.takes_rise(tin))
}

// The timer after such clocks, of which the first alone does something, and how many opened. The number of the first goes into the row at
// place `at`, where it opens and the row has room.
#[tactic(auto, unfolding(crate::specs::Rises::risen_first, crate::specs::Rises::risen_moments))]
pub fn risen(timer: Timer, passed: ClockNumber, row: &mut [u32], at: usize) -> Run<Timer>
    ensures counted { result ≡ risen_first timer }
    ensures numbered { row.new ≡ sets row.old at (map clock_number (risen_moments timer passed.0)) }
{
    let next = timer.risen();
    if next.opened {
        note(row, at, 0, passed.0 as u64 + 1);
    }
    Run {
        part: next.part,
        used: usize::from(next.opened),
    }
}
