// The gate followed through clocks, with how many of them open it (01, 'Timer').
ghost use Rattle.std.specs.Prelude.{◌≡◌};
ghost use Rattle.survey.specs.Watching.{watched_clocks};

use gate::Gate;
use timer::{ClockNumber, Run};

// n clocks. Only how many open is asked, and so their numbers get no entry.
#[tactic(auto, unfolding(crate::specs::Watching::watched_clocks, gate::specs::Clocking::gate_run))]
pub(crate) fn watch_clocks(gate: Gate, n: u32) -> Run<Gate>
    ensures { result ≡ watched_clocks gate n }
{
    gate.clocks(n, ClockNumber(0), &mut [], 0)
}
