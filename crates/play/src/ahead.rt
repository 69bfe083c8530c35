// Clocks of the gate, a held rise taken ahead of the others. Quiet and regular clocks `run` works out itself, where the device stands.
ghost use Rattle.std.specs.Prelude.{◌≡◌, map};
ghost use Rattle.std.proofs.lemmas.List.Edits.{sets};
ghost use Rattle.clocks.specs.Clocks.{clock_number};
ghost use Rattle.gate.specs.Clocking.{gate_run, gate_openings};

use gate::Gate;
use timer::{ClockNumber, Run};

// n clocks, after those that have passed. The number of each that opens goes into the row from place `at` on, as far as the row has room.
pub(crate) fn clocks_ahead(
    gate: Gate,
    n: u32,
    passed: ClockNumber,
    row: &mut [u32],
    at: usize,
) -> Run<Gate>
    ensures counted { result ≡ gate_run n passed.0 gate }
    ensures numbered { row.new ≡ sets row.old at (map clock_number (gate_openings n passed.0 gate)) }
{
    if gate.rises(n) {
        gate.risen(passed, row, at)
    } else {
        gate.clocks(n, passed, row, at)
    }
}
