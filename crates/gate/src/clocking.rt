// Clocks of the gate (01, 'Timer').
ghost use Rattle.std.specs.Prelude.{◌≡◌, map};
ghost use Rattle.std.proofs.lemmas.List.Edits.{sets};
ghost use Rattle.clocks.specs.Clocks.{clock_number};
ghost use Rattle.gate.specs.Ahead.{quiet_gate, passed_gate, rises_gate, risen_gate, moments_risen, regular_gate, opened_gate, gone_gate, moments_gate};
ghost use Rattle.gate.specs.Clocking.{clocked_gate, gate_openings, gate_run};

use crate::Gate;
use timer::control::clock_steps;
use timer::{ClockNumber, Run, Stepped};

impl Gate {
    // One clock.
    #[tactic(auto, unfolding(crate::specs::Clocking::clocked_gate))]
    pub fn clock(mut self) -> Stepped<Gate>
        ensures { result ≡ clocked_gate self }
    {
        let next = self.timer.clocked(self.c.tin());
        self.timer = next.part;
        Stepped {
            part: self,
            opened: next.opened,
        }
    }

    // n clocks, after those that have passed, at once. The number of each that opens goes into the row from place `at` on, as far
    // as the row has room. A timer that they do not step, and that holds no rise for them, stands.
    #[tactic(auto, unfolding(crate::specs::Clocking::gate_run, clocks::specs::Clocks::clocks_of), using(clocks::specs::Spans::idle, clocks::specs::Spans::idle_openings))]
    pub fn clocks(mut self, n: u32, passed: ClockNumber, row: &mut [u32], at: usize) -> Run<Gate>
        ensures counted { result ≡ gate_run n passed.0 self }
        ensures numbered { row.new ≡ sets row.old at (map clock_number (gate_openings n passed.0 self)) }
    {
        let tin = self.c.tin();
        if !clock_steps(self.timer.tcr, tin) & !self.timer.takes_rise(tin) {
            return Run {
                part: self,
                used: 0,
            };
        }
        let run = clocks::clocks(self.timer, tin, n, passed, row, at);
        self.timer = run.part;
        Run {
            part: self,
            used: run.used,
        }
    }

    // n clocks open nothing, and only lower the counter.
    #[tactic(auto, unfolding(crate::specs::Ahead::quiet_gate))]
    pub fn quiet(self, n: u32) -> bool
        ensures { result ≡ quiet_gate n self }
    {
        clocks::quiet::quiet(self.timer, self.c.tin(), n)
    }

    // The gate after n such clocks.
    #[tactic(auto, unfolding(crate::specs::Ahead::passed_gate))]
    pub fn passed(mut self, n: u32) -> Gate
        ensures { result ≡ passed_gate n self }
    {
        self.timer = clocks::quiet::passed(self.timer, self.c.tin(), n);
        self
    }

    // n clocks, at least one, are no source steps, and the first takes a held rise.
    #[tactic(auto, unfolding(crate::specs::Ahead::rises_gate))]
    pub fn rises(self, n: u32) -> bool
        ensures { result ≡ rises_gate n self }
    {
        clocks::rises::rises(self.timer, self.c.tin(), n)
    }

    // The gate after such clocks, and how many opened it: the first or none. Its number goes into the row at place `at`, as far as the
    // row has room.
    #[tactic(auto, unfolding(crate::specs::Ahead::risen_gate, crate::specs::Ahead::moments_risen))]
    pub fn risen(mut self, passed: ClockNumber, row: &mut [u32], at: usize) -> Run<Gate>
        ensures counted { result ≡ risen_gate self }
        ensures numbered { row.new ≡ sets row.old at (map clock_number (moments_risen passed.0 self)) }
    {
        let run = clocks::rises::risen(self.timer, passed, row, at);
        self.timer = run.part;
        Run {
            part: self,
            used: run.used,
        }
    }

    // Clocks are source steps, and open at regular clocks.
    #[tactic(auto, unfolding(crate::specs::Ahead::regular_gate))]
    pub fn regular(self) -> bool
        ensures { result ≡ regular_gate self }
    {
        clock_steps(self.timer.tcr, self.c.tin()) & clocks::regular::regular(self.timer)
    }

    // How many of n such clocks open.
    #[tactic(auto, unfolding(crate::specs::Ahead::opened_gate))]
    pub fn opened(self, n: u32) -> usize
        ensures { result ≡ opened_gate n self }
    {
        clocks::regular::opened(self.timer, n)
    }

    // The gate after them.
    #[tactic(auto, unfolding(crate::specs::Ahead::gone_gate))]
    pub fn gone_on(mut self, n: u32) -> Gate
        ensures { result ≡ gone_gate n self }
    {
        self.timer = clocks::regular::gone_on(self.timer, n);
        self
    }

    // The numbers of those that open go into the row from place `at` on, as far as the row has room.
    #[tactic(auto, unfolding(crate::specs::Ahead::moments_gate))]
    pub fn list(self, n: u32, passed: ClockNumber, row: &mut [u32], at: usize)
        ensures { row.new ≡ sets row.old at (map clock_number (moments_gate n passed.0 self)) }
    {
        clocks::regular::list(self.timer, n, passed, row, at);
    }
}
