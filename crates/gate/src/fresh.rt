// A fresh gate, and reset (01, 'A fresh device').
ghost use Rattle.std.specs.Prelude.{◌≡◌};
ghost use Rattle.gate.specs.Fresh.{fresh_gate, reset_gate};

use crate::Gate;
use port_c::PortC;
use timer::Timer;

impl Gate {
    #[tactic(auto, unfolding(crate::specs::Fresh::fresh_gate))]
    pub fn fresh() -> Gate
        ensures { result ≡ fresh_gate }
    {
        Gate {
            timer: Timer::fresh(),
            c: PortC::fresh(),
        }
    }

    // Preload, counter, port C's latch and its outside levels are kept.
    #[tactic(auto, unfolding(crate::specs::Fresh::reset_gate))]
    pub fn reset(mut self) -> Gate
        ensures { result ≡ reset_gate self }
    {
        self.timer = self.timer.reset();
        self.c = self.c.reset();
        self
    }
}
