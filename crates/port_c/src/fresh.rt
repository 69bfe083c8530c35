// A fresh port C, and reset (01, 'A fresh device'; 02, R-6).
ghost use Rattle.std.specs.Prelude.{◌≡◌};
ghost use Rattle.port_c.specs.Fresh.{fresh_c, reset_c};

use crate::PortC;

impl PortC {
    // A fresh port C: PC2's outside level low, all others high.
    #[tactic(auto, unfolding(crate::specs::Fresh::fresh_c))]
    pub fn fresh() -> PortC
        ensures { result ≡ fresh_c }
    {
        PortC {
            direction: 0,
            latch: 0,
            outside: 0xfb,
        }
    }

    // Reset: direction cleared; the latch and the outside levels kept.
    #[tactic(auto, unfolding(crate::specs::Fresh::reset_c))]
    pub fn reset(mut self) -> PortC
        ensures { result ≡ reset_c self }
    {
        self.direction = 0;
        self
    }
}
