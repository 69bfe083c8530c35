// A fresh port and a fresh pair, and reset (01, 'A fresh device').
ghost use Rattle.std.specs.Prelude.{◌≡◌};
ghost use Rattle.port.specs.Fresh.{fresh_port, reset_port, still, fresh_link, reset_link};

use crate::{Cells, Link, Port, Strobe};

impl Port {
    // A fresh port: every outside level high.
    #[tactic(auto, unfolding(crate::specs::Fresh::fresh_port))]
    pub fn fresh() -> Port
        ensures { result ≡ fresh_port }
    {
        Port {
            direction: 0,
            cells: Cells {
                latch: 0,
                initial: 0,
                first: 0,
                second: 0,
                last: 0,
            },
            outside: 0xff,
        }
    }

    // Reset: direction cleared; the latches, the last byte read and the outside levels kept.
    #[tactic(auto, unfolding(crate::specs::Fresh::reset_port))]
    pub fn reset(mut self) -> Port
        ensures { result ≡ reset_port self }
    {
        self.direction = 0;
        self
    }
}

impl Strobe {
    // H2 with neither wait, pulse nor assertion.
    pub(crate) fn still() -> Strobe
        ensures { result ≡ still }
    {
        Strobe {
            wait: 0,
            pulse: 0,
            asserted: false,
        }
    }
}

impl Link {
    // A fresh pair: both outside levels high.
    #[tactic(auto, unfolding(crate::specs::Fresh::fresh_link))]
    pub fn fresh() -> Link
        ensures { result ≡ fresh_link }
    {
        Link {
            control: 0,
            held: 0,
            strobe: Strobe::still(),
            flag1: false,
            flag2: false,
            level1: true,
            level2: true,
        }
    }

    // Reset: control cleared, nothing held, flags and handshake clear; the outside levels kept.
    #[tactic(auto, unfolding(crate::specs::Fresh::reset_link))]
    pub fn reset(mut self) -> Link
        ensures { result ≡ reset_link self }
    {
        self.control = 0;
        self.held = 0;
        self.strobe = Strobe::still();
        self.flag1 = false;
        self.flag2 = false;
        self
    }
}
